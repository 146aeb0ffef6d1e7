//! Defines the messages of the protocol.

ghost use Rattle.std.specs.Prelude.{◌≡◌, ℕ, List, Some, IfOk};
ghost use Rattle.std.specs.Result.{result_ok};
ghost use Rattle.std.specs.Fmt.{padded};
ghost use Rattle.std.specs.Fn.{FnOnceReturnsAt};
ghost use Rattle.ill_values.specs.Body.{map_item, body_in, checked_body, Maps};
ghost use Rattle.ill_values.specs.Results.{result_name, result_named};
ghost use Rattle.ill_values.specs.Text.{ReturnsText};
ghost use Rattle.ill_values.specs.Types.{type_of, type_name};

use crate::apdu_type::ApduType;
use crate::day::Day;
use crate::fault::{TextFault, UnknownName};
use crate::item::Item;
use crate::number::Number;
use crate::txn_id::TxnId;
use std::alloc::{AllocError as OutOfMemory, Global};
use std::convert::Infallible;
use std::fmt;
use std::str::FromStr;

/// A message of the interlibrary loan protocol (ISO 10161-1), with the fields that this profile has.
#[derive(Debug, PartialEq, Eq, Drop)]
pub struct Apdu {
    /// The transaction that the message belongs to.
    pub txn: TxnId,
    /// The number of the message among those that its sender issued in the transaction.
    pub number: Number,
    /// The type of the message, with the fields of that type.
    pub body: Body,
}

impl Apdu {
    /// Returns a copy of the message, in memory of its own.
    pub fn copy(&self, alloc: Global) -> Result<Apdu, OutOfMemory>
        ensures { IfOk result (λ apdu. apdu ≡ self.now) }
    {
        let txn = self.txn.copy(alloc)?;
        let body = self.body.copy(alloc)?;
        Ok(Apdu {
            txn,
            number: self.number,
            body,
        })
    }
}

/// The body of a message: one of the fourteen types, with exactly its fields.
///
/// A requester issues `IllRequest`, `ConditionalReply`, `Cancel`, `Received`, `Renew` and `Returned`, and a responder
/// the other eight.
pub type Body = BodyWith<Item>;

/// A view of the body of a message: `Body`, with the bytes of its item borrowed.
pub type BodyView<'a> = BodyWith<&'a [u8]>;

/// The body of a message, with an `I` for its item.
#[derive(Clone, Copy, Debug, PartialEq, Eq, Drop)]
pub enum BodyWith<I> {
    /// The requester asks for an item.
    IllRequest {
        /// The last day of the request: the responder may let it expire from the next day on.
        expiry: Option<Day>,
        /// The item that is asked for.
        item: I,
    },
    /// The responder reports a result: conditions, a promise, or the end of the request.
    IllAnswer {
        /// The result that is reported.
        result: AnswerResult,
    },
    /// The requester accepts or declines the responder's conditions.
    ConditionalReply {
        /// The number of the ILL-Answer conditional that is answered.
        answers: Number,
        /// True if the requester accepts the conditions.
        yes: bool,
    },
    /// The requester asks the responder to cancel the request.
    Cancel,
    /// The responder agrees to a Cancel or refuses it.
    CancelReply {
        /// The number of the Cancel.
        answers: Number,
        /// True if the request is cancelled.
        yes: bool,
    },
    /// The responder has sent the item.
    Shipped {
        /// The day on which the item is due.
        due: Day,
    },
    /// The item has reached the requester.
    Received,
    /// The responder asks for the item back at once.
    Recall,
    /// The requester has sent the item back.
    Returned,
    /// The item is back at the responder.
    CheckedIn,
    /// The responder reports that the due date has passed.
    Overdue {
        /// The due date that has passed.
        due: Day,
    },
    /// The requester asks for a later due date.
    Renew {
        /// The due date that the requester would like, if it names one.
        wished: Option<Day>,
    },
    /// The responder grants a Renew or refuses it.
    RenewAnswer {
        /// The number of the Renew.
        answers: Number,
        /// The new due date, if the answer is yes. Without a date the answer is no.
        granted: Option<Day>,
    },
    /// The responder ends the request because its expiry date has passed.
    Expired,
}

impl<I> BodyWith<I> {
    /// Returns the type of the message. If bytes replace its item, the body keeps the type (`mapped`).
    pub fn apdu_type(&self) -> ApduType
        ensures value { result ≡ type_of self.now }
        ensures mapped { (text : I → List ℕ) → result ≡ type_of (map_item text self.now) }
    {
        match self {
            BodyWith::IllRequest { .. } => ApduType::IllRequest,
            BodyWith::Shipped { .. } => ApduType::Shipped,
            BodyWith::IllAnswer { .. } => ApduType::IllAnswer,
            BodyWith::ConditionalReply { .. } => ApduType::ConditionalReply,
            BodyWith::Cancel => ApduType::Cancel,
            BodyWith::CancelReply { .. } => ApduType::CancelReply,
            BodyWith::Received => ApduType::Received,
            BodyWith::Recall => ApduType::Recall,
            BodyWith::Returned => ApduType::Returned,
            BodyWith::CheckedIn => ApduType::CheckedIn,
            BodyWith::Overdue { .. } => ApduType::Overdue,
            BodyWith::Renew { .. } => ApduType::Renew,
            BodyWith::RenewAnswer { .. } => ApduType::RenewAnswer,
            BodyWith::Expired => ApduType::Expired,
        }
    }

    /// Returns the name of the type of the message, as `ILL-Request`. If bytes replace its item, the body keeps the
    /// name (`mapped`).
    pub fn type_name(&self) -> &'static str
        ensures value { result.now ≡ type_name self.now }
        ensures mapped { (text : I → List ℕ) → result.now ≡ type_name (map_item text self.now) }
    {
        self.apdu_type().name()
    }

    /// Returns the body with what `make` makes of its item, or the error of `make`. Only an `IllRequest` has an item.
    /// All other fields are copied.
    fn try_map<'a, J, E, Make: FnOnce(&'a I) -> Result<J, E>>(
        &'a self,
        make: Make,
    ) -> Result<BodyWith<J>, E>
    where
        Make: Drop,
        requires { Make.IsAlwaysCallable make }
        ensures { Maps (λ item made. FnOnceReturnsAt Make.FnOnce make item made) self.now result }
    {
        Ok(match self {
            BodyWith::IllRequest { expiry, item } => BodyWith::IllRequest {
                expiry: *expiry,
                item: match make(item) {
                    Ok(made) => made,
                    Err(fault) => return Err(fault),
                },
            },
            BodyWith::IllAnswer { result } => BodyWith::IllAnswer { result: *result },
            BodyWith::ConditionalReply { answers, yes } => BodyWith::ConditionalReply {
                answers: *answers,
                yes: *yes,
            },
            BodyWith::Cancel => BodyWith::Cancel,
            BodyWith::CancelReply { answers, yes } => BodyWith::CancelReply {
                answers: *answers,
                yes: *yes,
            },
            BodyWith::Shipped { due } => BodyWith::Shipped { due: *due },
            BodyWith::Received => BodyWith::Received,
            BodyWith::Recall => BodyWith::Recall,
            BodyWith::Returned => BodyWith::Returned,
            BodyWith::CheckedIn => BodyWith::CheckedIn,
            BodyWith::Overdue { due } => BodyWith::Overdue { due: *due },
            BodyWith::Renew { wished } => BodyWith::Renew { wished: *wished },
            BodyWith::RenewAnswer { answers, granted } => BodyWith::RenewAnswer {
                answers: *answers,
                granted: *granted,
            },
            BodyWith::Expired => BodyWith::Expired,
        })
    }
}

impl ApduType {
    /// Returns the type of `body`.
    pub fn of(body: &Body) -> ApduType
        ensures { result ≡ type_of body.now }
    {
        body.apdu_type()
    }
}

impl Body {
    /// Returns a view of the body. It allocates nothing.
    pub fn view(&self) -> BodyView<'_>
        ensures { body_in result ≡ self.now }
    {
        match self.try_map(|item| Ok::<_, Infallible>(item.text())) {
            Ok(view) => view,
            Err(never) => match never {},
        }
    }

    /// Returns a copy of the body, in memory of its own. Only an `IllRequest` allocates.
    fn copy(&self, alloc: Global) -> Result<Body, OutOfMemory>
        ensures { IfOk result (λ body. body ≡ self.now) }
    {
        self.try_map(|item| item.copy(alloc))
    }
}

impl BodyView<'_> {
    /// Returns the body with the item in memory of its own, or the first fault of the item. Only an `IllRequest`
    /// allocates.
    pub fn to_body(&self, alloc: Global) -> Result<Body, TextFault>
        ensures { ReturnsText (checked_body self.now) result }
    {
        self.try_map(|item| Item::new(alloc, item))
    }
}

/// The result that an ILL-Answer reports. It is displayed by its name, as `will-supply`.
#[derive(Clone, Copy, Debug, PartialEq, Eq, Hash)]
pub enum AnswerResult {
    /// The item is supplied only on conditions, which the message does not name.
    Conditional,
    /// The item is not supplied now, but may be on a later request. The request ends.
    Retry,
    /// The item is not supplied. The request ends.
    Unfilled,
    /// The item is not supplied; other libraries have it. The request ends.
    LocationsProvided,
    /// The item will be supplied, but not yet. The request goes on.
    WillSupply,
    /// The item is not free, and the responder holds it for the requester next. The request goes on.
    HoldPlaced,
    /// The item is not supplied; the answer announces an estimate of the cost. The request ends.
    Estimate,
}

/// Lists all results, in the order of their octets.
const RESULTS: [AnswerResult; 7] = [
    AnswerResult::Conditional,
    AnswerResult::Retry,
    AnswerResult::Unfilled,
    AnswerResult::LocationsProvided,
    AnswerResult::WillSupply,
    AnswerResult::HoldPlaced,
    AnswerResult::Estimate,
];

impl AnswerResult {
    /// Returns the name of the result, as `will-supply`.
    pub fn name(self) -> &'static str
        ensures { result.now ≡ result_name self }
    {
        match self {
            AnswerResult::Conditional => "conditional",
            AnswerResult::Retry => "retry",
            AnswerResult::Unfilled => "unfilled",
            AnswerResult::LocationsProvided => "locations-provided",
            AnswerResult::WillSupply => "will-supply",
            AnswerResult::HoldPlaced => "hold-placed",
            AnswerResult::Estimate => "estimate",
        }
    }

    /// Returns the result with the name `text`, or `None`.
    pub fn read(text: &[u8]) -> Option<AnswerResult>
        ensures { result ≡ result_named text.now }
    {
        RESULTS
            .iter()
            .copied()
            .find(|answer| answer.name().as_bytes() == text)
    }
}

/// Reads the name of a result, as `AnswerResult::read` does.
impl FromStr for AnswerResult {
    type Err = UnknownName;

    ghost from_str_gives = { λ text result. result_ok result ≡ result_named text };

    fn from_str(text: &str) -> Result<AnswerResult, UnknownName> {
        AnswerResult::read(text.as_bytes()).ok_or(UnknownName)
    }
}

impl fmt::Display for AnswerResult {
    ghost output = { λ answer. Some (result_name answer) };

    ghost styled_output = { λ answer spec. Some (padded spec (result_name answer)) };

    fn fmt<W: fmt::Write>(&self, f: &mut fmt::Formatter<W>) -> fmt::Result {
        f.pad(self.name())
    }
}
