//! Defines the types of APDU.

ghost use Rattle.std.specs.Prelude.{◌≡◌, Some};
ghost use Rattle.std.specs.Result.{result_ok};
ghost use Rattle.std.specs.Fmt.{padded};
ghost use Rattle.ill_values.specs.Types.{apdu_type_name, apdu_type_named};

use crate::fault::UnknownName;
use std::fmt;
use std::str::FromStr;

/// The fourteen types of APDU, in the order of their tags. A type is displayed by its name, as `ILL-Request`.
#[derive(Clone, Copy, Debug, PartialEq, Eq, Hash)]
pub enum ApduType {
    /// ILL-Request.
    IllRequest,
    /// Shipped.
    Shipped,
    /// ILL-Answer.
    IllAnswer,
    /// Conditional-Reply.
    ConditionalReply,
    /// Cancel.
    Cancel,
    /// Cancel-Reply.
    CancelReply,
    /// Received.
    Received,
    /// Recall.
    Recall,
    /// Returned.
    Returned,
    /// Checked-In.
    CheckedIn,
    /// Overdue.
    Overdue,
    /// Renew.
    Renew,
    /// Renew-Answer.
    RenewAnswer,
    /// Expired.
    Expired,
}

/// Lists all types, in the order of their tags.
const TYPES: [ApduType; 14] = [
    ApduType::IllRequest,
    ApduType::Shipped,
    ApduType::IllAnswer,
    ApduType::ConditionalReply,
    ApduType::Cancel,
    ApduType::CancelReply,
    ApduType::Received,
    ApduType::Recall,
    ApduType::Returned,
    ApduType::CheckedIn,
    ApduType::Overdue,
    ApduType::Renew,
    ApduType::RenewAnswer,
    ApduType::Expired,
];

impl ApduType {
    /// Returns the name of the type, as `ILL-Request`.
    pub fn name(self) -> &'static str
        ensures { result.now ≡ apdu_type_name self }
    {
        match self {
            ApduType::IllRequest => "ILL-Request",
            ApduType::Shipped => "Shipped",
            ApduType::IllAnswer => "ILL-Answer",
            ApduType::ConditionalReply => "Conditional-Reply",
            ApduType::Cancel => "Cancel",
            ApduType::CancelReply => "Cancel-Reply",
            ApduType::Received => "Received",
            ApduType::Recall => "Recall",
            ApduType::Returned => "Returned",
            ApduType::CheckedIn => "Checked-In",
            ApduType::Overdue => "Overdue",
            ApduType::Renew => "Renew",
            ApduType::RenewAnswer => "Renew-Answer",
            ApduType::Expired => "Expired",
        }
    }

    /// Returns the type with the name `text`, or `None`.
    pub fn read(text: &[u8]) -> Option<ApduType>
        ensures { result ≡ apdu_type_named text.now }
    {
        TYPES
            .iter()
            .copied()
            .find(|apdu_type| apdu_type.name().as_bytes() == text)
    }
}

/// Reads the name of a type, as `ApduType::read` does.
impl FromStr for ApduType {
    type Err = UnknownName;

    ghost from_str_gives = { λ text result. result_ok result ≡ apdu_type_named text };

    fn from_str(text: &str) -> Result<ApduType, UnknownName> {
        ApduType::read(text.as_bytes()).ok_or(UnknownName)
    }
}

impl fmt::Display for ApduType {
    ghost output = { λ apdu_type. Some (apdu_type_name apdu_type) };

    ghost styled_output = { λ apdu_type spec. Some (padded spec (apdu_type_name apdu_type)) };

    fn fmt<W: fmt::Write>(&self, f: &mut fmt::Formatter<W>) -> fmt::Result {
        f.pad(self.name())
    }
}
