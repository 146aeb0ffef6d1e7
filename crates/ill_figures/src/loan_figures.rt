//! The figures of one loan: the day on which it was asked, how it ended, and how long it took.

ghost use Rattle.std.specs.Prelude.{◌≡◌, ◌++◌, ◌∷◌, [], filter, map, IfOk, OnOk};
ghost use Rattle.ill_record.specs.Side.{issued_of, state_of, txn_of};
ghost use Rattle.ill_beside.specs.Diary.{request_taken};
ghost use Rattle.ill_beside.specs.Heard.{is_heard};
ghost use Rattle.ill_text.specs.Diary.{message_key};
ghost use Rattle.ill_figures.specs.LoanFigures.{dated_of, day_of, day_said, days_between_steps, end_of, event_of, issued_dated, loan_in, loan_of, mentioned, refusal_by, refusal_in, refusal_of, taken_dated, takes};

use crate::days::days_from;
use crate::mentions::{Mention, day_said};
use ill_beside::diary::verb_of;
use ill_beside::heard::is_heard;
use ill_beside::keyed_came::KeyedCame;
use ill_core::State;
use ill_saved::Side;
use ill_text::diary::message_key;
use ill_values::{AnswerResult, Apdu, Body, Day, OutOfMemory};
use std::alloc::Global;

/// A message, by what it is for the figures.
#[derive(Clone, Copy)]
pub(crate) enum Event {
    /// The request.
    Asked,
    /// An ILL-Answer.
    Answered(AnswerResult),
    /// A Shipped.
    Shipped,
    /// A Received.
    Received,
    /// A Checked-In.
    CheckedIn,
    /// An Expired.
    Expired,
    /// Any other message.
    Other,
}

/// A message of a loan, with its day if a line of the diary names it.
#[derive(Clone, Copy)]
pub(crate) struct Dated {
    /// The message, by what it is for the figures.
    event: Event,
    /// Its day.
    day: Option<Day>,
}

/// A step of a loan.
#[derive(Clone, Copy)]
pub(crate) enum Step {
    /// The loan is asked.
    Ask,
    /// It is answered.
    Answer,
    /// The item is shipped.
    Ship,
    /// The item arrives.
    Arrive,
    /// The item is back.
    Back,
}

/// The end of a loan, or that it is open.
#[derive(Clone, Copy)]
pub(crate) enum End {
    /// The item was shipped.
    Filled,
    /// The request has no end yet.
    Open,
    /// The request was cancelled.
    Cancelled,
    /// The item was not supplied.
    Unfilled,
    /// The item was not supplied, but may be later.
    Retry,
    /// The item was not supplied, and the cost was estimated.
    Estimate,
    /// The item was not supplied, and other libraries have it.
    LocationsProvided,
    /// The request expired.
    Expired,
    /// The item was not supplied, and no message that is kept says why.
    Unknown,
}

/// The figures of a loan. A day or a number of days is `None` if no line of the diary says it.
#[derive(Clone, Copy)]
pub(crate) struct Loan {
    /// The day on which it was asked.
    pub asked: Option<Day>,
    /// The end of the loan.
    pub end: End,
    /// The days from the request to the first answer.
    pub answer: Option<u32>,
    /// The days from the request to the arrival of the item.
    pub arrive: Option<u32>,
    /// The days from the shipping of the item to its return.
    pub out: Option<u32>,
}

/// Returns the figures of the loan of `side`, by the `mentions` in the diary and by the messages `came`.
pub(crate) fn loan_of(
    alloc: Global,
    mentions: &[Mention],
    came: &KeyedCame,
    side: &Side,
) -> Result<Loan, OutOfMemory>
    ensures { IfOk result (λ loan. loan ≡ loan_of (map mentioned mentions.now) came.now side.now) }
{
    let kept = came.kept_of(alloc, side.txn())?;
    let messages = dated_of(alloc, mentions, side, &kept)?;
    Ok(loan_in(side.state(), &messages))
}

/// Returns the figures of a loan with these messages, in the state `state`.
fn loan_in(state: State, messages: &[Dated]) -> Loan
    ensures { result ≡ loan_in state messages.now }
{
    Loan {
        asked: day_of(Step::Ask, messages),
        end: end_of(state, refusal_of(messages)),
        answer: days_between_steps(Step::Ask, Step::Answer, messages),
        arrive: days_between_steps(Step::Ask, Step::Arrive, messages),
        out: days_between_steps(Step::Ship, Step::Back, messages),
    }
}

/// Returns the number of days from one step of a loan to another. If one has no day, or the last is before the first,
/// there is none.
fn days_between_steps(first: Step, last: Step, messages: &[Dated]) -> Option<u32>
    ensures { result ≡ days_between_steps first last messages.now }
{
    days_from(day_of(first, messages), day_of(last, messages))
}

/// Returns the messages that the record of `side` has, with their days. They are those that it issued, and those that
/// it shows as taken. The latter are the request in a responder's record, and messages of `kept`.
fn dated_of(
    alloc: Global,
    mentions: &[Mention],
    side: &Side,
    kept: &[Apdu],
) -> Result<Vec<Dated>, OutOfMemory>
    ensures { IfOk result (λ messages. messages.items ≡ dated_of (map mentioned mentions.now) side.now kept.now) }
{
    let mut messages = Vec::new(alloc);
    push_issued(&mut messages, mentions, side.all_issued())?;
    push_request(&mut messages, mentions, side)?;
    push_heard(&mut messages, mentions, side, kept)?;
    Ok(messages)
}

/// Appends the messages `apdus`, which were issued, with their days by `mentions`.
fn push_issued(
    messages: &mut Vec<Dated>,
    mentions: &[Mention],
    apdus: &[Apdu],
) -> Result<(), OutOfMemory>
    ensures { OnOk result (messages.new.items ≡ messages.old.items ++ map (issued_dated (map mentioned mentions.now)) apdus.now) }
{
    for apdu in apdus {
        push_dated(messages, mentions, verb_of(&apdu.body).name(), apdu)?;
    }
    Ok(())
}

/// Appends the request in a responder's record with its day, if the loan has begun.
fn push_request(
    messages: &mut Vec<Dated>,
    mentions: &[Mention],
    side: &Side,
) -> Result<(), OutOfMemory>
    ensures { OnOk result (messages.new.items ≡ messages.old.items
        ++ map (taken_dated (map mentioned mentions.now)) (request_taken side.now)) }
{
    match side {
        Side::Requester(_) => Ok(()),
        Side::Responder(responder) => match responder.request() {
            Some(request) => push_taken(messages, mentions, request),
            None => Ok(()),
        },
    }
}

/// Appends those of `kept` that the record of `side` shows as taken, with their days.
fn push_heard(
    messages: &mut Vec<Dated>,
    mentions: &[Mention],
    side: &Side,
    kept: &[Apdu],
) -> Result<(), OutOfMemory>
    ensures { OnOk result (messages.new.items ≡ messages.old.items
        ++ map (taken_dated (map mentioned mentions.now)) (filter (is_heard side.now) kept.now)) }
{
    for apdu in kept {
        push_if_heard(messages, mentions, side, apdu)?;
    }
    Ok(())
}

/// Appends the message `apdu`, if the record of `side` shows that it was taken.
fn push_if_heard(
    messages: &mut Vec<Dated>,
    mentions: &[Mention],
    side: &Side,
    apdu: &Apdu,
) -> Result<(), OutOfMemory>
    ensures { OnOk result (messages.new.items ≡ messages.old.items
        ++ map (taken_dated (map mentioned mentions.now)) (filter (is_heard side.now) (apdu.now ∷ []))) }
{
    if is_heard(side, apdu) {
        push_taken(messages, mentions, apdu)
    } else {
        Ok(())
    }
}

/// Appends the message `apdu`, which was taken.
fn push_taken(
    messages: &mut Vec<Dated>,
    mentions: &[Mention],
    apdu: &Apdu,
) -> Result<(), OutOfMemory>
    ensures { OnOk result (messages.new.items ≡ messages.old.items ++ taken_dated (map mentioned mentions.now) apdu.now ∷ []) }
{
    push_dated(messages, mentions, apdu.body.view().type_name(), apdu)
}

/// Appends the message `apdu` with its day by `mentions`. `what` is the word by which the lines name it.
fn push_dated(
    messages: &mut Vec<Dated>,
    mentions: &[Mention],
    what: &str,
    apdu: &Apdu,
) -> Result<(), OutOfMemory>
    ensures { OnOk result (messages.new.items ≡ messages.old.items ++ (record {
      event = event_of apdu.now.body;
      day = day_said (message_key apdu.now.txn what.now apdu.now.number) (map mentioned mentions.now);
    }) ∷ []) }
{
    let alloc = *messages.allocator();
    let number = u32::from(apdu.number.get());
    let key = message_key(alloc, &apdu.txn, what, number)?;
    messages.push(Dated {
        event: event_of(&apdu.body),
        day: day_said(&key, mentions),
    })?;
    Ok(())
}

/// Returns what a message with this body is for the figures.
fn event_of(body: &Body) -> Event
    ensures { result ≡ event_of body.now }
{
    match body {
        Body::IllRequest { .. } => Event::Asked,
        Body::IllAnswer { result: answer } => Event::Answered(*answer),
        Body::Shipped { .. } => Event::Shipped,
        Body::Received => Event::Received,
        Body::CheckedIn => Event::CheckedIn,
        Body::Expired => Event::Expired,
        _ => Event::Other,
    }
}

/// Returns true if a message takes this step of a loan. Shipping the item answers a request, too.
fn takes(step: Step, event: Event) -> bool
    ensures { result ≡ takes step event }
{
    matches!(
        (step, event),
        (Step::Ask, Event::Asked)
            | (Step::Answer, Event::Answered(_) | Event::Shipped)
            | (Step::Ship, Event::Shipped)
            | (Step::Arrive, Event::Received)
            | (Step::Back, Event::CheckedIn)
    )
}

/// Returns the day of a step: the day of the first of `messages` that takes it, if the day is known.
#[tactic(auto, unfolding(crate::specs::LoanFigures::day_of))]
fn day_of(step: Step, messages: &[Dated]) -> Option<Day>
    ensures { result ≡ day_of step messages.now }
{
    let mut rest = messages;
    while let Some((message, later)) = rest.split_first() {
        if takes(step, message.event) {
            return message.day;
        }
        rest = later;
    }
    None
}

/// Returns the reason of a refusal: that of the first of `messages` which gives one, or `Unknown` if none does.
#[tactic(auto, unfolding(crate::specs::LoanFigures::refusal_of))]
fn refusal_of(messages: &[Dated]) -> End
    ensures { result ≡ refusal_of messages.now }
{
    let mut rest = messages;
    while let Some((message, later)) = rest.split_first() {
        if let Some(reason) = refusal_in(message.event) {
            return reason;
        }
        rest = later;
    }
    End::Unknown
}

/// Returns the reason of a refusal that a message gives, if it gives one.
fn refusal_in(event: Event) -> Option<End>
    ensures { result ≡ refusal_in event }
{
    match event {
        Event::Answered(answer) => refusal_by(answer),
        Event::Expired => Some(End::Expired),
        _ => None,
    }
}

/// Returns the reason of a refusal, if an ILL-Answer with this result is one.
fn refusal_by(answer: AnswerResult) -> Option<End>
    ensures { result ≡ refusal_by answer }
{
    match answer {
        AnswerResult::Unfilled => Some(End::Unfilled),
        AnswerResult::Retry => Some(End::Retry),
        AnswerResult::Estimate => Some(End::Estimate),
        AnswerResult::LocationsProvided => Some(End::LocationsProvided),
        AnswerResult::Conditional | AnswerResult::WillSupply | AnswerResult::HoldPlaced => None,
    }
}

/// Returns how a loan in the state `state` ended. `refusal` is the reason, if it was refused.
fn end_of(state: State, refusal: End) -> End
    ensures { result ≡ end_of state refusal }
{
    match state {
        State::Idle
        | State::Pending
        | State::InProcess
        | State::Conditional
        | State::CancelPending => End::Open,
        State::Cancelled => End::Cancelled,
        State::NotSupplied => refusal,
        _ => End::Filled,
    }
}
