//! The words for staff of a message that came.

ghost use Rattle.std.specs.Prelude.{◌≡◌, ◌++◌, IfOk};
ghost use Rattle.ill_values.specs.Day.{iso_text};
ghost use Rattle.ill_beside.specs.NewsWords.{answer_words, lender_words, news_words, refused_words, printed_words};

use ill_saved::Side;
use ill_values::{AnswerResult, Body, Day, OutOfMemory};
use std::alloc::Global;

/// Returns the words of a message with this body. `due` is the day on which the item of the loan is due.
pub fn news_words(alloc: Global, due: Option<Day>, body: &Body) -> Result<Vec<u8>, OutOfMemory>
    ensures { IfOk result (λ words. words.items ≡ news_words due body.now) }
{
    match body {
        Body::IllRequest { expiry: None, .. } => plain(alloc, "asked for"),
        Body::IllRequest {
            expiry: Some(day),
            ..
        } => dated(alloc, "asked for, until ", *day),
        Body::IllAnswer { result: answer } => plain(alloc, answer_words(*answer)),
        Body::ConditionalReply { yes: true, .. } => plain(alloc, "conditions accepted"),
        Body::ConditionalReply { yes: false, .. } => plain(alloc, "conditions declined"),
        Body::Cancel => plain(alloc, "asks to cancel"),
        Body::CancelReply { yes: true, .. } => plain(alloc, "cancel agreed"),
        Body::CancelReply { yes: false, .. } => plain(alloc, "cancel refused"),
        Body::Shipped { due } => dated(alloc, "shipped, due ", *due),
        Body::Received => plain(alloc, "the partner has received it"),
        Body::Recall => plain(alloc, "recalled: send it back"),
        Body::Returned => plain(alloc, "on its way back"),
        Body::CheckedIn => plain(alloc, "the partner has it back"),
        Body::Overdue { due } => dated(alloc, "overdue, was due ", *due),
        Body::Renew { wished: None } => plain(alloc, "asks to renew"),
        Body::Renew { wished: Some(day) } => dated(alloc, "asks to renew, until ", *day),
        Body::RenewAnswer { granted: None, .. } => refused_words(alloc, due),
        Body::RenewAnswer {
            granted: Some(day),
            ..
        } => dated(alloc, "renewed, due ", *day),
        Body::Expired => plain(alloc, "no: the request has expired"),
    }
}

/// Returns the words of a message with this body in the news of the loan of `side`.
pub fn printed_words(alloc: Global, side: &Side, body: &Body) -> Result<Vec<u8>, OutOfMemory>
    ensures { IfOk result (λ words. words.items ≡ printed_words side.now body.now) }
{
    match side {
        Side::Requester(_) => news_words(alloc, side.due(), body),
        Side::Responder(_) => lender_words(alloc, side.due(), body),
    }
}

/// Returns the words of a message with this body in the news of a lender's loan, which is due on `due`.
fn lender_words(alloc: Global, due: Option<Day>, body: &Body) -> Result<Vec<u8>, OutOfMemory>
    ensures { IfOk result (λ words. words.items ≡ lender_words due body.now) }
{
    match body {
        Body::Overdue { .. } => plain(alloc, "overdue notice sent"),
        Body::Expired => plain(alloc, "expired"),
        _ => news_words(alloc, due, body),
    }
}

/// Returns the words of an ILL-Answer with this result.
fn answer_words(answer: AnswerResult) -> &'static str
    ensures { result.now ≡ answer_words answer }
{
    match answer {
        AnswerResult::Conditional => "only on conditions",
        AnswerResult::Retry => "no: try again later",
        AnswerResult::Unfilled => "no: unfilled",
        AnswerResult::LocationsProvided => "no: other libraries may have it",
        AnswerResult::WillSupply => "will supply",
        AnswerResult::HoldPlaced => "hold placed",
        AnswerResult::Estimate => "no: an estimate of the cost",
    }
}

/// Returns the words of a refused renewal, with the day `due` on which the item is due, if there is one.
fn refused_words(alloc: Global, due: Option<Day>) -> Result<Vec<u8>, OutOfMemory>
    ensures { IfOk result (λ words. words.items ≡ refused_words due) }
{
    match due {
        None => plain(alloc, "renewal refused"),
        Some(due) => dated(alloc, "renewal refused, still due ", due),
    }
}

/// Returns a copy of `words`.
fn plain(alloc: Global, words: &str) -> Result<Vec<u8>, OutOfMemory>
    ensures { IfOk result (λ copy. copy.items ≡ words.now) }
{
    Vec::from_slice(alloc, words.as_bytes())
}

/// Returns `words` and `day` after them.
fn dated(alloc: Global, words: &str, day: Day) -> Result<Vec<u8>, OutOfMemory>
    ensures { IfOk result (λ text. text.items ≡ words.now ++ iso_text day) }
{
    let mut text = Vec::from_slice(alloc, words.as_bytes())?;
    text.extend_from_slice(&day.iso())?;
    Ok(text)
}
