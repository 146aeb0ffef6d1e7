//! An event has an outcome, and an outcome has a word.

ghost use Rattle.std.specs.Prelude.{◌≡◌};
ghost use Rattle.ill_words.specs.Outcome.{outcome_word, desk_outcome_word};

use ill_core::{Refusal, Taking};

/// An event has one of these outcomes. Those from `Refused` on to `Forged` change nothing. `Answered` changes nothing
/// unless the message was `Taken`.
#[derive(Clone, Copy, Debug, PartialEq, Eq, Hash)]
pub enum Outcome {
    /// The action was done, and its message is issued.
    Done,
    /// The side was saved, and all its messages are released.
    Saved,
    /// The save failed, and releases no message.
    Faulted,
    /// The message was sent.
    Sent,
    /// The message was delivered, and has this answer.
    Answered(Taking),
    /// The action or the message was refused.
    Refused(Refusal),
    /// The side has issued no message with this number.
    NoSuchMessage,
    /// The message is not released, so it may not be sent.
    NotSaved,
    /// The other side has sent no message with this number.
    NotSent,
    /// The bytes are not exactly one APDU.
    Garbled,
    /// The bytes are an APDU of this transaction that neither side has sent.
    Forged,
    /// The side in memory was replaced by the one that is committed.
    Restarted,
}

impl Outcome {
    /// Returns the word of the outcome, as `done` or `not-now`.
    pub fn word(self) -> &'static str
        ensures { result.now ≡ outcome_word self }
    {
        match self {
            Outcome::Done => "done",
            Outcome::Saved => "saved",
            Outcome::Faulted => "faulted",
            Outcome::Sent => "sent",
            Outcome::Answered(taking) => taking.name(),
            Outcome::Refused(refusal) => refusal.name(),
            Outcome::NoSuchMessage => "no-such-message",
            Outcome::NotSaved => "not-saved",
            Outcome::NotSent => "not-sent",
            Outcome::Garbled => "garbled",
            Outcome::Forged => "forged",
            Outcome::Restarted => "restarted",
        }
    }
}

/// An event at a desk of many transactions has one of these outcomes. The last two change nothing.
#[derive(Clone, Copy, Debug, PartialEq, Eq, Hash)]
pub enum DeskOutcome {
    /// The event has this outcome in its transaction.
    Plain(Outcome),
    /// The desk holds no side of the transaction, and the event begins none.
    NoSuchTransaction,
    /// The desk holds as many sides as it may, and the event would begin one more.
    DeskFull,
}

impl DeskOutcome {
    /// Returns the word of the outcome.
    pub fn word(self) -> &'static str
        ensures { result.now ≡ desk_outcome_word self }
    {
        match self {
            DeskOutcome::Plain(outcome) => outcome.word(),
            DeskOutcome::NoSuchTransaction => "no-such-transaction",
            DeskOutcome::DeskFull => "desk-full",
        }
    }
}
