//! The counts of message files by their verdicts, and the ending of a run by them.

ghost use Rattle.std.specs.Prelude.{◌≡◌, ◌++◌, OnOk};
ghost use Rattle.ill_words.specs.declared.outcome.Outcome.TheVariants as outcomes;
ghost use Rattle.ill_words.specs.declared.outcome.DeskOutcome.TheVariants as seen;
ghost use Rattle.ill_night.specs.declared.verdict.Verdict.TheVariants as verdicts;
ghost use Rattle.ill_inbox.specs.Inbox.{count_on, ending, heap_of, is_heap, is_waiting, tally_of};
ghost use Rattle.ill_inbox.specs.Lines.{done_text, staying_text, tally_line};

use ill_core::Taking;
use ill_night::verdict::Verdict;
use ill_text::fault::ToolFault;
use ill_values::OutOfMemory;
use ill_words::{DeskOutcome, Outcome};

/// The heaps on which message files are counted, by their verdicts.
#[derive(Clone, Copy, Debug, PartialEq, Eq, Hash)]
pub(crate) enum Heap {
    /// Message files whose message was taken.
    Taken,
    /// Message files whose message was a repeat.
    Repeat,
    /// Message files whose message was stale.
    Stale,
    /// Message files whose message was in conflict with the state of its loan.
    Conflict,
    /// Message files whose message is of a loan that the desk does not have.
    Unknown,
    /// Message files that are quarantined.
    Quarantined,
    /// Message files that wait in their folder.
    Deferred,
}

/// The number of message files on each heap.
#[derive(Clone, Copy, Debug, PartialEq, Eq, Hash)]
pub struct Tally {
    pub taken: usize,
    pub repeat: usize,
    pub stale: usize,
    pub conflict: usize,
    pub unknown: usize,
    pub quarantined: usize,
    pub left: usize,
}

impl Heap {
    /// Returns the heap of a message file with this verdict.
    fn of(verdict: Verdict) -> Heap
        ensures { result ≡ heap_of verdict }
    {
        match verdict {
            Verdict::Done(DeskOutcome::Plain(Outcome::Answered(taking))) => Heap::of_taking(taking),
            Verdict::Done(_) => Heap::Unknown,
            Verdict::Quarantined(_) => Heap::Quarantined,
            Verdict::Deferred(_) => Heap::Deferred,
        }
    }

    /// Returns the heap of a message file whose message its side answered with `taking`.
    fn of_taking(taking: Taking) -> Heap
        ensures { result ≡ heap_of (verdicts.Done (seen.Plain (outcomes.Answered taking))) }
    {
        match taking {
            Taking::Taken => Heap::Taken,
            Taking::Repeat => Heap::Repeat,
            Taking::Stale => Heap::Stale,
            Taking::Conflict(_) => Heap::Conflict,
        }
    }

    /// Returns true if a message file with this verdict is on this heap.
    fn has(self, verdict: Verdict) -> bool
        ensures { result ≡ is_heap self (heap_of verdict) }
    {
        self == Heap::of(verdict)
    }

    /// Returns the number of message files on this heap.
    fn count(self, verdicts: &[Verdict]) -> usize
        ensures { result ≡ count_on self verdicts.now }
    {
        verdicts
            .iter()
            .filter(|verdict| self.has(**verdict))
            .count()
    }
}

impl Tally {
    /// Returns the counts of the message files with these verdicts.
    pub fn of(verdicts: &[Verdict]) -> Tally
        ensures { result ≡ tally_of verdicts.now }
    {
        Tally {
            taken: Heap::Taken.count(verdicts),
            repeat: Heap::Repeat.count(verdicts),
            stale: Heap::Stale.count(verdicts),
            conflict: Heap::Conflict.count(verdicts),
            unknown: Heap::Unknown.count(verdicts),
            quarantined: Heap::Quarantined.count(verdicts),
            left: Heap::Deferred.count(verdicts),
        }
    }

    /// Returns the fault `Deferred` if message files wait for the next run. Else it returns true if no message file was
    /// in conflict or quarantined.
    pub fn ending(&self, waiting: usize) -> Result<bool, ToolFault>
        ensures { result ≡ ending self.now waiting }
    {
        if self.is_waiting(waiting) {
            return Err(ToolFault::Deferred);
        }
        Ok(!(self.conflict > 0 || self.quarantined > 0))
    }

    /// Returns true if message files wait for the next run: on the heap `Deferred`, or `waiting` further ones.
    pub fn is_waiting(&self, waiting: usize) -> bool
        ensures { result ≡ is_waiting self.now waiting }
    {
        self.left > 0 || waiting > 0
    }
}

/// Appends the line of counts, with the number of further message files that wait.
pub(crate) fn push_tally(
    lines: &mut Vec<u8>,
    tally: &Tally,
    waiting: usize,
) -> Result<(), OutOfMemory>
    ensures { OnOk result (lines.new.items ≡ lines.old.items ++ tally_line tally.now waiting) }
{
    push_done(lines, tally)?;
    push_staying(lines, tally, waiting)
}

/// Appends the counts of done message files.
#[tactic(auto, unfolding(crate::specs::Lines::done_text))]
fn push_done(lines: &mut Vec<u8>, tally: &Tally) -> Result<(), OutOfMemory>
    ensures { OnOk result (lines.new.items ≡ lines.old.items ++ done_text tally.now) }
{
    let Tally {
        taken,
        repeat,
        stale,
        conflict,
        unknown,
        ..
    } = *tally;
    let text = format!(in *lines.allocator();
        "taken {taken}, repeat {repeat}, stale {stale}, conflict {conflict}, unknown {unknown}"
    )?;
    lines.extend_from_slice(text.as_bytes())?;
    Ok(())
}

/// Appends the counts of message files that are quarantined, that wait, and that had no room in this run.
#[tactic(auto, unfolding(crate::specs::Lines::staying_text))]
fn push_staying(lines: &mut Vec<u8>, tally: &Tally, waiting: usize) -> Result<(), OutOfMemory>
    ensures { OnOk result (lines.new.items ≡ lines.old.items ++ staying_text tally.now waiting) }
{
    let Tally {
        quarantined,
        left,
        ..
    } = *tally;
    let text = format!(in *lines.allocator();
        ", aside {quarantined}, left {left}, waiting {waiting}\n"
    )?;
    lines.extend_from_slice(text.as_bytes())?;
    Ok(())
}
