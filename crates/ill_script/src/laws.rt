//! The law of replays is the contract of a function that does nothing.

ghost use Rattle.std.specs.Prelude.{◌≡◌, ℕ, List, Result, Err};
ghost use Rattle.ill_script.specs.BadTraces.{IsOfNoPrefix, Leaves, Misreports, after_reading, before_reading};
ghost use Rattle.ill_script.specs.Replay.{Replay, Replays, Progress, broken_on, reading_on, trace_on};
ghost use Rattle.ill_script.specs.declared.fault.SimFault.{SimFault};
ghost use Rattle.ill_script.specs.declared.fault.SimFault.TheVariants.{OutOfMemory, Write};

/// If the writer fails, the bytes that a simulation of any replay has written are a prefix of the trace. If memory runs
/// out, they are the trace of a prefix of the events. Any other result from the first event on is right: `Misreports`
/// does not hold of it.
pub fn no_replay_misreports<W, E, C>()
    ensures write { (replay : Replay W E C) (from : Progress W C) (text left written : List ℕ) →
        Leaves written (trace_on replay from (reading_on replay from text).events) →
        Replays replay from (before_reading text) (Err Write) (after_reading left written) → ⊥ }
    ensures memory { (replay : Replay W E C) (from : Progress W C) (text left written : List ℕ) →
        IsOfNoPrefix (trace_on replay from) (reading_on replay from text).events written →
        Replays replay from (before_reading text) (Err OutOfMemory) (after_reading left written) → ⊥ }
    ensures result { (replay : Replay W E C) (from : Progress W C) (text left written : List ℕ) (result : Result ℕ SimFault) →
        from.count ≡ 0 →
        Misreports (trace_on replay from) (reading_on replay from) (broken_on replay from) text (left, written) result →
        Replays replay from (before_reading text) result (after_reading left written) → ⊥ }
{}
