//! Tests of runs in a room in memory, also of those whose calls fail from one on.

use ill_night::verdict::{Delay, Unfit, Verdict};
use ill_room::memory_room::MemoryRoom;
use ill_room::room::{Place, Room};
use ill_room::settle::{Judged, end_run};
use ill_text::fault::STORE_FAILED;
use ill_words::{DeskOutcome, Outcome};
use std::alloc::Global;
use std::io::sink;
use std::test::Fail;

/// The verdicts of a run, one for each message file.
const VERDICTS: [Verdict; 4] = [
    Verdict::Done(DeskOutcome::Plain(Outcome::Saved)),
    Verdict::Quarantined(Unfit::TooLong),
    Verdict::Deferred(Delay::NotRead),
    Verdict::Done(DeskOutcome::Plain(Outcome::Saved)),
];

/// The places of the message files before the run. The last message file is not claimed.
const BEFORE: [Place; 4] = [
    Place::Claimed,
    Place::Claimed,
    Place::Claimed,
    Place::Waiting,
];

/// A run of a room whose calls fail from one on.
struct Case {
    /// The number of calls that do not fail.
    calls: u32,
    /// The places of the message files after the run.
    after: [Place; 4],
    /// Is true if the run is done.
    is_done: bool,
}

/// The runs, by their number of calls. The first call keeps what asks, and each later one settles a message file.
const CASES: [Case; 4] = [
    Case {
        calls: 0,
        after: BEFORE,
        is_done: false,
    },
    Case {
        calls: 1,
        after: BEFORE,
        is_done: false,
    },
    Case {
        calls: 3,
        after: [
            Place::Gone,
            Place::Quarantined,
            Place::Claimed,
            Place::Waiting,
        ],
        is_done: false,
    },
    Case {
        calls: 5,
        after: [
            Place::Gone,
            Place::Quarantined,
            Place::Waiting,
            Place::Waiting,
        ],
        is_done: true,
    },
];

/// Returns a room of the message files of a run, which passes this number of calls.
fn room_of(alloc: Global, calls: u32) -> Result<MemoryRoom, Fail> {
    Ok(MemoryRoom::new(Vec::from_slice(alloc, &BEFORE)?, calls))
}

#[test]
fn a_run_settles_the_message_files_of_the_calls_that_pass(rt: HostRuntime) -> Result<(), Fail> {
    for case in &CASES {
        let mut room = room_of(rt.alloc(), case.calls)?;
        let judged = Judged {
            message_files: &[],
            verdicts: &VERDICTS,
        };
        let ended = end_run(rt.alloc(), &mut room, judged, b"asked", &mut sink());
        assert!(rt;
            ended.is_ok() == case.is_done,
            "the end after {} calls",
            case.calls
        );
        assert!(rt;
            room.places() == case.after.as_slice(),
            "the places after {} calls",
            case.calls
        );
    }
    Ok(())
}

#[test]
fn a_call_that_fails_changes_nothing(rt: HostRuntime) -> Result<(), Fail> {
    let mut room = room_of(rt.alloc(), 0)?;
    assert!(rt; room.remove(0) == Err(STORE_FAILED), "remove");
    assert!(rt;
        room.quarantine(0, Unfit::TooLong) == Err(STORE_FAILED),
        "put aside"
    );
    assert!(rt; room.give_back(0) == Err(STORE_FAILED), "give back");
    assert!(rt;
        room.keep_asked(b"asked", &mut sink()) == Err(STORE_FAILED),
        "keep"
    );
    assert!(rt; room.places() == BEFORE.as_slice(), "the places");
    Ok(())
}

#[test]
fn a_call_on_no_message_file_moves_nothing(rt: HostRuntime) -> Result<(), Fail> {
    let mut room = room_of(rt.alloc(), 1)?;
    assert!(rt; room.remove(4).is_ok(), "remove");
    assert!(rt; room.places() == BEFORE.as_slice(), "the places");
    Ok(())
}
