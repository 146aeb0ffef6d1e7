//! Tests of what each crash leaves of a message file, at each moment of a call on it.

use ill_disk::{Disk, DiskFault};
use ill_message_disk::{Keeper, MessageDisk, MessageRun, Paths};
use ill_message_disk_kit::MemoryMessageDisk;
use std::alloc::Global;
use std::test::Fail;

/// More calls than a test makes.
const MANY: u32 = 1000;

/// More calls than one call of a run makes.
const MOST: u32 = 9;

/// The bytes of the message file.
const MESSAGE_FILE: &[u8] = b"mail";

/// The paths of the message file.
const PATHS: Paths<'static> = Paths {
    claimed: b"claimed/1",
    waiting: b"in/1",
    quarantined: b"aside/1",
    reason: b"aside/1.why",
};

/// The file of the messages that ask.
const ASKED: &[u8] = b"asked";

/// A call of a run on its message file.
#[derive(Clone, Copy, PartialEq, Eq)]
enum Call {
    /// The message file is removed.
    Remove,
    /// The message file is quarantined.
    Quarantine,
    /// The message file is given back.
    GiveBack,
    /// Messages that ask are kept.
    KeepAsked,
}

/// The calls that lose no message file.
const KEEPING: [Call; 3] = [Call::Quarantine, Call::GiveBack, Call::KeepAsked];

/// Makes the waiting message file and the file of the messages that ask on a new disk, and flushes both and their
/// names.
fn bring_message_file(disk: &mut MemoryMessageDisk) -> Result<(), DiskFault> {
    disk.create_new(PATHS.waiting, MESSAGE_FILE)?;
    disk.flush(PATHS.waiting)?;
    disk.create_new(ASKED, b"old")?;
    disk.flush(ASKED)?;
    disk.flush_names()
}

/// Returns a disk on which the message file was claimed. A crash may still leave it where it waited. Its first `calls`
/// calls from then on do not fail.
fn disk_with_claim(alloc: Global, calls: u32) -> Result<MemoryMessageDisk, DiskFault> {
    let mut disk = MemoryMessageDisk::new(alloc, MANY)?;
    bring_message_file(&mut disk)?;
    disk.rename(PATHS.waiting, PATHS.claimed)?;
    disk.allow(calls);
    Ok(disk)
}

/// Returns a run without message files on this disk.
fn empty_run(
    alloc: Global,
    disk: MemoryMessageDisk,
) -> Result<MessageRun<MemoryMessageDisk>, DiskFault> {
    let asked = Keeper::at(alloc, ASKED)?;
    Ok(MessageRun::new(alloc, disk, asked, Vec::new(alloc)))
}

/// Returns a run over the message file on this disk.
fn run_on(
    alloc: Global,
    disk: MemoryMessageDisk,
) -> Result<MessageRun<MemoryMessageDisk>, DiskFault> {
    let mut run = empty_run(alloc, disk)?;
    run.add(alloc, PATHS)?;
    Ok(run)
}

/// Returns a run over the claimed message file, on a disk that passes `calls` more calls.
fn run_cut_after(alloc: Global, calls: u32) -> Result<MessageRun<MemoryMessageDisk>, DiskFault> {
    run_on(alloc, disk_with_claim(alloc, calls.saturating_add(1))?)
}

/// Performs `call` on the one message file of `run`, and returns true if the call is done.
fn is_done(run: &mut MessageRun<MemoryMessageDisk>, call: Call) -> bool {
    match call {
        Call::Remove => run.remove(0).is_ok(),
        Call::Quarantine => run.quarantine(0, b"why\n").is_ok(),
        Call::GiveBack => run.give_back(0).is_ok(),
        Call::KeepAsked => run.keep_asked(b"new").is_ok(),
    }
}

/// Returns true if a file of these bytes stands at `path`.
fn has(
    alloc: Global,
    disk: &mut MemoryMessageDisk,
    path: &[u8],
    bytes: &[u8],
) -> Result<bool, DiskFault> {
    match disk.read(alloc, path, 100) {
        Ok(Some(found)) => Ok(found.as_slice() == bytes),
        Ok(None) => Ok(false),
        Err(fault) => Err(fault),
    }
}

/// What is asked of each disk that a crash leaves.
#[derive(Clone, Copy)]
enum Question {
    /// Is true if the message file stands at one of its three paths.
    HasMessageFile,
    /// Is true if the message file stands at none of its three paths.
    IsGone,
    /// Is true if the file of the messages that ask has the bytes before the call, or those after it.
    HasAsked,
    /// Is true if the message file waits or stands in quarantine.
    IsSettled,
    /// Is true if the message file stands at its claimed path.
    IsClaimed,
}

/// Returns true if a file of these bytes stands at one of two paths.
fn has_either(
    alloc: Global,
    disk: &mut MemoryMessageDisk,
    paths: [&[u8]; 2],
    bytes: &[u8],
) -> Result<bool, DiskFault> {
    Ok(has(alloc, disk, paths[0], bytes)? || has(alloc, disk, paths[1], bytes)?)
}

/// Returns true if the message file stands at one of its three paths.
fn has_message_file(alloc: Global, disk: &mut MemoryMessageDisk) -> Result<bool, DiskFault> {
    Ok(
        has(alloc, disk, PATHS.claimed, MESSAGE_FILE)?
            || has_either(
                alloc,
                disk,
                [PATHS.waiting, PATHS.quarantined],
                MESSAGE_FILE,
            )?,
    )
}

/// Returns the answer to a question about a disk.
fn answer(
    alloc: Global,
    disk: &mut MemoryMessageDisk,
    question: Question,
) -> Result<bool, DiskFault> {
    match question {
        Question::HasMessageFile => has_message_file(alloc, disk),
        Question::IsGone => Ok(!has_message_file(alloc, disk)?),
        Question::HasAsked => {
            Ok(has(alloc, disk, ASKED, b"old")? || has(alloc, disk, ASKED, b"new")?)
        }
        Question::IsSettled => has_either(
            alloc,
            disk,
            [PATHS.waiting, PATHS.quarantined],
            MESSAGE_FILE,
        ),
        Question::IsClaimed => has(alloc, disk, PATHS.claimed, MESSAGE_FILE),
    }
}

/// Returns the answer about the disk that a crash leaves with the list of names `which`.
fn answer_after(
    alloc: Global,
    disk: &MemoryMessageDisk,
    which: usize,
    question: Question,
) -> Result<bool, DiskFault> {
    let mut after = disk.after_crash(which, MANY)?;
    answer(alloc, &mut after, question)
}

/// Returns true if the answer is true of each disk that a crash leaves.
fn is_so_after_each(
    alloc: Global,
    disk: &MemoryMessageDisk,
    question: Question,
) -> Result<bool, DiskFault> {
    for which in 0..disk.count_lists() {
        if !answer_after(alloc, disk, which, question)? {
            return Ok(false);
        }
    }
    Ok(true)
}

/// Returns the answer about the disk as it is now.
fn answer_now(
    alloc: Global,
    disk: &MemoryMessageDisk,
    question: Question,
) -> Result<bool, DiskFault> {
    answer_after(alloc, disk, disk.count_lists().saturating_sub(1), question)
}

/// Returns true if the answer is true after each crash, when the first `calls` calls of the disk in `call` have passed.
fn is_so_at(alloc: Global, call: Call, calls: u32, question: Question) -> Result<bool, DiskFault> {
    let mut run = run_cut_after(alloc, calls)?;
    let _ = is_done(&mut run, call);
    is_so_after_each(alloc, run.disk(), question)
}

/// Performs `call`, and returns true if it is done and the answer is then true of the disk.
fn is_so_after_call(
    alloc: Global,
    run: &mut MessageRun<MemoryMessageDisk>,
    call: Call,
    question: Question,
) -> Result<bool, DiskFault> {
    Ok(is_done(run, call) && answer_now(alloc, run.disk(), question)?)
}

/// Returns true if `call` is done on a disk none of whose calls fails, and the answer is true of the disk afterwards.
fn is_so_when_done(alloc: Global, call: Call, question: Question) -> Result<bool, DiskFault> {
    let mut run = run_on(alloc, disk_with_claim(alloc, MOST)?)?;
    is_so_after_call(alloc, &mut run, call, question)
}

/// Returns true if a run gives the message file back on the disk that a crash leaves with the list of names `which`.
/// The message file then waits or stands in quarantine.
fn settles_next(alloc: Global, disk: &MemoryMessageDisk, which: usize) -> Result<bool, DiskFault> {
    let mut run = run_on(alloc, disk.after_crash(which, MANY)?)?;
    is_so_after_call(alloc, &mut run, Call::GiveBack, Question::IsSettled)
}

/// Returns true if a run after each crash of this disk settles the message file.
fn settles_each(alloc: Global, disk: &MemoryMessageDisk) -> Result<bool, DiskFault> {
    for which in 0..disk.count_lists() {
        if !settles_next(alloc, disk, which)? {
            return Ok(false);
        }
    }
    Ok(true)
}

/// Returns true if a run after each crash settles the message file, when the first `calls` calls of the disk in `call`
/// have passed.
fn settles_after(alloc: Global, call: Call, calls: u32) -> Result<bool, DiskFault> {
    let mut run = run_cut_after(alloc, calls)?;
    let _ = is_done(&mut run, call);
    settles_each(alloc, run.disk())
}

/// Gives the claimed message file back, but does not flush its waiting name before its claimed one is removed.
fn give_back_unflushed(disk: &mut MemoryMessageDisk) -> Result<(), DiskFault> {
    disk.flush_names()?;
    disk.link(PATHS.claimed, PATHS.waiting)?;
    disk.remove(PATHS.claimed)
}

/// Returns true if each crash leaves a message file that was given back without a flush of its waiting name.
fn is_left_unflushed(alloc: Global) -> Result<bool, DiskFault> {
    let mut disk = disk_with_claim(alloc, MANY)?;
    give_back_unflushed(&mut disk)?;
    is_so_after_each(alloc, &disk, Question::HasMessageFile)
}

/// Returns a disk on which the message file was claimed, and another message file has come under its name.
fn disk_with_another(alloc: Global) -> Result<MemoryMessageDisk, DiskFault> {
    let mut disk = disk_with_claim(alloc, MANY)?;
    disk.create_new(PATHS.waiting, b"other")?;
    Ok(disk)
}

/// Returns true if a message file stays claimed when another message file has come under its name.
fn stays_beside_another(alloc: Global) -> Result<bool, DiskFault> {
    let mut run = run_on(alloc, disk_with_another(alloc)?)?;
    is_so_after_call(alloc, &mut run, Call::GiveBack, Question::IsClaimed)
}

#[test]
fn no_crash_loses_a_message_file_at_any_moment(rt: HostRuntime) -> Result<(), Fail> {
    for call in KEEPING {
        for calls in 0..MOST {
            assert!(rt;
                is_so_at(rt.alloc(), call, calls, Question::HasMessageFile)?,
                "a moment"
            );
        }
    }
    Ok(())
}

#[test]
fn the_next_run_settles_what_each_crash_leaves(rt: HostRuntime) -> Result<(), Fail> {
    for call in KEEPING {
        for calls in 0..MOST {
            assert!(rt; settles_after(rt.alloc(), call, calls)?, "a moment");
        }
    }
    Ok(())
}

#[test]
fn what_asks_is_old_or_new_after_each_crash(rt: HostRuntime) -> Result<(), Fail> {
    for calls in 0..MOST {
        assert!(rt;
            is_so_at(rt.alloc(), Call::KeepAsked, calls, Question::HasAsked)?,
            "a moment"
        );
    }
    Ok(())
}

#[test]
fn a_call_is_done_if_all_calls_of_the_disk_pass(rt: HostRuntime) -> Result<(), Fail> {
    assert!(rt;
        is_so_when_done(rt.alloc(), Call::Quarantine, Question::IsSettled)?,
        "put aside"
    );
    assert!(rt;
        is_so_when_done(rt.alloc(), Call::GiveBack, Question::IsSettled)?,
        "given back"
    );
    assert!(rt;
        is_so_when_done(rt.alloc(), Call::KeepAsked, Question::IsClaimed)?,
        "kept"
    );
    assert!(rt;
        is_so_when_done(rt.alloc(), Call::Remove, Question::IsGone)?,
        "removed"
    );
    Ok(())
}

#[test]
fn a_message_file_that_came_meanwhile_stays(rt: HostRuntime) -> Result<(), Fail> {
    assert!(rt; stays_beside_another(rt.alloc())?, "another mail");
    Ok(())
}

#[test]
fn a_removal_before_the_flush_may_lose_a_message_file(rt: HostRuntime) -> Result<(), Fail> {
    assert!(rt; !is_left_unflushed(rt.alloc())?, "without a flush");
    Ok(())
}
