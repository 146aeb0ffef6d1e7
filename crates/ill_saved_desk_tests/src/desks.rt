//! Calls a desk. An answer is a word, and the view of the desk after it.

use crate::actions::action;
use crate::calls::{BytesCall, WordsCall};
use crate::desk_kind::{DeskKind, txn_in};
use crate::desk_view::DeskView;
use crate::words::{taking_word, write_fault};
use ill_core::{State, Taking};
use ill_der::decode;
use ill_saved::{Action, AnyDesk, DeskFault, MemoryStore, NextCall, Store};
use ill_saved_kit::Line;
use ill_test_kit::marks::TRIES;
use ill_test_kit::octet_in;
use ill_values::{Apdu, Number, TxnId};
use std::alloc::Global;

/// A call of a desk.
#[derive(Clone, Copy)]
pub enum DeskCall<'a> {
    /// An action in this transaction.
    Act(&'a TxnId, &'a Action),
    /// The message that these bytes encode is taken.
    TakeBytes(&'a [u8]),
    /// This message is taken.
    Take(&'a Apdu),
    /// The desk is saved.
    Save,
    /// The desk is restarted from the committed record.
    Restart,
    /// The message with this number in this transaction is encoded.
    Message(&'a TxnId, Number),
}

/// A call of a desk whose answer is written.
#[derive(Clone, Copy)]
pub struct WrittenCall<'a> {
    /// The call that is made.
    pub call: DeskCall<'a>,
    /// The transaction of the side that the answer shows, if there is one.
    pub txn: Option<&'a TxnId>,
    /// The word that is the answer if the call has no other.
    pub word: &'a str,
}

/// The answer of a call that did not fail.
#[derive(Drop)]
pub enum Answer {
    /// The call has succeeded, and has no other result.
    Done,
    /// The answer to a message.
    Taking(Taking),
    /// The octets of a message.
    Bytes(Vec<u8>),
}

/// Makes a call, and returns its answer.
pub fn answer_of<H: DeskKind, S: Store>(
    alloc: Global,
    desk: &mut AnyDesk<H, S>,
    call: &DeskCall<'_>,
) -> Result<Answer, DeskFault> {
    match call {
        DeskCall::Act(txn, action) => desk.act_on(alloc, H::key(txn), action)?,
        DeskCall::TakeBytes(bytes) => return Ok(Answer::Taking(desk.take_bytes(alloc, bytes)?)),
        DeskCall::Take(apdu) => return Ok(Answer::Taking(desk.take(alloc, apdu)?)),
        DeskCall::Save => desk.save(alloc)?,
        DeskCall::Restart => desk.restart(alloc)?,
        DeskCall::Message(txn, number) => {
            let bytes = desk.message_of(alloc, H::key(txn), *number)?;
            return Ok(Answer::Bytes(bytes));
        }
    }
    Ok(Answer::Done)
}

/// Makes a call, and repeats it while an allocation is refused. If a refused call has changed the desk since `before`,
/// returns its answer. Only a save uses up the plan of a store.
fn answer_again<H: DeskKind, S: Store>(
    alloc: Global,
    desk: &mut AnyDesk<H, S>,
    call: &DeskCall<'_>,
    before: &DeskView,
) -> Result<Answer, DeskFault> {
    let tries = before.tries(alloc);
    for _ in 0..TRIES {
        tries.begin();
        let answer = answer_of(alloc, desk, call);
        if !tries.is_refused(is_memory(&answer)) || !before.is_of(alloc, desk) {
            return answer;
        }
    }
    Err(DeskFault::OutOfMemory)
}

/// Saves, and repeats that while an allocation is refused. A refused save may use up the plan of the store, so it is
/// planned again.
fn save_again<H: DeskKind>(
    alloc: Global,
    desk: &mut AnyDesk<H, MemoryStore>,
    plan: NextCall,
    before: &DeskView,
) -> Result<Answer, DeskFault> {
    let tries = before.tries(alloc);
    for _ in 0..TRIES {
        tries.begin();
        let answer = answer_of(alloc, desk, &DeskCall::Save);
        if !tries.is_refused(is_memory(&answer)) || !before.is_of(alloc, desk) {
            return answer;
        }
        desk.set_next(plan);
    }
    Err(DeskFault::OutOfMemory)
}

/// Returns true if a call of a desk answers out of memory.
pub fn is_memory(answer: &Result<Answer, DeskFault>) -> bool {
    matches!(answer, Err(DeskFault::OutOfMemory))
}

/// Makes a call, and writes its answer. Returns true if the call succeeded.
pub fn perform<H: DeskKind, S: Store>(
    alloc: Global,
    line: &mut Line,
    desk: &mut AnyDesk<H, S>,
    written: &WrittenCall<'_>,
) -> bool {
    let before = DeskView::of(alloc, desk, written.txn);
    let answer = answer_again(alloc, desk, &written.call, &before);
    let is_done = answer.is_ok();
    let after = DeskView::of(alloc, desk, written.txn);
    write_answer(line, written.word, answer, &before, &after);
    is_done
}

/// Writes the answer of a call, or `word` if it has no other. `before` and `after` are the views of the desk around the
/// call.
pub fn write_answer(
    line: &mut Line,
    word: &str,
    answer: Result<Answer, DeskFault>,
    before: &DeskView,
    after: &DeskView,
) {
    match answer {
        Ok(Answer::Done) => write_changed(line, word, after),
        Ok(Answer::Taking(Taking::Taken)) => write_changed(line, "taken", after),
        Ok(Answer::Taking(other)) => {
            line.text(taking_word(other, after.state()));
            after.write_after(line, before);
        }
        Ok(Answer::Bytes(bytes)) => line.octets(&bytes),
        Err(fault) => {
            write_fault(line, fault, after.state());
            after.write_after(line, before);
        }
    }
}

/// Writes a word, and the view of the desk after it.
fn write_changed(line: &mut Line, word: &str, after: &DeskView) {
    line.text(word);
    after.write(line);
}

/// Writes that a desk has begun, or the fault.
pub fn write_begun<D: Drop, S: Drop>(line: &mut Line, begun: Result<D, (DeskFault, S)>) {
    match begun {
        Ok(_) => line.text("done"),
        Err((fault, _)) => write_fault(line, fault, State::Idle),
    }
}

/// Performs a call that takes words, and writes its answer. Returns `None` for a call that is not of a desk.
pub fn call<H: DeskKind, S: Store>(
    alloc: Global,
    line: &mut Line,
    desk: &mut AnyDesk<H, S>,
    call: WordsCall,
    words: &str,
) -> Option<()> {
    match call {
        WordsCall::Act => act(alloc, line, desk, words),
        WordsCall::Message => message(alloc, line, desk, words),
        WordsCall::Restart => {
            restart(alloc, line, desk, "restarted");
            Some(())
        }
        _ => None,
    }
}

/// Performs a call that takes bytes, and writes its answer. Returns `None` for `live` and `save`.
pub fn call_with<H: DeskKind, S: Store>(
    alloc: Global,
    line: &mut Line,
    desk: &mut AnyDesk<H, S>,
    call: BytesCall,
    bytes: &[u8],
) -> Option<()> {
    match call {
        BytesCall::Hand => return hand(alloc, line, desk, bytes),
        BytesCall::Messages => return messages(alloc, line, desk, bytes),
        BytesCall::Take => take(alloc, line, desk, bytes),
        BytesCall::Live | BytesCall::Save => return None,
    }
    Some(())
}

/// Performs `act WORDS`. At a desk of many transactions the words begin with the transaction.
pub fn act<H: DeskKind, S: Store>(
    alloc: Global,
    line: &mut Line,
    desk: &mut AnyDesk<H, S>,
    words: &str,
) -> Option<()> {
    let (txn, words) = txn_in(alloc, desk, words)?;
    let action = action(alloc, words)?;
    let written = WrittenCall {
        call: DeskCall::Act(&txn, &action),
        txn: Some(&txn),
        word: "done",
    };
    perform(alloc, line, desk, &written);
    Some(())
}

/// Performs `save` once. It is not repeated, since a failing store counts even a refused call.
pub fn save<H: DeskKind, S: Store>(alloc: Global, line: &mut Line, desk: &mut AnyDesk<H, S>) {
    let before = DeskView::of(alloc, desk, None);
    let answer = answer_of(alloc, desk, &DeskCall::Save);
    let after = DeskView::of(alloc, desk, None);
    write_answer(line, "saved", answer, &before, &after);
}

/// Performs `save` under this plan of the store.
pub fn save_under<H: DeskKind>(
    alloc: Global,
    line: &mut Line,
    desk: &mut AnyDesk<H, MemoryStore>,
    plan: NextCall,
) {
    let before = DeskView::of(alloc, desk, None);
    let answer = save_again(alloc, desk, plan, &before);
    let after = DeskView::of(alloc, desk, None);
    write_answer(line, "saved", answer, &before, &after);
}

/// Performs `restart`, and writes `word` or the fault. Returns true if the call succeeded.
pub fn restart<H: DeskKind, S: Store>(
    alloc: Global,
    line: &mut Line,
    desk: &mut AnyDesk<H, S>,
    word: &str,
) -> bool {
    let written = WrittenCall {
        call: DeskCall::Restart,
        txn: None,
        word,
    };
    perform(alloc, line, desk, &written)
}

/// Performs `take BYTES`: the desk takes a message in bytes.
fn take<H: DeskKind, S: Store>(
    alloc: Global,
    line: &mut Line,
    desk: &mut AnyDesk<H, S>,
    bytes: &[u8],
) {
    let first = decode(alloc, bytes).ok();
    let written = WrittenCall {
        call: DeskCall::TakeBytes(bytes),
        txn: first.as_ref().map(|(apdu, _)| &apdu.txn),
        word: "",
    };
    perform(alloc, line, desk, &written);
}

/// Performs `hand BYTES`: a message is read from the bytes, and the desk takes it.
fn hand<H: DeskKind, S: Store>(
    alloc: Global,
    line: &mut Line,
    desk: &mut AnyDesk<H, S>,
    bytes: &[u8],
) -> Option<()> {
    let (apdu, _) = decode(alloc, bytes).ok()?;
    let written = WrittenCall {
        call: DeskCall::Take(&apdu),
        txn: Some(&apdu.txn),
        word: "",
    };
    perform(alloc, line, desk, &written);
    Some(())
}

/// Performs `message NUMBER`: writes the octets of the message, or the fault. At a desk of many transactions the words
/// begin with the transaction.
fn message<H: DeskKind, S: Store>(
    alloc: Global,
    line: &mut Line,
    desk: &mut AnyDesk<H, S>,
    words: &str,
) -> Option<()> {
    let (txn, words) = txn_in(alloc, desk, words)?;
    let number = Number::new(octet_in(words)?)?;
    let written = WrittenCall {
        call: DeskCall::Message(&txn, number),
        txn: Some(&txn),
        word: "",
    };
    perform(alloc, line, desk, &written);
    Some(())
}

/// Performs `messages BYTES`: tells if these bytes are all released messages of the transaction, one after another.
/// Returns `None` at a desk of many transactions.
fn messages<H: DeskKind, S: Store>(
    alloc: Global,
    line: &mut Line,
    desk: &AnyDesk<H, S>,
    bytes: &[u8],
) -> Option<()> {
    let (txn, _) = txn_in(alloc, desk, "")?;
    let is_same = released(alloc, desk, &txn)?.as_slice() == bytes;
    line.text(if is_same { "the same" } else { "OTHER BYTES" });
    DeskView::of(alloc, desk, Some(&txn)).write(line);
    Some(())
}

/// Returns the bytes of all released messages of the transaction `txn`, one after another.
fn released<H: DeskKind, S: Store>(
    alloc: Global,
    desk: &AnyDesk<H, S>,
    txn: &TxnId,
) -> Option<Vec<u8>> {
    let key = H::key(txn);
    let mut joined = Vec::new(alloc);
    for index in 0..desk.shown(key).released {
        let number = Number::new(index + 1)?;
        let bytes = desk.message_of(alloc, key, number).ok()?;
        joined.extend_from_slice(&bytes).ok()?;
    }
    Some(joined)
}
