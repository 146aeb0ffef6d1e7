//! A visit: the desk starts from its store, a form is answered, and the desk is closed.

use crate::forms::{action, txn_before};
use ill_post::{Form, Posted, post};
use ill_saved::{Desk, DeskFault, MemoryStore, NextCall, Side, Store, encode_record2};
use ill_session_kit::telling::{begin, print_bytes, print_line};
use ill_session_kit::words::Word;
use ill_session_kit::{Call, Phrase};
use ill_test_kit::Page;
use ill_text::diary::Entry;
use ill_values::TxnId;
use std::alloc::Global;

/// The line that the answer to a form enters in its diary.
const LINE: &[u8] = b"a line\n";

/// The view of a desk and of its store.
#[derive(Drop)]
struct View {
    /// The record of the sides in memory.
    live: Vec<u8>,
    /// The record in the store.
    committed: Vec<u8>,
    /// The number of messages of the loan that may leave.
    released: u8,
    /// The number of messages of the loan.
    issued: u8,
}

/// A visit that was made.
#[derive(Drop)]
pub struct Visit<'a> {
    /// The words of the form, and its diary.
    pub call: Call<'a>,
    /// The answer to the form.
    answer: Result<Posted, DeskFault>,
    /// True if the diary says that it has failed.
    has_failed: bool,
    /// The view of the desk before the visit.
    before: View,
    /// The view of the desk after it.
    after: View,
}

/// Returns the desk that starts from `store`, which is taken.
pub fn open(alloc: Global, store: &mut Option<MemoryStore>) -> Option<Desk<MemoryStore>> {
    match Desk::start(alloc, store.take()?) {
        Ok(desk) => Some(desk),
        Err(_) => None,
    }
}

/// Closes a desk, and puts its store back.
pub fn close(desk: Desk<MemoryStore>, store: &mut Option<MemoryStore>) {
    drop(store.replace(desk.close()));
}

impl<'a> Visit<'a> {
    /// Makes the visit `GROUP TRANSACTION STAMP [[DAY] WORDS] [> WRITER]`, between marks. The next call of the store
    /// has the plan `plan`, and the diary is written to the writer. Returns None if the words are no visit.
    pub fn made(
        alloc: Global,
        store: &mut Option<MemoryStore>,
        plan: NextCall,
        phrase: Phrase<'a>,
    ) -> Option<Visit<'a>> {
        let mut call = Call::of(alloc, phrase)?;
        call.mark(alloc)?;
        let (txn, words) = txn_before(alloc, call.words)?;
        let before = View::of_store(alloc, store, &txn)?;
        let mut desk = open(alloc, store)?;
        desk.set_next(plan);
        let sent = send(alloc, &mut desk, &txn, words, &mut call);
        desk.set_next(NextCall::Works);
        let after = View::of_desk(alloc, desk, &txn, store);
        let ((answer, has_failed), after) = (sent?, after?);
        Some(Visit {
            call,
            answer,
            has_failed,
            before,
            after,
        })
    }

    /// Prints the answer, the diary, and the view after the visit.
    pub fn tell(&self, page: &mut Page) {
        self.call.print_answer(page, &self.answer);
        if self.has_failed {
            print_line(page, "!", "the diary failed");
        }
        self.after.tell(page, &self.call, &self.before);
    }

    /// Returns the words for the part that this refused try spoiled, if it did. `whole` is the visit that was not
    /// refused. A refused try may commit and release nothing. The live record and the diary are both as before, or both
    /// as `whole` left them.
    pub fn fault(&self, whole: &Visit<'_>) -> Option<&'static str> {
        let entered = &self.call.output.taken;
        let is_before = self.after.live == self.before.live && entered.is_empty();
        let is_acted = self.after.live == whole.after.live && *entered == whole.call.output.taken;
        if self.after.committed != self.before.committed {
            Some("what has landed")
        } else if self.after.released != self.before.released {
            Some("what may leave")
        } else if is_before || is_acted {
            None
        } else {
            Some("how all stands")
        }
    }
}

/// Sends the form that `words` encode to `desk`. Returns its answer, and true if the diary says that it has failed.
fn send(
    alloc: Global,
    desk: &mut Desk<MemoryStore>,
    txn: &TxnId,
    words: &[Word],
    call: &mut Call<'_>,
) -> Option<(Result<Posted, DeskFault>, bool)> {
    let stamp = call.names.bytes(words.get(..1)?)?;
    let words = words.get(1..)?;
    let action = match words {
        [] => None,
        words => Some(action(alloc, words)?),
    };
    let form = Form {
        txn,
        stamp: &stamp,
        action,
    };
    let line = Vec::from_slice(alloc, LINE).ok()?;
    call.begin(alloc);
    let mut entry = Entry::new(line, &mut call.output);
    let answer = post(alloc, desk, &form, &mut entry);
    let has_failed = entry.has_failed();
    drop(entry);
    Some((call.end(alloc, answer, &DeskFault::OutOfMemory), has_failed))
}

impl View {
    /// Returns the view of the desk that starts from `store`.
    fn of_store(alloc: Global, store: &mut Option<MemoryStore>, txn: &TxnId) -> Option<View> {
        let desk = open(alloc, store)?;
        View::of_desk(alloc, desk, txn, store)
    }

    /// Returns the view of `desk`, and closes it.
    fn of_desk(
        alloc: Global,
        desk: Desk<MemoryStore>,
        txn: &TxnId,
        store: &mut Option<MemoryStore>,
    ) -> Option<View> {
        let live = encode_record2(alloc, desk.sides());
        let released = desk.released(txn);
        let issued = desk.sides().get(txn).map_or(0, Side::issued_count);
        close(desk, store);
        let committed = store.as_mut()?.load(alloc).ok()??;
        Some(View {
            live: live.ok()?,
            committed,
            released,
            issued,
        })
    }

    /// Prints the record that is committed since `before`, the live one if it differs, and the numbers of messages.
    fn tell(&self, page: &mut Page, call: &Call<'_>, before: &View) {
        if self.committed == before.committed {
            print_line(page, "landed", "nothing");
        } else {
            print_bytes(page, call.names, "landed", &self.committed);
        }
        if self.live != self.committed {
            print_bytes(page, call.names, "live", &self.live);
        }
        begin(page, "messages");
        page.show(&self.released);
        page.text("/");
        page.show(&self.issued);
        page.text("\n");
    }
}
