//! The memory is one side of transaction G1, T1, or a desk of many transactions.

ghost use Rattle.std.specs.Prelude.{◌≡◌, IfSome};
ghost use Rattle.ill_record.specs.Side.{idle_of};

use crate::committed::print_committed;
use crate::desk_call::DeskCall;
use crate::kept::Kept;
use crate::letters::Letters;
use crate::limited::LimitedStore;
use crate::memory_call::MemoryCall;
use crate::message_files::message_files_of;
use crate::view::View;
use ill_desk_kit::{idle_side, plan_of};
use ill_saved::{Desk, Desk1, MemoryStore, NextCall, Role, Side, Store};
use ill_session_kit::telling::begin;
use ill_session_kit::words::Word;
use ill_session_kit::{Call, Names};
use ill_test_kit::{Page, count_in, number_in};
use ill_values::TxnId;
use ill_words::words::who;
use std::alloc::Global;

/// A side or a desk. Its store fails as planned, or works for a count of saves.
#[derive(Drop)]
pub enum Memory {
    /// One side, in a store that fails as planned.
    Side(Desk1<MemoryStore>),
    /// One side, in a store that works for a count of saves.
    LimitedSide(Desk1<LimitedStore>),
    /// A desk, in a store that fails as planned.
    Desk(Desk<MemoryStore>),
    /// A desk, in a store that works for a count of saves.
    LimitedDesk(Desk<LimitedStore>),
}

/// The kind of memory that begins.
#[derive(Clone, Copy)]
pub enum Beginning {
    /// One side begins.
    Side,
    /// A desk of many transactions begins.
    Desk,
}

impl Memory {
    /// Begins the memory that `ROLE [lasting SAVES]` names. It is not saved yet.
    pub fn begin(alloc: Global, beginning: Beginning, words: &[Word]) -> Option<Memory> {
        let (role, others) = words.split_first()?;
        let role = who(role.text.as_bytes())?;
        match others {
            [] => planned(alloc, beginning, role),
            [word, saves] if word.is("lasting") => {
                limited(alloc, beginning, role, number_in(saves.text.as_str())?)
            }
            _ => None,
        }
    }

    /// Returns the store that fails as planned, or `None` for another store.
    pub fn into_store(self) -> Option<MemoryStore> {
        match self {
            Memory::Side(desk) => Some(desk.close()),
            Memory::Desk(desk) => Some(desk.close()),
            Memory::LimitedSide(_) | Memory::LimitedDesk(_) => None,
        }
    }

    /// Plans the next call of the store.
    pub fn plan(&mut self, words: &[Word]) -> Option<()> {
        let next = plan_of(words.first()?.text.as_str())?;
        match self {
            Memory::Side(desk) => desk.set_next(next),
            Memory::Desk(desk) => desk.set_next(next),
            Memory::LimitedSide(_) | Memory::LimitedDesk(_) => return None,
        }
        Some(())
    }

    /// Performs a call, and prints its answer and the state of all sides.
    pub fn perform(
        &mut self,
        alloc: Global,
        page: &mut Page,
        kind: MemoryCall,
        call: &mut DeskCall<'_>,
    ) -> Option<()> {
        match self {
            Memory::Side(desk) => perform_on(alloc, page, desk, kind, call),
            Memory::LimitedSide(desk) => perform_on(alloc, page, desk, kind, call),
            Memory::Desk(desk) => perform_on(alloc, page, desk, kind, call),
            Memory::LimitedDesk(desk) => perform_on(alloc, page, desk, kind, call),
        }
    }

    /// Returns the view of all sides.
    pub fn view(&self, alloc: Global) -> Option<View> {
        match self {
            Memory::Side(desk) => desk.view(alloc),
            Memory::LimitedSide(desk) => desk.view(alloc),
            Memory::Desk(desk) => desk.view(alloc),
            Memory::LimitedDesk(desk) => desk.view(alloc),
        }
    }

    /// Restarts from the committed record. A plan of the store is dropped.
    pub fn go_back(&mut self, alloc: Global) -> Option<()> {
        match self {
            Memory::Side(desk) => {
                desk.set_next(NextCall::Works);
                desk.restart(alloc).ok()
            }
            Memory::LimitedSide(desk) => desk.restart(alloc).ok(),
            Memory::Desk(desk) => {
                desk.set_next(NextCall::Works);
                desk.restart(alloc).ok()
            }
            Memory::LimitedDesk(desk) => desk.restart(alloc).ok(),
        }
    }

    /// Prints the state of all sides at their beginning.
    pub fn print_begun(&self, page: &mut Page) {
        begin(page, "stands");
        match self {
            Memory::Side(desk) => desk.tell(page),
            Memory::LimitedSide(desk) => desk.tell(page),
            Memory::Desk(desk) => desk.tell(page),
            Memory::LimitedDesk(desk) => desk.tell(page),
        }
    }
}

/// Returns the idle side of a role.
fn first_side(alloc: Global, role: Role) -> Option<Side>
    ensures { IfSome result (λ side. side ≡ idle_of side) }
{
    let txn = TxnId::new(alloc, b"G1", b"T1").ok()?;
    Some(idle_side(alloc, role, txn))
}

/// Begins a memory whose store fails as planned.
fn planned(alloc: Global, beginning: Beginning, role: Role) -> Option<Memory> {
    let store = MemoryStore::new(alloc);
    match beginning {
        Beginning::Side => match Desk1::create(alloc, store, first_side(alloc, role)?) {
            Ok(desk) => Some(Memory::Side(desk)),
            Err(_) => None,
        },
        Beginning::Desk => match Desk::create(alloc, store, role) {
            Ok(desk) => Some(Memory::Desk(desk)),
            Err(_) => None,
        },
    }
}

/// Begins a memory whose store works for `saves` saves.
fn limited(alloc: Global, beginning: Beginning, role: Role, saves: u32) -> Option<Memory> {
    let store = LimitedStore::new(alloc, saves);
    match beginning {
        Beginning::Side => match Desk1::create(alloc, store, first_side(alloc, role)?) {
            Ok(desk) => Some(Memory::LimitedSide(desk)),
            Err(_) => None,
        },
        Beginning::Desk => match Desk::create(alloc, store, role) {
            Ok(desk) => Some(Memory::LimitedDesk(desk)),
            Err(_) => None,
        },
    }
}

/// Performs a call. Prints its answer, the state of all sides, and if they have stayed unchanged.
fn perform_on<K: Kept>(
    alloc: Global,
    page: &mut Page,
    kept: &mut K,
    kind: MemoryCall,
    call: &mut DeskCall<'_>,
) -> Option<()> {
    let before = kept.view(alloc)?;
    answer(alloc, page, kept, kind, call)?;
    let after = kept.view(alloc)?;
    begin(page, if after.is(&before) { "stays" } else { "stands" });
    kept.tell(page);
    Some(())
}

/// Performs a call, and prints its answer.
fn answer<K: Kept>(
    alloc: Global,
    page: &mut Page,
    kept: &mut K,
    kind: MemoryCall,
    call: &mut DeskCall<'_>,
) -> Option<()> {
    match kind {
        MemoryCall::Save => {
            let answer = kept.save(alloc, &mut call.base);
            call.base.print_answer(page, &answer);
        }
        MemoryCall::Restart => {
            let answer = kept.restart(alloc, &mut call.base);
            call.base.print_answer(page, &answer);
        }
        MemoryCall::Act => {
            let answer = kept.act(alloc, &mut call.base)?;
            call.base.print_answer(page, &answer);
        }
        MemoryCall::Take => {
            let answer = kept.take(alloc, &mut call.base);
            call.base.print_answer(page, &answer);
        }
        MemoryCall::Inbox => return inbox(alloc, page, kept, &mut call.base),
        MemoryCall::Dates => {
            let answer = kept.dates(alloc, &mut call.base)?;
            call.base.print_answer(page, &answer);
        }
        MemoryCall::Outbox => return outbox(alloc, page, kept, call),
        MemoryCall::Stream => return stream(alloc, page, kept, &mut call.base),
        MemoryCall::Copy => return copy(alloc, page, kept, call),
        MemoryCall::Send => {
            let answer = kept.send(alloc, &mut call.base)?;
            call.base.print_answer(page, &answer);
        }
        MemoryCall::Status => {
            let answer = kept.status(alloc, &mut call.base);
            call.base.print_answer(page, &answer);
        }
        MemoryCall::Loan => {
            let answer = kept.loan(alloc, &mut call.base)?;
            call.base.print_answer(page, &answer);
        }
    }
    Some(())
}

/// Performs `MESSAGE_FILES`: takes these message files, and prints the answer.
fn inbox<K: Kept>(alloc: Global, page: &mut Page, kept: &mut K, call: &mut Call<'_>) -> Option<()> {
    let message_files = message_files_of(alloc, call.names, call.words)?;
    let answer = kept.inbox(alloc, call, &message_files)?;
    call.print_answer(page, &answer);
    Some(())
}

/// Performs `ASKING`: writes all messages that are due to be sent, and prints the answer.
fn stream<K: Kept>(alloc: Global, page: &mut Page, kept: &K, call: &mut Call<'_>) -> Option<()> {
    let asking = call.names.bytes(call.words)?;
    let answer = kept.stream(alloc, call, &asking)?;
    call.print_answer(page, &answer);
    Some(())
}

/// Performs `[lasting N] ASKING`: sends all messages that are due to be sent, with room for N message files. Prints the
/// message files, and then the answer.
fn outbox<K: Kept>(
    alloc: Global,
    page: &mut Page,
    kept: &K,
    call: &mut DeskCall<'_>,
) -> Option<()> {
    let (room, asking) = match call.base.words {
        [word, room, asking @ ..] if word.is("lasting") => {
            (count_in(room.text.as_str())?, asking)
        }
        asking => (usize::MAX, asking),
    };
    let asking = call.base.names.bytes(asking)?;
    call.letters = Letters::new(alloc, room);
    let answer = kept.outbox(alloc, &mut call.base, &asking, &mut call.letters)?;
    call.letters.tell(page, call.base.names);
    call.base.print_answer(page, &answer);
    Some(())
}

/// Performs `PLAN [BYTES]`: copies all sides to a store with this plan, in which BYTES are committed. Prints the
/// answer, and then the bytes that are committed there.
fn copy<K: Kept>(alloc: Global, page: &mut Page, kept: &K, call: &mut DeskCall<'_>) -> Option<()> {
    let (plan, before) = call.base.words.split_first()?;
    let names = call.base.names;
    let mut store = store_with(alloc, names, plan, before)?;
    let answer = kept.copy(alloc, &mut call.base, &mut store)?;
    call.base.print_answer(page, &answer);
    store.set_next(NextCall::Works); // A copy that is refused memory leaves the plan.
    let committed = store.load(alloc).ok()?.unwrap_or(Vec::new(alloc));
    call.spoils_copy = call.base.says_memory
        && committed.as_slice() != names.bytes(before)?.as_slice();
    print_committed(alloc, page, names, &mut store)
}

/// Returns a store in which these bytes are committed, if there are any, and whose next call is planned.
fn store_with(alloc: Global, names: &Names, plan: &Word, before: &[Word]) -> Option<MemoryStore> {
    let mut store = MemoryStore::new(alloc);
    if !before.is_empty() {
        store.save(alloc, &names.bytes(before)?).ok()?;
    }
    store.set_next(plan_of(plan.text.as_str())?);
    Some(store)
}
