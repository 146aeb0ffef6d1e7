//! Desks: one side, or the many sides of one library, with their store. Also, the saved records of these sides, and the
//! stores for them.
#![tactic(auto)]

mod committed_record;
mod desk;
mod fault;
mod file_lock;
mod held;
mod holdings;
pub mod laws;
mod locked_desk;
mod many_sides;
mod one_side;
mod shown;

pub use desk::{AnyDesk, Desk, Desk1};
pub use fault::DeskFault;
pub use file_lock::{FileLock, LockFault, LockFiles};
pub use holdings::Holdings;
pub use ill_record::{
    Action, RECORD_LIMIT, RecordFault, Role, SIDES_LIMIT, Side, Sides, SidesFault, decode_record,
    decode_record2, encode_record, encode_record2,
};
pub use ill_store::{FileStore, FuseStore, MemoryStore, NextCall, Store, StoreFault};
pub use locked_desk::LockedDesk;
pub use many_sides::ManySides;
pub use one_side::OneSide;
pub use shown::Shown;
