//! Tests desks whose record was damaged in its file.

use crate::actions::action;
use crate::desk_kind::DeskKind;
use crate::desk_view::DeskView;
use crate::desks::{restart, write_begun};
use ill_saved::{AnyDesk, DeskFault, FileStore, Role};
use ill_saved_kit::Line;
use ill_values::{Number, TxnId};
use std::alloc::Global;
use std::{fs, io};

/// A store in a file of the system.
type HostStore<'a> = FileStore<'a, HostRuntime>;

/// A desk whose store is a file of the system.
type HostDesk<'a, H> = AnyDesk<H, HostStore<'a>>;

/// The new desk, or the fault and the store that was handed back.
type Begun<'a, H> = Result<HostDesk<'a, H>, (DeskFault, HostStore<'a>)>;

/// The damage that a record gets.
#[derive(Drop)]
pub enum Damage {
    /// The file gets these bytes.
    Bytes(Vec<u8>),
    /// A folder replaces the file.
    Folder,
    /// The file is removed.
    Nothing,
}

/// The path and the limit of a file for a record.
#[derive(Drop)]
pub struct Restarts<'a, 'p> {
    /// The files of the system.
    rt: &'a HostRuntime,
    /// The allocator of all values.
    alloc: Global,
    /// The path of the file.
    path: &'p str,
    /// The most bytes that the store saves.
    limit: u32,
}

impl<'a, 'p> Restarts<'a, 'p> {
    /// Returns the file at `path`, with this limit.
    pub fn new(rt: &'a HostRuntime, alloc: Global, path: &'p str, limit: u32) -> Restarts<'a, 'p> {
        Restarts {
            rt,
            alloc,
            path,
            limit,
        }
    }

    /// Damages the record of a running desk. Writes the answer of `restart` with the view of the desk, and then the
    /// answers of `start` and `create`.
    pub fn write_damaged<H: DeskKind>(&self, line: &mut Line, damage: &Damage) -> Option<()> {
        self.damaged::<H>(line, damage)?;
        line.text("; start ");
        write_begun(line, self.start::<H>()?);
        line.text("; create ");
        write_begun(line, self.create::<H>()?);
        Some(())
    }

    /// Writes the view of a desk that starts from the record of another, and its first message.
    pub fn write_started<H: DeskKind>(&self, line: &mut Line) -> Option<()> {
        self.asked::<H>()?;
        line.text("started");
        let desk = self.start::<H>()?.ok()?;
        let shown = self.show(line, &desk);
        drop(desk);
        shown
    }

    /// Returns a store in the file.
    fn store(&self) -> Option<HostStore<'a>> {
        FileStore::at(self.rt, self.alloc, self.path, self.limit).ok()
    }

    /// Starts a desk from the record.
    fn start<H: DeskKind>(&self) -> Option<Begun<'a, H>> {
        Some(AnyDesk::start(self.alloc, self.store()?))
    }

    /// Creates a requester that has not asked.
    fn create<H: DeskKind>(&self) -> Option<Begun<'a, H>> {
        let (store, txn) = self.store().zip(self.txn())?;
        let first = H::first(Role::Requester, txn);
        Some(AnyDesk::begin(self.alloc, store, first))
    }

    /// Returns the transaction in which the desk asks.
    fn txn(&self) -> Option<TxnId> {
        TxnId::new(self.alloc, b"G1", b"T1").ok()
    }

    /// Saves a desk that has asked, and drops it.
    fn asked<H: DeskKind>(&self) -> Option<()> {
        let mut desk: HostDesk<'a, H> = self.create()?.ok()?;
        let asked = self.ask(&mut desk);
        drop(desk);
        asked
    }

    /// Makes the desk ask, and saves it.
    fn ask<H: DeskKind>(&self, desk: &mut HostDesk<'a, H>) -> Option<()> {
        self.act(desk, "request none Maps")?;
        desk.save(self.alloc).ok()
    }

    /// Performs the action that `words` encode.
    fn act<H: DeskKind>(&self, desk: &mut HostDesk<'a, H>, words: &str) -> Option<()> {
        let (txn, action) = self.txn().zip(action(self.alloc, words))?;
        desk.act_on(self.alloc, H::key(&txn), &action).ok()
    }

    /// Writes the view of the desk, and its first message.
    fn show<H: DeskKind>(&self, line: &mut Line, desk: &HostDesk<'a, H>) -> Option<()> {
        DeskView::of(self.alloc, desk, Some(&self.txn()?)).write(line);
        line.text(", ");
        line.octets(&self.first_message(desk)?);
        Some(())
    }

    /// Damages the record of a desk that has asked and then cancelled, and restarts the desk.
    fn damaged<H: DeskKind>(&self, line: &mut Line, damage: &Damage) -> Option<()> {
        let mut desk: HostDesk<'a, H> = self.create()?.ok()?;
        let answered = self.damage(line, &mut desk, damage);
        drop(desk);
        answered
    }

    /// Makes the desk ask and cancel, damages its record, and restarts it.
    fn damage<H: DeskKind>(
        &self,
        line: &mut Line,
        desk: &mut HostDesk<'a, H>,
        damage: &Damage,
    ) -> Option<()> {
        self.ask(desk)?;
        self.act(desk, "cancel")?;
        self.inflict(damage).ok()?;
        line.text("restart ");
        self.restart(line, desk)
    }

    /// Damages the record.
    fn inflict(&self, damage: &Damage) -> io::Result<()> {
        match damage {
            Damage::Bytes(bytes) => fs::write(self.rt, self.path, bytes.as_slice()),
            Damage::Nothing => fs::remove_file(self.rt, self.path),
            Damage::Folder => {
                fs::remove_file(self.rt, self.path)?;
                fs::create_dir(self.rt, self.path)
            }
        }
    }

    /// Writes the answer of `restart`, and the view of the desk. A failed restart must leave the desk and its first
    /// message unchanged.
    fn restart<H: DeskKind>(&self, line: &mut Line, desk: &mut HostDesk<'a, H>) -> Option<()> {
        let message = self.first_message(desk)?;
        let is_done = restart(self.alloc, line, desk, "done");
        if !is_done && !self.has_first_message(desk, &message) {
            line.text(" ANOTHER MESSAGE");
        }
        Some(())
    }

    /// Returns true if the first message of the desk has these bytes.
    fn has_first_message<H: DeskKind>(&self, desk: &HostDesk<'a, H>, bytes: &[u8]) -> bool {
        match self.first_message(desk) {
            Some(message) => message.as_slice() == bytes,
            None => false,
        }
    }

    /// Returns the bytes of the first message of the desk.
    fn first_message<H: DeskKind>(&self, desk: &HostDesk<'a, H>) -> Option<Vec<u8>> {
        let txn = self.txn()?;
        desk.message_of(self.alloc, H::key(&txn), Number::new(1)?)
            .ok()
    }
}
