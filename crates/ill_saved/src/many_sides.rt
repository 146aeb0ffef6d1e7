//! The sides of one library in many transactions, as a desk holds them.

ghost use Rattle.std.specs.Prelude.{◌≡◌, ◌≤◌, true, false, None, length, nat_lt, option_map, IfOk, IfErr, OnOk};
ghost use Rattle.ill_values.specs.Bodies.{is_ill_request};
ghost use Rattle.ill_saved.specs.declared.fault.DeskFault.TheVariants as desks;
ghost use Rattle.ill_record.specs.Side.{issued_of, txn_of, idle_side, role_for, begins, IsConsistent, IsSideTransition};
ghost use Rattle.ill_record.specs.Ranges.{Each};
ghost use Rattle.ill_record.specs.Sides.{is_same_role, put_refusal, most_sides, found_by};
ghost use Rattle.ill_record.specs.RecordsV2.{AreSides};
ghost use Rattle.ill_saved.specs.Holdings.{DeskActs, DeskTakesApdu, StaysBacked, IsBacked, ReadsRecord, IsReadFault};
ghost use Rattle.ill_saved.specs.Desk.{AreAllReleased};
ghost use Rattle.ill_saved.specs.ManySides.{DeskContents, held_of, txn_held, held_for, with_held, sides_held, whole_of, is_own, counts, MayBegin, FirstActs, FirstTakes, AreBackable, ManyBack, ReadsOrNone, many_sides, no_sides};

use crate::desk::StoreOk;
use crate::fault::DeskFault;
use crate::held::Held;
use crate::holdings::Holdings;
use crate::shown::Shown;
use ill_core::{Refusal, Taking};
use ill_der::encode;
use ill_record::{Action, Role, SIDES_LIMIT, Side, Sides, decode_record2, encode_record2, laws};
use ill_values::{Apdu, Body, Number, OutOfMemory, TxnId};
use std::alloc::Global;
use std::marker::Model;

/// The sides of one library in many transactions, with the number of released messages of each. No side is idle.
#[derive(Drop)]
pub struct ManySides {
    sides: Sides,
    /// The number of released messages of the side at each place.
    released: Vec<u8>,
}

/// Each side has a count of released messages, and some sides back the contents.
impl Model for ManySides {
    ghost Value = { DeskContents };

    ghost view = { λ held. record { role = held.sides.role; held = held_of held.sides.sides held.released.items } };

    ghost invariant = { λ held. (length held.released.items ≡ length held.sides.sides)
        × AreBackable (record { role = held.sides.role; held = held_of held.sides.sides held.released.items }) };
}

impl ManySides {
    /// Returns a `ManySides` of this role without a side. Allocates nothing.
    fn none(alloc: Global, role: Role) -> ManySides
        ensures { result ≡ no_sides role }
    {
        match Sides::new(alloc, role) {
            Ok(sides) => ManySides {
                sides,
                released: Vec::new(alloc),
            },
            Err(_) => unreachable!(),
        }
    }

    /// Returns `sides` with all of their messages released.
    fn whole(alloc: Global, sides: Sides) -> Result<ManySides, OutOfMemory>
        requires rules { Each IsConsistent sides.sides }
        ensures { IfOk result (λ held. held ≡ whole_of sides) }
    {
        let released = counts_of(alloc, &sides)?;
        Ok(ManySides { sides, released })
    }

    /// Returns the sides in memory.
    pub(crate) fn sides(&self) -> &Sides
        ensures { result.now ≡ sides_held self.now }
    {
        &self.sides
    }

    /// Returns the number of released messages of `txn`, or 0 if it is not held.
    pub(crate) fn released_of(&self, txn: &TxnId) -> u8
        ensures value { result ≡ (held_for txn.now self.now).released }
        ensures issued { result ≤ length (issued_of (held_for txn.now self.now).side) }
    {
        laws::follows_issues();
        match self.sides.place(txn) {
            Some(place) => self.released[place],
            None => 0,
        }
    }

    /// Performs the first action of the transaction `txn`. The action must be one that may begin a transaction
    /// (otherwise `NoSuchTransaction`), and there must be room (otherwise `DeskFull`).
    fn act_first(&mut self, alloc: Global, txn: &TxnId, action: &Action) -> Result<(), DeskFault>
        requires none { found_by txn_held txn.now self.old.held ≡ None }
        requires role { is_same_role self.old.role (role_for action.now) ≡ true }
        ensures acts { DeskActs many_sides self.old txn.now action.now result self.new }
        ensures backed { StaysBacked many_sides ManyBack self.old self.new }
    {
        laws::rows_grow();
        laws::rows_begin();
        self.may_begin(action.begins())?;
        let side = first_act(alloc, self.sides.role(), txn, action)?;
        self.hold(alloc, side)
    }

    /// Takes the first message of a transaction. The message must be an ILL-Request (otherwise `NoSuchTransaction`),
    /// and there must be room (otherwise `DeskFull`).
    fn take_first(&mut self, alloc: Global, apdu: &Apdu) -> Result<Taking, DeskFault>
        requires none { found_by txn_held apdu.now.txn self.old.held ≡ None }
        requires other { is_own self.old.role apdu.now.body ≡ false }
        ensures takes { DeskTakesApdu many_sides self.old apdu.now result self.new }
        ensures backed { StaysBacked many_sides ManyBack self.old self.new }
    {
        laws::rows_grow();
        ill_core::laws::responder_has_begun();
        self.may_begin(apdu.body.is_ill_request())?;
        let side = first_take(alloc, self.sides.role(), apdu)?;
        self.hold(alloc, side)?;
        Ok(Taking::Taken)
    }

    /// Checks that a transaction that is not held may begin. `begins` must be true, and there must be room.
    fn may_begin(&self, begins: bool) -> Result<(), DeskFault>
        ensures { MayBegin begins (nat_lt (length self.now.held) most_sides) result }
    {
        if !begins {
            return Err(DeskFault::NoSuchTransaction);
        }
        if self.sides.len() < SIDES_LIMIT {
            Ok(())
        } else {
            Err(DeskFault::DeskFull)
        }
    }

    /// Puts a side that has begun after the others, with none of its messages released. If memory runs out, nothing
    /// changes.
    fn hold(&mut self, alloc: Global, side: Side) -> Result<(), DeskFault>
        requires may { put_refusal (sides_held self.old) side ≡ None }
        requires row { IsSideTransition (idle_side self.old.role (txn_of side)) side }
        ensures held { OnOk result (self.new ≡ with_held self.old (record { side = side; released = 0 })) }
        ensures fault { IfErr result (λ fault. (fault ≡ desks.OutOfMemory) × (self.new ≡ self.old)) }
        ensures backed { StaysBacked many_sides ManyBack self.old self.new }
    {
        laws::rows_grow();
        self.released.reserve(1)?;
        match self.sides.put(alloc, side) {
            Ok(()) => Ok(self.released.push(0)?),
            Err((_, side)) => {
                drop(side);
                Err(DeskFault::OutOfMemory)
            }
        }
    }
}

/// A record of many sides, and the number of messages that each of them has issued.
#[derive(Drop)]
pub struct SidesRecord {
    bytes: Vec<u8>,
    counts: Vec<u8>,
}

/// Each call does as the trait `Held` says.
impl Held for ManySides {
    type Key = TxnId;

    type First = Role;

    type Record = SidesRecord;

    ghost effects = { many_sides };

    ghost backs = { ManyBack };

    ghost in_range = { λ live. AreSides (sides_held live) };

    ghost begun = { no_sides };

    ghost encoded = { λ made. made.bytes.items };

    ghost fits = { λ made live. AreSides (sides_held live)
        × (made.counts.items ≡ counts (sides_held live).sides) };

    fn begin(alloc: Global, first: Role) -> ManySides {
        ManySides::none(alloc, first)
    }

    fn read(alloc: Global, bytes: Vec<u8>, _ok: StoreOk) -> Result<ManySides, DeskFault> {
        read_sides(alloc, &bytes)
    }

    /// Refuses an action of the other role. If the side of `txn` is held, it acts. Otherwise the action may begin
    /// `txn`.
    fn act(&mut self, alloc: Global, txn: &TxnId, action: &Action) -> Result<(), DeskFault> {
        laws::rows_grow();
        if action.role() != self.sides.role() {
            return Err(DeskFault::Core(Refusal::WrongRole));
        }
        match self.sides.act(alloc, txn, action) {
            Some(answer) => Ok(answer?),
            None => self.act_first(alloc, txn, action),
        }
    }

    /// Refuses a message that this role issues. If the side of its transaction is held, it takes the message. Otherwise
    /// the message may begin the transaction.
    fn take(&mut self, alloc: Global, apdu: &Apdu) -> Result<Taking, DeskFault> {
        laws::rows_grow();
        laws::refusals_stay();
        if is_own(self.sides.role(), &apdu.body) {
            return Err(DeskFault::Core(Refusal::WrongRole));
        }
        match self.sides.take(alloc, apdu) {
            Some(answer) => Ok(answer?),
            None => self.take_first(alloc, apdu),
        }
    }

    /// Encodes the message, if it is issued and released.
    fn message(&self, alloc: Global, txn: &TxnId, number: Number) -> Result<Vec<u8>, DeskFault> {
        let Some(side) = self.sides.get(txn) else {
            return Err(DeskFault::NoSuchTransaction);
        };
        match side.issued(number) {
            None => Err(DeskFault::NoSuchMessage),
            Some(_) if number.get() > self.released_of(txn) => Err(DeskFault::NotSaved),
            Some(apdu) => Ok(encode(alloc, apdu)?),
        }
    }

    /// Encodes all sides, and counts the issued messages of each.
    fn record(&self, alloc: Global) -> Result<SidesRecord, OutOfMemory> {
        laws::sides_read_again();
        laws::follows_issues();
        let bytes = encode_record2(alloc, &self.sides)?;
        let counts = counts_of(alloc, &self.sides)?;
        Ok(SidesRecord { bytes, counts })
    }

    fn bytes(made: &SidesRecord) -> &[u8] {
        &made.bytes
    }

    /// Releases all messages: the counts in the record become the released counts.
    fn release(&mut self, committed: SidesRecord, _ok: StoreOk) {
        self.released = committed.counts;
    }

    /// Decodes the sides, or holds none if there are no bytes.
    fn go_back(
        &mut self,
        alloc: Global,
        bytes: Option<Vec<u8>>,
        _ok: StoreOk,
    ) -> Result<(), DeskFault> {
        *self = read_or_none(alloc, bytes, self.sides.role())?;
        Ok(())
    }
}

impl Holdings for ManySides {
    fn role(&self) -> Role {
        self.sides.role()
    }

    fn key_of(apdu: &Apdu) -> &TxnId {
        &apdu.txn
    }

    fn first_key(&self) -> Option<&TxnId> {
        None
    }

    fn shown(&self, txn: &TxnId) -> Shown {
        match self.sides.get(txn) {
            Some(side) => Shown::of(side, self.released_of(txn)),
            None => Shown::idle(),
        }
    }
}
/// Decodes the sides that `bytes` encode. All their messages are released.
fn read_sides(alloc: Global, bytes: &[u8]) -> Result<ManySides, DeskFault>
    ensures reads { ReadsRecord many_sides bytes.now result }
    ensures whole { IfOk result (AreAllReleased many_sides) }
    ensures backed { IfOk result (λ held. ManyBack held held) }
    ensures faults { IfErr result (IsReadFault true) }
{
    laws::encoded();
    laws::sides_encoded();
    let sides = decode_record2(alloc, bytes)?;
    Ok(ManySides::whole(alloc, sides)?)
}

/// Decodes the sides that `bytes` encode. Without bytes, returns no sides of this role.
fn read_or_none(alloc: Global, bytes: Option<Vec<u8>>, role: Role) -> Result<ManySides, DeskFault>
    ensures reads { ReadsOrNone (option_map (λ b. b.items) bytes) role result }
    ensures whole { IfOk result (AreAllReleased many_sides) }
    ensures backed { IfOk result (IsBacked many_sides ManyBack (option_map (λ b. b.items) bytes)) }
    ensures faults { IfErr result (IsReadFault true) }
{
    match bytes {
        Some(bytes) => read_sides(alloc, &bytes),
        None => Ok(ManySides::none(alloc, role)),
    }
}

/// Returns true if a side of `role` issues APDUs with a body of the type of `body`.
fn is_own(role: Role, body: &Body) -> bool
    ensures { result ≡ is_own role body.now }
{
    match role {
        Role::Requester => body.is_requesters(),
        Role::Responder => !body.is_requesters(),
    }
}

/// Returns the side of this role and transaction after its first action, which may begin a transaction. Fails only if
/// memory runs out.
fn first_act(alloc: Global, role: Role, txn: &TxnId, action: &Action) -> Result<Side, DeskFault>
    requires begins { begins action.now ≡ true }
    requires role { is_same_role role (role_for action.now) ≡ true }
    ensures { FirstActs (idle_side role txn.now) action.now result }
{
    let mut side = Side::idle(alloc, role, txn.copy(alloc)?);
    match side.act(alloc, action) {
        Ok(()) => Ok(side),
        Err(fault) => {
            drop(side);
            Err(fault.into())
        }
    }
}

/// Returns the side of this role after the first message of its transaction, an ILL-Request. Fails only if memory runs
/// out.
fn first_take(alloc: Global, role: Role, apdu: &Apdu) -> Result<Side, DeskFault>
    requires request { is_ill_request apdu.now.body ≡ true }
    requires other { is_own role apdu.now.body ≡ false }
    ensures { FirstTakes (idle_side role apdu.now.txn) apdu.now result }
{
    let mut side = Side::idle(alloc, role, apdu.txn.copy(alloc)?);
    match side.take(alloc, apdu) {
        Ok(_) => Ok(side),
        Err(fault) => {
            drop(side);
            Err(fault.into())
        }
    }
}

/// Returns the number of messages that each side has issued.
fn counts_of(alloc: Global, sides: &Sides) -> Result<Vec<u8>, OutOfMemory>
    ensures { IfOk result (λ released. released.items ≡ counts sides.now.sides) }
{
    let mut counts = Vec::with_capacity(alloc, sides.len())?;
    for place in 0..sides.len() {
        if let Some(side) = sides.at(place) {
            counts.push(side.issued_count())?;
        }
    }
    Ok(counts)
}
