//! Defines the list of the APDUs that a side has issued, and the methods that both roles share.

ghost use Rattle.std.specs.Prelude.{◌≡◌, ◌≤◌, ◌<◌, ◌==◌, ◌&&◌, true, length, take, [], Ok, Some, is_some, IfOk, IfErr, IfSome, OnOk, OnErr, option_map};
ghost use Rattle.ill_core.specs.declared.refusal.Refusal.TheVariants as refusals;
ghost use Rattle.ill_core.specs.Issued.{IssuedList, is_same_txn, are_numbered, message, next_number, with_next, first_refusal, Admits, last_of, sought_number, granted_day, has_message_with};
ghost use Rattle.ill_values.specs.Bodies.{is_ill_request, is_received, is_cancel, is_renew, is_returned, is_checked_in, declines};

use crate::refusal::Refusal;
use ill_values::{Apdu, Body, Day, Number, TxnId};
use std::alloc::Global;
use std::marker::Model;

/// A transaction, and the APDUs that a side has issued in it. The n-th APDU has number n.
#[derive(Debug, Drop)]
pub struct Issued {
    txn: TxnId,
    apdus: Vec<Apdu>,
    /// The date of the last Shipped or Renew-Answer yes.
    granted: Option<Day>,
}

/// A kind of number that may be sought in the list.
#[derive(Clone, Copy)]
pub enum Sought {
    /// The number that a Conditional-Reply yes answers.
    Accepted,
    /// The number of a Cancel.
    CancelNumber,
    /// The number of a Renew.
    RenewNumber,
    /// The number of an APDU that ends the request.
    EndNumber,
}

/// The value of a list is its transaction and its APDUs. These are numbered from 1 on, and are at most 255.
impl Model for Issued {
    ghost Value = { IssuedList };

    ghost view = { λ i. record { txn = i.txn; apdus = i.apdus.items } };

    ghost invariant = { λ i. (are_numbered i.txn 1 i.apdus.items ≡ true)
        × (length i.apdus.items ≤ 255)
        × (i.granted ≡ last_of granted_day i.apdus.items) };
}

impl Sought {
    /// Returns the number of this kind in `apdu`, or `None` if it lacks one.
    fn find(self, apdu: &Apdu) -> Option<Number>
        ensures { result ≡ sought_number self apdu.now }
    {
        match (self, &apdu.body) {
            (Sought::Accepted, Body::ConditionalReply { answers, yes: true }) => Some(*answers),
            (Sought::CancelNumber, Body::Cancel) => Some(apdu.number),
            (Sought::RenewNumber, Body::Renew { .. }) => Some(apdu.number),
            (Sought::EndNumber, body) if body.is_end() => Some(apdu.number),
            _ => None,
        }
    }
}

impl Issued {
    /// Returns an empty list for the transaction.
    #[tactic(auto, unfolding(crate::specs::Issued::are_numbered))]
    pub fn none(alloc: Global, txn: TxnId) -> Issued
        ensures { result ≡ record { txn = txn; apdus = [] } }
    {
        Issued {
            txn,
            apdus: Vec::new(alloc),
            granted: None,
        }
    }

    /// Returns the list of `apdus`, which are at most 255. Each belongs to `txn`, and the n-th has number n.
    pub fn of_numbered(txn: TxnId, apdus: Vec<Apdu>) -> Issued
        requires numbered { are_numbered txn 1 apdus.items ≡ true }
        requires few { length apdus.items ≤ 255 }
        ensures { result ≡ record { txn = txn; apdus = apdus.items } }
    {
        let granted = last_granted(&apdus);
        Issued {
            txn,
            apdus,
            granted,
        }
    }

    /// Returns the transaction.
    pub fn txn(&self) -> &TxnId
        ensures { result.now ≡ self.now.txn }
    {
        &self.txn
    }

    /// Returns the APDUs, in their order. They are at most 255, and the n-th has number n.
    pub fn apdus(&self) -> &[Apdu]
        ensures value { result.now ≡ self.now.apdus }
        ensures numbered { are_numbered self.now.txn 1 self.now.apdus ≡ true }
        ensures few { length self.now.apdus ≤ 255 }
    {
        &self.apdus
    }

    /// Returns the number of APDUs.
    pub fn count(&self) -> u8
        ensures { result ≡ length self.now.apdus }
    {
        self.apdus.len() as u8
    }

    /// Returns the APDU with this number, or `None` if it was not issued.
    pub fn get(&self, number: Number) -> Option<&Apdu>
        ensures { option_map (λ a. a.now) result ≡ message self.now.apdus number }
    {
        self.apdus.get(usize::from(number.get()) - 1)
    }

    /// Returns the last number of the kind `sought`, or `None`.
    #[tactic(auto, using(crate::proofs::IssuedLemmas::last_at))]
    pub fn last(&self, sought: Sought) -> Option<Number>
        ensures { result ≡ last_of (sought_number sought) self.now.apdus }
    {
        let mut last = None;
        for apdu in &self.apdus {
            last = sought.find(apdu).or(last);
        }
        last
    }

    /// Returns the date of the last Shipped or Renew-Answer yes, or `None`.
    pub fn granted(&self) -> Option<Day>
        ensures { result ≡ last_of granted_day self.now.apdus }
    {
        self.granted
    }

    /// Returns the first `count` APDUs, or all if there are fewer.
    pub fn prefix(&self, count: u8) -> &[Apdu]
        ensures { result.now ≡ take count self.now.apdus }
    {
        let count = usize::from(count).min(self.apdus.len());
        &self.apdus[..count]
    }

    /// Keeps the first `count` APDUs, and drops the others.
    #[tactic(auto, using(crate::proofs::IssuedLemmas::numbered_prefix))]
    pub fn go_back(&mut self, count: u8)
        ensures txn { self.new.txn ≡ self.old.txn }
        ensures prefix { self.new.apdus ≡ take count self.old.apdus }
    {
        self.apdus.truncate(usize::from(count));
        self.granted = last_granted(&self.apdus);
    }

    /// Returns the number of the next APDU, or `NumbersUsed` after 255.
    pub fn next_number(&self) -> Result<Number, Refusal>
        ensures { result ≡ next_number self.now.apdus }
    {
        self.count()
            .checked_add(1)
            .and_then(Number::new)
            .ok_or(Refusal::NumbersUsed)
    }

    /// Appends an APDU with `body` and `number`, which must be the next number. If memory runs out, nothing changes.
    #[tactic(auto, using(crate::proofs::IssuedLemmas::numbered_issue, crate::proofs::IssuedLemmas::last_of_next))]
    pub fn issue(&mut self, alloc: Global, number: Number, body: Body) -> Result<(), Refusal>
        requires next { next_number self.old.apdus ≡ Ok number }
        ensures txn { self.new.txn ≡ self.old.txn }
        ensures issued { OnOk result (self.new.apdus ≡ with_next self.old.txn self.old.apdus body) }
        ensures unchanged { OnErr result (self.new ≡ self.old) }
        ensures memory { IfErr result (λ refusal. refusal ≡ refusals.OutOfMemory) }
    {
        let txn = self.txn.copy(alloc)?;
        let granted = body.grant().or(self.granted);
        self.apdus.push(Apdu { txn, number, body })?;
        self.granted = granted;
        Ok(())
    }

    /// Refuses an APDU of another transaction, and else an APDU for which `is_own` is true. `is_own` says that this
    /// side's role issues APDUs of this type.
    pub fn admit(&self, apdu: &Apdu, is_own: bool) -> Result<(), Refusal>
        ensures { Admits (first_refusal self.now.txn is_own apdu.now) result }
    {
        if apdu.txn != self.txn {
            Err(Refusal::OtherTransaction)
        } else if is_own {
            Err(Refusal::WrongRole)
        } else {
            Ok(())
        }
    }
}

/// Returns the date of the last Shipped or Renew-Answer yes in `apdus`, or `None`.
#[tactic(auto, using(crate::proofs::IssuedLemmas::last_at))]
fn last_granted(apdus: &[Apdu]) -> Option<Day>
    ensures { result ≡ last_of granted_day apdus.now }
{
    let mut last = None;
    for apdu in apdus {
        last = apdu.body.grant().or(last);
    }
    last
}

/// Returns true if each APDU belongs to `txn`, and the n-th has number n. There are then at most 255.
pub fn are_numbered(txn: &TxnId, apdus: &[Apdu]) -> bool
    ensures value { result ≡ are_numbered txn.now 1 apdus.now }
    ensures few { result ≡ true → length apdus.now ≤ 255 }
{
    for (index, apdu) in apdus.iter().enumerate() {
        if !is_message(apdu, txn, index + 1) {
            return false;
        }
    }
    true
}

/// Returns true if the APDU belongs to `txn` and has this number. The number is then at most 255.
fn is_message(apdu: &Apdu, txn: &TxnId, number: usize) -> bool
    ensures value { result ≡ (is_same_txn apdu.now.txn txn.now && (apdu.now.number == number)) }
    ensures few { result ≡ true → number ≤ 255 }
{
    apdu.txn == *txn && usize::from(apdu.number.get()) == number
}

/// Returns true if `apdus` has an ILL-Request.
pub fn has_ill_request(apdus: &[Apdu]) -> bool
    ensures { result ≡ has_message_with is_ill_request apdus.now }
{
    apdus.iter().any(|apdu| apdu.body.is_ill_request())
}

/// Returns true if `apdus` has a Received.
pub fn has_received(apdus: &[Apdu]) -> bool
    ensures { result ≡ has_message_with is_received apdus.now }
{
    apdus.iter().any(|apdu| matches!(apdu.body, Body::Received))
}

/// Returns true if `apdus` has a Cancel.
pub fn has_cancel(apdus: &[Apdu]) -> bool
    ensures { result ≡ has_message_with is_cancel apdus.now }
{
    apdus.iter().any(|apdu| matches!(apdu.body, Body::Cancel))
}

/// Returns true if `apdus` has a Renew.
pub fn has_renew(apdus: &[Apdu]) -> bool
    ensures { result ≡ has_message_with is_renew apdus.now }
{
    apdus
        .iter()
        .any(|apdu| matches!(apdu.body, Body::Renew { .. }))
}

/// Returns true if `apdus` has a Returned.
pub fn has_returned(apdus: &[Apdu]) -> bool
    ensures { result ≡ has_message_with is_returned apdus.now }
{
    apdus.iter().any(|apdu| matches!(apdu.body, Body::Returned))
}

/// Returns true if `apdus` has a Conditional-Reply no.
pub fn has_declined(apdus: &[Apdu]) -> bool
    ensures { result ≡ has_message_with declines apdus.now }
{
    apdus.iter().any(|apdu| matches!(apdu.body, Body::ConditionalReply { yes: false, .. }))
}

/// Returns true if `apdus` has a Checked-In.
pub fn has_checked_in(apdus: &[Apdu]) -> bool
    ensures { result ≡ has_message_with is_checked_in apdus.now }
{
    apdus
        .iter()
        .any(|apdu| matches!(apdu.body, Body::CheckedIn))
}
