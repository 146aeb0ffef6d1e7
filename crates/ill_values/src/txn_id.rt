//! Defines transaction ids.

ghost use Rattle.std.specs.Prelude.{◌≡◌, ◌≤◌, ◌&&◌, ◌++◌, length, is_ok, IfOk};
ghost use Rattle.std.specs.Str.{bytes_eq};
ghost use Rattle.std.specs.Hash as fed;
ghost use Rattle.std.specs.Cmp.Rules.{comparing, hashing};
ghost use Rattle.std.proofs.Common.{rules};
ghost use Rattle.ill_values.specs.Text.{qualifier_check, ReturnsText};
ghost use Rattle.ill_values.specs.TxnId.{Qualifiers, AreQualifiers, txn_id_of};

use crate::fault::TextFault;
use crate::text::check_qualifier;
use std::alloc::{AllocError as OutOfMemory, Global};
use std::hash::{Hash, Hasher};
use std::marker::Model;
use std::str;

/// The id of a transaction: a transaction group qualifier and a transaction qualifier. Each has 1 to 64 bytes from 0x20
/// to 0x7E (this profile's own). Ids with equal qualifiers are equal, and have equal hashes.
#[derive(Debug, Drop)]
pub struct TxnId {
    group: Vec<u8>,
    transaction: Vec<u8>,
}

/// In proofs an id is its two lists of bytes, which are qualifiers.
impl Model for TxnId {
    ghost Value = { Qualifiers };

    ghost view = { λ id. record { group = id.group.items; transaction = id.transaction.items } };

    ghost invariant = { λ id. AreQualifiers
        (record { group = id.group.items; transaction = id.transaction.items }) };
}

impl PartialEq for TxnId {
    ghost eq = { λ a b. bytes_eq a.group b.group && bytes_eq a.transaction b.transaction };

    ghost laws = { Prim.search (comparing, rules) };

    fn eq(&self, other: &TxnId) -> bool {
        self.group == other.group && self.transaction == other.transaction
    }
}

impl Eq for TxnId {
    ghost laws = { Prim.search (comparing, rules) };
}

impl Hash for TxnId {
    ghost hash_input = { λ id. fed.slice fed.u8 id.group ++ fed.slice fed.u8 id.transaction };

    ghost respects_eq = { Prim.search (hashing, rules) };

    fn hash<H: Hasher>(&self, state: &mut H) {
        self.group.hash(state);
        self.transaction.hash(state);
    }
}

impl TxnId {
    /// Returns the id with these qualifiers, in memory of its own, or the first fault. The faults of `group` come
    /// first, then those of `transaction`, then `OutOfMemory`.
    pub fn new(alloc: Global, group: &[u8], transaction: &[u8]) -> Result<TxnId, TextFault>
        ensures { ReturnsText (txn_id_of group.now transaction.now) result }
    {
        check_qualifier(group)?;
        check_qualifier(transaction)?;
        Ok(TxnId {
            group: Vec::from_slice(alloc, group)?,
            transaction: Vec::from_slice(alloc, transaction)?,
        })
    }

    /// Returns a copy of the id, in memory of its own.
    pub fn copy(&self, alloc: Global) -> Result<TxnId, OutOfMemory>
        ensures { IfOk result (λ id. id ≡ self.now) }
    {
        Ok(TxnId {
            group: Vec::from_slice(alloc, self.group())?,
            transaction: Vec::from_slice(alloc, self.transaction())?,
        })
    }

    /// Returns true if `text` is a qualifier. It allocates nothing.
    pub fn is_qualifier(text: &[u8]) -> bool
        ensures { result ≡ is_ok (qualifier_check text.now) }
    {
        check_qualifier(text).is_ok()
    }

    /// Returns the transaction group qualifier: 1 to 64 bytes.
    pub fn group(&self) -> &[u8]
        ensures value { result.now ≡ self.now.group }
        ensures id { AreQualifiers self.now }
        ensures most { length result.now ≤ 64 }
    {
        &self.group
    }

    /// Returns the transaction qualifier: 1 to 64 bytes.
    pub fn transaction(&self) -> &[u8]
        ensures value { result.now ≡ self.now.transaction }
        ensures id { AreQualifiers self.now }
        ensures most { length result.now ≤ 64 }
    {
        &self.transaction
    }

    /// Returns the transaction group qualifier as text.
    pub fn group_str(&self) -> &str
        ensures bytes { result.now ≡ self.now.group }
        ensures id { AreQualifiers self.now }
    {
        match str::from_utf8(self.group()) {
            Ok(text) => text,
            Err(_) => unreachable!(),
        }
    }

    /// Returns the transaction qualifier as text.
    pub fn transaction_str(&self) -> &str
        ensures bytes { result.now ≡ self.now.transaction }
        ensures id { AreQualifiers self.now }
    {
        match str::from_utf8(self.transaction()) {
            Ok(text) => text,
            Err(_) => unreachable!(),
        }
    }
}
