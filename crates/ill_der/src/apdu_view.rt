//! Views of APDUs. The texts stay in the bytes from which they were read.

ghost use Rattle.std.specs.Prelude.{◌≡◌, IfOk};
ghost use Rattle.ill_values.specs.declared.apdu.Apdu.{Apdu};
ghost use Rattle.ill_values.specs.Text.{IsQualifier};
ghost use Rattle.ill_values.specs.Body.{body_in};
ghost use Rattle.ill_der.specs.View.{apdu_of, HasItem};

use ill_values::{Apdu, BodyView, Number, OutOfMemory, TxnId};
use std::alloc::Global;
use std::marker::Model;

/// A view of an APDU in bytes. Its texts are borrowed from the bytes, so a view allocates nothing.
#[derive(Debug, Drop)]
pub struct ApduView<'a> {
    pub(crate) group: &'a [u8],
    pub(crate) transaction: &'a [u8],
    pub(crate) number: Number,
    pub(crate) body: BodyView<'a>,
}

/// In proofs a view is the APDU that it shows. Its qualifiers and its item have been checked.
impl<'a> Model for ApduView<'a> {
    ghost Value = { Apdu };

    ghost view = { λ v. apdu_of v.group.now v.transaction.now v.number (body_in v.body) };

    ghost invariant = { λ v. IsQualifier v.group.now × IsQualifier v.transaction.now
        × HasItem (body_in v.body) };
}

impl<'a> ApduView<'a> {
    /// Returns the transaction group qualifier: 1 to 64 bytes.
    pub fn group(&self) -> &'a [u8]
        ensures { result.now ≡ self.now.txn.group }
    {
        self.group
    }

    /// Returns the transaction qualifier: 1 to 64 bytes.
    pub fn transaction(&self) -> &'a [u8]
        ensures { result.now ≡ self.now.txn.transaction }
    {
        self.transaction
    }

    /// Returns the number of the message.
    pub fn number(&self) -> Number
        ensures { result ≡ self.now.number }
    {
        self.number
    }

    /// Returns the body: the type of the message, with the fields of that type.
    pub fn body(&self) -> &BodyView<'a>
        ensures { body_in result.now ≡ self.now.body }
    {
        &self.body
    }

    /// Returns the APDU, with its texts copied to memory of their own.
    pub fn to_apdu(&self, alloc: Global) -> Result<Apdu, OutOfMemory>
        ensures { IfOk result (λ apdu. apdu ≡ self.now) }
    {
        let txn = TxnId::new(alloc, self.group, self.transaction).map_err(|_| OutOfMemory)?;
        let body = self.body.to_body(alloc).map_err(|_| OutOfMemory)?;
        Ok(Apdu {
            txn,
            number: self.number,
            body,
        })
    }
}
