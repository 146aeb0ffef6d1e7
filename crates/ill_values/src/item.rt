//! Defines items.

ghost use Rattle.std.specs.Prelude.{◌≡◌, ◌≤◌, ℕ, List, length, is_ok, IfOk};
ghost use Rattle.std.specs.Str.{bytes_eq};
ghost use Rattle.std.specs.Cmp.Rules.{comparing};
ghost use Rattle.std.proofs.Common.{rules};
ghost use Rattle.ill_values.specs.Text.{item_check, item_of, IsItem, ReturnsText};

use crate::fault::TextFault;
use crate::text::check_item;
use std::alloc::{AllocError as OutOfMemory, Global};
use std::marker::Model;
use std::str;

/// The item that a request asks for: 1 to 200 bytes of UTF-8 without the control characters of ASCII.
#[derive(Debug, Drop)]
pub struct Item {
    text: Vec<u8>,
}

/// In proofs an item is the list of its bytes, which satisfies `IsItem`.
impl Model for Item {
    ghost Value = { List ℕ };

    ghost view = { λ item. item.text.items };

    ghost invariant = { λ item. IsItem item.text.items };
}

impl PartialEq for Item {
    ghost eq = { bytes_eq };

    ghost laws = { Prim.search (comparing, rules) };

    fn eq(&self, other: &Item) -> bool {
        self.text == other.text
    }
}

impl Eq for Item {
    ghost laws = { Prim.search (comparing, rules) };
}

impl Item {
    /// Returns the item with bytes `text`, in memory of its own, or the first fault of `text`.
    pub fn new(alloc: Global, text: &[u8]) -> Result<Item, TextFault>
        ensures { ReturnsText (item_of text.now) result }
    {
        check_item(text)?;
        Ok(Item {
            text: Vec::from_slice(alloc, text)?,
        })
    }

    /// Returns a copy of the item, in memory of its own.
    pub fn copy(&self, alloc: Global) -> Result<Item, OutOfMemory>
        ensures { IfOk result (λ item. item ≡ self.now) }
    {
        Ok(Item {
            text: Vec::from_slice(alloc, self.text())?,
        })
    }

    /// Returns true if `text` is an item. It allocates nothing.
    pub fn is_item(text: &[u8]) -> bool
        ensures { result ≡ is_ok (item_check text.now) }
    {
        check_item(text).is_ok()
    }

    /// Returns the bytes of the item.
    pub fn text(&self) -> &[u8]
        ensures bytes { result.now ≡ self.now }
        ensures item { IsItem self.now }
        ensures most { length result.now ≤ 200 }
    {
        &self.text
    }

    /// Returns the item as text.
    pub fn as_str(&self) -> &str
        ensures bytes { result.now ≡ self.now }
        ensures item { IsItem self.now }
    {
        match str::from_utf8(self.text()) {
            Ok(text) => text,
            Err(_) => unreachable!(),
        }
    }
}
