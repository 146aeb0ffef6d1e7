//! States the laws of the values, as contracts of functions that do nothing.

ghost use Rattle.std.specs.Prelude.{◌≡◌, ◌≤◌, ◌↔◌, ℕ, List, length, IsTrue, Some, Ok};
ghost use Rattle.ill_values.specs.Text.{IsQualifier, IsItem};
ghost use Rattle.ill_values.specs.TxnId.{Qualifiers};
ghost use Rattle.ill_values.specs.declared.apdu.Apdu.{Apdu};
ghost use Rattle.ill_values.specs.Body.{Body};
ghost use Rattle.ill_values.specs.declared.apdu.AnswerResult.{AnswerResult};
ghost use Rattle.ill_values.specs.declared.apdu_type.ApduType.{ApduType};
ghost use Rattle.ill_values.specs.Names.{named_by};
ghost use Rattle.ill_values.specs.Results.{result_name, result_named};
ghost use Rattle.ill_values.specs.Types.{apdu_type_name, apdu_type_named};
ghost use Rattle.ill_values.specs.Day.{Date, IsDate, IsBefore, date_text, read_date};

use crate::apdu::{AnswerResult, Apdu, Body};
use crate::apdu_type::ApduType;
use crate::day::Day;
use crate::item::Item;
use crate::number::Number;
use crate::txn_id::TxnId;
use std::cmp::Ordering;

/// Transaction ids are equal if, and only if, both of their qualifiers are equal.
pub fn equal_txn_ids()
    ensures { (a b : Qualifiers) → IsTrue (⟦<TxnId as PartialEq>⟧.eq a b) ↔ (a ≡ b) }
{}

/// Items are equal if, and only if, their bytes are equal.
pub fn equal_items()
    ensures { (a b : List ℕ) → IsTrue (⟦<Item as PartialEq>⟧.eq a b) ↔ (a ≡ b) }
{}

/// Numbers are equal if, and only if, `get` returns equal values for them.
pub fn equal_numbers()
    ensures { (a b : ℕ) → IsTrue (⟦<Number as PartialEq>⟧.eq a b) ↔ (a ≡ b) }
{}

/// Days are equal if, and only if, year, month and day of the month are equal.
pub fn equal_days()
    ensures { (a b : Date) → IsTrue (⟦<Day as PartialEq>⟧.eq a b) ↔ (a ≡ b) }
{}

/// A day `a` is less than a day `b` if, and only if, `a` is before `b` in the calendar.
pub fn ordered_days()
    ensures { (a b : Date) → (⟦<Day as Ord>⟧.cmp a b ≡ Ordering.Less) ↔ IsBefore a b }
{}

/// Results are equal if, and only if, they are equal variants.
pub fn equal_results()
    ensures { (a b : AnswerResult) → IsTrue (⟦<AnswerResult as PartialEq>⟧.eq a b) ↔ (a ≡ b) }
{}

/// Bodies are equal if, and only if, they are equal variants with equal fields.
pub fn equal_bodies()
    ensures { (a b : Body) → IsTrue (⟦<Body as PartialEq>⟧.eq a b) ↔ (a ≡ b) }
{}

/// APDUs are equal if, and only if, all their parts are equal.
pub fn equal_apdus()
    ensures { (a b : Apdu) → IsTrue (⟦<Apdu as PartialEq>⟧.eq a b) ↔ (a ≡ b) }
{
    equal_txn_ids();
    equal_bodies();
}

/// A qualifier has 1 to 64 bytes, and an item has 1 to 200.
pub fn text_sizes()
    ensures qualifier { (text : List ℕ) → IsQualifier text →
        (1 ≤ length text) × (length text ≤ 64) }
    ensures item { (text : List ℕ) → IsItem text → (1 ≤ length text) × (length text ≤ 200) }
{}

/// The date text of a day is read as that day. Any text that is read as a day is the date text of that day.
pub fn date_texts()
    ensures encoded { (d : Date) → IsDate d → read_date (date_text d) ≡ Ok d }
    ensures read { (text : List ℕ) (d : Date) → read_date text ≡ Ok d →
        IsDate d × (text ≡ date_text d) }
{}

/// Let the name of each value be read as that value. Then a text is read as a value if, and only if, the text is the
/// name of that value.
pub fn names_are_read<A>()
    ensures { (name_of : A → List ℕ) (all : List A) →
        ((value : A) → named_by name_of all (name_of value) ≡ Some value) →
        (text : List ℕ) (value : A) →
        (named_by name_of all text ≡ Some value) ↔ (text ≡ name_of value) }
{}

/// A text is read as a result if, and only if, it is the name of that result.
pub fn result_names_are_read()
    ensures { (text : List ℕ) (answer : AnswerResult) →
        (result_named text ≡ Some answer) ↔ (text ≡ result_name answer) }
{
    names_are_read::<AnswerResult>();
}

/// A text is read as a type of APDU if, and only if, it is the name of that type.
pub fn apdu_type_names_are_read()
    ensures { (text : List ℕ) (apdu_type : ApduType) →
        (apdu_type_named text ≡ Some apdu_type) ↔ (text ≡ apdu_type_name apdu_type) }
{
    names_are_read::<ApduType>();
}
