//! Compares a number with one that may be absent.

ghost use Rattle.std.specs.Prelude.{◌≡◌};
ghost use Rattle.ill_core.specs.Numbers.{is_at_most};

use ill_values::Number;

/// Returns true if `most` is a number, and `number` is at most it.
pub fn is_at_most(number: Number, most: Option<Number>) -> bool
    ensures { result ≡ is_at_most number most }
{
    match most {
        Some(most) => number <= most,
        None => false,
    }
}
