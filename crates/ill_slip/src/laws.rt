//! States the laws of a Code 128, as contracts of functions that do nothing.

ghost use Rattle.std.specs.Prelude.{◌≡◌, ◌+◌, ◌*◌, ◌<◌, ◌++◌, ◌∷◌, [], ◌==◌, ℕ, true, List, length, sum, Some};
ghost use Rattle.std.specs.List.{list_all};
ghost use Rattle.ill_slip.specs.Code128.{check, decoded, encoded, is_character, stop, symbol, symbols, widths};

/// The table has 107 symbols of eleven modules each. With the bar after it, the stop has thirteen.
pub fn symbols_have_eleven_modules()
    ensures count { length symbols ≡ 107 }
    ensures modules { list_all (λ symbol. sum (widths symbol) == 11) symbols ≡ true }
    ensures stop { sum (symbol stop ++ 2 ∷ []) ≡ 13 }
{}

/// A reader finds each text in its code, if code set B has its characters. So no symbol can be taken for another, nor
/// the check value be wrong.
#[tactic(auto, using(crate::proofs::ReaderLemmas::code_is_read))]
pub fn codes_are_read_back()
    ensures { (text : List ℕ) → list_all is_character text ≡ true → decoded (encoded text) ≡ Some text }
{}

/// The code of a text of `n` characters of code set B is 11 n + 35 modules wide.
#[tactic(auto, using(crate::proofs::ReaderLemmas::code_is_wide))]
pub fn codes_have_their_width()
    ensures { (text : List ℕ) → list_all is_character text ≡ true → sum (encoded text) ≡ 11 * length text + 35 }
{}

/// The check value is below 103.
pub fn check_is_below_103()
    ensures { (text : List ℕ) → check text < 103 }
{}
