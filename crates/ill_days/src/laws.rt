//! States the laws of the texts of days, as contracts of functions that do nothing.

ghost use Rattle.std.specs.Prelude.{◌≡◌, ◌⊎◌, ℕ, List, Ok};
ghost use Rattle.ill_values.specs.Day.{Date, IsDate, date_text, iso_text};
ghost use Rattle.ill_days.specs.Days.{read_day};

/// Both texts of a day are read as that day.
pub fn both_texts_are_read()
    ensures digits { (d : Date) → IsDate d → read_day (date_text d) ≡ Ok d }
    ensures dashed { (d : Date) → IsDate d → read_day (iso_text d) ≡ Ok d }
{}

/// A text that is read as a day is one of the two texts of that day.
pub fn no_other_text_is_read()
    ensures { (text : List ℕ) (d : Date) → read_day text ≡ Ok d →
        IsDate d × ((text ≡ date_text d) ⊎ (text ≡ iso_text d)) }
{}
