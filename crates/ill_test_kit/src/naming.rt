//! Looks a word up in a table of named values.

/// Returns the value that `names` gives to `word`, or `None` if `word` is not among the names.
pub fn named<T: Copy>(names: &[(&str, T)], word: &str) -> Option<T> {
    for (name, value) in names {
        if *name == word {
            return Some(*value);
        }
    }
    None
}
