//! Reads numbers from words. A parser of numbers is dear in the proof of a crate, so the test programs share this one.

/// Returns the number that the digits `word` encode, or `None` if `word` is no number below 2 to the power of 32.
pub fn number_in(word: &str) -> Option<u32> {
    word.parse::<u32>().ok()
}

/// Returns the count that the digits `word` encode, or `None` if `word` is no such number.
pub fn count_in(word: &str) -> Option<usize> {
    usize::try_from(number_in(word)?).ok()
}

/// Returns the octet that the digits `word` encode, or `None` if `word` is no number below 256.
pub fn octet_in(word: &str) -> Option<u8> {
    u8::try_from(number_in(word)?).ok()
}
