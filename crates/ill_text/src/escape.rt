//! Texts on which no terminal and no editor acts.

ghost use Rattle.std.specs.Prelude.{◌≡◌, ◌≤◌, ◌++◌, ◌∷◌, length, option_map, IfOk, OnOk};
ghost use Rattle.ill_text.specs.Escape.{IsActingPrefix, byte_text, escape, escaped, is_continuation, is_acting, is_acting_pair, is_acting_quad, is_acting_triple, is_control, needs_backslash, number_of_four, number_of_three, number_of_two, unit_escape, written};
ghost use Rattle.ill_text.specs.declared.escape.Escaping.TheVariants as escapings;

use ill_values::OutOfMemory;

/// The kind of text in which characters are escaped.
#[derive(Clone, Copy)]
pub(crate) enum Escaping {
    /// A text for a screen.
    Screen,
    /// A string of JSON.
    Json,
}

/// The characters on which a terminal or an editor may act, but for the controls of ASCII: the first and the last of
/// each range. They are controls, marks that change the direction of a text, separators of lines, and characters that
/// are not seen. The joiners U+200C and U+200D are not among them, since words of some languages need them.
const ACTING: [(u32, u32); 10] = [
    (0x80, 0x9F),
    (0xAD, 0xAD),
    (0x61C, 0x61C),
    (0x200B, 0x200B),
    (0x200E, 0x200F),
    (0x2028, 0x202E),
    (0x2060, 0x2064),
    (0x2066, 0x2069),
    (0xFEFF, 0xFEFF),
    (0xE0000, 0xE007F),
];

/// Appends `item`, a text of UTF-8, for a screen. An escape such as `\u{202e}` replaces each character on which a
/// terminal or an editor may act, also a control character of ASCII.
pub fn push_escaped(text: &mut Vec<u8>, item: &[u8]) -> Result<(), OutOfMemory>
    ensures { OnOk result (text.new.items ≡ text.old.items ++ escaped item.now) }
{
    push_written(text, Escaping::Screen, item)
}

/// Appends `item`, a text of UTF-8, as a text of the kind `escaping`. An escape replaces each acting character and each
/// control character of ASCII. In JSON a quotation mark and a backslash get a backslash.
pub(crate) fn push_written(
    text: &mut Vec<u8>,
    escaping: Escaping,
    item: &[u8],
) -> Result<(), OutOfMemory>
    ensures { OnOk result (text.new.items ≡ text.old.items ++ written escaping item.now) }
{
    let mut rest = item;
    while let Some((first, after)) = rest.split_first() {
        rest = push_heading(text, escaping, *first, after)?;
    }
    Ok(())
}

/// Appends the beginning of the text `first` and then `after`, and returns what is left of it. The beginning is the
/// escape of the first character, if that is an acting one, else the text of the byte `first`.
fn push_heading<'a>(
    text: &mut Vec<u8>,
    escaping: Escaping,
    first: u8,
    after: &'a [u8],
) -> Result<&'a [u8], OutOfMemory>
    ensures prefix { IfOk result (λ rest. text.new.items ++ written escaping rest.now
        ≡ text.old.items ++ written escaping (first ∷ after.now)) }
    ensures shorter { IfOk result (λ rest. length rest.now ≤ length after.now) }
{
    match acting_prefix(escaping, first, after) {
        Some((number, rest)) => {
            push_escape(text, escaping, number)?;
            Ok(rest)
        }
        None => {
            push_byte(text, escaping, first)?;
            Ok(after)
        }
    }
}

/// Returns the number of the first character and the bytes after it, if it is an acting one of two bytes or more. Else
/// returns `None`. The text is `first`, and then `after`. Only the contract needs `_escaping`.
#[tactic(auto, using(crate::proofs::EscapeLemmas::two_escape, crate::proofs::EscapeLemmas::three_escape, crate::proofs::EscapeLemmas::four_escape, crate::proofs::EscapeLemmas::first_stays))]
fn acting_prefix(_escaping: Escaping, first: u8, after: &[u8]) -> Option<(u32, &[u8])>
    ensures { IsActingPrefix _escaping first after.now (option_map (λ found. (found.0, found.1.now)) result) }
{
    let Some((second, rest)) = after.split_first() else {
        return None;
    };
    if is_acting_pair(first, *second) {
        return Some((number_of_two(first, *second), rest));
    }
    let Some((third, rest)) = rest.split_first() else {
        return None;
    };
    if is_acting_triple(first, *second, *third) {
        return Some((number_of_three(first, *second, *third), rest));
    }
    let Some((fourth, rest)) = rest.split_first() else {
        return None;
    };
    if is_acting_quad(first, *second, *third, *fourth) {
        return Some((number_of_four(first, *second, *third, *fourth), rest));
    }
    None
}

/// Appends a byte that begins no acting character of two bytes or more. A control character of ASCII becomes an
/// escape. In JSON a quotation mark and a backslash get a backslash.
fn push_byte(text: &mut Vec<u8>, escaping: Escaping, byte: u8) -> Result<(), OutOfMemory>
    ensures { OnOk result (text.new.items ≡ text.old.items ++ byte_text escaping byte) }
{
    match escaping {
        Escaping::Screen => push_screen_byte(text, byte),
        Escaping::Json => push_json_byte(text, byte),
    }
}

/// Appends a byte to a text for a screen, or the escape of a control character of ASCII.
fn push_screen_byte(text: &mut Vec<u8>, byte: u8) -> Result<(), OutOfMemory>
    ensures { OnOk result (text.new.items ≡ text.old.items ++ byte_text escapings.Screen byte) }
{
    if is_control(byte) {
        return push_escape(text, Escaping::Screen, byte.into());
    }
    text.push(byte)?;
    Ok(())
}

/// Appends a byte to a string of JSON, with a backslash before a quotation mark or a backslash. A control character of
/// ASCII becomes an escape.
fn push_json_byte(text: &mut Vec<u8>, byte: u8) -> Result<(), OutOfMemory>
    ensures { OnOk result (text.new.items ≡ text.old.items ++ byte_text escapings.Json byte) }
{
    if needs_backslash(byte) {
        text.push(b'\\')?;
    } else if is_control(byte) {
        return push_escape(text, Escaping::Json, byte.into());
    }
    text.push(byte)?;
    Ok(())
}

/// Appends the escape of the character `number`.
fn push_escape(text: &mut Vec<u8>, escaping: Escaping, number: u32) -> Result<(), OutOfMemory>
    ensures { OnOk result (text.new.items ≡ text.old.items ++ escape escaping number) }
{
    match escaping {
        Escaping::Screen => push_screen_escape(text, number),
        Escaping::Json => push_json_escape(text, number),
    }
}

/// Appends the escape of the character `number` for a screen.
fn push_screen_escape(text: &mut Vec<u8>, number: u32) -> Result<(), OutOfMemory>
    ensures { OnOk result (text.new.items ≡ text.old.items ++ escape escapings.Screen number) }
{
    let escape = format!(in *text.allocator(); "\\u{{{number:x}}}")?;
    text.extend_from_slice(escape.as_bytes())?;
    Ok(())
}

/// Appends the escape of the character `number` in a string of JSON, which has two units above U+FFFF.
fn push_json_escape(text: &mut Vec<u8>, number: u32) -> Result<(), OutOfMemory>
    ensures { OnOk result (text.new.items ≡ text.old.items ++ escape escapings.Json number) }
{
    if number < 0x10000 {
        return push_unit(text, number);
    }
    let above = number.saturating_sub(0x10000);
    push_unit(text, 0xD800 + above / 1024)?;
    push_unit(text, 0xDC00 + above % 1024)
}

/// Appends the escape of a unit of UTF-16 in a string of JSON.
fn push_unit(text: &mut Vec<u8>, unit: u32) -> Result<(), OutOfMemory>
    ensures { OnOk result (text.new.items ≡ text.old.items ++ unit_escape unit) }
{
    let (first, second) = (unit / 4096 % 16, unit / 256 % 16);
    let (third, fourth) = (unit / 16 % 16, unit % 16);
    let escape = format!(in *text.allocator(); "\\u{first:x}{second:x}{third:x}{fourth:x}")?;
    text.extend_from_slice(escape.as_bytes())?;
    Ok(())
}

/// Returns true if `byte` has a backslash before it in a string of JSON.
fn needs_backslash(byte: u8) -> bool
    ensures { result ≡ needs_backslash byte }
{
    matches!(byte, b'"' | b'\\')
}

/// Returns true if `byte` is a control character of ASCII.
fn is_control(byte: u8) -> bool
    ensures { result ≡ is_control byte }
{
    matches!(byte, 0..0x20 | 0x7F)
}

/// Returns true if the two bytes encode an acting character.
fn is_acting_pair(first: u8, second: u8) -> bool
    ensures { result ≡ is_acting_pair first second }
{
    matches!(first, 0xC0..=0xDF)
        && is_continuation(second)
        && is_acting(number_of_two(first, second))
}

/// Returns true if the three bytes encode an acting character.
fn is_acting_triple(first: u8, second: u8, third: u8) -> bool
    ensures { result ≡ is_acting_triple first second third }
{
    matches!(first, 0xE0..=0xEF)
        && is_continuation(second)
        && is_continuation(third)
        && is_acting(number_of_three(first, second, third))
}

/// Returns true if the four bytes encode an acting character.
fn is_acting_quad(first: u8, second: u8, third: u8, fourth: u8) -> bool
    ensures { result ≡ is_acting_quad first second third fourth }
{
    matches!(first, 0xF0..=0xF7)
        && is_continuation(second)
        && is_continuation(third)
        && is_continuation(fourth)
        && is_acting(number_of_four(first, second, third, fourth))
}

/// Returns true if `byte` can follow the first byte of a character.
fn is_continuation(byte: u8) -> bool
    ensures { result ≡ is_continuation byte }
{
    matches!(byte, 0x80..=0xBF)
}

/// Returns the number of the character that two bytes encode.
fn number_of_two(first: u8, second: u8) -> u32
    ensures { result ≡ number_of_two first second }
{
    u32::from(first.saturating_sub(0xC0)) * 64 + u32::from(second.saturating_sub(0x80))
}

/// Returns the number of the character that three bytes encode.
fn number_of_three(first: u8, second: u8, third: u8) -> u32
    ensures { result ≡ number_of_three first second third }
{
    u32::from(first.saturating_sub(0xE0)) * 4096
        + (u32::from(second.saturating_sub(0x80)) * 64 + u32::from(third.saturating_sub(0x80)))
}

/// Returns the number of the character that four bytes encode.
fn number_of_four(first: u8, second: u8, third: u8, fourth: u8) -> u32
    ensures { result ≡ number_of_four first second third fourth }
{
    u32::from(first.saturating_sub(0xF0)) * 262_144
        + (u32::from(second.saturating_sub(0x80)) * 4096
            + (u32::from(third.saturating_sub(0x80)) * 64 + u32::from(fourth.saturating_sub(0x80))))
}

/// Returns true if the character `number` is an acting one.
#[tactic(auto, unfolding(crate::specs::Escape::acting_ranges))]
fn is_acting(number: u32) -> bool
    ensures { result ≡ is_acting number }
{
    ACTING
        .iter()
        .any(|(first, last)| (*first..=*last).contains(&number))
}
