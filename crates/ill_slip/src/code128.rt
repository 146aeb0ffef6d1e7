//! The Code 128 of a text, drawn as a path of SVG.

ghost use Rattle.std.specs.Prelude.{◌≡◌, ◌+◌, ◌%◌, ◌<◌, ◌≤◌, ◌++◌, ◌∷◌, codes, [], length, slice_index, OnOk};
ghost use Rattle.std.specs.List.{flat_map};
ghost use Rattle.ill_slip.specs.Code128.{check, drawn, encoded, path, symbols, value_of};

use ill_values::OutOfMemory;

/// The symbols of Code 128, in the order of their values. Their digits are widths of bars and spaces.
const SYMBOLS: [u32; 107] = [
    212222, 222122, 222221, 121223, 121322, 131222, 122213, 122312, 132212, 221213, 221312, 231212,
    112232, 122132, 122231, 113222, 123122, 123221, 223211, 221132, 221231, 213212, 223112, 312131,
    311222, 321122, 321221, 312212, 322112, 322211, 212123, 212321, 232121, 111323, 131123, 131321,
    112313, 132113, 132311, 211313, 231113, 231311, 112133, 112331, 132131, 113123, 113321, 133121,
    313121, 211331, 231131, 213113, 213311, 213131, 311123, 311321, 331121, 312113, 312311, 332111,
    314111, 221411, 431111, 111224, 111422, 121124, 121421, 141122, 141221, 112214, 112412, 122114,
    122411, 142112, 142211, 241211, 221114, 413111, 241112, 134111, 111242, 121142, 121241, 114212,
    124112, 124211, 411212, 421112, 421211, 212141, 214121, 412121, 111143, 111341, 131141, 114113,
    114311, 411113, 411311, 113141, 114131, 311141, 411131, 211412, 211214, 211232, 233111,
];

/// The value of the symbol that begins a code in code set B.
const START: u8 = 104;

/// The value of the symbol that ends a code.
const STOP: u8 = 106;

/// Appends the path of the Code 128 of `text`. It has at most 129 bytes, as two qualifiers with a space have. So the
/// sum for the check value cannot overflow.
pub(crate) fn push_path(page: &mut Vec<u8>, text: &[u8]) -> Result<(), OutOfMemory>
    requires { length text.now ≤ 129 }
    ensures { OnOk result (page.new.items ≡ page.old.items ++ path (encoded text.now)) }
{
    push_symbol(page, START)?;
    push_characters(page, text)?;
    push_symbol(page, check(text))?;
    push_symbol(page, STOP)?;
    page.extend_from_slice(b"h2")?;
    Ok(())
}

/// Appends the symbols of the characters of `text`.
fn push_characters(page: &mut Vec<u8>, text: &[u8]) -> Result<(), OutOfMemory>
    ensures { OnOk result (page.new.items ≡ page.old.items
        ++ flat_map (λ character. drawn (value_of character)) text.now) }
{
    for character in text {
        push_symbol(page, value_of(*character))?;
    }
    Ok(())
}

/// Returns the value of a character.
fn value_of(character: u8) -> u8
    ensures { result ≡ value_of character }
{
    character.saturating_sub(b' ')
}

/// Returns the check value of `text`. It has at most 129 bytes, so the sum cannot overflow.
fn check(text: &[u8]) -> u8
    requires { length text.now ≤ 129 }
    ensures value { result ≡ check text.now }
{
    let mut sum = u32::from(START);
    let mut position = 0;
    for character in text {
        position += 1;
        sum += position * u32::from(value_of(*character));
    }
    (sum % 103) as u8
}

/// Appends the bars and spaces of the symbol with the value `value`.
#[tactic(auto, unfolding(crate::specs::Code128::drawn))]
fn push_symbol(page: &mut Vec<u8>, value: u8) -> Result<(), OutOfMemory>
    ensures { OnOk result (page.new.items ≡ page.old.items ++ drawn value) }
{
    let symbol = symbol(value);
    push_pair(page, symbol / 100_000, symbol / 10_000)?;
    push_pair(page, symbol / 1_000, symbol / 100)?;
    push_pair(page, symbol / 10, symbol)
}

/// Returns the symbol with the value `value`, or 0 if no symbol has it.
fn symbol(value: u8) -> u32
    ensures { result ≡ slice_index symbols value }
{
    let place = usize::from(value);
    if place < SYMBOLS.len() {
        SYMBOLS[place]
    } else {
        0
    }
}

/// Appends a bar and the space after it. The last digits of `bar` and `space` are the widths.
fn push_pair(page: &mut Vec<u8>, bar: u32, space: u32) -> Result<(), OutOfMemory>
    ensures { OnOk result (page.new.items ≡ page.old.items ++ path (bar % 10 ∷ space % 10 ∷ [])) }
{
    page.extend_from_slice(&[b'h', digit(bar), b'm', digit(space), b' ', b'0'])
}

/// Returns the character of the last digit of `number`.
fn digit(number: u32) -> u8
    ensures { result ≡ 48 + number % 10 }
{
    b'0' + (number % 10) as u8
}
