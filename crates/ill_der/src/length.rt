//! Length octets (X.690 8.1.3), in the shortest form (X.690 10.1).

ghost use Rattle.std.specs.Prelude.{◌≡◌, ◌≤◌, ◌<◌, ◌^◌, length};
ghost use Rattle.ill_der.specs.Format.{IsFew, length_of, one_octet_length, two_octet_length};

/// The length with which bytes begin.
#[derive(Clone, Copy, Debug, PartialEq, Eq, Hash)]
pub enum LengthForm {
    /// The bytes end within the length octets.
    Truncated,
    /// The octets are not a length in its shortest form.
    Invalid,
    /// The number of contents octets, and the number of length octets that give it.
    Definite(u16, u16),
}

/// Returns the length with which `bytes` begins.
#[tactic(auto, unfolding(crate::specs::Format::length_of))]
pub fn length_of(bytes: &[u8]) -> LengthForm
    ensures value { result ≡ length_of bytes.now }
    ensures few { IsFew result (length bytes.now) }
{
    match bytes {
        [] => LengthForm::Truncated,
        [0x81, rest @ ..] => one_octet_length(rest),
        [0x82, rest @ ..] => two_octet_length(rest),
        [first, ..] => {
            if *first < 0x80 {
                LengthForm::Definite(u16::from(*first), 1)
            } else {
                LengthForm::Invalid
            }
        }
    }
}

/// Returns the length that the octet 81 and then `bytes` give. After 81 comes one octet, whose value is at least 128.
fn one_octet_length(bytes: &[u8]) -> LengthForm
    ensures value { result ≡ one_octet_length bytes.now }
    ensures few { IsFew result (length bytes.now) }
{
    match bytes {
        [] => LengthForm::Truncated,
        [length, ..] => {
            if *length < 0x80 {
                LengthForm::Invalid
            } else {
                LengthForm::Definite(u16::from(*length), 2)
            }
        }
    }
}

/// Returns the length that the octet 82 and then `bytes` give. After 82 come two octets, of which the first is not 0.
fn two_octet_length(bytes: &[u8]) -> LengthForm
    ensures value { result ≡ two_octet_length bytes.now }
    ensures few { IsFew result (length bytes.now) }
{
    match bytes {
        [] | [_] => LengthForm::Truncated,
        [high, low, ..] => {
            if *high == 0 {
                LengthForm::Invalid
            } else {
                LengthForm::Definite(256 * u16::from(*high) + u16::from(*low), 3)
            }
        }
    }
}
