//! The identifier and the length of an APDU.

ghost use Rattle.std.specs.Prelude.{◌≡◌, ◌+◌, ◌≤◌, length, IfOk};
ghost use Rattle.ill_der.specs.Format.{length_of};
ghost use Rattle.ill_der.specs.ShortForm.{header_at, header_by};

use crate::fault::DerFault;
use crate::identifier::type_with;
use crate::length::{LengthForm, length_of};
use ill_values::ApduType;

/// The maximum number of contents octets of an APDU.
const MAX_CONTENTS: u16 = 355;

/// The maximum number of bytes of an APDU.
pub const APDU_LIMIT: usize = 359;

/// The header of an APDU: the type that its identifier gives, and the sizes that its length gives.
#[derive(Clone, Copy, Debug)]
pub struct Header {
    /// The type of the APDU.
    pub apdu_type: ApduType,
    /// The offset of the contents, in bytes from the first byte of the APDU.
    pub start: u16,
    /// The number of bytes of the APDU: at most `APDU_LIMIT`.
    pub size: u16,
}

/// Returns the header with which `bytes` begins, or its fault. The fault is `Short` if `bytes` ends within the header.
#[tactic(auto, unfolding(crate::specs::ShortForm::header_at))]
pub fn header_at(bytes: &[u8]) -> Result<Header, DerFault>
    ensures read { result ≡ header_at bytes.now }
    ensures some { IfOk result (λ header. 1 ≤ header.start) }
    ensures order { IfOk result (λ header. header.start ≤ header.size) }
    ensures most { IfOk result (λ header. header.size ≤ 359) }
{
    match bytes {
        [] => Err(DerFault::Short(0)),
        [identifier, after @ ..] => match type_with(*identifier) {
            Some(apdu_type) => header_by(apdu_type, after),
            None => Err(DerFault::Tag(0)),
        },
    }
}

/// Returns the header of an APDU of `apdu_type`, or its fault. `bytes` are the bytes after the identifier.
fn header_by(apdu_type: ApduType, bytes: &[u8]) -> Result<Header, DerFault>
    ensures read { result ≡ header_by apdu_type (length_of bytes.now) (length bytes.now + 1) }
    ensures some { IfOk result (λ header. 1 ≤ header.start) }
    ensures order { IfOk result (λ header. header.start ≤ header.size) }
    ensures most { IfOk result (λ header. header.size ≤ 359) }
{
    match length_of(bytes) {
        LengthForm::Truncated => Err(DerFault::Short(bytes.len() as u16 + 1)),
        LengthForm::Invalid => Err(DerFault::Length(1)),
        LengthForm::Definite(length, octets) => {
            if length > MAX_CONTENTS {
                return Err(DerFault::Length(1));
            }
            Ok(Header {
                apdu_type,
                start: 1 + octets,
                size: 1 + (octets + length),
            })
        }
    }
}
