//! The message of a message file.

ghost use Rattle.std.specs.Prelude.{◌≡◌};
ghost use Rattle.ill_der.specs.ShortForm.{apdu_at};
ghost use Rattle.ill_night.specs.MessageFiles.{message_in, one_message};

use crate::verdict::Unfit;
use ill_der::{APDU_LIMIT, ApduView, view};

/// Returns the message of a message file, or the reason why no desk will ever take it.
pub fn message_in(bytes: &[u8]) -> Result<ApduView<'_>, Unfit>
    ensures { result ≡ message_in bytes.now }
{
    if bytes.len() > APDU_LIMIT {
        return Err(Unfit::TooLong);
    }
    one_message(bytes)
}

/// Returns the only message in `bytes`, or the reason why there is none.
fn one_message(bytes: &[u8]) -> Result<ApduView<'_>, Unfit>
    ensures { result ≡ one_message (apdu_at bytes.now) }
{
    match view(bytes) {
        Ok((apdu, size)) => {
            if size == bytes.len() {
                Ok(apdu)
            } else {
                Err(Unfit::Trailing)
            }
        }
        Err(fault) => Err(Unfit::NoMessage(fault)),
    }
}
