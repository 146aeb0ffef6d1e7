//! In a night only some sides send messages.

ghost use Rattle.std.specs.Prelude.{◌≡◌};
ghost use Rattle.ill_words.specs.Sending.{is_over, wants_sending};

use ill_core::Turn;
use ill_saved::Side;

/// Returns true if nobody acts next in the loan, as far as this side's record tells.
pub fn is_over(side: &Side) -> bool
    ensures { result ≡ is_over side.now }
{
    match side.turn() {
        Turn::Over => true,
        Turn::Mine | Turn::Theirs => false,
    }
}

/// Returns true if `side` sends its messages in a night. It does unless its loan is over. A responder sends them too if
/// it `was_asked`: a message of the loan came in this night.
pub fn wants_sending(side: &Side, was_asked: bool) -> bool
    ensures { result ≡ wants_sending was_asked side.now }
{
    match side {
        Side::Requester(_) => !is_over(side),
        Side::Responder(_) => !is_over(side) || was_asked,
    }
}
