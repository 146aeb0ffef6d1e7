//! The senders of letters, by the roles of desks.

ghost use Rattle.std.specs.Prelude.{◌≡◌};
ghost use Rattle.ill_key.specs.Letter.{own_sender, other_sender};

use ill_saved::Role;
use ill_seal::Sender;

/// Returns the sender of the letters that a desk of `role` seals.
pub fn own_sender(role: Role) -> Sender
    ensures { result ≡ own_sender role }
{
    match role {
        Role::Requester => Sender::Requester,
        Role::Responder => Sender::Responder,
    }
}

/// Returns the sender of the letters that a desk of `role` opens.
pub fn other_sender(role: Role) -> Sender
    ensures { result ≡ other_sender role }
{
    match role {
        Role::Requester => Sender::Responder,
        Role::Responder => Sender::Requester,
    }
}
