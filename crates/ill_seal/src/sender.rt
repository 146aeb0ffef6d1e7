//! The library that sends a letter, by its role.

ghost use Rattle.std.specs.Prelude.{◌≡◌};
ghost use Rattle.ill_seal.specs.Sender.{octet_of};

/// The library that sends a letter. Each letter names its sender, so none opens at the library that sealed it.
#[derive(Clone, Copy, Debug, PartialEq, Eq)]
pub enum Sender {
    /// The requester's library.
    Requester,
    /// The responder's library.
    Responder,
}

impl Sender {
    /// Returns the octet of the sender. It is that of its role in a saved record.
    pub fn octet(self) -> u8
        ensures { result ≡ octet_of self }
    {
        match self {
            Sender::Requester => 0,
            Sender::Responder => 1,
        }
    }
}
