//! The outlets of the messages that leave a desk: a folder of message files, or a stream.

ghost use Rattle.std.specs.Prelude.{◌++◌, ℕ, List, Option, Some};
ghost use Rattle.ill_night.specs.Outbox.{Letter, PutsOne};

use ill_text::fault::ToolFault;

/// An outlet: it takes messages that leave a desk, each with the name of its message file.
pub trait Outgoing {
    /// The model of the message files in an outlet.
    ghost MessageFiles: { Type 0 };

    /// The message files in an outlet, if they are known.
    ghost message_files: { Self → Option Self.MessageFiles };

    /// The message files in an outlet after one more was put into it.
    ghost after: { Self.MessageFiles → Letter → Self.MessageFiles };

    /// Puts the message `bytes` into the outlet, whole or not at all. `name` is the name of its message file.
    fn put(&mut self, name: &[u8], bytes: &[u8]) -> Result<(), ToolFault>
        ensures { PutsOne after (record { name = name.now; bytes = bytes.now }) (message_files self.old) (message_files self.new) result };
}

/// A stream of messages, one after another. It ignores the names of their message files.
#[derive(Drop)]
pub(crate) struct Stream {
    pub(crate) bytes: Vec<u8>,
}

impl Outgoing for Stream {
    ghost MessageFiles = { List ℕ };

    ghost message_files = { λ stream. Some stream.bytes.items };

    ghost after = { λ there letter. there ++ letter.bytes };

    fn put(&mut self, _name: &[u8], bytes: &[u8]) -> Result<(), ToolFault> {
        self.bytes.extend_from_slice(bytes)?;
        Ok(())
    }
}
