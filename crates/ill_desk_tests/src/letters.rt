//! Collects the messages of an outbox in a list of message files with limited room.

ghost use Rattle.std.specs.Prelude.{ℕ, None};

use ill_night::outgoing::Outgoing;
use ill_saved::{DeskFault, StoreFault};
use ill_session_kit::Names;
use ill_session_kit::telling::{print_bytes, print_line};
use ill_test_kit::Page;
use ill_text::fault::ToolFault;
use std::alloc::Global;

/// A message file that was sent.
#[derive(Drop)]
struct Letter {
    /// The name of the message file.
    name: Vec<u8>,
    /// The bytes of the message file.
    bytes: Vec<u8>,
}

impl Letter {
    /// Returns true if both have equal names and bytes.
    fn is(&self, other: &Letter) -> bool {
        self.name.as_slice() == other.name.as_slice()
            && self.bytes.as_slice() == other.bytes.as_slice()
    }
}

/// The message files that were sent, and the room for others.
#[derive(Drop)]
pub struct Letters {
    /// The allocator of all message files.
    alloc: Global,
    /// The message files that were sent.
    letters: Vec<Letter>,
    /// The count of message files for which there is still room.
    room: usize,
}

impl Letters {
    /// Returns an empty list with room for `room` message files.
    pub fn new(alloc: Global, room: usize) -> Letters {
        Letters {
            alloc,
            letters: Vec::new(alloc),
            room,
        }
    }

    /// Returns true if the message files of this list are the first message files of `other`.
    pub fn is_prefix_of(&self, other: &Letters) -> bool {
        let mut others = other.letters.iter();
        for letter in &self.letters {
            if !others.next().is_some_and(|other| letter.is(other)) {
                return false;
            }
        }
        true
    }

    /// Prints the name and the bytes of each message file.
    pub fn tell(&self, page: &mut Page, names: &Names) {
        for letter in &self.letters {
            print_line(page, ">", str::from_utf8(&letter.name).unwrap_or_default());
            print_bytes(page, names, ">", &letter.bytes);
        }
    }
}

impl Outgoing for Letters {
    // The message files are not known, so their model may be any type.
    ghost MessageFiles = { ℕ };

    ghost message_files = { λ _. None };

    ghost after = { λ there _. there };

    /// Adds a message file to the list. Fails if there is no room for it, or memory runs out.
    fn put(&mut self, name: &[u8], bytes: &[u8]) -> Result<(), ToolFault> {
        if self.room == 0 {
            return Err(ToolFault::Desk(DeskFault::Store(StoreFault::Failed)));
        }
        self.room -= 1;
        let name = Vec::from_slice(self.alloc, name)?;
        let bytes = Vec::from_slice(self.alloc, bytes)?;
        self.letters.push(Letter { name, bytes })?;
        Ok(())
    }
}
