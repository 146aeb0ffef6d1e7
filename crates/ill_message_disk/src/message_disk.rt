//! The calls of a disk that has message files.

ghost use Rattle.std.specs.Prelude.{◌≡◌};
ghost use Rattle.ill_disk.specs.Calls.{Answers, Changes};
ghost use Rattle.ill_message_disk.specs.MessageFileCalls.{Finds, Links, after_flush_name};

use ill_disk::{Disk, DiskFault};

/// A file that was found.
#[derive(Clone, Copy, Debug, PartialEq, Eq, Hash)]
pub struct Found {
    /// The number of the file. Files that exist side by side have different numbers.
    pub file: u128,
    /// The number of its bytes.
    pub size: u64,
}

/// A disk that has message files. A path is a whole one: the message files of a desk lie in several folders.
///
/// A call that is done has changed the disk as its clause says. A call that failed has done so too, or has changed
/// nothing. A flush of all names is not asked for here, since a system flushes one folder. The clauses know no folders.
/// A name that a crash leaves is left with its folder.
pub trait MessageDisk: Disk {
    /// Returns the file at `path`, or `None` if no file stands there. It follows no link.
    fn find(&mut self, path: &[u8]) -> Result<Option<Found>, DiskFault>
        ensures { Answers (Finds path.now) (Self.state self.old) result (Self.state self.new) };

    /// Gives the file at `from` the second name `to`. Fails if a name stands there.
    fn link(&mut self, from: &[u8], to: &[u8]) -> Result<(), DiskFault>
        ensures { Answers (Links from.now to.now) (Self.state self.old) result (Self.state self.new) };

    /// Flushes the folder of `path`, so that each crash leaves at `path` what stands there now.
    fn flush_name(&mut self, path: &[u8]) -> Result<(), DiskFault>
        ensures { Answers (Changes (after_flush_name path.now)) (Self.state self.old) result (Self.state self.new) };

    /// Makes the folder `path` for its owner alone, if it is not there.
    fn make_folder(&mut self, path: &[u8]) -> Result<(), DiskFault>
        ensures { Self.state self.new ≡ Self.state self.old };

    /// Removes the folder `path`, if it is empty.
    fn remove_folder(&mut self, path: &[u8]) -> Result<(), DiskFault>
        ensures { Self.state self.new ≡ Self.state self.old };
}
