//! A message file that a run has claimed: its paths and its file.

ghost use Rattle.std.specs.Prelude.{◌≡◌, ℕ, true, IfOk, IfSome, is_some};
ghost use Rattle.ill_message_disk.specs.Spots as spots;
ghost use Rattle.ill_message_disk.specs.Spots.{are_apart};

use std::alloc::{AllocError, Global};
use std::marker::Model;

/// The paths of a message file.
#[derive(Clone, Copy)]
pub struct Paths<'a> {
    /// Its path among the message files that were claimed.
    pub claimed: &'a [u8],
    /// Its path in the folder from which it was claimed.
    pub waiting: &'a [u8],
    /// Its path among the message files that are quarantined.
    pub quarantined: &'a [u8],
    /// The path of the reason why it is quarantined.
    pub reason: &'a [u8],
}

/// A message file that a run has claimed: its paths, which differ, and the number of its file.
#[derive(Drop)]
pub struct Spot {
    claimed: Vec<u8>,
    waiting: Vec<u8>,
    quarantined: Vec<u8>,
    reason: Vec<u8>,
    file: u128,
}

// The value of a message file has its paths and its file. By the invariant the four paths differ.
impl Model for Spot {
    ghost Value = { spots.SpotOf };

    ghost view = { λ s. record {
      claimed = s.claimed.items;
      waiting = s.waiting.items;
      quarantined = s.quarantined.items;
      reason = s.reason.items;
      file = s.file;
    } };

    ghost invariant = { λ s. are_apart (record {
      claimed = s.claimed.items;
      waiting = s.waiting.items;
      quarantined = s.quarantined.items;
      reason = s.reason.items;
      file = s.file;
    }) ≡ true };
}

impl Spot {
    /// Returns the message file with these paths and this file, or `None` if two of the paths are equal.
    pub fn at(alloc: Global, paths: Paths<'_>, file: u128) -> Result<Option<Spot>, AllocError>
        ensures spot { IfOk result (λ found. IfSome found (λ spot. spot ≡ record {
          claimed = paths.entry.claimed.now;
          waiting = paths.entry.waiting.now;
          quarantined = paths.entry.quarantined.now;
          reason = paths.entry.reason.now;
          file = file;
        })) }
        ensures apart { IfOk result (λ found. is_some found ≡ are_apart (record {
          claimed = paths.entry.claimed.now;
          waiting = paths.entry.waiting.now;
          quarantined = paths.entry.quarantined.now;
          reason = paths.entry.reason.now;
          file = file;
        })) }
    {
        if !paths.are_apart() {
            return Ok(None);
        }
        Ok(Some(Spot {
            claimed: Vec::from_slice(alloc, paths.claimed)?,
            waiting: Vec::from_slice(alloc, paths.waiting)?,
            quarantined: Vec::from_slice(alloc, paths.quarantined)?,
            reason: Vec::from_slice(alloc, paths.reason)?,
            file,
        }))
    }

    /// Returns the path among the message files that were claimed.
    pub fn claimed(&self) -> &[u8]
        ensures { result.now ≡ self.now.claimed }
    {
        &self.claimed
    }

    /// Returns the path in the folder from which the message file was claimed.
    pub fn waiting(&self) -> &[u8]
        ensures path { result.now ≡ self.now.waiting }
        ensures apart { are_apart self.now ≡ true }
    {
        &self.waiting
    }

    /// Returns the path among the message files that are quarantined.
    pub fn quarantined(&self) -> &[u8]
        ensures { result.now ≡ self.now.quarantined }
    {
        &self.quarantined
    }

    /// Returns the path of the reason why the message file is quarantined.
    pub fn reason(&self) -> &[u8]
        ensures { result.now ≡ self.now.reason }
    {
        &self.reason
    }

    /// Returns the number of the file.
    pub fn file(&self) -> u128
        ensures number { result ≡ self.now.file }
        ensures apart { are_apart self.now ≡ true }
    {
        self.file
    }
}

impl Paths<'_> {
    /// Returns true if the four paths differ.
    fn are_apart(&self) -> bool
        ensures { (file : ℕ) → result ≡ are_apart (record {
          claimed = self.now.claimed.now;
          waiting = self.now.waiting.now;
          quarantined = self.now.quarantined.now;
          reason = self.now.reason.now;
          file = file;
        }) }
    {
        self.waiting != self.claimed
            && self.quarantined != self.claimed
            && self.reason != self.claimed
            && self.quarantined != self.waiting
            && self.reason != self.waiting
            && self.reason != self.quarantined
    }
}
