//! Counts the faults of letters that were changed.

ghost use Rattle.std.specs.Prelude.{◌<◌};

use crate::case::{case_in, fault_word};
use ill_seal::{SealFault, unseal};
use ill_test_kit::Page;
use std::alloc::Global;

/// The counts of the answers to some letters.
#[derive(Drop)]
struct Counts {
    /// The count of letters that open.
    open: u32,
    /// The counts of the faults, each at its `place_of`.
    faults: [u32; 4],
}

impl Counts {
    /// Returns counts of no letter.
    fn new() -> Counts {
        Counts {
            open: 0,
            faults: [0; 4],
        }
    }

    /// Counts the answer to one letter.
    fn count(&mut self, answer: Result<&[u8], SealFault>) {
        match answer {
            Ok(_) => self.open = self.open.saturating_add(1),
            Err(fault) => {
                let place = place_of(fault);
                self.faults[place] = self.faults[place].saturating_add(1);
            }
        }
    }

    /// Adds the counts to `output`, each after the word of its answer.
    fn push(&self, output: &mut Page) {
        output.text("open ");
        output.show(&self.open);
        for fault in [
            SealFault::Short,
            SealFault::Mark,
            SealFault::Sender,
            SealFault::Seal,
        ] {
            output.text(", ");
            output.text(fault_word(fault));
            output.text(" ");
            output.show(&self.faults[place_of(fault)]);
        }
    }
}

/// Returns the place of the count of a fault.
fn place_of(fault: SealFault) -> usize
    ensures { result < 4 }
{
    match fault {
        SealFault::Short => 0,
        SealFault::Mark => 1,
        SealFault::Sender => 2,
        SealFault::Seal => 3,
    }
}

/// Adds the counts of the answers to the letter with each of its bits turned, one at a time.
pub fn push_each_bit(alloc: Global, output: &mut Page, words: &str) -> Option<()> {
    let case = case_in(alloc, words)?;
    let mut letter = case.bytes;
    let mut counts = Counts::new();
    for place in 0..letter.len() {
        for bit in 0..8u32 {
            turn(&mut letter, place, bit);
            counts.count(unseal(&case.key, case.sender, &letter));
            turn(&mut letter, place, bit);
        }
    }
    counts.push(output);
    Some(())
}

/// Turns the bit `bit` of the byte at `place`: 0 becomes 1, and 1 becomes 0.
fn turn(letter: &mut Vec<u8>, place: usize, bit: u32) {
    if let Some(byte) = letter.get_mut(place) {
        *byte ^= 1u8.wrapping_shl(bit);
    }
}

/// Adds the counts of the answers to the proper prefixes of a letter.
pub fn push_each_front(alloc: Global, output: &mut Page, words: &str) -> Option<()> {
    let case = case_in(alloc, words)?;
    let mut counts = Counts::new();
    for size in 0..case.bytes.len() {
        let front = case.bytes.get(..size)?;
        counts.count(unseal(&case.key, case.sender, front));
    }
    counts.push(output);
    Some(())
}
