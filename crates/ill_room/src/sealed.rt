//! The messages that leave a desk, in sealed letters.

ghost use Rattle.std.specs.Prelude.{◌≡◌, ◌++◌, ◌∷◌, [], map, option_map, List, ℕ, Some, IfOk, OnOk};
ghost use Rattle.ill_night.specs.Outbox.{RunsOutbox};
ghost use Rattle.ill_room.specs.Sealed.{PutsWith, PutsLetters, all_texts, filling_of, letter_name, message_file_of, sealed_message_file, sealing_of, texts_of, with_message};

use ill_night::outbox::run_desk_outbox;
use ill_night::outgoing::Outgoing;
use ill_saved::{Desk, Store};
use ill_seal::{Key, Sender, seal};
use ill_text::fault::ToolFault;
use ill_values::OutOfMemory;
use sha2::{Digest, Sha256};
use std::alloc::Global;
use std::mem;

/// The most bytes of messages in a letter.
const TEXT: usize = 1_048_576;

/// The number of hexadecimal digits of the digest of a letter in the name of its file.
const DIGITS: usize = 32;

/// The key and the sender of the letters that leave.
#[derive(Clone, Copy)]
pub struct Seal<'k> {
    /// The key, which the other library holds too.
    pub key: &'k Key,
    /// The library that sends the letters. Each letter names it.
    pub sender: Sender,
}

/// Puts the messages of `run_desk_outbox` into `out`, and returns the number of messages. `asking` has the messages
/// that came for loans that are over. With `seal` the messages leave in sealed letters, as many in each as it may have.
/// Else each message leaves in a message file of its own.
///
/// After a fault, `out` has a prefix of these message files, and no part of another. All letters are sealed before the
/// first one is put.
pub fn run_outbox_with<S: Store, O: Outgoing>(
    alloc: Global,
    desk: &Desk<S>,
    asking: &[u8],
    seal: Option<Seal<'_>>,
    out: &mut O,
) -> Result<usize, ToolFault>
    ensures { RunsOutbox (PutsWith O.after (option_map sealing_of seal.entry)) asking.now desk.now.live.held (O.message_files out.old)
        (O.message_files out.new) result }
{
    match seal {
        Some(seal) => run_sealed_outbox(alloc, desk, asking, seal, out),
        None => run_desk_outbox(alloc, desk, asking, out),
    }
}

/// Puts the messages of `run_desk_outbox` into `out`, in sealed letters, and returns the number of messages.
fn run_sealed_outbox<S: Store, O: Outgoing>(
    alloc: Global,
    desk: &Desk<S>,
    asking: &[u8],
    seal: Seal<'_>,
    out: &mut O,
) -> Result<usize, ToolFault>
    ensures { RunsOutbox (PutsWith O.after (Some (sealing_of seal.entry))) asking.now desk.now.live.held (O.message_files out.old)
        (O.message_files out.new) result }
{
    let mut gathered = Gathered {
        messages: Vec::new(alloc),
    };
    let count = match run_desk_outbox(alloc, desk, asking, &mut gathered) {
        Ok(count) => count,
        Err(_) => return Err(ToolFault::OutOfMemory),
    };
    let letters = match letters_of(alloc, seal, &gathered.messages) {
        Ok(letters) => letters,
        Err(_) => return Err(ToolFault::OutOfMemory),
    };
    match put_letters(&letters, out) {
        Ok(()) => Ok(count),
        Err(fault) => Err(fault),
    }
}

/// Puts `messages` into `out`, one after another, in sealed letters.
///
/// After a fault, `out` has a prefix of these letters, and no part of another. All letters are sealed before the first
/// one is put.
pub fn put_sealed<O: Outgoing>(
    alloc: Global,
    seal: Seal<'_>,
    messages: &[Vec<u8>],
    out: &mut O,
) -> Result<(), ToolFault>
    ensures { PutsLetters O.after
        (map (sealed_message_file (sealing_of seal.entry)) (texts_of (map (λ message. message.items) messages.now))) (O.message_files out.old)
        (O.message_files out.new) result }
{
    match letters_of(alloc, seal, messages) {
        Ok(letters) => put_letters(&letters, out),
        Err(_) => Err(ToolFault::OutOfMemory),
    }
}

/// Messages that leave, one after another.
#[derive(Drop)]
pub(crate) struct Gathered {
    pub(crate) messages: Vec<Vec<u8>>,
}

// A message file that is put is appended to the messages. Its name is dropped.
impl Outgoing for Gathered {
    ghost MessageFiles = { List (List ℕ) };

    ghost message_files = { λ gathered. Some (map (λ message. message.items) gathered.messages.items) };

    ghost after = { λ there letter. there ++ letter.bytes ∷ [] };

    fn put(&mut self, _name: &[u8], bytes: &[u8]) -> Result<(), ToolFault> {
        let message = Vec::from_slice(*self.messages.allocator(), bytes)?;
        self.messages.push(message)?;
        Ok(())
    }
}

/// A sealed letter, and the name of its file.
#[derive(Drop)]
pub(crate) struct SealedLetter {
    name: Vec<u8>,
    bytes: Vec<u8>,
}

/// Returns the letters that have `messages`, one after another.
fn letters_of(
    alloc: Global,
    seal: Seal<'_>,
    messages: &[Vec<u8>],
) -> Result<Vec<SealedLetter>, OutOfMemory>
    ensures { IfOk result (λ letters. map message_file_of letters.items
        ≡ map (sealed_message_file (sealing_of seal.entry)) (texts_of (map (λ message. message.items) messages.now))) }
{
    let texts = texts_of(alloc, messages)?;
    seal_all(alloc, seal, &texts)
}

/// Returns the letters that have `texts`.
fn seal_all(
    alloc: Global,
    seal: Seal<'_>,
    texts: &[Vec<u8>],
) -> Result<Vec<SealedLetter>, OutOfMemory>
    ensures { IfOk result (λ letters. map message_file_of letters.items
        ≡ map (sealed_message_file (sealing_of seal.entry)) (map (λ text. text.items) texts.now)) }
{
    let mut letters = Vec::new(alloc);
    for text in texts {
        letters.push(seal_one(alloc, seal, text)?)?;
    }
    Ok(letters)
}

/// Returns the letter that has `text`, sealed with the key and the sender of `with`.
fn seal_one(alloc: Global, with: Seal<'_>, text: &[u8]) -> Result<SealedLetter, OutOfMemory>
    ensures { IfOk result (λ letter. message_file_of letter ≡ sealed_message_file (sealing_of with.entry) text.now) }
{
    let bytes = seal(alloc, with.key, with.sender, text)?;
    let name = letter_name(alloc, &bytes)?;
    Ok(SealedLetter { name, bytes })
}

/// Returns the name of the file of `letter`.
fn letter_name(alloc: Global, letter: &[u8]) -> Result<Vec<u8>, OutOfMemory>
    ensures { IfOk result (λ name. name.items ≡ letter_name letter.now) }
{
    let mut digits = hex::encode(alloc, Sha256::digest(letter))?.into_bytes();
    digits.truncate(DIGITS);
    let mut name = Vec::from_slice(alloc, b"letter-")?;
    name.extend_from_slice(&digits)?;
    Ok(name)
}

/// Puts `letters` into `out`, one after another.
fn put_letters<O: Outgoing>(letters: &[SealedLetter], out: &mut O) -> Result<(), ToolFault>
    ensures { PutsLetters O.after (map message_file_of letters.now) (O.message_files out.old) (O.message_files out.new) result }
{
    for letter in letters {
        if let Err(fault) = out.put(&letter.name, &letter.bytes) {
            return Err(fault);
        }
    }
    Ok(())
}

/// The texts of letters: those to which nothing is added, and the last one.
#[derive(Drop)]
pub(crate) struct Texts {
    full: Vec<Vec<u8>>,
    last: Vec<u8>,
}

/// Returns the texts of the letters that have `messages`, one after another.
fn texts_of(alloc: Global, messages: &[Vec<u8>]) -> Result<Vec<Vec<u8>>, OutOfMemory>
    ensures { IfOk result (λ texts. map (λ text. text.items) texts.items
        ≡ texts_of (map (λ message. message.items) messages.now)) }
{
    let mut texts = Texts {
        full: Vec::new(alloc),
        last: Vec::new(alloc),
    };
    for message in messages {
        texts.add(message)?;
    }
    texts.all()
}

impl Texts {
    /// Adds `message` to the last text. If the last text would then have more than `TEXT` bytes, `message` begins a new
    /// one.
    fn add(&mut self, message: &[u8]) -> Result<(), OutOfMemory>
        ensures { OnOk result (filling_of self.new ≡ with_message (filling_of self.old) message.now) }
    {
        if message.len() > TEXT.saturating_sub(self.last.len()) {
            let next = Vec::from_slice(*self.last.allocator(), message)?;
            self.full.push(mem::replace(&mut self.last, next))?;
        } else {
            self.last.extend_from_slice(message)?;
        }
        Ok(())
    }

    /// Returns all texts, one after another. The last one is left out if it is empty.
    fn all(self) -> Result<Vec<Vec<u8>>, OutOfMemory>
        ensures { IfOk result (λ texts. map (λ text. text.items) texts.items ≡ all_texts (filling_of self)) }
    {
        let Texts { mut full, last } = self;
        if !last.is_empty() {
            full.push(last)?;
        }
        Ok(full)
    }
}
