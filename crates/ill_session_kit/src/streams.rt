//! Makes readers and writers from their words. A function returns `None` if its words encode nothing of its kind, or if
//! memory runs out.

use crate::names::Names;
use crate::telling::Telling;
use crate::words::{Word, cut};
use ill_test_kit::{Failure, TestReader, TestWriter, count_in, named};
use std::alloc::Global;
use std::io::ErrorKind;

/// A stream that fails this often fails in every call.
const ALWAYS: u32 = u32::MAX;

/// The words of failures.
const KINDS: [(&str, Option<ErrorKind>); 4] = [
    ("broken", Some(ErrorKind::BrokenPipe)),
    ("interrupted", Some(ErrorKind::Interrupted)),
    ("full", Some(ErrorKind::StorageFull)),
    ("nothing", None),
];

/// Returns the failure that the words encode: `broken`, `interrupted`, `full` or `nothing`, and perhaps `once`.
fn failure_of(words: &[Word]) -> Option<Failure> {
    let (first, others) = words.split_first()?;
    let kind = named(&KINDS, first.text.as_str())?;
    match others {
        [] => Some(Failure::new(kind, ALWAYS)),
        [word] if word.is("once") => Some(Failure::new(kind, 1)),
        _ => None,
    }
}

/// Returns the reader that `[slow] BYTES [| BYTES] [then FAILURE [then BYTES]]` encodes.
pub fn reader_of(alloc: Global, names: &Names, words: &[Word]) -> Option<TestReader> {
    let is_slow = is_slow(words);
    let words = words.get(usize::from(is_slow)..)?;
    let (before, failing) = cut(words, "then");
    let (failure, after) = cut(failing.unwrap_or(&[]), "then");
    let failure = match failing {
        Some(_) => failure_of(failure)?,
        None => Failure::NEVER,
    };
    let after = names.bytes(after.unwrap_or(&[]))?;
    let mut reader = reader_with(alloc, names, before, failure, after)?;
    if is_slow {
        reader.set_slow();
    }
    Some(reader)
}

/// Returns a reader of the words `before`, which are `BYTES [| BYTES]`. It then fails as `failure` says, and then gives
/// the bytes `after`.
fn reader_with(
    alloc: Global,
    names: &Names,
    before: &[Word],
    failure: Failure,
    after: Vec<u8>,
) -> Option<TestReader> {
    let (first, second) = cut(before, "|");
    let mut bytes = Vec::new(alloc);
    names.push(&mut bytes, first)?;
    let bar = bytes.len();
    names.push(&mut bytes, second.unwrap_or(&[]))?;
    let mut reader = TestReader::new(bytes, failure, after);
    if second.is_some() {
        reader.set_bar(bar);
    }
    Some(reader)
}

/// Returns the bytes that the reader of these words gives before it fails.
pub fn bytes_of(names: &Names, words: &[Word]) -> Option<Vec<u8>> {
    let words = words.get(usize::from(is_slow(words))..)?;
    let (before, _) = cut(words, "then");
    let (first, second) = cut(before, "|");
    let mut bytes = names.bytes(first)?;
    names.push(&mut bytes, second.unwrap_or(&[]))?;
    Some(bytes)
}

/// Returns true if the words are of a slow stream.
fn is_slow(words: &[Word]) -> bool {
    words.first().is_some_and(|word| word.is("slow"))
}

/// Returns the writer that `[slow | any | first COUNT] [flush FAILURE | ROOM then FAILURE]` encodes. ROOM is `COUNT` or
/// `COUNT of BYTES`. Also returns the part of its bytes that is printed.
pub fn writer_of(
    alloc: Global,
    names: &Names,
    words: Option<&[Word]>,
) -> Option<(TestWriter, Telling)> {
    let mut writer = TestWriter::new(alloc);
    let mut telling = Telling::Whole;
    let words = set_prefix(&mut writer, &mut telling, words.unwrap_or(&[]))?;
    match words {
        [] => {}
        [word, failure @ ..] if word.is("flush") => writer.set_flush(failure_of(failure)?),
        [room, others @ ..] => {
            set_room(&mut writer, &mut telling, names, count(room)?, others)?;
        }
    }
    Some((writer, telling))
}

/// Obeys the first words of a writer, `slow`, `any` or `first COUNT`, if they are there. Returns the words after them.
fn set_prefix<'a>(
    writer: &mut TestWriter,
    telling: &mut Telling,
    words: &'a [Word],
) -> Option<&'a [Word]> {
    match words {
        [word, others @ ..] if word.is("slow") => {
            writer.set_slow();
            Some(others)
        }
        [word, others @ ..] if word.is("any") => {
            *telling = Telling::Any;
            Some(others)
        }
        [word, size, others @ ..] if word.is("first") => {
            *telling = Telling::First(count(size)?);
            Some(others)
        }
        _ => Some(words),
    }
}

/// Limits the room of the writer to `room` bytes, and obeys the words after it: `[of BYTES] then FAILURE`.
fn set_room(
    writer: &mut TestWriter,
    telling: &mut Telling,
    names: &Names,
    room: usize,
    words: &[Word],
) -> Option<()> {
    let (text, failure) = cut(words, "then");
    writer.set_room(room, failure_of(failure?)?);
    match text {
        [] => Some(()),
        [word, text @ ..] if word.is("of") => {
            let mut prefix = names.bytes(text)?;
            prefix.truncate(room);
            drop(std::mem::replace(telling, Telling::Just(prefix)));
            Some(())
        }
        _ => None,
    }
}

/// Returns the count that `word` encodes.
fn count(word: &Word) -> Option<usize> {
    count_in(word.text.as_str())
}
