//! Reads the message files of a call.

use ill_night::verdict::MessageFile;
use ill_session_kit::Names;
use ill_session_kit::words::Word;
use std::alloc::Global;

/// Returns a message file for each word. The word is its name, and also names its bytes. The word `-` stands for a
/// message file that cannot be read.
pub fn message_files_of(alloc: Global, names: &Names, words: &[Word]) -> Option<Vec<MessageFile>> {
    let mut message_files = Vec::new(alloc);
    for one in words.chunks(1) {
        message_files
            .push(message_file_of(alloc, names, one)?)
            .ok()?;
    }
    Some(message_files)
}

/// Returns the message file of one word.
fn message_file_of(alloc: Global, names: &Names, one: &[Word]) -> Option<MessageFile> {
    let word = one.first()?;
    let name = Vec::from_slice(alloc, word.text.as_bytes()).ok()?;
    if word.is("-") {
        return Some(MessageFile {
            name,
            bytes: None,
            letter: None,
        });
    }
    let bytes = Some(names.bytes(one)?);
    Some(MessageFile {
        name,
        bytes,
        letter: None,
    })
}
