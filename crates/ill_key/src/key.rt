//! The command `key`. It makes the file of a new key, or shows the key in a file. It also makes a file of the text that
//! another library has sent.

ghost use Rattle.std.specs.Prelude.{◌≡◌, IfOk, IfErr};
ghost use Rattle.ill_key.specs.KeyCommand.{IsNoKeyText, IsKeyText, MakesKey, ReadsKey, RunsKey, ShowsKey, key_fault};
ghost use Rattle.ill_seal.specs.KeyText.{key_text};
ghost use Rattle.ill_text.specs.Output.{WritesText};

use crate::key_file::{make_key_file, new_key, read_key};
use ill_files::machine::Machine;
use ill_files::open::all_succeed;
use ill_seal::{Key, KeyFault};
use ill_text::fault::{BadKey, ToolFault};
use ill_text::input::read_whole;
use ill_text::output::write_whole;
use std::alloc::Global;
use std::io::{Read, Write};
use std::rt::Files;

/// A deed of the command `key`.
#[derive(Clone, Copy)]
pub enum KeyDeed {
    /// Make a key.
    Make,
    /// Show a key.
    Show,
    /// Read the text of a key from the input, and make the file of this key. Another library has made the key.
    Read,
}

/// The most bytes of the text of a key on an input.
const TEXT_LIMIT: usize = 1_024;

/// `ill key`: does `deed`. It makes a new key in `file`, shows the key there, or makes `file` of the text on `reader`.
/// Returns true, or the fault.
pub fn key<T: Files, R: Read, W: Write, E: Write>(
    machine: &mut Machine<'_, T, W, E>,
    file: &str,
    deed: KeyDeed,
    reader: &mut R,
) -> Result<bool, ToolFault>
    ensures { RunsKey deed (R.remaining reader.old) (R.remaining reader.new)
        (W.contents machine.old.writer) (W.contents machine.new.writer) result }
{
    match deed {
        KeyDeed::Make => make(machine, file),
        KeyDeed::Show => show(machine, file),
        KeyDeed::Read => read(machine, file, reader),
    }
}

/// Makes a new key in `file`, and then writes `done`.
fn make<T: Files, W: Write, E: Write>(
    machine: &mut Machine<'_, T, W, E>,
    file: &str,
) -> Result<bool, ToolFault>
    ensures { MakesKey (W.contents machine.old.writer) (W.contents machine.new.writer) result }
{
    let key = new_key(machine.rt)?;
    keep(machine, file, &key)
}

/// Makes the file of `key` at `file`, and then writes `done`.
fn keep<T: Files, W: Write, E: Write>(
    machine: &mut Machine<'_, T, W, E>,
    file: &str,
    key: &Key,
) -> Result<bool, ToolFault>
    ensures { MakesKey (W.contents machine.old.writer) (W.contents machine.new.writer) result }
{
    make_key_file(machine.rt, file, key)?;
    all_succeed(write_whole(&mut machine.writer, b"done\n"))
}

/// Writes the text of the key in `file`, in a line.
fn show<T: Files, W: Write, E: Write>(
    machine: &mut Machine<'_, T, W, E>,
    file: &str,
) -> Result<bool, ToolFault>
    ensures { ShowsKey (W.contents machine.old.writer) (W.contents machine.new.writer) result }
{
    let key = read_key(machine.rt, file)?;
    let mut text = key.to_text(machine.alloc)?;
    text.push(b'\n')?;
    all_succeed(write_whole(&mut machine.writer, &text))
}

/// Makes the file of the key whose text is on the input, at `file`, and then writes `done`.
fn read<T: Files, R: Read, W: Write, E: Write>(
    machine: &mut Machine<'_, T, W, E>,
    file: &str,
    reader: &mut R,
) -> Result<bool, ToolFault>
    ensures { ReadsKey (R.remaining reader.old) (R.remaining reader.new)
        (W.contents machine.old.writer) (W.contents machine.new.writer) result }
{
    let key = key_on(machine.alloc, reader)?;
    keep(machine, file, &key)
}

/// Returns the key whose text is all of the input. Fails if the input is no text of a key, or cannot be read.
fn key_on<R: Read>(alloc: Global, reader: &mut R) -> Result<Key, ToolFault>
    ensures key { IfOk result (λ key. IsKeyText (R.remaining reader.old) (R.remaining reader.new) key) }
    ensures fault { IfErr result (IsNoKeyText (R.remaining reader.old) (R.remaining reader.new)) }
{
    let text = read_whole(alloc, reader, TEXT_LIMIT, ToolFault::Key(BadKey::Digits))?;
    match Key::parse(alloc, &text) {
        Ok(key) => Ok(key),
        Err(fault) => Err(key_fault(fault)),
    }
}

/// Returns the fault of a command for the fault of the text of a key.
fn key_fault(fault: KeyFault) -> ToolFault
    ensures { result ≡ key_fault fault }
{
    match fault {
        KeyFault::Digits => ToolFault::Key(BadKey::Digits),
        KeyFault::Check => ToolFault::Key(BadKey::Check),
        KeyFault::OutOfMemory => ToolFault::OutOfMemory,
    }
}
