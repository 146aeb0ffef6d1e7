//! The sending of messages into OUT, and the sign that it has ended well.

ghost use Rattle.std.specs.Prelude.{◌≡◌, IfErr};
ghost use Rattle.ill_exchange.specs.Nights.{SendsAsked};
ghost use Rattle.ill_text.specs.Fault.{IsFileFault};

use crate::outlet::Outlet;
use crate::rooms::{Sending, put_asked};
use ill_der::encode;
use ill_files::machine::Machine;
use ill_folders::fault_lines::report_fault_of_message_file;
use ill_folders::message_folder::MessageFolder;
use ill_key::Key;
use ill_key::role::own_sender;
use ill_night::outbox::message_file_name;
use ill_night::outgoing::Outgoing;
use ill_room::sealed::{Seal, put_sealed};
use ill_saved::{Desk, Role, Store};
use ill_text::fault::ToolFault;
use ill_values::{Apdu, OutOfMemory};
use std::alloc::Global;
use std::io::Write;
use std::rt::Files;

/// The sign that a run has sent all its messages. Only a sending that has ended well gives it.
#[derive(Drop)]
pub struct SentAll {
    /// Keeps other modules from making one.
    seal: (),
}

impl SentAll {
    /// Returns this sign, unless `answer` is a failure other than `Deferred`. `answer` is the gravest of the desks of a
    /// shelf.
    pub fn unless_failed(self, answer: Result<bool, ToolFault>) -> Option<SentAll> {
        match answer {
            Ok(_) | Err(ToolFault::Deferred) => Some(self),
            Err(_) => None,
        }
    }
}

/// Puts the messages of the loans that want sending into `folder`, and writes their number, as `put_asked` does. If a
/// message file cannot be put there, a line to the errors says so.
pub(crate) fn send_asked<T: Files, S: Store, W: Write, E: Write>(
    machine: &mut Machine<'_, T, W, E>,
    desk: &Desk<S>,
    sending: Sending<'_>,
    folder: &str,
) -> Result<(), ToolFault>
    ensures { SendsAsked sending.entry.form sending.entry.asking.now desk.now.live.held (W.contents machine.old.writer)
        (W.contents machine.new.writer) result }
{
    let mut out = MessageFolder::at(machine.rt, machine.alloc, folder);
    let sent = put_asked(machine, desk, sending, &mut out);
    report_fault_of_message_file(machine, sent, &out)
}

/// Puts `words`, the last words of retired groups, into the folder of `outlet`. Returns the sign that all were put.
pub fn send_words<T: Files, W: Write, E: Write>(
    machine: &mut Machine<'_, T, W, E>,
    words: &[Apdu],
    outlet: Outlet<'_>,
) -> Result<SentAll, ToolFault>
    ensures faults { IfErr result IsFileFault }
    ensures silent { machine.new.writer ≡ machine.old.writer }
{
    let mut out = MessageFolder::at(machine.rt, machine.alloc, outlet.folder);
    let sent = put_words(machine.alloc, words, outlet.key, &mut out);
    match report_fault_of_message_file(machine, sent, &out) {
        Ok(_) => Ok(SentAll { seal: () }),
        Err(fault) => Err(fault),
    }
}

/// Puts `words`, which responders have issued, into `out`. With a key they leave in sealed letters.
fn put_words<O: Outgoing>(
    alloc: Global,
    words: &[Apdu],
    key: Option<&Key>,
    out: &mut O,
) -> Result<(), ToolFault>
    ensures { IfErr result IsFileFault }
{
    match key {
        Some(key) => put_sealed_words(alloc, words, key, out),
        None => put_each_word(alloc, words, out),
    }
}

/// Puts `words` into `out`, in sealed letters.
fn put_sealed_words<O: Outgoing>(
    alloc: Global,
    words: &[Apdu],
    key: &Key,
    out: &mut O,
) -> Result<(), ToolFault>
    ensures { IfErr result IsFileFault }
{
    let seal = Seal {
        key,
        sender: own_sender(Role::Responder),
    };
    match encoded(alloc, words) {
        Ok(messages) => put_sealed(alloc, seal, &messages, out),
        Err(_) => Err(ToolFault::OutOfMemory),
    }
}

/// Returns the bytes of each of `words`.
fn encoded(alloc: Global, words: &[Apdu]) -> Result<Vec<Vec<u8>>, OutOfMemory> {
    let mut messages = Vec::new(alloc);
    for word in words {
        messages.push(encode(alloc, word)?)?;
    }
    Ok(messages)
}

/// Puts each of `words` into `out`, in a message file of its own.
fn put_each_word<O: Outgoing>(alloc: Global, words: &[Apdu], out: &mut O) -> Result<(), ToolFault>
    ensures { IfErr result IsFileFault }
{
    for word in words {
        if let Err(fault) = put_word(alloc, word, out) {
            return Err(fault);
        }
    }
    Ok(())
}

/// Puts the message `word`, which a responder has issued, into `out`.
fn put_word<O: Outgoing>(alloc: Global, word: &Apdu, out: &mut O) -> Result<(), ToolFault>
    ensures { IfErr result IsFileFault }
{
    let name = message_file_name(alloc, Role::Responder, &word.txn, word.number)?;
    let bytes = encode(alloc, word)?;
    out.put(&name, &bytes)
}
