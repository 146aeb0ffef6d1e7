//! The command `slip`.

ghost use Rattle.std.specs.Prelude.{◌≡◌, ◌≤◌, ◌&&◌, ◌++◌, codes, length, IfOk, OnOk};
ghost use Rattle.std.specs.List.{list_all};
ghost use Rattle.std.specs.Fmt.{decimal};
ghost use Rattle.ill_saved.specs.ManySides.{found_by, txn_held};
ghost use Rattle.ill_record.specs.Side.{due_date_of, role_of, txn_of};
ghost use Rattle.ill_words.specs.Possible.{item_asked, request_of};
ghost use Rattle.ill_slip.specs.Slip.{RunsSlip, code_part, code_picture, code_width, due_part, head_part, is_plain, loan_words, names_part, role_text, slip_page, title_part};

use crate::code128::push_path;
use crate::slip_parts::{
    BARS, CODE, CODE_END, DUE, GROUP, NAMED, NOTE, PAGE, ROLE, TRANSACTION, VIEW,
};
use ill_saved::{Desk, DeskFault, Role, Side, Store};
use ill_text::fault::ToolFault;
use ill_text::html::push_text;
use ill_text::json::push_plain;
use ill_text::output::write_whole;
use ill_values::{Day, OutOfMemory, TxnId};
use ill_words::possible::item_asked;
use itoa::Buffer;
use std::alloc::Global;
use std::io::Write;

/// Writes the slip of the loan `txn` at `desk`, which must be held (else `NoSuchTransaction`).
///
/// The slip has nothing that the next message changes but the due date, since it lies in an item for weeks.
pub fn run_desk_slip<S: Store, W: Write>(
    alloc: Global,
    desk: &Desk<S>,
    txn: &TxnId,
    writer: &mut W,
) -> Result<(), ToolFault>
    ensures { RunsSlip (found_by txn_held txn.now desk.now.live.held)
        (W.contents writer.old) (W.contents writer.new) result }
{
    match desk.sides().get(txn) {
        Some(side) => match slip_of(alloc, side) {
            Ok(page) => write_whole(writer, &page),
            Err(_) => Err(ToolFault::OutOfMemory),
        },
        None => Err(ToolFault::Desk(DeskFault::NoSuchTransaction)),
    }
}

/// Returns the slip of the loan of `side`.
#[tactic(auto, unfolding(crate::specs::Slip::slip_page))]
fn slip_of(alloc: Global, side: &Side) -> Result<Vec<u8>, OutOfMemory>
    ensures { IfOk result (λ page. page.items ≡ slip_page side.now) }
{
    let mut page = Vec::new(alloc);
    push_head(&mut page, side)?;
    push_names(&mut page, side)?;
    push_code(&mut page, side.txn())?;
    push_plain(&mut page, NOTE)?;
    Ok(page)
}

/// Appends the item and the role of `side`, with the texts before them.
fn push_head(page: &mut Vec<u8>, side: &Side) -> Result<(), OutOfMemory>
    ensures { OnOk result (page.new.items ≡ page.old.items ++ head_part side.now) }
{
    push_plain(page, PAGE)?;
    push_title(page, side)?;
    push_plain(page, ROLE)?;
    push_plain(page, role_text(side.role()))?;
    Ok(())
}

/// Appends the item of the loan of `side`, or a dash if there is none.
fn push_title(page: &mut Vec<u8>, side: &Side) -> Result<(), OutOfMemory>
    ensures { OnOk result (page.new.items ≡ page.old.items ++ title_part (item_asked (request_of side.now))) }
{
    match item_asked(side) {
        None => {
            page.push(b'-')?;
            Ok(())
        }
        Some(item) => push_text(page, item.text()),
    }
}

/// Returns the words for the role of this library.
fn role_text(role: Role) -> &'static str
    ensures { result.now ≡ role_text role }
{
    match role {
        Role::Requester => "Asked by us",
        Role::Responder => "Lent by us",
    }
}

/// Appends both qualifiers and the due date of `side`, with the texts around them.
fn push_names(page: &mut Vec<u8>, side: &Side) -> Result<(), OutOfMemory>
    ensures { OnOk result (page.new.items ≡ page.old.items ++ names_part side.now) }
{
    push_plain(page, GROUP)?;
    push_text(page, side.txn().group())?;
    push_plain(page, TRANSACTION)?;
    push_text(page, side.txn().transaction())?;
    push_due(page, side.due())?;
    push_plain(page, NAMED)?;
    Ok(())
}

/// Appends the due date `due` with the text before it, if there is one.
fn push_due(page: &mut Vec<u8>, due: Option<Day>) -> Result<(), OutOfMemory>
    ensures { OnOk result (page.new.items ≡ page.old.items ++ due_part due) }
{
    let Some(day) = due else {
        return Ok(());
    };
    push_plain(page, DUE)?;
    page.extend_from_slice(&day.iso())
}

/// Appends the picture of the code of the loan `txn`, if all its characters are plain.
fn push_code(page: &mut Vec<u8>, txn: &TxnId) -> Result<(), OutOfMemory>
    ensures { OnOk result (page.new.items ≡ page.old.items ++ code_part txn.now) }
{
    if !are_plain(txn.group()) || !are_plain(txn.transaction()) {
        return Ok(());
    }
    let words = loan_words(*page.allocator(), txn)?;
    push_picture(page, &words)
}

/// Returns true if each byte of `text` stands for itself in a shell.
fn are_plain(text: &[u8]) -> bool
    ensures { result ≡ list_all is_plain text.now }
{
    text.iter().all(|byte| is_plain(*byte))
}

/// Returns true if `byte` is a letter, a digit or one of `-`, `.`, `/`, `:`, `_` and `+`. In a shell it stands for
/// itself.
fn is_plain(byte: u8) -> bool
    ensures { result ≡ is_plain byte }
{
    matches!(byte, b'-'..=b':' | b'A'..=b'Z' | b'a'..=b'z' | b'_' | b'+')
}

/// Returns the words that follow the desk in a command: both qualifiers. They have at most 129 bytes.
fn loan_words(alloc: Global, txn: &TxnId) -> Result<Vec<u8>, OutOfMemory>
    ensures value { IfOk result (λ words. words.items ≡ loan_words txn.now) }
    ensures most { IfOk result (λ words. length words.items ≤ 129) }
{
    let mut words = Vec::from_slice(alloc, txn.group())?;
    words.push(b' ')?;
    words.extend_from_slice(txn.transaction())?;
    Ok(words)
}

/// Appends the picture of the code of `text`.
#[tactic(auto, unfolding(crate::specs::Slip::code_picture))]
fn push_picture(page: &mut Vec<u8>, text: &[u8]) -> Result<(), OutOfMemory>
    requires { length text.now ≤ 129 }
    ensures { OnOk result (page.new.items ≡ page.old.items ++ code_picture text.now) }
{
    let width = 11 * text.len() + 55;
    push_plain(page, CODE)?;
    push_number(page, width)?;
    push_plain(page, VIEW)?;
    push_number(page, width)?;
    push_plain(page, BARS)?;
    push_path(page, text)?;
    push_plain(page, CODE_END)
}

/// Appends `number`.
fn push_number(page: &mut Vec<u8>, number: usize) -> Result<(), OutOfMemory>
    ensures { OnOk result (page.new.items ≡ page.old.items ++ decimal number) }
{
    push_plain(page, Buffer::new().format(number))
}
