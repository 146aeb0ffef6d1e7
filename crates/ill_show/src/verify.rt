//! The command `verify`.

ghost use Rattle.std.specs.Prelude.{◌≡◌, ◌≤◌, ◌++◌, [], true, map, length, OnOk};
ghost use Rattle.ill_record.specs.RecordsV2.{records_at};
ghost use Rattle.ill_record.specs.Sides.{most_sides};
ghost use Rattle.ill_text.specs.ApduObject.{object_line};
ghost use Rattle.ill_text.specs.Fault.{CountsToolFailure};
ghost use Rattle.ill_text.specs.Json.{joined, member, optional, value_text};
ghost use Rattle.std.specs.Fmt.{decimal};
ghost use Rattle.ill_record.specs.Faults.{place_of};
ghost use Rattle.ill_text.specs.Output.{WritesText};
ghost use Rattle.ill_show.specs.Verify.{RunsVerify, PrintsFault, Verifies, after_fault, fault_fields, fault_word, issued_by_all, record_fields, record_text, verify_lines, version_of};

use ill_saved::{DeskFault, RecordFault, SIDES_LIMIT, Side, Sides, Store, decode_record2};
use ill_text::fault::ToolFault;
use ill_text::form::Form;
use ill_text::json::{Value, push_members, push_plain};
use ill_text::lines::{push_decimal, push_line};
use ill_text::output::write_whole;
use ill_values::OutOfMemory;
use ill_words::sides::all_of;
use std::alloc::Global;
use std::io::Write;

/// Writes five lines of the record in `store`, or an object with their values. They have its version, its role, and
/// three numbers. These are of its loans, of their issued messages, and of further loans for which there is room.
///
/// Nothing is saved. The fault is `NoRecord` if the store has no record, and `Saved` if its bytes are no record. In
/// the form `Json` the object of the fault `Saved` is written, too.
pub fn run_desk_verify<S: Store, W: Write>(
    alloc: Global,
    store: &mut S,
    form: Form,
    writer: &mut W,
) -> Result<(), ToolFault>
    ensures verifies { RunsVerify form (S.state store.old) (W.contents writer.old) (W.contents writer.new) result }
    ensures unchanged { (S.state store.old).is_correct ≡ true → (S.state store.new).committed ≡ (S.state store.old).committed }
    ensures counted { CountsToolFailure result (S.state store.old).failures (S.state store.new).failures }
{
    match store.load(alloc) {
        Ok(Some(bytes)) => verify_bytes(alloc, &bytes, form, writer),
        Ok(None) => Err(ToolFault::Desk(DeskFault::NoRecord)),
        Err(fault) => Err(DeskFault::from(fault).into()),
    }
}

/// Writes the text of the record `bytes`, or tells the fault of `bytes`.
fn verify_bytes<W: Write>(
    alloc: Global,
    bytes: &[u8],
    form: Form,
    writer: &mut W,
) -> Result<(), ToolFault>
    ensures { Verifies form bytes.now (records_at bytes.now)
        (W.contents writer.old) (W.contents writer.new) result }
{
    match decode_record2(alloc, bytes) {
        Ok(sides) => write_found(alloc, bytes, &sides, form, writer),
        Err(RecordFault::OutOfMemory) => Err(ToolFault::OutOfMemory),
        Err(fault) => print_fault(alloc, fault, form, writer),
    }
}

/// Returns `fault` as the fault of the command. In the form `Json` the object of `fault` is written before.
fn print_fault<W: Write>(
    alloc: Global,
    fault: RecordFault,
    form: Form,
    writer: &mut W,
) -> Result<(), ToolFault>
    ensures { PrintsFault form fault (W.contents writer.old) (W.contents writer.new) result }
{
    match form {
        Form::Lines => Err(ToolFault::Desk(DeskFault::Saved(fault))),
        Form::Json => after_fault(fault, write_fault(alloc, fault, writer)),
    }
}

/// Returns `fault` as the fault of the command, if its text is written. If `written` is a failure, it returns the
/// failure.
fn after_fault(fault: RecordFault, written: Result<(), ToolFault>) -> Result<(), ToolFault>
    ensures { result ≡ after_fault fault written }
{
    match written {
        Ok(()) => Err(ToolFault::Desk(DeskFault::Saved(fault))),
        Err(failure) => Err(failure),
    }
}

/// Writes the object of `fault`, on a line.
fn write_fault<W: Write>(alloc: Global, fault: RecordFault, writer: &mut W) -> Result<(), ToolFault>
    ensures { WritesText (W.contents writer.old) (W.contents writer.new) (object_line (fault_fields fault)) result }
{
    let mut text = Vec::new(alloc);
    push_fault_object(&mut text, fault)?;
    write_whole(writer, &text)
}

/// Appends the object of `fault`, on a line.
fn push_fault_object(text: &mut Vec<u8>, fault: RecordFault) -> Result<(), OutOfMemory>
    ensures { OnOk result (text.new.items ≡ text.old.items ++ object_line (fault_fields fault)) }
{
    push_plain(text, "{")?;
    push_fault(text, fault)?;
    push_plain(text, "}\n")
}

/// Appends the fields of `fault`.
#[tactic(auto, unfolding(ill_text::specs::Json::joined))]
fn push_fault(text: &mut Vec<u8>, fault: RecordFault) -> Result<(), OutOfMemory>
    ensures { OnOk result (text.new.items ≡ text.old.items ++ joined member [] (fault_fields fault)) }
{
    push_members(
        text,
        b"",
        &[
            ("kind", Value::Text(b"fault")),
            ("fault", Value::Text(fault_word(fault).as_bytes())),
            ("at", place(fault)),
        ],
    )
}

/// Returns the word of `fault`.
fn fault_word(fault: RecordFault) -> &'static str
    ensures { result.now ≡ fault_word fault }
{
    match fault {
        RecordFault::Short => "short",
        RecordFault::Bad(_) => "bad",
        RecordFault::Inconsistent => "inconsistent",
        RecordFault::Digest => "digest",
        RecordFault::OutOfMemory => "memory",
    }
}

/// Returns the value of the place of `fault`, which is missing if it has none.
fn place(fault: RecordFault) -> Value<'static>
    ensures { value_text result ≡ optional decimal (place_of fault) }
{
    match fault.at() {
        Some(at) => Value::Count(at as usize),
        None => Value::Missing,
    }
}

/// Writes the text of the record `bytes`, which has the sides `sides`, in `form`.
fn write_found<W: Write>(
    alloc: Global,
    bytes: &[u8],
    sides: &Sides,
    form: Form,
    writer: &mut W,
) -> Result<(), ToolFault>
    ensures { WritesText (W.contents writer.old) (W.contents writer.new)
        (record_text form bytes.now sides.now) result }
{
    let mut text = Vec::new(alloc);
    match form {
        Form::Lines => push_found(&mut text, bytes, sides)?,
        Form::Json => push_object(&mut text, bytes, sides)?,
    }
    write_whole(writer, &text)
}

/// Appends the lines of the record `bytes`, which has the sides `sides`.
#[tactic(auto, unfolding(crate::specs::Verify::verify_lines))]
fn push_found(lines: &mut Vec<u8>, bytes: &[u8], sides: &Sides) -> Result<(), OutOfMemory>
    ensures { OnOk result (lines.new.items ≡ lines.old.items ++ verify_lines bytes.now sides.now) }
{
    let loans = sides.len();
    push_decimal(lines, "version", version(bytes))?;
    push_line(lines, "role", sides.role().name().as_bytes())?;
    push_decimal(lines, "loans", loans)?;
    let all = all_of(*lines.allocator(), sides)?;
    push_decimal(lines, "messages", issued_by_all(&all))?;
    push_decimal(lines, "room", SIDES_LIMIT.saturating_sub(loans))
}

/// Appends the object of the record `bytes`, which has the sides `sides`, on a line.
fn push_object(text: &mut Vec<u8>, bytes: &[u8], sides: &Sides) -> Result<(), OutOfMemory>
    ensures { OnOk result (text.new.items ≡ text.old.items ++ object_line (record_fields bytes.now sides.now)) }
{
    push_plain(text, "{")?;
    push_fields(text, bytes, sides)?;
    push_plain(text, "}\n")
}

/// Appends the fields of the record `bytes`, which has the sides `sides`.
#[tactic(auto, unfolding(ill_text::specs::Json::joined))]
fn push_fields(text: &mut Vec<u8>, bytes: &[u8], sides: &Sides) -> Result<(), OutOfMemory>
    ensures { OnOk result (text.new.items ≡ text.old.items
        ++ joined member [] (record_fields bytes.now sides.now)) }
{
    let all = all_of(*text.allocator(), sides)?;
    push_members(
        text,
        b"",
        &[
            ("kind", Value::Text(b"record")),
            ("version", Value::Count(version(bytes))),
            ("role", Value::Text(sides.role().name().as_bytes())),
            ("loans", Value::Count(sides.len())),
            ("messages", Value::Count(issued_by_all(&all))),
            (
                "room",
                Value::Count(SIDES_LIMIT.saturating_sub(sides.len())),
            ),
        ],
    )
}

/// Returns the version of the format of the record `bytes`: 1 if it begins with `ILL1`, else 2.
fn version(bytes: &[u8]) -> usize
    ensures { result ≡ version_of bytes.now }
{
    if bytes.starts_with(b"ILL1".as_slice()) {
        1
    } else {
        2
    }
}

/// Returns the number of messages that all of `sides` have issued together.
fn issued_by_all(sides: &[&Side]) -> usize
    requires few { length sides.now ≤ most_sides }
    ensures { result ≡ issued_by_all (map (λ side. side.now) sides.now) }
{
    let mut issued = 0;
    for side in sides {
        issued += usize::from(side.issued_count());
    }
    issued
}
