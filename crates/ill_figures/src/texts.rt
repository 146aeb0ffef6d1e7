//! The texts of figures: lines for people, and records of CSV.

ghost use Rattle.std.specs.Prelude.{◌≡◌, ◌≤◌, ◌++◌, length, OnOk};
ghost use Rattle.std.specs.List.{flat_map};
ghost use Rattle.std.specs.Fmt.{decimal};
ghost use Rattle.ill_figures.specs.Figures.{gathered};
ghost use Rattle.ill_figures.specs.Texts.{count_field, count_fields, count_label, count_line, count_lines, day_fields, figures_lines, figures_record, mean_field, mean_text, next_field, number_line, quoted, quoted_byte, span_line, tenths_text, undated_field, undated_line, wait_field, wait_fields, wait_label, wait_line, wait_lines};

use crate::count::{COUNTS, Count, Gathered, counted};
use crate::days::Span;
use crate::loan_figures::Loan;
use crate::means::{WAITS, Wait, mean, waited};
use ill_values::OutOfMemory;
use itoa::Buffer;

/// The text before the number of loans without a day of asking.
const WITHOUT: &str = "  without a day         ";

/// Appends the lines of `figures`.
#[tactic(auto, unfolding(crate::specs::Texts::figures_lines))]
pub(crate) fn push_lines(
    text: &mut Vec<u8>,
    span: &Span,
    figures: &Gathered,
) -> Result<(), OutOfMemory>
    requires { length figures.now.asked.items ≤ 1000 }
    ensures { OnOk result (text.new.items ≡ text.old.items ++ figures_lines span.now (gathered figures.now)) }
{
    push_span(text, span)?;
    push_count_lines(text, &figures.asked)?;
    push_wait_lines(text, &figures.asked)?;
    push_undated(text, figures.undated)
}

/// Appends the line of `span`.
#[tactic(auto, unfolding(crate::specs::Texts::span_line))]
fn push_span(text: &mut Vec<u8>, span: &Span) -> Result<(), OutOfMemory>
    ensures { OnOk result (text.new.items ≡ text.old.items ++ span_line span.now) }
{
    text.extend_from_slice(b"  from ")?;
    text.extend_from_slice(&span.first.iso())?;
    text.extend_from_slice(b" to ")?;
    text.extend_from_slice(&span.last.iso())?;
    text.extend_from_slice(b"\n")
}

/// Appends the lines of all counts of the loans `asked`.
#[tactic(auto, unfolding(crate::specs::Texts::count_lines))]
fn push_count_lines(text: &mut Vec<u8>, asked: &[Loan]) -> Result<(), OutOfMemory>
    ensures { OnOk result (text.new.items ≡ text.old.items ++ count_lines asked.now) }
{
    push_counts(text, asked, &COUNTS)
}

/// Appends the lines of these counts of the loans `asked`.
fn push_counts(text: &mut Vec<u8>, asked: &[Loan], counts: &[Count]) -> Result<(), OutOfMemory>
    ensures { OnOk result (text.new.items ≡ text.old.items ++ flat_map (count_line asked.now) counts.now) }
{
    for count in counts {
        push_number_line(text, count_label(*count), counted(asked, *count))?;
    }
    Ok(())
}

/// Appends the lines of all waits in the loans `asked`.
#[tactic(auto, unfolding(crate::specs::Texts::wait_lines))]
fn push_wait_lines(text: &mut Vec<u8>, asked: &[Loan]) -> Result<(), OutOfMemory>
    requires { length asked.now ≤ 1000 }
    ensures { OnOk result (text.new.items ≡ text.old.items ++ wait_lines asked.now) }
{
    push_waits(text, asked, &WAITS)
}

/// Appends the lines of these waits in the loans `asked`.
fn push_waits(text: &mut Vec<u8>, asked: &[Loan], waits: &[Wait]) -> Result<(), OutOfMemory>
    requires { length asked.now ≤ 1000 }
    ensures { OnOk result (text.new.items ≡ text.old.items ++ flat_map (wait_line asked.now) waits.now) }
{
    for wait in waits {
        push_wait(text, asked, *wait)?;
    }
    Ok(())
}

/// Appends the line of the number of loans without a day of asking.
#[tactic(auto, unfolding(crate::specs::Texts::undated_line))]
fn push_undated(text: &mut Vec<u8>, undated: usize) -> Result<(), OutOfMemory>
    ensures { OnOk result (text.new.items ≡ text.old.items ++ undated_line undated) }
{
    push_number_line(text, WITHOUT, undated)
}

/// Appends the line of a wait in the loans `asked`.
fn push_wait(text: &mut Vec<u8>, asked: &[Loan], wait: Wait) -> Result<(), OutOfMemory>
    requires { length asked.now ≤ 1000 }
    ensures { OnOk result (text.new.items ≡ text.old.items ++ wait_line asked.now wait) }
{
    text.extend_from_slice(wait_label(wait).as_bytes())?;
    push_mean(text, mean(asked, wait), waited(asked, wait))?;
    text.push(b'\n')?;
    Ok(())
}

/// Appends a mean in tenths of a day, and the number `of` of its loans. If there is no mean, it appends a dash.
fn push_mean(text: &mut Vec<u8>, mean: Option<u64>, of: usize) -> Result<(), OutOfMemory>
    ensures { OnOk result (text.new.items ≡ text.old.items ++ mean_text mean of) }
{
    let Some(tenths) = mean else {
        text.push(b'-')?;
        return Ok(());
    };
    push_tenths(text, tenths)?;
    text.extend_from_slice(b" of ")?;
    push_count(text, of)
}

/// Appends tenths as a decimal number.
fn push_tenths(text: &mut Vec<u8>, tenths: u64) -> Result<(), OutOfMemory>
    ensures { OnOk result (text.new.items ≡ text.old.items ++ tenths_text tenths) }
{
    text.extend_from_slice(Buffer::new().format(tenths / 10).as_bytes())?;
    text.push(b'.')?;
    text.extend_from_slice(Buffer::new().format(tenths % 10).as_bytes())
}

/// Appends a number.
fn push_count(text: &mut Vec<u8>, number: usize) -> Result<(), OutOfMemory>
    ensures { OnOk result (text.new.items ≡ text.old.items ++ decimal number) }
{
    text.extend_from_slice(Buffer::new().format(number).as_bytes())
}

/// Appends the line of `number`, with `label` before it.
fn push_number_line(text: &mut Vec<u8>, label: &str, number: usize) -> Result<(), OutOfMemory>
    ensures { OnOk result (text.new.items ≡ text.old.items ++ number_line label.now number) }
{
    text.extend_from_slice(label.as_bytes())?;
    push_count(text, number)?;
    text.push(b'\n')?;
    Ok(())
}

/// Returns the text before a count.
fn count_label(count: Count) -> &'static str
    ensures { result.now ≡ count_label count }
{
    match count {
        Count::Asked => "  asked                 ",
        Count::Filled => "  filled                ",
        Count::Open => "  open                  ",
        Count::Cancelled => "  cancelled             ",
        Count::Refused => "  refused               ",
        Count::Unfilled => "    unfilled            ",
        Count::Retry => "    retry               ",
        Count::Estimate => "    estimate            ",
        Count::LocationsProvided => "    locations-provided  ",
        Count::Expired => "    expired             ",
        Count::Unknown => "    unknown             ",
    }
}

/// Returns the text before the mean of a wait.
fn wait_label(wait: Wait) -> &'static str
    ensures { result.now ≡ wait_label wait }
{
    match wait {
        Wait::Answer => "  days to answer        ",
        Wait::Arrive => "  days to arrive        ",
        Wait::Out => "  days out              ",
    }
}

/// The record of the names of the fields.
pub(crate) const HEAD: &str =
    "desk,from,to,asked,filled,open,cancelled,refused,unfilled,retry,estimate,\
locations_provided,expired,unknown,answered,days_to_answer,arrived,days_to_arrive,returned,days_out,\
without_a_day\r\n";

/// Appends the record of `figures` of the desk at `path`.
#[tactic(auto, unfolding(crate::specs::Texts::figures_record))]
pub(crate) fn push_record(
    text: &mut Vec<u8>,
    path: &str,
    span: &Span,
    figures: &Gathered,
) -> Result<(), OutOfMemory>
    requires { length figures.now.asked.items ≤ 1000 }
    ensures { OnOk result (text.new.items ≡ text.old.items ++ figures_record path.now span.now (gathered figures.now)) }
{
    push_quoted(text, path.as_bytes())?;
    push_days(text, span)?;
    push_all_counts(text, &figures.asked)?;
    push_all_waits(text, &figures.asked)?;
    push_undated_field(text, figures.undated)?;
    text.extend_from_slice(b"\r\n")?;
    Ok(())
}

/// Appends the fields of both days of `span`.
#[tactic(auto, unfolding(crate::specs::Texts::day_fields))]
fn push_days(text: &mut Vec<u8>, span: &Span) -> Result<(), OutOfMemory>
    ensures { OnOk result (text.new.items ≡ text.old.items ++ day_fields span.now) }
{
    push_field(text, &span.first.iso())?;
    push_field(text, &span.last.iso())
}

/// Appends the field of the number of loans without a day of asking.
#[tactic(auto, unfolding(crate::specs::Texts::undated_field))]
fn push_undated_field(text: &mut Vec<u8>, undated: usize) -> Result<(), OutOfMemory>
    ensures { OnOk result (text.new.items ≡ text.old.items ++ undated_field undated) }
{
    push_number_field(text, undated)
}

/// Appends a text as a field in quotes.
fn push_quoted(text: &mut Vec<u8>, field: &[u8]) -> Result<(), OutOfMemory>
    ensures { OnOk result (text.new.items ≡ text.old.items ++ quoted field.now) }
{
    text.push(b'"')?;
    push_quoted_bytes(text, field)?;
    text.push(b'"')?;
    Ok(())
}

/// Appends bytes within quotes.
fn push_quoted_bytes(text: &mut Vec<u8>, field: &[u8]) -> Result<(), OutOfMemory>
    ensures { OnOk result (text.new.items ≡ text.old.items ++ flat_map quoted_byte field.now) }
{
    for byte in field {
        push_quoted_byte(text, *byte)?;
    }
    Ok(())
}

/// Appends a byte within quotes. A quote is doubled.
fn push_quoted_byte(text: &mut Vec<u8>, byte: u8) -> Result<(), OutOfMemory>
    ensures { OnOk result (text.new.items ≡ text.old.items ++ quoted_byte byte) }
{
    if byte == b'"' {
        text.push(b'"')?;
    }
    text.push(byte)?;
    Ok(())
}

/// Appends a field that is not the first, with the comma before it.
#[tactic(auto, unfolding(crate::specs::Texts::next_field))]
fn push_field(text: &mut Vec<u8>, field: &[u8]) -> Result<(), OutOfMemory>
    ensures { OnOk result (text.new.items ≡ text.old.items ++ next_field field.now) }
{
    text.push(b',')?;
    text.extend_from_slice(field)?;
    Ok(())
}

/// Appends the field of a number, with the comma before it.
fn push_number_field(text: &mut Vec<u8>, number: usize) -> Result<(), OutOfMemory>
    ensures { OnOk result (text.new.items ≡ text.old.items ++ next_field (decimal number)) }
{
    push_field(text, Buffer::new().format(number).as_bytes())
}

/// Appends the fields of all counts of the loans `asked`.
#[tactic(auto, unfolding(crate::specs::Texts::count_fields))]
fn push_all_counts(text: &mut Vec<u8>, asked: &[Loan]) -> Result<(), OutOfMemory>
    ensures { OnOk result (text.new.items ≡ text.old.items ++ count_fields asked.now) }
{
    push_count_fields(text, asked, &COUNTS)
}

/// Appends the fields of these counts of the loans `asked`.
fn push_count_fields(
    text: &mut Vec<u8>,
    asked: &[Loan],
    counts: &[Count],
) -> Result<(), OutOfMemory>
    ensures { OnOk result (text.new.items ≡ text.old.items ++ flat_map (count_field asked.now) counts.now) }
{
    for count in counts {
        push_number_field(text, counted(asked, *count))?;
    }
    Ok(())
}

/// Appends the fields of all waits in the loans `asked`.
#[tactic(auto, unfolding(crate::specs::Texts::wait_fields))]
fn push_all_waits(text: &mut Vec<u8>, asked: &[Loan]) -> Result<(), OutOfMemory>
    requires { length asked.now ≤ 1000 }
    ensures { OnOk result (text.new.items ≡ text.old.items ++ wait_fields asked.now) }
{
    push_wait_fields(text, asked, &WAITS)
}

/// Appends the fields of these waits in the loans `asked`.
fn push_wait_fields(text: &mut Vec<u8>, asked: &[Loan], waits: &[Wait]) -> Result<(), OutOfMemory>
    requires { length asked.now ≤ 1000 }
    ensures { OnOk result (text.new.items ≡ text.old.items ++ flat_map (wait_field asked.now) waits.now) }
{
    for wait in waits {
        push_wait_pair(text, asked, *wait)?;
    }
    Ok(())
}

/// Appends the fields of a wait: the number of loans whose days are known, and their mean.
fn push_wait_pair(text: &mut Vec<u8>, asked: &[Loan], wait: Wait) -> Result<(), OutOfMemory>
    requires { length asked.now ≤ 1000 }
    ensures { OnOk result (text.new.items ≡ text.old.items ++ wait_field asked.now wait) }
{
    push_number_field(text, waited(asked, wait))?;
    push_mean_field(text, mean(asked, wait))
}

/// Appends the field of a mean in tenths of a day, which is empty if there is none.
#[tactic(auto, unfolding(crate::specs::Texts::next_field))]
fn push_mean_field(text: &mut Vec<u8>, mean: Option<u64>) -> Result<(), OutOfMemory>
    ensures { OnOk result (text.new.items ≡ text.old.items ++ next_field (mean_field mean)) }
{
    text.extend_from_slice(b",")?;
    match mean {
        Some(tenths) => push_tenths(text, tenths),
        None => Ok(()),
    }
}
