//! The numbers that a loan has left for its messages, and the line that tells them.

ghost use Rattle.std.specs.Prelude.{◌≡◌, [], ◌∷◌, ◌++◌, map, nat_eq, codes, IfOk, OnOk};
ghost use Rattle.std.specs.Fmt.{decimal};
ghost use Rattle.ill_record.specs.Side.{txn_of};
ghost use Rattle.ill_show.specs.Numbers.{has_few_numbers, loan_named, numbers_left, numbers_line, numbers_lines, numbers_words};

use ill_saved::{Side, Sides};
use ill_text::escape::push_escaped;
use ill_values::{OutOfMemory, TxnId};
use ill_words::is_over;
use ill_words::sides::all_of;
use std::alloc::Global;

/// The greatest count of numbers left that is printed.
const FEW: u8 = 10;

/// Returns the count of numbers that `side` has left for its messages.
pub fn numbers_left(side: &Side) -> u8
    ensures { result ≡ numbers_left side.now }
{
    u8::MAX - side.issued_count()
}

/// Returns true if the numbers left of the loan of `side` are printed: it is not over, and has at most 10 left.
pub fn has_few_numbers(side: &Side) -> bool
    ensures { result ≡ has_few_numbers side.now }
{
    !is_over(side) && numbers_left(side) <= FEW
}

/// Returns the lines that tell the numbers left of all loans of `sides` that have few, at the desk in `path`.
pub fn numbers_lines(alloc: Global, path: &str, sides: &Sides) -> Result<Vec<u8>, OutOfMemory>
    ensures { IfOk result (λ lines. lines.items ≡ numbers_lines path.now sides.now.sides) }
{
    let mut lines = Vec::new(alloc);
    let sides = all_of(alloc, sides)?;
    push_lines(&mut lines, path, &sides)?;
    Ok(lines)
}

/// Appends the lines of all loans of `sides` that have few numbers left, at the desk in `path`.
fn push_lines(lines: &mut Vec<u8>, path: &str, sides: &[&Side]) -> Result<(), OutOfMemory>
    ensures { OnOk result (lines.new.items
        ≡ lines.old.items ++ numbers_lines path.now (map (λ side. side.now) sides.now)) }
{
    for side in sides {
        push_printed(lines, path, side)?;
    }
    Ok(())
}

/// Appends the line of the loan of `side` at the desk in `path`, if the loan has few numbers left.
pub fn push_printed(lines: &mut Vec<u8>, path: &str, side: &Side) -> Result<(), OutOfMemory>
    ensures { OnOk result (lines.new.items ≡ lines.old.items ++ numbers_lines path.now (side.now ∷ [])) }
{
    if has_few_numbers(side) {
        return push_line(lines, path, side);
    }
    Ok(())
}

/// Appends the line that tells the numbers left of the loan of `side`, at the desk in `path`.
fn push_line(lines: &mut Vec<u8>, path: &str, side: &Side) -> Result<(), OutOfMemory>
    ensures { OnOk result (lines.new.items ≡ lines.old.items ++ numbers_line path.now side.now) }
{
    lines.extend_from_slice(b"ill: ")?;
    push_escaped(lines, path.as_bytes())?;
    lines.extend_from_slice(b": ")?;
    push_loan(lines, side.txn())?;
    push_left(lines, numbers_left(side))
}

/// Appends the text that names a loan: its qualifiers.
fn push_loan(lines: &mut Vec<u8>, txn: &TxnId) -> Result<(), OutOfMemory>
    ensures { OnOk result (lines.new.items ≡ lines.old.items ++ loan_named txn.now) }
{
    push_escaped(lines, txn.group())?;
    lines.push(b' ')?;
    push_escaped(lines, txn.transaction())
}

/// Appends the end of the line, which tells the count `left` of numbers left.
fn push_left(lines: &mut Vec<u8>, left: u8) -> Result<(), OutOfMemory>
    ensures { OnOk result (lines.new.items
        ≡ lines.old.items ++ (codes ": " ++ (decimal left ++ numbers_words (nat_eq left 1)))) }
{
    let printed = format!(in *lines.allocator(); ": {left}")?;
    lines.extend_from_slice(printed.as_bytes())?;
    lines.extend_from_slice(numbers_words(left == 1).as_bytes())?;
    Ok(())
}

/// Returns the words of the line after the count of numbers. `is_one` is true if one number is left.
fn numbers_words(is_one: bool) -> &'static str
    ensures { result.now ≡ numbers_words is_one }
{
    if is_one {
        " number left\n"
    } else {
        " numbers left\n"
    }
}
