//! The means of the days that loans took.

ghost use Rattle.std.specs.Prelude.{◌≡◌, ◌≤◌, count_by, is_some, length};
ghost use Rattle.ill_figures.specs.Figures.{days_waited, mean, or_zero, tenths, wait_of, waited};

use crate::loan_figures::Loan;

/// A wait in a loan.
#[derive(Clone, Copy)]
pub(crate) enum Wait {
    /// The wait for the first answer.
    Answer,
    /// The wait for the item.
    Arrive,
    /// The time that the item is out.
    Out,
}

/// All waits, in the order of their lines.
pub(crate) const WAITS: [Wait; 3] = [Wait::Answer, Wait::Arrive, Wait::Out];

/// Returns the number of loans of `asked` whose days of a wait are known.
pub(crate) fn waited(asked: &[Loan], wait: Wait) -> usize
    ensures { result ≡ waited asked.now wait }
{
    asked
        .iter()
        .filter(|loan| wait_of(wait, loan).is_some())
        .count()
}

/// Returns the mean of the known days of a wait in the loans `asked`, in tenths of a day. If no loan has any, there
/// is none.
pub(crate) fn mean(asked: &[Loan], wait: Wait) -> Option<u64>
    requires { length asked.now ≤ 1000 }
    ensures { result ≡ mean asked.now wait }
{
    tenths(days_waited(asked, wait), waited(asked, wait) as u64)
}

/// Returns the mean of the sum `days` over `of` loans, in tenths of a day. A half is rounded up. Without a loan there
/// is none.
fn tenths(days: u64, of: u64) -> Option<u64>
    requires few { of ≤ 1000 }
    requires small { days ≤ 4_294_967_295_000 }
    ensures { result ≡ tenths days of }
{
    if of == 0 {
        return None;
    }
    Some((20 * days + of) / (2 * of))
}

/// Returns the sum of the days of a wait that are known, in the loans `asked`.
fn days_waited(asked: &[Loan], wait: Wait) -> u64
    requires { length asked.now ≤ 1000 }
    ensures value { result ≡ days_waited asked.now wait }
    ensures small { result ≤ 4_294_967_295_000 }
{
    let mut days = 0;
    for loan in asked {
        days += u64::from(wait_of(wait, loan).unwrap_or(0));
    }
    days
}

/// Returns the days of a wait in `loan`, if they are known.
fn wait_of(wait: Wait, loan: &Loan) -> Option<u32>
    ensures { result ≡ wait_of wait loan.now }
{
    match wait {
        Wait::Answer => loan.answer,
        Wait::Arrive => loan.arrive,
        Wait::Out => loan.out,
    }
}
