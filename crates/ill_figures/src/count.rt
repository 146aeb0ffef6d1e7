//! The counts of the loans that were asked in a span.

ghost use Rattle.std.specs.Prelude.{◌≡◌, count_by, is_none};
ghost use Rattle.ill_figures.specs.Figures.{counted, is_all_refused, is_of, undated};

use crate::loan_figures::{End, Loan};

/// Figures of a desk.
#[derive(Drop)]
pub(crate) struct Gathered {
    /// The loans that were asked in the span.
    pub asked: Vec<Loan>,
    /// The number of loans without a day of asking.
    pub undated: usize,
}

/// A count of loans that were asked in a span.
#[derive(Clone, Copy)]
pub(crate) enum Count {
    /// All of them.
    Asked,
    /// Those that were filled.
    Filled,
    /// Those that are open.
    Open,
    /// Those that were cancelled.
    Cancelled,
    /// Those that were refused, for any reason.
    Refused,
    /// Those that were refused as unfilled.
    Unfilled,
    /// Those that were refused, with leave to ask later.
    Retry,
    /// Those that were refused with an estimate of the cost.
    Estimate,
    /// Those that were refused with the names of other libraries.
    LocationsProvided,
    /// Those that expired.
    Expired,
    /// Those that were refused for a reason that no kept message gives.
    Unknown,
}

/// All counts, in the order of their lines.
pub(crate) const COUNTS: [Count; 11] = [
    Count::Asked,
    Count::Filled,
    Count::Open,
    Count::Cancelled,
    Count::Refused,
    Count::Unfilled,
    Count::Retry,
    Count::Estimate,
    Count::LocationsProvided,
    Count::Expired,
    Count::Unknown,
];

/// Returns the number of those loans of `asked` that `count` counts.
pub(crate) fn counted(asked: &[Loan], count: Count) -> usize
    ensures { result ≡ counted asked.now count }
{
    asked.iter().filter(|loan| is_of(count, loan.end)).count()
}

/// Returns the number of `loans` of which no line says when they were asked.
pub(crate) fn undated(loans: &[Loan]) -> usize
    ensures { result ≡ undated loans.now }
{
    loans.iter().filter(|loan| loan.asked.is_none()).count()
}

/// Returns true if the count is of loans with this end.
fn is_of(count: Count, end: End) -> bool
    ensures { result ≡ is_of count end }
{
    matches!(
        (count, end),
        (Count::Asked, _)
            | (Count::Filled, End::Filled)
            | (Count::Open, End::Open)
            | (Count::Cancelled, End::Cancelled)
            | (Count::Unfilled, End::Unfilled)
            | (Count::Retry, End::Retry)
            | (Count::Estimate, End::Estimate)
            | (Count::LocationsProvided, End::LocationsProvided)
            | (Count::Expired, End::Expired)
            | (Count::Unknown, End::Unknown)
    ) || is_all_refused(count, end)
}

/// Returns true if the count is of the loans that were refused for any reason, and a loan with this end is one of them.
fn is_all_refused(count: Count, end: End) -> bool
    ensures { result ≡ is_all_refused count end }
{
    let is_refused = !matches!(end, End::Filled | End::Open | End::Cancelled);
    matches!(count, Count::Refused) && is_refused
}
