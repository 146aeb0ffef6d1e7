//! Defines the table of the kinds of work: one for each state of a side, its marks and its dates.

ghost use Rattle.std.specs.Prelude.{◌≡◌};
ghost use Rattle.ill_work.specs.Table.{kind_of_work, received_work, requester_work, responder_work, shipped_work, work_on, work_with};

use crate::dates::{Dates, NO_DATE_PRESSES, dates_on};
use crate::work::Work;
use ill_core::{Requester, Responder, State};
use ill_saved::Side;
use ill_values::Day;

impl Work {
    /// Returns the work with `side` on the day `today`. A due date is soon if it is at most `ahead` days away. If the
    /// calendar ends before that day, each due date is soon. Allocates nothing.
    pub fn of(side: &Side, today: Day, ahead: u32) -> Work
        ensures { result ≡ kind_of_work today ahead side.now }
    {
        work_with(side, dates_on(today, ahead, side))
    }

    /// Returns the work with `side` on the day `today`. A due date is soon if it is at most `ahead` days away. Without
    /// a day no date is past, and none is soon. Allocates nothing.
    pub fn on(side: &Side, today: Option<Day>, ahead: u32) -> Work
        ensures { result ≡ work_on today ahead side.now }
    {
        match today {
            Some(today) => Work::of(side, today, ahead),
            None => work_with(side, NO_DATE_PRESSES),
        }
    }
}

/// Returns the work with `side`, whose dates stand to the day as `dates` says.
fn work_with(side: &Side, dates: Dates) -> Work
    ensures { result ≡ work_with side.now dates }
{
    match side {
        Side::Requester(requester) => requester_work(requester, dates),
        Side::Responder(responder) => responder_work(responder, dates),
    }
}

/// Returns the work with the side of `requester`, whose dates stand to the day as `dates` says.
fn requester_work(requester: &Requester, dates: Dates) -> Work
    ensures { result ≡ requester_work requester.now dates }
{
    match requester.state() {
        State::Idle => Work::Request,
        State::Pending if dates.has_expired => Work::CancelOrAsk,
        State::Conditional if !requester.is_declined() => Work::AnswerConditions,
        State::Shipped if dates.is_overdue => Work::LookFor,
        State::Shipped => Work::Unpack,
        State::Received => received_work(dates),
        State::RenewPending | State::RenewOverdue if dates.is_overdue => Work::SendBackOverdue,
        State::Overdue => Work::SendBackOverdue,
        State::NotReceivedOverdue => Work::LookFor,
        State::Recall if requester.is_received() => Work::SendBackRecalled,
        State::Recall => Work::LookFor,
        State::Returned if requester.is_checked_in() => Work::Over,
        State::Pending
        | State::Conditional
        | State::CancelPending
        | State::RenewPending
        | State::RenewOverdue
        | State::Returned => Work::Wait,
        State::Cancelled | State::NotSupplied | State::InProcess | State::CheckedIn => Work::Over,
    }
}

/// Returns the work with an item that the requester has received. `dates` says how its dates stand to the day.
fn received_work(dates: Dates) -> Work
    ensures { result ≡ received_work dates }
{
    if dates.is_overdue {
        Work::SendBackOverdue
    } else if dates.is_due_soon {
        Work::SendBackOrRenew
    } else {
        Work::WithReader
    }
}

/// Returns the work with the side of `responder`, whose dates stand to the day as `dates` says.
fn responder_work(responder: &Responder, dates: Dates) -> Work
    ensures { result ≡ responder_work responder.now dates }
{
    match responder.state() {
        State::InProcess | State::Conditional if dates.has_expired => Work::LetExpire,
        State::InProcess => Work::AnswerRequest,
        State::CancelPending => Work::AnswerCancel,
        State::Shipped => shipped_work(responder.is_received(), dates),
        State::RenewPending | State::RenewOverdue => Work::AnswerRenewal,
        State::Overdue if dates.is_overdue => Work::RecallOrAsk,
        State::Returned => Work::CheckIn,
        State::Idle | State::Conditional | State::Overdue | State::Recall => Work::Wait,
        State::Cancelled
        | State::NotSupplied
        | State::CheckedIn
        | State::Pending
        | State::Received
        | State::NotReceivedOverdue => Work::Over,
    }
}

/// Returns the work with an item that is shipped. `is_received` says that it has reached the requester, and `dates` how
/// its dates stand to the day.
fn shipped_work(is_received: bool, dates: Dates) -> Work
    ensures { result ≡ shipped_work is_received dates }
{
    if dates.is_overdue {
        Work::NotifyOverdue
    } else if is_received {
        Work::Wait
    } else {
        Work::OnItsWay
    }
}
