//! Tests of what a body is asked: its role, its end and its dates.

use ill_values::{AnswerResult, Body, Day, Item, Number};
use std::alloc::Global;
use std::process::Abort;
use std::test::Fail;

/// The answers that are expected of a body.
#[derive(Clone, Copy)]
struct Row {
    /// True if a requester issues the body.
    is_requesters: bool,
    /// True if the body ends the request.
    is_end: bool,
    /// The due date that the body grants.
    grant: Option<Day>,
    /// The due date that the body states.
    date: Option<Day>,
}

/// Asserts that `body` has the answers of `row`.
fn expect(rt: &impl Abort, body: &Body, row: &Row) {
    let name = body.type_name();
    assert!(rt; body.is_requesters() == row.is_requesters, "role of {name}");
    assert!(rt; body.is_end() == row.is_end, "end of {name}");
    assert!(rt; body.grant() == row.grant, "grant of {name}");
    assert!(rt; body.date() == row.date, "date of {name}");
}

/// Returns a row of a body without dates.
fn dateless(is_requesters: bool, is_end: bool) -> Row {
    Row {
        is_requesters,
        is_end,
        grant: None,
        date: None,
    }
}

/// Returns the request of an item.
fn request(alloc: Global) -> Result<Body, Fail> {
    Ok(Body::IllRequest {
        expiry: None,
        item: Item::new(alloc, b"Die Blechtrommel")?,
    })
}

#[test]
fn bodies_without_a_due_date(rt: HostRuntime) -> Result<(), Fail> {
    let body = request(rt.alloc())?;
    assert!(rt; body.is_ill_request(), "an ILL-Request");
    expect(&rt, &body, &dateless(true, false));
    expect(&rt, &Body::Cancel, &dateless(true, false));
    expect(&rt, &Body::Received, &dateless(true, false));
    expect(&rt, &Body::Returned, &dateless(true, false));
    expect(&rt, &Body::Renew { wished: None }, &dateless(true, false));
    expect(&rt, &Body::Recall, &dateless(false, false));
    expect(&rt, &Body::CheckedIn, &dateless(false, false));
    expect(&rt, &Body::Expired, &dateless(false, true));
    Ok(())
}

#[test]
fn answers_end_the_request_or_not(rt: HostRuntime) -> Result<(), Fail> {
    for (result, is_end) in &[
        (AnswerResult::Conditional, false),
        (AnswerResult::WillSupply, false),
        (AnswerResult::HoldPlaced, false),
        (AnswerResult::Retry, true),
        (AnswerResult::Unfilled, true),
        (AnswerResult::LocationsProvided, true),
        (AnswerResult::Estimate, true),
    ] {
        let body = Body::IllAnswer { result: *result };
        expect(&rt, &body, &dateless(false, *is_end));
        assert!(rt;
            body.names_conditions() == (*result == AnswerResult::Conditional),
            "{result}"
        );
    }
    let answers = Number::try_from(1)?;
    for yes in [false, true] {
        let body = Body::ConditionalReply { answers, yes };
        expect(&rt, &body, &dateless(true, false));
        let body = Body::CancelReply { answers, yes };
        expect(&rt, &body, &dateless(false, yes));
    }
    Ok(())
}

/// Returns a row of a responder's body with dates.
fn dated(is_end: bool, grant: Option<Day>, date: Option<Day>) -> Row {
    Row {
        is_requesters: false,
        is_end,
        grant,
        date,
    }
}

#[test]
fn bodies_with_a_due_date(rt: HostRuntime) -> Result<(), Fail> {
    let due = Day::read(b"20250315")?;
    let body = Body::Shipped { due };
    assert!(rt; body.is_shipped(), "a Shipped");
    expect(&rt, &body, &dated(true, Some(due), Some(due)));
    let body = Body::Overdue { due };
    expect(&rt, &body, &dated(false, None, Some(due)));
    let answers = Number::try_from(1)?;
    let body = Body::RenewAnswer {
        answers,
        granted: Some(due),
    };
    assert!(rt; body.is_renewal(), "a renewal");
    expect(&rt, &body, &dated(false, Some(due), Some(due)));
    let body = Body::RenewAnswer {
        answers,
        granted: None,
    };
    assert!(rt; !body.is_renewal(), "no renewal");
    expect(&rt, &body, &dateless(false, false));
    Ok(())
}
