//! Tests of the names of results and of APDU types.

use ill_values::{AnswerResult, ApduType, Body, UnknownName};
use std::test::Fail;

/// The results and their names.
const RESULTS: [(AnswerResult, &str); 7] = [
    (AnswerResult::Conditional, "conditional"),
    (AnswerResult::Retry, "retry"),
    (AnswerResult::Unfilled, "unfilled"),
    (AnswerResult::LocationsProvided, "locations-provided"),
    (AnswerResult::WillSupply, "will-supply"),
    (AnswerResult::HoldPlaced, "hold-placed"),
    (AnswerResult::Estimate, "estimate"),
];

#[test]
fn results_are_shown_and_read_by_their_names(rt: HostRuntime) -> Result<(), Fail> {
    for (answer, name) in &RESULTS {
        let shown = format!(in rt.alloc(); "{answer}")?;
        assert!(rt; shown.as_str() == *name, "{name} shown");
        assert!(rt;
            AnswerResult::read(name.as_bytes()) == Some(*answer),
            "{name} read"
        );
        assert!(rt; name.parse() == Ok(*answer), "{name} parsed");
    }
    Ok(())
}

/// The types of APDU and their names.
const TYPES: [(ApduType, &str); 14] = [
    (ApduType::IllRequest, "ILL-Request"),
    (ApduType::Shipped, "Shipped"),
    (ApduType::IllAnswer, "ILL-Answer"),
    (ApduType::ConditionalReply, "Conditional-Reply"),
    (ApduType::Cancel, "Cancel"),
    (ApduType::CancelReply, "Cancel-Reply"),
    (ApduType::Received, "Received"),
    (ApduType::Recall, "Recall"),
    (ApduType::Returned, "Returned"),
    (ApduType::CheckedIn, "Checked-In"),
    (ApduType::Overdue, "Overdue"),
    (ApduType::Renew, "Renew"),
    (ApduType::RenewAnswer, "Renew-Answer"),
    (ApduType::Expired, "Expired"),
];

#[test]
fn types_are_shown_and_read_by_their_names(rt: HostRuntime) -> Result<(), Fail> {
    for (apdu_type, name) in &TYPES {
        let shown = format!(in rt.alloc(); "{apdu_type}")?;
        assert!(rt; shown.as_str() == *name, "{name} shown");
        assert!(rt;
            ApduType::read(name.as_bytes()) == Some(*apdu_type),
            "{name} read"
        );
        assert!(rt; name.parse() == Ok(*apdu_type), "{name} parsed");
    }
    assert!(rt;
        Body::CheckedIn.type_name() == "Checked-In",
        "the name of a body"
    );
    Ok(())
}

/// These texts name neither a result nor a type.
const NO_NAMES: [&str; 6] = ["", "Retry", "retry ", "retr", "ill-request", "ILL-Requests"];

#[test]
fn texts_that_are_no_names(rt: HostRuntime) {
    for text in &NO_NAMES {
        assert!(rt;
            AnswerResult::read(text.as_bytes()).is_none(),
            "\"{text}\" as a result"
        );
        assert!(rt;
            ApduType::read(text.as_bytes()).is_none(),
            "\"{text}\" as a type"
        );
        let parsed = text.parse::<AnswerResult>();
        assert!(rt; parsed == Err(UnknownName), "\"{text}\" parsed as a result");
        let parsed = text.parse::<ApduType>();
        assert!(rt; parsed == Err(UnknownName), "\"{text}\" parsed as a type");
    }
}
