//! Tests of transaction ids, items and numbers.

use ill_values::{
    BodyView, ITEM_LIMIT, Item, NotANumber, Number, QUALIFIER_LIMIT, TextFault, TxnId,
};
use std::alloc::Global;
use std::process::Abort;
use std::test::Fail;

/// A text, and the fault that refuses it. `None` means that the text is accepted.
struct Row {
    /// The name of the case.
    case: &'static str,
    /// The text that is judged.
    text: &'static [u8],
    /// The fault of the text, if it has one.
    fault: Option<TextFault>,
}

/// The cases of qualifiers.
const QUALIFIERS: [Row; 8] = [
    Row {
        case: "two letters",
        text: b"G1",
        fault: None,
    },
    Row {
        case: "64 letters",
        text: &[b'x'; 64],
        fault: None,
    },
    Row {
        case: "a space",
        text: b"\x20",
        fault: None,
    },
    Row {
        case: "a tilde",
        text: b"\x7E",
        fault: None,
    },
    Row {
        case: "nothing",
        text: b"",
        fault: Some(TextFault::Empty),
    },
    Row {
        case: "65 letters",
        text: &[b'x'; 65],
        fault: Some(TextFault::TooLong),
    },
    Row {
        case: "a control byte",
        text: b"G\x1F",
        fault: Some(TextFault::BadByte),
    },
    Row {
        case: "DEL",
        text: b"G\x7F",
        fault: Some(TextFault::BadByte),
    },
];

#[test]
fn transaction_id_keeps_its_qualifiers(rt: HostRuntime) -> Result<(), Fail> {
    let id = TxnId::new(rt.alloc(), b"G1", b"T1")?;
    assert!(rt; id.group() == b"G1".as_slice(), "group");
    assert!(rt; id.transaction() == b"T1".as_slice(), "transaction");
    assert!(rt; id.group_str() == "G1", "group as text");
    assert!(rt; id.transaction_str() == "T1", "transaction as text");
    Ok(())
}

#[test]
fn qualifiers_are_judged_alike_as_group_and_as_transaction(rt: HostRuntime) {
    for row in &QUALIFIERS {
        let group = TxnId::new(rt.alloc(), row.text, b"T1").err();
        assert!(rt; group == row.fault, "group of {}", row.case);
        let transaction = TxnId::new(rt.alloc(), b"G1", row.text).err();
        assert!(rt; transaction == row.fault, "transaction of {}", row.case);
        let is_qualifier = TxnId::is_qualifier(row.text);
        assert!(rt; is_qualifier == row.fault.is_none(), "{}", row.case);
    }
}

#[test]
fn group_is_judged_before_transaction(rt: HostRuntime) {
    let fault = TxnId::new(rt.alloc(), b"G\x1F", b"").err();
    assert!(rt; fault == Some(TextFault::BadByte));
}

/// The cases of items.
const ITEMS: [Row; 12] = [
    Row {
        case: "200 letters",
        text: &[b'x'; 200],
        fault: None,
    },
    Row {
        case: "two letters of two bytes",
        text: b"F\xC3\xBC\xC3\x9Fe",
        fault: None,
    },
    Row {
        case: "the first character of two bytes",
        text: b"\xC2\x80",
        fault: None,
    },
    Row {
        case: "a leading space",
        text: b" leading space",
        fault: None,
    },
    Row {
        case: "two spaces",
        text: b"two  spaces",
        fault: None,
    },
    Row {
        case: "a tilde",
        text: b"~",
        fault: None,
    },
    Row {
        case: "nothing",
        text: b"",
        fault: Some(TextFault::Empty),
    },
    Row {
        case: "201 letters",
        text: &[b'x'; 201],
        fault: Some(TextFault::TooLong),
    },
    Row {
        case: "a control byte",
        text: b"a\x1F",
        fault: Some(TextFault::BadByte),
    },
    Row {
        case: "DEL",
        text: b"a\x7F",
        fault: Some(TextFault::BadByte),
    },
    Row {
        case: "a byte that UTF-8 lacks",
        text: b"a\xFF",
        fault: Some(TextFault::BadByte),
    },
    Row {
        case: "a cut character",
        text: b"a\xC3",
        fault: Some(TextFault::BadByte),
    },
];

#[test]
fn items_are_judged_and_keep_their_text(rt: HostRuntime) {
    for row in &ITEMS {
        expect_item(&rt, rt.alloc(), row);
    }
}

/// Asserts that the text of `row` is accepted or refused as an item.
fn expect_item(rt: &impl Abort, alloc: Global, row: &Row) {
    assert!(rt;
        Item::is_item(row.text) == row.fault.is_none(),
        "{}",
        row.case
    );
    match Item::new(alloc, row.text) {
        Ok(item) => {
            assert!(rt; row.fault.is_none(), "{} is an item", row.case);
            assert!(rt; item.text() == row.text, "text of {}", row.case);
            assert!(rt; item.as_str().as_bytes() == row.text, "str of {}", row.case);
        }
        Err(fault) => assert!(rt; row.fault == Some(fault), "fault of {}", row.case),
    }
}

#[test]
fn views_are_judged_by_their_item(rt: HostRuntime) {
    for row in &ITEMS {
        expect_body(&rt, rt.alloc(), row);
    }
}

/// Asserts that a view of the request of the text of `row` is accepted or refused as a body.
fn expect_body(rt: &impl Abort, alloc: Global, row: &Row) {
    let view = BodyView::IllRequest {
        expiry: None,
        item: row.text,
    };
    match view.to_body(alloc) {
        Ok(body) => assert!(rt;
            row.fault.is_none() && body.is_ill_request(),
            "{}",
            row.case
        ),
        Err(fault) => assert!(rt; row.fault == Some(fault), "fault of {}", row.case),
    }
}

#[test]
fn limits_are_those_of_the_longest_texts(rt: HostRuntime) {
    assert!(rt; QUALIFIER_LIMIT == 64, "qualifier");
    assert!(rt; ITEM_LIMIT == 200, "item");
}

#[test]
fn numbers_are_1_to_255(rt: HostRuntime) {
    assert!(rt; Number::new(0).is_none(), "0");
    for value in [1, 255] {
        let number = Number::new(value).map(|number| number.get());
        assert!(rt; number == Some(value), "{value}");
    }
}

#[test]
fn numbers_are_converted_and_shown(rt: HostRuntime) -> Result<(), Fail> {
    assert!(rt; Number::try_from(0) == Err(NotANumber), "0");
    for (value, text) in &[(1, "1"), (255, "255")] {
        let number = Number::try_from(*value)?;
        assert!(rt; u8::from(number) == *value, "{text} back");
        let shown = format!(in rt.alloc(); "{number}")?;
        assert!(rt; shown.as_str() == *text, "{text} shown");
    }
    Ok(())
}
