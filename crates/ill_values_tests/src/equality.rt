//! Tests of the equality of values and of their copies.

use ill_values::{AnswerResult, Apdu, Body, Day, Item, Number, TxnId};
use std::alloc::Global;
use std::test::Fail;

#[test]
fn transaction_ids_are_equal_where_both_qualifiers_are(rt: HostRuntime) -> Result<(), Fail> {
    let id = TxnId::new(rt.alloc(), b"G1", b"T1")?;
    for (group, transaction, equal) in &[
        ("G1", "T1", true),
        ("G1", "T2", false),
        ("G2", "T1", false),
    ] {
        let other = TxnId::new(rt.alloc(), group.as_bytes(), transaction.as_bytes())?;
        assert!(rt; (id == other) == *equal, "{group} {transaction}");
    }
    Ok(())
}

#[test]
fn equal_and_unequal_items(rt: HostRuntime) -> Result<(), Fail> {
    let item = Item::new(rt.alloc(), b"Die Blechtrommel")?;
    assert!(rt;
        item == Item::new(rt.alloc(), b"Die Blechtrommel")?,
        "equal"
    );
    assert!(rt;
        item != Item::new(rt.alloc(), b"Die Blechtrommel.")?,
        "unequal"
    );
    Ok(())
}

#[test]
fn equal_and_unequal_parts(rt: HostRuntime) -> Result<(), Fail> {
    assert!(rt; Number::new(7) == Number::new(7), "equal numbers");
    assert!(rt; Number::new(7) != Number::new(8), "unequal numbers");
    let due = Day::read(b"20250315")?;
    assert!(rt;
        Body::Shipped { due } == Body::Shipped { due },
        "equal bodies"
    );
    assert!(rt;
        Body::Shipped { due } != Body::Overdue { due },
        "unequal bodies"
    );
    assert!(rt; AnswerResult::Retry == AnswerResult::Retry, "equal results");
    assert!(rt;
        AnswerResult::Retry != AnswerResult::Unfilled,
        "unequal results"
    );
    Ok(())
}

/// Returns a message of transaction G1, T1, with number 1.
fn one_message(alloc: Global, body: Body) -> Result<Apdu, Fail> {
    Ok(Apdu {
        txn: TxnId::new(alloc, b"G1", b"T1")?,
        number: Number::new(1).ok_or("1 is a number")?,
        body,
    })
}

#[test]
fn equal_and_unequal_messages(rt: HostRuntime) -> Result<(), Fail> {
    let message = one_message(rt.alloc(), Body::Cancel)?;
    assert!(rt; message == one_message(rt.alloc(), Body::Cancel)?, "equal");
    assert!(rt;
        message != one_message(rt.alloc(), Body::Received)?,
        "unequal"
    );
    Ok(())
}

#[test]
fn copies_of_parts_are_equal(rt: HostRuntime) -> Result<(), Fail> {
    let id = TxnId::new(rt.alloc(), b"G1", b"T1")?;
    assert!(rt; id.copy(rt.alloc())? == id, "transaction id");
    let item = Item::new(rt.alloc(), &[b'M'; 200])?;
    assert!(rt; item.copy(rt.alloc())? == item, "item");
    Ok(())
}

#[test]
fn copies_of_messages_are_equal(rt: HostRuntime) -> Result<(), Fail> {
    let due = Day::read(b"20250315")?;
    let item = Item::new(rt.alloc(), &[b'M'; 200])?;
    let request = Body::IllRequest {
        expiry: Some(due),
        item,
    };
    for body in [Body::Cancel, Body::Shipped { due }, request] {
        let message = one_message(rt.alloc(), body)?;
        assert!(rt; message.copy(rt.alloc())? == message);
    }
    Ok(())
}
