//! An example to copy from: a library with a desk asks for a book, and takes the answer. docs/BUILDING-ON.md explains
//! it.
#![tactic(auto)]

use anyhow::{Context, Result, bail};
use ill_core::{Taking, Wish};
use ill_der::encode;
use ill_saved::{Action, Desk, FileLock, LockedDesk, Role, Side, Store};
use ill_values::{Apdu, Body, Day, Item, Number, TxnId};
use std::alloc::Global;
use std::fs;

/// The file of the desk. If it exists already, the example fails and leaves it unchanged.
const PATH: &str = "loans";

/// Performs the example, and removes the file of the desk.
fn main(rt: HostRuntime) -> Result<()> {
    lend(&rt)?;
    Ok(fs::remove_file(&rt, PATH)?)
}

/// Asks for a book, like the first run of a program, and takes the answer, like the second.
fn lend(rt: &HostRuntime) -> Result<()> {
    let loan = TxnId::new(rt.alloc(), b"North-2025", b"17")?;
    begin(rt, &loan)?;
    take_answer(rt, &loan)
}

/// Begins the desk of a requester, and asks for the book of `loan`. The desk has no file before its first save.
fn begin(rt: &HostRuntime, loan: &TxnId) -> Result<()> {
    let lock = FileLock::wait_for(rt, rt.alloc(), PATH)?;
    let mut locked = LockedDesk::create(rt.alloc(), lock, Role::Requester)?;
    let asked = ask(rt, &mut locked.desk, loan);
    drop(locked);
    asked
}

/// Opens the desk again, under the lock of its file, and takes the answer of the other library.
fn take_answer(rt: &HostRuntime, loan: &TxnId) -> Result<()> {
    let lock = FileLock::wait_for(rt, rt.alloc(), PATH)?;
    let mut locked = LockedDesk::open(rt.alloc(), lock)?;
    let taken = take(rt, &mut locked.desk, loan);
    drop(locked);
    taken
}

/// Asks for the book of `loan`, and saves the desk. Prints that the desk refuses the message before the save, and the
/// message's size after it.
fn ask<S: Store>(rt: &HostRuntime, desk: &mut Desk<S>, loan: &TxnId) -> Result<()> {
    let item = Item::new(rt.alloc(), b"A History of Maps")?;
    let request = Action::Wish(Wish::Request { expiry: None, item });
    desk.act(rt.alloc(), loan, &request)?;
    let number = last_number(side_of(desk, loan)?)?;
    if let Err(fault) = desk.message(rt.alloc(), loan, number) {
        println!(rt; "message {} before the save: {fault}", number.get())?;
    }
    desk.save(rt.alloc())?;
    let bytes = desk.message(rt.alloc(), loan, number)?.len();
    println!(rt; "message {} after it: {bytes} bytes to send", number.get())?;
    show(rt, desk, loan)
}

/// Takes the answer, and saves the change. A repeat changes nothing, and a person should see a conflict.
fn take<S: Store>(rt: &HostRuntime, desk: &mut Desk<S>, loan: &TxnId) -> Result<()> {
    let answer = shipped(rt.alloc(), loan)?;
    if let Taking::Conflict(state) = desk.take_bytes(rt.alloc(), &answer)? {
        bail!("the message has no place in the state {state}");
    }
    desk.save(rt.alloc())?;
    show(rt, desk, loan)
}

/// Returns the answer of the other library, as mail would bring it. The book is shipped, and due on 15 March.
fn shipped(alloc: Global, loan: &TxnId) -> Result<Vec<u8>> {
    let due = Day::new(2025, 3, 15)?;
    let number = Number::new(1).context("no number")?;
    let txn = loan.copy(alloc)?;
    let body = Body::Shipped { due };
    Ok(encode(alloc, &Apdu { txn, number, body })?)
}

/// Returns the side of `loan`.
fn side_of<'a, S: Store>(desk: &'a Desk<S>, loan: &TxnId) -> Result<&'a Side> {
    desk.sides().get(loan).context("the desk has no such loan")
}

/// Returns the number of the last issued message.
fn last_number(side: &Side) -> Result<Number> {
    Number::new(side.issued_count()).context("no message was issued")
}

/// Prints the state of `loan`, and the due date of the book.
fn show<S: Store>(rt: &HostRuntime, desk: &Desk<S>, loan: &TxnId) -> Result<()> {
    let side = side_of(desk, loan)?;
    match side.due() {
        Some(due) => println!(rt; "{}, due {due}", side.state())?,
        None => println!(rt; "{}", side.state())?,
    }
    Ok(())
}
