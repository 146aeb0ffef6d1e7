//! An example to copy from: a library keeps its desk in a SQLite file, by a store of its own. docs/BUILDING-ON.md
//! explains it.
#![tactic(auto)]

mod store;

use anyhow::{Context, Result};
use ill_core::Wish;
use ill_saved::{Action, Desk, DeskFault, Role, Store};
use ill_values::{Item, TxnId};
use sqlite::{Alter, Connection};
use std::fs;
use store::SqliteStore;

/// The file of the desk. If it holds a record already, the example fails and leaves the record unchanged.
const PATH: &str = "loans.db";

/// The log that SQLite keeps beside that file.
const LOG_PATH: &str = "loans.db-wal";

/// Performs the example, and removes the files of the desk.
fn main(rt: HostRuntime) -> Result<()> {
    lend(&rt)?;
    fs::remove_file(&rt, PATH)?;
    Ok(fs::remove_file(&rt, LOG_PATH)?)
}

/// Asks for a book, like the first run of a program, and looks at the loan, like the second.
fn lend(rt: &HostRuntime) -> Result<()> {
    let loan = TxnId::new(rt.alloc(), b"North-2025", b"17")?;
    begin(rt, &loan)?;
    look_again(rt, &loan)
}

/// Opens the SQLite file, or makes it, asks, and closes the file.
fn begin(rt: &HostRuntime, loan: &TxnId) -> Result<()> {
    Ok(ask_first(rt, Connection::open(rt, PATH)?, loan)?.close()?)
}

/// Opens the SQLite file again, looks at the loan, and closes the file.
fn look_again(rt: &HostRuntime, loan: &TxnId) -> Result<()> {
    Ok(show_again(rt, Connection::open(rt, PATH)?, loan)?.close()?)
}

/// Begins the desk, which has no record before its first save, and asks for the book. Returns the connection.
fn ask_first<S: Alter + Drop>(
    rt: &HostRuntime,
    conn: Connection<S>,
    loan: &TxnId,
) -> Result<Connection<S>> {
    let store = SqliteStore::over(conn)?;
    let mut desk = Desk::create(rt.alloc(), store, Role::Requester).map_err(DeskFault::from)?;
    ask(rt, &mut desk, loan)?;
    Ok(desk.close().into_connection())
}

/// Starts the desk from its record, and shows the loan. Returns the connection.
fn show_again<S: Alter + Drop>(
    rt: &HostRuntime,
    conn: Connection<S>,
    loan: &TxnId,
) -> Result<Connection<S>> {
    let desk = Desk::start(rt.alloc(), SqliteStore::over(conn)?).map_err(DeskFault::from)?;
    show(rt, &desk, loan)?;
    Ok(desk.close().into_connection())
}

/// Asks for the book, and saves the desk.
fn ask<S: Store>(rt: &HostRuntime, desk: &mut Desk<S>, loan: &TxnId) -> Result<()> {
    let item = Item::new(rt.alloc(), b"A History of Maps")?;
    let request = Action::Wish(Wish::Request { expiry: None, item });
    desk.act(rt.alloc(), loan, &request)?;
    Ok(desk.save(rt.alloc())?)
}

/// Prints the transaction qualifier of `loan`, and its state at the desk.
fn show<S: Store>(rt: &HostRuntime, desk: &Desk<S>, loan: &TxnId) -> Result<()> {
    let side = desk.sides().get(loan).context("the desk has no such loan")?;
    println!(rt; "{} {}", loan.transaction_str(), side.state())?;
    Ok(())
}
