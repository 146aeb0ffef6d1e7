//! An example to copy from: it prints a line for each SHIPPED loan of a desk, with its due date. docs/BUILDING-ON.md
//! explains it. The desk `data/lending` was made by `ill`. Two of its five loans are SHIPPED.
#![tactic(auto)]

ghost use Rattle.std.specs.Prelude.{◌≡◌, map, string_bytes, IfOk};
ghost use Rattle.due_dates.specs.Shipped.{line, shipped};

use anyhow::{Context, Result};
use ill_core::State;
use ill_saved::{Desk, DeskFault, FileStore, RECORD_LIMIT, Side, Sides};
use ill_values::{Day, OutOfMemory, TxnId};
use std::alloc::Global;
use std::env;

/// Prints the due dates of the desk whose path is the argument.
fn main(rt: HostRuntime) -> Result<()> {
    let path = env::args(&rt)?.nth(1).context("usage: due_dates DESK")?;
    print_due_dates(&rt, path.as_str())
}

/// Opens the desk in the file at `path`, and prints a line for each loan that is SHIPPED.
fn print_due_dates(rt: &HostRuntime, path: &str) -> Result<()> {
    let store = FileStore::at(rt, rt.alloc(), path, RECORD_LIMIT)?;
    let desk = Desk::start(rt.alloc(), store).map_err(DeskFault::from)?;
    let printed = print_shipped(rt, desk.sides());
    drop(desk);
    printed
}

/// Prints a line for each side of `sides` that is SHIPPED.
fn print_shipped(rt: &HostRuntime, sides: &Sides) -> Result<()> {
    for side in &shipped(rt.alloc(), sides)? {
        print_line(rt, side)?;
    }
    Ok(())
}

/// Returns the sides of `sides` that are SHIPPED, in their order.
fn shipped<'a>(alloc: Global, sides: &'a Sides) -> Result<Vec<&'a Side>, OutOfMemory>
    ensures { IfOk result (λ found. map (λ side. side.now) found.items ≡ shipped sides.now.sides) }
{
    let mut found = Vec::new(alloc);
    for side in sides.iter() {
        if side.state() == State::Shipped {
            found.push(side)?;
        }
    }
    Ok(found)
}

/// Prints the due date of `side` and its transaction.
fn print_line(rt: &HostRuntime, side: &Side) -> Result<()> {
    let due = side.due().context("no due date")?;
    let line = line(rt.alloc(), due, side.txn())?;
    println!(rt; "{line}")?;
    Ok(())
}

/// Returns the line of a loan: its due date and its transaction.
fn line(alloc: Global, due: Day, txn: &TxnId) -> Result<String, OutOfMemory>
    ensures { IfOk result (λ text. string_bytes text ≡ line due txn.now) }
{
    let group = txn.group_str();
    let transaction = txn.transaction_str();
    Ok(format!(in alloc; "{due} {group} {transaction}")?)
}
