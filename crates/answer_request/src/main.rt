//! An example to copy from: a bot answers each ILL-Request on standard input by a rule of its own. docs/BUILDING-ON.md
//! explains it.
#![tactic(auto)]

ghost use Rattle.std.specs.Prelude.{Ok, IfOk};
ghost use Rattle.ill_saved.specs.Holdings.{SendsHeld};
ghost use Rattle.ill_saved.specs.ManySides.{found_by, txn_held};

use anyhow::{Context, Result, bail};
use ill_core::{Deed, Taking};
use ill_der::{read_apdu, write_bytes};
use ill_saved::{Action, Desk, FileLock, LockedDesk, Role, Store};
use ill_values::{AnswerResult, Apdu, Body, Day, Item, Number};
use std::alloc::Global;
use std::env;

/// The titles that this library lends.
const SHELF: [&str; 2] = ["A History of Maps", "Birds of the Coast"];

/// The number of days for which the library lends an item.
const DAYS: u32 = 28;

/// Answers the requests on standard input at the desk of the first argument. The second argument is the day.
fn main(rt: HostRuntime) -> Result<()> {
    let mut words = env::args(&rt)?.skip(1);
    let path = words.next().context("usage: answer_request DESK TODAY")?;
    let today = words.next().context("usage: answer_request DESK TODAY")?;
    answer_all(&rt, path.as_str(), Day::read(today.as_bytes())?)
}

/// Answers all requests at the desk in the file at `path`, under the lock of the file. If the file does not exist, it
/// creates a desk.
fn answer_all(rt: &HostRuntime, path: &str, today: Day) -> Result<()> {
    let lock = FileLock::wait_for(rt, rt.alloc(), path)?;
    let mut locked = LockedDesk::open_or_create(rt.alloc(), lock, Role::Responder)?;
    let answered = answer_each(rt, &mut locked.desk, today);
    drop(locked);
    answered
}

/// Reads one message after another from standard input, up to its end, and answers each request at `desk`.
fn answer_each<S: Store>(rt: &HostRuntime, desk: &mut Desk<S>, today: Day) -> Result<()> {
    for _ in 0..u64::MAX {
        let Some(apdu) = read_apdu(rt.alloc(), &mut rt.stdin())? else {
            break;
        };
        answer(rt, desk, today, &apdu)?;
    }
    Ok(())
}

/// Takes `apdu`, and writes the reply to it, if it is a request.
fn answer<S: Store>(rt: &HostRuntime, desk: &mut Desk<S>, today: Day, apdu: &Apdu) -> Result<()> {
    take(rt.alloc(), desk, today, apdu)?;
    if apdu.body.is_ill_request() {
        write_bytes(&mut rt.stdout(), &reply(rt.alloc(), desk, apdu)?)?;
    }
    Ok(())
}

/// Takes `apdu`, acts on it if it is a new request, and saves both at once. Fails if `apdu` is in conflict with the
/// state of its loan.
fn take<S: Store>(alloc: Global, desk: &mut Desk<S>, today: Day, apdu: &Apdu) -> Result<()> {
    match (desk.take(alloc, apdu)?, &apdu.body) {
        (Taking::Taken, Body::IllRequest { item, .. }) => {
            let deed = decide(item, today.after(DAYS)?);
            desk.act(alloc, &apdu.txn, &Action::Deed(deed, today))?;
        }
        (Taking::Conflict(state), _) => bail!("the message has no place in the state {state}"),
        _ => {}
    }
    Ok(desk.save(alloc)?)
}

/// Returns the decision on a request. An item of `SHELF` is shipped, due on `due`, and any other is not supplied.
fn decide(item: &Item, due: Day) -> Deed {
    if SHELF.iter().any(|title| title.as_bytes() == item.text()) {
        Deed::Ship { due }
    } else {
        Deed::Answer(AnswerResult::Unfilled)
    }
}

/// Returns the reply to `request`: the first message of its loan, which is saved.
fn reply<S: Store>(alloc: Global, desk: &Desk<S>, request: &Apdu) -> Result<Vec<u8>>
    ensures { IfOk result (λ reply. SendsHeld (λ bytes. bytes.items)
        (found_by txn_held request.now.txn desk.now.live.held) 1 (Ok reply)) }
{
    let first = Number::new(1).context("no number")?;
    Ok(desk.message(alloc, &request.txn, first)?)
}
