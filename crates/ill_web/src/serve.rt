//! One request, from its texts to the reply.

ghost use Rattle.std.specs.Prelude.{◌≡◌, Option, find, map, IfOk};
ghost use Rattle.ill_browser.specs.Visit.{visit_shown};
ghost use Rattle.ill_browser.specs.Wanted.{asked_of};
ghost use Rattle.ill_commands.specs.Streams.{streams_of};
ghost use Rattle.ill_web.specs.Acts.{Turn};
ghost use Rattle.ill_web.specs.Pages.{said};
ghost use Rattle.ill_web.specs.Replies.{AnswersAt, AnswersRequest, Sends, Serves, house_shown, reply_of, sent_of};
ghost use Rattle.ill_web.specs.Troubles.{trouble_reply};

use crate::act::act;
use crate::house::House;
use crate::note::note_loan;
use crate::operator::Operator;
use crate::show::{show_desks, show_figures, show_loan, show_slip};
use crate::trouble::Trouble;
use ill_browser::{Rules, Visit, Wanted, read_wanted};
use ill_files::folder::desk_paths;
use ill_page::{notice_page, page_reply};
use ill_saved::LockFiles;
use ill_text::output::write_and_flush;
use ill_values::OutOfMemory;
use std::alloc::Global;
use std::io::{Read, Write};

/// A request, and what says who may make it.
#[derive(Clone, Copy)]
pub struct Request<'a> {
    /// What the operator says.
    pub operator: &'a Operator<'a>,
    /// What the web server says of the request.
    pub visit: &'a Visit<'a>,
}

/// The reply if there is no memory for another one.
const NO_MEMORY: &[u8] = b"Status: 500 Internal Server Error\r\n\r\n";

/// Answers `request`, whose body is read from `reader`, and returns the exit status: 0, or 3 if the reply was not
/// written.
pub fn serve<T: LockFiles, R: Read, W: Write>(
    rt: &T,
    alloc: Global,
    request: Request<'_>,
    reader: &mut R,
    writer: &mut W,
) -> u8
    ensures { Serves request.entry.operator.now (visit_shown request.entry.visit.now)
        (streams_of (R.remaining reader.old) (W.contents writer.old)) result
        (streams_of (R.remaining reader.new) (W.contents writer.new)) }
{
    let answered = answer(rt, alloc, request, reader);
    let reply = reply_of(alloc, request.operator, answered);
    send_reply(writer, reply)
}

/// Returns the reply in `answered`. If `answered` is a trouble, it returns the reply that tells the trouble.
fn reply_of(
    alloc: Global,
    operator: &Operator<'_>,
    answered: Result<Vec<u8>, Trouble>,
) -> Result<Vec<u8>, OutOfMemory>
    ensures { IfOk result (λ reply. reply.items ≡ reply_of operator.now.today (said answered)) }
{
    match answered {
        Ok(reply) => Ok(reply),
        Err(trouble) => trouble_reply(alloc, operator, trouble),
    }
}

/// Returns the reply that tells `trouble`: its status, and a page with its notice.
fn trouble_reply(
    alloc: Global,
    operator: &Operator<'_>,
    trouble: Trouble,
) -> Result<Vec<u8>, OutOfMemory>
    ensures { IfOk result (λ reply. reply.items ≡ trouble_reply operator.now.today trouble) }
{
    let told = trouble.told();
    let page = notice_page(alloc, operator.today, told.notice)?;
    page_reply(alloc, told.status, &page)
}

/// Writes a reply, or that there was no memory for it. Returns the exit status: 0, or 3 if the writing failed.
fn send_reply<W: Write>(writer: &mut W, reply: Result<Vec<u8>, OutOfMemory>) -> u8
    ensures { Sends (sent_of reply) (W.contents writer.old) result (W.contents writer.new) }
{
    match reply {
        Ok(reply) => send(writer, &reply),
        Err(_) => send(writer, NO_MEMORY),
    }
}

/// Writes `bytes`, and returns the exit status: 0, or 3 if the writing failed.
fn send<W: Write>(writer: &mut W, bytes: &[u8]) -> u8
    ensures { Sends bytes.now (W.contents writer.old) result (W.contents writer.new) }
{
    match write_and_flush(writer, bytes) {
        Ok(()) => 0,
        Err(_) => 3,
    }
}

/// Reads what `request` asks for, finds the desks of the operator, and returns the reply.
fn answer<T: LockFiles, R: Read>(
    rt: &T,
    alloc: Global,
    request: Request<'_>,
    reader: &mut R,
) -> Result<Vec<u8>, Trouble>
    ensures { (turn : Option Turn) × AnswersRequest request.entry.operator.now (visit_shown request.entry.visit.now)
        (R.remaining reader.old) (R.remaining reader.new) turn (said result) }
{
    let Request { operator, visit } = request;
    let rules = Rules {
        origin: operator.origin,
        is_open: operator.is_open,
    };
    let wanted = read_wanted(alloc, &rules, visit, reader)?;
    let found = desk_paths(rt, alloc, &operator.paths)?;
    let house = House {
        rt,
        alloc,
        operator,
        files: &found.files,
        user: visit.user,
    };
    reply_to(&house, &wanted)
}

/// Returns the reply to a request that asks for `wanted`.
fn reply_to<T: LockFiles>(house: &House<'_, T>, wanted: &Wanted) -> Result<Vec<u8>, Trouble>
    ensures { (turn : Option Turn) × AnswersAt (house_shown house.now) (asked_of wanted.now) turn (said result) }
{
    match wanted {
        Wanted::Desks { find } => show_desks(house, find.as_ref().map(|words| words.as_str())),
        Wanted::Loan(loan) => show_loan(house, loan),
        Wanted::Slip(loan) => show_slip(house, loan),
        Wanted::Figures { from, to } => show_figures(house, *from, *to),
        Wanted::Act { loan, stamp, words } => act(house, loan, stamp, words),
        Wanted::Note { loan, note } => note_loan(house, loan, note),
    }
}
