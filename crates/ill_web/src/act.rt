//! One act of a form, at a desk in a file, under its lock.

ghost use Rattle.std.specs.Prelude.{◌≡◌, ◌⊎◌, map, option_map, string_bytes, Option, Some, Err, IfErr, IfOk};
ghost use Rattle.ill_browser.specs.Wanted.{loan_asked};
ghost use Rattle.ill_post.specs.Post.{form_shown, state_of};
ghost use Rattle.ill_record.specs.declared.side.Action.TheVariants.{Deed};
ghost use Rattle.ill_text.specs.Fault.{IsOpenFault};
ghost use Rattle.ill_words.specs.Words.{deed_of};
ghost use Rattle.ill_web.specs.Actions.{action_of};
ghost use Rattle.ill_web.specs.Acts.{ActsIf, ActsIn, AnswersSent, IsEarly, IsNotice, IsRefusal, PostsAt, TellsAnswer, TellsPosted, TellsWhy, Turn, may_act, of_post, status_of};
ghost use Rattle.ill_web.specs.Entries.{stamp_on};
ghost use Rattle.ill_web.specs.Pages.{asked_at, said};
ghost use Rattle.ill_web.specs.Replies.{ActsHere, house_shown};
ghost use Rattle.ill_web.specs.Sent.{sent_form};
ghost use Rattle.ill_web.specs.Troubles.{no_memory};

use crate::entry::{turn_entry, turn_line};
use crate::house::House;
use crate::show::loan_reply;
use crate::told::Told;
use crate::trouble::Trouble;
use ill_browser::LoanName;
use ill_files::open::open_locked;
use ill_files::paths::folder_of;
use ill_files::shelf::{desk_name, is_named_on_shelf, is_shelf};
use ill_page::words::{CHANGED, FAULT_END, NO_ACTION, NOTHING_DONE};
use ill_page::{Status, seen_reply};
use ill_post::{Form, Posted, post};
use ill_report::link::Place;
use ill_saved::{Action, Desk, DeskFault, LockFiles, Role, Store};
use ill_text::diary::is_name;
use ill_text::fault::ToolFault;
use ill_values::{Day, OutOfMemory};
use ill_words::words::{deed, wish};
use std::alloc::Global;
use std::path::Path;
use std::rt::Files;

/// A form that was sent: its loan, the stamp that the loan had on the page, and the words of its fields.
#[derive(Clone, Copy)]
struct Sent<'a> {
    place: &'a Place<'a>,
    stamp: &'a [u8],
    words: &'a [Vec<u8>],
}

/// Performs the act of a form in `loan`, and returns the reply. Fails with `NoDesk` if the text for the desk is no path
/// of the operator's desks.
pub fn act<T: LockFiles>(
    house: &House<'_, T>,
    loan: &LoanName,
    stamp: &[u8],
    words: &[Vec<u8>],
) -> Result<Vec<u8>, Trouble>
    ensures { (turn : Option Turn) × ActsHere (house_shown house.now)
        (record { loan = loan_asked loan.now; stamp = stamp.now; words = map (λ word. word.items) words.now })
        turn (said result) }
{
    let place = house.place(loan)?;
    let sent = Sent {
        place: &place,
        stamp,
        words,
    };
    act_as(house, &sent)
}

/// Performs the act of the form `sent`, if a diary can name its user. Else it fails with `NoName`.
fn act_as<T: LockFiles>(house: &House<'_, T>, sent: &Sent<'_>) -> Result<Vec<u8>, Trouble>
    ensures { (turn : Option Turn) × ActsIf (may_act house.now.user.now)
        (stamp_on house.now.operator.now.today house.now.user.now) (sent_form sent.now) turn (said result) }
{
    if may_act(house.user) {
        take_turn(house, sent)
    } else {
        Err(Trouble::NoName)
    }
}

/// Returns true if a diary can name the user, or nobody is named.
fn may_act(user: &str) -> bool
    ensures { result ≡ may_act user.now }
{
    user.is_empty() || is_name(user)
}

/// Lets the form `sent` have its turn at its desk, under the lock of the file, and returns the reply. Fails if the desk
/// cannot be opened, or takes loans of another group.
fn take_turn<T: LockFiles>(house: &House<'_, T>, sent: &Sent<'_>) -> Result<Vec<u8>, Trouble>
    ensures { (turn : Option Turn) × ActsIn (stamp_on house.now.operator.now.today house.now.user.now) (sent_form sent.now)
        turn (said result) }
{
    let mut locked = open_locked(house.rt, house.alloc, sent.place.desk)?;
    refuse_other_group(house, sent.place, locked.desk.role())?;
    let answered = answer(house, &mut locked.desk, sent);
    drop(locked);
    tell(house, sent.place, answered)
}

/// Fails with `OtherGroup` if the desk of `place` is one of a shelf, but not that of the loan's group.
fn refuse_other_group<T: Files>(
    house: &House<'_, T>,
    place: &Place<'_>,
    role: Role,
) -> Result<(), Trouble>
    ensures { IfErr result IsEarly }
{
    let name = Path::new(place.desk).file_name().unwrap_or(place.desk);
    if is_named_on_shelf(house.alloc, name)?
        && has_shelf(house, folder_of(place.desk))?
        && desk_name(house.alloc, role, place.txn.group())?.as_str() != name
    {
        return Err(Trouble::OtherGroup);
    }
    Ok(())
}

/// Returns true if there is a shelf in `folder`.
fn has_shelf<T: Files>(house: &House<'_, T>, folder: &str) -> Result<bool, ToolFault>
    ensures { IfErr result IsOpenFault }
{
    Ok(is_shelf(house.rt, house.alloc, folder)?)
}

/// Answers the form `sent` at `desk`. If there is no memory for its line in the diary, nothing is done.
fn answer<T: Files, S: Store>(
    house: &House<'_, T>,
    desk: &mut Desk<S>,
    sent: &Sent<'_>,
) -> Result<Posted, Trouble>
    ensures { AnswersSent (stamp_on house.now.operator.now.today house.now.user.now) (sent_form sent.now)
        (state_of S.state desk.old) result (state_of S.state desk.new) }
{
    let words = slices(house.alloc, sent.words)?;
    let action = action(house.alloc, desk.role(), house.operator.today, &words)?;
    let form = Form {
        txn: sent.place.txn,
        stamp: sent.stamp,
        action,
    };
    let issued = desk.shown(form.txn).issued;
    let line = turn_line(house, form.txn, &form.action, issued)?;
    perform(house, sent.place.desk, desk, &form, line)
}

/// Returns `words` as slices.
fn slices(alloc: Global, words: &[Vec<u8>]) -> Result<Vec<&[u8]>, OutOfMemory>
    ensures { IfOk result (λ slices. map (λ word. word.now) slices.items ≡ map (λ word. word.items) words.now) }
{
    let mut slices = Vec::new(alloc);
    for word in words {
        slices.push(word.as_slice())?;
    }
    Ok(slices)
}

/// Performs the action of `form` at `desk`. If it is done, `line` is entered in the diary beside `file` before the
/// save. A diary that fails stops no form.
fn perform<T: Files, S: Store>(
    house: &House<'_, T>,
    file: &str,
    desk: &mut Desk<S>,
    form: &Form<'_>,
    line: Vec<u8>,
) -> Result<Posted, Trouble>
    ensures { PostsAt file.now line.items (form_shown form.now) (state_of S.state desk.old) result
        (state_of S.state desk.new) }
{
    let mut entry = turn_entry(house, file, line);
    of_post(post(house.alloc, desk, form, &mut entry))
}

/// Returns the answer to a form, or the fault of its desk as a trouble.
fn of_post(posted: Result<Posted, DeskFault>) -> Result<Posted, Trouble>
    ensures { result ≡ of_post posted }
{
    match posted {
        Ok(posted) => Ok(posted),
        Err(fault) => Err(Trouble::Desk(fault.into())),
    }
}

/// Returns the reply to a form in the loan at `place`. `answered` is the answer to the form, or the trouble of its
/// desk.
fn tell<T: Files>(
    house: &House<'_, T>,
    place: &Place<'_>,
    answered: Result<Posted, Trouble>,
) -> Result<Vec<u8>, Trouble>
    ensures { TellsAnswer house.now.operator.now.today (asked_at place.now) answered (said result) }
{
    match answered {
        Ok(posted) => tell_posted(house, place, posted),
        Err(trouble) => Err(trouble),
    }
}

/// Returns the reply to a form whose answer is `posted`. If the form was done, the reply leads to the page of its loan.
/// Else the reply shows the loan as it is now.
fn tell_posted<T: Files>(
    house: &House<'_, T>,
    place: &Place<'_>,
    posted: Posted,
) -> Result<Vec<u8>, Trouble>
    ensures { TellsPosted house.now.operator.now.today (asked_at place.now) posted (said result) }
{
    match posted {
        Posted::Done => Ok(seen_reply(house.alloc, place)?),
        Posted::Refused(_) | Posted::NoAction | Posted::Changed => tell_why(house, place, posted),
    }
}

/// Returns the reply with the page of the loan at `place` as it is now, and why the form was not done.
fn tell_why<T: Files>(
    house: &House<'_, T>,
    place: &Place<'_>,
    posted: Posted,
) -> Result<Vec<u8>, Trouble>
    ensures { TellsWhy house.now.operator.now.today (asked_at place.now) posted (said result)
        ⊎ (said result ≡ Err no_memory) }
{
    let notice = notice_of(house.alloc, posted)?;
    let told = Told {
        status: status_of(posted),
        notice: notice.as_str(),
    };
    loan_reply(house, place, told)
}

/// Returns the status of the reply to a form that was not done.
fn status_of(posted: Posted) -> Status
    ensures { result ≡ status_of posted }
{
    match posted {
        Posted::NoAction => Status::Bad,
        Posted::Refused(_) | Posted::Changed | Posted::Done => Status::Conflict,
    }
}

/// Returns the notice that says why a form was not done, whose answer is `posted`.
fn notice_of(alloc: Global, posted: Posted) -> Result<String, OutOfMemory>
    ensures { IfOk result (λ notice. IsNotice posted (string_bytes notice)) }
{
    match posted {
        Posted::Refused(fault) => refusal_notice(alloc, fault.into()),
        Posted::NoAction => String::from_str(alloc, NO_ACTION),
        Posted::Changed | Posted::Done => String::from_str(alloc, CHANGED),
    }
}

/// Returns the notice of a form that its desk refused with `fault`.
fn refusal_notice(alloc: Global, fault: ToolFault) -> Result<String, OutOfMemory>
    ensures { IfOk result (λ notice. IsRefusal (string_bytes notice)) }
{
    let words = format!(in alloc; "{fault}")?;
    let mut notice = String::from_str(alloc, NOTHING_DONE)?;
    notice.push_str(words.as_str())?;
    notice.push_str(FAULT_END)?;
    Ok(notice)
}

/// Returns the action that `words` name for `role` on the day `today`. A title is one word with its spaces.
fn action(
    alloc: Global,
    role: Role,
    today: Day,
    words: &[&[u8]],
) -> Result<Option<Action>, OutOfMemory>
    ensures { IfOk result (λ action. action ≡ action_of role today (map (λ word. word.now) words.now)) }
{
    match role {
        Role::Requester => Ok(wish(alloc, words)?.map(Action::Wish)),
        Role::Responder => Ok(deed_on(today, words)),
    }
}

/// Returns the deed that `words` name on the day `today`.
fn deed_on(today: Day, words: &[&[u8]]) -> Option<Action>
    ensures { result ≡ option_map (λ deed. Deed deed today) (deed_of (Some today) (map (λ word. word.now) words.now)) }
{
    Some(Action::Deed(deed(words, Some(today))?, today))
}
