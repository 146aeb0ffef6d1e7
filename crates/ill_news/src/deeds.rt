//! The messages that dates have made due, as news: a responder's Overdue and Expired.

ghost use Rattle.std.specs.Prelude.{◌≡◌, ◌++◌, ◌∷◌, [], filter, map, IfOk, OnOk};
ghost use Rattle.ill_news.specs.Deeds.{deed_key, deeds_at, deeds_since, is_by_date, is_deed_since, is_done_since};

use crate::came_since::{is_earlier, is_since};
use ill_beside::diary::verb_of;
use ill_beside::keyed_diary::KeyedDiary;
use ill_saved::{Side, Sides};
use ill_text::diary::message_key;
use ill_values::{Apdu, Body, Day, OutOfMemory};
use ill_words::sides::all_of;
use std::alloc::Global;

/// Appends to `news` what dates have made due at `sides` since a day, if it is given, by the lines of `diary`.
pub(crate) fn push_deeds(
    news: &mut Vec<Apdu>,
    since: Option<Day>,
    diary: &KeyedDiary,
    sides: &Sides,
) -> Result<(), OutOfMemory>
    ensures { OnOk result (news.new.items ≡ news.old.items
        ++ deeds_since since diary.now sides.now.sides) }
{
    let Some(day) = since else {
        return Ok(());
    };
    let all = all_of(*news.allocator(), sides)?;
    push_all(news, day, diary, &all)
}

/// Appends to `news` what dates have made due at `sides` since `day`.
fn push_all(
    news: &mut Vec<Apdu>,
    day: Day,
    diary: &KeyedDiary,
    sides: &[&Side],
) -> Result<(), OutOfMemory>
    ensures { OnOk result (news.new.items ≡ news.old.items
        ++ deeds_since (Some day) diary.now (map (λ side. side.now) sides.now)) }
{
    for side in sides {
        push_at(news, day, diary, side)?;
    }
    Ok(())
}

/// Appends to `news` what dates have made due at `side` since `day`.
fn push_at(
    news: &mut Vec<Apdu>,
    day: Day,
    diary: &KeyedDiary,
    side: &Side,
) -> Result<(), OutOfMemory>
    ensures { OnOk result (news.new.items ≡ news.old.items
        ++ deeds_at day diary.now side.now) }
{
    match side {
        Side::Requester(_) => Ok(()),
        Side::Responder(responder) => push_issued(news, day, diary, responder.all_issued()),
    }
}

/// Appends to `news` those of the messages `issued` that dates have made due since `day`.
fn push_issued(
    news: &mut Vec<Apdu>,
    day: Day,
    diary: &KeyedDiary,
    issued: &[Apdu],
) -> Result<(), OutOfMemory>
    ensures { OnOk result (news.new.items ≡ news.old.items
        ++ filter (is_deed_since day diary.now) issued.now) }
{
    for apdu in issued {
        push_if_deed(news, day, diary, apdu)?;
    }
    Ok(())
}

/// Appends `apdu` to `news`, if a date has made it due since `day`.
fn push_if_deed(
    news: &mut Vec<Apdu>,
    day: Day,
    diary: &KeyedDiary,
    apdu: &Apdu,
) -> Result<(), OutOfMemory>
    ensures { OnOk result (news.new.items ≡ news.old.items
        ++ filter (is_deed_since day diary.now) (apdu.now ∷ [])) }
{
    let alloc = *news.allocator();
    if is_by_date(&apdu.body) && is_done_since(alloc, day, diary, apdu)? {
        news.push(apdu.copy(alloc)?)?;
    }
    Ok(())
}

/// Returns true for a message that a date makes due: an Overdue or an Expired.
fn is_by_date(body: &Body) -> bool
    ensures { result ≡ is_by_date body.now }
{
    matches!(body, Body::Overdue { .. } | Body::Expired)
}

/// Returns true if a line of `day` or later names the issued message `apdu`, and no line of an earlier day does.
fn is_done_since(
    alloc: Global,
    day: Day,
    diary: &KeyedDiary,
    apdu: &Apdu,
) -> Result<bool, OutOfMemory>
    ensures { IfOk result (λ is. is ≡ is_done_since day diary.now apdu.now) }
{
    let days = diary.days_of(alloc, &deed_key(alloc, apdu)?)?;
    Ok(is_since(day, &days) && !is_earlier(day, &days))
}

/// Returns the key by which a diary names the message `apdu`, which was issued.
fn deed_key(alloc: Global, apdu: &Apdu) -> Result<Vec<u8>, OutOfMemory>
    ensures { IfOk result (λ key. key.items ≡ deed_key apdu.now) }
{
    let number = u32::from(apdu.number.get());
    message_key(alloc, &apdu.txn, verb_of(&apdu.body).name(), number)
}
