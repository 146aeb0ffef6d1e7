//! The messages that came to a desk since a day, by its diary. A message that the diary lacks came when its
//! neighbours did.

ghost use Rattle.std.specs.Prelude.{◌≡◌, ◌+◌, ◌++◌, ◌∷◌, [], not, filter, length, map, IfOk, OnOk, Some};
ghost use Rattle.std.specs.List.{after_last, list_any, suffix_len};
ghost use Rattle.ill_news.specs.CameSince.{came_before, came_key, is_earlier, is_new, is_since, came_since};

use ill_beside::keyed_diary::KeyedDiary;
use ill_beside::notes::Notes;
use ill_text::diary::message_key;
use ill_values::{Apdu, Day, Number, OutOfMemory};
use std::alloc::Global;

/// The messages that came to a desk. The notes, the diary, the day and the number say which of them are printed.
#[derive(Clone, Copy)]
pub struct Came<'a> {
    /// The bytes of the messages, one after another.
    pub bytes: &'a [u8],
    /// The notes of staff.
    pub notes: &'a Notes,
    /// The diary.
    pub diary: &'a KeyedDiary,
    /// The day since which messages are printed. Without a day all messages are printed.
    pub since: Option<Day>,
    /// The number of the last printed messages that are shown. Without a number all of them are shown.
    pub last: Option<Number>,
}

impl Came<'_> {
    /// Returns those of the messages `apdus` that are printed. With a day these are the ones that came on the day or
    /// later, without repeats. Without a day these are all.
    pub(crate) fn printed<'b>(
        &self,
        alloc: Global,
        apdus: &'b [Apdu],
    ) -> Result<Vec<&'b Apdu>, OutOfMemory>
        ensures { IfOk result (λ printed. map (λ a. a.now) printed.items
            ≡ came_since self.now.since self.now.diary.now apdus.now) }
    {
        match self.since {
            None => all_of(alloc, apdus),
            Some(day) => later(alloc, day, self.diary, apdus),
        }
    }
}

/// Returns references to all of the messages `apdus`.
fn all_of<'a>(alloc: Global, apdus: &'a [Apdu]) -> Result<Vec<&'a Apdu>, OutOfMemory>
    ensures { IfOk result (λ all. map (λ a. a.now) all.items ≡ apdus.now) }
{
    let mut all = Vec::new(alloc);
    for apdu in apdus {
        all.push(apdu)?;
    }
    Ok(all)
}

/// Returns those of the messages `apdus` that came on `day` or later, by the lines of `diary`. Repeats of older
/// messages are left out.
pub(crate) fn later<'a>(
    alloc: Global,
    day: Day,
    diary: &KeyedDiary,
    apdus: &'a [Apdu],
) -> Result<Vec<&'a Apdu>, OutOfMemory>
    ensures { IfOk result (λ printed. map (λ a. a.now) printed.items
        ≡ came_since (Some day) diary.now apdus.now) }
{
    let end = end_of(alloc, day, diary, apdus)?;
    new_of(alloc, day, diary, end)
}

/// Returns the messages of `apdus` after the last one that came before `day`, or all of them if none did.
#[tactic(auto, using(crate::proofs::CameSinceLemmas::printed_from))]
fn end_of<'a>(
    alloc: Global,
    day: Day,
    diary: &KeyedDiary,
    apdus: &'a [Apdu],
) -> Result<&'a [Apdu], OutOfMemory>
    ensures { IfOk result (λ end. end.now
        ≡ after_last (came_before day diary.now) apdus.now) }
{
    let past = past_of(alloc, day, diary, apdus)?;
    Ok(&apdus[past..])
}

/// Returns those of the messages `apdus` that no line of an earlier day than `day` names, in their order.
fn new_of<'a>(
    alloc: Global,
    day: Day,
    diary: &KeyedDiary,
    apdus: &'a [Apdu],
) -> Result<Vec<&'a Apdu>, OutOfMemory>
    ensures { IfOk result (λ new. map (λ a. a.now) new.items
        ≡ filter (is_new day diary.now) apdus.now) }
{
    let mut new = Vec::new(alloc);
    for apdu in apdus {
        push_if_new(&mut new, day, diary, apdu)?;
    }
    Ok(new)
}

/// Appends the message `apdu` to `new`, if no line of an earlier day than `day` names it.
fn push_if_new<'a>(
    new: &mut Vec<&'a Apdu>,
    day: Day,
    diary: &KeyedDiary,
    apdu: &'a Apdu,
) -> Result<(), OutOfMemory>
    ensures { OnOk result (map (λ a. a.now) new.new.items ≡ map (λ a. a.now) new.old.items
        ++ filter (is_new day diary.now) (apdu.now ∷ [])) }
{
    if is_new(*new.allocator(), day, diary, apdu)? {
        new.push(apdu)?;
    }
    Ok(())
}

/// Returns the number of messages up to the last one of `apdus` that came before `day`, or 0 if none did.
#[tactic(auto, using(crate::proofs::CameSinceLemmas::past_goes_on, crate::proofs::CameSinceLemmas::past_ends_here, crate::proofs::CameSinceLemmas::past_is_none))]
fn past_of(
    alloc: Global,
    day: Day,
    diary: &KeyedDiary,
    apdus: &[Apdu],
) -> Result<usize, OutOfMemory>
    ensures { IfOk result (λ past. past + suffix_len (λ a. not (came_before day diary.now a)) apdus.now
        ≡ length apdus.now) }
{
    let mut rest = apdus;
    while let Some((last, before)) = rest.split_last() {
        if came_before(alloc, day, diary, last)? {
            return Ok(rest.len());
        }
        rest = before;
    }
    Ok(0)
}

/// Returns true if a line of an earlier day than `day` names the message `apdu`, and none of `day` or later does.
fn came_before(
    alloc: Global,
    day: Day,
    diary: &KeyedDiary,
    apdu: &Apdu,
) -> Result<bool, OutOfMemory>
    ensures { IfOk result (λ is. is ≡ came_before day diary.now apdu.now) }
{
    let days = diary.days_of(alloc, &came_key(alloc, apdu)?)?;
    Ok(is_earlier(day, &days) && !is_since(day, &days))
}

/// Returns true if no line of an earlier day than `day` names the message `apdu`.
fn is_new(alloc: Global, day: Day, diary: &KeyedDiary, apdu: &Apdu) -> Result<bool, OutOfMemory>
    ensures { IfOk result (λ is. is ≡ is_new day diary.now apdu.now) }
{
    let days = diary.days_of(alloc, &came_key(alloc, apdu)?)?;
    Ok(!is_earlier(day, &days))
}

/// Returns the key by which a diary names the message `apdu`, which came.
fn came_key(alloc: Global, apdu: &Apdu) -> Result<Vec<u8>, OutOfMemory>
    ensures { IfOk result (λ key. key.items ≡ came_key apdu.now) }
{
    let number = u32::from(apdu.number.get());
    message_key(alloc, &apdu.txn, apdu.body.view().type_name(), number)
}

/// Returns true if one of `days` is `day` or later.
pub(crate) fn is_since(day: Day, days: &[Day]) -> bool
    ensures { result ≡ list_any (is_since day) days.now }
{
    days.iter().any(|other| !(*other < day))
}

/// Returns true if one of `days` is earlier than `day`.
pub(crate) fn is_earlier(day: Day, days: &[Day]) -> bool
    ensures { result ≡ list_any (is_earlier day) days.now }
{
    days.iter().any(|other| *other < day)
}
