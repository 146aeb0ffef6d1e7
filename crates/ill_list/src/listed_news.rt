//! The news of a loan in `list`: the words of each message.

ghost use Rattle.std.specs.Prelude.{◌≡◌, [], ◌++◌, codes, OnOk};
ghost use Rattle.std.specs.List.{flat_map, list_any};
ghost use Rattle.ill_record.specs.Side.{txn_of};
ghost use Rattle.ill_core.specs.Issued.{is_same_txn};
ghost use Rattle.ill_text.specs.Json.{joined, member};
ghost use Rattle.ill_beside.specs.Since.{annex_of};
ghost use Rattle.ill_list.specs.ListedNews.{has_news, heard_array, heard_fields, heard_object, listed_news, listed_news_fields, news_line, news_value};

use ill_beside::annex::Annex;
use ill_beside::news_words::printed_words;
use ill_saved::Side;
use ill_text::json::{ItemForm, Value, push_array, push_label, push_members, push_plain};
use ill_values::{Apdu, OutOfMemory};

/// Returns true if one of the news of `annex` is of the loan of `side`, and news are printed.
pub(crate) fn has_news(annex: &Annex, side: &Side) -> bool
    ensures { result ≡ has_news (annex_of annex.now).news side.now }
{
    match &annex.news {
        Some(news) => is_of_any(news.as_apdus(), side),
        None => false,
    }
}

/// Returns true if one of `news` is of the loan of `side`.
fn is_of_any(news: &[Apdu], side: &Side) -> bool
    ensures { result ≡ list_any (λ a. is_same_txn a.txn (txn_of side.now)) news.now }
{
    news.iter().any(|apdu| is_of(apdu, side))
}

/// Returns true if `apdu` is of the loan of `side`.
fn is_of(apdu: &Apdu, side: &Side) -> bool
    ensures { result ≡ is_same_txn apdu.now.txn (txn_of side.now) }
{
    apdu.txn == *side.txn()
}

/// Appends the lines of the news of `annex` that came to the loan of `side`, if news are printed.
pub(crate) fn push_listed_news(
    lines: &mut Vec<u8>,
    annex: &Annex,
    side: &Side,
) -> Result<(), OutOfMemory>
    ensures { OnOk result (lines.new.items ≡ lines.old.items
        ++ listed_news (annex_of annex.now).news side.now) }
{
    match &annex.news {
        Some(news) => {
            let kept = news.kept_of(*lines.allocator(), side.txn())?;
            push_news_lines(lines, side, &kept)
        }
        None => Ok(()),
    }
}

/// Appends a line for each message of `kept`, in the loan of `side`.
fn push_news_lines(lines: &mut Vec<u8>, side: &Side, kept: &[Apdu]) -> Result<(), OutOfMemory>
    ensures { OnOk result (lines.new.items ≡ lines.old.items ++ flat_map (news_line side.now) kept.now) }
{
    for apdu in kept {
        push_news_line(lines, side, apdu)?;
    }
    Ok(())
}

/// Appends the line of `apdu`, in the loan of `side`.
fn push_news_line(lines: &mut Vec<u8>, side: &Side, apdu: &Apdu) -> Result<(), OutOfMemory>
    ensures { OnOk result (lines.new.items ≡ lines.old.items ++ news_line side.now apdu.now) }
{
    let words = printed_words(*lines.allocator(), side, &apdu.body)?;
    lines.extend_from_slice(b"    news ")?;
    lines.extend_from_slice(&words)?;
    lines.push(b'\n')?;
    Ok(())
}

/// Appends the field of the news of `annex` that came to the loan of `side`. It is `null` if no news are printed.
#[tactic(auto, unfolding(ill_text::specs::Json::joined))]
pub(crate) fn push_news_field(
    text: &mut Vec<u8>,
    annex: &Annex,
    side: &Side,
) -> Result<(), OutOfMemory>
    ensures { OnOk result (text.new.items ≡ text.old.items
        ++ joined member (codes ",") (listed_news_fields (annex_of annex.now).news side.now)) }
{
    push_plain(text, ",")?;
    push_label(text, "news")?;
    push_news_value(text, annex, side)
}

/// Appends an array of the news of `annex` that came to the loan of `side`, or `null` if no news are printed.
fn push_news_value(text: &mut Vec<u8>, annex: &Annex, side: &Side) -> Result<(), OutOfMemory>
    ensures { OnOk result (text.new.items ≡ text.old.items
        ++ news_value (annex_of annex.now).news side.now) }
{
    match &annex.news {
        Some(news) => {
            let kept = news.kept_of(*text.allocator(), side.txn())?;
            push_heard(text, side, &kept)
        }
        None => push_plain(text, "null"),
    }
}

/// Appends an array of the messages `kept`, in the loan of `side`.
fn push_heard(text: &mut Vec<u8>, side: &Side, kept: &[Apdu]) -> Result<(), OutOfMemory>
    ensures { OnOk result (text.new.items ≡ text.old.items ++ heard_array side.now kept.now) }
{
    push_array(text, kept, &HeardObjects { side })
}

/// The form of messages in the loan of a side as objects.
#[derive(Clone, Copy)]
struct HeardObjects<'a> {
    /// The side of the loan.
    side: &'a Side,
}

impl ItemForm<Apdu> for HeardObjects<'_> {
    ghost text_of = { λ objects apdu. heard_object objects.side.now apdu };

    fn push(&self, text: &mut Vec<u8>, apdu: &Apdu) -> Result<(), OutOfMemory> {
        push_object(text, self.side, apdu)
    }
}

/// Appends the object of `apdu`, in the loan of `side`.
fn push_object(text: &mut Vec<u8>, side: &Side, apdu: &Apdu) -> Result<(), OutOfMemory>
    ensures { OnOk result (text.new.items ≡ text.old.items ++ heard_object side.now apdu.now) }
{
    push_plain(text, "{")?;
    push_fields(text, side, apdu)?;
    push_plain(text, "}")
}

/// Appends the fields of `apdu`, in the loan of `side`.
#[tactic(auto, unfolding(ill_text::specs::Json::joined))]
fn push_fields(text: &mut Vec<u8>, side: &Side, apdu: &Apdu) -> Result<(), OutOfMemory>
    ensures { OnOk result (text.new.items ≡ text.old.items ++ joined member [] (heard_fields side.now apdu.now)) }
{
    let words = printed_words(*text.allocator(), side, &apdu.body)?;
    push_members(
        text,
        b"",
        &[
            ("number", Value::Count(apdu.number.get().into())),
            ("words", Value::Text(&words)),
        ],
    )
}
