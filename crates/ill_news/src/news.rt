//! The command `news`.

ghost use Rattle.std.specs.Prelude.{◌≡◌, [], ◌++◌, map, option_map, option_copied, IfOk, OnOk};
ghost use Rattle.std.specs.List.{flat_map};
ghost use Rattle.ill_saved.specs.ManySides.{sides_held};
ghost use Rattle.ill_text.specs.Json.{joined, member, optional, quoted, value_text};
ghost use Rattle.ill_rows.specs.Cells.{title_text};
ghost use Rattle.ill_rows.specs.Heading.{between, file_printed, gap, heading};
ghost use Rattle.ill_rows.specs.Heading.{file_fields};
ghost use Rattle.ill_news.specs.PrintedNews.{news_since, recent_of, printed_since, with_open};
ghost use Rattle.ill_beside.specs.Since.{annex_of};
ghost use Rattle.ill_rows.specs.Messages.{IsTextOf, WritesNews};
ghost use Rattle.ill_news.specs.News.{columns_of, heard_at, heard_by, last_of, named, news_counts, news_desk, news_fields, news_lines, news_object, news_objects, news_of, news_row, printed_fields, widened, with_news, words_at, words_by};
ghost use Rattle.ill_show.specs.ItemLine.{item_of};

use crate::came_since::Came;
use crate::deeds::push_deeds;
use crate::open_answers::left_open;
use crate::printed::is_printed;
use ill_beside::annex::Annex;
use ill_beside::heard::is_heard;
use ill_beside::keyed_came::KeyedCame;
use ill_beside::news_words::{news_words, printed_words};
use ill_beside::notes::Notes;
use ill_rows::cells::{column, push_cell, push_title};
use ill_rows::listed::{Listed, heading, push_file};
use ill_saved::{Desk, Side, Sides, Store};
use ill_show::objects::title;
use ill_text::fault::ToolFault;
use ill_text::form::Form;
use ill_text::input::apdus_in;
use ill_text::json::{Value, push_members, push_plain};
use ill_text::output::write_whole;
use ill_values::{Apdu, Body, Day, Number, OutOfMemory};
use itoa::Buffer;
use std::alloc::Global;
use std::io::Write;

/// The width of the column of a number.
const NUMBER: usize = 3;

/// The widths of the columns of news, except that of a number.
#[derive(Clone, Copy)]
pub(crate) struct NewsColumns {
    /// The group qualifier.
    pub group: usize,
    /// The transaction qualifier.
    pub transaction: usize,
    /// The words of the message.
    pub words: usize,
}

/// Writes a line or an object of JSON for each message in `came` that a side of `desk` has taken. Each is written
/// once, in the order in which they came. If `came` says how many, only the last ones are written. After lines it
/// writes one that counts the messages. `listed` has the form, and says if the path of the desk is written.
///
/// `came` has the bytes that `take --keep`, `inbox` and `exchange` have kept. A part that is no message, and all
/// bytes after it, are ignored. With a day, only what came since is written. Before it stand open answers of earlier
/// days. After it stand the desk's own messages that dates have made due since that day.
pub fn run_desk_news<S: Store, W: Write>(
    alloc: Global,
    desk: &Desk<S>,
    listed: &Listed<'_>,
    came: &Came<'_>,
    writer: &mut W,
) -> Result<(), ToolFault>
    ensures { WritesNews (λ apdus. between listed.now.form listed.now.is_first
        ++ news_desk listed.now.form listed.now.is_headed came.now.last listed.now.path.now (sides_held desk.now.live).sides
        (printed_since came.now.since came.now.notes.now came.now.diary.now (sides_held desk.now.live).sides apdus))
        came.now.bytes.now (W.contents writer.old) (W.contents writer.new) result }
{
    match text_of_news(alloc, desk.sides(), listed, came) {
        Ok(text) => write_whole(writer, &text),
        Err(_) => Err(ToolFault::OutOfMemory),
    }
}

/// Returns the text of the news of `sides`, by the bytes, the notes and the diary in `came`.
fn text_of_news(
    alloc: Global,
    sides: &Sides,
    listed: &Listed<'_>,
    came: &Came<'_>,
) -> Result<Vec<u8>, OutOfMemory>
    ensures { IfOk result (λ text. IsTextOf (λ apdus. between listed.now.form listed.now.is_first
        ++ news_desk listed.now.form listed.now.is_headed came.now.last listed.now.path.now sides.now.sides
        (printed_since came.now.since came.now.notes.now came.now.diary.now sides.now.sides apdus))
        came.now.bytes.now text.items) }
{
    let apdus = apdus_in(alloc, came.bytes)?;
    let news = printed_since(alloc, sides, came, &apdus)?;
    desk_text(alloc, sides, listed, came.last, &news)
}

/// Returns the news of a desk with these sides, to which `apdus` came. They are open answers, the messages that the
/// sides have taken, and what dates have made due. `came` has the notes, the diary and the day.
fn printed_since(
    alloc: Global,
    sides: &Sides,
    came: &Came<'_>,
    apdus: &[Apdu],
) -> Result<Vec<Apdu>, OutOfMemory>
    ensures { IfOk result (λ news. news.items
        ≡ printed_since came.now.since came.now.notes.now came.now.diary.now sides.now.sides apdus.now) }
{
    let recent = recent_of(alloc, sides, came, apdus)?;
    let mut news = with_open(alloc, sides, came.notes, recent, apdus)?;
    push_deeds(&mut news, came.since, came.diary, sides)?;
    Ok(news)
}

/// Returns those of the messages `apdus` that came since the day in `came`, and that the sides have taken.
fn recent_of(
    alloc: Global,
    sides: &Sides,
    came: &Came<'_>,
    apdus: &[Apdu],
) -> Result<Vec<Apdu>, OutOfMemory>
    ensures { IfOk result (λ recent. recent.items
        ≡ recent_of came.now.since came.now.diary.now sides.now.sides apdus.now) }
{
    let printed = came.printed(alloc, apdus)?;
    news_of(alloc, sides, &printed)
}

/// Returns the open answers in `came` that `sides` have taken and that `recent` lacks, and then `recent`.
fn with_open(
    alloc: Global,
    sides: &Sides,
    notes: &Notes,
    mut recent: Vec<Apdu>,
    came: &[Apdu],
) -> Result<Vec<Apdu>, OutOfMemory>
    ensures { IfOk result (λ news. news.items ≡ with_open notes.now sides.now.sides recent.items came.now) }
{
    let left = left_open(alloc, notes, &recent, came)?;
    let mut news = news_of(alloc, sides, &left)?;
    news.append(&mut recent)?;
    Ok(news)
}

/// Returns the news of a desk with these sides since a day, by `annex`. They are open answers, the messages that the
/// sides have taken since, and what dates have made due. Each is printed once. Without a day no news are printed, and
/// the result is `None`.
pub fn news_since(
    alloc: Global,
    sides: &Sides,
    annex: &Annex,
    since: Option<Day>,
) -> Result<Option<KeyedCame>, OutOfMemory>
    ensures { IfOk result (λ news. news ≡ news_since since (annex_of annex.now) sides.now.sides) }
{
    match since {
        None => Ok(None),
        Some(_) => {
            let came = Came {
                bytes: b"",
                notes: &annex.notes,
                diary: &annex.diary,
                since,
                last: None,
            };
            let printed = printed_since(alloc, sides, &came, annex.came.as_apdus())?;
            Ok(Some(KeyedCame::of(alloc, printed)?))
        }
    }
}

/// Returns the messages in `came` that a side of `sides` has taken, each once, in their order.
fn news_of(alloc: Global, sides: &Sides, came: &[&Apdu]) -> Result<Vec<Apdu>, OutOfMemory>
    ensures { IfOk result (λ news. news.items ≡ news_of sides.now.sides (map (λ a. a.now) came.now)) }
{
    let mut news = Vec::new(alloc);
    for apdu in came {
        push_new(&mut news, sides, apdu)?;
    }
    Ok(news)
}

/// Appends `apdu` to `news`, if a side of `sides` has taken it and `news` lacks it.
fn push_new(news: &mut Vec<Apdu>, sides: &Sides, apdu: &Apdu) -> Result<(), OutOfMemory>
    ensures { OnOk result (news.new.items ≡ with_news sides.now.sides news.old.items apdu.now) }
{
    let alloc = *news.allocator();
    if heard_at(sides, apdu) && !is_printed(news, apdu) {
        news.push(apdu.copy(alloc)?)?;
    }
    Ok(())
}

/// Returns true if the side of the transaction of `apdu` has taken it.
fn heard_at(sides: &Sides, apdu: &Apdu) -> bool
    ensures { result ≡ heard_at sides.now.sides apdu.now }
{
    heard_by(sides.get(&apdu.txn), apdu)
}

/// Returns true if `side` is there, and has taken `apdu`.
fn heard_by(side: Option<&Side>, apdu: &Apdu) -> bool
    ensures { result ≡ heard_by (option_copied side.entry) apdu.now }
{
    match side {
        Some(side) => is_heard(side, apdu),
        None => false,
    }
}

/// Returns the last `count` messages of `news`, or all of them without a count.
fn last_of(news: &[Apdu], count: Option<Number>) -> &[Apdu]
    ensures { result.now ≡ last_of count news.now }
{
    match count {
        None => news,
        Some(count) => &news[news.len().saturating_sub(count.get().into())..],
    }
}

/// Returns the text of a desk with `news`, of which the last `last` are shown. Without `last` all are shown.
fn desk_text(
    alloc: Global,
    sides: &Sides,
    listed: &Listed<'_>,
    last: Option<Number>,
    news: &[Apdu],
) -> Result<Vec<u8>, OutOfMemory>
    ensures { IfOk result (λ text. text.items ≡ between listed.now.form listed.now.is_first
        ++ news_desk listed.now.form listed.now.is_headed last listed.now.path.now sides.now.sides news.now) }
{
    let shown = last_of(news, last);
    match listed.form {
        Form::Lines => lines_text(alloc, sides, listed, news, shown),
        Form::Json => objects_text(alloc, sides, listed, shown),
    }
}

/// Returns the heading of a desk, and the lines of the `shown` messages of `news`.
fn lines_text(
    alloc: Global,
    sides: &Sides,
    listed: &Listed<'_>,
    news: &[Apdu],
    shown: &[Apdu],
) -> Result<Vec<u8>, OutOfMemory>
    ensures { IfOk result (λ text. text.items ≡ gap listed.now.is_first ++ (heading listed.now.is_headed listed.now.path.now
        ++ news_lines sides.now.sides news.now shown.now)) }
{
    let mut lines = heading(alloc, listed)?;
    push_lines(&mut lines, sides, news, shown)?;
    Ok(lines)
}

/// Returns the objects of the `shown` messages. Each has the path of the desk, if that is written.
fn objects_text(
    alloc: Global,
    sides: &Sides,
    listed: &Listed<'_>,
    shown: &[Apdu],
) -> Result<Vec<u8>, OutOfMemory>
    ensures { IfOk result (λ text. text.items
        ≡ news_objects (file_printed listed.now.is_headed listed.now.path.now) sides.now.sides shown.now) }
{
    let mut text = Vec::new(alloc);
    push_objects(&mut text, listed.printed(), sides, shown)?;
    Ok(text)
}

/// Appends the lines of the `shown` messages of `news`, and of the counts.
fn push_lines(
    lines: &mut Vec<u8>,
    sides: &Sides,
    news: &[Apdu],
    shown: &[Apdu],
) -> Result<(), OutOfMemory>
    ensures { OnOk result (lines.new.items ≡ lines.old.items ++ news_lines sides.now.sides news.now shown.now) }
{
    let columns = columns_of(*lines.allocator(), sides, shown)?;
    push_rows(lines, sides, &columns, shown)?;
    push_counts(lines, news.len(), shown.len())
}

/// Returns the columns that are wide enough for each of the `shown` messages.
fn columns_of(alloc: Global, sides: &Sides, shown: &[Apdu]) -> Result<NewsColumns, OutOfMemory>
    ensures { IfOk result (λ columns. columns ≡ columns_of sides.now.sides shown.now) }
{
    let mut columns = NewsColumns {
        group: 0,
        transaction: 0,
        words: 0,
    };
    for apdu in shown {
        columns = widened(alloc, sides, &columns, apdu)?;
    }
    Ok(columns)
}

/// Returns `columns`, each made as wide as the text of `apdu` in it at least.
fn widened(
    alloc: Global,
    sides: &Sides,
    columns: &NewsColumns,
    apdu: &Apdu,
) -> Result<NewsColumns, OutOfMemory>
    ensures { IfOk result (λ wide. wide ≡ widened sides.now.sides columns.now apdu.now) }
{
    let group = column(alloc, apdu.txn.group())?.len();
    let transaction = column(alloc, apdu.txn.transaction())?.len();
    let words = words_at(alloc, sides, apdu)?.len();
    Ok(NewsColumns {
        group: columns.group.max(group),
        transaction: columns.transaction.max(transaction),
        words: columns.words.max(words),
    })
}

/// Returns the words of `apdu`. Those of a refused renewal have the due date of the record in `sides`, if there is
/// one.
fn words_at(alloc: Global, sides: &Sides, apdu: &Apdu) -> Result<Vec<u8>, OutOfMemory>
    ensures { IfOk result (λ words. words.items ≡ words_at sides.now.sides apdu.now) }
{
    words_by(alloc, sides.get(&apdu.txn), &apdu.body)
}

/// Returns the words of a message with this body. If there is a `side` of its loan, a refused renewal has the due
/// date of its record.
fn words_by(alloc: Global, side: Option<&Side>, body: &Body) -> Result<Vec<u8>, OutOfMemory>
    ensures { IfOk result (λ words. words.items ≡ words_by (option_copied side.entry) body.now) }
{
    match side {
        Some(side) => printed_words(alloc, side, body),
        None => news_words(alloc, None, body),
    }
}

/// Appends a line for each of the `shown` messages.
fn push_rows(
    lines: &mut Vec<u8>,
    sides: &Sides,
    columns: &NewsColumns,
    shown: &[Apdu],
) -> Result<(), OutOfMemory>
    ensures { OnOk result (lines.new.items ≡ lines.old.items
        ++ flat_map (news_row sides.now.sides columns.now) shown.now) }
{
    for apdu in shown {
        push_row(lines, sides, columns, apdu)?;
    }
    Ok(())
}

/// Appends the line of `apdu`: its name, its words and the item of its loan.
fn push_row(
    lines: &mut Vec<u8>,
    sides: &Sides,
    columns: &NewsColumns,
    apdu: &Apdu,
) -> Result<(), OutOfMemory>
    ensures { OnOk result (lines.new.items ≡ lines.old.items ++ news_row sides.now.sides columns.now apdu.now) }
{
    push_named(lines, columns, apdu)?;
    let words = words_at(*lines.allocator(), sides, apdu)?;
    push_cell(lines, columns.words, &words)?;
    push_item(lines, sides.get(&apdu.txn))?;
    lines.push(b'\n')?;
    Ok(())
}

/// Appends the columns that name `apdu`: its transaction and its number.
#[tactic(auto, unfolding(crate::specs::News::named))]
fn push_named(lines: &mut Vec<u8>, columns: &NewsColumns, apdu: &Apdu) -> Result<(), OutOfMemory>
    ensures { OnOk result (lines.new.items ≡ lines.old.items ++ named columns.now apdu.now) }
{
    let alloc = *lines.allocator();
    lines.extend_from_slice(b"  ")?;
    push_cell(lines, columns.group, &column(alloc, apdu.txn.group())?)?;
    let transaction = column(alloc, apdu.txn.transaction())?;
    push_cell(lines, columns.transaction, &transaction)?;
    push_cell(
        lines,
        NUMBER,
        Buffer::new().format(apdu.number.get()).as_bytes(),
    )
}

/// Appends the item of the loan of `side`, or a dash if there is none.
fn push_item(lines: &mut Vec<u8>, side: Option<&Side>) -> Result<(), OutOfMemory>
    ensures { OnOk result (lines.new.items ≡ lines.old.items ++ title_text (item_of (option_copied side.entry))) }
{
    match side {
        Some(side) => push_title(lines, side),
        None => {
            lines.push(b'-')?;
            Ok(())
        }
    }
}

/// Appends the line that counts the news, and those of them that are shown.
fn push_counts(lines: &mut Vec<u8>, all: usize, shown: usize) -> Result<(), OutOfMemory>
    ensures { OnOk result (lines.new.items ≡ lines.old.items ++ news_counts all shown) }
{
    let line = format!(in *lines.allocator(); "messages {all}, shown {shown}\n")?;
    lines.extend_from_slice(line.as_bytes())?;
    Ok(())
}

/// Appends an object for each of the `shown` messages, with the path `file` of the desk, if it is given.
fn push_objects(
    text: &mut Vec<u8>,
    file: Option<&str>,
    sides: &Sides,
    shown: &[Apdu],
) -> Result<(), OutOfMemory>
    ensures { OnOk result (text.new.items ≡ text.old.items
        ++ news_objects (option_map (λ path. path.now) file.entry) sides.now.sides shown.now) }
{
    for apdu in shown {
        push_object(text, file, sides, apdu)?;
    }
    Ok(())
}

/// Appends the object of `apdu`, on a line. It has the path `file` of the desk, if it is given.
fn push_object(
    text: &mut Vec<u8>,
    file: Option<&str>,
    sides: &Sides,
    apdu: &Apdu,
) -> Result<(), OutOfMemory>
    ensures { OnOk result (text.new.items ≡ text.old.items
        ++ news_object (option_map (λ path. path.now) file.entry) sides.now.sides apdu.now) }
{
    push_plain(text, "{")?;
    push_fields_and_file(text, file, sides, apdu)?;
    push_plain(text, "}\n")
}

/// Appends the fields of `apdu`, and the path `file` of the desk, if it is given.
fn push_fields_and_file(
    text: &mut Vec<u8>,
    file: Option<&str>,
    sides: &Sides,
    apdu: &Apdu,
) -> Result<(), OutOfMemory>
    ensures { OnOk result (text.new.items ≡ text.old.items ++ joined member []
        (news_fields sides.now.sides apdu.now ++ file_fields (option_map (λ path. path.now) file.entry))) }
{
    push_fields(text, sides, apdu)?;
    push_file(text, file)
}

/// Appends the fields of `apdu`.
fn push_fields(text: &mut Vec<u8>, sides: &Sides, apdu: &Apdu) -> Result<(), OutOfMemory>
    ensures { OnOk result (text.new.items ≡ text.old.items
        ++ joined member [] (news_fields sides.now.sides apdu.now)) }
{
    let words = words_at(*text.allocator(), sides, apdu)?;
    push_printed(text, apdu, &words, sides.get(&apdu.txn))
}

/// Appends the fields of `apdu`, with its words `words` and the item of the loan of `side`.
#[tactic(auto, unfolding(ill_text::specs::Json::joined))]
fn push_printed<'a>(
    text: &mut Vec<u8>,
    apdu: &'a Apdu,
    words: &'a [u8],
    side: Option<&'a Side>,
) -> Result<(), OutOfMemory>
    ensures { OnOk result (text.new.items ≡ text.old.items
        ++ joined member [] (printed_fields (option_copied side.entry) words.now apdu.now)) }
{
    push_members(
        text,
        b"",
        &[
            ("kind", Value::Text(b"news")),
            ("group", Value::Text(apdu.txn.group())),
            ("transaction", Value::Text(apdu.txn.transaction())),
            ("number", Value::Count(apdu.number.get().into())),
            ("words", Value::Text(words)),
            ("item", item(side)),
        ],
    )
}

/// Returns the value of the item of the loan of `side`, which is missing if there is none.
fn item(side: Option<&Side>) -> Value<'_>
    ensures { value_text result ≡ optional quoted (item_of (option_copied side.entry)) }
{
    match side {
        Some(side) => title(side),
        None => Value::Missing,
    }
}
