//! The objects that `list` writes with `--json`.

ghost use Rattle.std.specs.Prelude.{◌≡◌, [], ◌++◌, map, option_map, codes, OnOk};
ghost use Rattle.ill_text.specs.Json.{joined, member};
ghost use Rattle.ill_show.specs.Objects.{names_of};
ghost use Rattle.ill_list.specs.ListObjects.{kind_fields, listed_fields, counts_fields, counts_object, dated_fields, full_row_fields, noted_fields, row_fields, row_object};
ghost use Rattle.ill_rows.specs.Heading.{file_fields};
ghost use Rattle.ill_beside.specs.Since.{annex_of};

use crate::counts::Counts;
use crate::listed_news::push_news_field;
use ill_beside::annex::Annex;
use ill_beside::notes::{Notes, push_note_field};
use ill_beside::since::{push_since_field, since_of};
use ill_rows::listed::push_file;
use ill_saved::Side;
use ill_show::objects::title;
use ill_text::json::{Value, push_members, push_plain};
use ill_values::{Day, OutOfMemory};
use ill_words::names::names;
use ill_words::possible::possible_on;
use ill_work::Work;

/// The path of the desk of a list, if its objects have it, and the annex of the desk.
#[derive(Clone, Copy)]
pub(crate) struct RowObjects<'a> {
    /// The path.
    pub file: Option<&'a str>,
    /// The annex.
    pub annex: &'a Annex,
}

/// Appends the object of the loan of `side` with this work on the day `today`, with its note, its day and its news,
/// on a line. It has the path of the desk, if it is given.
#[tactic(auto, unfolding(crate::specs::ListObjects::row_object))]
pub(crate) fn push_row_object(
    text: &mut Vec<u8>,
    rows: &RowObjects<'_>,
    today: Option<Day>,
    work: Work,
    side: &Side,
) -> Result<(), OutOfMemory>
    ensures { OnOk result (text.new.items ≡ text.old.items
        ++ row_object (option_map (λ path. path.now) rows.now.file) (annex_of rows.now.annex.now) today work side.now) }
{
    push_plain(text, "{")?;
    push_row_and_file(text, rows, today, work, side)?;
    push_plain(text, "}\n")
}

/// Appends the fields that `push_full_row` appends, and the path of the desk, if it is given.
fn push_row_and_file(
    text: &mut Vec<u8>,
    rows: &RowObjects<'_>,
    today: Option<Day>,
    work: Work,
    side: &Side,
) -> Result<(), OutOfMemory>
    ensures { OnOk result (text.new.items ≡ text.old.items
        ++ joined member [] (full_row_fields (annex_of rows.now.annex.now) today work side.now ++ file_fields (option_map (λ path. path.now) rows.now.file))) }
{
    push_full_row(text, rows.annex, today, work, side)?;
    push_file(text, rows.file)
}

/// Appends the fields that `push_dated_fields` appends, and the field of the news of the loan.
fn push_full_row(
    text: &mut Vec<u8>,
    annex: &Annex,
    today: Option<Day>,
    work: Work,
    side: &Side,
) -> Result<(), OutOfMemory>
    ensures { OnOk result (text.new.items ≡ text.old.items
        ++ joined member [] (full_row_fields (annex_of annex.now) today work side.now)) }
{
    push_dated_fields(text, annex, today, work, side)?;
    push_news_field(text, annex, side)
}

/// Appends the fields that `push_noted_fields` appends, and the field of the day since which the loan stands as it
/// does.
fn push_dated_fields(
    text: &mut Vec<u8>,
    annex: &Annex,
    today: Option<Day>,
    work: Work,
    side: &Side,
) -> Result<(), OutOfMemory>
    ensures { OnOk result (text.new.items ≡ text.old.items
        ++ joined member [] (dated_fields (annex_of annex.now) today work side.now)) }
{
    let since = since_of(*text.allocator(), annex, side)?;
    push_noted_fields(text, &annex.notes, today, work, side)?;
    push_since_field(text, since)
}

/// Appends the fields that `push_row_fields` appends, and the field of the note on the loan.
fn push_noted_fields(
    text: &mut Vec<u8>,
    notes: &Notes,
    today: Option<Day>,
    work: Work,
    side: &Side,
) -> Result<(), OutOfMemory>
    ensures { OnOk result (text.new.items ≡ text.old.items
        ++ joined member [] (noted_fields notes.now today work side.now)) }
{
    let note = notes.note_of(side.txn())?;
    push_row_fields(text, today, work, side)?;
    push_note_field(text, note)
}

/// Appends the fields of the loan of `side` with this work, and with its actions on the day `today`.
fn push_row_fields(
    text: &mut Vec<u8>,
    today: Option<Day>,
    work: Work,
    side: &Side,
) -> Result<(), OutOfMemory>
    ensures { OnOk result (text.new.items ≡ text.old.items
        ++ joined member [] (row_fields work side.now (names_of today side.now))) }
{
    let alloc = *text.allocator();
    let names = names(alloc, &possible_on(alloc, today, side)?)?;
    push_row_with(text, work, side, &names)
}

/// Appends the fields of the loan of `side` with this work, and with the actions `names`.
fn push_row_with<'a>(
    text: &mut Vec<u8>,
    work: Work,
    side: &'a Side,
    names: &'a [&'a str],
) -> Result<(), OutOfMemory>
    ensures { OnOk result (text.new.items ≡ text.old.items
        ++ joined member [] (row_fields work side.now (map (λ name. name.now) names.now))) }
{
    push_kind(text, work)?;
    push_listed_fields(text, side, names)
}

/// Appends the field that says that a line is of a loan, and the field of its work.
#[tactic(auto, unfolding(ill_text::specs::Json::joined))]
fn push_kind(text: &mut Vec<u8>, work: Work) -> Result<(), OutOfMemory>
    ensures { OnOk result (text.new.items ≡ text.old.items ++ joined member [] (kind_fields work)) }
{
    push_members(
        text,
        b"",
        &[
            ("kind", Value::Text(b"loan")),
            ("work", Value::Text(work.words().as_bytes())),
        ],
    )
}

/// Appends the fields of the loan of `side`: its state, due date, qualifiers and item, and the actions `names`.
#[tactic(auto, unfolding(ill_text::specs::Json::joined))]
fn push_listed_fields<'a>(
    text: &mut Vec<u8>,
    side: &'a Side,
    names: &'a [&'a str],
) -> Result<(), OutOfMemory>
    ensures { OnOk result (text.new.items ≡ text.old.items
        ++ joined member (codes ",") (listed_fields side.now (map (λ name. name.now) names.now))) }
{
    push_members(
        text,
        b",",
        &[
            ("state", Value::Text(side.state().name().as_bytes())),
            ("due", Value::day(side.due())),
            ("group", Value::Text(side.txn().group())),
            ("transaction", Value::Text(side.txn().transaction())),
            ("now", Value::Words(names)),
            ("item", title(side)),
        ],
    )
}

/// Appends the object of `counts`, on a line. It has the path `file` of the desk, if it is given.
pub(crate) fn push_counts_object(
    text: &mut Vec<u8>,
    file: Option<&str>,
    counts: &Counts,
) -> Result<(), OutOfMemory>
    ensures { OnOk result (text.new.items ≡ text.old.items
        ++ counts_object (option_map (λ path. path.now) file.entry) counts.now) }
{
    push_plain(text, "{")?;
    push_counts_and_file(text, file, counts)?;
    push_plain(text, "}\n")
}

/// Appends the fields of `counts`, and the path `file` of the desk, if it is given.
fn push_counts_and_file(
    text: &mut Vec<u8>,
    file: Option<&str>,
    counts: &Counts,
) -> Result<(), OutOfMemory>
    ensures { OnOk result (text.new.items ≡ text.old.items
        ++ joined member [] (counts_fields counts.now ++ file_fields (option_map (λ path. path.now) file.entry))) }
{
    push_counts_fields(text, counts)?;
    push_file(text, file)
}

/// Appends the fields of `counts`.
#[tactic(auto, unfolding(ill_text::specs::Json::joined))]
fn push_counts_fields(text: &mut Vec<u8>, counts: &Counts) -> Result<(), OutOfMemory>
    ensures { OnOk result (text.new.items ≡ text.old.items
        ++ joined member [] (counts_fields counts.now)) }
{
    push_members(
        text,
        b"",
        &[
            ("kind", Value::Text("counts".as_bytes())),
            ("loans", Value::Count(counts.loans)),
            ("open", Value::Count(counts.open_loans)),
            ("todo", Value::Count(counts.to_do)),
            ("room", Value::Count(counts.room)),
        ],
    )
}
