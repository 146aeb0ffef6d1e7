//! What a browser asks for, read from a request.

ghost use Rattle.std.specs.Prelude.{◌≡◌, codes, map};
ghost use Rattle.std.specs.Result.{result_ok};
ghost use Rattle.ill_values.specs.TxnId.{txn_id_of};
ghost use Rattle.ill_browser.specs.Fields.{field_shown, only_named};
ghost use Rattle.ill_browser.specs.Visit.{body_size, rules_shown, visit_shown};
ghost use Rattle.ill_browser.specs.Wanted.{Answers, Reads, ReadsNamed, act_named, asked_by, day_named, figures_named, found_named, is_slip, loan_asked, loan_named, slip_or_figures, asked_by_query, note_named, or_fields, asked_by_form, slip_named, wanted_of};

use crate::body::read_body;
use crate::fault::VisitFault;
use crate::field::{Field, are_named, only, read_fields, words};
use crate::visit::{Rules, Visit, body_size, is_look};
use ill_days::read_day;
use ill_values::{Day, TextFault, TxnId};
use std::alloc::Global;
use std::io::Read;

/// What a browser asks for.
#[derive(Drop)]
pub enum Wanted {
    /// The page of the desks.
    Desks {
        /// The words that the loans on it have. Without words all loans are on it.
        find: Option<String>,
    },
    /// The page of one loan.
    Loan(LoanName),
    /// The slip of one loan.
    Slip(LoanName),
    /// The figures of some days. The last of them may be before the first.
    Figures {
        /// The first day.
        from: Day,
        /// The last day.
        to: Day,
    },
    /// One act in a loan, as a form has it.
    Act {
        /// The loan.
        loan: LoanName,
        /// The stamp that the loan had on the page with the form.
        stamp: Vec<u8>,
        /// The words of the act. A title is one word with its spaces.
        words: Vec<Vec<u8>>,
    },
    /// One note on a loan, as a form has it.
    Note {
        /// The loan.
        loan: LoanName,
        /// The text of the note.
        note: String,
    },
}

/// A loan, and the text that names its desk.
#[derive(Drop)]
pub struct LoanName {
    /// The text for its desk.
    pub desk: Vec<u8>,
    /// The transaction of the loan.
    pub txn: TxnId,
}

/// The names of the fields in a query that finds loans.
const FIND_NAMES: [&str; 1] = ["find"];

/// The names of the fields in the query of a loan.
const LOAN_NAMES: [&str; 3] = ["desk", "group", "transaction"];

/// The names of the fields in the query of a slip.
const SLIP_NAMES: [&str; 4] = ["desk", "group", "transaction", "page"];

/// The names of the fields in the query of figures.
const FIGURES_NAMES: [&str; 2] = ["from", "to"];

/// The names of the fields in the form of an act.
const ACT_NAMES: [&str; 6] = ["desk", "group", "transaction", "stamp", "word", "day"];

/// The names of the fields in the form of a note.
const NOTE_NAMES: [&str; 4] = ["desk", "group", "transaction", "note"];

/// Reads what a request asks for. If `body_size` refuses it, nothing is read from `reader`. Else exactly its body is
/// read, unless that breaks off.
pub fn read_wanted<R: Read>(
    alloc: Global,
    rules: &Rules<'_>,
    visit: &Visit<'_>,
    reader: &mut R,
) -> Result<Wanted, VisitFault>
    ensures { Answers (body_size (rules_shown rules.now) (visit_shown visit.now))
        (wanted_of (rules_shown rules.now) (visit_shown visit.now))
        (R.remaining reader.old) (R.remaining reader.new) result }
{
    match body_size(rules, visit) {
        Ok(size) => {
            let body = read_body(alloc, size, reader)?;
            asked_by(alloc, visit, &body)
        }
        Err(refusal) => Err(refusal),
    }
}

/// Reads what a request with this body asks for, by its fields alone.
#[tactic(auto, unfolding(crate::specs::Wanted::asked_by))]
fn asked_by(alloc: Global, visit: &Visit<'_>, body: &[u8]) -> Result<Wanted, VisitFault>
    ensures { Reads (asked_by (visit_shown visit.now) body.now) result }
{
    if is_look(visit) {
        looked(alloc, &read_fields(alloc, visit.query.as_bytes())?)
    } else if visit.query.is_empty() {
        posted(alloc, &read_fields(alloc, body)?)
    } else {
        Err(VisitFault::Fields)
    }
}

/// Reads the page that the fields of a query ask for.
fn looked(alloc: Global, fields: &[Field<'_>]) -> Result<Wanted, VisitFault>
    ensures { Reads (asked_by_query (map field_shown fields.now)) result }
{
    if fields.is_empty() {
        Ok(Wanted::Desks { find: None })
    } else if are_named(fields, &FIND_NAMES) {
        found(alloc, fields)
    } else if are_named(fields, &LOAN_NAMES) {
        Ok(Wanted::Loan(loan(alloc, fields)?))
    } else {
        slip_or_figures(alloc, fields)
    }
}

/// Reads the slip or the figures that the fields of a query ask for.
fn slip_or_figures(alloc: Global, fields: &[Field<'_>]) -> Result<Wanted, VisitFault>
    ensures { Reads (slip_or_figures (map field_shown fields.now)) result }
{
    if are_named(fields, &SLIP_NAMES) {
        slip(alloc, fields)
    } else if are_named(fields, &FIGURES_NAMES) {
        figures(fields)
    } else {
        Err(VisitFault::Fields)
    }
}

/// Reads the page of the loans with the words that the fields name. Refuses other fields with `Fields`.
fn found(alloc: Global, fields: &[Field<'_>]) -> Result<Wanted, VisitFault>
    ensures { Reads (or_fields (found_named (map field_shown fields.now))) result }
{
    let Some(words) = only(fields, "find") else {
        return Err(VisitFault::Fields);
    };
    let find = Some(String::from_str(alloc, words)?);
    Ok(Wanted::Desks { find })
}

/// Reads the slip that the fields name. Refuses fields that name none with `Fields`.
fn slip(alloc: Global, fields: &[Field<'_>]) -> Result<Wanted, VisitFault>
    ensures { Reads (or_fields (slip_named (map field_shown fields.now))) result }
{
    if is_slip(fields) {
        Ok(Wanted::Slip(loan(alloc, fields)?))
    } else {
        Err(VisitFault::Fields)
    }
}

/// Returns true if the page that the fields name is the slip.
fn is_slip(fields: &[Field<'_>]) -> bool
    ensures { result ≡ is_slip (only_named (codes "page") (map field_shown fields.now)) }
{
    match only(fields, "page") {
        Some(page) => page == "slip",
        None => false,
    }
}

/// Reads the figures that the fields name. Refuses fields that do not name two days with `Fields`.
fn figures(fields: &[Field<'_>]) -> Result<Wanted, VisitFault>
    ensures { Reads (or_fields (figures_named (map field_shown fields.now))) result }
{
    let from = day(fields, "from")?;
    let to = day(fields, "to")?;
    Ok(Wanted::Figures { from, to })
}

/// Reads the day in the only field with this name. If there is no such field, or it has no day, the fault is `Fields`.
fn day(fields: &[Field<'_>], name: &str) -> Result<Day, VisitFault>
    ensures { ReadsNamed (λ day. day) (day_named name.now (map field_shown fields.now)) result }
{
    let Some(text) = only(fields, name) else {
        return Err(VisitFault::Fields);
    };
    match read_day(text.as_bytes()) {
        Ok(day) => Ok(day),
        Err(_) => Err(VisitFault::Fields),
    }
}

/// Reads the act or the note that the fields of a form ask for. Refuses fields that ask for neither with `Fields`.
fn posted(alloc: Global, fields: &[Field<'_>]) -> Result<Wanted, VisitFault>
    ensures { Reads (asked_by_form (map field_shown fields.now)) result }
{
    if are_named(fields, &ACT_NAMES) {
        act(alloc, fields)
    } else if are_named(fields, &NOTE_NAMES) {
        note(alloc, fields)
    } else {
        Err(VisitFault::Fields)
    }
}

/// Reads the note that the fields name. Refuses fields that name none with `Fields`.
fn note(alloc: Global, fields: &[Field<'_>]) -> Result<Wanted, VisitFault>
    ensures { Reads (or_fields (note_named (map field_shown fields.now))) result }
{
    let loan = loan(alloc, fields)?;
    let Some(note) = only(fields, "note") else {
        return Err(VisitFault::Fields);
    };
    let note = String::from_str(alloc, note)?;
    Ok(Wanted::Note { loan, note })
}

/// Reads the act that the fields name. Refuses fields that name none with `Fields`.
fn act(alloc: Global, fields: &[Field<'_>]) -> Result<Wanted, VisitFault>
    ensures { Reads (or_fields (act_named (map field_shown fields.now))) result }
{
    let loan = loan(alloc, fields)?;
    let Some(stamp) = only(fields, "stamp") else {
        return Err(VisitFault::Fields);
    };
    let stamp = Vec::from_slice(alloc, stamp.as_bytes())?;
    let words = words(alloc, fields)?;
    Ok(Wanted::Act { loan, stamp, words })
}

/// Reads the loan that the fields name. Refuses fields that name none with `Fields`.
fn loan(alloc: Global, fields: &[Field<'_>]) -> Result<LoanName, VisitFault>
    ensures { ReadsNamed loan_asked (loan_named (map field_shown fields.now)) result }
{
    let Some(desk) = only(fields, "desk") else {
        return Err(VisitFault::Fields);
    };
    let (Some(group), Some(transaction)) = (only(fields, "group"), only(fields, "transaction"))
    else {
        return Err(VisitFault::Fields);
    };
    let txn = txn(alloc, group.as_bytes(), transaction.as_bytes())?;
    Ok(LoanName {
        desk: Vec::from_slice(alloc, desk.as_bytes())?,
        txn,
    })
}

/// Returns the transaction with these qualifiers. If a text is no qualifier, the fault is `Fields`.
fn txn(alloc: Global, group: &[u8], transaction: &[u8]) -> Result<TxnId, VisitFault>
    ensures { ReadsNamed (λ txn. txn) (result_ok (txn_id_of group.now transaction.now)) result }
{
    match TxnId::new(alloc, group, transaction) {
        Ok(txn) => Ok(txn),
        Err(TextFault::OutOfMemory) => Err(VisitFault::OutOfMemory),
        Err(_) => Err(VisitFault::Fields),
    }
}
