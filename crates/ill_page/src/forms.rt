//! The forms of what may be done with a loan.

ghost use Rattle.std.specs.Prelude.{◌≡◌, ◌++◌, OnOk};
ghost use Rattle.ill_report.specs.Link.{place_shown};
ghost use Rattle.ill_page.specs.Forms.{act_fields, day_proposed, form_text, form_shown, forms_text, hidden_text, inputs_text, loan_fields, note_text, shown_text, verb_text};

use crate::parts::{
    FORM, FORM_END, HIDDEN, HIDDEN_END, Inputs, PURPOSE, PURPOSE_END, VALUE, inputs_of, meaning,
};
use crate::words::NOTE;
use ill_core::Verb;
use ill_report::link::Place;
use ill_text::html::push_html;
use ill_text::json::push_plain;
use ill_values::{Day, OutOfMemory};

/// The number of days after which an item is due, unless staff say otherwise.
pub(crate) const LOAN_DAYS: u32 = 28;

/// What all forms of a loan have: the loan, its stamp, and the day of the page.
#[derive(Clone, Copy)]
pub(crate) struct FormView<'a> {
    /// The loan.
    pub place: Place<'a>,
    /// The stamp of the loan.
    pub stamp: &'a str,
    /// The day of the page.
    pub today: Day,
}

/// Appends the forms of `verbs`, for the loan of `view`.
pub(crate) fn push_forms(
    page: &mut Vec<u8>,
    view: &FormView<'_>,
    verbs: &[Verb],
) -> Result<(), OutOfMemory>
    ensures { OnOk result (page.new.items ≡ page.old.items ++ forms_text (form_shown view.now) verbs.now) }
{
    for verb in verbs {
        push_verb(page, view, *verb)?;
    }
    Ok(())
}

/// Appends the forms of `verb`.
fn push_verb(page: &mut Vec<u8>, view: &FormView<'_>, verb: Verb) -> Result<(), OutOfMemory>
    ensures { OnOk result (page.new.items ≡ page.old.items ++ verb_text (form_shown view.now) verb) }
{
    for inputs in inputs_of(verb) {
        push_form(page, view, verb, *inputs)?;
    }
    Ok(())
}

/// Appends a form of `verb` with these inputs.
#[tactic(auto, unfolding(crate::specs::Forms::form_text))]
fn push_form(
    page: &mut Vec<u8>,
    view: &FormView<'_>,
    verb: Verb,
    inputs: Inputs,
) -> Result<(), OutOfMemory>
    ensures { OnOk result (page.new.items
        ≡ page.old.items ++ form_text (form_shown view.now) verb inputs) }
{
    push_plain(page, FORM)?;
    push_loan(page, &view.place)?;
    push_act(page, view.stamp, verb)?;
    push_shown(page, view.today, verb, inputs)
}

/// Appends the form of a note on the loan at `place`.
#[tactic(auto, unfolding(crate::specs::Forms::note_text))]
pub(crate) fn push_note(page: &mut Vec<u8>, place: &Place<'_>) -> Result<(), OutOfMemory>
    ensures { OnOk result (page.new.items ≡ page.old.items ++ note_text (place_shown place.now)) }
{
    push_plain(page, FORM)?;
    push_loan(page, place)?;
    push_plain(page, NOTE)?;
    push_plain(page, FORM_END)
}

/// Appends the fields that name a loan.
#[tactic(auto, unfolding(crate::specs::Forms::loan_fields))]
fn push_loan(page: &mut Vec<u8>, place: &Place<'_>) -> Result<(), OutOfMemory>
    ensures { OnOk result (page.new.items ≡ page.old.items ++ loan_fields (place_shown place.now)) }
{
    push_hidden(page, "desk", place.desk.as_bytes())?;
    push_hidden(page, "group", place.txn.group())?;
    push_hidden(page, "transaction", place.txn.transaction())
}

/// Appends the fields with the stamp of a loan, and the verb of an action.
#[tactic(auto, unfolding(crate::specs::Forms::act_fields))]
pub(crate) fn push_act(page: &mut Vec<u8>, stamp: &str, verb: Verb) -> Result<(), OutOfMemory>
    ensures { OnOk result (page.new.items ≡ page.old.items ++ act_fields stamp.now verb) }
{
    push_hidden(page, "stamp", stamp.as_bytes())?;
    push_hidden(page, "word", verb.name().as_bytes())
}

/// Appends the field with this name and value, which a browser sends unseen.
#[tactic(auto, unfolding(crate::specs::Forms::hidden_text))]
pub(crate) fn push_hidden(page: &mut Vec<u8>, name: &str, value: &[u8]) -> Result<(), OutOfMemory>
    ensures { OnOk result (page.new.items ≡ page.old.items ++ hidden_text name.now value.now) }
{
    push_plain(page, HIDDEN)?;
    push_plain(page, name)?;
    push_plain(page, VALUE)?;
    push_html(page, value)?;
    push_plain(page, HIDDEN_END)
}

/// Appends what a form of `verb` shows: its purpose, its inputs and its end.
#[tactic(auto, unfolding(crate::specs::Forms::shown_text))]
fn push_shown(page: &mut Vec<u8>, today: Day, verb: Verb, inputs: Inputs) -> Result<(), OutOfMemory>
    ensures { OnOk result (page.new.items ≡ page.old.items ++ shown_text today verb inputs) }
{
    push_plain(page, PURPOSE)?;
    push_plain(page, meaning(verb))?;
    push_plain(page, PURPOSE_END)?;
    push_inputs(page, today, inputs)?;
    push_plain(page, FORM_END)
}

/// Appends inputs, with the day that is proposed on the day `today`.
#[tactic(auto, unfolding(crate::specs::Forms::inputs_text))]
fn push_inputs(page: &mut Vec<u8>, today: Day, inputs: Inputs) -> Result<(), OutOfMemory>
    ensures { OnOk result (page.new.items ≡ page.old.items ++ inputs_text today inputs) }
{
    push_plain(page, inputs.before())?;
    push_proposal(page, today, inputs.has_day())?;
    push_plain(page, inputs.after())
}

/// Appends the day that is proposed on the day `today`, if `has_day` is set and the calendar has it.
fn push_proposal(page: &mut Vec<u8>, today: Day, has_day: bool) -> Result<(), OutOfMemory>
    ensures { OnOk result (page.new.items ≡ page.old.items ++ day_proposed today has_day) }
{
    if !has_day {
        return Ok(());
    }
    if let Ok(day) = today.after(LOAN_DAYS) {
        page.extend_from_slice(&day.iso())?;
    }
    Ok(())
}
