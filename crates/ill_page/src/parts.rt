//! The markup of the pages, and the words of each form. No text here is written by a user.

ghost use Rattle.std.specs.Prelude.{◌≡◌};
ghost use Rattle.ill_page.specs.Parts.{after, before, has_day, inputs_of, meaning};

use crate::words::{
    BARE, DENY, DUE, DUE_END, GRANT, GRANT_END, RESULT, TO_ANSWER, TO_CANCEL, TO_CANCEL_REPLY,
    TO_CHECK_IN, TO_EXPIRE, TO_OVERDUE, TO_RECALL, TO_RECEIVE, TO_RENEW, TO_RENEW_ANSWER, TO_REPLY,
    TO_REQUEST, TO_RETURN, TO_SHIP, WISHED, YES_NO,
};
use ill_core::Verb;

/// The text before the fields of a form.
pub(crate) const FORM: &str = "<form method=\"post\" action=\"?\">";

/// The text after the inputs of a form.
pub(crate) const FORM_END: &str = "</fieldset></form>\n";

/// The text before the name of a field that a browser sends unseen.
pub(crate) const HIDDEN: &str = "<input type=\"hidden\" name=\"";

/// The text between the name of an unseen field and its value.
pub(crate) const VALUE: &str = "\" value=\"";

/// The text after the value of an unseen field.
pub(crate) const HIDDEN_END: &str = "\">";

/// The text before the purpose of a form.
pub(crate) const PURPOSE: &str = "<fieldset><legend>";

/// The text after the purpose of a form.
pub(crate) const PURPOSE_END: &str = "</legend>";

/// The rules of style that pages with forms have beside those of a report.
pub(crate) const STYLE: &str = "\
a { color: var(--mark) }
nav { margin: .5rem 0 }
form, fieldset { display: flex; flex-wrap: wrap; align-items: end; gap: .5rem; margin: 1rem 0 }
fieldset { width: 100%; min-width: 0; margin: 0; padding: 0; border: 0 }
legend { margin-bottom: .25rem; padding: 0; font-weight: bold }
label { display: block; max-width: 100% }
label input, label select { display: block }
input, select, button { max-width: 100%; min-height: 2.5rem; padding: .375rem .5rem; font: inherit }
input, select, button { border: 1px solid var(--quiet); border-radius: .25rem; color: inherit; background: var(--page) }
button { cursor: pointer; font-weight: bold; color: var(--mark); border-color: var(--mark) }
summary { margin-top: 1rem; cursor: pointer; color: var(--mark) }
:focus-visible { outline: 3px solid var(--mark); outline-offset: 2px }
[role=alert] { margin: 1rem 0; padding: .75rem; border: 2px solid var(--fault) }
pre { overflow-wrap: anywhere; white-space: pre-wrap; font: .9375rem/1.4 ui-monospace, monospace }
@media (max-width: 24rem) { pre { font-size: .8125rem } }
@media print {
  form, details, nav, .now { display: none }
  a { text-decoration: none }
}
";

/// The text after the file of the desk, before the form of a new loan.
pub(crate) const BEGUN: &str = "</bdi></summary>\n";

/// The text after the figures.
pub(crate) const COUNTED_END: &str = "</pre>\n</section>\n";

/// The text before a notice.
pub(crate) const ALERT: &str = "<p role=\"alert\"><strong>";

/// The text after a notice.
pub(crate) const ALERT_END: &str = "</strong></p>\n";

/// The text before the title of a loan.
pub(crate) const LOAN: &str = "<section>\n<h2 dir=\"auto\">";

/// The text after the title of a loan, before its state.
pub(crate) const STATE: &str = "</h2>\n<p>";

/// The text after the lines of what is known of a loan.
pub(crate) const KNOWN_END: &str = "</pre>\n</section>\n";

/// The text after the content of each page.
pub(crate) const END: &str = "</body>\n</html>\n";

/// The text before the URL of the slip of a loan.
pub(crate) const SLIP: &str = "<p><a href=\"";

/// The inputs of a form of an action.
#[derive(Clone, Copy)]
pub(crate) enum Inputs {
    /// A button that confirms the action.
    Bare,
    /// A button for yes, and one for no.
    YesNo,
    /// The day until which an item is wished.
    Wished,
    /// The day on which an item is due.
    Due,
    /// A new due date, and a button for yes.
    Grant,
    /// A button for no.
    Deny,
    /// A choice among the results of a request.
    Result,
}

impl Inputs {
    /// Returns the text of the inputs before the day that is proposed. If none is proposed, it is their whole text.
    pub(crate) fn before(self) -> &'static str
        ensures { result.now ≡ before self }
    {
        match self {
            Inputs::Bare => BARE,
            Inputs::YesNo => YES_NO,
            Inputs::Wished => WISHED,
            Inputs::Due => DUE,
            Inputs::Grant => GRANT,
            Inputs::Deny => DENY,
            Inputs::Result => RESULT,
        }
    }

    /// Returns true if a day is proposed.
    pub(crate) fn has_day(self) -> bool
        ensures { result ≡ has_day self }
    {
        matches!(self, Inputs::Due | Inputs::Grant)
    }

    /// Returns the text of the inputs after the day that is proposed. If none is proposed, it is empty.
    pub(crate) fn after(self) -> &'static str
        ensures { result.now ≡ after self }
    {
        match self {
            Inputs::Due => DUE_END,
            Inputs::Grant => GRANT_END,
            _ => "",
        }
    }
}

/// Returns the inputs of each form of `verb`. Each form names an action of this verb, with all that it wants. A request
/// has its own form.
pub(crate) fn inputs_of(verb: Verb) -> &'static [Inputs]
    ensures { result.now ≡ inputs_of verb }
{
    match verb {
        Verb::Request => &[],
        Verb::Reply | Verb::CancelReply => &[Inputs::YesNo],
        Verb::Renew => &[Inputs::Wished],
        Verb::Answer => &[Inputs::Result],
        Verb::Ship => &[Inputs::Due],
        Verb::RenewAnswer => &[Inputs::Grant, Inputs::Deny],
        Verb::Cancel
        | Verb::Receive
        | Verb::Return
        | Verb::Overdue
        | Verb::Recall
        | Verb::CheckIn
        | Verb::Expire => &[Inputs::Bare],
    }
}

/// Returns the text that tells people what an action of `verb` means.
pub(crate) fn meaning(verb: Verb) -> &'static str
    ensures { result.now ≡ meaning verb }
{
    match verb {
        Verb::Request => TO_REQUEST,
        Verb::Cancel => TO_CANCEL,
        Verb::Reply => TO_REPLY,
        Verb::Receive => TO_RECEIVE,
        Verb::Renew => TO_RENEW,
        Verb::Return => TO_RETURN,
        Verb::Answer => TO_ANSWER,
        Verb::CancelReply => TO_CANCEL_REPLY,
        Verb::Ship => TO_SHIP,
        Verb::RenewAnswer => TO_RENEW_ANSWER,
        Verb::Overdue => TO_OVERDUE,
        Verb::Recall => TO_RECALL,
        Verb::CheckIn => TO_CHECK_IN,
        Verb::Expire => TO_EXPIRE,
    }
}
