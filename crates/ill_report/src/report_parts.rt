//! The parts of the page of `ill report`: its constant texts, and the fields of a loan between them. No text here is
//! written by a user.

ghost use Rattle.std.specs.Prelude.{◌≡◌};
ghost use Rattle.ill_report.specs.Report.{after, before, heading};

use ill_work::Work;

/// A field of a loan. The group and the transaction share a cell of its row.
#[derive(Clone, Copy)]
pub(crate) enum Field {
    /// The item that is asked for, and below it the note on the loan.
    Title,
    /// The group qualifier.
    Group,
    /// The transaction qualifier.
    Transaction,
    /// The state, in words, the day since which the loan has it, and the news of the loan.
    State,
    /// The due date, or else the expiry date of the request.
    Deadline,
    /// The actions that this library may do.
    Actions,
}

/// The fields of a loan, in the order of its row.
pub(crate) const ROW: [Field; 6] = [
    Field::Title,
    Field::Group,
    Field::Transaction,
    Field::State,
    Field::Deadline,
    Field::Actions,
];

impl Field {
    /// Returns the text before the field.
    pub(crate) fn before(self) -> &'static str
        ensures { result.now ≡ before self }
    {
        match self {
            Field::Title => "<tr><th scope=\"row\" dir=\"auto\">",
            Field::Group => "<td><bdi>",
            Field::Transaction => "<bdi>",
            Field::State | Field::Deadline | Field::Actions => "<td>",
        }
    }

    /// Returns the text after the field.
    pub(crate) fn after(self) -> &'static str
        ensures { result.now ≡ after self }
    {
        match self {
            Field::Title => "</th>",
            Field::Group => "</bdi> ",
            Field::Transaction => "</bdi></td>",
            Field::State | Field::Deadline => "</td>",
            Field::Actions => "</td></tr>\n",
        }
    }
}

/// Returns the text before the words of a kind of work. It marks work that wants a hand.
pub(crate) fn heading(work: Work) -> &'static str
    ensures { result.now ≡ heading work }
{
    if work.wants_a_hand() { TASK } else { HEADING }
}

/// The text of a page up to the rules of its style, which all pages have.
pub(crate) const PAGE: &str = "\
<!DOCTYPE html>
<html lang=\"en\">
<head>
<meta charset=\"utf-8\">
<meta name=\"viewport\" content=\"width=device-width, initial-scale=1\">
<meta http-equiv=\"Content-Security-Policy\" content=\"default-src 'none'; style-src 'unsafe-inline'\">
<title>Loans</title>
<style>
:root { color-scheme: light dark; --page: #fff; --text: #1a1a1a; --quiet: #505050; --rule: #d0d0d0 }
:root { --mark: #0b4f9c; --fault: #a3130c }
@media (prefers-color-scheme: dark) {
  :root { --page: #151515; --text: #eee; --quiet: #bbb; --rule: #444; --mark: #8ab8ff; --fault: #ff9a8f }
}
* { box-sizing: border-box }
body { max-width: 76rem; margin: 0 auto; padding: 1rem; font: 1rem/1.4 system-ui, sans-serif }
body { color: var(--text); background: var(--page); overflow-wrap: anywhere }
h1, h2, h3 { margin: 0; line-height: 1.25 }
h1 { font-size: 1.625rem }
h2 { margin-top: 2rem; font-size: 1.375rem; text-align: left }
h3 { margin: 1.75rem 0 .25rem; font-size: 1.125rem }
h3::first-letter { text-transform: uppercase }
h3.task { color: var(--mark) }
p { margin: .25rem 0 0 }
strong { color: var(--fault) }
table { width: 100%; table-layout: fixed; border-collapse: collapse }
tr { border-bottom: 1px solid var(--rule) }
th, td { padding: .25rem .75rem .25rem 0; text-align: left; vertical-align: top }
thead th { width: 13%; color: var(--quiet); font-size: .875rem; font-weight: normal }
thead th:nth-child(1) { width: 26% }
thead th:nth-child(2) { width: 15% }
thead th:nth-child(3) { width: 32% }
thead th:nth-child(4) { width: 14% }
small { display: block; font-weight: normal }
bdi:first-child { margin-right: .25rem }
bdi + bdi { font-weight: bold }
time { white-space: nowrap }
code { margin-right: .5rem; font-family: ui-monospace, monospace }
@media screen and (max-width: 48rem) {
  thead { display: none }
  table, tbody, tr, th, td { display: block }
  tr { padding: .5rem 0 }
  th, td { padding: 0 }
  td:nth-child(4), td:nth-child(5) { display: inline-block; margin-right: .75rem }
  td:empty { display: none }
}
@media print {
  :root { color-scheme: light; --page: #fff; --text: #000; --quiet: #000; --rule: #999; --mark: #000; --fault: #000 }
  body { max-width: none; padding: 0; font-size: 10pt }
  h2, h3, p { break-after: avoid }
  tr { break-inside: avoid }
}
";

/// The text after the style of a page, before its day.
pub(crate) const STYLE_END: &str = "\
</style>
</head>
<body>
<h1>Loans on <time>";

/// The text after the day of a page, before its desks.
pub(crate) const DESKS: &str = "</time></h1>\n";

/// The text after the desks of a page.
pub(crate) const END: &str = "</body>\n</html>\n";

/// The text before the file of a desk.
pub(crate) const DESK: &str = "<section>\n<h2 dir=\"auto\">";

/// The text after the file of a desk, before the number of loans that want a hand.
pub(crate) const TO_DO: &str = "</h2>\n<p>To do: ";

/// The text before the number of open loans.
pub(crate) const OPEN: &str = ". Open: ";

/// The text before the number of all loans.
pub(crate) const LOANS: &str = ". Loans: ";

/// The text before the number of further loans for which there is room.
pub(crate) const ROOM: &str = ". Room for ";

/// The text after the counts of a desk, before its loans.
pub(crate) const COUNTS_END: &str = " more.</p>\n";

/// The text after the loans of a desk.
pub(crate) const DESK_END: &str = "</section>\n";

/// The text before the words of a kind of work that wants a hand.
pub(crate) const TASK: &str = "<h3 class=\"task\">";

/// The text before the words of any other kind of work.
pub(crate) const HEADING: &str = "<h3>";

/// The text after the words of a kind of work, before the number of its loans.
pub(crate) const COUNT: &str = ": ";

/// The text after the number of the loans of a kind of work, before their rows.
pub(crate) const TABLE: &str = "\
</h3>
<table>
<thead><tr><th>Title</th><th>Loan</th><th>State</th><th>Date</th><th>Actions</th></tr></thead>
<tbody>
";

/// The text before the note on a loan.
pub(crate) const NOTE: &str = "<small dir=\"auto\">";

/// The text before the day since which a loan stands as it does.
pub(crate) const SINCE: &str = "<small>since <time>";

/// The text before the words of a message in the news of a loan.
pub(crate) const NEWS: &str = "<small>news: <b>";

/// The text after the words of a message in the news of a loan.
pub(crate) const NEWS_END: &str = "</b></small>";

/// The text after the note on a loan, or after the day since which the loan stands as it does.
pub(crate) const NOTE_END: &str = "</small>";

/// The text after the rows of the loans of a kind of work.
pub(crate) const TABLE_END: &str = "</tbody>\n</table>\n";

/// The text after the file of a desk that cannot be read, before the text of its fault.
pub(crate) const UNREAD: &str = "</h2>\n<p><strong>This desk cannot be read: ";

/// The text after a day.
pub(crate) const TIME_END: &str = "</time>";

/// The text after the text of a fault.
pub(crate) const UNREAD_END: &str = "</strong></p>\n</section>\n";
