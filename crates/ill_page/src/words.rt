//! All words of the pages and notices that a person reads in a browser, but those that `ill report` has too. Another
//! language is another such table. No text here is written by a user.
//!
//! Names and values in tags are no words: a form sends them, as it sends the options of `RESULT`.

// ---- The page of all desks

/// The text before the words that are sought, in their form.
pub const SEARCH: &str = "\
<form method=\"get\" action=\"?\" role=\"search\">\
<label>Title, number or note <input type=\"search\" name=\"find\" dir=\"auto\" value=\"";

/// The text after the words that are sought, in their form.
pub const SEARCH_END: &str = "\"></label> <button>Search</button></form>\n";

/// The text before the words that are sought, in the line that names them.
pub const FOUND: &str = "<p role=\"status\">Only loans with <b dir=\"auto\">";

/// The text after the words that are sought, in the line that names them.
pub const FOUND_END: &str = "</b> are shown. <a href=\"?\">All loans</a></p>\n";

/// The form that asks for figures.
pub const FIGURES: &str = "\
<form method=\"get\" action=\"?\">\
<fieldset><legend>Figures</legend>\
<label>From <input type=\"date\" name=\"from\" required></label> \
<label>To <input type=\"date\" name=\"to\" required></label> \
<button>Show figures</button></fieldset></form>\n";

// ---- The form of a new loan

/// The text before the file of a desk at which a loan may begin.
pub const BEGIN: &str = "<details>\n<summary>New request at <bdi>";

/// The text before the group that is proposed for a new loan.
pub const GROUP: &str = "\
<label>Group <input name=\"group\" required maxlength=\"64\" pattern=\"[ -~]+\" value=\"";

/// The text before the number that is proposed for a new loan.
pub const NUMBER: &str = "\
\"></label> <label>Number <input name=\"transaction\" required maxlength=\"64\" pattern=\"[ -~]+\" value=\"";

/// The text after the number of a new loan: the other inputs of its form, and the end.
pub const BEGIN_END: &str = "\
\"></label> \
<label>Last day, if there is one <input type=\"date\" name=\"day\"></label> \
<label>Title <input name=\"word\" required maxlength=\"200\" size=\"40\" dir=\"auto\"></label> \
<button>Request it</button></form>\n</details>\n";

// ---- The pages of a loan and of figures

/// The link to the page of all loans.
pub const ALL: &str = "<nav><a href=\"?\">All loans</a></nav>\n";

/// The text after the state of a loan, before the forms of its actions.
pub const POSSIBLE: &str = "</p>\n<div class=\"now\">\n<h3>What may be done now</h3>\n";

/// The text after the forms, before the lines of what is known.
pub const KNOWN: &str = "</div>\n<h3>What is known</h3>\n<pre dir=\"auto\">";

/// The text before the words of the note on a loan, in its form.
pub const NOTE: &str = "\
<fieldset><legend>A note for staff: it leaves no message</legend>\
<label>Note <input name=\"note\" maxlength=\"200\" size=\"40\" dir=\"auto\"></label> <button>Keep the note</button>";

/// The text after the URL of the slip of a loan.
pub const SLIP_END: &str = "&amp;page=slip\">A slip to lay in the item</a></p>\n";

/// The text before the figures.
pub const COUNTED: &str = "<section>\n<h2>Figures</h2>\n<pre>";

// ---- What each form of an action is for

/// The purpose of a request.
pub const TO_REQUEST: &str = "Ask for an item";

/// The purpose of a wish to cancel.
pub const TO_CANCEL: &str = "Ask to cancel the request";

/// The purpose of a reply to conditions.
pub const TO_REPLY: &str = "Accept the conditions?";

/// The purpose of a receipt.
pub const TO_RECEIVE: &str = "The item has come";

/// The purpose of a wish to keep the item longer.
pub const TO_RENEW: &str = "Ask to keep the item longer";

/// The purpose of a return.
pub const TO_RETURN: &str = "The item is sent back";

/// The purpose of an answer to a request.
pub const TO_ANSWER: &str = "Answer the request";

/// The purpose of an answer to a wish to cancel.
pub const TO_CANCEL_REPLY: &str = "Agree to cancel?";

/// The purpose of a shipment.
pub const TO_SHIP: &str = "The item is sent";

/// The purpose of an answer to a wish to keep the item longer.
pub const TO_RENEW_ANSWER: &str = "Let the item be kept longer?";

/// The purpose of a message that the item is overdue.
pub const TO_OVERDUE: &str = "Say that the item is overdue";

/// The purpose of a recall.
pub const TO_RECALL: &str = "Ask for the item back";

/// The purpose of a check-in.
pub const TO_CHECK_IN: &str = "The item is back";

/// The purpose of an expiry.
pub const TO_EXPIRE: &str = "End the request: its last day is past";

// ---- The inputs of each form of an action

/// The inputs of an action without words of its own.
pub const BARE: &str = "<button>Confirm</button>";

/// The inputs of an action that is yes or no.
pub const YES_NO: &str = "\
<button name=\"word\" value=\"yes\">Yes</button> <button name=\"word\" value=\"no\">No</button>";

/// The inputs of a wish to keep an item.
pub const WISHED: &str = "\
<label>Until, if you wish a day <input type=\"date\" name=\"day\"></label> <button>Ask</button>";

/// The inputs of a shipment, before the day that is proposed.
pub const DUE: &str = "<label>Due back on <input type=\"date\" name=\"day\" required value=\"";

/// The text after the day on which an item is due.
pub const DUE_END: &str = "\"></label> <button>It is sent</button>";

/// The inputs of the answer that lets an item be kept longer, before the day that is proposed.
pub const GRANT: &str = "\
<input type=\"hidden\" name=\"word\" value=\"yes\">\
<label>New due date <input type=\"date\" name=\"day\" required value=\"";

/// The text after a new due date.
pub const GRANT_END: &str = "\"></label> <button>Yes, until this day</button>";

/// The inputs of the answer that an item is to come back in time.
pub const DENY: &str = "<input type=\"hidden\" name=\"word\" value=\"no\"><button>No</button>";

/// The inputs of an answer to a request.
pub const RESULT: &str = "\
<label>With <select name=\"word\">\
<option>conditional<option>retry<option>unfilled<option>locations-provided\
<option>will-supply<option>hold-placed<option>estimate</select></label> <button>Answer</button>";

// ---- Requests that are refused, and figures that lack a desk

/// The notice of a request for no page.
pub const NO_PAGE: &str = "There is no such page.";

/// The notice of a request by a method that is neither GET nor POST.
pub const METHOD: &str = "A page is for GET, and a form for POST.";

/// The notice of a form that another site sent.
pub const FOREIGN: &str = "No page of this program sent the form.";

/// The notice of a form whose sender is not named.
pub const NO_USER: &str = "Nobody is named who sent the form.";

/// The notice of a body that is no form.
pub const NO_FORM: &str = "The body is no form.";

/// The notice of a form without its length.
pub const NO_LENGTH: &str = "The length of the form is missing.";

/// The notice of a form that is too long.
pub const TOO_LONG: &str = "The form is too long.";

/// The notice of a form that broke off.
pub const CUT: &str = "The form broke off.";

/// The notice of fields that are missing, there twice or wrong.
pub const FIELDS: &str = "The fields name no page, no loan or no action.";

/// The notice of a desk that the operator does not name.
pub const NO_DESK: &str = "There is no such desk here.";

/// The notice of a user whom a diary cannot name.
pub const NO_NAME: &str = "Nothing was done: a diary cannot name this user.";

/// The notice of figures whose last day is before the first one.
pub const NO_SPAN: &str = "The last day of the figures is before the first one.";

/// The notice beside figures, if a desk cannot be read.
pub const UNCOUNTED: &str =
    "A desk cannot be read, and has no figures here. The page of all loans names it.";

/// The notice of a text that is too long for a note, or has a control character.
pub const NO_NOTE: &str = "A note has at most 200 bytes, and no control characters.";

/// The notice of a loan of another group than that of its desk.
pub const OTHER_GROUP: &str = "Nothing was done: this desk takes loans of another group.";

// ---- Loans that a desk lacks, desks that fail, and want of memory

/// The notice of a loan that its desk does not have.
pub const NO_LOAN: &str = "This desk has no such loan.";

/// The notice of a desk that is busy, or whose file failed.
pub const BUSY: &str = "\
The file of the desk is busy, or could not be read or written. Look again before you act. \
If this comes again, tell the operator of this page.";

/// The notice of a file that is not there, or is no desk.
pub const NO_DESK_FILE: &str = "\
The file of the desk is missing or damaged. Tell the operator of this page: ill verify says more.";

/// The notice of a request for which memory ran out.
pub const OUT_OF_MEMORY: &str = "\
Memory ran out. Look again before you act. If this comes again, tell the operator of this page.";

// ---- Forms that were not done

/// The text before the words of a fault, for a form that its desk refused.
pub const NOTHING_DONE: &str = "Nothing was done: ";

/// The text after the words of a fault, for a form that its desk refused.
pub const FAULT_END: &str = ".";

/// The notice of a form that names no action.
pub const NO_ACTION: &str = "Nothing was done: a field of the form is missing or wrong.";

/// The notice of a form whose loan has changed, or of a new loan whose number another has by now.
pub const CHANGED: &str = "\
Nothing was done: the loan has changed since your page showed it, or its number was taken. \
This is how it is now.";
