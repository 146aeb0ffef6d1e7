//! The URLs of the pages of loans, and links to them.

ghost use Rattle.std.specs.Prelude.{◌≡◌, ◌++◌, option_map, OnOk};
ghost use Rattle.form_urlencoded.specs.Form.{byte_serialize};
ghost use Rattle.ill_text.specs.Html.{html_escaped};
ghost use Rattle.ill_report.specs.Link.{link_text, linked_text, named_text, place_shown, place_text};

use form_urlencoded::byte_serialize;
use ill_text::html::push_html;
use ill_text::json::push_plain;
use ill_values::{OutOfMemory, TxnId};

/// The text before the URL of a link.
const LINK: &str = "<a href=\"";

/// The text between the URL of a link and its words.
const LINKED: &str = "\">";

/// The text after a link.
const LINK_END: &str = "</a>";

/// A loan, and the text that names its desk.
#[derive(Clone, Copy)]
pub struct Place<'a> {
    /// The text for its desk.
    pub desk: &'a str,
    /// The transaction of the loan.
    pub txn: &'a TxnId,
}

/// Appends the URL of the page of a loan, relative to the program. It has letters, digits and `?&=*-._+%` alone.
#[tactic(auto, unfolding(crate::specs::Link::place_text))]
pub fn push_place(text: &mut Vec<u8>, place: &Place<'_>) -> Result<(), OutOfMemory>
    ensures { OnOk result (text.new.items ≡ text.old.items ++ place_text (place_shown place.now)) }
{
    push_named(text, "?desk=", place.desk.as_bytes())?;
    push_named(text, "&group=", place.txn.group())?;
    push_named(text, "&transaction=", place.txn.transaction())
}

/// Appends `name`, and then `value` as a form of HTML encodes it.
#[tactic(auto, unfolding(crate::specs::Link::named_text))]
fn push_named(text: &mut Vec<u8>, name: &str, value: &[u8]) -> Result<(), OutOfMemory>
    ensures { OnOk result (text.new.items ≡ text.old.items ++ named_text name.now value.now) }
{
    push_plain(text, name)?;
    push_serialized(text, value)
}

/// Appends `value` as a form of HTML encodes it: of letters, digits and `*-._+%` alone.
fn push_serialized(text: &mut Vec<u8>, value: &[u8]) -> Result<(), OutOfMemory>
    ensures { OnOk result (text.new.items ≡ text.old.items ++ byte_serialize value.now) }
{
    for piece in byte_serialize(value) {
        text.extend_from_slice(piece.as_bytes())?;
    }
    Ok(())
}

/// Appends `words`, a text of HTML. If there is a text for the desk, they are within a link to the page of the loan
/// `txn`.
pub(crate) fn push_linked(
    page: &mut Vec<u8>,
    desk: Option<&str>,
    txn: &TxnId,
    words: &[u8],
) -> Result<(), OutOfMemory>
    ensures { OnOk result (page.new.items
        ≡ page.old.items ++ linked_text (option_map (λ desk. desk.now) desk.entry) txn.now words.now) }
{
    match desk {
        Some(desk) => push_link(page, &Place { desk, txn }, words),
        None => {
            page.extend_from_slice(words)?;
            Ok(())
        }
    }
}

/// Appends `words`, a text of HTML, within a link to the page of the loan at `place`.
#[tactic(auto, unfolding(crate::specs::Link::link_text))]
fn push_link(page: &mut Vec<u8>, place: &Place<'_>, words: &[u8]) -> Result<(), OutOfMemory>
    ensures { OnOk result (page.new.items ≡ page.old.items ++ link_text (place_shown place.now) words.now) }
{
    push_plain(page, LINK)?;
    push_url(page, place)?;
    push_plain(page, LINKED)?;
    page.extend_from_slice(words)?;
    push_plain(page, LINK_END)
}

/// Appends the URL of the page of a loan, as an attribute has it.
fn push_url(page: &mut Vec<u8>, place: &Place<'_>) -> Result<(), OutOfMemory>
    ensures { OnOk result (page.new.items ≡ page.old.items ++ html_escaped (place_text (place_shown place.now))) }
{
    let mut url = Vec::new(*page.allocator());
    push_place(&mut url, place)?;
    push_html(page, &url)
}
