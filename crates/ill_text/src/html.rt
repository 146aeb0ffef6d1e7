//! Texts in a page of HTML.

ghost use Rattle.std.specs.Prelude.{◌≡◌, ◌++◌, true, OnOk};
ghost use Rattle.std.specs.List.{list_all};
ghost use Rattle.ill_text.specs.Html.{html_byte, html_escaped, html_text, is_inert};

use crate::escape::push_escaped;
use ill_values::OutOfMemory;

/// Appends `text`, of any bytes, so that a browser shows it and interprets none of it.
#[tactic(auto, using(crate::proofs::HtmlLemmas::text_inert))]
pub fn push_text(page: &mut Vec<u8>, text: &[u8]) -> Result<(), OutOfMemory>
    ensures text { OnOk result (page.new.items ≡ page.old.items ++ html_text text.now) }
    ensures inert { list_all is_inert (html_text text.now) ≡ true }
{
    let mut shown = Vec::new(*page.allocator());
    push_escaped(&mut shown, text)?;
    push_html(page, &shown)
}

/// Appends `text` to `page`, with an HTML entity for each `&`, `<`, `>` and quote. Other bytes stay as they are, so
/// unlike `push_text` it escapes no character that changes the direction of a text.
pub fn push_html(page: &mut Vec<u8>, text: &[u8]) -> Result<(), OutOfMemory>
    ensures { OnOk result (page.new.items ≡ page.old.items ++ html_escaped text.now) }
{
    for byte in text {
        push_byte(page, *byte)?;
    }
    Ok(())
}

/// Appends `byte` to `page`, or the HTML entity for it.
fn push_byte(page: &mut Vec<u8>, byte: u8) -> Result<(), OutOfMemory>
    ensures { OnOk result (page.new.items ≡ page.old.items ++ html_byte byte) }
{
    match byte {
        b'&' => page.extend_from_slice(b"&amp;"),
        b'<' => page.extend_from_slice(b"&lt;"),
        b'>' => page.extend_from_slice(b"&gt;"),
        b'"' => page.extend_from_slice(b"&quot;"),
        b'\'' => page.extend_from_slice(b"&#39;"),
        other => {
            page.push(other)?;
            Ok(())
        }
    }
}
