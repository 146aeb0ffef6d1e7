//! The picture of a loan, as `loan --picture` draws it.

ghost use Rattle.std.specs.Prelude.{◌≡◌, ◌≤◌, ◌++◌, length, IfOk, OnOk};
ghost use Rattle.ill_record.specs.Side.{issued_of};
ghost use Rattle.ill_show.specs.Picture.{answers, arrow, arrows, comes_before, drawn, drawn_byte, is_linked, is_plain, label_of, picture_of, theirs_of, through, arrow_of, with_own, with_request};

use ill_beside::kept::is_among;
use ill_saved::Side;
use ill_text::lines::push_shown_fields;
use ill_values::{Apdu, Body, Number, OutOfMemory};
use itoa::Buffer;
use std::alloc::Global;

/// The first lines of a picture.
const OPENING: &str = "sequenceDiagram\n  participant requester\n  participant responder\n";

/// Returns a sequence chart of the messages of `side`, in the language of Mermaid. The messages are its issued ones,
/// the request in a responder's record, and `kept`, which came.
///
/// Nobody knows the order of one side's messages and the other's in time. The picture keeps the order of each side.
/// It draws a message of the other side as late as possible, but before one that needs or answers it. Directly after
/// a message of this side it draws the other side's messages up to the last answer to that message.
pub(crate) fn picture_of(
    alloc: Global,
    side: &Side,
    kept: Vec<Apdu>,
) -> Result<Vec<u8>, OutOfMemory>
    ensures { IfOk result (λ lines. lines.items ≡ picture_of (issued_of side.now) (theirs_of side.now kept.items)) }
{
    let theirs = theirs_of(alloc, side, kept)?;
    draw(alloc, side.all_issued(), &theirs)
}

/// Returns the messages `kept` that came. If they lack the request in a responder's record, it comes first.
fn theirs_of(alloc: Global, side: &Side, kept: Vec<Apdu>) -> Result<Vec<Apdu>, OutOfMemory>
    ensures { IfOk result (λ theirs. theirs.items ≡ theirs_of side.now kept.items) }
{
    match side {
        Side::Requester(_) => Ok(kept),
        Side::Responder(responder) => match responder.request() {
            Some(request) => with_request(alloc, request, kept),
            None => Ok(kept),
        },
    }
}

/// Returns the messages `kept` that came. If they lack `request`, it comes first.
fn with_request(alloc: Global, request: &Apdu, kept: Vec<Apdu>) -> Result<Vec<Apdu>, OutOfMemory>
    ensures { IfOk result (λ theirs. theirs.items ≡ with_request (Some request.now) kept.items) }
{
    let mut kept = kept;
    if !is_among(alloc, &kept, request)? {
        kept.insert(0, request.copy(alloc)?)?;
    }
    Ok(kept)
}

/// Returns the lines of the picture of the messages `own` and `theirs`.
fn draw(alloc: Global, own: &[Apdu], theirs: &[Apdu]) -> Result<Vec<u8>, OutOfMemory>
    ensures { IfOk result (λ lines. lines.items ≡ picture_of own.now theirs.now) }
{
    let mut lines = Vec::from_slice(alloc, OPENING.as_bytes())?;
    let mut left = theirs;
    for apdu in own {
        left = push_own(&mut lines, apdu, left)?;
    }
    push_arrows(&mut lines, left)?;
    Ok(lines)
}

/// Appends the messages of `theirs` up to the last that `own` needs or answers. Then it appends `own`, and the
/// messages up to the last answer to it. It returns the messages of `theirs` that are left.
fn push_own<'a>(
    lines: &mut Vec<u8>,
    own: &Apdu,
    theirs: &'a [Apdu],
) -> Result<&'a [Apdu], OutOfMemory>
    ensures { IfOk result (λ left. record { lines = lines.new.items; left = left.now }
        ≡ with_own (record { lines = lines.old.items; left = theirs.now }) own.now) }
{
    let (before, left) = theirs.split_at(through(Link::Before, own, theirs));
    push_arrows(lines, before)?;
    push_arrow(lines, own)?;
    let (answers, left) = left.split_at(through(Link::After, own, left));
    push_arrows(lines, answers)?;
    Ok(left)
}

/// The relation of a message of the other side to one of this side.
#[derive(Clone, Copy)]
enum Link {
    /// This side's message needs the other side's message or answers it.
    Before,
    /// The other side's message answers this side's message.
    After,
}

/// Returns the number of messages in `theirs` up to the last that has the relation `link` to `own`. If none has it, the
/// number is 0.
fn through(link: Link, own: &Apdu, theirs: &[Apdu]) -> usize
    ensures reached { result ≡ through link own.now theirs.now }
    ensures within { result ≤ length theirs.now }
{
    let mut last = 0;
    for place in 0..theirs.len() {
        if is_linked(link, own, &theirs[place]) {
            last = place + 1;
        }
    }
    last
}

/// Returns true if the message `their` has the relation `link` to `own`.
fn is_linked(link: Link, own: &Apdu, their: &Apdu) -> bool
    ensures { result ≡ is_linked link own.now their.now }
{
    match link {
        Link::Before => comes_before(&their.body, &own.body) || answers(&own.body, their.number),
        Link::After => answers(&their.body, own.number),
    }
}

/// Returns true if a message with the body `own` needs `their`: it is issued only after `their` has come.
fn comes_before(their: &Body, own: &Body) -> bool
    ensures { result ≡ comes_before their.now own.now }
{
    match their {
        Body::IllRequest { .. } => true,
        Body::Shipped { .. } => matches!(own, Body::Received | Body::Renew { .. } | Body::Returned),
        Body::Returned => matches!(own, Body::CheckedIn),
        _ => false,
    }
}

/// Returns true if a message with this body answers the message `asked` of the other side.
fn answers(body: &Body, asked: Number) -> bool
    ensures { result ≡ answers body.now asked }
{
    match body {
        Body::ConditionalReply { answers, .. }
        | Body::CancelReply { answers, .. }
        | Body::RenewAnswer { answers, .. } => *answers == asked,
        _ => false,
    }
}

/// Appends an arrow for each of `apdus`.
fn push_arrows(lines: &mut Vec<u8>, apdus: &[Apdu]) -> Result<(), OutOfMemory>
    ensures { OnOk result (lines.new.items ≡ lines.old.items ++ arrows apdus.now) }
{
    for apdu in apdus {
        push_arrow(lines, apdu)?;
    }
    Ok(())
}

/// Appends the arrow of `apdu`.
#[tactic(auto, unfolding(crate::specs::Picture::arrow))]
fn push_arrow(lines: &mut Vec<u8>, apdu: &Apdu) -> Result<(), OutOfMemory>
    ensures { OnOk result (lines.new.items ≡ lines.old.items ++ arrow apdu.now) }
{
    let mut label = Vec::new(*lines.allocator());
    push_label(&mut label, apdu)?;
    let _ = label.pop();
    lines.extend_from_slice(way(&apdu.body).as_bytes())?;
    push_drawn(lines, &label)?;
    lines.push(b'\n')?;
    Ok(())
}

/// Returns the text with the sender and the receiver of a message.
fn way(body: &Body) -> &'static str
    ensures { result.now ≡ arrow_of body.now }
{
    if body.is_requesters() {
        "  requester->>responder: "
    } else {
        "  responder->>requester: "
    }
}

/// Appends the number and the type of a message, and the lines of its further fields.
fn push_label(label: &mut Vec<u8>, apdu: &Apdu) -> Result<(), OutOfMemory>
    ensures { OnOk result (label.new.items ≡ label.old.items ++ label_of apdu.now) }
{
    let body = apdu.body.view();
    label.extend_from_slice(Buffer::new().format(apdu.number.get()).as_bytes())?;
    label.push(b' ')?;
    label.extend_from_slice(body.type_name().as_bytes())?;
    label.push(b'\n')?;
    push_shown_fields(label, &body)
}

/// Appends `text` with escapes, so that Mermaid takes no byte of it for syntax.
fn push_drawn(lines: &mut Vec<u8>, text: &[u8]) -> Result<(), OutOfMemory>
    ensures { OnOk result (lines.new.items ≡ lines.old.items ++ drawn text.now) }
{
    for byte in text {
        push_byte(lines, *byte)?;
    }
    Ok(())
}

/// Appends `byte` as it is, as a line break, or as an escape with its number.
fn push_byte(lines: &mut Vec<u8>, byte: u8) -> Result<(), OutOfMemory>
    ensures { OnOk result (lines.new.items ≡ lines.old.items ++ drawn_byte byte) }
{
    if byte == b'\n' {
        lines.extend_from_slice(b"<br/>")?;
        return Ok(());
    }
    if is_plain(byte) {
        lines.push(byte)?;
        return Ok(());
    }
    lines.push(b'#')?;
    lines.extend_from_slice(Buffer::new().format(byte).as_bytes())?;
    lines.push(b';')?;
    Ok(())
}

/// Returns true if a chart may have `byte` unescaped. It may have letters, digits, spaces, commas, hyphens, full
/// stops, and bytes beyond ASCII.
fn is_plain(byte: u8) -> bool
    ensures { result ≡ is_plain byte }
{
    matches!(byte, b'a'..=b'z' | b'A'..=b'Z' | b'0'..=b'9' | b' ' | b','..=b'.' | 128..)
}
