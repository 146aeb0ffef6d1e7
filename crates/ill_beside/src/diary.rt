//! The history of a loan: the lines of a diary that name a message which the record of the loan has.

ghost use Rattle.std.specs.Prelude.{◌≡◌, ◌==◌, ◌++◌, ◌∷◌, [], bytes_eq, codes, filter, find, map, option_map, option_to_list, IfOk, OnOk};
ghost use Rattle.std.specs.List.{flat_map};
ghost use Rattle.std.specs.Fmt.{decimal};
ghost use Rattle.ill_text.specs.Diary.{message_key};
ghost use Rattle.ill_text.specs.Json.{array, joined, member, optional, quoted, value_text};
ghost use Rattle.ill_beside.specs.Diary.{at_space, body_verb, has_key, history_fields, history_lines, history_of, is_named, issued_named, messages_of, named, named_by, part_at, part_fields, part_line, part_object, part_said, person, request_taken, said, said_by, said_in, said_on, taken_named, printed};
ghost use Rattle.ill_beside.specs.Heard.{is_heard};

use crate::heard::is_heard;
use ill_core::Verb;
use ill_saved::Side;
use ill_text::diary::message_key;
use ill_text::escape::push_escaped;
use ill_text::json::{ItemForm, Value, push_array, push_label, push_members, push_plain};
use ill_text::lines::push_line;
use ill_values::{Apdu, Body, Day, Number, OutOfMemory};
use itoa::Buffer;
use std::alloc::Global;

/// What a line of a diary says.
#[derive(Clone, Copy)]
pub struct Entry<'a> {
    /// The day.
    pub day: Day,
    /// The name of a person, or a dash.
    pub by: &'a str,
    /// The key of a message.
    pub message: &'a str,
}

/// Returns what a line says, if it is UTF-8 and says something.
pub fn said_by(line: &[u8]) -> Option<Entry<'_>>
    ensures { option_map said result ≡ said_by line.now }
{
    match str::from_utf8(line) {
        Ok(text) => said_in(text),
        Err(_) => None,
    }
}

/// Returns what a text says: a day, a name and the key of a message.
fn said_in(text: &str) -> Option<Entry<'_>>
    ensures { option_map said result ≡ said_in text.now }
{
    let (day, rest) = at_space(text)?;
    let (by, message) = at_space(rest)?;
    said_on(day, by, message)
}

/// Returns the texts before and after the first space of `text`, if there is one.
fn at_space(text: &str) -> Option<(&str, &str)>
    ensures { option_map (λ parts. (parts.0.now, parts.1.now)) result ≡ at_space text.now }
{
    text.split_once(' ')
}

/// Returns what a line says whose first word is `day`, if that is a day. `by` is the name, and `message` the key of a
/// message.
fn said_on<'a>(day: &str, by: &'a str, message: &'a str) -> Option<Entry<'a>>
    ensures { option_map said result ≡ said_on day.now (by.now, message.now) }
{
    match Day::read(day.as_bytes()) {
        Ok(day) => Some(Entry { day, by, message }),
        Err(_) => None,
    }
}

/// A message that a line may name.
#[derive(Drop)]
pub struct Message {
    /// The verb of a message that was issued, or the type of one that was taken.
    what: &'static str,
    /// Its number.
    number: Number,
    /// Its key.
    pub(crate) key: Vec<u8>,
}

/// Returns the messages that the record of `side` has: those that it issued, and those of `kept` that it shows as
/// taken. A responder's record has the request itself.
pub fn messages_of(alloc: Global, side: &Side, kept: &[Apdu]) -> Result<Vec<Message>, OutOfMemory>
    ensures { IfOk result (λ messages. map named messages.items ≡ messages_of side.now kept.now) }
{
    let mut messages = Vec::new(alloc);
    push_issued(&mut messages, side.all_issued())?;
    push_request(&mut messages, side)?;
    push_taken(&mut messages, side, kept)?;
    Ok(messages)
}

/// Appends the messages `apdus`, which were issued.
fn push_issued(messages: &mut Vec<Message>, apdus: &[Apdu]) -> Result<(), OutOfMemory>
    ensures { OnOk result (map named messages.new.items ≡ map named messages.old.items ++ map issued_named apdus.now) }
{
    for apdu in apdus {
        push_message(messages, verb_of(&apdu.body).name(), apdu)?;
    }
    Ok(())
}

/// Appends the request in a responder's record, if it has begun.
fn push_request(messages: &mut Vec<Message>, side: &Side) -> Result<(), OutOfMemory>
    ensures { OnOk result (map named messages.new.items ≡ map named messages.old.items
        ++ map taken_named (request_taken side.now)) }
{
    match side {
        Side::Requester(_) => Ok(()),
        Side::Responder(responder) => match responder.request() {
            Some(request) => push_taken_message(messages, request),
            None => Ok(()),
        },
    }
}

/// Appends those of `kept` that the record of `side` shows as taken.
fn push_taken(messages: &mut Vec<Message>, side: &Side, kept: &[Apdu]) -> Result<(), OutOfMemory>
    ensures { OnOk result (map named messages.new.items ≡ map named messages.old.items
        ++ map taken_named (filter (is_heard side.now) kept.now)) }
{
    for apdu in kept {
        push_if_heard(messages, side, apdu)?;
    }
    Ok(())
}

/// Appends the message `apdu`, if the record of `side` shows that it was taken.
fn push_if_heard(messages: &mut Vec<Message>, side: &Side, apdu: &Apdu) -> Result<(), OutOfMemory>
    ensures { OnOk result (map named messages.new.items ≡ map named messages.old.items
        ++ map taken_named (filter (is_heard side.now) (apdu.now ∷ []))) }
{
    if is_heard(side, apdu) {
        push_taken_message(messages, apdu)
    } else {
        Ok(())
    }
}

/// Appends the message `apdu`, which was taken.
fn push_taken_message(messages: &mut Vec<Message>, apdu: &Apdu) -> Result<(), OutOfMemory>
    ensures { OnOk result (map named messages.new.items ≡ map named messages.old.items ++ taken_named apdu.now ∷ []) }
{
    push_message(messages, apdu.body.view().type_name(), apdu)
}

/// Appends the message `apdu`, by the word `what` for it.
fn push_message(
    messages: &mut Vec<Message>,
    what: &'static str,
    apdu: &Apdu,
) -> Result<(), OutOfMemory>
    ensures { OnOk result (map named messages.new.items ≡ map named messages.old.items ++ named_by what.now apdu.now ∷ []) }
{
    let number = apdu.number;
    let key = message_key(
        *messages.allocator(),
        &apdu.txn,
        what,
        u32::from(number.get()),
    )?;
    messages.push(Message { what, number, key })?;
    Ok(())
}

/// Returns the verb of the action that issued a message with this body.
pub fn verb_of(body: &Body) -> Verb
    ensures { result ≡ body_verb body.now }
{
    match body {
        Body::IllRequest { .. } => Verb::Request,
        Body::IllAnswer { .. } => Verb::Answer,
        Body::ConditionalReply { .. } => Verb::Reply,
        Body::Cancel => Verb::Cancel,
        Body::CancelReply { .. } => Verb::CancelReply,
        Body::Shipped { .. } => Verb::Ship,
        Body::Received => Verb::Receive,
        Body::Recall => Verb::Recall,
        Body::Returned => Verb::Return,
        Body::CheckedIn => Verb::CheckIn,
        Body::Overdue { .. } => Verb::Overdue,
        Body::Renew { .. } => Verb::Renew,
        Body::RenewAnswer { .. } => Verb::RenewAnswer,
        Body::Expired => Verb::Expire,
    }
}

/// A part of the history of a loan: what a line says of a message.
#[derive(Clone, Copy)]
pub struct Part<'a> {
    /// The day, as eight digits.
    day: [u8; 8],
    /// The day, with hyphens.
    iso: [u8; 10],
    /// The name of a person, or a dash.
    by: &'a str,
    /// The verb of a message that was issued, or the type of one that was taken.
    what: &'a str,
    /// The number of the message.
    number: u8,
}

/// Returns the history of a loan that has `messages`, by the lines of a diary: the last line of each message counts.
#[tactic(auto, unfolding(crate::specs::Diary::history_of))]
pub fn history_of<'a>(
    alloc: Global,
    messages: &[Message],
    lines: &'a [Vec<u8>],
) -> Result<Vec<Part<'a>>, OutOfMemory>
    ensures { IfOk result (λ parts. map printed parts.items
        ≡ history_of (map named messages.now) (map (λ line. line.items) lines.now)) }
{
    let mut parts = Vec::new(alloc);
    let mut rest = lines;
    while let Some((line, later)) = rest.split_first() {
        push_printed(&mut parts, messages, line, later)?;
        rest = later;
    }
    Ok(parts)
}

/// Appends the part of the history that `line` tells, if it tells one. `later` are the lines after it.
fn push_printed<'a>(
    parts: &mut Vec<Part<'a>>,
    messages: &[Message],
    line: &'a [u8],
    later: &[Vec<u8>],
) -> Result<(), OutOfMemory>
    ensures { OnOk result (map printed parts.new.items ≡ map printed parts.old.items
        ++ option_to_list (part_at (map named messages.now) (map (λ line. line.items) later.now) line.now)) }
{
    if let Some(part) = part_at(messages, later, line) {
        parts.push(part)?;
    }
    Ok(())
}

/// Returns the part of the history that `line` tells, if it tells one. `later` are the lines after it.
fn part_at<'a>(messages: &[Message], later: &[Vec<u8>], line: &'a [u8]) -> Option<Part<'a>>
    ensures { option_map printed result
        ≡ part_at (map named messages.now) (map (λ line. line.items) later.now) line.now }
{
    match said_by(line) {
        Some(entry) => part_said(messages, later, &entry),
        None => None,
    }
}

/// Returns the part of the history that `entry` tells of the first of `messages` with the key that it names. Returns
/// `None` if no message has this key, or a line of `later` names this key too.
fn part_said<'a>(messages: &[Message], later: &[Vec<u8>], entry: &Entry<'a>) -> Option<Part<'a>>
    ensures { option_map printed result
        ≡ part_said (map named messages.now) (map (λ line. line.items) later.now) (said entry.now) }
{
    match message_with(messages, entry.message.as_bytes()) {
        Some(message) if !is_named(entry.message.as_bytes(), later) => Some(Part {
            day: entry.day.digits(),
            iso: entry.day.iso(),
            by: entry.by,
            what: message.what,
            number: message.number.get(),
        }),
        _ => None,
    }
}

/// Returns the first of `messages` with the key `key`, if there is one.
pub(crate) fn message_with<'a>(messages: &'a [Message], key: &[u8]) -> Option<&'a Message>
    ensures { option_map (λ message. named message.now) result
        ≡ find (λ message. bytes_eq message.key key.now) (map named messages.now) }
{
    messages
        .iter()
        .find(|message| message.key.as_slice() == key)
}

/// Returns true if one of `lines` names the message with the key `key`.
pub(crate) fn is_named(key: &[u8], lines: &[Vec<u8>]) -> bool
    ensures { result ≡ is_named key.now (map (λ line. line.items) lines.now) }
{
    lines.iter().any(|line| has_key(key, line))
}

/// Returns true if `line` names the message with the key `key`.
fn has_key(key: &[u8], line: &[u8]) -> bool
    ensures { result ≡ has_key key.now (said_by line.now) }
{
    match said_by(line) {
        Some(entry) => entry.message.as_bytes() == key,
        None => false,
    }
}

/// Appends the lines of the history `parts` after an empty line. A loan without a history has none.
pub fn push_history(text: &mut Vec<u8>, parts: &[Part<'_>]) -> Result<(), OutOfMemory>
    ensures { OnOk result (text.new.items ≡ text.old.items ++ history_lines (map printed parts.now)) }
{
    if parts.is_empty() {
        return Ok(());
    }
    text.push(b'\n')?;
    push_parts(text, parts)
}

/// Appends the line of each of `parts`.
fn push_parts(text: &mut Vec<u8>, parts: &[Part<'_>]) -> Result<(), OutOfMemory>
    ensures { OnOk result (text.new.items ≡ text.old.items ++ flat_map part_line (map printed parts.now)) }
{
    for part in parts {
        push_part(text, part)?;
    }
    Ok(())
}

/// Appends the line of `part`.
fn push_part(text: &mut Vec<u8>, part: &Part<'_>) -> Result<(), OutOfMemory>
    ensures { OnOk result (text.new.items ≡ text.old.items ++ part_line (printed part.now)) }
{
    let mut value = Vec::from_slice(*text.allocator(), &part.day)?;
    value.push(b' ')?;
    push_escaped(&mut value, part.by.as_bytes())?;
    value.push(b' ')?;
    push_what(&mut value, part)?;
    push_line(text, "history", &value)
}

/// Appends the word for the message of `part`, and its number.
fn push_what(value: &mut Vec<u8>, part: &Part<'_>) -> Result<(), OutOfMemory>
    ensures { OnOk result (value.new.items ≡ value.old.items
        ++ (part.now.what.now ++ (codes " " ++ decimal part.now.number))) }
{
    value.extend_from_slice(part.what.as_bytes())?;
    value.push(b' ')?;
    value.extend_from_slice(Buffer::new().format(part.number).as_bytes())
}

/// Appends the field of the history `parts`, after a comma: an array of the objects of the parts.
#[tactic(auto, unfolding(ill_text::specs::Json::joined))]
pub fn push_history_field(text: &mut Vec<u8>, parts: &[Part<'_>]) -> Result<(), OutOfMemory>
    ensures { OnOk result (text.new.items ≡ text.old.items
        ++ joined member (codes ",") (history_fields (map printed parts.now))) }
{
    push_plain(text, ",")?;
    push_label(text, "history")?;
    push_part_objects(text, parts)
}

/// Appends an array of the objects of `parts`.
fn push_part_objects(text: &mut Vec<u8>, parts: &[Part<'_>]) -> Result<(), OutOfMemory>
    ensures { OnOk result (text.new.items ≡ text.old.items ++ array part_object (map printed parts.now)) }
{
    push_array(text, parts, &PartObjects)
}

/// The parts of a history as objects.
struct PartObjects;

impl<'a> ItemForm<Part<'a>> for PartObjects {
    ghost text_of = { λ _ part. part_object (printed part) };

    fn push(&self, text: &mut Vec<u8>, part: &Part<'a>) -> Result<(), OutOfMemory> {
        push_part_object(text, part)
    }
}

/// Appends the object of `part`.
fn push_part_object(text: &mut Vec<u8>, part: &Part<'_>) -> Result<(), OutOfMemory>
    ensures { OnOk result (text.new.items ≡ text.old.items ++ part_object (printed part.now)) }
{
    push_plain(text, "{")?;
    push_part_fields(text, part)?;
    push_plain(text, "}")
}

/// Appends the fields of `part`.
#[tactic(auto, unfolding(ill_text::specs::Json::joined))]
fn push_part_fields(text: &mut Vec<u8>, part: &Part<'_>) -> Result<(), OutOfMemory>
    ensures { OnOk result (text.new.items ≡ text.old.items ++ joined member [] (part_fields (printed part.now))) }
{
    push_members(
        text,
        b"",
        &[
            ("day", Value::Text(&part.iso)),
            ("by", person(part.by)),
            ("what", Value::Text(part.what.as_bytes())),
            ("number", Value::Count(usize::from(part.number))),
        ],
    )
}

/// Returns the name `by` of a person, which is missing for a dash.
fn person(by: &str) -> Value<'_>
    ensures { value_text result ≡ optional quoted (person by.now) }
{
    if by == "-" {
        Value::Missing
    } else {
        Value::Text(by.as_bytes())
    }
}
