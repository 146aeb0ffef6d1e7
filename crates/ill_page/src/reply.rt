//! The reply to a request, as a web server wants it (RFC 3875, section 6): a status, headers and a page.

ghost use Rattle.std.specs.Prelude.{◌≡◌, ◌++◌, IfOk, OnOk};
ghost use Rattle.ill_report.specs.Link.{place_shown};
ghost use Rattle.ill_page.specs.Reply.{location_lines, page_reply, seen_reply, size_line, status_line};

use crate::headers::HEADERS;
use ill_report::link::{Place, push_place};
use ill_text::json::push_plain;
use ill_values::OutOfMemory;
use itoa::Buffer;
use std::alloc::Global;

/// The status of a reply (RFC 9110, section 15).
#[derive(Clone, Copy, Debug, PartialEq, Eq)]
pub enum Status {
    /// 200: the reply has the page that was asked for.
    Good,
    /// 400: the fields of the request are wrong, or its body broke off.
    Bad,
    /// 403: no page of this program sent the form, nobody is named who did, or a diary cannot name them.
    Foreign,
    /// 404: there is no such page, desk or loan.
    NoPage,
    /// 405: the method is neither GET, for a page, nor POST, for a form.
    Method,
    /// 409: the loan is no longer as the page of the form showed it, or its desk refuses the action.
    Conflict,
    /// 411: the length of the form is missing.
    NoLength,
    /// 413: the form is too long.
    TooLong,
    /// 415: the body is no form.
    NoForm,
    /// 500: memory ran out, or the file of the desk is missing or damaged.
    Failed,
    /// 503: the desk is busy, or its file could not be read or written.
    Busy,
}

impl Status {
    /// Returns the header lines of the status.
    fn line(self) -> &'static str
        ensures { result.now ≡ status_line self }
    {
        match self {
            Status::Good => "Status: 200 OK\r\n",
            Status::Bad => "Status: 400 Bad Request\r\n",
            Status::Foreign => "Status: 403 Forbidden\r\n",
            Status::NoPage => "Status: 404 Not Found\r\n",
            Status::Method => "Status: 405 Method Not Allowed\r\nAllow: GET, POST\r\n",
            Status::Conflict => "Status: 409 Conflict\r\n",
            Status::NoLength => "Status: 411 Length Required\r\n",
            Status::TooLong => "Status: 413 Content Too Large\r\n",
            Status::NoForm => "Status: 415 Unsupported Media Type\r\n",
            Status::Failed => "Status: 500 Internal Server Error\r\n",
            Status::Busy => "Status: 503 Service Unavailable\r\nRetry-After: 10\r\n",
        }
    }
}

/// The status that sends a browser elsewhere, and the name of the header that says where.
const SEEN: &str = "Status: 303 See Other\r\nLocation: ";

/// The end of a header line.
const LINE_END: &str = "\r\n";

/// Returns the reply with this status and this page.
#[tactic(auto, unfolding(crate::specs::Reply::page_reply))]
pub fn page_reply(alloc: Global, status: Status, page: &[u8]) -> Result<Vec<u8>, OutOfMemory>
    ensures { IfOk result (λ reply. reply.items ≡ page_reply status page.now) }
{
    let mut reply = Vec::new(alloc);
    push_plain(&mut reply, status.line())?;
    push_plain(&mut reply, HEADERS)?;
    push_size(&mut reply, page.len())?;
    reply.extend_from_slice(page)?;
    Ok(reply)
}

/// Appends the header with the size of a page, and the line that ends the headers.
#[tactic(auto, unfolding(crate::specs::Reply::size_line))]
fn push_size(reply: &mut Vec<u8>, size: usize) -> Result<(), OutOfMemory>
    ensures { OnOk result (reply.new.items ≡ reply.old.items ++ size_line size) }
{
    push_plain(reply, "Content-Length: ")?;
    reply.extend_from_slice(Buffer::new().format(size).as_bytes())?;
    push_plain(reply, "\r\n\r\n")
}

/// Returns the reply that sends a browser from a form to the page of the loan at `place`.
#[tactic(auto, unfolding(crate::specs::Reply::seen_reply))]
pub fn seen_reply(alloc: Global, place: &Place<'_>) -> Result<Vec<u8>, OutOfMemory>
    ensures { IfOk result (λ reply. reply.items ≡ seen_reply (place_shown place.now)) }
{
    let mut reply = Vec::new(alloc);
    push_location(&mut reply, place)?;
    push_plain(&mut reply, HEADERS)?;
    push_size(&mut reply, 0)?;
    Ok(reply)
}

/// Appends the status that sends a browser elsewhere, and the header with the URL of the loan at `place`.
#[tactic(auto, unfolding(crate::specs::Reply::location_lines))]
fn push_location(reply: &mut Vec<u8>, place: &Place<'_>) -> Result<(), OutOfMemory>
    ensures { OnOk result (reply.new.items ≡ reply.old.items ++ location_lines (place_shown place.now)) }
{
    push_plain(reply, SEEN)?;
    push_place(reply, place)?;
    push_plain(reply, LINE_END)
}
