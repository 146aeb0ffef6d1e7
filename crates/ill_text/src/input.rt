//! Reads the APDUs of an input, for all commands that do so.

ghost use Rattle.std.specs.Prelude.{◌≡◌, IfOk, IfErr};
ghost use Rattle.ill_der.specs.Feed.{end_of};
ghost use Rattle.ill_text.specs.Input.{answer_at_end, CountsOn, ReadsInput, AreIn, IsWhole, StopsWhole};

use crate::fault::ToolFault;
use ill_der::{ApduView, Feed, Handler};
use ill_values::{Apdu, OutOfMemory};
use std::alloc::Global;
use std::io::Read;

/// The most APDUs of one input.
const MAX_APDUS: u32 = 100_000;

/// The most bytes in one read.
const PIECE: usize = 4_096;

/// A handler that counts APDUs, and takes no more than an input may have.
#[derive(Drop)]
pub struct Counted<H> {
    /// The handler of the APDUs.
    pub handler: H,
    count: u32,
}

impl<H> Counted<H> {
    /// Returns the handler, with a count of 0.
    pub fn new(handler: H) -> Counted<H>
        ensures handler { result.handler ≡ handler }
        ensures none { result.count ≡ 0 }
    {
        Counted { handler, count: 0 }
    }
}

/// Hands each APDU to the handler inside and counts it, unless it is one too many (`CountsOn`).
impl<C, H: Handler<C, Fault = ToolFault>> Handler<C> for Counted<H> {
    type Fault = ToolFault;

    ghost handles = { λ old apdu result new. CountsOn H.handles (old.0.count, (old.0.handler, old.1)) apdu result
        (new.0.count, (new.0.handler, new.1)) };

    fn handle(
        &mut self,
        alloc: Global,
        context: &mut C,
        apdu: &ApduView<'_>,
    ) -> Result<(), ToolFault> {
        if self.count >= MAX_APDUS {
            return Err(ToolFault::TooMany);
        }
        match self.handler.handle(alloc, context, apdu) {
            Ok(()) => {
                self.count += 1;
                Ok(())
            }
            Err(fault) => Err(fault),
        }
    }
}

/// Hands each APDU of the input to the handler, one after another up to the end, and returns their number. It reads at
/// most 4,096 bytes at a time, and allocates nothing.
///
/// It returns the first fault: of bytes, too many APDUs, a failing reader, or the handler's own. The APDUs before it
/// were handled. Bytes that were read after it, fewer than a piece, were not decoded.
pub fn handle_input<R: Read, C, H: Handler<C, Fault = ToolFault>>(
    alloc: Global,
    reader: &mut R,
    context: &mut C,
    counted: &mut Counted<H>,
) -> Result<u32, ToolFault>
    requires { counted.old.count ≡ 0 }
    ensures { ReadsInput H.handles (R.remaining reader.old) (R.remaining reader.new)
        (counted.old.handler, context.old) result (counted.new.handler, context.new) }
{
    ill_der::laws::short_has_the_size();
    let mut feed = Feed::new(alloc);
    let mut piece = [0; PIECE];
    loop {
        match reader.read(&mut piece) {
            Ok(0) => return end(&feed, counted.count),
            Ok(size) => match feed.each(&piece[..size], context, counted) {
                Ok(None) => {}
                Ok(Some(fault)) => return Err(ToolFault::Der(fault)),
                Err(fault) => return Err(fault),
            },
            Err(_) => return Err(ToolFault::Read),
        }
    }
}

/// Returns `count` if the input may end here: no part of an APDU is left in `feed`. Else fails with the fault of
/// `feed`.
fn end(feed: &Feed, count: u32) -> Result<u32, ToolFault>
    ensures { result ≡ answer_at_end (end_of feed.now) count }
{
    match feed.end() {
        Ok(()) => Ok(count),
        Err(fault) => Err(ToolFault::Der(fault)),
    }
}

/// Returns all bytes of the input. If they are more than `limit`, the fault is `too_long`, and if the reader fails, it
/// is `Read`. It reads at most 4,096 bytes at a time, and less than a piece after the limit.
pub fn read_whole<R: Read>(
    alloc: Global,
    reader: &mut R,
    limit: usize,
    too_long: ToolFault,
) -> Result<Vec<u8>, ToolFault>
    ensures whole { IfOk result (λ bytes. IsWhole limit (R.remaining reader.old) (R.remaining reader.new) bytes.items) }
    ensures fault { IfErr result (StopsWhole limit too_long (R.remaining reader.old) (R.remaining reader.new)) }
{
    let mut bytes = Vec::new(alloc);
    let mut piece = [0; PIECE];
    loop {
        match reader.read(&mut piece) {
            Ok(0) => return Ok(bytes),
            Ok(size) => {
                if size > limit.saturating_sub(bytes.len()) {
                    return Err(too_long);
                }
                bytes.extend_from_slice(&piece[..size])?;
            }
            Err(_) => return Err(ToolFault::Read),
        }
    }
}

/// Returns the messages in `bytes`, up to the first part that is no message.
pub fn apdus_in(alloc: Global, bytes: &[u8]) -> Result<Vec<Apdu>, OutOfMemory>
    ensures { IfOk result (λ came. AreIn bytes.now came.items) }
{
    let mut feed = Feed::new(alloc);
    Ok(feed.push(bytes)?.apdus)
}
