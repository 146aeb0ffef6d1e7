//! Bytes that come in pieces, and the APDUs in them.

ghost use Rattle.std.specs.Prelude.{◌≡◌, ◌+◌, ◌-◌, ◌≤◌, [], ◌∷◌, ◌++◌, length, take, min, IfOk, IsOk, OnOk};
ghost use Rattle.ill_der.specs.ShortForm.{apdu_at};
ghost use Rattle.ill_der.specs.Stream.{IsUnfinished};
ghost use Rattle.ill_der.specs.Feed.{FeedState, Leaves, Pushes, fault_of, end_of};
ghost use Rattle.ill_der.specs.Handling.{HandlesEach};
ghost use Rattle.ill_der.specs.FeedView.{held_of, closing, Holds, Fills, HandlesRest, CollectsApdu};

use crate::apdu_view::ApduView;
use crate::fault::DerFault;
use crate::handling::{Handler, handle_all, handle_first};
use crate::header::APDU_LIMIT;
use crate::laws;
use ill_values::{Apdu, OutOfMemory};
use std::alloc::Global;
use std::marker::Model;

/// Takes the bytes of APDUs, one after another, in pieces that are cut anywhere.
///
/// It holds the bytes of an unfinished APDU, at most 358, until the other bytes have come. The first
/// fault of the bytes closes it.
#[derive(Debug, Drop)]
pub struct Feed {
    /// Gives memory for the APDUs of a push.
    alloc: Global,
    /// Its first `size` bytes are held.
    buffer: [u8; APDU_LIMIT],
    /// The number of held bytes, at most 358.
    size: usize,
    /// The fault that closed the feed, if it is closed.
    closed: Option<DerFault>,
}

/// In proofs a feed is its held bytes, the first `size` of `buffer`, or the fault that closed it.
impl Model for Feed {
    ghost Value = { FeedState };

    ghost view = { λ f. held_of f.closed (take f.size f.buffer) };

    ghost invariant = { λ f. Holds f.size f.buffer };
}

/// The outcome of a push.
#[derive(Debug, Drop)]
pub struct Pushed {
    /// The APDUs that the piece completed, in their order, up to the first fault.
    pub apdus: Vec<Apdu>,
    /// The fault that closed the feed, if it is closed.
    pub fault: Option<DerFault>,
}

impl Feed {
    /// Returns a feed that holds nothing. Allocates nothing.
    pub fn new(alloc: Global) -> Feed
        ensures { result ≡ Ok [] }
    {
        Feed {
            alloc,
            buffer: [0; APDU_LIMIT],
            size: 0,
            closed: None,
        }
    }

    /// Pushes `piece`. Returns each APDU that it completes before the first fault, and that fault.
    ///
    /// After a fault, each push returns no APDU and that fault. Memory can run out only if the held bytes of
    /// an open feed, followed by `piece`, begin with an APDU. The feed is then unchanged.
    pub fn push(&mut self, piece: &[u8]) -> Result<Pushed, OutOfMemory>
        ensures { Pushes self.old piece.now result self.new }
    {
        let mut collector = Collector {
            apdus: Vec::new(self.alloc),
        };
        let mut nothing = ();
        match self.each(piece, &mut nothing, &mut collector) {
            Ok(fault) => Ok(Pushed {
                apdus: collector.apdus,
                fault,
            }),
            Err(fault) => Err(fault),
        }
    }

    /// Pushes `piece`. Hands each APDU that it completes before the first fault to `handler`, one after
    /// another, and returns that fault. Allocates nothing itself. An APDU that lies wholly in `piece` is viewed without
    /// a copy.
    ///
    /// After a fault, hands on no APDU and returns that fault. If handling fails, the feed is unchanged. A
    /// second push of `piece` would then hand on its first APDUs again.
    pub fn each<C, H: Handler<C>>(
        &mut self,
        piece: &[u8],
        context: &mut C,
        handler: &mut H,
    ) -> Result<Option<DerFault>, H::Fault>
        ensures { HandlesEach H.handles
            (self.old, (handler.old, context.old)) piece.now result
            (self.new, (handler.new, context.new)) }
    {
        match self.closed {
            None => self.complete(piece, context, handler),
            Some(fault) => Ok(Some(fault)),
        }
    }

    /// Returns `Ok` if the feed is open and holds no bytes, so that the input may end here. If it holds
    /// bytes, the fault is `Short` with their number. A closed feed returns the fault that closed it.
    pub fn end(&self) -> Result<(), DerFault>
        ensures end { result ≡ end_of self.now }
        ensures most { IfOk self.now (λ held. length held ≤ 358) }
    {
        match self.closed {
            None if self.size == 0 => Ok(()),
            None => Err(DerFault::Short(self.size as u16)),
            Some(fault) => Err(fault),
        }
    }

    /// Pushes `piece` into an open feed. Completes the APDU whose bytes are held, if any, and then handles
    /// the APDUs after it.
    fn complete<C, H: Handler<C>>(
        &mut self,
        piece: &[u8],
        context: &mut C,
        handler: &mut H,
    ) -> Result<Option<DerFault>, H::Fault>
        requires { IsOk self.old }
        ensures { HandlesEach H.handles
            (self.old, (handler.old, context.old)) piece.now result
            (self.new, (handler.new, context.new)) }
    {
        laws::read_again();
        laws::short_has_the_size();
        if self.size == 0 {
            return self.hand_on(piece, context, handler);
        }
        let filled = fill(&mut self.buffer, self.size, piece);
        match handle_first(self.alloc, &self.buffer[..filled], context, handler) {
            Ok(Ok(end)) => {
                let after = end - self.size;
                self.hand_on(&piece[after..], context, handler)
            }
            Ok(Err(fault)) => match closing(fault) {
                None => {
                    self.size = filled;
                    Ok(None)
                }
                Some(fault) => {
                    self.closed = Some(fault);
                    Ok(Some(fault))
                }
            },
            Err(fault) => Err(fault),
        }
    }

    /// Hands on the APDUs with which `bytes` begins. Then the rest replaces the held bytes, or its fault closes the
    /// feed and is returned. If handling fails, the feed is unchanged.
    fn hand_on<C, H: Handler<C>>(
        &mut self,
        bytes: &[u8],
        context: &mut C,
        handler: &mut H,
    ) -> Result<Option<DerFault>, H::Fault>
        requires { IsOk self.old }
        ensures { HandlesRest H.handles
            (self.old, (handler.old, context.old)) bytes.now result
            (self.new, (handler.new, context.new)) }
    {
        match handle_all(self.alloc, bytes, context, handler) {
            Ok((at, fault)) => Ok(self.leave(&bytes[at..], fault)),
            Err(fault) => Err(fault),
        }
    }

    /// Takes `rest`, whose fault is `fault`. If that is `Short`, `rest` replaces the held bytes, and the result is
    /// `None`. Any other fault closes the feed and is returned.
    fn leave(&mut self, rest: &[u8], fault: DerFault) -> Option<DerFault>
        requires opened { IsOk self.old }
        requires fault { apdu_at rest.now ≡ Err fault }
        ensures leaves { Leaves rest.now self.new }
        ensures fault { result ≡ fault_of self.new }
    {
        laws::short_has_the_size();
        match closing(fault) {
            None => {
                self.size = fill(&mut self.buffer, 0, rest);
                None
            }
            Some(fault) => {
                self.closed = Some(fault);
                Some(fault)
            }
        }
    }
}

/// Returns `fault` if it closes a feed whose unread bytes have it. Returns `None` for `Short`, which closes no feed.
fn closing(fault: DerFault) -> Option<DerFault>
    ensures { result ≡ closing fault }
{
    match fault {
        DerFault::Short(_) => None,
        fault => Some(fault),
    }
}

/// Copies `piece` into `buffer` after its first `size` bytes, as far as there is room. Returns the
/// number of bytes that `buffer` then holds.
fn fill(buffer: &mut [u8; APDU_LIMIT], size: usize, piece: &[u8]) -> usize
    requires { size ≤ 359 }
    ensures { Fills buffer.old buffer.new size piece.now result }
{
    let count = piece.len().min(APDU_LIMIT - size);
    buffer[size..size + count].copy_from_slice(&piece[..count]);
    size + count
}

/// A handler that appends each APDU to a list.
#[derive(Drop)]
struct Collector {
    apdus: Vec<Apdu>,
}

impl Handler<()> for Collector {
    type Fault = OutOfMemory;

    ghost handles = { CollectsApdu };

    fn handle(
        &mut self,
        alloc: Global,
        _context: &mut (),
        apdu: &ApduView<'_>,
    ) -> Result<(), OutOfMemory> {
        let apdu = apdu.to_apdu(alloc)?;
        self.apdus.push(apdu)?;
        Ok(())
    }
}
