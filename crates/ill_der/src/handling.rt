//! The handling of APDUs that follow one another in bytes.

ghost use Rattle.std.specs.Prelude.{◌≡◌, Result};
ghost use Rattle.ill_values.specs.declared.apdu.Apdu.{Apdu};
ghost use Rattle.ill_der.specs.FeedView.{HandlesFirst, HandlesAll};

use crate::apdu_view::ApduView;
use crate::decoding::view;
use crate::fault::DerFault;
use crate::laws;
use std::alloc::Global;

/// Handles APDUs, one after another. The caller lends it a context, such as a writer, or `()`.
pub trait Handler<C> {
    /// The fault of a failed handling.
    type Fault;

    /// Relates the handler and the context before, the APDU, the result, and the handler and the context
    /// after.
    ghost handles: { Self × C → Apdu → Result (Unit {0}) Self.Fault → Self × C → Type 0 };

    /// Handles `apdu`. After a fault, the caller hands on no further APDU of these bytes.
    fn handle(
        &mut self,
        alloc: Global,
        context: &mut C,
        apdu: &ApduView<'_>,
    ) -> Result<(), Self::Fault>
        ensures { handles (self.old, context.old) apdu.now result (self.new, context.new) };
}

/// Handles the APDU with which `bytes` begins, and returns its size, or the fault of `bytes`. The outer error is the
/// fault of a failed handling.
pub fn handle_first<C, H: Handler<C>>(
    alloc: Global,
    bytes: &[u8],
    context: &mut C,
    handler: &mut H,
) -> Result<Result<usize, DerFault>, H::Fault>
    ensures { HandlesFirst H.handles bytes.now (handler.old, context.old) result
        (handler.new, context.new) }
{
    laws::prefix_or_fault();
    match view(bytes) {
        Ok((apdu, size)) => match handler.handle(alloc, context, &apdu) {
            Ok(()) => Ok(Ok(size)),
            Err(fault) => Err(fault),
        },
        Err(fault) => Ok(Err(fault)),
    }
}

/// Handles the APDUs with which `bytes` begins, one after another. Returns the offset after the last of
/// them, and the fault of the bytes from that offset on. The error is the fault of a failed handling.
pub fn handle_all<C, H: Handler<C>>(
    alloc: Global,
    bytes: &[u8],
    context: &mut C,
    handler: &mut H,
) -> Result<(usize, DerFault), H::Fault>
    ensures { HandlesAll H.handles bytes.now (handler.old, context.old) result
        (handler.new, context.new) }
{
    let mut at = 0;
    loop {
        match handle_first(alloc, &bytes[at..], context, handler) {
            Ok(Ok(size)) => at += size,
            Ok(Err(fault)) => return Ok((at, fault)),
            Err(fault) => return Err(fault),
        }
    }
}
