//! Marks surround a call of a library. By them a shim knows which allocations to refuse.
//!
//! An allocation here is one of new memory, or of more memory, between two marks.
//!
//! A mark is an allocation of a size that the program needs nowhere else; `tools/refuse-nth.c` knows these sizes. In a
//! call that may answer out of memory the shim refuses one allocation, at first the first. If the call answers out of
//! memory, the shim refuses the next allocation in the next call. So a caller that repeats the call until no allocation
//! is refused has each allocation refused once. In a quiet call, which cannot answer out of memory, the shim refuses
//! every allocation. The shim tells `tools/out-of-memory` each allocation that it refused. It also tells each call that
//! answers out of memory without a refusal, or gives another answer after one.

use std::alloc::Global;

/// A call is tried at most this often. It needs one try more than it has allocations. Calls that take 512 messages have
/// the most allocations.
pub const TRIES: u16 = 2_000;

/// An allocation of this size begins a call that may answer out of memory.
const BEGIN: usize = 54_321;

/// An allocation of this size begins a call that takes no memory.
const BEGIN_QUIET: usize = 54_323;

/// An allocation of this size marks the end of a call, if it did not run out of memory.
const END: usize = 54_327;

/// An allocation of this size marks the end of a call that ran out of memory.
const END_OF_MEMORY: usize = 54_329;

/// An allocation of this size ends a call that may do without the refused memory.
const END_OR_WITHOUT: usize = 54_331;

/// Begins a call that may answer out of memory.
pub fn begin(alloc: Global) {
    mark(alloc, BEGIN);
}

/// Begins a quiet call, which takes no memory.
pub fn begin_quiet(alloc: Global) {
    mark(alloc, BEGIN_QUIET);
}

/// Ends a quiet call.
pub fn end_quiet(alloc: Global) {
    mark(alloc, END);
}

/// Ends a call that may answer out of memory; `says_memory` is true if it did. Returns true if an allocation was
/// refused. Then the call must have changed nothing, and is made again.
pub fn is_refused(alloc: Global, says_memory: bool) -> bool {
    mark(alloc, if says_memory { END_OF_MEMORY } else { END })
}

/// Ends a call that may do without the refused memory; `says_memory` is true if it answered out of memory. Returns true
/// if an allocation was refused. Then the case is performed again from its beginning.
pub fn is_refused_or_without(alloc: Global, says_memory: bool) -> bool {
    mark(
        alloc,
        if says_memory {
            END_OF_MEMORY
        } else {
            END_OR_WITHOUT
        },
    )
}

/// Makes a call, and repeats it while one of its allocations is refused. `memory` is the fault of a lack of memory, and
/// the answer after `TRIES` tries. A call that ends with another fault is then made once more, as a quiet call.
pub fn tried<T: Drop, F: Copy + PartialEq + Drop, Call: FnMut() -> Result<T, F>>(
    alloc: Global,
    memory: F,
    mut call: Call,
) -> Result<T, F>
    requires { Call.IsAlwaysCallable call }
{
    for _ in 0..TRIES {
        begin(alloc);
        let answer = call();
        let fault = answer.as_ref().err().copied();
        if !is_refused(alloc, fault == Some(memory)) {
            return match fault {
                Some(fault) if fault != memory => quietly(alloc, call),
                _ => answer,
            };
        }
    }
    Err(memory)
}

/// Makes a quiet call, and returns its answer.
pub fn quietly<T, Call: FnOnce() -> T>(alloc: Global, call: Call) -> T
    requires { Call.IsAlwaysCallable call }
{
    begin_quiet(alloc);
    let answer = call();
    end_quiet(alloc);
    answer
}

/// Allocates `size` bytes as a mark. Returns true if the shim refuses it.
fn mark(alloc: Global, size: usize) -> bool {
    Vec::<u8>::with_capacity(alloc, size).is_err()
}
