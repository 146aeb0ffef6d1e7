//! Tests a `Feed` with two others beside it.

use crate::words::push_apdu;
use ill_der::{ApduView, DerFault, Feed, Handler, Pushed};
use ill_test_kit::Page;
use ill_test_kit::marks::{quietly, tried};
use ill_values::{Apdu, OutOfMemory};
use std::alloc::Global;

/// The outcome of a push: a line for each APDU, and the fault if there is one.
#[derive(Drop)]
pub struct PushOutcome {
    /// A line for each APDU.
    pub apdus: Page,
    /// The fault, if there is one.
    pub fault: Option<DerFault>,
}

/// A feed that gets pieces by `push`, two others that get them by `each`, and their outcomes.
#[derive(Drop)]
pub struct TestedFeeds {
    /// The allocator of all values.
    alloc: Global,
    /// The feed that gets the pieces by `push`.
    pushed: Feed,
    /// The feed that gets the pieces by `each`, with a handler that takes memory.
    handed: Feed,
    /// The feed that gets the pieces by `each`, with a handler that takes no memory.
    viewed: Feed,
    /// A line for each APDU that was given.
    apdus: Page,
    /// The fault of the last push, if there is one.
    fault: Option<DerFault>,
    /// The last call that contradicted another, if there is one.
    differing: Option<&'static [u8]>,
}

impl TestedFeeds {
    /// Returns feeds that have got no piece yet.
    pub fn new(alloc: Global) -> TestedFeeds {
        TestedFeeds {
            alloc,
            pushed: new_feed(alloc),
            handed: new_feed(alloc),
            viewed: new_feed(alloc),
            apdus: Page::new(alloc),
            fault: None,
            differing: None,
        }
    }

    /// Returns feeds that have got these pieces, one after another.
    pub fn of(alloc: Global, pieces: &[&[u8]]) -> TestedFeeds {
        let mut fed = TestedFeeds::new(alloc);
        for piece in pieces {
            fed.push(piece);
        }
        fed
    }

    /// Gives a piece to all feeds, and returns the outcome of its push.
    pub fn push(&mut self, piece: &[u8]) -> PushOutcome {
        let pushed = push(self.alloc, &mut self.pushed, piece);
        if let Some(call) = self.differing_call(piece, &pushed) {
            self.differing = Some(call);
        }
        let given = PushOutcome::of(self.alloc, &pushed);
        self.apdus.page(&given.apdus);
        self.fault = given.fault;
        given
    }

    /// Gives a piece to the feeds of `each`. Returns the call that contradicts `pushed`, if there is one.
    fn differing_call(&mut self, piece: &[u8], pushed: &Option<Pushed>) -> Option<&'static [u8]> {
        let Some(pushed) = pushed else {
            return Some(b"push");
        };
        let is_handed = is_handed(self.alloc, &mut self.handed, piece, pushed);
        let is_viewed = is_viewed(self.alloc, &mut self.viewed, piece, pushed);
        let end = end(self.alloc, &self.pushed);
        if !is_handed || !is_viewed || end != self.handed.end() || end != self.viewed.end() {
            Some(b"each")
        } else if self.fault.is_some() && pushed.fault != self.fault {
            Some(b"push")
        } else {
            None
        }
    }

    /// Returns true if both have given the same APDUs and fault, and agree on the end. They must also agree on the call
    /// that contradicted another.
    pub fn agrees_with(&self, other: &TestedFeeds) -> bool {
        self.apdus.so_far() == other.apdus.so_far()
            && self.fault == other.fault
            && self.pushed.end() == other.pushed.end()
            && self.differing == other.differing
    }

    /// Adds the count of APDUs that were given.
    pub fn push_count(&self, output: &mut Page) {
        let count = self
            .apdus
            .so_far()
            .iter()
            .filter(|byte| **byte == b'\n')
            .count();
        output.push(b"APDUs: ");
        output.show(&count);
    }

    /// Adds the answer of `end`, and the call that contradicts it or `push`, if there is one.
    pub fn push_end(&self, output: &mut Page) {
        output.push(b"end: ");
        match self.pushed.end() {
            Ok(()) => output.push(b"between APDUs"),
            Err(fault) => output.show(&fault),
        }
        if let Some(call) = self.differing {
            output.push(b", DIFFERS: ");
            output.push(call);
        }
        output.octet(b'\n');
        if self.apdus.bytes().is_none() {
            output.lose();
        }
    }
}

impl PushOutcome {
    /// Returns the outcome of a push in words.
    fn of(alloc: Global, pushed: &Option<Pushed>) -> PushOutcome {
        let mut apdus = Page::new(alloc);
        let Some(pushed) = pushed else {
            return PushOutcome { apdus, fault: None };
        };
        for apdu in &pushed.apdus {
            push_apdu(&mut apdus, apdu);
            apdus.octet(b'\n');
        }
        PushOutcome {
            apdus,
            fault: pushed.fault,
        }
    }
}

/// Returns a feed that has got no bytes.
fn new_feed(alloc: Global) -> Feed {
    quietly(alloc, || Feed::new(alloc))
}

/// Returns the answer of `end`.
fn end(alloc: Global, feed: &Feed) -> Result<(), DerFault> {
    quietly(alloc, || feed.end())
}

/// Returns the result of `push`. It is `None` if the call fails, or changes the feed while an allocation is refused. It
/// is also `None` if the call gives no APDU and still takes memory.
fn push(alloc: Global, feed: &mut Feed, piece: &[u8]) -> Option<Pushed> {
    let before = feed.end();
    let (mut tries, mut stays) = (0_u32, true);
    let pushed = tried(alloc, OutOfMemory, || {
        tries = tries.saturating_add(1);
        stays &= feed.end() == before;
        feed.push(piece)
    });
    let pushed = pushed.ok()?;
    let is_right = stays && (tries == 1 || !pushed.apdus.is_empty());
    if is_right { Some(pushed) } else { None }
}

/// Returns true if `each` gives the result of `pushed` to a handler that takes memory. If an allocation is refused, the
/// feed must stay unchanged.
fn is_handed(alloc: Global, feed: &mut Feed, piece: &[u8], pushed: &Pushed) -> bool {
    let before = feed.end();
    let mut stays = true;
    let handed = tried(alloc, OutOfMemory, || {
        stays &= feed.end() == before;
        let mut apdus = Vec::new(alloc);
        let fault = feed.each(piece, &mut apdus, &mut Collector)?;
        Ok((apdus, fault))
    });
    match handed {
        Ok((apdus, fault)) => stays && apdus == pushed.apdus && fault == pushed.fault,
        Err(_) => false,
    }
}

/// Returns true if `each` gives the result of `pushed` to a handler that takes no memory, and takes none itself.
fn is_viewed(alloc: Global, feed: &mut Feed, piece: &[u8], pushed: &Pushed) -> bool {
    let mut viewer = Viewer {
        expected: &pushed.apdus,
        is_right: true,
    };
    let fault = quietly(alloc, || feed.each(piece, &mut (), &mut viewer));
    fault == Ok(pushed.fault) && viewer.is_right && viewer.expected.is_empty()
}

/// A handler that copies each APDU into a list.
#[derive(Drop)]
struct Collector;

impl Handler<Vec<Apdu>> for Collector {
    type Fault = OutOfMemory;

    // The handler promises nothing of what it does with an APDU.
    ghost handles = { λ old apdu result new. Unit {0} };

    /// Adds a copy of the APDU to `apdus`. Fails if memory runs out.
    fn handle(
        &mut self,
        alloc: Global,
        apdus: &mut Vec<Apdu>,
        apdu: &ApduView<'_>,
    ) -> Result<(), OutOfMemory> {
        apdus.push(apdu.to_apdu(alloc)?)?;
        Ok(())
    }
}

/// A handler that compares the views with the expected APDUs, one after another.
#[derive(Drop)]
struct Viewer<'a> {
    /// The APDUs that are still expected.
    expected: &'a [Apdu],
    /// True if each view so far was as expected.
    is_right: bool,
}

impl Handler<()> for Viewer<'_> {
    type Fault = ();

    // The handler promises nothing of what it does with an APDU.
    ghost handles = { λ old apdu result new. Unit {0} };

    /// Compares the view `apdu` with the next APDU that is expected.
    fn handle(&mut self, _alloc: Global, _context: &mut (), apdu: &ApduView<'_>) -> Result<(), ()> {
        match self.expected {
            [first, after @ ..] => {
                self.is_right &= is_view_of(apdu, first);
                self.expected = after;
            }
            [] => self.is_right = false,
        }
        Ok(())
    }
}

/// Returns true if `view` has the type, transaction and number of `apdu`.
fn is_view_of(view: &ApduView<'_>, apdu: &Apdu) -> bool {
    view.group() == apdu.txn.group()
        && view.transaction() == apdu.txn.transaction()
        && view.number() == apdu.number
        && view.body().type_name() == apdu.body.type_name()
}
