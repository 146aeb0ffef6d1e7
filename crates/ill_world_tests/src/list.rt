//! Collects events, one after another.

use std::alloc::Global;

/// A list of events, to which more are added. If an addition fails, the list is incomplete for good.
#[derive(Drop)]
pub struct EventList<E: Drop> {
    /// The events that were added.
    events: Vec<E>,
    /// True if no event is missing.
    is_whole: bool,
}

impl<E: Drop> EventList<E> {
    /// Returns an empty list.
    pub fn new(alloc: Global) -> EventList<E> {
        EventList {
            events: Vec::new(alloc),
            is_whole: true,
        }
    }

    /// Adds an event. If `event` is `None`, the list is incomplete from then on.
    pub fn push(&mut self, event: Option<E>) {
        let is_pushed = match event {
            Some(event) => self.events.push(event).is_ok(),
            None => false,
        };
        self.is_whole = self.is_whole && is_pushed;
    }

    /// Returns all events, or `None` if the list is incomplete.
    pub fn all(&self) -> Option<&[E]> {
        if self.is_whole {
            Some(&self.events)
        } else {
            None
        }
    }
}
