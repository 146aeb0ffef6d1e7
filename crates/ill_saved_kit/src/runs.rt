//! Writes numbered texts, and equal neighbours only once.

use crate::line::Line;
use std::alloc::Global;

/// A run of equal texts, which have the numbers from `first` to `next` - 1.
#[derive(Drop)]
pub struct Run {
    /// The mark is written before each run of equal texts.
    mark: &'static str,
    /// The number of the first text of the run.
    first: usize,
    /// The number of the next text.
    next: usize,
    /// The text that the run repeats.
    text: Line,
}

impl Run {
    /// Returns an empty run whose first text will have the number `first`.
    pub fn new(alloc: Global, mark: &'static str, first: usize) -> Run {
        Run {
            mark,
            first,
            next: first,
            text: Line::new(alloc, None),
        }
    }

    /// Adds the next text to the run. If it differs from the run's, writes the run, and begins another one with the
    /// text.
    pub fn push(&mut self, line: &mut Line, text: Line) {
        if text.page().so_far() != self.text.page().so_far() {
            self.write(line);
            self.first = self.next;
            self.text = text;
        }
        self.next = self.next.saturating_add(1);
    }

    /// Writes the run that is not written yet.
    pub fn write(&self, line: &mut Line) {
        if self.next <= self.first {
            return;
        }
        line.text(self.mark);
        line.show(&self.first);
        let last = self.next.saturating_sub(1);
        if last > self.first {
            line.text("-");
            line.show(&last);
        }
        line.text(" ");
        line.line(&self.text);
    }
}
