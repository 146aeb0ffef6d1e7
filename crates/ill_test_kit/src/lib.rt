//! The test programs share this kit. It reads the lines of the input, and collects the page that is printed. It names
//! values by words, reads numbers, makes a temporary folder, and gives streams that fail or are slow.
#![tactic(auto)]

mod cases;
mod folder;
mod lines;
pub mod marks;
mod naming;
mod numbers;
mod page;
mod streams;

pub use cases::{AnswersCases, Cases};
pub use folder::make_folder;
pub use lines::{INDENT, Lines, answer_lines};
pub use naming::named;
pub use numbers::{count_in, number_in, octet_in};
pub use page::Page;
pub use streams::{Failure, TestReader, TestWriter};
