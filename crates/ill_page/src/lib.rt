//! The pages of desks and of a loan in a browser, with a form for each action that may be done now, and the replies
//! that carry them. All words stand in `words`.
#![tactic(auto)]

mod desks;
mod forms;
mod headers;
pub mod laws;
mod page;
mod parts;
mod reply;
pub mod words;

pub use desks::{DeskShown, begin_desks, end_desks, push_desk_part};
pub use page::{LoanShown, figures_page, loan_page, notice_page};
pub use reply::{Status, page_reply, seen_reply};
