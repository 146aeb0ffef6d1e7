//! The commands that visit the desks at some paths, and only read them: lists, news, figures and a page.
#![tactic(auto)]

mod counting;
mod listing;
mod telling;
mod visit;
pub mod visits;
