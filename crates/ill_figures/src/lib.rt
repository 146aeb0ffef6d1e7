//! The figures of a desk over a span of days: how many loans were asked, how they ended, and how long they took. No
//! file and no lock is known here.
#![tactic(auto)]

mod count;
mod days;
pub mod figures;
pub mod laws;
mod loan_figures;
mod means;
mod mentions;
mod texts;
