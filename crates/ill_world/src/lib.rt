//! The model of an interlibrary loan has two sides of one transaction, or two desks of many. Events are performed one
//! by one, as a list, or from a script.
#![tactic(auto)]

pub mod desk_laws;
mod desk_party;
mod desk_script;
mod desk_sent;
mod desk_simulation;
mod desk_world;
mod event;
pub mod laws;
mod message;
mod party;
mod script;
mod sent;
pub mod shelf_laws;
mod simulation;
mod trace;
mod world;

pub use desk_simulation::simulate_desks;
pub use desk_world::{DeskWorld, run_desks};
pub use event::{DeskEvent, Event};
/// The role of the side to which an event happens. `Who` is another name of it.
pub use ill_saved::{Role, Role as Who};
pub use ill_script::SimFault;
pub use ill_words::{
    Bytes, DeskOutcome, Outcome, is_over, push_shown, push_side, wants_sending, words,
};
pub use simulation::simulate;
pub use world::{World, run};
