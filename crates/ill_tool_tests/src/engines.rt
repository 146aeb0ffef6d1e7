//! Calls the engines of the commands `simulate` and `simulate-desks` on streams.

use ill_session_kit::Call;
use ill_session_kit::engine::Engine;
use ill_test_kit::Page;
use ill_tool::{ToolFault, run_simulate, run_simulate_desks};
use std::alloc::Global;

/// The engine that is called.
#[derive(Clone, Copy)]
pub enum Simulation {
    /// The engine of `simulate`, for two sides.
    Sides,
    /// The engine of `simulate-desks`, for two desks.
    Desks,
}

impl Engine for Simulation {
    /// Calls the engine on the streams of `call`, and prints its answer. Returns None if the words are no call of it.
    fn answer(&self, alloc: Global, page: &mut Page, call: &mut Call<'_>) -> Option<()> {
        match self {
            Simulation::Sides => simulate(alloc, page, call),
            Simulation::Desks => {
                call.begin(alloc);
                let answer = run_simulate_desks(alloc, &mut call.source, &mut call.output);
                let answer = call.end_engine(alloc, answer, &ToolFault::OutOfMemory);
                call.print_answer(page, &answer);
                Some(())
            }
        }
    }
}

/// Performs `simulate GROUP TRANSACTION` on the streams of `call`, and prints its answer.
fn simulate(alloc: Global, page: &mut Page, call: &mut Call<'_>) -> Option<()> {
    let [group, transaction] = call.words else {
        return None;
    };
    call.begin(alloc);
    let answer = run_simulate(
        alloc,
        group.text.as_str(),
        transaction.text.as_str(),
        &mut call.source,
        &mut call.output,
    );
    let answer = call.end_engine(alloc, answer, &ToolFault::OutOfMemory);
    call.print_answer(page, &answer);
    Some(())
}
