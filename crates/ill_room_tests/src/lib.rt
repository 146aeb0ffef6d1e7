//! Tests of the rooms of a night's message files.
#![tactic(auto)]

#[cfg(test)]
mod runs;
