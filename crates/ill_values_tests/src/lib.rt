//! Tests the values by the functions that `ill_values` exports.
#![tactic(auto)]

#[cfg(test)]
mod bodies;
#[cfg(test)]
mod days;
#[cfg(test)]
mod equality;
#[cfg(test)]
mod names;
#[cfg(test)]
mod texts;
