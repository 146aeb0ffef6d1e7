//! Names the plans for the next call of a store.

use ill_saved::NextCall;
use ill_test_kit::named;

/// The words that name plans.
static PLANS: [(&str, NextCall); 3] = [
    ("works", NextCall::Works),
    ("fails-old", NextCall::FailsOld),
    ("fails-new", NextCall::FailsNew),
];

/// Returns the plan that `word` names, or `None` if it names none.
pub fn plan_of(word: &str) -> Option<NextCall> {
    named(&PLANS, word)
}
