//! States the laws of single rows of the tables, as contracts of functions that do nothing.
//!
//! They are statements on the definitions alone. They hold of every record, unless a premise restricts it.

mod names;
mod requester;
mod responder;
mod turns;

pub use names::{state_names_are_read, verb_names_are_read};
pub use requester::{
    requester_answers_once, requester_follows, requester_has_begun, requester_has_heard,
    requester_holds, requester_is_final, requester_is_quiet, requester_issues, requester_keeps_due,
    requester_keeps_rules, requester_keeps_txn, requester_reflects, requester_replies,
    requester_rules, requester_shows, requester_stays_later,
};
pub use responder::{
    responder_answers_last, responder_answers_once, responder_ends, responder_ends_once,
    responder_enters_by_end, responder_follows, responder_grants_rise, responder_has_answered_last,
    responder_has_begun, responder_has_heard, responder_is_final, responder_is_overdue,
    responder_is_quiet, responder_issues, responder_keeps_last, responder_keeps_request,
    responder_keeps_rules, responder_keeps_txn, responder_recalls, responder_rules,
    responder_shows, responder_stays_later, responder_was_asked,
};
pub use turns::{
    requester_verbs_are_exact, responder_verbs_are_exact, turns_have_verbs, what_is_over_stays,
    who_waits_has_early_verbs,
};
