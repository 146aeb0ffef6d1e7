//! The texts that all commands share: APDUs in lines and in JSON, escapes, faults, and an input read APDU by APDU.
//! No desk, no file and no lock is known here.
#![tactic(auto)]

pub mod apdu_object;
pub mod check;
pub mod diary;
pub mod escape;
pub mod fault;
pub mod form;
pub mod html;
pub mod input;
pub mod json;
pub mod keys;
pub mod lines;
pub mod long_lines;
pub mod output;
pub mod show;
pub mod warning;
