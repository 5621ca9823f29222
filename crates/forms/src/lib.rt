// The forms of a session file: kinds of form, and one reader for all of them.
#![tactic(auto)]

pub mod field;
pub mod kind;
pub mod reader;
mod rows;
mod steps;
mod takes;
