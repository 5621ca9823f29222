// Reading a session file into lists that the caller lends.
#![tactic(auto)]

mod checks;
pub mod lists;
pub mod loading;
mod reading;
