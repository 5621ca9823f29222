// The cards that an account begins with, judged: which names name something, which numbers lie in their fields, how many there may be.
#![tactic(auto)]

pub mod deck;
pub mod given;
mod judges;
mod lines;
pub mod making;
