// The account as a program: how it begins, the six calls, and runs of them.
#![tactic(auto)]

pub mod accounts;
pub mod answer;
mod blocked;
mod cash;
mod limits;
pub mod opening;
mod orders;
mod place;
mod requiring;
mod rests;
pub mod running;
mod taking;
mod trades;
mod view;
