// A session file's day: from its bytes to what its account answers.
#![tactic(auto)]

mod calling;
mod filled;
mod lent;
mod over;
pub mod report;
pub mod session;
