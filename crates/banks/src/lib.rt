// Price banks: each answers the price of one contract of a line in each scenario cell.
#![tactic(auto)]

pub mod bank;
pub mod pair;
pub mod scale;
pub mod size;
pub mod strip;
pub mod table;
