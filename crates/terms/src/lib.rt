// The terms that every layer of the engine shares: cards, the half of a scenario grid, refusals and faults, and judging a list item by item.
#![tactic(auto)]

pub mod amounts;
pub mod cards;
pub mod fault;
pub mod half;
pub mod judge;
pub mod refusal;
