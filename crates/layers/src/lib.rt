// The layers from the months' cells to the margin and the world handed out, worked out as they are defined.
#![tactic(auto)]

pub mod amounts;
pub mod baskets;
pub mod families;
pub mod fitted;
pub mod month_cells;
pub mod months;
pub mod naming;
pub mod outcome;
pub mod part;
pub mod pick;
pub mod rows;
pub mod scene;
pub mod world;
