// The text of a session file, read at its lowest layer: its numbers, and the shape of brackets, heads and lines.
#![tactic(auto)]

pub mod number;
pub mod shape;
