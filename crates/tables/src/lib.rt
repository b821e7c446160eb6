// The tables of a run, a wire for each of the diagram's and a cell for each block: blocks fired, rounds, cells moved.
#![tactic(auto)]

pub mod closing;
pub mod firing;
pub mod lengths;
mod lent;
pub mod settling;
