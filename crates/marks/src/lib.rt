// Marks: the values and signals of a list of ticks as they are read and printed.
#![tactic(auto)]

pub mod mark;
pub mod report;
pub mod value;
