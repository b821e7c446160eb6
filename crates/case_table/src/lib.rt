// A table of cases is tried, and what went otherwise than it says is told.
#![tactic(auto)]

pub mod kept;
mod report;
pub mod table;
mod told;
