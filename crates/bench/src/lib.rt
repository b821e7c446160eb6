// Lists of ticks: the text of a diagram and tick lines, played on a run, and what they print.
#![tactic(auto)]

pub mod cut;
pub mod input;
mod line;
pub mod list;
mod ticks;
