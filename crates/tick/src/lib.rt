// One tick through the run's own calls, from begin to close.
#![tactic(auto)]

pub mod played;
pub mod tick;
