// Opening a profile: its diagram is read, and written back as it was read.
#![tactic(auto)]

pub mod input;
pub mod open;
