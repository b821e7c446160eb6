// The machine of the rules: what each call on a run answers and leaves, and what every log of calls keeps.
#![tactic(auto)]

pub mod answers;
pub mod stands;
