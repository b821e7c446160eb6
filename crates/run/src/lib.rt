// A run: the machine's calls over lent tables.
#![tactic(auto)]

pub mod admission;
pub mod making;
pub mod run;
pub mod token;
