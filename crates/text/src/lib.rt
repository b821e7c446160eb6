// What every text of the bench is made of: lines, fields and numbers, and the faults that refuse them.
#![tactic(auto)]

pub mod cut;
pub mod fault;
pub mod fields;
pub mod lines;
pub mod numerals;
