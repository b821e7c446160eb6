// Blocks, and drafts of diagrams: what a text draws, before its wiring is checked.
#![tactic(auto)]

pub mod block;
pub mod draft;
pub mod limits;
pub mod lines;
pub mod ports;
