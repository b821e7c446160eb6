// Signals, cells and kits: what a kit of blocks is, and the joining of two.
#![tactic(auto)]

pub mod joined;
pub mod question;
pub mod signal;
pub mod table;
