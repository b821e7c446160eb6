// Diagrams: drafts whose wiring is checked, read from a text and written back as that text.
#![tactic(auto)]

pub mod diagram;
mod driven;
pub mod line;
pub mod wiring;
