// The limits of a diagram, each in this one place of the code; `specs/Limits.antt` has the same.
use crate::block::Wire;

// input wires
pub const MOST_INPUTS: Wire = 16;
// wires, the inputs among them
pub const MOST_WIRES: Wire = 144;
// the last wire that a text can name
pub const LAST_WIRE: u32 = MOST_WIRES as u32 - 1;

pub const MOST_BLOCKS: usize = 64;

pub const LAST_KIND: u32 = 255;
