// A draft: what a text draws, within the limits, with its wiring not yet checked.
ghost use Rattle.std.specs.Prelude.{◌≡◌, ℕ, ◌<◌, ◌≤◌, length, slice_index_or};
ghost use Rattle.draft.specs.Drawings.{blank, InRange};
ghost use Rattle.draft.specs.Limits.{most_inputs, most_wires, most_blocks};

use crate::block::{Block, Wire};
use crate::limits::MOST_BLOCKS;

pub mod read;

#[derive(Clone, Copy)]
pub struct Draft {
    inputs: Wire,
    wires: Wire,
    // an array with a count, since a draft is `Copy` and an `ArrayVec` is not: the first `count` blocks are drawn
    count: usize,
    blocks: [Block; MOST_BLOCKS],
    ghost few_inputs: { inputs ≤ most_inputs },
    ghost inputs_among: { inputs ≤ wires },
    ghost few_wires: { wires ≤ most_wires },
    ghost few_blocks: { count ≤ most_blocks },
    ghost room: { length blocks ≡ most_blocks },
    ghost in_range: { (k : ℕ) → k < count → InRange (slice_index_or blocks k blank) },
}
