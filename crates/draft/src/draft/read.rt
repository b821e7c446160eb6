// Reading a draft from a text, line by line.
ghost use Rattle.std.specs.Prelude.{◌≡◌, ◌<◌, ◌≤◌, [], ◌∷◌, ◌++◌};
ghost use Rattle.text.specs.Results.{mapped};
ghost use Rattle.draft.specs.Limits.{most_inputs, most_wires, most_blocks};
ghost use Rattle.draft.specs.Drawings.{Drawing};
ghost use Rattle.draft.specs.Drafts.{drawing_of, drafted};
ghost use Rattle.draft.specs.Reading.{draft_of};

use crate::block::{Block, InPorts, OutPorts, Wire};
use crate::draft::Draft;
use crate::limits::MOST_BLOCKS;
use crate::lines::{block_line, diagram_line};
use text::fault::Fault;
use text::lines::Lines;

// Stands where no block is drawn. A constant: no variant of `OutPorts` is one that a derived `Default` takes.
const BLANK: Block = Block {
    kind: 0,
    parameter: 0,
    inputs: InPorts::Zero,
    outputs: OutPorts::One(0),
};

impl Draft {
    pub fn inputs(&self) -> Wire
        ensures { result ≡ (drawing_of self.now).inputs }
    {
        self.inputs
    }

    pub fn wires(&self) -> Wire
        ensures { result ≡ (drawing_of self.now).wires }
    {
        self.wires
    }

    pub fn blocks(&self) -> &[Block]
        ensures { result.now ≡ (drawing_of self.now).blocks }
    {
        &self.blocks[..self.count]
    }

    // No inputs, no wires and no blocks.
    pub fn empty() -> Draft
        ensures { drawing_of result ≡ record { inputs = 0; wires = 0; blocks = [] } }
    {
        Draft::sized(0, 0)
    }

    // No block yet.
    fn sized(inputs: Wire, wires: Wire) -> Draft
        requires { (inputs ≤ most_inputs) × ((inputs ≤ wires) × (wires ≤ most_wires)) }
        ensures { drawing_of result ≡ record { inputs = inputs; wires = wires; blocks = [] } }
    {
        Draft {
            inputs,
            wires,
            count: 0,
            blocks: [BLANK; MOST_BLOCKS],
        }
    }

    fn push(&mut self, block: Block)
        requires { self.old.count < most_blocks }
        ensures { drawing_of self.new ≡ drafted (drawing_of self.old) block }
    {
        self.blocks[self.count] = block;
        self.count += 1;
    }

    // What the text draws. It is walked once, where the caller has it.
    pub fn read(text: &[u8]) -> Result<Draft, Fault>
        ensures { mapped drawing_of result ≡ draft_of text.now }
    {
        let mut lines = Lines::of(text);
        let line = lines.next_line()?;
        let (inputs, wires) = diagram_line(line)?;
        let mut draft = Draft::sized(inputs, wires);
        while !lines.is_done() {
            let line = lines.next_line()?;
            let block = block_line(line, lines.taken(), draft.count)?;
            draft.push(block);
        }
        Ok(draft)
    }
}
