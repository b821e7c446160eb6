// The two kinds of line of a diagram's text. At which field a function begins is its clause, as in `ports`.
ghost use Rattle.std.specs.Prelude.{◌≡◌};
ghost use Rattle.text.specs.Pieces.{fields_of};
ghost use Rattle.text.specs.Walk.{fields_in};
ghost use Rattle.draft.specs.Lines.{block_of, block_line, sizes_of, diagram_line};
ghost use Rattle.draft.specs.Walk.{Before};

use crate::block::{Block, Wire};
use crate::limits::{LAST_KIND, MOST_BLOCKS, MOST_INPUTS, MOST_WIRES};
use crate::ports::{in_ports, out_ports};
use text::fault::{Cause, Fault};
use text::fields::Fields;

// The fields after the word of a line that has eight.
#[tactic(auto, unfolding(crate::specs::Lines::kind_in))]
fn block(fields: &mut Fields) -> Result<Block, Fault>
    requires { Before fields.old 8 1 }
    ensures { result ≡ block_of fields.old.number (fields_in fields.old) }
{
    let kind = fields.next_number(LAST_KIND)? as u8;
    let parameter = fields.next_integer()?;
    let inputs = in_ports(fields)?;
    let outputs = out_ports(fields)?;
    Ok(Block {
        kind,
        parameter,
        inputs,
        outputs,
    })
}

// A block line, when `drawn` blocks are drawn.
#[tactic(auto, using(text::proofs::Cuts::some_piece))]
pub(crate) fn block_line(line: &[u8], number: usize, drawn: usize) -> Result<Block, Fault>
    ensures { result ≡ block_line number drawn (fields_of line.now) }
{
    let mut fields = Fields::of(line, number);
    fields.next_word(b"block")?;
    if drawn >= MOST_BLOCKS {
        return Err(Fault::new(Cause::TooManyBlocks, number, 1));
    }
    fields.expect_count(8)?;
    block(&mut fields)
}

// The fields after the word of a first line that has three: the numbers of inputs and of wires.
#[tactic(auto, unfolding(crate::specs::Lines::size_in))]
fn sizes(fields: &mut Fields) -> Result<(Wire, Wire), Fault>
    requires { Before fields.old 3 1 }
    ensures { result ≡ sizes_of fields.old.number (fields_in fields.old) }
{
    let inputs = fields.next_number(u32::from(MOST_INPUTS))? as Wire;
    let wires = fields.next_number(u32::from(MOST_WIRES))? as Wire;
    if wires < inputs {
        return Err(fields.fault(Cause::Range));
    }
    Ok((inputs, wires))
}

// The first line.
#[tactic(auto, using(text::proofs::Cuts::some_piece))]
pub(crate) fn diagram_line(line: &[u8]) -> Result<(Wire, Wire), Fault>
    ensures { result ≡ diagram_line (fields_of line.now) }
{
    let mut fields = Fields::of(line, 1);
    fields.next_word(b"diagram")?;
    fields.expect_count(3)?;
    sizes(&mut fields)
}
