// The checks of a draft's wiring.
ghost use Rattle.std.specs.Prelude.{◌≡◌};
ghost use Rattle.draft.specs.Drafts.{drawing_of};
ghost use Rattle.diagram.specs.Wiring.{ins, outs, each_within, block_within, ports_within, wiring_of};

use crate::driven::Driven;
use draft::block::{Block, InPorts, OutPorts, Wire};
use draft::draft::Draft;
use text::fault::{Cause, Fault};

// Ports of block k have to name wires from low to high - 1.
fn within(low: Wire, high: Wire, k: usize, ports: &[Wire]) -> Result<(), Fault>
    ensures { result ≡ each_within low high k ports.now }
{
    for w in ports {
        if !(low..high).contains(w) {
            return Err(Fault::new(Cause::PortOutside, k, usize::from(*w)));
        }
    }
    Ok(())
}

// Input ports may name any wire below high. (One function for both sides would be a trait for the two enums.)
fn inputs_within(high: Wire, k: usize, ports: InPorts) -> Result<(), Fault>
    ensures { result ≡ each_within 0 high k (ins ports) }
{
    match ports {
        InPorts::Zero => Ok(()),
        InPorts::One(a) => within(0, high, k, &[a]),
        InPorts::Two(a, b) => within(0, high, k, &[a, b]),
        InPorts::Three(a, b, c) => within(0, high, k, &[a, b, c]),
    }
}

fn outputs_within(low: Wire, high: Wire, k: usize, ports: OutPorts) -> Result<(), Fault>
    ensures { result ≡ each_within low high k (outs ports) }
{
    match ports {
        OutPorts::One(p) => within(low, high, k, &[p]),
        OutPorts::Two(p, q) => within(low, high, k, &[p, q]),
    }
}

// Every port of block k, from the left.
fn block_within(inputs: Wire, wires: Wire, k: usize, block: &Block) -> Result<(), Fault>
    ensures { result ≡ block_within inputs wires k block.now }
{
    inputs_within(wires, k, block.inputs)?;
    outputs_within(inputs, wires, k, block.outputs)
}

// Every port of every block.
pub(crate) fn ports_within(inputs: Wire, wires: Wire, blocks: &[Block]) -> Result<(), Fault>
    ensures { result ≡ ports_within inputs wires 0 blocks.now }
{
    for (k, block) in blocks.iter().enumerate() {
        block_within(inputs, wires, k, block)?;
    }
    Ok(())
}

// The three checks, in the order in which their faults are told.
pub(crate) fn check(draft: &Draft) -> Result<(), Fault>
    ensures { result ≡ wiring_of (drawing_of draft.now) }
{
    let inputs = draft.inputs();
    let wires = draft.wires();
    let blocks = draft.blocks();
    ports_within(inputs, wires, blocks)?;
    let driven = Driven::of(blocks)?;
    match driven.first_missing(inputs, wires) {
        Some(w) => Err(Fault::new(Cause::NotDriven, blocks.len(), usize::from(w))),
        None => Ok(()),
    }
}
