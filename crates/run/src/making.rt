// New: a check, which may refuse, then a making, which cannot.
ghost use Rattle.std.specs.Prelude.{◌≡◌, length, replicate};
ghost use Rattle.kit.specs.declared.signal.Signal.TheVariants.{Unknown};
ghost use Rattle.diagram.specs.Diagrams.{drawing};
ghost use Rattle.diagram.specs.Wiring.{ins, outs};
ghost use Rattle.machine.specs.Machine.{check_new, fits, kinds_fit, starts};

use diagram::diagram::Diagram;
use draft::block::{Block, InPorts, OutPorts};
use kit::question::Kit;
use kit::signal::{Cell, Signal};
use tables::lengths::check_lengths;
use text::fault::{Cause, Fault};

// How many input ports a block has. The enums of either side have no list in common that could be counted.
fn inputs_in(ports: InPorts) -> u8
    ensures { result ≡ length (ins ports) }
{
    match ports {
        InPorts::Zero => 0,
        InPorts::One(_) => 1,
        InPorts::Two(_, _) => 2,
        InPorts::Three(_, _, _) => 3,
    }
}

// How many output ports a block has.
fn outputs_in(ports: OutPorts) -> u8
    ensures { result ≡ length (outs ports) }
{
    match ports {
        OutPorts::One(_) => 1,
        OutPorts::Two(_, _) => 2,
    }
}

// Whether the block has its kind's ports; every block has an output, so a kind that is not known never fits.
fn fit<V: Copy, K: Kit<V>>(kit: &K, block: &Block) -> bool
    ensures { result ≡ fits ((K.Kit.meaning kit.now).ports block.now.kind) block.now }
{
    let ports = kit.ports(block.kind);
    ports.inputs == inputs_in(block.inputs) && ports.outputs == outputs_in(block.outputs)
}

// Every block's kind, from block 0.
fn kinds_fit<V: Copy, K: Kit<V>>(kit: &K, blocks: &[Block]) -> Result<(), Fault>
    ensures { result ≡ kinds_fit (K.Kit.meaning kit.now) 0 blocks.now }
{
    for (k, block) in blocks.iter().enumerate() {
        if !fit(kit, block) {
            return Err(Fault::new(Cause::KitDiffers, k, 0));
        }
    }
    Ok(())
}

// What new refuses: the lengths of both tables, then the kinds.
pub(crate) fn check_new<V: Copy, K: Kit<V>>(
    kit: &K,
    diagram: &Diagram,
    wires: usize,
    cells: usize,
) -> Result<(), Fault>
    ensures { result ≡ check_new (K.Kit.meaning kit.now) (drawing diagram.now) wires cells }
{
    check_lengths(diagram, wires, cells)?;
    kinds_fit(kit, diagram.blocks())
}

// Every wire becomes unknown.
pub(crate) fn forget<V: Copy>(wires: &mut [Signal<V>])
    ensures { wires.new ≡ replicate (length wires.old) Unknown }
{
    wires.fill(Signal::Unknown);
}

// A block's first cell.
fn start_of<V: Copy, K: Kit<V>>(kit: &K, block: &Block) -> Cell<V>
    ensures { result ≡ (K.Kit.meaning kit.now).start block.now.kind block.now.parameter }
{
    kit.start(block.kind, block.parameter)
}

// Every cell becomes its block's start.
pub(crate) fn start_cells<V: Copy, K: Kit<V>>(kit: &K, diagram: &Diagram, cells: &mut [Cell<V>])
    requires { length cells.old ≡ length (drawing diagram.now).blocks }
    ensures { cells.new ≡ starts (K.Kit.meaning kit.now) (drawing diagram.now).blocks }
{
    // by number: of cells that a zip has lent for writing a proof knows only how many there are
    for (k, block) in diagram.blocks().iter().enumerate() {
        cells[k] = start_of(kit, block);
    }
}
