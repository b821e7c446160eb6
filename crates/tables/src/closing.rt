// Closing a tick: the cells move only if no wire is unknown.
ghost use Rattle.std.specs.Prelude.{◌≡◌, length, not, position, Ok};
ghost use Rattle.text.specs.Results.{then};
ghost use Rattle.kit.specs.Known.{is_known};
ghost use Rattle.diagram.specs.Diagrams.{drawing};
ghost use Rattle.diagram.specs.Marks.{Below};
ghost use Rattle.diagram.specs.Wiring.{ins};
ghost use Rattle.machine.specs.Tables.{next_cell};
ghost use Rattle.machine.specs.Machine.{next_cells};
ghost use Rattle.tables.specs.Closings.{kept_answer, kept_cells};
ghost use Rattle.tables.specs.Fitting.{fitting, where_taken};
ghost use Rattle.tables.specs.InPlace.{Fit};

use crate::firing::view_of;
use crate::lengths::check_lengths;
use diagram::diagram::Diagram;
use draft::block::Block;
use kit::question::Kit;
use kit::signal::{Cell, Signal};
use machine::answers::Closed;
use text::fault::Fault;

// The lowest unknown wire.
fn lowest_unknown<V>(wires: &[Signal<V>]) -> Option<usize>
    ensures { result ≡ position (λ s. not (is_known s)) wires.now }
{
    wires.iter().position(|wire| !wire.is_known())
}

// A block's cell after the tick.
fn next_of<V: Copy, K: Kit<V>>(
    kit: &K,
    block: &Block,
    cell: Cell<V>,
    wires: &[Signal<V>],
) -> Cell<V>
    requires { Below (length wires.now) (ins block.now.inputs) }
    ensures { result ≡ next_cell (K.Kit.meaning kit.now) wires.now block.now cell }
{
    kit.next(&view_of(wires, block, cell))
}

// Every cell becomes its next. The tables come apart: `Tables` lends its cells for reading only.
fn move_cells<V: Copy, K: Kit<V>>(
    kit: &K,
    diagram: &Diagram,
    cells: &mut [Cell<V>],
    wires: &[Signal<V>],
)
    requires { Fit (drawing diagram.now) wires.now cells.old }
    ensures { cells.new ≡ next_cells (K.Kit.meaning kit.now) wires.now (drawing diagram.now).blocks cells.old }
{
    // by number: of cells that a zip has lent for writing a proof knows only how many there are
    for (k, block) in diagram.blocks().iter().enumerate() {
        cells[k] = next_of(kit, block, cells[k], wires);
    }
}

// Keeps a tick if it is determined: then every cell becomes its next.
pub fn keep<V: Copy, K: Kit<V>>(
    kit: &K,
    diagram: &Diagram,
    cells: &mut [Cell<V>],
    wires: &mut [Signal<V>],
) -> Result<Closed, Fault>
    ensures answer { result ≡ then (fitting (drawing diagram.now) wires.old cells.old) (λ _. Ok (kept_answer wires.old)) }
    ensures after { cells.new ≡ where_taken (fitting (drawing diagram.now) wires.old cells.old) (kept_cells (K.Kit.meaning kit.now) (drawing diagram.now) wires.old cells.old) cells.old }
    ensures wires { wires.new ≡ wires.old }
{
    check_lengths(diagram, wires.len(), cells.len())?;
    match lowest_unknown(wires) {
        Some(lowest) => Ok(Closed::Undetermined(lowest)),
        None => {
            move_cells(kit, diagram, cells, wires);
            Ok(Closed::Kept)
        }
    }
}
