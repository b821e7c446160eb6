// Whether tables fit a diagram.
ghost use Rattle.std.specs.Prelude.{◌≡◌, OnOk, length};
ghost use Rattle.diagram.specs.Diagrams.{drawing};
ghost use Rattle.machine.specs.Machine.{lengths_fit};

use diagram::diagram::Diagram;
use text::fault::{Cause, Fault};

// The wire table's length, then the cell table's.
pub fn check_lengths(diagram: &Diagram, wires: usize, cells: usize) -> Result<(), Fault>
    ensures answer { result ≡ lengths_fit (drawing diagram.now) wires cells }
    ensures fit { OnOk result ((wires ≡ (drawing diagram.now).wires) × (cells ≡ length (drawing diagram.now).blocks)) }
{
    let wanted = usize::from(diagram.wires());
    if wires != wanted {
        return Err(Fault::new(Cause::TableLength, wanted, wires));
    }
    let blocks = diagram.blocks();
    if cells != blocks.len() {
        return Err(Fault::new(Cause::TableLength, blocks.len(), cells));
    }
    Ok(())
}
