// A run borrows its diagram, and its tables of wires and cells, for as long as it lives.
ghost use Rattle.std.specs.Prelude.{◌≡◌, false, length};
ghost use Rattle.diagram.specs.Diagrams.{drawing};
ghost use Rattle.run.specs.Phases.{is_void};

use crate::token::Tick;
use diagram::diagram::Diagram;
use kit::signal::{Cell, Signal};
use machine::answers::Phase;

pub mod calls;
pub mod new;

#[derive(Drop)]
pub struct Run<'d, 'w, 'c, V> {
    // the newest tick; none has begun while its count is 0
    tick: Tick,
    phase: Phase,
    diagram: &'d Diagram,
    wires: &'w mut [Signal<V>],
    cells: &'c mut [Cell<V>],
    // a run that is not void has a wire for each of the diagram's, and a cell for each block
    ghost wires_fit: { is_void phase ≡ false → length wires.now ≡ (drawing diagram.now).wires },
    ghost cells_fit: { is_void phase ≡ false → length cells.now ≡ length (drawing diagram.now).blocks },
}
