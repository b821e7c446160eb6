// The tables that a call is lent to fire blocks, once they are found to fit the diagram.
ghost use Rattle.diagram.specs.Diagrams.{drawing};
ghost use Rattle.tables.specs.InPlace.{Fit};

use diagram::diagram::Diagram;
use kit::signal::{Cell, Signal};

#[derive(Drop)]
pub(crate) struct Tables<'d, 'c, 'w, V> {
    pub(crate) diagram: &'d Diagram,
    pub(crate) cells: &'c [Cell<V>],
    pub(crate) wires: &'w mut [Signal<V>],
    ghost fit: { Fit (drawing diagram.now) wires.now cells.now },
}
