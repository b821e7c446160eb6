// Making a run.
ghost use Rattle.std.specs.Prelude.{◌≡◌, length};
ghost use Rattle.diagram.specs.Diagrams.{drawing};
ghost use Rattle.machine.specs.Machine.{check_new, new_state};
ghost use Rattle.run.specs.Runs.{state_of, drawing_of_run};

use crate::making::{check_new, forget, start_cells};
use crate::run::Run;
use crate::token::Tick;
use diagram::diagram::Diagram;
use kit::question::Kit;
use kit::signal::{Cell, Signal};
use machine::answers::Phase;
use text::fault::Fault;

impl<'d, 'w, 'c, V: Copy> Run<'d, 'w, 'c, V> {
    // What new refuses.
    pub fn check<K: Kit<V>>(
        kit: &K,
        diagram: &Diagram,
        wires: &[Signal<V>],
        cells: &[Cell<V>],
    ) -> Result<(), Fault>
        ensures { result ≡ check_new (K.Kit.meaning kit.now) (drawing diagram.now) (length wires.now) (length cells.now) }
    {
        check_new(kit, diagram, wires.len(), cells.len())
    }

    // A run over lent tables; of what the check refuses, a void one, which touches no table.
    pub fn new<K: Kit<V>>(
        kit: &K,
        name: u32,
        diagram: &'d Diagram,
        wires: &'w mut [Signal<V>],
        cells: &'c mut [Cell<V>],
    ) -> Run<'d, 'w, 'c, V>
        ensures state { state_of result ≡ new_state (K.Kit.meaning kit.now) (drawing diagram.now) name wires.old cells.old }
        ensures diagram { drawing_of_run result ≡ drawing diagram.now }
    {
        let tick = Tick { name, count: 0 };
        if let Err(fault) = check_new(kit, diagram, wires.len(), cells.len()) {
            return Run {
                tick,
                phase: Phase::Void(fault),
                diagram,
                wires,
                cells,
            };
        }
        forget(wires);
        start_cells(kit, diagram, cells);
        Run {
            tick,
            phase: Phase::Resting,
            diagram,
            wires,
            cells,
        }
    }
}
