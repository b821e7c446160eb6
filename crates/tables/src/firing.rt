// Firing blocks. That a block's ports lie below the wires is said at each function: a type for a block that fits would be
// made anew at each firing, and is no plainer than the clause.
ghost use Rattle.std.specs.Prelude.{◌≡◌, ◌+◌, ◌-◌, ◌<◌, ◌≤◌, length, Ok};
ghost use Rattle.text.specs.Results.{then};
ghost use Rattle.diagram.specs.Diagrams.{drawing};
ghost use Rattle.diagram.specs.Marks.{Below};
ghost use Rattle.diagram.specs.Wiring.{ins, outs};
ghost use Rattle.machine.specs.Firing.{put as put_in, after_fire, round};
ghost use Rattle.machine.specs.Tables.{block_at, cell_at, known, reads};
ghost use Rattle.tables.specs.Fitting.{fitting_at, where_taken};
ghost use Rattle.tables.specs.Knowing.{all_known};
ghost use Rattle.tables.specs.Lent.{drawing_of_tables, SameLoans};

use crate::lengths::check_lengths;
use crate::lent::Tables;
use diagram::diagram::Diagram;
use draft::block::{Block, InPorts, OutPorts, Wire};
use kit::question::{BlockView, Kit};
use kit::signal::{Cell, Inputs, Signal};
use text::fault::{Cause, Fault};

// The signals at a block's inputs; one that it lacks is absent.
fn inputs_of<V: Copy>(wires: &[Signal<V>], ports: InPorts) -> Inputs<V>
    requires { Below (length wires.now) (ins ports) }
    ensures { result ≡ reads wires.now ports }
{
    let at = |wire: Wire| wires[usize::from(wire)];
    let none = Signal::Absent;
    let (a, b, c) = match ports {
        InPorts::Zero => (none, none, none),
        InPorts::One(a) => (at(a), none, none),
        InPorts::Two(a, b) => (at(a), at(b), none),
        InPorts::Three(a, b, c) => (at(a), at(b), at(c)),
    };
    Inputs { a, b, c }
}

// What a kit sees of a block with this cell.
pub(crate) fn view_of<V: Copy>(wires: &[Signal<V>], block: &Block, cell: Cell<V>) -> BlockView<V>
    requires { Below (length wires.now) (ins block.now.inputs) }
    ensures { result ≡ record { kind = block.now.kind; parameter = block.now.parameter; cell = cell; inputs = reads wires.now block.now.inputs } }
{
    BlockView {
        kind: block.kind,
        parameter: block.parameter,
        cell,
        inputs: inputs_of(wires, block.inputs),
    }
}

// An unknown wire takes the signal; how many wires became known.
fn put<V: Copy>(wires: &mut [Signal<V>], wire: Wire, answer: Signal<V>) -> usize
    requires { wire < length wires.old }
    ensures after { wires.new ≡ put_in wires.old wire answer }
    ensures count { result + known wires.old ≡ known wires.new }
    ensures few { result ≤ 1 }
{
    let at = usize::from(wire);
    let was = wires[at];
    if was.is_known() || !answer.is_known() {
        return 0;
    }
    wires[at] = answer;
    1
}

// Whether every output of a block is known.
fn all_known<V: Copy>(wires: &[Signal<V>], ports: OutPorts) -> bool
    requires { Below (length wires.now) (outs ports) }
    ensures { result ≡ all_known wires.now ports }
{
    match ports {
        OutPorts::One(p) => wires[usize::from(p)].is_known(),
        OutPorts::Two(p, q) => wires[usize::from(p)].is_known() && wires[usize::from(q)].is_known(),
    }
}

// Fires one block: every answer is worked out before a wire is written.
fn fire_block<V: Copy, K: Kit<V>>(
    kit: &K,
    block: &Block,
    cell: &Cell<V>,
    wires: &mut [Signal<V>],
) -> usize
    requires { (Below (length wires.old) (ins block.now.inputs)) × (Below (length wires.old) (outs block.now.outputs)) }
    ensures after { wires.new ≡ after_fire (K.Kit.meaning kit.now) wires.old block.now cell.now }
    ensures count { result + known wires.old ≡ known wires.new }
{
    // a known wire keeps its signal, so that the kit need not be asked for it again
    if all_known(wires, block.outputs) {
        return 0;
    }
    let view = view_of(wires, block, *cell);
    let first = kit.fire(&view, 0);
    match block.outputs {
        OutPorts::One(p) => put(wires, p, first),
        OutPorts::Two(p, q) => {
            let second = kit.fire(&view, 1);
            put(wires, p, first) + put(wires, q, second)
        }
    }
}

impl<V: Copy> Tables<'_, '_, '_, V> {
    // Fires block k of the diagram.
    fn fire_at<K: Kit<V>>(&mut self, kit: &K, k: usize) -> usize
        requires { k < length (drawing_of_tables self.old).blocks }
        ensures after { self.new.wires.now ≡ after_fire (K.Kit.meaning kit.now) self.old.wires.now (block_at (drawing_of_tables self.old) k) (cell_at self.old.cells.now k) }
        ensures count { result + known self.old.wires.now ≡ known self.new.wires.now }
        ensures loans { SameLoans self.old self.new }
    {
        let block = &self.diagram.blocks()[k];
        fire_block(kit, block, &self.cells[k], self.wires)
    }

    // A round: every block once, in table order; how many wires became known.
    pub(crate) fn round<K: Kit<V>>(&mut self, kit: &K) -> usize
        ensures after { self.new.wires.now ≡ round (K.Kit.meaning kit.now) (drawing_of_tables self.old) self.old.cells.now self.old.wires.now }
        ensures count { result + known self.old.wires.now ≡ known self.new.wires.now }
        ensures loans { SameLoans self.old self.new }
    {
        let wires = &mut *self.wires;
        let mut known = 0;
        for (block, cell) in self.diagram.blocks().iter().zip(self.cells) {
            known += fire_block(kit, block, cell, wires);
        }
        known
    }
}

// Fires block k of the diagram; how many wires became known.
pub fn fire<V: Copy, K: Kit<V>>(
    kit: &K,
    diagram: &Diagram,
    cells: &mut [Cell<V>],
    wires: &mut [Signal<V>],
    k: usize,
) -> Result<usize, Fault>
    ensures answer { result ≡ then (fitting_at (drawing diagram.now) wires.old cells.old k) (λ _. Ok (known (after_fire (K.Kit.meaning kit.now) wires.old (block_at (drawing diagram.now) k) (cell_at cells.old k)) - known wires.old)) }
    ensures after { wires.new ≡ where_taken (fitting_at (drawing diagram.now) wires.old cells.old k) (after_fire (K.Kit.meaning kit.now) wires.old (block_at (drawing diagram.now) k) (cell_at cells.old k)) wires.old }
    ensures cells { cells.new ≡ cells.old }
{
    check_lengths(diagram, wires.len(), cells.len())?;
    let blocks = diagram.blocks().len();
    if k >= blocks {
        return Err(Fault::new(Cause::NumberOutside, k, blocks));
    }
    let mut tables = Tables {
        diagram,
        cells,
        wires,
    };
    Ok(tables.fire_at(kit, k))
}
