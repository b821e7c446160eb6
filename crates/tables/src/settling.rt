// Rounds until one makes no wire known.
ghost use Rattle.std.specs.Prelude.{◌≡◌, count_by, length, Ok};
ghost use Rattle.text.specs.Results.{then};
ghost use Rattle.kit.specs.Known.{is_known};
ghost use Rattle.diagram.specs.Diagrams.{drawing};
ghost use Rattle.machine.specs.Settling.{settled, settle_answer};
ghost use Rattle.machine.specs.Tables.{known};
ghost use Rattle.tables.specs.Fitting.{fitting, where_taken};
ghost use Rattle.tables.specs.Lent.{drawing_of_tables, SameLoans};

use crate::lengths::check_lengths;
use crate::lent::Tables;
use diagram::diagram::Diagram;
use kit::question::Kit;
use kit::signal::{Cell, Signal};
use machine::answers::Settled;
use text::fault::Fault;

// How many wires are known.
fn count_known<V>(wires: &[Signal<V>]) -> usize
    ensures { result ≡ count_by is_known wires.now }
{
    wires.iter().filter(|wire| wire.is_known()).count()
}

impl<V: Copy> Tables<'_, '_, '_, V> {
    // Rounds until one makes no wire known.
    fn settle<K: Kit<V>>(&mut self, kit: &K) -> Settled
        ensures answer { result ≡ settle_answer (K.Kit.meaning kit.now) (drawing_of_tables self.old) self.old.cells.now self.old.wires.now }
        ensures after { self.new.wires.now ≡ (settled (K.Kit.meaning kit.now) (drawing_of_tables self.old) self.old.cells.now self.old.wires.now).wires }
        ensures loans { SameLoans self.old self.new }
    {
        let mut rounds = 0;
        let mut known = 0;
        loop {
            let learned = self.round(kit);
            rounds += 1;
            known += learned;
            if learned == 0 {
                break;
            }
        }
        let wires = &mut *self.wires;
        let unknown = wires.len() - count_known(wires);
        Settled {
            rounds,
            firings: rounds * self.diagram.blocks().len(),
            known,
            unknown,
        }
    }
}

// Settles the wires: rounds until one makes no wire known.
pub fn settle<V: Copy, K: Kit<V>>(
    kit: &K,
    diagram: &Diagram,
    cells: &mut [Cell<V>],
    wires: &mut [Signal<V>],
) -> Result<Settled, Fault>
    ensures answer { result ≡ then (fitting (drawing diagram.now) wires.old cells.old) (λ _. Ok (settle_answer (K.Kit.meaning kit.now) (drawing diagram.now) cells.old wires.old)) }
    ensures after { wires.new ≡ where_taken (fitting (drawing diagram.now) wires.old cells.old) (settled (K.Kit.meaning kit.now) (drawing diagram.now) cells.old wires.old).wires wires.old }
    ensures cells { cells.new ≡ cells.old }
{
    check_lengths(diagram, wires.len(), cells.len())?;
    let mut tables = Tables {
        diagram,
        cells,
        wires,
    };
    Ok(tables.settle(kit))
}
