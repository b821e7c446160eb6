// What a kit is asked, and what it must keep.
ghost use Rattle.std.specs.Prelude.{◌≡◌};
ghost use Rattle.kit.specs.Meaning.{Meaning, Monotone, Bounded, Lawful};

use crate::signal::{Cell, Inputs, Signal};

// The numbers of inputs and outputs of a kind. No outputs: the kit does not know the kind, which is the rule of kits, so
// this is no `Option`.
#[derive(Clone, Copy, PartialEq, Debug)]
pub struct Ports {
    pub inputs: u8,
    pub outputs: u8,
}

// A block as a kit sees it in a tick: what is written of it, its cell, and the signals on its inputs. Questions borrow it:
// a method that takes values of a generic type cannot take the clauses of its trait.
#[derive(Clone, Copy)]
pub struct BlockView<V> {
    pub kind: u8,
    pub parameter: i32,
    pub cell: Cell<V>,
    pub inputs: Inputs<V>,
}

// A kit of kinds of blocks over values of one type: four questions, which change nothing and always have the same
// answer, the one that the kit's meaning gives. A kit takes any kind, parameter, cell, port and signals.
pub trait Kit<V> {
    // The answers.
    ghost meaning: { Self → Meaning V };

    // The kind's numbers of inputs and outputs.
    fn ports(&self, kind: u8) -> Ports
        ensures { result ≡ (meaning self.now).ports kind };

    // The first cell of a block.
    fn start(&self, kind: u8, parameter: i32) -> Cell<V>
        ensures { result ≡ (meaning self.now).start kind parameter };

    // The signal on an output port.
    fn fire(&self, block: &BlockView<V>, port: u8) -> Signal<V>
        ensures { result ≡ (meaning self.now).fire block.now.kind block.now.parameter block.now.cell port block.now.inputs };

    // The cell after a tick.
    fn next(&self, block: &BlockView<V>) -> Cell<V>
        ensures { result ≡ (meaning self.now).next block.now.kind block.now.parameter block.now.cell block.now.inputs };

    // Law one: fire rises with its inputs.
    ghost monotone: { (k : Self) → Monotone (meaning k) };

    // Law two: at most three inputs and two outputs.
    ghost bounded: { (k : Self) → Bounded (meaning k) };
}

// Every kit keeps both laws.
pub fn every_kit_is_lawful<V, K: Kit<V>>(kit: &K)
    ensures { Lawful (K.Kit.meaning kit.now) }
{}
