// Two kits over one type of value as one.
ghost use Rattle.std.specs.Prelude.{◌≡◌, ◌==◌, not};
ghost use Rattle.kit.specs.Joined.{joined, JoiningKeeps};
ghost use Rattle.kit.specs.JoinedLaws.{joined_monotone, joined_bounded};

use crate::question::{BlockView, Kit, Ports};
use crate::signal::{Cell, Signal};

// The first kit answers for the kinds it knows, the second for the others.
#[derive(Clone, Copy)]
pub struct Joined<A, B> {
    pub first: A,
    pub second: B,
}

// Whether ports are those of a kind that their kit knows.
fn known(ports: Ports) -> bool
    ensures { result ≡ not (ports.outputs == 0) }
{
    ports.outputs != 0
}

impl<V: Copy, A: Kit<V>, B: Kit<V>> Kit<V> for Joined<A, B> {
    ghost meaning = { λ j. joined (A.Kit.meaning j.first) (B.Kit.meaning j.second) };

    ghost monotone = { λ j. joined_monotone (A.Kit.meaning j.first) (B.Kit.meaning j.second) (A.Kit.monotone j.first) (B.Kit.monotone j.second) };

    ghost bounded = { λ j. joined_bounded (A.Kit.meaning j.first) (B.Kit.meaning j.second) (A.Kit.bounded j.first) (B.Kit.bounded j.second) };

    fn ports(&self, kind: u8) -> Ports {
        let ports = self.first.ports(kind);
        if known(ports) {
            ports
        } else {
            self.second.ports(kind)
        }
    }

    fn start(&self, kind: u8, parameter: i32) -> Cell<V> {
        if known(self.first.ports(kind)) {
            self.first.start(kind, parameter)
        } else {
            self.second.start(kind, parameter)
        }
    }

    fn fire(&self, block: &BlockView<V>, port: u8) -> Signal<V> {
        if known(self.first.ports(block.kind)) {
            self.first.fire(block, port)
        } else {
            self.second.fire(block, port)
        }
    }

    fn next(&self, block: &BlockView<V>) -> Cell<V> {
        if known(self.first.ports(block.kind)) {
            self.first.next(block)
        } else {
            self.second.next(block)
        }
    }
}

// What two kits keep, they keep joined.
pub fn joining_keeps_the_laws<V>()
    ensures { JoiningKeeps V }
{}
