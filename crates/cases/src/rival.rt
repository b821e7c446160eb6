// A kit that knows a kind of the number kit too, and answers otherwise: 17 is its constant 9. Joined with the number
// kit, whichever comes first answers for 17.
ghost use Rattle.std.specs.Prelude.{◌≡◌};
ghost use Rattle.cases.specs.Rival.{rival, rival_monotone, rival_bounded};

use kit::question::{BlockView, Kit, Ports};
use kit::signal::{Cell, Signal};
use kit::table::{KindPorts, ports_in};

// Its one kind: an enum of one case would be no plainer.
const NINE: u8 = 17;

// The kinds, as the ports question reads them.
const KINDS: [KindPorts; 1] = [KindPorts {
    kind: NINE,
    inputs: 0,
    outputs: 1,
}];

#[derive(Clone, Copy)]
pub struct Rival;

impl Kit<i32> for Rival {
    ghost meaning = { λ _. rival };

    ghost monotone = { λ _. rival_monotone };

    ghost bounded = { λ _. rival_bounded };

    fn ports(&self, kind: u8) -> Ports {
        ports_in(&KINDS, kind)
    }

    fn start(&self, kind: u8, parameter: i32) -> Cell<i32> {
        match kind {
            NINE => Some(9),
            _ => None,
        }
    }

    fn fire(&self, block: &BlockView<i32>, port: u8) -> Signal<i32> {
        if port != 0 {
            return Signal::Unknown;
        }
        match block.kind {
            NINE => Signal::Present(9),
            _ => Signal::Unknown,
        }
    }

    fn next(&self, block: &BlockView<i32>) -> Cell<i32> {
        match block.kind {
            NINE => Some(9),
            _ => block.cell,
        }
    }
}
