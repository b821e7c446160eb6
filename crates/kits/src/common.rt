// The common kit, written once for every type of value.
ghost use Rattle.std.specs.Prelude.{◌≡◌};
ghost use Rattle.kits.specs.Common.{common, default_fires};
ghost use Rattle.kits.specs.Kinds.{common_kind};
ghost use Rattle.kits.specs.CommonRises.{common_monotone, common_bounded};

use kit::question::{BlockView, Kit, Ports};
use kit::signal::{Cell, Inputs, Signal, shown, taking};
use kit::table::{KindPorts, UnknownKind, ports_in};

// The kinds, by their numbers.
#[derive(Clone, Copy, PartialEq, Debug)]
enum Kind {
    Delay = 1,
    Default = 3,
}

impl TryFrom<u8> for Kind {
    type Error = UnknownKind;

    ghost try_from_gives = { λ n r. r ≡ common_kind n };

    fn try_from(number: u8) -> Result<Kind, UnknownKind> {
        match number {
            n if n == Kind::Delay as u8 => Ok(Kind::Delay),
            n if n == Kind::Default as u8 => Ok(Kind::Default),
            _ => Err(UnknownKind),
        }
    }
}

// The kinds, as the ports question reads them: each kit has one constant table.
const KINDS: [KindPorts; 2] = [
    KindPorts {
        kind: Kind::Delay as u8,
        inputs: 1,
        outputs: 1,
    },
    KindPorts {
        kind: Kind::Default as u8,
        inputs: 2,
        outputs: 1,
    },
];

#[derive(Clone, Copy)]
pub struct CommonKit;

// a, or b if a is absent; an unknown a may still turn out present.
fn default<V: Copy>(inputs: Inputs<V>) -> Signal<V>
    ensures { result ≡ default_fires inputs }
{
    match inputs.a {
        Signal::Absent => inputs.b,
        _ => inputs.a,
    }
}

// Every kind has one output, port 0; delay alone uses its cell.
impl<V: Copy> Kit<V> for CommonKit {
    ghost meaning = { λ _. common };

    ghost monotone = { λ _. common_monotone };

    ghost bounded = { λ _. common_bounded V };

    fn ports(&self, kind: u8) -> Ports {
        ports_in(&KINDS, kind)
    }

    fn start(&self, kind: u8, parameter: i32) -> Cell<V> {
        None
    }

    fn fire(&self, block: &BlockView<V>, port: u8) -> Signal<V> {
        if port != 0 {
            return Signal::Unknown;
        }
        match Kind::try_from(block.kind) {
            Ok(Kind::Delay) => shown(block.cell),
            Ok(Kind::Default) => default(block.inputs),
            Err(UnknownKind) => Signal::Unknown,
        }
    }

    fn next(&self, block: &BlockView<V>) -> Cell<V> {
        match Kind::try_from(block.kind) {
            Ok(Kind::Delay) => taking(block.cell, block.inputs.a),
            _ => block.cell,
        }
    }
}
