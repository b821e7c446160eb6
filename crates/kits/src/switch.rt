// The switch kit, over yes and no.
ghost use Rattle.std.specs.Prelude.{◌≡◌, if◌then◌else◌};
ghost use Rattle.kits.specs.Kinds.{switch_kind};
ghost use Rattle.kits.specs.Switch.{switch, and_fires, or_fires, not_fires, carry_fires, parity_fires};
ghost use Rattle.kits.specs.SwitchRises.{switch_monotone, switch_bounded};

use crate::strict::strict;
use kit::question::{BlockView, Kit, Ports};
use kit::signal::{Cell, Inputs, Signal, together};
use kit::table::{KindPorts, UnknownKind, ports_in};

// The kinds, by their numbers.
#[derive(Clone, Copy, PartialEq, Debug)]
enum Kind {
    Constant = 64,
    And = 65,
    Or = 66,
    Not = 67,
    Adder = 68,
}

impl TryFrom<u8> for Kind {
    type Error = UnknownKind;

    ghost try_from_gives = { λ n r. r ≡ switch_kind n };

    fn try_from(number: u8) -> Result<Kind, UnknownKind> {
        match number {
            n if n == Kind::Constant as u8 => Ok(Kind::Constant),
            n if n == Kind::And as u8 => Ok(Kind::And),
            n if n == Kind::Or as u8 => Ok(Kind::Or),
            n if n == Kind::Not as u8 => Ok(Kind::Not),
            n if n == Kind::Adder as u8 => Ok(Kind::Adder),
            _ => Err(UnknownKind),
        }
    }
}

// The kinds, as the ports question reads them: each kit has one constant table.
const KINDS: [KindPorts; 5] = [
    KindPorts {
        kind: Kind::Constant as u8,
        inputs: 0,
        outputs: 1,
    },
    KindPorts {
        kind: Kind::And as u8,
        inputs: 2,
        outputs: 1,
    },
    KindPorts {
        kind: Kind::Or as u8,
        inputs: 2,
        outputs: 1,
    },
    KindPorts {
        kind: Kind::Not as u8,
        inputs: 1,
        outputs: 1,
    },
    KindPorts {
        kind: Kind::Adder as u8,
        inputs: 3,
        outputs: 2,
    },
];

#[derive(Clone, Copy)]
pub struct SwitchKit;

// An input that is `deciding` decides, whatever the other is; else strict, the opposite.
fn decided(deciding: bool, inputs: Inputs<bool>) -> Signal<bool>
    ensures { result ≡ (if deciding then or_fires inputs else and_fires inputs) }
{
    let decisive = Signal::Present(deciding);
    if inputs.a == decisive || inputs.b == decisive {
        return decisive;
    }
    strict(together(inputs.a, inputs.b), |_| !deciding)
}

// No if either input is no, whatever the other is; else strict, yes.
fn and(inputs: Inputs<bool>) -> Signal<bool>
    ensures { result ≡ and_fires inputs }
{
    decided(false, inputs)
}

// Yes if either input is yes, whatever the other is; else strict, no.
fn or(inputs: Inputs<bool>) -> Signal<bool>
    ensures { result ≡ or_fires inputs }
{
    decided(true, inputs)
}

// Strict: the other of yes and no.
fn not(inputs: Inputs<bool>) -> Signal<bool>
    ensures { result ≡ not_fires inputs }
{
    strict(inputs.a, |x| !x)
}

// The adder's port 0: what at least two inputs say.
fn carry(inputs: Inputs<bool>) -> Signal<bool>
    ensures { result ≡ carry_fires inputs }
{
    match (inputs.a, inputs.b, inputs.c) {
        (Signal::Present(true), Signal::Present(true), _)
        | (Signal::Present(true), _, Signal::Present(true))
        | (_, Signal::Present(true), Signal::Present(true)) => Signal::Present(true),
        (Signal::Present(false), Signal::Present(false), _)
        | (Signal::Present(false), _, Signal::Present(false))
        | (_, Signal::Present(false), Signal::Present(false)) => Signal::Present(false),
        (Signal::Unknown, _, _) | (_, Signal::Unknown, _) | (_, _, Signal::Unknown) =>
            Signal::Unknown,
        _ => Signal::Absent,
    }
}

// The adder's port 1: whether an odd number of inputs says yes.
fn parity(inputs: Inputs<bool>) -> Signal<bool>
    ensures { result ≡ parity_fires inputs }
{
    strict(
        together(inputs.a, together(inputs.b, inputs.c)),
        |(x, (y, z))| x ^ y ^ z,
    )
}

// The adder alone has a second output, port 1; no kind uses its cell.
impl Kit<bool> for SwitchKit {
    ghost meaning = { λ _. switch };

    ghost monotone = { λ _. switch_monotone };

    ghost bounded = { λ _. switch_bounded };

    fn ports(&self, kind: u8) -> Ports {
        ports_in(&KINDS, kind)
    }

    fn start(&self, kind: u8, parameter: i32) -> Cell<bool> {
        None
    }

    fn fire(&self, block: &BlockView<bool>, port: u8) -> Signal<bool> {
        match (Kind::try_from(block.kind), port) {
            (Ok(Kind::Constant), 0) => Signal::Present(block.parameter != 0),
            (Ok(Kind::And), 0) => and(block.inputs),
            (Ok(Kind::Or), 0) => or(block.inputs),
            (Ok(Kind::Not), 0) => not(block.inputs),
            (Ok(Kind::Adder), 0) => carry(block.inputs),
            (Ok(Kind::Adder), 1) => parity(block.inputs),
            _ => Signal::Unknown,
        }
    }

    fn next(&self, block: &BlockView<bool>) -> Cell<bool> {
        block.cell // it stays
    }
}
