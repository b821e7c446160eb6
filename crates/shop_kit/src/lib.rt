// A kit of another shop: two kinds over signed 32-bit numbers, and the kit that it sells.
#![tactic(auto)]

ghost use Rattle.std.specs.Prelude.{◌≡◌};
ghost use Rattle.shop_kit.specs.Kinds.{shop_kind};
ghost use Rattle.shop_kit.specs.Shop.{shop, sold, larger_fires, interlock_fires};
ghost use Rattle.shop_kit.specs.ShopRises.{shop_monotone, shop_bounded};

use kit::joined::Joined;
use kit::question::{BlockView, Kit, Ports};
use kit::signal::{Cell, Inputs, Signal, together};
use kit::table::{KindPorts, UnknownKind, ports_in};
use kits::common::CommonKit;

// The kinds, by their numbers.
#[derive(Clone, Copy, PartialEq, Debug)]
enum Kind {
    Larger = 200,
    Interlock = 201,
}

impl TryFrom<u8> for Kind {
    type Error = UnknownKind;

    ghost try_from_gives = { λ n r. r ≡ shop_kind n };

    fn try_from(number: u8) -> Result<Kind, UnknownKind> {
        match number {
            n if n == Kind::Larger as u8 => Ok(Kind::Larger),
            n if n == Kind::Interlock as u8 => Ok(Kind::Interlock),
            _ => Err(UnknownKind),
        }
    }
}

// The kinds, as the ports question reads them: each kit has one constant table.
const KINDS: [KindPorts; 2] = [
    KindPorts {
        kind: Kind::Larger as u8,
        inputs: 2,
        outputs: 1,
    },
    KindPorts {
        kind: Kind::Interlock as u8,
        inputs: 2,
        outputs: 1,
    },
];

#[derive(Clone, Copy)]
pub struct ShopKit;

// Strict: an unknown or absent input is the answer. The three cases are written out: what takes a rule as a closure has
// to require that it may be called, and no public function of a kit's library requires anything.
fn larger(inputs: Inputs<i32>) -> Signal<i32>
    ensures { result ≡ larger_fires inputs }
{
    match together(inputs.a, inputs.b) {
        Signal::Unknown => Signal::Unknown,
        Signal::Absent => Signal::Absent,
        Signal::Present((x, y)) => Signal::Present(x.max(y)),
    }
}

// Not strict: one 0 decides, whatever the other input is.
fn interlock(inputs: Inputs<i32>) -> Signal<i32>
    ensures { result ≡ interlock_fires inputs }
{
    match (inputs.a, inputs.b) {
        (Signal::Present(0), _) | (_, Signal::Present(0)) => Signal::Present(0),
        (Signal::Unknown, _) | (_, Signal::Unknown) => Signal::Unknown,
        (Signal::Present(x), Signal::Present(y)) => Signal::Present(x.min(y)),
        _ => Signal::Absent,
    }
}

impl Kit<i32> for ShopKit {
    ghost meaning = { λ _. shop };

    ghost monotone = { λ _. shop_monotone };

    ghost bounded = { λ _. shop_bounded };

    fn ports(&self, kind: u8) -> Ports {
        ports_in(&KINDS, kind)
    }

    fn start(&self, kind: u8, parameter: i32) -> Cell<i32> {
        None
    }

    fn fire(&self, block: &BlockView<i32>, port: u8) -> Signal<i32> {
        if port != 0 {
            return Signal::Unknown;
        }
        match Kind::try_from(block.kind) {
            Ok(Kind::Larger) => larger(block.inputs),
            Ok(Kind::Interlock) => interlock(block.inputs),
            Err(UnknownKind) => Signal::Unknown,
        }
    }

    fn next(&self, block: &BlockView<i32>) -> Cell<i32> {
        block.cell
    }
}

// The kit that the shop sells.
pub type SoldKit = Joined<CommonKit, ShopKit>;

// What the sold kit fires: the common kit answers for its kinds, the shop's for the others.
pub fn fire_sold_kit(block: &BlockView<i32>, port: u8) -> Signal<i32>
    ensures { result ≡ sold.fire block.now.kind block.now.parameter block.now.cell port block.now.inputs }
{
    let kit: SoldKit = Joined {
        first: CommonKit,
        second: ShopKit,
    };
    kit.fire(block, port)
}
