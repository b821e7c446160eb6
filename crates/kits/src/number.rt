// The number kit, over signed 32-bit numbers.
ghost use Rattle.std.specs.Prelude.{◌≡◌, ◌+ℤ◌};
ghost use Rattle.kits.specs.Kinds.{number_kind};
ghost use Rattle.kits.specs.Number.{MeanInWords, held, mean_of, number};
ghost use Rattle.kits.specs.Number.{sum_fires, mean_fires, choose_fires, count_fires};
ghost use Rattle.kits.specs.NumberRises.{number_monotone, number_bounded};

use crate::strict::strict;
use kit::question::{BlockView, Kit, Ports};
use kit::signal::{Cell, Inputs, Signal, taking, together};
use kit::table::{KindPorts, UnknownKind, ports_in};

// The kinds, by their numbers.
#[derive(Clone, Copy, PartialEq, Debug)]
enum Kind {
    Constant = 16,
    Sum = 17,
    Mean = 19,
    Choose = 25,
    Count = 26,
}

impl TryFrom<u8> for Kind {
    type Error = UnknownKind;

    ghost try_from_gives = { λ n r. r ≡ number_kind n };

    fn try_from(number: u8) -> Result<Kind, UnknownKind> {
        match number {
            n if n == Kind::Constant as u8 => Ok(Kind::Constant),
            n if n == Kind::Sum as u8 => Ok(Kind::Sum),
            n if n == Kind::Mean as u8 => Ok(Kind::Mean),
            n if n == Kind::Choose as u8 => Ok(Kind::Choose),
            n if n == Kind::Count as u8 => Ok(Kind::Count),
            _ => Err(UnknownKind),
        }
    }
}

// The kinds, as the ports question reads them: each kit has one constant table.
const KINDS: [KindPorts; 5] = [
    KindPorts {
        kind: Kind::Constant as u8,
        inputs: 0,
        outputs: 1,
    },
    KindPorts {
        kind: Kind::Sum as u8,
        inputs: 2,
        outputs: 1,
    },
    KindPorts {
        kind: Kind::Mean as u8,
        inputs: 2,
        outputs: 1,
    },
    KindPorts {
        kind: Kind::Choose as u8,
        inputs: 3,
        outputs: 1,
    },
    KindPorts {
        kind: Kind::Count as u8,
        inputs: 1,
        outputs: 1,
    },
];

#[derive(Clone, Copy)]
pub struct NumberKit;

// a + b, replaced by the nearer end of the range when outside it.
pub fn held_sum(a: i32, b: i32) -> i32
    ensures { result ≡ held (a +ℤ b) }
{
    a.saturating_add(b)
}

// The greatest whole number whose double is not above a + b.
pub fn mean_of(a: i32, b: i32) -> i32
    ensures { result ≡ mean_of a b }
{
    let sum = i64::from(a) + i64::from(b);
    sum.div_euclid(2) as i32
}

// That the mean is the greatest whole number whose double is not above the sum.
pub fn mean_is_the_greatest()
    ensures { MeanInWords }
{}

// Strict: a + b, held.
fn sum(inputs: Inputs<i32>) -> Signal<i32>
    ensures { result ≡ sum_fires inputs }
{
    strict(together(inputs.a, inputs.b), |(x, y)| held_sum(x, y))
}

// Strict: the mean of a and b.
fn mean(inputs: Inputs<i32>) -> Signal<i32>
    ensures { result ≡ mean_fires inputs }
{
    strict(together(inputs.a, inputs.b), |(x, y)| mean_of(x, y))
}

// b or c, as a says; a itself if it says nothing.
fn choose(inputs: Inputs<i32>) -> Signal<i32>
    ensures { result ≡ choose_fires inputs }
{
    match inputs.a {
        Signal::Present(0) => inputs.c,
        Signal::Present(_) => inputs.b,
        _ => inputs.a,
    }
}

// The cell, plus 1 if a is present; an empty cell counts as 0.
fn count(cell: Cell<i32>, inputs: Inputs<i32>) -> Signal<i32>
    ensures { result ≡ count_fires cell inputs }
{
    let so_far = cell.unwrap_or(0);
    match inputs.a {
        Signal::Unknown => Signal::Unknown,
        Signal::Absent => Signal::Present(so_far),
        Signal::Present(_) => Signal::Present(held_sum(so_far, 1)),
    }
}

// Every kind has one output, port 0; count alone uses its cell.
impl Kit<i32> for NumberKit {
    ghost meaning = { λ _. number };

    ghost monotone = { λ _. number_monotone };

    ghost bounded = { λ _. number_bounded };

    fn ports(&self, kind: u8) -> Ports {
        ports_in(&KINDS, kind)
    }

    fn start(&self, kind: u8, parameter: i32) -> Cell<i32> {
        match Kind::try_from(kind) {
            Ok(Kind::Count) => Some(parameter),
            _ => None,
        }
    }

    fn fire(&self, block: &BlockView<i32>, port: u8) -> Signal<i32> {
        if port != 0 {
            return Signal::Unknown;
        }
        match Kind::try_from(block.kind) {
            Ok(Kind::Constant) => Signal::Present(block.parameter),
            Ok(Kind::Sum) => sum(block.inputs),
            Ok(Kind::Mean) => mean(block.inputs),
            Ok(Kind::Choose) => choose(block.inputs),
            Ok(Kind::Count) => count(block.cell, block.inputs),
            Err(UnknownKind) => Signal::Unknown,
        }
    }

    fn next(&self, block: &BlockView<i32>) -> Cell<i32> {
        match Kind::try_from(block.kind) {
            Ok(Kind::Count) => taking(block.cell, count(block.cell, block.inputs)),
            _ => block.cell,
        }
    }
}
