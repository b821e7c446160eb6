// What a run is handed, and what its calls answer.
ghost use Rattle.std.specs.Prelude.{◌≡◌};
ghost use Rattle.machine.specs.Machine.{signal_of};

use kit::signal::Signal;
use text::fault::Fault;

// Where a run stands: between ticks, in one, or made of what was refused.
#[derive(Clone, Copy, PartialEq, Debug)]
pub enum Phase {
    Resting,
    Open,
    Void(Fault),
}

// What can be supplied to an input wire. No `Option`: a tick may supply nothing, and `Some(None)` is no plainer than
// `Some(Given::Absent)`.
#[derive(Clone, Copy, PartialEq, Debug)]
pub enum Given<V> {
    Absent,
    Present(V),
}

impl<V> From<Given<V>> for Signal<V> {
    ghost from_gives = { λ given signal. signal ≡ signal_of given };

    fn from(given: Given<V>) -> Signal<V> {
        match given {
            Given::Absent => Signal::Absent,
            Given::Present(value) => Signal::Present(value),
        }
    }
}

// What a settle did.
#[derive(Clone, Copy, PartialEq, Debug)]
pub struct Settled {
    // the last included
    pub rounds: usize,
    pub firings: usize,
    // wires that it made known, and wires that are still unknown
    pub known: usize,
    pub unknown: usize,
}

// What a close is asked to do with the tick.
#[derive(Clone, Copy, PartialEq, Debug)]
pub enum Intent {
    Keep,
    Drop,
}

// What a close did.
#[derive(Clone, Copy, PartialEq, Debug)]
pub enum Closed {
    Kept,
    // the lowest unknown wire
    Undetermined(usize),
    Dropped,
}
