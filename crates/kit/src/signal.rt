// What a wire carries and what a block keeps, for any type of value.
ghost use Rattle.std.specs.Prelude.{◌≡◌};
ghost use Rattle.kit.specs.Cells.{shown, taking};
ghost use Rattle.kit.specs.Known.{is_known};
ghost use Rattle.kit.specs.Order.{AtMostIsAnOrder};
ghost use Rattle.kit.specs.Strict.{together};

// A wire in a tick: not known yet, known to carry nothing, or known to carry a value.
#[derive(Clone, Copy, PartialEq, Debug)]
pub enum Signal<V> {
    Unknown,
    Absent,
    Present(V),
}

impl<V> Signal<V> {
    // Whether it is known what the wire carries.
    pub fn is_known(&self) -> bool
        ensures { result ≡ is_known self.now }
    {
        !matches!(*self, Signal::Unknown)
    }
}

// The state of a block, kept from tick to tick: a value, or none where it is empty.
pub type Cell<V> = Option<V>;

// The signals on the three inputs of a block; an input that it lacks is absent.
#[derive(Clone, Copy)]
pub struct Inputs<V> {
    pub a: Signal<V>,
    pub b: Signal<V>,
    pub c: Signal<V>,
}

// "At most" is an order, for every type of value.
pub fn at_most_is_an_order<V>()
    ensures { AtMostIsAnOrder V }
{}

// Two signals as one: unknown if either is, else absent if either is, else both values.
pub fn together<A: Copy, B: Copy>(a: Signal<A>, b: Signal<B>) -> Signal<(A, B)>
    ensures { result ≡ together a b }
{
    match (a, b) {
        (Signal::Unknown, _) | (_, Signal::Unknown) => Signal::Unknown,
        (Signal::Present(x), Signal::Present(y)) => Signal::Present((x, y)),
        _ => Signal::Absent,
    }
}

// What a cell shows: its value, absent if it is empty. No `From`: that `None` is absent and not unknown needs a name.
pub fn shown<V: Copy>(cell: Cell<V>) -> Signal<V>
    ensures { result ≡ shown cell }
{
    match cell {
        None => Signal::Absent,
        Some(v) => Signal::Present(v),
    }
}

// The cell that takes a signal; an unknown one leaves it.
pub fn taking<V: Copy>(cell: Cell<V>, signal: Signal<V>) -> Cell<V>
    ensures { result ≡ taking cell signal }
{
    match signal {
        Signal::Unknown => cell,
        Signal::Absent => None,
        Signal::Present(v) => Some(v),
    }
}
