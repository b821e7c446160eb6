// The token of an open tick. Only begin makes one; it cannot be copied or let go, and close takes it back.
use text::fault::Fault;

// A tick, by its run's name and by how many ticks had begun with it.
#[derive(Clone, Copy, PartialEq, Debug)]
pub(crate) struct Tick {
    pub(crate) name: u32,
    pub(crate) count: u32,
}

pub struct TickToken {
    pub(crate) tick: Tick,
}

// A close that was refused hands the token back.
pub struct CloseRefused {
    pub token: TickToken,
    pub fault: Fault,
}
