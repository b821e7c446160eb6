// What a tick came to.
use machine::answers::{Closed, Settled};

#[derive(Clone, Copy, PartialEq, Debug)]
pub struct Played {
    pub settled: Settled,
    pub closed: Closed,
}
