// What the calls on a run answered, in the words of the table.
use kit::signal::Signal;
use machine::answers::{Closed, Settled};
use marks::mark::Mark;
use marks::value::Value;
use std::alloc::{AllocError, Global};
use std::fmt::{self, Display};
use text::fault::Fault;

// What an accepted call answers; a value as its number.
#[derive(Clone, Copy)]
pub(crate) enum Answer {
    Made,
    Begun,
    Supplied,
    Fired(usize),
    Settled(Settled),
    Signal(Signal<i32>),
    Closed(Closed),
    Passed,
    // there is no token to close with
    NoToken,
}

impl<V: Value> From<Signal<V>> for Answer {
    fn from(signal: Signal<V>) -> Answer {
        Answer::Signal(match signal {
            Signal::Unknown => Signal::Unknown,
            Signal::Absent => Signal::Absent,
            Signal::Present(value) => Signal::Present(value.number()),
        })
    }
}

impl fmt::Display for Answer {
    fn fmt<W: fmt::Write>(&self, f: &mut fmt::Formatter<W>) -> fmt::Result {
        match self {
            Answer::Made => f.write_str("made"),
            Answer::Begun => f.write_str("begun"),
            Answer::Supplied => f.write_str("supplied"),
            Answer::Fired(known) => write!(f, "fired,{known}"),
            Answer::Settled(
                Settled {
                    rounds,
                    firings,
                    known,
                    unknown,
                },
            ) => write!(f, "settled,{rounds},{firings},{known},{unknown}"),
            Answer::Signal(signal) => write!(f, "{}", Mark { signal: *signal }),
            Answer::Closed(Closed::Kept) => f.write_str("kept"),
            Answer::Closed(Closed::Undetermined(wire)) => write!(f, "undetermined,{wire}"),
            Answer::Closed(Closed::Dropped) => f.write_str("dropped"),
            Answer::Passed => f.write_str("passed"),
            Answer::NoToken => f.write_str("no token"),
        }
    }
}

// The answers so far, each followed by a semicolon. A caller may hold a token and cannot return, so a failure of memory
// is kept until the end.
#[derive(Drop)]
pub(crate) struct Told {
    text: String,
    memory: Result<(), AllocError>,
}

impl Told {
    pub(crate) fn new(heap: Global) -> Told {
        Told {
            text: String::new(heap),
            memory: Ok(()),
        }
    }

    pub(crate) fn add(&mut self, words: impl Display + Drop) {
        if self.memory.is_ok() {
            self.memory = write!(self.text, "{words};");
        }
    }

    pub(crate) fn add_all<T: Copy, D: Display + Drop, F: Fn(T) -> D>(
        &mut self,
        items: &[T],
        shown: F,
    )
        requires { F.IsAlwaysCallable shown }
    {
        for item in items {
            self.add(shown(*item));
        }
    }

    pub(crate) fn tell(&mut self, answer: Result<Answer, Fault>) {
        match answer {
            Ok(answer) => self.add(answer),
            Err(fault) => self.add(fault),
        }
    }

    pub(crate) fn all(self) -> Result<String, AllocError> {
        let Told { text, memory } = self;
        memory?;
        Ok(text)
    }
}
