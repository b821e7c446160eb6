// What a tick prints.
ghost use Rattle.std.specs.Prelude.{Some};
ghost use Rattle.marks.specs.Marks.{shown_closed, shown_report};

use crate::mark::Mark;
use crate::value::Value;
use kit::signal::Signal;
use machine::answers::Closed;
use std::fmt;

// The word for what a close did.
#[derive(Clone, Copy)]
pub struct Word {
    pub closed: Closed,
}

impl fmt::Display for Word {
    ghost output = { λ w. Some (shown_closed w.closed) };

    fn fmt<W: fmt::Write>(&self, f: &mut fmt::Formatter<W>) -> fmt::Result {
        match self.closed {
            Closed::Kept => f.write_str("kept"),
            Closed::Undetermined(_) => f.write_str("undetermined"),
            Closed::Dropped => f.write_str("dropped"),
        }
    }
}

// What became of the tick, the rounds of its settle, and every wire.
#[derive(Drop)]
pub struct Report<'w, V> {
    pub closed: Closed,
    pub rounds: usize,
    pub wires: &'w [Signal<V>],
}

impl<'w, V: Value> fmt::Display for Report<'w, V> {
    ghost output = { λ r. Some (shown_report V.Value.numbered r.closed r.rounds r.wires.now) };

    fn fmt<W: fmt::Write>(&self, f: &mut fmt::Formatter<W>) -> fmt::Result {
        let word = Word {
            closed: self.closed,
        };
        write!(f, "{word},{}", self.rounds)?;
        for wire in self.wires {
            write!(f, ",{}", Mark { signal: *wire })?;
        }
        Ok(())
    }
}
