// A cell as it stands in a table.
ghost use Rattle.std.specs.Prelude.{Some};
ghost use Rattle.case_table.specs.Kept.{shown_kept};

use kit::signal::Cell;
use marks::value::Value;
use std::fmt;

// What a block keeps: its number, or a dash.
#[derive(Clone, Copy)]
pub struct Kept<V> {
    pub cell: Cell<V>,
}

impl<V: Value> fmt::Display for Kept<V> {
    ghost output = { λ k. Some (shown_kept V.Value.numbered k.cell) };

    fn fmt<W: fmt::Write>(&self, f: &mut fmt::Formatter<W>) -> fmt::Result {
        match self.cell {
            None => f.write_str("-"),
            Some(value) => write!(f, "{}", value.number()),
        }
    }
}
