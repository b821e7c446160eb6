// Runs the table of cases on standard input against the runs and the benches, and prints each case that went otherwise
// than its line says. A line has what is tried, a name, what is expected, and what it is tried on, parted by tabs: `play`
// calls on a run, `offer` runs each other's tokens, or play a `list` on a bench.
#![tactic(auto)]

mod lending;
mod listing;
mod offering;
mod playing;
mod script;
mod staging;
mod telling;

use case_table::table::{Trying, run_table_into};
use listing::listed;
use staging::{Offer, Play, staged};
use std::alloc::{AllocError, Global};
use std::io::{BufReader, LineWriter};

// Taking runs through scripts, and playing lists. A word is matched: a table of functions would be no plainer.
struct Runs;

impl Trying for Runs {
    fn tried(heap: Global, what: &str, on: &str) -> Result<String, AllocError> {
        match what {
            "list" => listed(heap, on),
            "play" => staged::<Play>(heap, on),
            "offer" => staged::<Offer>(heap, on),
            _ => String::from_str(heap, "nothing to try"),
        }
    }
}

fn main(rt: HostRuntime) -> anyhow::Result<()> {
    let heap = rt.alloc();
    let table = BufReader::new(heap, rt.stdin())?;
    let mut told = LineWriter::new(heap, rt.stdout())?;
    run_table_into::<Runs, _, _>(heap, table, &mut told)
}
