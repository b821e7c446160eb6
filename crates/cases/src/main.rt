// Runs the table of cases on standard input against the libraries, and prints each case that went otherwise than
// its line says. A line has what is tried, a name, what is expected, and what it is tried on, parted by tabs: `read` a
// diagram's text, or `ask` a kit a question.
#![tactic(auto)]

mod asking;
mod escaped;
mod reading;
mod rival;

use asking::answer;
use case_table::table::{Trying, run_table_into};
use escaped::unescaped;
use reading::outcome;
use std::alloc::{AllocError, Global};
use std::io::{BufReader, LineWriter};

// Reading diagrams, and asking kits. A word is matched: a table of functions would be no plainer.
struct Libraries;

impl Trying for Libraries {
    fn tried(heap: Global, what: &str, on: &str) -> Result<String, AllocError> {
        match what {
            "read" => {
                let text = unescaped(heap, on)?;
                outcome(heap, text.as_slice())
            }
            "ask" => answer(heap, on),
            _ => String::from_str(heap, "nothing to try"),
        }
    }
}

fn main(rt: HostRuntime) -> anyhow::Result<()> {
    let heap = rt.alloc();
    let table = BufReader::new(heap, rt.stdin())?;
    let mut told = LineWriter::new(heap, rt.stdout())?;
    run_table_into::<Libraries, _, _>(heap, table, &mut told)
}
