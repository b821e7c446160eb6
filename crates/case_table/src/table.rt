// A table has a line for each case: what is tried, a name, what is expected and what it is tried on, parted by tabs.
ghost use Rattle.std.specs.Prelude.{◌≡◌, ℕ, List, IfOk, OnOk, string_bytes, ⊤};
ghost use Rattle.case_table.specs.Cases.{column, Tells, TellsInto};

use crate::report::Report;
use crate::told::Told;
use std::alloc::{AllocError, Global};
use std::io::{BufRead, Write};

// What can be tried, by the word that a line begins with. A trait and no closure, which would have to require that it may be
// called: no public function requires anything.
pub trait Trying {
    // Which texts may be found where what the first text says is tried on the second.
    ghost finds: { List ℕ → List ℕ → List ℕ → Type 0 } = { λ _ _ _. ⊤ };

    fn tried(heap: Global, what: &str, on: &str) -> Result<String, AllocError>
        ensures { IfOk result (λ found. finds what.now on.now (string_bytes found)) };
}

// A column of a line; one that it lacks is empty.
fn column(line: &str, at: usize) -> &str
    ensures { result.now ≡ column at line.now }
{
    line.split('\t').nth(at).unwrap_or("")
}

// Tries each case of a table that is in memory, and gives what is told: those that went otherwise than their lines say, and how
// many. It fails only where memory does.
pub fn run_table<T: Trying>(heap: Global, table: &str) -> Result<String, AllocError>
    ensures { IfOk result (λ told. Tells T.Trying.finds table.now (string_bytes told)) }
{
    let cases = table.lines().count();
    let mut told = Told::new(heap);
    for case in table.lines() {
        let found = T::tried(heap, column(case, 0), column(case, 3))?;
        told.add(case, column(case, 2), found.as_str())?;
    }
    told.all(cases)
}

// Tries each case of a table as its line is read, and tells those that went otherwise than their lines say, each before the
// next is tried, and at the end how many. What was told stays where a later line cannot be read or tried.
pub fn run_table_into<T: Trying, B: BufRead + Drop, W: Write>(
    heap: Global,
    from: B,
    to: &mut W,
) -> anyhow::Result<()>
    ensures { OnOk result (TellsInto T.Trying.finds (B.Read.remaining from) (W.contents to.old) (W.contents to.new)) }
{
    let mut report = Report::new();
    for line in from.lines(heap) {
        let line = line?;
        let line = line.as_str();
        let found = T::tried(heap, column(line, 0), column(line, 3))?;
        report.add(to, line, column(line, 2), found.as_str())?;
    }
    report.end(to)?;
    Ok(())
}
