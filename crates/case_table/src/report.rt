// The cases so far, and what a writer is told of them.
ghost use Rattle.std.specs.Prelude.{◌≡◌, ◌+◌, ◌^◌, ◌<◌, cond, OnOk};
ghost use Rattle.std.specs.Io.KnownBytes.{Appends};
ghost use Rattle.case_table.specs.Cases.{is_wrong, told_of, ends};

use std::io;
use std::io::Write;

#[derive(Drop)]
pub(crate) struct Report {
    cases: usize,
    wrong: usize,
}

impl Report {
    pub(crate) fn new() -> Report
        ensures cases { result.cases ≡ 0 }
        ensures wrong { result.wrong ≡ 0 }
    {
        Report { cases: 0, wrong: 0 }
    }

    // Adds a case; its line is told where something else was found than expected.
    pub(crate) fn add<W: Write>(
        &mut self,
        to: &mut W,
        line: &str,
        expected: &str,
        found: &str,
    ) -> io::Result<()>
        requires cases { self.old.cases + 1 < 2 ^ 64 }
        requires wrong { self.old.wrong + 1 < 2 ^ 64 }
        ensures told { OnOk result (Appends (W.contents to.old) (W.contents to.new) (told_of line.now expected.now found.now)) }
        ensures cases { self.new.cases ≡ self.old.cases + 1 }
        ensures wrong { self.new.wrong ≡ self.old.wrong + cond (is_wrong expected.now found.now) 1 0 }
    {
        self.cases += 1;
        if found != expected {
            self.wrong += 1;
            writeln!(to, "{line}: found {found}")?;
        }
        Ok(())
    }

    // How many cases there were, and how many of them went wrong.
    pub(crate) fn end<W: Write>(&self, to: &mut W) -> io::Result<()>
        ensures { OnOk result (Appends (W.contents to.old) (W.contents to.new) (ends self.now.cases self.now.wrong)) }
    {
        writeln!(
            to,
            "{} cases, {} otherwise than expected",
            self.cases, self.wrong
        )
    }
}
