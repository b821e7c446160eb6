// The text that is told of the cases so far.
ghost use Rattle.std.specs.Prelude.{◌≡◌, ◌+◌, ◌^◌, ◌<◌, ◌++◌, [], cond, IfOk, OnOk, string_bytes};
ghost use Rattle.case_table.specs.Cases.{is_wrong, told_of, ends};

use std::alloc::{AllocError, Global};

#[derive(Drop)]
pub(crate) struct Told {
    text: String,
    wrong: usize,
}

impl Told {
    pub(crate) fn new(heap: Global) -> Told
        ensures text { string_bytes result.text ≡ [] }
        ensures wrong { result.wrong ≡ 0 }
    {
        Told {
            text: String::new(heap),
            wrong: 0,
        }
    }

    // Adds a case; its line is told where something else was found than expected.
    pub(crate) fn add(&mut self, line: &str, expected: &str, found: &str) -> Result<(), AllocError>
        requires { self.old.wrong + 1 < 2 ^ 64 }
        ensures text { OnOk result (string_bytes self.new.text ≡ string_bytes self.old.text ++ told_of line.now expected.now found.now) }
        ensures wrong { self.new.wrong ≡ self.old.wrong + cond (is_wrong expected.now found.now) 1 0 }
    {
        if found != expected {
            self.wrong += 1;
            writeln!(self.text, "{line}: found {found}")?;
        }
        Ok(())
    }

    // All that is told, of so many cases.
    pub(crate) fn all(self, cases: usize) -> Result<String, AllocError>
        ensures { IfOk result (λ t. string_bytes t ≡ string_bytes self.text ++ ends cases self.wrong) }
    {
        let Told { mut text, wrong } = self;
        writeln!(text, "{cases} cases, {wrong} otherwise than expected")?;
        Ok(text)
    }
}
