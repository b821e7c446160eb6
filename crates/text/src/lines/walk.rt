// One line after the other.
ghost use Rattle.std.specs.Prelude.{◌≡◌, length, take, drop, ◌==◌};
ghost use Rattle.text.specs.LineWalk.{From, NextLine, next_piece, first_is, line_feeds};

use crate::cut::{count_pieces, first_piece};
use crate::fault::{Cause, Fault};
use crate::lines::Lines;

impl<'a> Lines<'a> {
    pub fn of(text: &'a [u8]) -> Lines<'a>
        ensures { From result text.now 0 }
    {
        Lines {
            rest: text,
            taken: 0,
        }
    }

    // The lines of a text from a byte on, numbered as in the whole text.
    #[tactic(auto, using(crate::proofs::Cuts::some_piece, crate::proofs::Cuts::few_pieces))]
    pub fn after(text: &'a [u8], at: usize) -> Lines<'a>
        ensures { From result (drop at text.now) (line_feeds (take at text.now)) }
    {
        let (before, rest) = text.split_at(at.min(text.len()));
        Lines {
            rest,
            taken: count_pieces(before, b'\n') - 1,
        }
    }

    // Whether every line is taken.
    pub fn is_done(&self) -> bool
        ensures { result ≡ (length self.now.rest.now == 0) }
    {
        self.rest.is_empty()
    }

    // How many lines are taken: the number of the line taken last, from 1.
    pub fn taken(&self) -> usize
        ensures { result ≡ self.now.taken }
    {
        self.taken
    }

    // How many bytes are left.
    pub fn left(&self) -> usize
        ensures { result ≡ length self.now.rest.now }
    {
        self.rest.len()
    }

    // Whether the first field of the next line is this word.
    #[tactic(auto, unfolding(crate::specs::LineWalk::first_is))]
    pub fn next_is(&self, word: &[u8]) -> bool
        ensures { result ≡ first_is word.now (next_piece self.now) }
    {
        let (line, _) = first_piece(self.rest, b'\n');
        let (field, _) = first_piece(line, b',');
        field == word
    }

    // The next line, without its line feed. A line that has none is refused, and not taken.
    #[tactic(auto, using(crate::proofs::Cuts::only_piece))]
    pub fn next_line(&mut self) -> Result<&'a [u8], Fault>
        ensures { NextLine self.old result self.new }
    {
        let taken = self.taken + 1;
        let (line, rest) = first_piece(self.rest, b'\n');
        let Some(rest) = rest else {
            return Err(Fault::new(Cause::FieldCount, taken, 0));
        };
        *self = Lines { rest, taken };
        Ok(line)
    }
}
