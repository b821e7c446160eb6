// One field after the other; a fault is at the field last taken.
ghost use Rattle.std.specs.Prelude.{◌≡◌, ◌≤◌, length, IfOk};
ghost use Rattle.text.specs.Walk.{fields_in, Begins, next_field, Moved, at_last, count_expected, word_in, empty_in};
ghost use Rattle.text.specs.Numerals.{number_in, integer_in};
ghost use Rattle.text.specs.Results.{fault as the_fault};

use crate::cut::{count_pieces, first_piece};
use crate::fault::{Cause, Fault};
use crate::fields::Fields;
use crate::numerals::{integer, number};

impl<'a> Fields<'a> {
    // The fields of a line, which has no line feed; `number` is the line's.
    pub fn of(line: &'a [u8], number: usize) -> Fields<'a>
        ensures { Begins result line.now number }
    {
        Fields {
            line,
            number,
            count: count_pieces(line, b','),
            taken: 0,
            rest: Some(line),
        }
    }

    pub fn count(&self) -> usize
        ensures { result ≡ length (fields_in self.now) }
    {
        self.count
    }

    // The line has to have so many fields.
    pub fn expect_count(&self, wanted: usize) -> Result<(), Fault>
        ensures { result ≡ count_expected self.now wanted }
    {
        let found = self.count();
        if found != wanted {
            return Err(Fault::new(Cause::FieldCount, self.number, found));
        }
        Ok(())
    }

    // The next field; past the last, an empty one.
    pub fn next_field(&mut self) -> &'a [u8]
        ensures value { result.now ≡ next_field self.old }
        ensures moved { Moved self.old self.new }
    {
        let Some(rest) = self.rest else {
            return &[];
        };
        let (field, rest) = first_piece(rest, b',');
        self.rest = rest;
        self.taken += 1;
        field
    }

    // A fault at the field last taken.
    pub fn fault(&self, cause: Cause) -> Fault
        ensures { result ≡ the_fault cause self.now.number self.now.taken }
    {
        Fault::new(cause, self.number, self.taken)
    }

    // What was read of the field last taken: a cause gets its place.
    pub fn place<T>(&self, read: Result<T, Cause>) -> Result<T, Fault>
        ensures { result ≡ at_last self.now read }
    {
        // a `match`: what a closure over `self` returns gets no proof in a generic function
        match read {
            Ok(x) => Ok(x),
            Err(cause) => Err(self.fault(cause)),
        }
    }

    // The next field has to be this word.
    #[tactic(auto, unfolding(crate::specs::Walk::word_in))]
    pub fn next_word(&mut self, word: &[u8]) -> Result<(), Fault>
        ensures value { result ≡ at_last self.new (word_in word.now (next_field self.old)) }
        ensures moved { Moved self.old self.new }
    {
        let field = self.next_field();
        if field == word {
            return Ok(());
        }
        Err(self.fault(Cause::Form))
    }

    // The next field has to be empty.
    #[tactic(auto, unfolding(crate::specs::Walk::empty_in))]
    pub fn next_empty(&mut self) -> Result<(), Fault>
        ensures value { result ≡ at_last self.new (empty_in (next_field self.old)) }
        ensures moved { Moved self.old self.new }
    {
        let field = self.next_field();
        if field.is_empty() {
            return Ok(());
        }
        Err(self.fault(Cause::Form))
    }

    // The next field has to be a number from 0 to `most`.
    pub fn next_number(&mut self, most: u32) -> Result<u32, Fault>
        ensures value { result ≡ at_last self.new (number_in most (next_field self.old)) }
        ensures within { IfOk result (λ n. n ≤ most) }
        ensures moved { Moved self.old self.new }
    {
        let field = self.next_field();
        self.place(number(field, most))
    }

    // The next field has to be a signed 32-bit number.
    pub fn next_integer(&mut self) -> Result<i32, Fault>
        ensures value { result ≡ at_last self.new (integer_in (next_field self.old)) }
        ensures moved { Moved self.old self.new }
    {
        let field = self.next_field();
        self.place(integer(field))
    }
}
