// A refusal: its cause, by number, and the two places that the cause names.
ghost use Rattle.std.specs.Prelude.{◌≡◌, Some};
ghost use Rattle.text.specs.Faults.{number_of, shown_fault};
ghost use Rattle.text.specs.Results.{fault};

use std::fmt;

// The numbers are the ones that a user sees.
#[derive(Clone, Copy, PartialEq, Debug)]
pub enum Cause {
    Form = 1,
    Range = 2,
    FieldCount = 3,
    TooManyBlocks = 4,
    PortOutside = 5,
    DrivenTwice = 6,
    NotDriven = 7,
    KitDiffers = 8,
    TableLength = 9,
    NoTickOpen = 10,
    TickOpen = 11,
    NoTickLeft = 12,
    NumberOutside = 13,
    AlreadyKnown = 14,
    WrongToken = 15,
    ShortBuffer = 16,
    LongInput = 17,
}

impl Cause {
    pub fn number(self) -> u8
        ensures { result ≡ number_of self }
    {
        self as u8
    }
}

#[derive(Clone, Copy, PartialEq, Debug)]
pub struct Fault {
    pub cause: Cause,
    pub first: usize,
    pub second: usize,
}

impl Fault {
    pub fn new(cause: Cause, first: usize, second: usize) -> Fault
        ensures { result ≡ fault cause first second }
    {
        Fault {
            cause,
            first,
            second,
        }
    }
}

impl fmt::Display for Fault {
    ghost output = { λ f. Some (shown_fault f) };

    fn fmt<W: fmt::Write>(&self, f: &mut fmt::Formatter<W>) -> fmt::Result {
        write!(
            f,
            "refused,{},{},{}",
            self.cause.number(),
            self.first,
            self.second
        )
    }
}
