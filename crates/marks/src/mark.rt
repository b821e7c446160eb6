// A signal as it is read from a tick line and as it is printed.
ghost use Rattle.std.specs.Prelude.{◌≡◌, Some};
ghost use Rattle.marks.specs.Marks.{present, input_in, shown_mark};

use crate::value::Value;
use kit::signal::Signal;
use machine::answers::Given;
use std::fmt;
use text::fault::Cause;
use text::numerals::integer;

// The value that a number stands for; one that stands for none is outside the range.
fn value<V: Value>(number: i32) -> Result<Option<Given<V>>, Cause>
    ensures { result ≡ present (V.Value.valued number) }
{
    let value = V::of(number).ok_or(Cause::Range)?;
    Ok(Some(Given::Present(value)))
}

// What a field supplies: `?` nothing, `.` absent, a number its value.
pub fn input<V: Value>(field: &[u8]) -> Result<Option<Given<V>>, Cause>
    ensures { result ≡ input_in V.Value.valued field.now }
{
    if field == b"?".as_slice() {
        return Ok(None);
    }
    if field == b".".as_slice() {
        return Ok(Some(Given::Absent));
    }
    let number = integer(field)?;
    value(number)
}

// A signal to be printed.
#[derive(Clone, Copy)]
pub struct Mark<V> {
    pub signal: Signal<V>,
}

impl<V: Value> fmt::Display for Mark<V> {
    ghost output = { λ m. Some (shown_mark V.Value.numbered m.signal) };

    fn fmt<W: fmt::Write>(&self, f: &mut fmt::Formatter<W>) -> fmt::Result {
        match self.signal {
            Signal::Unknown => f.write_str("?"),
            Signal::Absent => f.write_str("."),
            Signal::Present(value) => write!(f, "{}", value.number()),
        }
    }
}
