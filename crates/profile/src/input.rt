// A program's input, up to a limit.
ghost use Rattle.std.specs.Prelude.{◌≡◌, ◌+◌, ◌<◌, ◌≤◌, length, take, IfOk, vec_len};
ghost use Rattle.std.specs.Io.KnownBytes.{Consumes, IsAtEnd};
ghost use Rattle.profile.specs.Failures.{AsReading};
ghost use Rattle.profile.specs.Opening.{most_bytes, limited};

use std::alloc::{AllocError, Allocator};
use std::io;
use std::io::Read;
use text::fault::{Cause, Fault};
use thiserror::Error;

// The longest input that a program takes.
pub const MOST_BYTES: usize = 65_536;

// Reads until the input ends or the buffer is full, and says how many bytes came. They stand at the front of the buffer;
// there are fewer than it holds only where no more are left.
pub fn read_into<R: Read>(from: &mut R, buffer: &mut [u8]) -> io::Result<usize>
    ensures within { IfOk result (λ n. n ≤ length buffer.old) }
    ensures bytes { IfOk result (λ n. Consumes (R.Read.remaining from.old) (R.Read.remaining from.new) (take n buffer.new)) }
    ensures all { IfOk result (λ n. n < length buffer.old → IsAtEnd (R.Read.remaining from.new)) }
{
    // a loop, since `read_exact` fails where the input is short, and `read_to_end` fills no lent buffer
    let mut len = 0;
    // each turn but the last brings a byte or more
    for _ in 0..buffer.len() {
        let n = from.read(&mut buffer[len..])?;
        if n == 0 {
            break;
        }
        len += n;
    }
    Ok(len)
}

// Why an input was not read, or not gone through. Memory that fails keeps an error of its own, and so its own words.
#[derive(Debug, Drop, Error)]
pub enum InputError {
    #[error("{0}")]
    Reading(#[from] io::Error),
    #[error("{0}")]
    Memory(#[from(alloc)] AllocError),
}

impl From<InputError> for io::Error {
    ghost from_gives = { AsReading };

    fn from(error: InputError) -> io::Error {
        match error {
            InputError::Reading(error) => error,
            InputError::Memory(error) => io::Error::from(error),
        }
    }
}

// The bytes of an input, up to one more than the limit, which tells an input that is too long.
pub fn read_input<A: Allocator, R: Read>(heap: A, from: &mut R) -> Result<Vec<u8, A>, InputError>
    ensures within { IfOk result (λ input. vec_len input ≤ most_bytes + 1) }
    ensures bytes { IfOk result (λ input. Consumes (R.Read.remaining from.old) (R.Read.remaining from.new) input.items) }
    ensures all { IfOk result (λ input. vec_len input < most_bytes + 1 → IsAtEnd (R.Read.remaining from.new)) }
{
    let mut input = vec![in heap; 0; MOST_BYTES + 1]?;
    let len = read_into(from, &mut input)?;
    input.truncate(len);
    Ok(input)
}

// An input that is longer than the limit is refused.
pub fn within_limit(input: &[u8]) -> Result<(), Fault>
    ensures { result ≡ limited input.now }
{
    if input.len() > MOST_BYTES {
        return Err(Fault::new(Cause::LongInput, 0, 0));
    }
    Ok(())
}
