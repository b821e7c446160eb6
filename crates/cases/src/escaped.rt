// The bytes of a text in which `\n` is a line feed, `\\` a backslash, and `\xHH` the byte of that number.
ghost use Rattle.std.specs.Prelude.{◌<◌, ◌≤◌, length};
ghost use Rattle.std.specs.Str.Iter.{bytes_rest};

use std::alloc::{AllocError, Global};
use std::str::Bytes;

// A digit, or a small letter to `f`; any other byte, a capital letter too, is 0.
fn hex_value(b: u8) -> u32
    ensures { result < 16 }
{
    if b.is_ascii_uppercase() {
        return 0;
    }
    char::from(b).to_digit(16).unwrap_or(0)
}

// The byte that stands after a backslash.
fn escaped(bytes: &mut Bytes<'_>) -> Option<u8>
    ensures { length (bytes_rest bytes.new) ≤ length (bytes_rest bytes.old) }
{
    match bytes.next()? {
        b'x' => {
            let high = hex_value(bytes.next()?);
            let low = hex_value(bytes.next()?);
            Some((16 * high + low) as u8)
        }
        b'n' => Some(b'\n'),
        b => Some(b),
    }
}

pub(crate) fn unescaped(heap: Global, text: &str) -> Result<Vec<u8>, AllocError> {
    let mut bytes = text.bytes();
    let mut found = Vec::new(heap);
    while let Some(b) = bytes.next() {
        if b != b'\\' {
            found.push(b)?;
        } else if let Some(b) = escaped(&mut bytes) {
            found.push(b)?;
        }
    }
    Ok(found)
}
