// The fields of one line, walked from the left. Each is a part of the caller's text.
ghost use Rattle.std.specs.Prelude.{◌≡◌, ◌^◌, ◌<◌, ◌≤◌, length, drop};
ghost use Rattle.text.specs.Pieces.{fields_of, fields_left};

pub mod walk;

#[derive(Drop)]
pub struct Fields<'a> {
    // the line, without its line feed
    line: &'a [u8],
    // the line's number in the text, from 1
    number: usize,
    // how many fields the line has, and how many are taken
    count: usize,
    taken: usize,
    // what follows them: nothing past the last
    rest: Option<&'a [u8]>,
    ghost short: { length line.now < 2 ^ 63 },
    ghost counted: { count ≡ length (fields_of line.now) },
    ghost within: { taken ≤ length (fields_of line.now) },
    ghost here: { fields_left rest ≡ drop taken (fields_of line.now) },
}
