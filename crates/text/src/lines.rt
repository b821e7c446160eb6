// The lines of a text, from the first on, where the caller has it. No `Iterator`: a line that is refused is not taken, and
// stays the next.
ghost use Rattle.std.specs.Prelude.{◌+◌, ◌^◌, ◌<◌, length};

pub mod walk;

#[derive(Drop)]
pub struct Lines<'a> {
    // what follows the lines taken so far
    rest: &'a [u8],
    taken: usize,
    ghost room: { taken + length rest.now < 2 ^ 63 },
}
