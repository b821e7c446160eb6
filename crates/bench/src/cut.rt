// Where a list is cut: before its first tick line.
ghost use Rattle.std.specs.Prelude.{◌≡◌, ◌≤◌, length};
ghost use Rattle.bench.specs.Lists.{cut_at};

use text::lines::Lines;

// How many bytes come before the first tick line.
pub fn before_ticks(input: &[u8]) -> usize
    ensures value { result ≡ cut_at input.now }
    ensures within { result ≤ length input.now }
{
    let mut lines = Lines::of(input);
    while !lines.is_done() && !lines.next_is(b"tick") {
        if let Err(_) = lines.next_line() {
            return input.len();
        }
    }
    input.len() - lines.left()
}
