// Plays the list on standard input with the kit of the number bench. A program is a crate of its own: what the two
// can share is `play_input`.
#![tactic(auto)]

use bench::input::play_input;
use kits::bench_kits::number_bench_kit;
use std::io::Write;

fn main(rt: HostRuntime) -> anyhow::Result<()> {
    let heap = rt.alloc();
    let out = play_input::<i32, _, _, _>(heap, &number_bench_kit(), &mut rt.stdin())?;
    // whole: a printing macro writes it in small pieces
    rt.stdout().write_all(out.as_str().as_bytes())?;
    Ok(())
}
