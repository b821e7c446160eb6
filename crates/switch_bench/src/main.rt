// Plays the list on standard input with the kit of the switch bench. A program is a crate of its own: what the two
// can share is `play_input`.
#![tactic(auto)]

use bench::input::play_input;
use kits::bench_kits::switch_bench_kit;
use std::io::Write;

fn main(rt: HostRuntime) -> anyhow::Result<()> {
    let heap = rt.alloc();
    let out = play_input::<bool, _, _, _>(heap, &switch_bench_kit(), &mut rt.stdin())?;
    // whole: a printing macro writes it in small pieces
    rt.stdout().write_all(out.as_str().as_bytes())?;
    Ok(())
}
