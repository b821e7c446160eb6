// Opens the profile on standard input, and says what was read or why it was refused.
#![tactic(auto)]

use profile::input::{MOST_BYTES, read_input};
use profile::open::open;
use std::io;

fn main(rt: HostRuntime) -> io::Result<()> {
    let heap = rt.alloc();
    let input = read_input(heap, &mut rt.stdin())?;
    let mut back = vec![in heap; 0; MOST_BYTES]?;
    match open(&input, &mut back) {
        Ok(report) => println!(rt; "{report}"),
        Err(fault) => println!(rt; "{fault}"),
    }
}
