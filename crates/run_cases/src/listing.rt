// What a bench prints for a list that stands behind the bench's name, in one line: `\n` is a line feed.
use bench::list::play_list;
use kits::bench_kits::{number_bench_kit, switch_bench_kit};
use std::alloc::{AllocError, Global};

// By a `match`: each bench has a type of value of its own.
fn played(heap: Global, bench: &str, list: &[u8], out: &mut String) -> Result<(), AllocError> {
    match bench {
        "number" => play_list::<i32, _, _>(heap, &number_bench_kit(), list, out),
        "switch" => play_list::<bool, _, _>(heap, &switch_bench_kit(), list, out),
        _ => out.writeln("no such bench"),
    }
}

pub(crate) fn listed(heap: Global, on: &str) -> Result<String, AllocError> {
    let (bench, list) = on.split_once(' ').unwrap_or((on, ""));
    let list = list.replace(heap, "\\n", "\n")?;
    let mut out = String::new(heap);
    played(heap, bench, list.as_str().as_bytes(), &mut out)?;
    out.as_str().replace(heap, "\n", "\\n")
}
