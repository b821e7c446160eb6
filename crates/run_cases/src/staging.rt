// Scripts on the two benches. A script is parted by semicolons, and its first part names the bench: by a `match`, since
// each has a type of value of its own.
use crate::offering::offered;
use crate::playing::played;
use crate::script::IllFormed;
use kit::question::Kit;
use kits::bench_kits::{number_bench_kit, switch_bench_kit};
use marks::value::Value;
use std::alloc::{AllocError, Global};

// What a script does on a kit.
pub(crate) trait Staging {
    fn on<V: Value, K: Kit<V>>(
        heap: Global,
        kit: &K,
        script: &[&str],
    ) -> Result<String, AllocError>;
}

// A run is taken through steps.
pub(crate) struct Play;

impl Staging for Play {
    fn on<V: Value, K: Kit<V>>(
        heap: Global,
        kit: &K,
        script: &[&str],
    ) -> Result<String, AllocError> {
        played(heap, kit, script)
    }
}

// Two runs are offered each other's tokens.
pub(crate) struct Offer;

impl Staging for Offer {
    fn on<V: Value, K: Kit<V>>(
        heap: Global,
        kit: &K,
        script: &[&str],
    ) -> Result<String, AllocError> {
        offered(heap, kit, script)
    }
}

pub(crate) fn staged<S: Staging>(heap: Global, script: &str) -> Result<String, AllocError> {
    let parts = script.split(';').collect::<Vec<&str>>(heap)?;
    match parts.as_slice() {
        ["number", rest @ ..] => S::on::<i32, _>(heap, &number_bench_kit(), rest),
        ["switch", rest @ ..] => S::on::<bool, _>(heap, &switch_bench_kit(), rest),
        _ => IllFormed.to_string(heap),
    }
}
