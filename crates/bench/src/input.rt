// A list as it comes into a program.
ghost use Rattle.std.specs.Prelude.{string_bytes, IfOk};
ghost use Rattle.bench.specs.Inputs.{PlaysInput};

use crate::list::play_list;
use kit::question::Kit;
use marks::value::Value;
use profile::input::{InputError, read_input};
use std::alloc::Allocator;
use std::io::Read;

// Reads a list and plays it: what it prints. It fails only where reading fails or there is no memory.
pub fn play_input<V: Value + Clone, K: Kit<V>, R: Read, A: Allocator + Copy>(
    heap: A,
    kit: &K,
    from: &mut R,
) -> Result<String<A>, InputError>
    ensures { IfOk result (λ out. PlaysInput V.Value.valued V.Value.numbered (K.Kit.meaning kit.now) (R.Read.remaining from.old) (R.Read.remaining from.new) (string_bytes out)) }
{
    let input = read_input(heap, from)?;
    let mut out = String::new(heap);
    play_list(heap, kit, &input, &mut out)?;
    Ok(out)
}
