// Playing the tick lines of a list. The run and the inputs are lent apart: from a struct that holds both borrows the
// checker does not lend the one while the other is written.
ghost use Rattle.std.specs.Prelude.{◌≡◌, ◌+◌, ◌++◌, length, string_bytes, OnOk};
ghost use Rattle.text.specs.LineWalk.{lines_left};
ghost use Rattle.run.specs.Runs.{state_of, drawing_of_run};
ghost use Rattle.bench.specs.Lists.{ticks_of, printed};
ghost use Rattle.bench.specs.Steps.{NextTick};

use crate::line::read_tick;
use kit::question::Kit;
use machine::answers::{Given, Intent};
use marks::report::Report;
use marks::value::Value;
use run::run::Run;
use std::alloc::{AllocError, Allocator};
use text::fault::Fault;
use text::lines::Lines;
use tick::played::Played;
use tick::tick::play;

// Takes the next line, and plays it with keep.
fn next_tick<V: Value, K: Kit<V>>(
    kit: &K,
    run: &mut Run<'_, '_, '_, V>,
    lines: &mut Lines,
    inputs: &mut [Option<Given<V>>],
) -> Result<Played, Fault>
    requires { length inputs.old ≡ (drawing_of_run run.old).inputs }
    ensures next { NextTick V.Value.valued (K.Kit.meaning kit.now) (drawing_of_run run.old) (state_of run.old) lines.old result (state_of run.new) lines.new }
    ensures diagram { drawing_of_run run.new ≡ drawing_of_run run.old }
{
    let line = lines.next_line()?;
    read_tick(line, lines.taken(), inputs)?;
    play(run, kit, inputs, Intent::Keep)
}

// Plays the lines that are left, and prints a line for each, up to the first that is refused.
pub(crate) fn play_ticks<V: Value, K: Kit<V>, A: Allocator>(
    kit: &K,
    run: &mut Run<'_, '_, '_, V>,
    lines: &mut Lines,
    inputs: &mut [Option<Given<V>>],
    out: &mut String<A>,
) -> Result<(), AllocError>
    requires { length inputs.old ≡ (drawing_of_run run.old).inputs }
    ensures { OnOk result (string_bytes out.new ≡ string_bytes out.old ++ printed V.Value.numbered (ticks_of V.Value.valued (K.Kit.meaning kit.now) (drawing_of_run run.old) (state_of run.old) (lines.old.taken + 1) (lines_left lines.old))) }
{
    while !lines.is_done() {
        match next_tick(kit, run, lines, inputs) {
            Ok(played) => out.writeln(Report {
                closed: played.closed,
                rounds: played.settled.rounds,
                wires: run.wires(),
            })?,
            Err(fault) => return out.writeln(fault),
        }
    }
    Ok(())
}
