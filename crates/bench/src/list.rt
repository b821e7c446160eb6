// Playing a list. Run, tables and inputs are lent apart, as in `ticks`.
ghost use Rattle.std.specs.Prelude.{◌≡◌, ◌+◌, ◌≤◌, ◌++◌, length, string_bytes, OnOk};
ghost use Rattle.text.specs.LineWalk.{lines_left};
ghost use Rattle.text.specs.Results.{mapped};
ghost use Rattle.diagram.specs.Diagrams.{drawing};
ghost use Rattle.bench.specs.Lists.{drawn, run_of, listed, printed};
ghost use Rattle.bench.specs.Telling.{TellsLeast};

use crate::cut::before_ticks;
use crate::ticks::play_ticks;
use diagram::diagram::Diagram;
use kit::question::Kit;
use kit::signal::{Cell, Signal};
use machine::answers::Given;
use marks::value::Value;
use profile::input::within_limit;
use run::run::Run;
use std::alloc::{AllocError, Allocator};
use text::fault::Fault;
use text::lines::Lines;

// The diagram of an input, whose text has so many bytes.
fn read_diagram(input: &[u8], bytes: usize) -> Result<Diagram, Fault>
    requires { bytes ≤ length input.now }
    ensures { mapped drawing result ≡ drawn input.now bytes }
{
    within_limit(input)?;
    let mut diagram = Diagram::empty();
    diagram.read(&input[..bytes])?;
    Ok(diagram)
}

// Makes a run of the diagram over lent tables, and plays the lines that are left.
fn play_run<V: Value, K: Kit<V>, A: Allocator>(
    kit: &K,
    diagram: &Diagram,
    wires: &mut [Signal<V>],
    cells: &mut [Cell<V>],
    inputs: &mut [Option<Given<V>>],
    lines: &mut Lines,
    out: &mut String<A>,
) -> Result<(), AllocError>
    requires { (length wires.old ≡ (drawing diagram.now).wires) × ((length cells.old ≡ length (drawing diagram.now).blocks) × (length inputs.old ≡ (drawing diagram.now).inputs)) }
    ensures { OnOk result (string_bytes out.new ≡ string_bytes out.old ++ printed V.Value.numbered (run_of V.Value.valued (K.Kit.meaning kit.now) (drawing diagram.now) (lines.old.taken + 1) (lines_left lines.old))) }
{
    if let Err(fault) = Run::check(kit, diagram, wires, cells) {
        return out.writeln(fault);
    }
    let mut run = Run::new(kit, 0, diagram, wires, cells);
    play_ticks(kit, &mut run, lines, inputs, out)
}

// Makes the tables of the diagram, and plays the lines that are left.
fn play_lines<V: Value + Clone, K: Kit<V>, A: Allocator + Copy>(
    heap: A,
    kit: &K,
    diagram: &Diagram,
    lines: &mut Lines,
    out: &mut String<A>,
) -> Result<(), AllocError>
    ensures { OnOk result (string_bytes out.new ≡ string_bytes out.old ++ printed V.Value.numbered (run_of V.Value.valued (K.Kit.meaning kit.now) (drawing diagram.now) (lines.old.taken + 1) (lines_left lines.old))) }
{
    let mut wires = vec![in heap; Signal::Unknown; usize::from(diagram.wires())]?;
    let mut cells = vec![in heap; None; diagram.blocks().len()]?;
    let mut inputs = vec![in heap; None; usize::from(diagram.inputs())]?;
    play_run(
        kit,
        diagram,
        &mut wires[..],
        &mut cells[..],
        &mut inputs[..],
        lines,
        out,
    )
}

// Plays a list, and appends what it prints. It fails only where there is no memory.
pub fn play_list<V: Value + Clone, K: Kit<V>, A: Allocator + Copy>(
    heap: A,
    kit: &K,
    input: &[u8],
    out: &mut String<A>,
) -> Result<(), AllocError>
    ensures prints { OnOk result (string_bytes out.new ≡ string_bytes out.old ++ printed V.Value.numbered (listed V.Value.valued (K.Kit.meaning kit.now) input.now)) }
    ensures tells { TellsLeast V.Value.valued (K.Kit.meaning kit.now) input.now }
{
    let at = before_ticks(input);
    match read_diagram(input, at) {
        Ok(diagram) => {
            let mut lines = Lines::after(input, at);
            play_lines(heap, kit, &diagram, &mut lines, out)
        }
        Err(fault) => out.writeln(fault),
    }
}
