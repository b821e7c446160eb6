// Begin, supply, settle, close.
ghost use Rattle.std.specs.Prelude.{◌≡◌};
ghost use Rattle.run.specs.Runs.{state_of, drawing_of_run};
ghost use Rattle.tick.specs.Ticks.{supplied, played};

use crate::played::Played;
use kit::question::Kit;
use machine::answers::{Given, Intent};
use run::run::Run;
use text::fault::Fault;

// Supplies the inputs from wire 0 on; where there is none, nothing.
fn supply_all<V: Copy>(
    run: &mut Run<'_, '_, '_, V>,
    inputs: &[Option<Given<V>>],
) -> Result<(), Fault>
    ensures answer { result ≡ (supplied (drawing_of_run run.old) (state_of run.old) 0 inputs.now).answer }
    ensures state { state_of run.new ≡ (supplied (drawing_of_run run.old) (state_of run.old) 0 inputs.now).state }
    ensures diagram { drawing_of_run run.new ≡ drawing_of_run run.old }
{
    for (wire, input) in inputs.iter().enumerate() {
        if let Some(given) = *input {
            run.supply(wire, given)?;
        }
    }
    Ok(())
}

// Plays a tick: begun, supplied, settled, and closed with the intent. Where a supply is refused, the tick is dropped.
pub fn play<V: Copy, K: Kit<V>>(
    run: &mut Run<'_, '_, '_, V>,
    kit: &K,
    inputs: &[Option<Given<V>>],
    intent: Intent,
) -> Result<Played, Fault>
    ensures answer { result ≡ (played (K.Kit.meaning kit.now) (drawing_of_run run.old) (state_of run.old) inputs.now intent).answer }
    ensures state { state_of run.new ≡ (played (K.Kit.meaning kit.now) (drawing_of_run run.old) (state_of run.old) inputs.now intent).state }
    ensures diagram { drawing_of_run run.new ≡ drawing_of_run run.old }
{
    let token = run.begin()?;
    if let Err(fault) = supply_all(run, inputs) {
        let _ = run.close(kit, token, Intent::Drop).unwrap();
        return Err(fault);
    }
    let settled = run.settle(kit).unwrap();
    let closed = run.close(kit, token, intent).unwrap();
    Ok(Played { settled, closed })
}
