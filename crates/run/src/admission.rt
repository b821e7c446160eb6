// Which calls a phase takes.
ghost use Rattle.std.specs.Prelude.{◌≡◌};
ghost use Rattle.run.specs.Phases.{admitted};

use machine::answers::Phase;
use text::fault::{Cause, Fault};

#[derive(Clone, Copy)]
pub enum Call {
    Begin,
    Supply,
    Fire,
    Settle,
    Read,
    Close,
}

pub(crate) fn refusal(cause: Cause) -> Fault
    ensures { result ≡ record { cause = cause; first = 0; second = 0 } }
{
    Fault::new(cause, 0, 0)
}

// Whether the phase takes the call.
pub(crate) fn admit(phase: Phase, call: Call) -> Result<(), Fault>
    ensures { result ≡ admitted phase call }
{
    match (phase, call) {
        (Phase::Resting, Call::Begin) | (Phase::Resting, Call::Read) => Ok(()),
        (Phase::Resting, Call::Close) => Err(refusal(Cause::WrongToken)),
        (Phase::Resting, _) => Err(refusal(Cause::NoTickOpen)),
        (Phase::Open, Call::Begin) => Err(refusal(Cause::TickOpen)),
        (Phase::Open, _) => Ok(()),
        (Phase::Void(_), Call::Close) => Err(refusal(Cause::WrongToken)),
        (Phase::Void(fault), _) => Err(fault),
    }
}
