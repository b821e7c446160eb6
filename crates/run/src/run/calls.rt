// The calls on a run.
ghost use Rattle.std.specs.Prelude.{◌≡◌};
ghost use Rattle.machine.specs.Logs.{begins, supplies, fires, settles, reads, closes, StandsAfter, StandsWithEvery};
ghost use Rattle.machine.specs.Machine.{begin, supply, fire, settle, read, close};
ghost use Rattle.text.specs.Results.{mapped};
ghost use Rattle.run.specs.Runs.{state_of, token_of, drawing_of_run, close_answer, HandsBack};

use crate::admission::{Call, admit, refusal};
use crate::making::forget;
use crate::run::Run;
use crate::token::{CloseRefused, TickToken};
use kit::question::Kit;
use kit::signal::Signal;
use machine::answers::{Closed, Given, Intent, Phase, Settled};
use tables::closing::keep;
use text::fault::{Cause, Fault};

// As many ticks may begin in a run.
const MOST_TICKS: u32 = 1_000_000;

impl<'d, 'w, 'c, V: Copy> Run<'d, 'w, 'c, V> {
    // One wire's signal.
    pub fn read(&self, wire: usize) -> Result<Signal<V>, Fault>
        ensures answer { result ≡ (read (drawing_of_run self.now) (state_of self.now) wire).answer }
        ensures stands { StandsWithEvery (drawing_of_run self.now) (state_of self.now) (reads wire result) (state_of self.now) }
    {
        admit(self.phase, Call::Read)?;
        let wires = &*self.wires;
        match wires.get(wire) {
            Some(signal) => Ok(*signal),
            None => Err(Fault::new(Cause::NumberOutside, wire, wires.len())),
        }
    }

    // The signals of all wires, from wire 0 on.
    pub fn wires(&self) -> &[Signal<V>]
        ensures { result.now ≡ (state_of self.now).wires }
    {
        &*self.wires
    }

    // Opens a tick.
    pub fn begin(&mut self) -> Result<TickToken, Fault>
        ensures answer { mapped token_of result ≡ (begin (state_of self.old)).answer }
        ensures state { state_of self.new ≡ (begin (state_of self.old)).state }
        ensures diagram { drawing_of_run self.new ≡ drawing_of_run self.old }
        ensures stands { StandsWithEvery (drawing_of_run self.old) (state_of self.old) (begins (mapped token_of result)) (state_of self.new) }
    {
        admit(self.phase, Call::Begin)?;
        if self.tick.count >= MOST_TICKS {
            return Err(refusal(Cause::NoTickLeft));
        }
        let wires = &mut *self.wires;
        forget(wires);
        self.tick.count += 1;
        self.phase = Phase::Open;
        Ok(TickToken { tick: self.tick })
    }

    // Gives an input wire its signal in this tick.
    pub fn supply(&mut self, wire: usize, given: Given<V>) -> Result<(), Fault>
        ensures answer { result ≡ (supply (drawing_of_run self.old) (state_of self.old) wire given).answer }
        ensures state { state_of self.new ≡ (supply (drawing_of_run self.old) (state_of self.old) wire given).state }
        ensures diagram { drawing_of_run self.new ≡ drawing_of_run self.old }
        ensures stands { StandsWithEvery (drawing_of_run self.old) (state_of self.old) (supplies wire given result) (state_of self.new) }
    {
        admit(self.phase, Call::Supply)?;
        let inputs = usize::from(self.diagram.inputs());
        if wire >= inputs {
            return Err(Fault::new(Cause::NumberOutside, wire, inputs));
        }
        let was = self.wires[wire];
        if was.is_known() {
            return Err(Fault::new(Cause::AlreadyKnown, wire, 0));
        }
        self.wires[wire] = given.into();
        Ok(())
    }

    // Fires one block; how many wires became known.
    pub fn fire<K: Kit<V>>(&mut self, kit: &K, block: usize) -> Result<usize, Fault>
        ensures answer { result ≡ (fire (K.Kit.meaning kit.now) (drawing_of_run self.old) (state_of self.old) block).answer }
        ensures state { state_of self.new ≡ (fire (K.Kit.meaning kit.now) (drawing_of_run self.old) (state_of self.old) block).state }
        ensures diagram { drawing_of_run self.new ≡ drawing_of_run self.old }
        ensures stands { StandsAfter (K.Kit.meaning kit.now) (drawing_of_run self.old) (state_of self.old) (fires block result) (state_of self.new) }
    {
        admit(self.phase, Call::Fire)?;
        let cells = &mut *self.cells;
        let wires = &mut *self.wires;
        tables::firing::fire(kit, self.diagram, cells, wires, block)
    }

    // Rounds until one makes no wire known.
    pub fn settle<K: Kit<V>>(&mut self, kit: &K) -> Result<Settled, Fault>
        ensures answer { result ≡ (settle (K.Kit.meaning kit.now) (drawing_of_run self.old) (state_of self.old)).answer }
        ensures state { state_of self.new ≡ (settle (K.Kit.meaning kit.now) (drawing_of_run self.old) (state_of self.old)).state }
        ensures diagram { drawing_of_run self.new ≡ drawing_of_run self.old }
        ensures stands { StandsAfter (K.Kit.meaning kit.now) (drawing_of_run self.old) (state_of self.old) (settles result) (state_of self.new) }
    {
        admit(self.phase, Call::Settle)?;
        let cells = &mut *self.cells;
        let wires = &mut *self.wires;
        tables::settling::settle(kit, self.diagram, cells, wires)
    }

    // Closes the tick of the token. A refused close hands the token back.
    pub fn close<K: Kit<V>>(
        &mut self,
        kit: &K,
        token: TickToken,
        intent: Intent,
    ) -> Result<Closed, CloseRefused>
        ensures answer { close_answer result ≡ (close (K.Kit.meaning kit.now) (drawing_of_run self.old) (state_of self.old) (token_of token) intent).answer }
        ensures handed { HandsBack token result }
        ensures state { state_of self.new ≡ (close (K.Kit.meaning kit.now) (drawing_of_run self.old) (state_of self.old) (token_of token) intent).state }
        ensures diagram { drawing_of_run self.new ≡ drawing_of_run self.old }
        ensures stands { StandsAfter (K.Kit.meaning kit.now) (drawing_of_run self.old) (state_of self.old) (closes (token_of token) intent (close_answer result)) (state_of self.new) }
    {
        if let Err(fault) = admit(self.phase, Call::Close) {
            return Err(CloseRefused { token, fault });
        }
        if token.tick != self.tick {
            return Err(CloseRefused {
                token,
                fault: refusal(Cause::WrongToken),
            });
        }
        let TickToken { tick: _ } = token;
        self.phase = Phase::Resting;
        let wires = &mut *self.wires;
        let cells = &mut *self.cells;
        match intent {
            Intent::Keep => Ok(keep(kit, self.diagram, cells, wires).unwrap()),
            Intent::Drop => Ok(Closed::Dropped),
        }
    }
}
