// A run that is taken through the steps of a script. The script has what the run is made of, and then the steps.
ghost use Rattle.std.specs.Prelude.{◌≡◌, ◌≤◌, length};
ghost use Rattle.std.specs.Slice.Iter.{iter_rest};
ghost use Rattle.machine.specs.declared.answers.Phase.TheVariants.{Open};
ghost use Rattle.machine.proofs.Ticks.{Alike};
ghost use Rattle.run.specs.Runs.{state_of};

use crate::lending::Lent;
use crate::script::{Call, IllFormed, Step};
use crate::telling::{Answer, Told};
use kit::question::Kit;
use machine::answers::Intent;
use marks::value::Value;
use run::run::Run;
use std::alloc::{AllocError, Global};
use std::slice;
use text::fault::Fault;

// Begins ticks and drops them.
pub(crate) fn pass<V: Value, K: Kit<V>>(
    run: &mut Run<'_, '_, '_, V>,
    kit: &K,
    ticks: usize,
) -> Result<Answer, Fault> {
    for _ in 0..ticks {
        let token = run.begin()?;
        let _ = run.close(kit, token, Intent::Drop).unwrap();
    }
    Ok(Answer::Passed)
}

// A run, the steps that are left of its script, and what its calls answered.
#[derive(Drop)]
struct Play<'k, 's, 'r, V, K> {
    kit: &'k K,
    run: Run<'r, 'r, 'r, V>,
    script: slice::Iter<'s, &'s str>,
    told: Told,
}

impl<V: Value, K: Kit<V>> Play<'_, '_, '_, V, K> {
    // Makes a call; name, count and phase stay.
    fn make(&mut self, call: Call<V>) -> Result<Answer, Fault>
        ensures run { Alike (state_of self.old.run) (state_of self.new.run) }
        ensures script { self.new.script ≡ self.old.script }
    {
        match call {
            Call::Supply(wire, given) => self.run.supply(wire, given).map(|()| Answer::Supplied),
            Call::Fire(block) => self.run.fire(self.kit, block).map(Answer::Fired),
            Call::Settle => self.run.settle(self.kit).map(Answer::Settled),
            Call::Read(wire) => self.run.read(wire).map(Answer::from),
        }
    }

    // The steps of an open tick up to its close: what it is closed with. A script that ends in the tick drops it.
    fn play_open(&mut self) -> Intent
        requires { (state_of self.old.run).phase ≡ Open }
        ensures run { Alike (state_of self.old.run) (state_of self.new.run) }
        ensures script { length (iter_rest self.new.script) ≤ length (iter_rest self.old.script) }
    {
        while let Some(text) = self.script.next() {
            match text.parse::<Step<V>>() {
                Ok(Step::Close(intent)) => return intent,
                Ok(Step::Call(call)) => {
                    let answer = self.make(call);
                    self.told.tell(answer);
                }
                Ok(Step::Begin | Step::Pass(_)) => {
                    let fault = self.run.begin().unwrap_err();
                    self.told.tell(Err(fault));
                }
                Err(ill_formed) => self.told.add(ill_formed),
            }
        }
        Intent::Drop
    }

    // A tick, from its begin to its close.
    fn play_tick(&mut self)
        ensures { length (iter_rest self.new.script) ≤ length (iter_rest self.old.script) }
    {
        match self.run.begin() {
            Ok(token) => {
                self.told.tell(Ok(Answer::Begun));
                let intent = self.play_open();
                let closed = self.run.close(self.kit, token, intent).unwrap();
                self.told.tell(Ok(Answer::Closed(closed)));
            }
            Err(fault) => self.told.tell(Err(fault)),
        }
    }

    fn play(&mut self) {
        while let Some(text) = self.script.next() {
            match text.parse::<Step<V>>() {
                Ok(Step::Begin) => self.play_tick(),
                Ok(Step::Call(call)) => {
                    let answer = self.make(call);
                    self.told.tell(answer);
                }
                Ok(Step::Pass(ticks)) => self.told.tell(pass(&mut self.run, self.kit, ticks)),
                Ok(Step::Close(_)) => self.told.tell(Ok(Answer::NoToken)),
                Err(ill_formed) => self.told.add(ill_formed),
            }
        }
    }
}

pub(crate) fn played<V: Value, K: Kit<V>>(
    heap: Global,
    kit: &K,
    script: &[&str],
) -> Result<String, AllocError> {
    let [made_of, steps @ ..] = script else {
        return IllFormed.to_string(heap);
    };
    let mut lent = Lent::read(heap, made_of)?;
    let mut told = Told::new(heap);
    told.tell(lent.check(kit));
    let mut play = Play {
        kit,
        run: lent.run(kit),
        script: steps.iter(),
        told,
    };
    play.play();
    let Play { mut told, .. } = play;
    lent.tell(&mut told);
    told.all()
}
