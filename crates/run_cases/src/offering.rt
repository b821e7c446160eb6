// Tokens that are offered to a run which they may not be of. A script has what each of two runs is made of, and how they
// meet.
ghost use Rattle.std.specs.Prelude.{◌≡◌, IfOk};
ghost use Rattle.machine.proofs.Ticks.{Own};
ghost use Rattle.run.specs.Runs.{state_of, token_of};

use crate::lending::Lent;
use crate::playing::pass;
use crate::script::{IllFormed, read_intent, read_number};
use crate::telling::{Answer, Told};
use kit::question::Kit;
use machine::answers::Intent;
use marks::value::Value;
use run::run::Run;
use run::token::{CloseRefused, TickToken};
use std::alloc::{AllocError, Global};
use text::fault::Fault;

// The ticks that pass in each run before, whether a tick is opened in the second too, and what each close is asked.
#[derive(Clone, Copy)]
struct Manner {
    first: usize,
    second: usize,
    both_open: bool,
    intent: Intent,
}

impl From<&str> for Manner {
    fn from(text: &str) -> Manner {
        let mut words = text.split(' ');
        Manner {
            first: read_number(words.next()),
            second: read_number(words.next()),
            both_open: words.next() == Some("open"),
            intent: read_intent(words.next().unwrap_or("")),
        }
    }
}

// Begins a tick and settles it.
fn opened<V: Value, K: Kit<V>>(run: &mut Run<'_, '_, '_, V>, kit: &K) -> Result<TickToken, Fault>
    ensures { IfOk result (λ t. Own (state_of run.new) (token_of t)) }
{
    let token = run.begin()?;
    let _ = run.settle(kit);
    Ok(token)
}

// Two runs that meet, and what their calls answered. That a token is a run's own is said at each function: a struct that
// held both could not be let go, as a token cannot.
#[derive(Drop)]
struct Meeting<'k, 'r, V, K> {
    kit: &'k K,
    manner: Manner,
    first: Run<'r, 'r, 'r, V>,
    second: Run<'r, 'r, 'r, V>,
    told: Told,
}

impl<V: Value, K: Kit<V>> Meeting<'_, '_, V, K> {
    // The second run is offered the first's token; handed back, it closes the first.
    fn offer(&mut self, token: TickToken)
        requires { Own (state_of self.old.first) (token_of token) }
    {
        let intent = self.manner.intent;
        match self.second.close(self.kit, token, intent) {
            Ok(closed) => self.told.tell(Ok(Answer::Closed(closed))),
            Err(CloseRefused { token, fault }) => {
                self.told.tell(Err(fault));
                let closed = self.first.close(self.kit, token, intent).unwrap();
                self.told.tell(Ok(Answer::Closed(closed)));
            }
        }
    }

    // Each run is offered the other's token. Where one takes it, name and count are the same, and the other takes it
    // too; else each is closed by its own.
    fn exchange(&mut self, a: TickToken, b: TickToken)
        requires of_first { Own (state_of self.old.first) (token_of a) }
        requires of_second { Own (state_of self.old.second) (token_of b) }
    {
        let kit = self.kit;
        let intent = self.manner.intent;
        match self.second.close(kit, a, intent) {
            Ok(closed) => {
                self.told.tell(Ok(Answer::Closed(closed)));
                let other = self.first.close(kit, b, intent).unwrap();
                self.told.tell(Ok(Answer::Closed(other)));
            }
            Err(CloseRefused { token: a, fault }) => {
                self.told.tell(Err(fault));
                let refused = self.first.close(kit, b, intent).unwrap_err();
                let CloseRefused { token: b, fault } = refused;
                self.told.tell(Err(fault));
                let own = self.first.close(kit, a, intent).unwrap();
                self.told.tell(Ok(Answer::Closed(own)));
                let other = self.second.close(kit, b, intent).unwrap();
                self.told.tell(Ok(Answer::Closed(other)));
            }
        }
    }

    fn meet(&mut self) {
        let a = match opened(&mut self.first, self.kit) {
            Ok(a) => a,
            Err(fault) => return self.told.tell(Err(fault)),
        };
        if self.manner.both_open {
            match opened(&mut self.second, self.kit) {
                Ok(b) => return self.exchange(a, b),
                Err(fault) => self.told.tell(Err(fault)),
            }
        }
        self.offer(a);
    }

    // Ticks pass in each run, and they meet.
    fn pass_and_meet(&mut self) {
        let passed = pass(&mut self.first, self.kit, self.manner.first);
        self.told.tell(passed);
        let passed = pass(&mut self.second, self.kit, self.manner.second);
        self.told.tell(passed);
        self.meet();
    }
}

pub(crate) fn offered<V: Value, K: Kit<V>>(
    heap: Global,
    kit: &K,
    script: &[&str],
) -> Result<String, AllocError> {
    let [one, other, manner] = script else {
        return IllFormed.to_string(heap);
    };
    let mut one = Lent::read(heap, one)?;
    let mut other = Lent::read(heap, other)?;
    let mut told = Told::new(heap);
    told.tell(one.check(kit));
    told.tell(other.check(kit));
    let mut meeting = Meeting {
        kit,
        manner: Manner::from(*manner),
        first: one.run(kit),
        second: other.run(kit),
        told,
    };
    meeting.pass_and_meet();
    let Meeting { mut told, .. } = meeting;
    one.tell(&mut told);
    other.tell(&mut told);
    told.all()
}
