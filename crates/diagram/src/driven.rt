// The wires that are driven so far, as a set: a mark for each wire, by its number.
ghost use Rattle.std.specs.Prelude.{◌≡◌, ℕ, ◌-◌, ◌<◌, cond, not, [], length, Ok, Err, OnOk, slice_index_or};
ghost use Rattle.std.specs.Coded.{coded_ℕ};
ghost use Rattle.std.specs.FinSet as set;
ghost use Rattle.std.specs.List.{find, range_with_len};
ghost use Rattle.std.specs.Ordering.{nat_cmp};
ghost use Rattle.text.specs.declared.fault.Cause.TheVariants.{DrivenTwice};
ghost use Rattle.text.specs.Results.{mapped, fault};
ghost use Rattle.draft.specs.Drawings.{blank};
ghost use Rattle.draft.specs.Limits.{most_wires};
ghost use Rattle.diagram.specs.Marks.{marked, Below};
ghost use Rattle.diagram.specs.Wiring.{outs, driven_in};

use draft::block::{Block, OutPorts, Wire};
use draft::limits::MOST_WIRES;
use std::marker::Model;
use text::fault::{Cause, Fault};

#[derive(Drop)]
pub(crate) struct Driven {
    marks: [bool; MOST_WIRES as usize],
}

impl Model for Driven {
    ghost Value = { set.FinSet nat_cmp };

    ghost coded = { set.code coded_ℕ };

    ghost view = { λ d. set.from_list (marked 0 d.marks) };

    ghost invariant = { λ d. length d.marks ≡ most_wires };
}

impl Driven {
    // The wires that the output ports drive, unless one of them is driven twice.
    pub(crate) fn of(blocks: &[Block]) -> Result<Driven, Fault>
        requires { (k : ℕ) → k < length blocks.now → Below most_wires (outs (slice_index_or blocks.now k blank).outputs) }
        ensures { result ≡ mapped set.from_list (driven_in 0 [] blocks.now) }
    {
        let mut driven = Driven::new();
        for (k, block) in blocks.iter().enumerate() {
            match block.outputs {
                OutPorts::One(p) => driven.drive(k, p)?,
                OutPorts::Two(p, q) => {
                    driven.drive(k, p)?;
                    driven.drive(k, q)?;
                }
            }
        }
        Ok(driven)
    }

    // No wire.
    fn new() -> Driven
        ensures { result ≡ set.empty }
    {
        Driven {
            marks: [false; MOST_WIRES as usize],
        }
    }

    fn contains(&self, w: Wire) -> bool
        ensures { result ≡ set.contains self.now w }
    {
        self.marks.get(usize::from(w)).copied().unwrap_or(false)
    }

    // The first of the wires from low to high - 1 that is not driven.
    pub(crate) fn first_missing(&self, low: Wire, high: Wire) -> Option<Wire>
        ensures { result ≡ find (λ w. not (set.contains self.now w)) (range_with_len low (high - low)) }
    {
        (low..high).find(|w| !self.contains(*w))
    }

    // One more wire, which a port of block k drives, unless an earlier port does.
    fn drive(&mut self, k: usize, w: Wire) -> Result<(), Fault>
        requires { w < most_wires }
        ensures answer { result ≡ cond (set.contains self.old w) (Err (fault DrivenTwice k w)) (Ok tt) }
        ensures state { OnOk result (self.new ≡ set.insert self.old w) }
    {
        let at = usize::from(w);
        if self.marks[at] {
            return Err(Fault::new(Cause::DrivenTwice, k, at));
        }
        self.marks[at] = true;
        Ok(())
    }
}
