// A diagram: a draft that is wired. Its type carries the three properties, so that no diagram is without them.
ghost use Rattle.draft.specs.Drafts.{drawing_of};
ghost use Rattle.diagram.specs.Wiring.{ReadsBelow, DrivesWithin, DrivenOnce};

use draft::draft::Draft;

pub mod read;
pub mod write;

#[derive(Clone, Copy)]
pub struct Diagram {
    drawn: Draft,
    ghost reads_below: { ReadsBelow (drawing_of drawn) },
    ghost drives_within: { DrivesWithin (drawing_of drawn) },
    ghost driven_once: { DrivenOnce (drawing_of drawn) },
}
