// Reading a diagram: a draft is checked, then written whole.
ghost use Rattle.std.specs.Prelude.{◌≡◌, true, is_err};
ghost use Rattle.text.specs.Results.{mapped};
ghost use Rattle.draft.specs.Drafts.{drawing_of};
ghost use Rattle.diagram.specs.Reading.{checked, read_of, after_read, ReadsExactly};
ghost use Rattle.diagram.specs.Diagrams.{drawing, empty_drawing};

use crate::diagram::Diagram;
use crate::wiring;
use draft::block::{Block, Wire};
use draft::draft::Draft;
use text::fault::Fault;

impl Diagram {
    // No inputs, no wires and no blocks.
    pub fn empty() -> Diagram
        ensures { drawing result ≡ empty_drawing }
    {
        Diagram {
            drawn: Draft::empty(),
        }
    }

    // The draft as a diagram, if it is wired.
    pub fn of(draft: Draft) -> Result<Diagram, Fault>
        ensures { mapped drawing result ≡ checked (drawing_of draft) }
    {
        wiring::check(&draft)?;
        Ok(Diagram { drawn: draft })
    }

    // Becomes the diagram that the text draws. A refused text leaves it as it was.
    pub fn read(&mut self, text: &[u8]) -> Result<(), Fault>
        ensures answer { result ≡ mapped (λ _. tt) (read_of text.now) }
        ensures state { drawing self.new ≡ after_read (drawing self.old) (read_of text.now) }
        ensures refused { is_err result ≡ true → self.new ≡ self.old }
        ensures exactly { ReadsExactly text.now }
    {
        let draft = Draft::read(text)?;
        *self = Diagram::of(draft)?;
        Ok(())
    }

    // How many wires are inputs.
    pub fn inputs(&self) -> Wire
        ensures { result ≡ (drawing self.now).inputs }
    {
        self.drawn.inputs()
    }

    // How many wires there are, the inputs among them.
    pub fn wires(&self) -> Wire
        ensures { result ≡ (drawing self.now).wires }
    {
        self.drawn.wires()
    }

    // The blocks, from block 0 on.
    pub fn blocks(&self) -> &[Block]
        ensures { result.now ≡ (drawing self.now).blocks }
    {
        self.drawn.blocks()
    }
}
