// Writing a diagram's text into a caller's buffer: made whole first, so that a short one is left as it was.
ghost use Rattle.std.specs.Prelude.{◌≡◌, length, Ok};
ghost use Rattle.draft.specs.Text.{text_of};
ghost use Rattle.diagram.specs.Diagrams.{drawing};
ghost use Rattle.diagram.specs.Reading.{read_of};
ghost use Rattle.diagram.specs.Writing.{write_answer, write_bytes};

use crate::diagram::Diagram;
use crate::line;
use crate::line::Text;
use text::fault::{Cause, Fault};

impl Diagram {
    // The text, line by line.
    fn text(&self) -> Text
        ensures { result.bytes ≡ text_of (drawing self.now) }
    {
        let mut text = line::of_sizes(self.inputs(), self.wires());
        for block in self.blocks() {
            line::push_block(&mut text, block);
        }
        text
    }

    // The length of the diagram's text.
    pub fn text_len(&self) -> usize
        ensures { result ≡ length (text_of (drawing self.now)) }
    {
        self.text().len()
    }

    // The diagram's text at the front of the buffer, and its length. Later bytes stay; a buffer that is shorter than
    // the text is refused, and stays as it was.
    pub fn write(&self, buffer: &mut [u8]) -> Result<usize, Fault>
        ensures answer { result ≡ write_answer (text_of (drawing self.now)) buffer.old }
        ensures bytes { buffer.new ≡ write_bytes (text_of (drawing self.now)) buffer.old }
        ensures read_back { read_of (text_of (drawing self.now)) ≡ Ok (drawing self.now) }
    {
        let text = self.text();
        let wanted = text.len();
        let found = buffer.len();
        if found < wanted {
            return Err(Fault::new(Cause::ShortBuffer, wanted, found));
        }
        buffer[..wanted].copy_from_slice(text.as_bytes());
        Ok(wanted)
    }
}
