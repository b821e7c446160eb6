// What is said of a profile that opens.
ghost use Rattle.std.specs.Prelude.{◌≡◌, true, length, take, is_ok, Some};
ghost use Rattle.profile.specs.Opening.{opened, back_after, shown_report};

use crate::input::within_limit;
use diagram::diagram::Diagram;
use std::fmt;
use text::fault::Fault;

#[derive(Clone, Copy, PartialEq, Debug)]
pub struct Report {
    pub inputs: usize,
    pub wires: usize,
    pub blocks: usize,
    // of the text, in bytes
    pub length: usize,
}

impl fmt::Display for Report {
    ghost output = { λ r. Some (shown_report r) };

    fn fmt<W: fmt::Write>(&self, f: &mut fmt::Formatter<W>) -> fmt::Result {
        write!(
            f,
            "opened: {} inputs, {} wires, {} blocks; {} bytes, written back byte for byte",
            self.inputs, self.wires, self.blocks, self.length
        )
    }
}

// Reads the diagram of the input, and writes it into `back`, whose front then holds the input again.
pub fn open(input: &[u8], back: &mut [u8]) -> Result<Report, Fault>
    ensures answer { result ≡ opened input.now back.old }
    ensures bytes { back.new ≡ back_after input.now back.old }
    ensures same { is_ok result ≡ true → take (length input.now) back.new ≡ input.now }
{
    within_limit(input)?;
    let mut diagram = Diagram::empty();
    diagram.read(input)?;
    let length = diagram.write(back)?;
    Ok(Report {
        inputs: usize::from(diagram.inputs()),
        wires: usize::from(diagram.wires()),
        blocks: diagram.blocks().len(),
        length,
    })
}
