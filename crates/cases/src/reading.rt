// What reading a text answers, and whether writing it back does what it should.
use diagram::diagram::Diagram;
use std::alloc::{AllocError, Global};
use text::fault::{Cause, Fault};

// Fills the buffers that are written into, so that a byte written by mistake shows.
const FILL: u8 = 7;

const MORE: usize = 3;

// Writes into a buffer that is longer than the text, and into one that is a byte too short.
fn writes_back(heap: Global, diagram: &Diagram, text: &[u8]) -> Result<bool, AllocError> {
    let len = text.len();
    let mut long = vec![in heap; FILL; len.saturating_add(MORE)]?;
    let written = diagram.write(&mut long);
    let mut kept = text.to_vec(heap)?;
    kept.extend_from_slice(&[FILL; MORE])?;
    let mut short = vec![in heap; FILL; len.saturating_sub(1)]?;
    let refused = diagram.write(&mut short);
    let untouched = vec![in heap; FILL; len.saturating_sub(1)]?;
    let fault = Fault::new(Cause::ShortBuffer, len, len.saturating_sub(1));
    Ok(written == Ok(len) && long == kept && refused == Err(fault) && short == untouched)
}

pub(crate) fn outcome(heap: Global, text: &[u8]) -> Result<String, AllocError> {
    let mut diagram = Diagram::empty();
    if let Err(fault) = diagram.read(text) {
        let untouched = diagram.inputs() == 0
            && diagram.wires() == 0
            && diagram.blocks().is_empty();
        return if untouched {
            format!(in heap; "{fault}")
        } else {
            String::from_str(heap, "a refused read wrote")
        };
    }
    if !writes_back(heap, &diagram, text)? {
        return String::from_str(heap, "not written back");
    }
    format!(in heap;
        "ok,{},{},{},{}",
        diagram.inputs(),
        diagram.wires(),
        diagram.blocks().len(),
        diagram.text_len()
    )
}
