// A diagram's text in the making, line by line. Each function says how much room it takes: what is left of it is another
// at each, and no invariant of the text.
ghost use Rattle.std.specs.Prelude.{◌≡◌, ◌+◌, ◌≤◌, ◌∷◌, ◌++◌};
ghost use Rattle.arrayvec.specs.ArrayString.{array_string_len};
ghost use Rattle.diagram.specs.Lines.{after_commas, sizes_text};
ghost use Rattle.draft.specs.Text.{in_fields, out_fields, block_text};

use arrayvec::ArrayString;
use draft::block::{Block, InPorts, OutPorts, Wire};
use draft::limits::MOST_BLOCKS;
use itoa::{Buffer, Integer};

// no line is longer
const LONGEST_LINE: usize = 64;

// room for the first line and those of the blocks
pub(crate) const ROOM: usize = (1 + MOST_BLOCKS) * LONGEST_LINE;

pub(crate) type Text = ArrayString<ROOM>;

// A comma, and a number: `write!` says what it wrote only where it does not fail, and not that it does not.
fn push_field<I: Integer>(text: &mut Text, n: I)
    requires { array_string_len text.old + (1 + I.MAX_STR_LEN) ≤ ROOM }
    ensures bytes { text.new.bytes ≡ text.old.bytes ++ 44 ∷ I.text n }
    ensures short { array_string_len text.new ≤ array_string_len text.old + (1 + I.MAX_STR_LEN) }
{
    text.push(',');
    text.push_str(Buffer::new().format(n));
}

// Three fields; unused ports are empty.
fn push_in_fields(text: &mut Text, ports: InPorts)
    requires { array_string_len text.old + 18 ≤ ROOM }
    ensures bytes { text.new.bytes ≡ text.old.bytes ++ after_commas (in_fields ports) }
    ensures short { array_string_len text.new ≤ array_string_len text.old + 18 }
{
    match ports {
        InPorts::Zero => text.push_str(",,,"),
        InPorts::One(a) => {
            push_field(text, a);
            text.push_str(",,");
        }
        InPorts::Two(a, b) => {
            push_field(text, a);
            push_field(text, b);
            text.push(',');
        }
        InPorts::Three(a, b, c) => {
            push_field(text, a);
            push_field(text, b);
            push_field(text, c);
        }
    }
}

// Two fields.
fn push_out_fields(text: &mut Text, ports: OutPorts)
    requires { array_string_len text.old + 12 ≤ ROOM }
    ensures bytes { text.new.bytes ≡ text.old.bytes ++ after_commas (out_fields ports) }
    ensures short { array_string_len text.new ≤ array_string_len text.old + 12 }
{
    match ports {
        OutPorts::One(p) => {
            push_field(text, p);
            text.push(',');
        }
        OutPorts::Two(p, q) => {
            push_field(text, p);
            push_field(text, q);
        }
    }
}

// A block's line, with its line feed.
pub(crate) fn push_block(text: &mut Text, block: &Block)
    requires { array_string_len text.old + LONGEST_LINE ≤ ROOM }
    ensures bytes { text.new.bytes ≡ text.old.bytes ++ block_text block.now }
    ensures short { array_string_len text.new ≤ array_string_len text.old + LONGEST_LINE }
{
    text.push_str("block");
    push_field(text, block.kind);
    push_field(text, block.parameter);
    push_in_fields(text, block.inputs);
    push_out_fields(text, block.outputs);
    text.push('\n');
}

// A diagram's first line, with its line feed.
pub(crate) fn of_sizes(inputs: Wire, wires: Wire) -> Text
    ensures bytes { result.bytes ≡ sizes_text inputs wires }
    ensures short { array_string_len result ≤ LONGEST_LINE }
{
    let mut text = Text::new();
    text.push_str("diagram");
    push_field(&mut text, inputs);
    push_field(&mut text, wires);
    text.push('\n');
    text
}
