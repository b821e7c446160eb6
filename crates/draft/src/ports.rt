// The fields of a block line, from the left; each is refused for its form before its range. Each function says at which
// field it begins: a place that moves on is no invariant of the walk.
ghost use Rattle.std.specs.Prelude.{◌≡◌, OnOk};
ghost use Rattle.text.specs.Walk.{fields_in, next_field, Moved, at_last};
ghost use Rattle.draft.specs.Lines.{port_in, third_input, second_input, no_input, in_ports, out_ports};
ghost use Rattle.draft.specs.Walk.{Before, Walked};

use crate::block::{InPorts, OutPorts, Wire};
use crate::limits::LAST_WIRE;
use text::fault::{Cause, Fault};
use text::fields::Fields;
use text::numerals::number;

// A wire number, or nothing.
#[tactic(auto, unfolding(crate::specs::Lines::port_in, crate::specs::Lines::wire_in))]
fn wire_or_none(field: &[u8]) -> Result<Option<Wire>, Cause>
    ensures { result ≡ port_in field.now }
{
    if field.is_empty() {
        return Ok(None);
    }
    let n = number(field, LAST_WIRE)?;
    Ok(Some(n as Wire))
}

// A port that may be empty.
fn port(fields: &mut Fields) -> Result<Option<Wire>, Fault>
    ensures value { result ≡ at_last fields.new (port_in (next_field fields.old)) }
    ensures moved { Moved fields.old fields.new }
{
    let field = fields.next_field();
    fields.place(wire_or_none(field))
}

// Field 6, after two inputs.
fn third_input(fields: &mut Fields, a: Wire, b: Wire) -> Result<InPorts, Fault>
    requires { Before fields.old 8 5 }
    ensures value { result ≡ third_input fields.old.number (fields_in fields.old) a b }
    ensures after { OnOk result (Walked fields.old fields.new 6) }
{
    match port(fields)? {
        None => Ok(InPorts::Two(a, b)),
        Some(c) => Ok(InPorts::Three(a, b, c)),
    }
}

// Fields 5 and 6, after one input.
fn second_input(fields: &mut Fields, a: Wire) -> Result<InPorts, Fault>
    requires { Before fields.old 8 4 }
    ensures value { result ≡ second_input fields.old.number (fields_in fields.old) a }
    ensures after { OnOk result (Walked fields.old fields.new 6) }
{
    let Some(b) = port(fields)? else {
        fields.next_empty()?;
        return Ok(InPorts::One(a));
    };
    third_input(fields, a, b)
}

// Fields 5 and 6, after an empty first input.
fn no_input(fields: &mut Fields) -> Result<InPorts, Fault>
    requires { Before fields.old 8 4 }
    ensures value { result ≡ no_input fields.old.number (fields_in fields.old) }
    ensures after { OnOk result (Walked fields.old fields.new 6) }
{
    fields.next_empty()?;
    fields.next_empty()?;
    Ok(InPorts::Zero)
}

// Fields 4 to 6. After an empty port the others have to be empty.
#[tactic(auto, unfolding(crate::specs::Lines::in_ports))]
pub(crate) fn in_ports(fields: &mut Fields) -> Result<InPorts, Fault>
    requires { Before fields.old 8 3 }
    ensures value { result ≡ in_ports fields.old.number (fields_in fields.old) }
    ensures after { OnOk result (Walked fields.old fields.new 6) }
{
    match port(fields)? {
        None => no_input(fields),
        Some(a) => second_input(fields, a),
    }
}

// Fields 7 and 8. The first output has to be filled.
#[tactic(auto, unfolding(crate::specs::Lines::out_ports, crate::specs::Lines::wire_in))]
pub(crate) fn out_ports(fields: &mut Fields) -> Result<OutPorts, Fault>
    requires { Before fields.old 8 6 }
    ensures { result ≡ out_ports fields.old.number (fields_in fields.old) }
{
    let p = fields.next_number(LAST_WIRE)? as Wire;
    match port(fields)? {
        None => Ok(OutPorts::One(p)),
        Some(q) => Ok(OutPorts::Two(p, q)),
    }
}
