// A kit's table of kinds, and the look-up that its ports question makes.
ghost use Rattle.std.specs.Prelude.{◌≡◌, ◌==◌};
ghost use Rattle.std.specs.List.{find};
ghost use Rattle.kit.specs.Tables.{ports_in};

use crate::question::Ports;

// A kind with its numbers of inputs and outputs.
#[derive(Clone, Copy)]
pub struct KindPorts {
    pub kind: u8,
    pub inputs: u8,
    pub outputs: u8,
}

// A number that is no kind of a kit's. Each kit has its kinds as an enum, and tells them by a `match`: no derive does.
#[derive(Clone, Copy, PartialEq, Debug)]
pub struct UnknownKind;

// The first row that has the kind.
fn row_of(table: &[KindPorts], kind: u8) -> Option<KindPorts>
    ensures { result ≡ find (λ r. kind == r.kind) table.now }
{
    table.iter().copied().find(|row| row.kind == kind)
}

// The port counts that a table has for a kind, none where it lacks the kind.
pub fn ports_in(table: &[KindPorts], kind: u8) -> Ports
    ensures { result ≡ ports_in table.now kind }
{
    match row_of(table, kind) {
        Some(row) => Ports {
            inputs: row.inputs,
            outputs: row.outputs,
        },
        None => Ports {
            inputs: 0,
            outputs: 0,
        },
    }
}
