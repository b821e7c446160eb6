// A block: its kind, its parameter, and the wires at its ports. Ports of a side are filled from the left, so a
// block with a gap cannot be written down.
pub type Wire = u16;

#[derive(Clone, Copy, PartialEq, Debug)]
pub enum InPorts {
    Zero,
    One(Wire),
    Two(Wire, Wire),
    Three(Wire, Wire, Wire),
}

#[derive(Clone, Copy, PartialEq, Debug)]
pub enum OutPorts {
    One(Wire),
    Two(Wire, Wire),
}

#[derive(Clone, Copy, PartialEq, Debug)]
pub struct Block {
    pub kind: u8,
    pub parameter: i32,
    pub inputs: InPorts,
    pub outputs: OutPorts,
}
