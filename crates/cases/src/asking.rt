// What the kits of the benches answer to a question that stands in words: the bench's kit, the question and the kind,
// then the question's further arguments.
use crate::rival::Rival;
use case_table::kept::Kept;
use kit::joined::Joined;
use kit::question::{BlockView, Kit, Ports};
use kit::signal::{Cell, Inputs, Signal};
use kits::bench_kits::{number_bench_kit, switch_bench_kit};
use kits::number::NumberKit;
use marks::mark::Mark;
use marks::value::Value;
use std::alloc::{AllocError, Global};
use std::fmt;

// What the four questions answer; start and next alike give a cell.
#[derive(Drop)]
enum Reply<V> {
    Counts(Ports),
    State(Cell<V>),
    Output(Signal<V>),
}

impl<V: Value> fmt::Display for Reply<V> {
    fn fmt<W: fmt::Write>(&self, f: &mut fmt::Formatter<W>) -> fmt::Result {
        match self {
            Reply::Counts(Ports { inputs, outputs }) => write!(f, "{inputs},{outputs}"),
            Reply::State(cell) => write!(f, "{}", Kept { cell: *cell }),
            Reply::Output(signal) => write!(f, "{}", Mark { signal: *signal }),
        }
    }
}

// A value as a cell's: `marks::mark::input` would refuse `+2` and `02`.
fn read_signal<V: Value>(word: &str) -> Option<Signal<V>> {
    match word {
        "?" => Some(Signal::Unknown),
        "." => Some(Signal::Absent),
        _ => Some(Signal::Present(V::of(word.parse().ok()?)?)),
    }
}

fn read_cell<V: Value>(word: &str) -> Option<Cell<V>> {
    match word {
        "-" => Some(None),
        _ => Some(Some(V::of(word.parse().ok()?)?)),
    }
}

// A block of this kind from its parameter, its cell and its three input signals.
fn read_block<V: Value>(kind: u8, words: [&str; 5]) -> Option<BlockView<V>> {
    let [parameter, cell, a, b, c] = words;
    let inputs = Inputs {
        a: read_signal(a)?,
        b: read_signal(b)?,
        c: read_signal(c)?,
    };
    Some(BlockView {
        kind,
        parameter: parameter.parse().ok()?,
        cell: read_cell(cell)?,
        inputs,
    })
}

// For each question its answer, None where its arguments are ill-formed. A `match` on the word chooses the question: each
// has arguments of its own, and a table of functions would hide which.
fn ask_ports<V: Value, K: Kit<V>>(kit: &K, kind: u8, arguments: &[&str]) -> Option<Reply<V>> {
    match arguments {
        [] => Some(Reply::Counts(kit.ports(kind))),
        _ => None,
    }
}

fn ask_start<V: Value, K: Kit<V>>(kit: &K, kind: u8, arguments: &[&str]) -> Option<Reply<V>> {
    let [parameter] = arguments else {
        return None;
    };
    let parameter = parameter.parse::<i32>().ok()?;
    Some(Reply::State(kit.start(kind, parameter)))
}

fn ask_fire<V: Value, K: Kit<V>>(kit: &K, kind: u8, arguments: &[&str]) -> Option<Reply<V>> {
    let [parameter, cell, port, a, b, c] = arguments else {
        return None;
    };
    let block = read_block(kind, [parameter, cell, a, b, c])?;
    Some(Reply::Output(kit.fire(&block, port.parse().ok()?)))
}

fn ask_next<V: Value, K: Kit<V>>(kit: &K, kind: u8, arguments: &[&str]) -> Option<Reply<V>> {
    let [parameter, cell, a, b, c] = arguments else {
        return None;
    };
    let block = read_block(kind, [parameter, cell, a, b, c])?;
    Some(Reply::State(kit.next(&block)))
}

fn ask<V: Value, K: Kit<V>>(kit: &K, words: &[&str]) -> Option<Reply<V>> {
    let [question, kind, arguments @ ..] = words else {
        return None;
    };
    let kind = kind.parse::<u8>().ok()?;
    match *question {
        "ports" => ask_ports(kit, kind, arguments),
        "start" => ask_start(kit, kind, arguments),
        "fire" => ask_fire(kit, kind, arguments),
        "next" => ask_next(kit, kind, arguments),
        _ => None,
    }
}

fn told<V: Value, K: Kit<V>>(heap: Global, kit: &K, words: &[&str]) -> Result<String, AllocError> {
    match ask(kit, words) {
        Some(reply) => format!(in heap; "{reply}"),
        None => String::from_str(heap, "ill-formed question"),
    }
}

pub(crate) fn answer(heap: Global, question: &str) -> Result<String, AllocError> {
    let words = question.split(' ').collect::<Vec<&str>>(heap)?;
    let number_first = Joined {
        first: NumberKit,
        second: Rival,
    };
    let rival_first = Joined {
        first: Rival,
        second: NumberKit,
    };
    match words.as_slice() {
        ["number", rest @ ..] => told::<i32, _>(heap, &number_bench_kit(), rest),
        ["number-rival", rest @ ..] => told::<i32, _>(heap, &number_first, rest),
        ["rival-number", rest @ ..] => told::<i32, _>(heap, &rival_first, rest),
        ["switch", rest @ ..] => told::<bool, _>(heap, &switch_bench_kit(), rest),
        _ => String::from_str(heap, "ill-formed question"),
    }
}
