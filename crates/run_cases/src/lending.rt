// What a run is made of: its diagram and its name, and the tables that it is lent.
use crate::script::read_number;
use crate::telling::{Answer, Told};
use case_table::kept::Kept;
use diagram::diagram::Diagram;
use kit::question::Kit;
use kit::signal::{Cell, Signal};
use marks::mark::Mark;
use marks::value::Value;
use run::run::Run;
use std::alloc::{AllocError, Global};
use text::fault::Fault;

#[derive(Drop)]
pub(crate) struct Lent<V> {
    diagram: Diagram,
    name: u32,
    wires: Vec<Signal<V>>,
    cells: Vec<Cell<V>>,
}

impl<V: Value> Lent<V> {
    // From the diagram's text, the lengths of the two tables and the name; an ill-formed text is the empty diagram. Every
    // wire is absent and every cell holds 1, by which a table is told that no run has touched.
    pub(crate) fn read(heap: Global, text: &str) -> Result<Lent<V>, AllocError> {
        let mut words = text.split(' ');
        let text = words.next().unwrap_or("").replace(heap, "\\n", "\n")?;
        let mut diagram = Diagram::empty();
        let _ = diagram.read(text.as_str().as_bytes());
        let wires = vec![in heap; Signal::Absent; read_number(words.next())]?;
        let cells = vec![in heap; V::of(1); read_number(words.next())]?;
        let name = read_number(words.next());
        Ok(Lent {
            diagram,
            name,
            wires,
            cells,
        })
    }

    pub(crate) fn check<K: Kit<V>>(&self, kit: &K) -> Result<Answer, Fault> {
        Run::check(kit, &self.diagram, &self.wires, &self.cells)?;
        Ok(Answer::Made)
    }

    // A run over the tables.
    pub(crate) fn run<K: Kit<V>>(&mut self, kit: &K) -> Run<'_, '_, '_, V> {
        Run::new(
            kit,
            self.name,
            &self.diagram,
            &mut self.wires,
            &mut self.cells,
        )
    }

    // The tables as a run has left them.
    pub(crate) fn tell(&self, told: &mut Told) {
        told.add("wires");
        told.add_all(&self.wires, |signal| Mark { signal });
        told.add("cells");
        told.add_all(&self.cells, |cell| Kept { cell });
    }
}
