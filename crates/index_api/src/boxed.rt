// A box of an index is an index.
use crate::path_index::PathIndex;
use bisim_spec::Kind;
use graph_update::Change;
use label_graph::{Graph, GraphView};
use px_base::Memory;
use quotient::Summary;

impl PathIndex for Box<dyn PathIndex> {
    ghost meaning = { λ b. (PathIndex-box b).meaning b.value };

    fn kind(&self) -> Kind {
        (**self).kind()
    }

    fn build(&mut self, view: &GraphView<'_>, k: u32) -> Result<(), Memory> {
        (**self).build(view, k)
    }

    fn prepare(&mut self, graph: &Graph, change: &Change) -> Result<(), Memory> {
        (**self).prepare(graph, change)
    }

    fn commit(&mut self) {
        (**self).commit()
    }

    fn cancel(&mut self) {
        (**self).cancel()
    }

    fn refresh(&mut self, view: &GraphView<'_>) -> Result<(), Memory> {
        (**self).refresh(view)
    }

    fn summary(&self, level: u32) -> Option<&Summary> {
        (**self).summary(level)
    }
}
