// A new layout, and the layout of a text's program.
ghost use Rattle.std.specs.Prelude.{◌≡◌, IfOk};
ghost use Rattle.model.specs.Grammar.{whole};
ghost use Rattle.model.specs.Syntax.{Empty, size};
ghost use Rattle.model.specs.Tables.{held};
ghost use Rattle.model.specs.Texts.{outcome};
ghost use Rattle.text.specs.Reading.{after};
ghost use Rattle.text.specs.Loading.{Reading};

use super::layout::Layout;
use super::measuring::measure_nodes;
use model::{MOST_NODES, Refusal, Table};
use std::alloc::{AllocError, Global};
use text::read;

impl Layout {
    /// The layout of `Empty`.
    pub(crate) fn new(heap: Global) -> Result<Layout, AllocError>
        ensures { IfOk result (λ l. held l.table ≡ Empty) }
    {
        let table = Table::new(heap)?;
        let mut measures = Vec::with_capacity(heap, MOST_NODES)?;
        measure_nodes(table.nodes.as_slice(), &mut measures);
        Ok(Layout { table, measures })
    }

    /// Reads a text as `text::read` does: the layout is then that of its program.
    pub(crate) fn read(&mut self, text: &[u8]) -> Result<(), Refusal>
        ensures reading { Reading text.now self.old.table result self.new.table }
    {
        read(text, &mut self.table)?;
        measure_nodes(self.table.nodes.as_slice(), &mut self.measures);
        Ok(())
    }
}
