// A new table, and how large its program is.
ghost use Rattle.std.specs.Prelude.{◌≡◌, IfOk};
ghost use Rattle.model.specs.Syntax.{size, Empty};
ghost use Rattle.model.specs.Tables.{held};

use super::limits::MOST_NODES;
use super::node::Node;
use super::table::{Draft, Table};
use std::alloc::{AllocError, Global};

impl Table {
    /// A table that holds `Empty`.
    #[tactic(auto, unfolding(crate::specs::Held::whole, crate::specs::Held::program))]
    pub fn new(heap: Global) -> Result<Table, AllocError>
        ensures { IfOk result (λ t. held t ≡ Empty) }
    {
        let mut nodes = Vec::with_capacity(heap, MOST_NODES)?;
        let spare = Draft {
            nodes: Vec::with_capacity(heap, MOST_NODES)?,
        };
        nodes.push_reserved(Node::Empty);
        Ok(Table { nodes, spare })
    }

    /// The number of nodes of the program held.
    #[tactic(auto, using(crate::proofs::Holding::size_program))]
    pub fn size(&self) -> usize
        ensures { result ≡ size (held self.now) }
    {
        self.nodes.len()
    }
}
