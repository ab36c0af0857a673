// Whether nodes, and programs, are the same: the contract of a derived `==` says only its own test.
ghost use Rattle.std.specs.Prelude.{◌≡◌, Decides};
ghost use Rattle.model.specs.Tables.{held};

use super::node::Node;
use super::table::Table;

impl Node {
    /// Whether two nodes are the same, number for number: what `==` decides, as a promise.
    #[tactic(auto, using(crate::proofs::Equal::decided))]
    pub fn same(self, other: Node) -> bool
        ensures { Decides result (self ≡ other) }
    {
        self == other
    }
}

impl Table {
    /// Whether two tables hold the same program.
    #[tactic(auto, using(crate::proofs::Equal::same_programs))]
    pub fn same(&self, other: &Table) -> bool
        ensures { Decides result (held self.now ≡ held other.now) }
    {
        self.nodes.as_slice() == other.nodes.as_slice()
    }
}
