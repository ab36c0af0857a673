// The nodes of a program that is laid out, and what is told of its terms, place by place.
ghost use Rattle.std.specs.Prelude.{◌≡◌, vec_items, slice_index_or};
ghost use Rattle.model.specs.declared.node.Node.TheVariants.{Empty};
ghost use Rattle.program.specs.Measures.{nothing};
ghost use Rattle.program.specs.Elements.{nodes_of, TellsHere};

use super::layout::Layout;
use super::measure::Measure;
use model::Node;

impl Layout {
    /// The node at a place, or `Empty` past the last one: what lies there is no program's, and no
    /// caller looks at it.
    pub fn node_at(&self, place: usize) -> Node
        ensures { result ≡ slice_index_or (nodes_of self.now) place Empty }
    {
        self.table.nodes.get(place).copied().unwrap_or(Node::Empty)
    }

    /// What is told of the term at a place, or nothing past the last one: where no term
    /// begins no answer hangs on it.
    pub fn measure_at(&self, place: usize) -> Measure
        ensures is { result ≡ slice_index_or (vec_items self.now.measures) place nothing }
        ensures tells { TellsHere (nodes_of self.now) place result }
    {
        let told = self.measures.get(place);
        told.copied().unwrap_or(Measure::NOTHING)
    }
}
