// The terms that begin at a node of a table, and how deep they are.
ghost use Rattle.std.specs.Prelude.{◌≡◌, ◌+◌, ◌-◌, ◌^◌, ◌<◌, ◌≤◌, min, length};
ghost use Rattle.model.specs.Depths.{PartsExtent};
ghost use Rattle.model.specs.Nodes.{parts as parts_of};
ghost use Rattle.model.specs.Syntax.{depth as depth_of};
ghost use Rattle.model.specs.Tables.{held};

use super::depth::Extent;
use super::node::Node;
use super::table::Table;

impl Node {
    /// The number of its parts, or the greatest number if there are more.
    pub fn parts(self) -> usize
        ensures { result ≡ min (parts_of self) (2 ^ 64 - 1) }
    {
        match self {
            Node::Empty | Node::Primitive(_, _) | Node::Vector(_) | Node::Number(_) => 0,
            Node::Place(_, _) | Node::Fold | Node::Repeat(_) | Node::Tabulate(_) => 1,
            Node::Join(_) | Node::Concat | Node::Map2(_) => 2,
            Node::List(count) => count,
            Node::Sort(count) | Node::Unsort(count) => count.saturating_add(1),
        }
    }
}

// So many terms in a row: the depth is the deepest one's.
fn parts_extent(nodes: &[Node], place: usize, count: usize) -> Extent
    requires { place ≤ length nodes.now }
    ensures within { (result.depth + place ≤ result.end) × (result.end ≤ length nodes.now) }
    ensures extent { PartsExtent nodes.now place count result }
{
    if count == 0 || place >= nodes.len() {
        return Extent {
            end: place,
            depth: 0,
        };
    }
    let inner = parts_extent(nodes, place + 1, nodes[place].parts());
    let rest = parts_extent(nodes, inner.end, count - 1);
    Extent {
        end: rest.end,
        depth: rest.depth.max(inner.depth + 1),
    }
}

impl Table {
    /// The depth of the program held: its root alone has depth 1.
    pub fn depth(&self) -> usize
        ensures { result ≡ depth_of (held self.now) }
    {
        let nodes = self.nodes.as_slice();
        parts_extent(nodes, 0, 1).depth
    }
}
