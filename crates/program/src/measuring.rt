// Measures every term of a list of nodes, from the last to the first.
ghost use Rattle.std.specs.Prelude.{◌≡◌, suc, ◌+◌, ◌*◌, ◌^◌, ◌<◌, ◌≤◌, length, drop, vec_capacity};
ghost use Rattle.model.specs.Limits.{most_nodes};
ghost use Rattle.model.specs.Counts.{elements, unrolled, folded};
ghost use Rattle.program.specs.Measures.{terms, Gathered, BoundedFrom, both, over_parts, measures_of};

use super::measure::Measure;
use super::parts::Parts;
use model::{MOST_UNROLLED, Node};

// So many terms in a row. A walk of its own, as those of depths, tokens, laws and writing are: what each tells
// of a term has its own contract, and a slice has no type to say that it is short.
fn gather(measures: &[Measure], from: usize, count: usize) -> Parts
    requires few { length measures.now ≤ most_nodes }
    requires place { from ≤ length measures.now }
    requires bounded { BoundedFrom measures.now from }
    ensures { Gathered (length measures.now) from (terms count (drop from measures.now)) result }
{
    if count == 0 || from >= measures.len() {
        return Parts {
            nodes: 0,
            first: 0,
            second: 0,
            unrolled: 0,
        };
    }
    let told = measures[from];
    let rest = gather(measures, from + told.nodes, count - 1);
    Parts {
        nodes: told.nodes + rest.nodes,
        first: told.elements,
        second: rest.first,
        unrolled: told.unrolled + rest.unrolled,
    }
}

impl Parts {
    // How many elements the term of a node with these parts has.
    fn elements(&self, node: Node) -> u128
        ensures value { result ≡ elements node (both self.now) }
        ensures bound { result ≤ suc self.now.nodes * 2 ^ 64 }
    {
        match node {
            Node::List(count) | Node::Sort(count) | Node::Unsort(count) => count as u128,
            // Two arms, here and below: one pattern for both gets no proof.
            Node::Repeat(count) => count.max(0) as u128,
            Node::Tabulate(count) => count.max(0) as u128,
            Node::Concat => self.first + self.second,
            Node::Map2(_) => self.first.min(self.second),
            _ => 0,
        }
    }

    // How many nodes it unrolls to, and a list's elements together.
    fn unrolled(&self, node: Node) -> u128
        ensures { result ≡ unrolled node (both self.now) self.now.unrolled }
    {
        match node {
            Node::Empty | Node::Primitive(_, _) => 1,
            Node::Place(_, _) | Node::Join(_) => self.unrolled + 1,
            Node::Fold => folded(self.first, self.unrolled),
            Node::Repeat(count) => count.max(0) as u128 * self.unrolled,
            Node::Tabulate(count) => count.max(0) as u128 * self.unrolled,
            Node::List(_) | Node::Concat | Node::Sort(_) | Node::Unsort(_) => self.unrolled,
            Node::Map2(_) => self.unrolled + self.first.min(self.second),
            Node::Vector(_) | Node::Number(_) => 0,
        }
    }

    // What is told of the term.
    fn told(&self, node: Node) -> Measure
        ensures value { result ≡ over_parts node self.now }
        ensures bound { result.elements ≤ result.nodes * 2 ^ 64 }
    {
        Measure {
            nodes: self.nodes + 1,
            elements: self.elements(node),
            unrolled: self.unrolled(node).min(MOST_UNROLLED + 1),
        }
    }
}

// A Union for each element but the last; Empty for no element.
fn folded(elements: u128, unrolled: u128) -> u128
    requires { elements + unrolled < 2 ^ 128 }
    ensures { result ≡ folded elements unrolled }
{
    if elements == 0 {
        return 1;
    }
    unrolled + (elements - 1)
}

// Tells of each node in turn, from the last to the first: by its index, since what is told of a node
// is written in front of what is told of its parts.
fn fill(nodes: &[Node], measures: &mut [Measure])
    requires few { length nodes.now ≤ most_nodes }
    requires even { length measures.old ≡ length nodes.now }
    ensures { measures.new ≡ measures_of nodes.now }
{
    let count = nodes.len();
    for place in (0..count).rev() {
        let node = nodes[place];
        let parts = gather(measures, place + 1, node.parts());
        measures[place] = parts.told(node);
    }
}

// Makes the measures those of the nodes: two lists, since there is no `Layout` of them yet.
pub(crate) fn measure_nodes(nodes: &[Node], measures: &mut Vec<Measure>)
    requires few { length nodes.now ≤ most_nodes }
    requires room { most_nodes ≤ vec_capacity measures.old }
    ensures told { measures.new.items ≡ measures_of nodes.now }
    ensures room { vec_capacity measures.old ≤ vec_capacity measures.new }
{
    // It is within the capacity, so that no memory is asked for.
    let Ok(()) = measures.resize(nodes.len(), Measure::NOTHING) else {
        unreachable()
    };
    fill(nodes, measures.as_mut_slice());
}
