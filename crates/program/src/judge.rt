// Which laws a node breaks, by where it stands and by how many elements it and its parts have.
ghost use Rattle.std.specs.Prelude.{◌≡◌, ℕ, ◌^◌, ◌<◌, List, vec_items, slice_index_or};
ghost use Rattle.model.specs.Families.{Meaning};
ghost use Rattle.model.specs.declared.law.Law.TheVariants.{Loops, Numbers, Pairs, Lengths};
ghost use Rattle.model.specs.Legality.{breaks as is_broken, below as context_below};
ghost use Rattle.program.specs.Measures.{nothing};
ghost use Rattle.program.specs.Judging.{Counted, counts_told};

use super::bounds::{is_loose, is_uncounted, is_unkind, is_wild};
use super::layout::Layout;
use model::{Context, MOST_ELEMENTS, Node, Placement};

// A node and where it stands are two values, of which each test asks what it needs.
pub(crate) fn breaks_loops(node: Node, context: Context) -> bool
    ensures { (m : Meaning) (cs : List ℕ) → result ≡ is_broken m context cs node Loops }
{
    match node {
        Node::Primitive(_, v) | Node::Place(_, v) | Node::Vector(v) => is_loose(context, v),
        Node::Tabulate(_) => context.around.is_some(),
        _ => false,
    }
}

pub(crate) fn breaks_numbers(node: Node, context: Context) -> bool
    ensures { (m : Meaning) (cs : List ℕ) → result ≡ is_broken m context cs node Numbers }
{
    match node {
        Node::Primitive(kind, sizes) => is_unkind(kind)
            || is_wild(Placement::Translate, context, sizes),
        Node::Place(placement, v) => is_wild(placement, context, v),
        Node::Vector(v) => is_wild(context.placement, context, v),
        // Two arms: one pattern for both gets no proof.
        Node::Repeat(count) => is_uncounted(count),
        Node::Tabulate(count) => is_uncounted(count),
        _ => false,
    }
}

/// The elements of the lists at a node and at its first two parts.
#[derive(Clone, Copy)]
pub(crate) struct Counts {
    pub(crate) own: u128,
    pub(crate) first: u128,
    pub(crate) second: u128,
}

pub(crate) fn breaks_pairs(node: Node, counts: Counts) -> bool
    ensures { (m : Meaning) (c : Context) (cs : List ℕ) → Counted counts node cs → result ≡ is_broken m c cs node Pairs }
{
    matches!(node, Node::Map2(_)) && counts.first != counts.second
}

pub(crate) fn breaks_lengths(node: Node, counts: Counts) -> bool
    ensures { (m : Meaning) (c : Context) (cs : List ℕ) → Counted counts node cs → result ≡ is_broken m c cs node Lengths }
{
    MOST_ELEMENTS < counts.own
}

/// What is told of the lists at a place and behind it, as of a node and its first two parts.
pub(crate) fn counts_at(layout: &Layout, place: usize) -> Counts
    requires { place < 2 ^ 63 }
    ensures { result ≡ counts_told (vec_items layout.now.measures) place }
{
    let first = layout.measure_at(place + 1);
    let second = layout.measure_at(first.nodes.saturating_add(place + 1));
    Counts {
        own: layout.measure_at(place).elements,
        first: first.elements,
        second: second.elements,
    }
}

/// Where the parts of a node stand.
pub(crate) fn below(node: Node, context: Context) -> Context
    ensures { result ≡ context_below node context }
{
    match node {
        Node::Tabulate(count) => Context {
            around: Some(count),
            ..context
        },
        Node::Map2(placement) => Context {
            placement,
            ..context
        },
        _ => context,
    }
}
