// The laws that a program has to keep, and what breaks one.
use crate::node::Placement;

/// What a law is about, in the order in which laws are tested. A program that breaks it is refused
/// by the law's number.
#[derive(Clone, Copy, PartialEq, Eq)]
pub enum Law {
    /// How many nodes and levels a program has.
    Size = 3,
    /// Where a loop and its index may stand.
    Loops = 4,
    /// How large numbers may be.
    Numbers = 5,
    /// Which primitives the family has.
    Primitives = 6,
    /// The two lists of a Map2.
    Pairs = 7,
    /// How long lists and the unrolling may be.
    Lengths = 8,
}

/// The law that is broken, and the number of the first node that breaks it.
#[derive(Clone, Copy, PartialEq, Eq)]
pub struct Fault {
    pub law: Law,
    pub node: usize,
}

/// Where a node stands.
#[derive(Clone, Copy, PartialEq, Eq)]
pub struct Context {
    /// The count of the Tabulate around it.
    pub around: Option<i64>,
    /// The placement of the Map2 around it, which bounds the vectors of its list.
    pub placement: Placement,
}
