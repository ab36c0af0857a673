// One node of a program. A program is the list of its nodes in reading order.

#[derive(Clone, Copy, PartialEq, Eq)]
pub enum Placement {
    Translate,
    Scale,
    Rotate,
}

#[derive(Clone, Copy, PartialEq, Eq)]
pub enum Operator {
    Union,
    Diff,
    Inter,
}

#[derive(Clone, Copy, PartialEq, Eq)]
pub struct Triple {
    pub x: i64,
    pub y: i64,
    pub z: i64,
}

/// A vector that is linear in the loop index: at index i it is `constant` plus i times `slope`.
#[derive(Clone, Copy, PartialEq, Eq)]
pub struct Linear {
    pub constant: Triple,
    pub slope: Triple,
}

/// Numbers are wide enough for any candidate: a text may write a kind or a count that is out of bounds.
#[derive(Clone, Copy, PartialEq, Eq)]
pub enum Node {
    Empty,
    /// A primitive's kind and its three sizes.
    Primitive(i64, Linear),
    Place(Placement, Linear),
    Join(Operator),
    /// The union of a list of solids.
    Fold,
    /// A vector that is an element of a list.
    Vector(Linear),
    /// A list of so many elements, written out.
    List(usize),
    Repeat(i64),
    Tabulate(i64),
    Concat,
    /// An order of so many numbers, and the list that it reorders.
    Sort(usize),
    Unsort(usize),
    Map2(Placement),
    /// A number of an order.
    Number(usize),
}
