// What is told of the term that begins at a node.

#[derive(Clone, Copy)]
pub struct Measure {
    /// The number of its nodes.
    pub nodes: usize,
    /// How many elements it has, if it is a list.
    pub elements: u128,
    /// How many nodes it unrolls to, and a list's elements together; one more than an unrolling may
    /// have stands for all larger numbers.
    pub unrolled: u128,
}

impl Measure {
    /// Nothing is told where no term begins.
    pub(crate) const NOTHING: Measure = Measure {
        nodes: 0,
        elements: 0,
        unrolled: 0,
    };
}
