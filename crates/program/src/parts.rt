// What is told of a node's parts together.
ghost use Rattle.std.specs.Prelude.{◌+◌, ◌*◌, ◌^◌, ◌≤◌, suc};
ghost use Rattle.model.specs.Limits.{most_nodes, most_unrolled};

/// So few nodes that no number of theirs is too large.
#[derive(Clone, Copy)]
pub(crate) struct Parts {
    pub(crate) nodes: usize,
    /// The elements of the first part and of the second.
    pub(crate) first: u128,
    pub(crate) second: u128,
    pub(crate) unrolled: u128,
    ghost few: { nodes ≤ most_nodes },
    ghost short: { first + second ≤ nodes * 2 ^ 64 },
    ghost light: { unrolled ≤ nodes * suc most_unrolled },
}
