// The table that holds a program.
ghost use Rattle.std.specs.Prelude.{◌≡◌, ◌≤◌, true, vec_len, vec_capacity};
ghost use Rattle.model.specs.Held.{whole};

use super::node::Node;

/// The nodes of a program that is being read, with room for the largest.
#[derive(Drop)]
pub struct Draft {
    pub nodes: Vec<Node>,
    ghost room: { 640 ≤ vec_capacity nodes },
}

/// One program, as the list of its nodes in reading order, and room for the next one. All memory is
/// asked for when the table is made, so that a program is no tree of boxes.
#[derive(Drop)]
pub struct Table {
    pub nodes: Vec<Node>,
    pub spare: Draft,
    ghost program: { whole nodes.items ≡ true },
    ghost few: { vec_len nodes ≤ 640 },
    ghost room: { 640 ≤ vec_capacity nodes },
    ghost fresh: { vec_len spare.nodes ≡ 0 },
}
