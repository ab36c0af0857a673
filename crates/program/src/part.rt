// A part: a program without Sort and Unsort, laid out, with room for the next one.
ghost use Rattle.std.specs.Prelude.{◌≡◌, ◌≤◌, true};
ghost use Rattle.model.specs.Syntax.{size, textual};
ghost use Rattle.model.specs.Counts.{weight};
ghost use Rattle.model.specs.Held.{program};
ghost use Rattle.model.specs.Tame.{tame};
ghost use Rattle.model.specs.Unrolling.{unroll};

use super::layout::Layout;

/// Its unrolling is counted without being made, is not too large, and has no large number.
#[derive(Drop)]
pub struct Part {
    pub layout: Layout,
    pub candidate: Layout,
    ghost orderless: { textual (program layout.table.nodes.items) ≡ true },
    ghost counted: { weight (program layout.table.nodes.items) ≡ size (unroll (program layout.table.nodes.items)) },
    ghost small: { size (unroll (program layout.table.nodes.items)) ≤ 65536 },
    ghost tame: { tame (program layout.table.nodes.items) ≡ true },
}
