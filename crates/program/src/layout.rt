// A program laid out: its table, and what is told of each of its terms.
ghost use Rattle.std.specs.Prelude.{◌≡◌, ◌≤◌, vec_capacity};
ghost use Rattle.program.specs.Measures.{measures_of};

use super::measure::Measure;
use model::Table;

/// All memory is asked for when it is made. Two lists, and not one of pairs: the table is the model's
/// type, and is filled where nothing is told yet.
#[derive(Drop)]
pub struct Layout {
    pub table: Table,
    pub measures: Vec<Measure>,
    ghost told: { measures.items ≡ measures_of table.nodes.items },
    ghost room: { 640 ≤ vec_capacity measures },
}
