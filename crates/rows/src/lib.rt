// The rows of a catalogue, read from a text: one row a line.
#![tactic(auto)]

mod line;
mod number;

ghost use Rattle.std.specs.Prelude.{◌≡◌, MatchResult};
ghost use Rattle.rows.specs.declared.Unreadable.TheVariants.{NoMemory};
ghost use Rattle.rows.specs.Reading.{Says, Refuses};

use family::Row;
use line::line_of;
use std::alloc::{AllocFailed, Global};

/// Why no rows are read from a text.
#[derive(Clone, Copy)]
pub enum Unreadable {
    /// The line of this number, from 1 on, says neither a row nor nothing.
    Row { line: usize },
    NoMemory,
}

impl From<AllocFailed<Row>> for Unreadable {
    ghost from_gives = { λ _ e. e ≡ NoMemory };

    fn from(_: AllocFailed<Row>) -> Unreadable {
        Unreadable::NoMemory
    }
}

/// The rows that a text says, in their order.
pub fn read_rows(heap: Global, bytes: &[u8]) -> Result<Vec<Row>, Unreadable>
    ensures { MatchResult result (λ v. Says bytes.now v.items) (Refuses bytes.now) }
{
    let mut rows = Vec::new(heap);
    // After a line feed at the end stands an empty part, which is no line, but says nothing either.
    for (i, line) in bytes.split(|b| *b == b'\n').enumerate() {
        let said = line_of(line).map_err(|_| Unreadable::Row { line: i + 1 })?;
        if let Some(row) = said {
            rows.push(row)?;
        }
    }
    Ok(rows)
}
