// A part file, read and written back.
ghost use Rattle.std.specs.Prelude.{◌≤◌, length};
ghost use Rattle.model.specs.Limits.{most_bytes};
ghost use Rattle.runzhivel.specs.Respelling.{Respelled};

use model::{Refusal, Table};

/// Reads a text into the table, writes the one spelling of its program at the buffer's start, and
/// answers how long that is.
pub fn respell(text: &[u8], table: &mut Table, out: &mut [u8]) -> Result<usize, Refusal>
    requires { most_bytes ≤ length out.old }
    ensures { Respelled text.now table.old out.old result table.new out.new }
{
    text::read(text, table)?;
    match writer::write(table, out) {
        Ok(length) => Ok(length),
        Err(_) => unreachable(),
    }
}
