// Reading a text into a table.
ghost use Rattle.std.specs.Prelude.{◌≡◌};
ghost use Rattle.model.specs.Grammar.{whole};
ghost use Rattle.model.specs.Syntax.{size};
ghost use Rattle.model.specs.Tables.{held};
ghost use Rattle.model.specs.Texts.{outcome};
ghost use Rattle.text.specs.Reading.{after};
ghost use Rattle.text.specs.Loading.{Reading};

use super::reader::read_program;
use model::{MOST_BYTES, Refusal, Span, Table};

/// Reads a text: the table then holds its program. A text that is refused leaves the table as it was.
pub fn read(text: &[u8], table: &mut Table) -> Result<(), Refusal>
    ensures outcome { outcome text.now ≡ after result (whole (size (held table.new))) }
    ensures reading { Reading text.now table.old result table.new }
{
    if text.len() > MOST_BYTES {
        return Err(Refusal::TooLarge(Span {
            at: MOST_BYTES,
            len: 0,
        }));
    }
    if let Err(refusal) = read_program(text, &mut table.spare) {
        table.spare.nodes.clear();
        return Err(refusal);
    }
    std::mem::swap(&mut table.nodes, &mut table.spare.nodes);
    table.spare.nodes.clear();
    Ok(())
}
