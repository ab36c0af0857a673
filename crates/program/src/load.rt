// The part that a text says.
ghost use Rattle.std.specs.Prelude.{◌≡◌, IfOk};
ghost use Rattle.model.specs.Syntax.{Empty, size};
ghost use Rattle.model.specs.Tables.{held};
ghost use Rattle.model.specs.Unrolling.{unroll};
ghost use Rattle.program.specs.Loading.{Loaded};

use super::layout::Layout;
use super::part::Part;
use super::unloaded::Unloaded;
use family::Family;
use std::alloc::{AllocError, Global};
use text::first_token;

impl Part {
    /// The part of `Empty`.
    pub fn new(heap: Global) -> Result<Part, AllocError>
        ensures { IfOk result (λ p. held p.layout.table ≡ Empty) }
    {
        let layout = Layout::new(heap)?;
        let candidate = Layout::new(heap)?;
        Ok(Part { layout, candidate })
    }

    /// How many nodes its unrolling has.
    pub fn unrolled(&self) -> usize
        ensures { result ≡ size (unroll (held self.now.layout.table)) }
    {
        let measures = self.layout.measures.as_slice();
        measures[0].unrolled as usize
    }

    /// Loads a text: the part is then its program. A text that is refused leaves its layout as it was.
    pub fn load<F: Family>(&mut self, text: &[u8], family: &F) -> Result<(), Unloaded>
        ensures { Loaded (F.Family.meaning family.now) text.now self.old result self.new }
    {
        self.candidate.read(text)?;
        if let Some(fault) = self.candidate.fault(family) {
            let Some(span) = first_token(text, &self.candidate.table, fault.node) else {
                unreachable()
            };
            return Err(Unloaded::Illegal(fault.law, span));
        }
        std::mem::swap(&mut self.layout, &mut self.candidate);
        Ok(())
    }
}
