// Why a text is not loaded, from why it is not read, and what a caller is told of it.
ghost use Rattle.std.specs.Prelude.{◌≡◌};
ghost use Rattle.program.specs.declared.unloaded.Unloaded.TheVariants.{Unread};
ghost use Rattle.program.specs.Loading.{report_of};

use super::unloaded::Unloaded;
use model::{Layer, Refusal, Report};

impl From<Refusal> for Unloaded {
    ghost from_gives = { λ unread unloaded. unloaded ≡ Unread unread };

    fn from(unread: Refusal) -> Unloaded {
        Unloaded::Unread(unread)
    }
}

/// Its number, its layer and the part of the text at fault.
impl From<Unloaded> for Report {
    ghost from_gives = { λ unloaded report. report ≡ report_of unloaded };

    fn from(unloaded: Unloaded) -> Report {
        match unloaded {
            Unloaded::Unread(refusal) => Report::from(refusal),
            Unloaded::Illegal(law, span) => Report {
                number: u8::from(law),
                layer: Layer::Legality,
                span,
            },
        }
    }
}
