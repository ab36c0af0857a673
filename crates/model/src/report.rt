// What a refusal is known by.
ghost use Rattle.std.specs.Prelude.{◌≡◌};
ghost use Rattle.model.specs.Reports.{report_of};

use super::refusal::{Layer, Refusal, Report};
use std::fmt;

impl From<Refusal> for Report {
    ghost from_gives = { λ refusal report. report ≡ report_of refusal };

    fn from(refusal: Refusal) -> Report {
        match refusal {
            Refusal::NoToken(span) => Report {
                number: 1,
                layer: Layer::Token,
                span,
            },
            Refusal::NoSolid(span) => Report {
                number: 2,
                layer: Layer::Grammar,
                span,
            },
            Refusal::TooLarge(span) => Report {
                number: 3,
                layer: Layer::Grammar,
                span,
            },
        }
    }
}

impl fmt::Display for Layer {
    fn fmt<W: fmt::Write>(&self, f: &mut fmt::Formatter<W>) -> fmt::Result {
        f.write_str(match self {
            Layer::Token => "token",
            Layer::Grammar => "grammar",
            Layer::Legality => "legality",
        })
    }
}
