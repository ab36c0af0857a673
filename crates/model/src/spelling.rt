// How words are spelled, and which words placements and operators are.
ghost use Rattle.std.specs.Prelude.{◌≡◌};
ghost use Rattle.model.specs.Bytes.{spelling};
ghost use Rattle.model.specs.Tokens.{placement_word, operator_word};

use super::node::{Operator, Placement};
use super::word::Word;

impl Word {
    /// How it is spelled.
    pub fn spelling(self) -> &'static [u8]
        ensures { result.now ≡ spelling self }
    {
        match self {
            Word::Empty => b"Empty",
            Word::Prim => b"Prim",
            Word::Translate => b"Translate",
            Word::Scale => b"Scale",
            Word::Rotate => b"Rotate",
            Word::Union => b"Union",
            Word::Diff => b"Diff",
            Word::Inter => b"Inter",
            Word::Fold => b"Fold",
            Word::List => b"List",
            Word::Repeat => b"Repeat",
            Word::Tabulate => b"Tabulate",
            Word::Concat => b"Concat",
            Word::Sort => b"Sort",
            Word::Unsort => b"Unsort",
            Word::Map2 => b"Map2",
            Word::Index => b"i",
        }
    }
}

impl From<Placement> for Word {
    ghost from_gives = { λ placement word. word ≡ placement_word placement };

    fn from(placement: Placement) -> Word {
        match placement {
            Placement::Translate => Word::Translate,
            Placement::Scale => Word::Scale,
            Placement::Rotate => Word::Rotate,
        }
    }
}

impl From<Operator> for Word {
    ghost from_gives = { λ operator word. word ≡ operator_word operator };

    fn from(operator: Operator) -> Word {
        match operator {
            Operator::Union => Word::Union,
            Operator::Diff => Word::Diff,
            Operator::Inter => Word::Inter,
        }
    }
}
