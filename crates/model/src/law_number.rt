// The numbers of laws.
ghost use Rattle.std.specs.Prelude.{◌≡◌};
ghost use Rattle.model.specs.Legality.{law_number};

use super::law::Law;

impl From<Law> for u8 {
    ghost from_gives = { λ law number. number ≡ law_number law };

    fn from(law: Law) -> u8 {
        law as u8
    }
}
