// Two families side by side.
ghost use Rattle.std.specs.Prelude.{◌≡◌};
ghost use Rattle.std.specs.Option.{option_map};
ghost use Rattle.family.specs.Beside.{beside, own, of_kind};
ghost use Rattle.family.specs.BesideLaws.{beside_laws};

use crate::family::{Family, Reach};
use model::{Point, Primitive, Triple};

/// Kind 2k is the first's kind k, and kind 2k+1 the second's.
#[derive(Drop)]
pub struct Beside<F, G> {
    pub first: F,
    pub second: G,
}

/// The primitive as its own family knows it.
fn own(primitive: &Primitive) -> Primitive
    ensures { result ≡ own primitive.now }
{
    Primitive {
        kind: primitive.kind / 2,
        ..*primitive
    }
}

fn of_kind(kind: u16, absorbed: Option<Primitive>) -> Option<Primitive>
    ensures { result ≡ option_map (of_kind kind) absorbed }
{
    absorbed.map(|part| Primitive { kind, ..part })
}

// Each answer chooses by the kind's parity on its own, since the two families are of two types.
impl<F: Family, G: Family> Family for Beside<F, G> {
    ghost meaning = { λ s. beside (F.Family.meaning s.first) (G.Family.meaning s.second) };

    ghost lawful = { λ s. beside_laws (F.Family.meaning s.first) (G.Family.meaning s.second) (F.Family.lawful s.first) (G.Family.lawful s.second) };

    fn legal(&self, primitive: &Primitive) -> bool {
        let own = own(primitive);
        if primitive.kind % 2 == 0 {
            self.first.legal(&own)
        } else {
            self.second.legal(&own)
        }
    }

    fn contains(&self, primitive: &Primitive, at: &Point) -> Reach {
        let own = own(primitive);
        if primitive.kind % 2 == 0 {
            self.first.contains(&own, at)
        } else {
            self.second.contains(&own, at)
        }
    }

    fn absorb(&self, primitive: &Primitive, factors: Triple) -> Option<Primitive> {
        let own = own(primitive);
        // A family keeps a record's kind, so the answer's is the one at hand.
        let absorbed = if primitive.kind % 2 == 0 {
            self.first.absorb(&own, factors)
        } else {
            self.second.absorb(&own, factors)
        };
        of_kind(primitive.kind, absorbed)
    }
}
