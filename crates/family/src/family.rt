// What every family of primitives answers.
ghost use Rattle.std.specs.Prelude.{◌≡◌};
ghost use Rattle.model.specs.Families.{Meaning, Laws};
ghost use Rattle.family.specs.Reaching.{reach};

use model::{Point, Primitive, Triple};

/// Whether a record contains a point. Three named answers, where an `Option<bool>` would name none.
#[derive(Clone, Copy, PartialEq, Eq)]
pub enum Reach {
    In,
    Out,
    OutOfReach,
}

pub trait Family {
    ghost meaning: { Self → Meaning };

    fn legal(&self, primitive: &Primitive) -> bool
        ensures { result ≡ (meaning self.now).legal primitive.now };

    fn contains(&self, primitive: &Primitive, at: &Point) -> Reach
        ensures { result ≡ reach (meaning self.now) primitive.now at.now };

    /// The primitive that contains what `primitive` does when scaled by the factors, if the family has one.
    fn absorb(&self, primitive: &Primitive, factors: Triple) -> Option<Primitive>
        ensures { result ≡ (meaning self.now).absorbed primitive.now factors };

    ghost lawful: { (family : Self) → Laws (meaning family) };
}
