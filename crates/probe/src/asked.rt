// What a family is asked about a point.
ghost use Rattle.std.specs.Prelude.{◌≡◌};
ghost use Rattle.model.specs.Axes.{exact};
ghost use Rattle.model.specs.Shapes.{natural};
ghost use Rattle.model.specs.Unrolling.{primitive as primitive_of};
ghost use Rattle.probe.specs.Walking.{asked, kind_of};

use family::{Family, Reach, Reachable};
use model::{Primitive, Wide};
use program::narrowed;

/// The largest size that a legal primitive has.
const LARGEST_SIZE: u32 = 1_000_000;

// A kind as a record has it, if a legal record can.
fn kind_of(kind: i64) -> Option<u16>
    ensures { result ≡ kind_of (natural kind) }
{
    u16::try_from(kind.max(0)).ok()
}

fn is_in<F: Family>(family: &F, primitive: Primitive, at: Reachable) -> bool
    ensures { result ≡ (F.Family.meaning family.now).contains primitive at }
{
    family.contains(&primitive, &at.point()) == Reach::In
}

/// Whether the primitive of a kind and sizes contains a point.
pub(crate) fn contains<F: Family>(family: &F, kind: i64, sizes: Wide, at: Reachable) -> bool
    ensures { result ≡ (asked (F.Family.meaning family.now)).contains (primitive_of kind (exact sizes)) at }
{
    match (kind_of(kind), narrowed(LARGEST_SIZE, sizes)) {
        (Some(kind), Some(sizes)) => is_in(family, Primitive { kind, sizes }, at),
        _ => false,
    }
}
