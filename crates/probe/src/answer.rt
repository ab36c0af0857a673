// Whether a part contains a point.
ghost use Rattle.std.specs.Prelude.{◌≡◌, cond, Some, None};
ghost use Rattle.model.specs.Tables.{held};
ghost use Rattle.model.specs.Unrolling.{unroll};
ghost use Rattle.probe.specs.Probing.{answer, far, point};

use super::stack::Stack;
use super::unprobed::Unprobed;
use super::walk::Walker;
use family::{Family, Reachable};
use model::{Point, Triple};
use program::Part;

/// The largest coordinate of a point that is probed, in micrometres.
const FARTHEST: u32 = 1_000_000;

// A point of whole micrometres, if it is not too far. Every such point is in reach.
fn near(at: Triple) -> Option<Reachable>
    ensures { result ≡ cond (far at) None (Some (point at)) }
{
    if at.is_beyond(FARTHEST) {
        return None;
    }
    let Triple { x, y, z } = at;
    Reachable::new(Point { x, y, z, w: 1 })
}

/// Whether a part contains a point of whole micrometres. A point that gets out of reach after some
/// placement on its way to some primitive is refused, whatever else is true.
pub fn probe<F: Family>(
    part: &Part,
    family: &F,
    at: Triple,
    stack: &mut Stack,
) -> Result<bool, Unprobed>
    ensures { result ≡ answer (F.Family.meaning family.now) (unroll (held part.now.layout.table)) at }
{
    let Some(at) = near(at) else {
        return Err(Unprobed::Far);
    };
    let walker = Walker {
        layout: &part.layout,
        family,
    };
    walker.run(at, stack)
}
