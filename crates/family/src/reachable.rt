// Points in reach.
ghost use Rattle.std.specs.Prelude.{◌≡◌, true, cond, Some, None};
ghost use Rattle.family.specs.Reaching.{near, in_reach};

use crate::exact::within;
use model::Point;
use std::marker::Model;

/// The largest coordinate that is tested.
const FARTHEST: i64 = 1_000_000_000;

/// The largest divisor that is tested.
const FINEST: i64 = 1_000;

/// A point in reach.
#[derive(Clone, Copy)]
pub struct Reachable {
    point: Point,
}

impl Model for Reachable {
    ghost use Rattle.std.specs.Prelude.{◌≡◌, true};
    ghost use Rattle.model.specs.declared.point.Point.{Point};
    ghost use Rattle.family.specs.Reaching.{in_reach};

    ghost Value = { Point };

    ghost view = { λ r. r.point };

    ghost invariant = { λ r. in_reach r.point ≡ true };

    ghost inverse = { λ p. record { point = p } };
}

pub(crate) fn is_near(coordinate: i64) -> bool
    ensures { result ≡ near coordinate }
{
    within(-FARTHEST, coordinate, FARTHEST)
}

fn in_reach(at: &Point) -> bool
    ensures { result ≡ in_reach at.now }
{
    is_near(at.x) && is_near(at.y) && is_near(at.z) && within(1, at.w, FINEST)
}

impl Reachable {
    /// The point, if it is in reach.
    pub fn new(point: Point) -> Option<Reachable>
        ensures { result ≡ cond (in_reach point) (Some point) None }
    {
        if in_reach(&point) {
            Some(Reachable { point })
        } else {
            None
        }
    }

    pub fn point(self) -> Point
        ensures is { result ≡ self }
        ensures near { in_reach result ≡ true }
    {
        self.point
    }
}
