// Where a point gets to by placements.
ghost use Rattle.std.specs.Prelude.{◌≡◌, ◌≤◌, ◌-ℤ◌, ◌*ℤ◌, unsigned_abs};
ghost use Rattle.model.specs.Axes.{exact};
ghost use Rattle.model.specs.Placements.{translated, rotated, quarter as quarter_of, quarters};
ghost use Rattle.model.specs.Families.{rescaled, signed};
ghost use Rattle.probe.specs.Moving.{spot_of, moves, Turned};

use family::Reachable;
use model::{Placement, Point, Wide};
use program::narrowed;

/// A longer way leads out of reach from every point in reach.
const LONGEST_WAY: u32 = 2_000_000_000;

/// A larger factor makes every divisor too large, or 0.
const LARGEST_FACTOR: u32 = 1_000;

// A coordinate less so many times the divisor. The bounds here and below are each on another number.
fn shifted(coordinate: i64, by: i64, w: i64) -> i64
    requires near { unsigned_abs coordinate ≤ 1000000000 }
    requires small { unsigned_abs by ≤ 2000000000 }
    requires fine { unsigned_abs w ≤ 1000 }
    ensures { result ≡ coordinate -ℤ by *ℤ w }
{
    coordinate - by * w
}

fn product(a: i64, b: i64, c: i64) -> i64
    requires near { unsigned_abs a ≤ 1000000000 }
    requires second { unsigned_abs b ≤ 1000 }
    requires third { unsigned_abs c ≤ 1000 }
    ensures is { result ≡ a *ℤ b *ℤ c }
    ensures small { unsigned_abs result ≤ 1000000000000000 }
{
    a * b * c
}

// A number, negated if `m` is negative.
fn with_sign(m: i64, value: i64) -> i64
    requires { unsigned_abs value ≤ 1000000000000000 }
    ensures { result ≡ signed m value }
{
    if m >= 0 { value } else { -value }
}

/// The quarters in a number of degrees, rounded down.
fn quarter(degrees: i128) -> u8
    ensures { quarters result ≡ quarter_of degrees }
{
    degrees.div_euclid(90).rem_euclid(4) as u8
}

/// A plane turned back by so many quarters: a number, since an enum of four would be made by a match
/// that says what this one says.
fn turn_back(quarter: u8, a: i64, b: i64) -> (i64, i64)
    requires { (unsigned_abs a ≤ 1000000000) × (unsigned_abs b ≤ 1000000000) }
    ensures { Turned quarter a b result.0 result.1 }
{
    match quarter {
        0 => (a, b),
        1 => (b, -a),
        2 => (-a, -b),
        _ => (-b, a),
    }
}

fn slid(vector: Wide, at: Reachable) -> Option<Reachable>
    ensures { result ≡ spot_of (translated (exact vector) at) }
{
    let Point { x, y, z, w } = at.point();
    let by = narrowed(LONGEST_WAY, vector)?;
    Reachable::new(Point {
        x: shifted(x, by.x, w),
        y: shifted(y, by.y, w),
        z: shifted(z, by.z, w),
        w,
    })
}

fn scaled(vector: Wide, at: Reachable) -> Option<Reachable>
    ensures { result ≡ spot_of (rescaled (exact vector) at) }
{
    let Point { x, y, z, w } = at.point();
    let by = narrowed(LARGEST_FACTOR, vector)?;
    let m = product(by.x, by.y, by.z);
    Reachable::new(Point {
        x: with_sign(m, product(x, by.y, by.z)),
        y: with_sign(m, product(y, by.x, by.z)),
        z: with_sign(m, product(z, by.x, by.y)),
        w: with_sign(m, product(w * by.x, by.y, by.z)),
    })
}

fn turned(vector: Wide, at: Reachable) -> Option<Reachable>
    ensures { result ≡ spot_of (rotated (exact vector) at) }
{
    let Point { x, y, z, w } = at.point();
    let (x, y) = turn_back(quarter(vector.z), x, y);
    let (z, x) = turn_back(quarter(vector.y), z, x);
    let (y, z) = turn_back(quarter(vector.x), y, z);
    Reachable::new(Point { x, y, z, w })
}

/// Where a placement by a vector takes a spot; what is out of reach stays so.
pub(crate) fn moved(
    placement: Placement,
    vector: Wide,
    spot: Option<Reachable>,
) -> Option<Reachable>
    ensures { result ≡ moves placement (exact vector) spot }
{
    let at = spot?;
    match placement {
        Placement::Translate => slid(vector, at),
        Placement::Scale => scaled(vector, at),
        Placement::Rotate => turned(vector, at),
    }
}
