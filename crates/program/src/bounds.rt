// Which numbers a placement, a loop and a kind take, exact for every number of 64 bits.
ghost use Rattle.std.specs.Prelude.{◌≡◌};
ghost use Rattle.model.specs.Legality.{beyond, unfit, nonzero, some_axis, loose, wild, uncounted, unkind};
ghost use Rattle.program.specs.Judging.{turns, turns_asked, some_along, some_axis_along};

use super::narrow::is_beyond;
use model::{Context, Linear, Numeral, Placement, Triple};

/// The largest constant, slope, translation and size.
pub(crate) const FARTHEST: u32 = 1_000_000;

const LARGEST_FACTOR: u32 = 1_000;

/// In degrees, as the quarter is.
const LARGEST_ANGLE: u32 = 36_000;

const QUARTER: u128 = 90;

/// The largest count of a Repeat and of a Tabulate.
const MOST_TURNS: i64 = 1_000;

const NO_SLOPE: Triple = Triple { x: 0, y: 0, z: 0 };

fn is_unfit(placement: Placement, value: i128) -> bool
    ensures { result ≡ unfit placement value }
{
    match placement {
        Placement::Translate => is_beyond(FARTHEST, value),
        Placement::Scale => value == 0 || is_beyond(LARGEST_FACTOR, value),
        Placement::Rotate => is_beyond(LARGEST_ANGLE, value) || value.unsigned_abs() % QUARTER != 0,
    }
}

// Whether a number is unfit at one of the first indices, so many of them: asked of each. Two functions
// take the same three values, and a third a vector for the number.
fn is_unfit_at_some(placement: Placement, number: Numeral, count: u64) -> bool
    ensures { result ≡ some_along (unfit placement) number count }
{
    (0..count).any(|i| is_unfit(placement, number.at(i)))
}

// The same, asked of as few as suffice: a translation that is fit at both ends is fit between them.
fn is_unfit_along(placement: Placement, number: Numeral, count: u64) -> bool
    ensures { result ≡ some_along (unfit placement) number count }
{
    if count == 0 {
        return false;
    }
    if is_unfit(placement, number.at(0)) {
        return true;
    }
    match placement {
        Placement::Translate => is_unfit(placement, number.at(count - 1)),
        Placement::Scale | Placement::Rotate => number.slope != 0
            && is_unfit_at_some(placement, number, count),
    }
}

// How many indices the loop around a node has: without one the index is 0 alone.
fn turns_around(around: Option<i64>) -> u64
    ensures { result ≡ turns around }
{
    match around {
        None => 1,
        Some(n) => u64::try_from(n).unwrap_or(0),
    }
}

fn is_sloped(v: Linear) -> bool
    ensures { result ≡ some_axis nonzero v.slope }
{
    v.slope != NO_SLOPE
}

/// Whether a vector has an index outside of a loop.
pub(crate) fn is_loose(context: Context, v: Linear) -> bool
    ensures { result ≡ loose context v }
{
    context.around.is_none() && is_sloped(v)
}

// Whether a vector has a number that the placement does not take at one of the first indices.
fn is_unfit_somewhere(placement: Placement, v: Linear, count: u64) -> bool
    ensures { result ≡ some_axis_along (unfit placement) v count }
{
    v.axes()
        .iter()
        .any(|n| is_unfit_along(placement, *n, count))
}

/// Whether a vector has a number that is too large, or that the placement does not take.
pub(crate) fn is_wild(placement: Placement, context: Context, v: Linear) -> bool
    ensures { result ≡ wild placement context v }
{
    if v.constant.is_beyond(FARTHEST) || v.slope.is_beyond(FARTHEST) {
        return true;
    }
    is_unfit_somewhere(placement, v, turns_around(context.around))
}

/// At how many indices a vector has to be asked: without slope it is at all as at the first.
pub(crate) fn turns_asked(around: Option<i64>, v: Linear) -> u64
    ensures { result ≡ turns_asked around v }
{
    let turns = turns_around(around);
    if is_sloped(v) { turns } else { turns.min(1) }
}

pub(crate) fn is_uncounted(count: i64) -> bool
    ensures { result ≡ uncounted count }
{
    !(1..=MOST_TURNS).contains(&count)
}

pub(crate) fn is_unkind(kind: i64) -> bool
    ensures { result ≡ unkind kind }
{
    u16::try_from(kind).is_err()
}
