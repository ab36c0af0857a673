// Vectors narrowed to 64 bits, where none of their numbers is too large.
ghost use Rattle.std.specs.Prelude.{◌≡◌};
ghost use Rattle.model.specs.Axes.{exact};
ghost use Rattle.model.specs.Legality.{beyond};
ghost use Rattle.model.specs.Placements.{at as at_index};
ghost use Rattle.program.specs.Narrow.{bounded};

use model::{Linear, Triple, Wide};

/// Whether a number is farther from 0 than `most`. `Triple::is_beyond` has the test of 64 bits, which
/// needs no widening.
pub(crate) fn is_beyond(most: u32, value: i128) -> bool
    ensures { result ≡ beyond most value }
{
    u128::from(most) < value.unsigned_abs()
}

/// A vector in 64 bits, if none of its numbers is farther from 0 than `most`.
pub fn narrowed(most: u32, vector: Wide) -> Option<Triple>
    ensures { result ≡ bounded most (exact vector) }
{
    let Wide { x, y, z } = vector;
    if is_beyond(most, x) || is_beyond(most, y) || is_beyond(most, z) {
        return None;
    }
    Some(Triple {
        x: x as i64,
        y: y as i64,
        z: z as i64,
    })
}

/// A vector at an index in 64 bits, if none of its numbers is farther from 0 than `most`.
pub(crate) fn bounded_at(most: u32, vector: Linear, index: u64) -> Option<Triple>
    ensures { result ≡ bounded most (at_index index vector) }
{
    narrowed(most, vector.at(index))
}
