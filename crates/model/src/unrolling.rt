// What holds of every unrolling.
ghost use Rattle.model.specs.Unrolling.{UnrolledValues};

/// A program has the values of its unrolling at every point, for every kind of value `V` with the
/// laws of an algebra and all values of primitives.
#[tactic(auto, using(crate::proofs::Unrolled::unrolled_values))]
pub fn unrolling_keeps_values<V>()
    ensures { UnrolledValues V }
{}
