// The frames of a walk, with room for every walk: no probe asks for memory.
ghost use Rattle.std.specs.Prelude.{◌≤◌, vec_capacity};

use super::task::Frame;
use model::MOST_NODES;
use std::alloc::{AllocError, Global};

// Frames are pushed in place: a method that takes one gets no proof, by a fault of the prover.
#[derive(Drop)]
pub struct Stack {
    pub(crate) frames: Vec<Frame>,
    ghost room: { 640 ≤ vec_capacity frames },
}

impl Stack {
    pub fn new(heap: Global) -> Result<Stack, AllocError> {
        let frames = Vec::with_capacity(heap, MOST_NODES)?;
        Ok(Stack { frames })
    }
}
