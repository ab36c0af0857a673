// Points, and the primitive records that a family gives a meaning.
use crate::node::Triple;

/// Means x/w, y/w, z/w micrometres, where w is at least 1.
#[derive(Clone, Copy, PartialEq, Eq)]
pub struct Point {
    pub x: i64,
    pub y: i64,
    pub z: i64,
    pub w: i64,
}

#[derive(Clone, Copy, PartialEq, Eq)]
pub struct Primitive {
    /// A number, and no enum: which kinds there are is for a family to say.
    pub kind: u16,
    pub sizes: Triple,
}
