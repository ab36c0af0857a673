// How large a text and its program may be.

pub const MOST_BYTES: usize = 65_536;

pub const MOST_NODES: usize = 640;

/// The depth of the deepest program.
pub const MOST_LEVELS: u16 = 256;

/// The elements of the longest list.
pub const MOST_ELEMENTS: u128 = 1_000;

/// The nodes of the largest unrolling.
pub const MOST_UNROLLED: u128 = 65_536;
