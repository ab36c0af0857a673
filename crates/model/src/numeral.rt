// Numbers that are linear in the loop index, and vectors at an index.

/// At index i it is `constant` plus i times `slope`.
#[derive(Clone, Copy, PartialEq, Eq)]
pub struct Numeral {
    pub constant: i64,
    pub slope: i64,
}

/// A vector at an index: a constant and a slope of 64 bits give numbers of up to 128.
#[derive(Clone, Copy, PartialEq, Eq)]
pub struct Wide {
    pub x: i128,
    pub y: i128,
    pub z: i128,
}
