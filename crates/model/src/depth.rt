// How deep a program is.

/// Where a term ends, and how deep it is.
#[derive(Clone, Copy)]
pub(crate) struct Extent {
    pub(crate) end: usize,
    pub(crate) depth: usize,
}
