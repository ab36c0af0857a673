// The fixed words and marks of a text.

#[derive(Clone, Copy, PartialEq, Eq)]
pub enum Word {
    Empty,
    Prim,
    Translate,
    Scale,
    Rotate,
    Union,
    Diff,
    Inter,
    Fold,
    List,
    Repeat,
    Tabulate,
    Concat,
    Sort,
    Unsort,
    Map2,
    /// `i`, the loop index.
    Index,
}

/// `(`, `)`, `[`, `]` and `,`.
#[derive(Clone, Copy, PartialEq, Eq)]
pub enum Mark {
    Open,
    Close,
    Left,
    Right,
    Comma,
}
