// Why a text is refused.

/// A part of a text: its first byte and its length.
#[derive(Clone, Copy, PartialEq, Eq)]
pub struct Span {
    pub at: usize,
    pub len: usize,
}

#[derive(Clone, Copy, PartialEq, Eq)]
pub enum Refusal {
    /// A run or byte that is no token.
    NoToken(Span),
    /// A token with which no solid goes on, or the text's end.
    NoSolid(Span),
    /// The first token of a node past the limits, or the first byte past the longest text.
    TooLarge(Span),
}

/// Where a text goes wrong: in its tokens, in its grammar and size, or in what it says.
#[derive(Clone, Copy, PartialEq, Eq)]
pub enum Layer {
    Token,
    Grammar,
    Legality,
}

/// What a refusal is known by.
#[derive(Clone, Copy, PartialEq, Eq)]
pub struct Report {
    pub number: u8,
    pub layer: Layer,
    pub span: Span,
}
