// Tokens, and the lexer that moves through those of a borrowed text.
ghost use Rattle.std.specs.Prelude.{◌^◌, ◌<◌, ◌≤◌, length};

use model::{Mark, Numeral, Span, Word};

#[derive(Clone, Copy)]
pub(crate) enum TokenKind {
    Word(Word),
    Number(Numeral),
    Mark(Mark),
}

/// A token, and where it stands.
#[derive(Clone, Copy)]
pub(crate) struct Token {
    pub(crate) kind: TokenKind,
    pub(crate) span: Span,
}

#[derive(Drop)]
pub(crate) struct Lexer<'a> {
    pub(crate) text: &'a [u8],
    pub(crate) at: usize,
    ghost within: { at ≤ length text.now },
    ghost short: { length text.now < 2 ^ 63 },
}
