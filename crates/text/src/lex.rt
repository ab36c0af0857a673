// What the runs of a text say, and its tokens one by one.
ghost use Rattle.std.specs.Prelude.{◌≡◌, ◌<◌, length};
ghost use Rattle.std.specs.Option.{option_map};
ghost use Rattle.model.specs.Bytes.{word_of, mark_of};
ghost use Rattle.model.specs.Lexing.{stands, token_at};
ghost use Rattle.text.specs.Lexer.{spoken, Tells, Nexts};

use super::byte::{number_len, separators_len, starts_number, word_len};
use super::number::number_of;
use super::token::{Lexer, Token, TokenKind};
use model::{Mark, Refusal, Span, Word};

// In the order in which a run is compared with them.
const WORDS: [Word; 17] = [
    Word::Empty,
    Word::Prim,
    Word::Translate,
    Word::Scale,
    Word::Rotate,
    Word::Union,
    Word::Diff,
    Word::Inter,
    Word::Fold,
    Word::List,
    Word::Repeat,
    Word::Tabulate,
    Word::Concat,
    Word::Sort,
    Word::Unsort,
    Word::Map2,
    Word::Index,
];

/// The word that a run spells.
fn word_of(run: &[u8]) -> Option<Word>
    ensures { result ≡ word_of run.now }
{
    WORDS.iter().copied().find(|word| run == word.spelling())
}

/// The mark that a byte is.
fn mark_of(b: u8) -> Option<Mark>
    ensures { result ≡ mark_of b }
{
    match b {
        b'(' => Some(Mark::Open),
        b')' => Some(Mark::Close),
        b'[' => Some(Mark::Left),
        b']' => Some(Mark::Right),
        b',' => Some(Mark::Comma),
        _ => None,
    }
}

// The token that a part of the text is; a part that is none is refused.
fn token_in(kind: Option<TokenKind>, span: Span) -> Result<Token, Refusal>
    ensures { Tells (stands (option_map spoken kind) span.at span.len) result }
{
    match kind {
        Some(kind) => Ok(Token { kind, span }),
        None => Err(Refusal::NoToken(span)),
    }
}

/// The token that begins at a byte of the text, which is no separator.
fn token_at(text: &[u8], at: usize) -> Result<Token, Refusal>
    requires { at < length text.now }
    ensures { Tells (token_at text.now at) result }
{
    let first = text[at];
    let rest = &text[at..];
    if first.is_ascii_alphabetic() {
        let run = &rest[..word_len(rest)];
        let word = word_of(run).map(TokenKind::Word);
        return token_in(word, Span { at, len: run.len() });
    }
    if starts_number(first) {
        let run = &rest[..number_len(rest)];
        let number = number_of(run).map(TokenKind::Number);
        return token_in(number, Span { at, len: run.len() });
    }
    token_in(mark_of(first).map(TokenKind::Mark), Span { at, len: 1 })
}

impl Lexer<'_> {
    /// The next token, moving past it, or None at the end. A bad run or byte is refused.
    pub(crate) fn next(&mut self) -> Result<Option<Token>, Refusal>
        ensures same { self.new.text.now ≡ self.old.text.now }
        ensures nexts { Nexts self.old result self.new }
    {
        let text = self.text;
        self.at += separators_len(&text[self.at..]);
        if self.at == text.len() {
            return Ok(None);
        }
        let token = token_at(text, self.at)?;
        self.at = token.span.at + token.span.len;
        Ok(Some(token))
    }
}
