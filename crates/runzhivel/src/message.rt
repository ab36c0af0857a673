// What a refusal says to a person.
use super::excerpt::{Excerpt, shown};
use super::place::place_after;
use model::{Refusal, Report, Span};
use std::fmt;

/// The message for a refused text: the name of its file, and what could stand at the fault.
#[derive(Drop)]
pub struct Message<'a> {
    pub name: &'a str,
    pub text: &'a [u8],
    pub refusal: Refusal,
    pub expected: &'a [&'static str],
}

/// The bytes before a part of the text, and the part itself, as far as the text goes.
pub fn parted(text: &[u8], span: Span) -> (&[u8], &[u8]) {
    let at = span.at.min(text.len());
    let end = at.saturating_add(span.len).min(text.len());
    (&text[0..at], &text[at..end])
}

// What is wrong with a run or byte that is no token.
fn bad_token(run: &[u8]) -> &'static str {
    match run.first() {
        Some(b'a'..=b'z' | b'A'..=b'Z') => "is no word of Caddy",
        Some(b'0'..=b'9' | b'-') =>
            "is no number: write 0, or one to seven digits that do not begin with 0, and a slope as 4i or 2-4i",
        _ => "begins no word, number or bracket",
    }
}

// At most so many bytes of a run are quoted.
const QUOTED: usize = 40;

fn write_quoted<W: fmt::Write>(f: &mut fmt::Formatter<W>, run: &[u8]) -> fmt::Result {
    f.write_str("`")?;
    for byte in run.iter().take(QUOTED) {
        f.write_char(shown(*byte))?;
    }
    f.write_str(if run.len() > QUOTED { "..` " } else { "` " })
}

// `a, b or c`
fn write_choice<W: fmt::Write>(f: &mut fmt::Formatter<W>, names: &[&'static str]) -> fmt::Result {
    for (i, name) in names.iter().enumerate() {
        if i > 0 {
            f.write_str(if i == names.len() - 1 { " or " } else { ", " })?;
        }
        f.write_str(name)?;
    }
    Ok(())
}

impl Message<'_> {
    fn write_stop<W: fmt::Write>(&self, f: &mut fmt::Formatter<W>, token: &[u8]) -> fmt::Result {
        if token.is_empty() {
            f.write_str("the text ends too early")?;
        } else {
            write_quoted(f, token)?;
            f.write_str("cannot stand here")?;
        }
        if self.expected.is_empty() {
            return Ok(());
        }
        f.write_str(": expected ")?;
        write_choice(f, self.expected)
    }

    fn write_problem<W: fmt::Write>(&self, f: &mut fmt::Formatter<W>, token: &[u8]) -> fmt::Result {
        match self.refusal {
            Refusal::NoToken(_) => {
                write_quoted(f, token)?;
                f.write_str(bad_token(token))
            }
            Refusal::NoSolid(_) => self.write_stop(f, token),
            Refusal::TooLarge(_) => f.write_str(if token.is_empty() {
                "the text is longer than 65536 bytes"
            } else {
                "the program is too large: this would be its 641st node, or a node at depth 257"
            }),
        }
    }
}

impl fmt::Display for Message<'_> {
    fn fmt<W: fmt::Write>(&self, f: &mut fmt::Formatter<W>) -> fmt::Result {
        let name = self.name;
        let span = Report::from(self.refusal).span;
        let (before, token) = parted(self.text, span);
        let place = place_after(before);
        let line = place.line;
        let column = place.column;
        write!(f, "{name}, line {line}, column {column}: ")?;
        self.write_problem(f, token)?;
        let lines = Excerpt::around(self.text, span);
        write!(f, "\n{lines}")
    }
}
