// The part of a line around a fault, with carets under it.
ghost use Rattle.std.specs.Prelude.{◌<◌, ◌≤◌, length};
ghost use Rattle.runzhivel.specs.Excerpts.{Shows};

use model::Span;
use std::fmt;

/// At most so many bytes of the line are shown before the fault,
const LEAD: usize = 60;

/// and so many from its first byte on.
const TRAIL: usize = 40;

#[derive(Drop)]
pub struct Excerpt<'a> {
    before: &'a [u8],
    after: &'a [u8],
    carets: usize,
    /// The line has more bytes in front.
    starts_late: bool,
    /// The line has more bytes behind.
    ends_early: bool,
}

// How many bytes are shown of the line before the fault. Two chains, since one comes from the end.
fn shown_before(before: &[u8]) -> usize
    ensures { result ≤ length before.now }
{
    before
        .iter()
        .rev()
        .take(LEAD)
        .take_while(|byte| **byte != b'\n')
        .count()
}

// How many are shown from the fault on.
fn shown_after(after: &[u8]) -> usize
    ensures { result ≤ length after.now }
{
    after
        .iter()
        .take(TRAIL)
        .take_while(|byte| **byte != b'\n')
        .count()
}

impl<'a> Excerpt<'a> {
    /// What is shown of a text for a fault in it. At the text's end the caret stands after the last byte.
    pub fn around(text: &'a [u8], span: Span) -> Excerpt<'a>
        ensures { Shows text.now span result }
    {
        let at = span.at.min(text.len());
        let from = at - shown_before(&text[..at]);
        let to = at + shown_after(&text[at..]);
        Excerpt {
            before: &text[from..at],
            after: &text[at..to],
            carets: span.len.min(to - at).max(1),
            starts_late: from > 0 && text[from - 1] != b'\n',
            ends_early: to < text.len() && text[to] != b'\n',
        }
    }
}

/// The character shown for a byte: a separator is one space wide, and no control code reaches a terminal.
pub fn shown(byte: u8) -> char
    ensures { (32 ≤ result) × (result < 127) }
{
    match byte {
        b' '..=b'~' => byte as char,
        b'\t' | b'\r' => ' ',
        _ => '?',
    }
}

impl fmt::Display for Excerpt<'_> {
    fn fmt<W: fmt::Write>(&self, f: &mut fmt::Formatter<W>) -> fmt::Result {
        f.write_str(if self.starts_late { "  | .." } else { "  | " })?;
        for byte in self.before {
            f.write_char(shown(*byte))?;
        }
        for byte in self.after {
            f.write_char(shown(*byte))?;
        }
        f.write_str(if self.ends_early { "..\n" } else { "\n" })?;
        f.write_str(if self.starts_late { "  |   " } else { "  | " })?;
        for _ in self.before {
            f.write_str(" ")?;
        }
        for _ in 0..self.carets {
            f.write_str("^")?;
        }
        Ok(())
    }
}
