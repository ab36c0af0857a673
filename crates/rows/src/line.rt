// What a line says.
ghost use Rattle.std.specs.Prelude.{◌≡◌, ◌≤◌, not, ◌==◌, [], ◌∷◌, length, MatchOption};
ghost use Rattle.std.specs.List.{prefix_len};
ghost use Rattle.rows.specs.Words.{listed};
ghost use Rattle.rows.specs.Pieces.{without_return, before_comment, is_blank, words};
ghost use Rattle.rows.specs.Rows.{five_of};
ghost use Rattle.rows.specs.Reading.{said};

use super::number::{profile_of, whole_of};
use family::Row;

/// A line that says neither a row nor nothing.
#[derive(Clone, Copy)]
pub(crate) struct Neither;

// The words of a row.
#[derive(Clone, Copy)]
struct Five<'a> {
    profile: &'a [u8],
    p: &'a [u8],
    q: &'a [u8],
    r: &'a [u8],
    d: &'a [u8],
}

fn is_blank(b: u8) -> bool
    ensures { result ≡ is_blank b }
{
    b == b' ' || b == b'\t'
}

// A carriage return at the end is no part of the line.
fn without_return(line: &[u8]) -> &[u8]
    ensures { result.now ≡ without_return line.now }
{
    line.strip_suffix(b"\r").unwrap_or(line)
}

// How many bytes stand before the comment.
fn content_len(line: &[u8]) -> usize
    ensures value { result ≡ prefix_len (λ b. not (b == 35)) line.now }
    ensures within { result ≤ length line.now }
{
    line.iter().take_while(|b| **b != b'#').count()
}

fn before_comment(line: &[u8]) -> &[u8]
    ensures { result.now ≡ before_comment line.now }
{
    &line[..content_len(line)]
}

// How many blanks stand in front.
fn blanks_len(text: &[u8]) -> usize
    ensures value { result ≡ prefix_len is_blank text.now }
    ensures within { result ≤ length text.now }
{
    text.iter().take_while(|b| is_blank(**b)).count()
}

// How many bytes stand before the first blank.
fn word_len(text: &[u8]) -> usize
    ensures value { result ≡ prefix_len (λ b. not (is_blank b)) text.now }
    ensures within { result ≤ length text.now }
{
    text.iter().take_while(|b| !is_blank(**b)).count()
}

// The first word of a text and what stands after it, if there is a word.
// `split` would give an empty part for each blank of a run.
fn first_word(text: &[u8]) -> Option<(&[u8], &[u8])>
    ensures { MatchOption result (words text.now ≡ []) (λ found. words text.now ≡ found.0.now ∷ words found.1.now) }
{
    let text = &text[blanks_len(text)..];
    if text.is_empty() {
        return None;
    }
    Some(text.split_at(word_len(text)))
}

// This word and those of the rest, if they are five.
fn five_words<'a>(profile: &'a [u8], rest: &'a [u8]) -> Option<Five<'a>>
    ensures { MatchOption result (length (words rest.now) ≡ 4 → ⊥) (λ five. profile.now ∷ words rest.now ≡ listed five) }
{
    let (p, rest) = first_word(rest)?;
    let (q, rest) = first_word(rest)?;
    let (r, rest) = first_word(rest)?;
    let (d, rest) = first_word(rest)?;
    match first_word(rest) {
        Some(_) => None,
        None => Some(Five {
            profile,
            p,
            q,
            r,
            d,
        }),
    }
}

#[tactic(auto, unfolding(crate::specs::Rows::five_of))]
fn row_from(words: Five) -> Option<Row>
    ensures { result ≡ five_of (listed words.entry) }
{
    Some(Row {
        profile: profile_of(words.profile)?,
        p: whole_of(words.p)?,
        q: whole_of(words.q)?,
        r: whole_of(words.r)?,
        d: whole_of(words.d)?,
    })
}

/// Its row, if it says more than blanks and a comment.
pub(crate) fn line_of(line: &[u8]) -> Result<Option<Row>, Neither>
    ensures { result ≡ said line.now }
{
    let text = before_comment(without_return(line));
    let Some((profile, rest)) = first_word(text) else {
        return Ok(None);
    };
    let words = five_words(profile, rest).ok_or(Neither)?;
    let row = row_from(words).ok_or(Neither)?;
    Ok(Some(row))
}
