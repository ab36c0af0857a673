// Which tokens may follow the first tokens of a text.
use model::{Refusal, Table};
use std::alloc::{AllocError, Global};

/// The tokens to try, each with what the message calls it.
static CANDIDATES: [(&str, &str); 23] = [
    ("1", "a whole number"),
    ("1i", "a slope such as 2+4i"),
    ("Empty", "`Empty`"),
    ("Prim", "`Prim`"),
    ("Translate", "`Translate`"),
    ("Scale", "`Scale`"),
    ("Rotate", "`Rotate`"),
    ("Union", "`Union`"),
    ("Diff", "`Diff`"),
    ("Inter", "`Inter`"),
    ("Fold", "`Fold`"),
    ("List", "`List`"),
    ("Repeat", "`Repeat`"),
    ("Tabulate", "`Tabulate`"),
    ("Concat", "`Concat`"),
    ("Map2", "`Map2`"),
    ("i", "`i`"),
    ("(", "`(`"),
    (")", "`)`"),
    ("[", "`[`"),
    ("]", "`]`"),
    (",", "`,`"),
    ("", "the end of the text"),
];

/// A text that is no longer than this may take one more token.
const MOST_BEFORE: usize = 65_000;

// Whether a text is refused at this byte for its grammar.
fn stops_at(text: &[u8], at: usize, table: &mut Table) -> bool {
    match text::read(text, table) {
        Err(Refusal::NoSolid(span)) => span.at == at,
        _ => false,
    }
}

/// The tokens with which a program can go on after these bytes, found by reading the text with each.
/// None are named for a text near the limit.
pub fn expected_after(heap: Global, before: &[u8]) -> Result<Vec<&'static str>, AllocError> {
    let mut names = Vec::new(heap);
    if before.len() > MOST_BEFORE {
        return Ok(names);
    }
    let mut table = Table::new(heap)?;
    let mut text = Vec::from_slice(heap, before)?;
    text.push(b' ')?;
    let at = text.len();
    for (token, name) in &CANDIDATES {
        text.truncate(at);
        text.extend_from_slice(token.as_bytes())?;
        if !stops_at(text.as_slice(), at, &mut table) {
            names.push(*name)?;
        }
    }
    Ok(names)
}
