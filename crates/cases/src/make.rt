// The text that a line of the table stands for.
use std::alloc::{AllocError, Global};

fn repeat(text: &mut Vec<u8>, part: &[u8], times: usize) -> Result<(), AllocError> {
    for _ in 0..times {
        text.extend_from_slice(part)?;
    }
    Ok(())
}

// A list of so many nodes in all.
fn wide(heap: Global, nodes: usize) -> Result<Vec<u8>, AllocError> {
    let mut text = Vec::from_slice(heap, b"(Fold Union (List")?;
    repeat(&mut text, b" Empty", nodes.saturating_sub(2))?;
    text.extend_from_slice(b"))")?;
    Ok(text)
}

// A solid of so many levels.
fn deep(heap: Global, levels: usize) -> Result<Vec<u8>, AllocError> {
    let mut text = Vec::new(heap);
    let above = levels.saturating_sub(1);
    repeat(&mut text, b"(Translate [0,0,1] ", above)?;
    text.extend_from_slice(b"Empty")?;
    repeat(&mut text, b")", above)?;
    Ok(text)
}

// `Empty` and spaces, so many bytes in all.
fn long(heap: Global, bytes: usize) -> Result<Vec<u8>, AllocError> {
    let mut text = Vec::from_slice(heap, b"Empty")?;
    repeat(&mut text, b" ", bytes.saturating_sub(5))?;
    Ok(text)
}

// A line as it stands, with `\t`, `\r` and `\n` for a tab, a CR and an LF, and `\x` for a byte 255.
fn plain(heap: Global, line: &[u8]) -> Result<Vec<u8>, AllocError> {
    let mut text = Vec::new(heap);
    // A flag, since the byte after a backslash may be past the line's end.
    let mut escaped = false;
    for b in line {
        if escaped {
            let byte = match *b {
                b't' => b'\t',
                b'r' => b'\r',
                b'n' => b'\n',
                b'x' => 255,
                other => other,
            };
            text.push(byte)?;
            escaped = false;
        } else if *b == b'\\' {
            escaped = true;
        } else {
            text.push(*b)?;
        }
    }
    Ok(text)
}

// The digits of a size as one number, whatever stands between them; past the largest it begins again at 0.
fn number(size: &str) -> usize {
    size.chars().filter_map(|c| c.to_digit(10)).fold(
        0,
        |value: usize, digit| value.wrapping_mul(10).wrapping_add(digit as usize),
    )
}

/// `nodes N`, `levels N` and `bytes N` stand for texts of that size; any other line is its text.
pub fn text_of_line(heap: Global, line: &str) -> Result<Vec<u8>, AllocError> {
    match line.split_once(' ') {
        Some(("nodes", size)) => wide(heap, number(size)),
        Some(("levels", size)) => deep(heap, number(size)),
        Some(("bytes", size)) => long(heap, number(size)),
        _ => plain(heap, line.as_bytes()),
    }
}
