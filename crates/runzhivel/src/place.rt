// The line and the column of a byte.
ghost use Rattle.std.specs.Prelude.{◌≡◌, ◌≤◌, not, length};
ghost use Rattle.std.specs.List.{suffix_len};
ghost use Rattle.runzhivel.specs.Places.{feeds, line_after, column_after};

/// Both count from 1, and a column counts bytes.
#[derive(Clone, Copy)]
pub struct Place {
    pub line: usize,
    pub column: usize,
}

// How many bytes stand after the last line feed.
fn since_feed(before: &[u8]) -> usize
    ensures value { result ≡ suffix_len (λ b. not (feeds b)) before.now }
    ensures within { result ≤ length before.now }
{
    before
        .iter()
        .rev()
        .take_while(|byte| **byte != b'\n')
        .count()
}

/// The place of the byte that follows these.
pub fn place_after(before: &[u8]) -> Place
    ensures line { result.line ≡ line_after before.now }
    ensures column { result.column ≡ column_after before.now }
{
    let line = 1 + before.iter().filter(|byte| **byte == b'\n').count();
    let column = 1 + since_feed(before);
    Place { line, column }
}
