// Which bytes make runs, and how long the runs at the front of a text are.
ghost use Rattle.std.specs.Prelude.{◌≡◌, ◌≤◌, length};
ghost use Rattle.std.specs.Char.{is_ascii_digit};
ghost use Rattle.std.specs.List.{prefix_len};
ghost use Rattle.model.specs.Bytes.{is_sep, in_word, in_number, starts_number};

fn is_separator(b: u8) -> bool
    ensures { result ≡ is_sep b }
{
    matches!(b, b' ' | b'\t' | b'\n' | b'\r')
}

fn in_word(b: u8) -> bool
    ensures { result ≡ in_word b }
{
    b.is_ascii_alphanumeric()
}

pub(crate) fn starts_number(b: u8) -> bool
    ensures { result ≡ starts_number b }
{
    b.is_ascii_digit() || b == b'-'
}

fn in_number(b: u8) -> bool
    ensures { result ≡ in_number b }
{
    b.is_ascii_digit() || matches!(b, b'+' | b'-' | b'i')
}

// Four functions, and not one that takes the test: its contract would be longer than the chains. That
// a run is no longer than its text is of each answer, and no value's.

/// How many bytes at the front are separators.
pub(crate) fn separators_len(text: &[u8]) -> usize
    ensures len { result ≡ prefix_len is_sep text.now }
    ensures within { result ≤ length text.now }
{
    text.iter().take_while(|b| is_separator(**b)).count()
}

/// How many bytes at the front a word goes on with.
pub(crate) fn word_len(text: &[u8]) -> usize
    ensures len { result ≡ prefix_len in_word text.now }
    ensures within { result ≤ length text.now }
{
    text.iter().take_while(|b| in_word(**b)).count()
}

/// How many bytes at the front a number goes on with.
pub(crate) fn number_len(text: &[u8]) -> usize
    ensures len { result ≡ prefix_len in_number text.now }
    ensures within { result ≤ length text.now }
{
    text.iter().take_while(|b| in_number(**b)).count()
}

/// How many bytes at the front are digits.
pub(crate) fn digits_len(text: &[u8]) -> usize
    ensures len { result ≡ prefix_len is_ascii_digit text.now }
    ensures within { result ≤ length text.now }
{
    text.iter().take_while(|b| b.is_ascii_digit()).count()
}
