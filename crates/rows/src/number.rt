// The number that a word says.
ghost use Rattle.std.specs.Prelude.{◌≡◌, ◌^◌, ◌<◌, true, pos};
ghost use Rattle.std.specs.Char.{is_ascii_digit};
ghost use Rattle.std.specs.Str.Parse.{digits_value};
ghost use Rattle.std.specs.List.{list_all};
ghost use Rattle.std.specs.Option.{option_map};
ghost use Rattle.rows.specs.Numbers.{natural, natural_of, whole_of, profile_of};

/// So many digits always fit an `i64`.
const MOST_DIGITS: usize = 18;

fn is_of_digits(word: &[u8]) -> bool
    ensures { result ≡ list_all is_ascii_digit word.now }
{
    word.iter().all(|b| b.is_ascii_digit())
}

// Whether it is one to eighteen digits. A part's numbers go by another rule, so `text` has its own.
fn is_natural(word: &[u8]) -> bool
    ensures { result ≡ natural word.now }
{
    !word.is_empty() && word.len() <= MOST_DIGITS && is_of_digits(word)
}

// The value of such digits. `parse` would test each of them once more.
fn value_of(digits: &[u8]) -> u64
    requires { natural digits.now ≡ true }
    ensures value { result ≡ digits_value 10 digits.now }
    ensures small { result < 10 ^ 18 }
{
    digits
        .iter()
        .fold(0, |value, b| 10 * value + u64::from(*b - b'0'))
}

// What a word of such digits says.
fn natural_of(word: &[u8]) -> Option<i64>
    ensures { result ≡ option_map pos (natural_of word.now) }
{
    if !is_natural(word) {
        return None;
    }
    Some(value_of(word) as i64)
}

// Such digits, with a value of sixteen bits.
pub(crate) fn profile_of(word: &[u8]) -> Option<u16>
    ensures { result ≡ profile_of word.now }
{
    u16::try_from(natural_of(word)?).ok()
}

// Such digits, or a minus and such digits.
pub(crate) fn whole_of(word: &[u8]) -> Option<i64>
    ensures { result ≡ whole_of word.now }
{
    match word.strip_prefix(b"-") {
        Some(digits) => natural_of(digits).map(|n| -n),
        None => natural_of(word),
    }
}
