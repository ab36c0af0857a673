// Numbers: what a run of bytes says.
ghost use Rattle.std.specs.Prelude.{◌≡◌, ◌≤◌, pos, IfSome};
ghost use Rattle.std.specs.Option.{option_map};
ghost use Rattle.model.specs.Bytes.{natural_of, minus, amount_of, change_of, slope_of, plain_of, number_of};
ghost use Rattle.text.specs.Lexer.{pair};

use super::byte::digits_len;
use model::Numeral;

// The value of one to seven digits, the first not 0. A catalogue's numbers go by another rule, so
// `rows` has its own.
fn natural_of(run: &[u8]) -> Option<u32>
    ensures value { result ≡ natural_of run.now }
    ensures small { IfSome result (λ n. n ≤ 9999999) }
{
    if run.is_empty() || run.len() > 7 || run[0] == b'0' {
        return None;
    }
    // One pass tests and adds: many texts are mostly numbers.
    run.iter().try_fold(0, |value, b| match b {
        b'0'..=b'9' => Some(10 * value + u32::from(*b - b'0')),
        _ => None,
    })
}

// Two, since each sign has its own step from the digits.
fn positive(digits: &[u8]) -> Option<i64>
    ensures { result ≡ option_map pos (natural_of digits.now) }
{
    natural_of(digits).map(i64::from)
}

fn negative(digits: &[u8]) -> Option<i64>
    ensures { result ≡ option_map minus (natural_of digits.now) }
{
    natural_of(digits).map(|n| -i64::from(n))
}

// A natural number, or a minus and one.
fn amount_of(run: &[u8]) -> Option<i64>
    ensures { result ≡ amount_of run.now }
{
    match run.strip_prefix(b"-") {
        Some(digits) => negative(digits),
        None => positive(run),
    }
}

// A `+` or a `-`, and a natural number.
fn change_of(run: &[u8]) -> Option<i64>
    ensures { result ≡ change_of run.now }
{
    match run.strip_prefix(b"+") {
        Some(digits) => positive(digits),
        None => negative(run.strip_prefix(b"-")?),
    }
}

// A number without its last `i`: a slope, or a constant and a change by the slope.
fn slope_of(run: &[u8]) -> Option<Numeral>
    ensures { option_map pair result ≡ slope_of run.now }
{
    if let Some(slope) = amount_of(run) {
        return Some(Numeral { constant: 0, slope });
    }
    let cut = 1 + digits_len(run.get(1..)?);
    let constant = amount_of(&run[..cut])?;
    let slope = change_of(&run[cut..])?;
    Some(Numeral { constant, slope })
}

fn plain_of(run: &[u8]) -> Option<i64>
    ensures { result ≡ plain_of run.now }
{
    if run == b"0".as_slice() {
        Some(0)
    } else {
        amount_of(run)
    }
}

// The constant and the slope that a run spells.
pub(crate) fn number_of(run: &[u8]) -> Option<Numeral>
    ensures { option_map pair result ≡ number_of run.now }
{
    match run.strip_suffix(b"i") {
        Some(slope) => slope_of(slope),
        None => Some(Numeral {
            constant: plain_of(run)?,
            slope: 0,
        }),
    }
}
