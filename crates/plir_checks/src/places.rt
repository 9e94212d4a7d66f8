//! Which line an expected error is meant for.
ghost use Rattle.std.specs.Prelude.{◌≡◌, ◌<◌, ◌≤◌, ◌^◌, IfSome};
ghost use Rattle.plir_checks.specs.Places.{line_further, line_meant, number_of};

/// The most digits that a number of lines has.
const MOST_DIGITS: usize = 9;

/// The word for the line before that of the word.
const ABOVE: &str = "@above";

/// The word for the line behind it.
const BELOW: &str = "@below";

/// What stands before a number of lines further on.
const FURTHER: &str = "@+";

/// What stands before a number of lines further back.
const BACK: &str = "@-";

/// The number of the line that a word means, by that of its own line: no word means that line, `@above` and `@below`
/// those beside it, `@+N` and `@-N` those so many lines further on or back; 0 where there would be none. Other words
/// mean none.
pub fn line_meant(own: usize, word: &str) -> Option<usize>
    requires { own ≤ 2 ^ 63 }
    ensures { result ≡ line_meant own word.now }
{
    if word.is_empty() {
        Some(own)
    } else if word == ABOVE {
        Some(own.saturating_sub(1))
    } else if word == BELOW {
        Some(own + 1)
    } else {
        line_further(own, word)
    }
}

// The same of a word with a number.
fn line_further(own: usize, word: &str) -> Option<usize>
    requires { own ≤ 2 ^ 63 }
    ensures { result ≡ line_further own word.now }
{
    if let Some(digits) = word.strip_prefix(FURTHER) {
        return Some(own + number_of(digits.as_bytes())?);
    }
    let digits = word.strip_prefix(BACK)?;
    Some(own.saturating_sub(number_of(digits.as_bytes())?))
}

// The number that one to nine digits write.
fn number_of(digits: &[u8]) -> Option<usize>
    ensures value { result ≡ number_of digits.now }
    ensures small { IfSome result (λ n. n < 10 ^ 9) }
{
    if digits.is_empty() || digits.len() > MOST_DIGITS {
        return None;
    }
    let mut value = 0usize;
    for digit in digits {
        if !digit.is_ascii_digit() {
            return None;
        }
        value = value * 10 + (*digit - b'0') as usize;
    }
    Some(value)
}
