//! The lines of a text, and what comments say.
ghost use Rattle.std.specs.Prelude.{◌≡◌, ◌∷◌, option_map};
ghost use Rattle.plir_checks.specs.Lines.{comment_of, lines_left, lines_of, said, trimmed};

/// What a comment begins with.
const COMMENT: &str = "//";

/// The first line of a text, and what stands behind its line feed, if it has one.
pub fn split_line(text: &str) -> (&str, Option<&str>)
    ensures { lines_of text.now ≡ result.0.now ∷ lines_left result.1 }
{
    match text.split_once('\n') {
        Some((line, behind)) => (line, Some(behind)),
        None => (text, None),
    }
}

/// A text without the blanks around it.
pub fn trimmed(text: &str) -> &str
    ensures { result.now ≡ trimmed text.now }
{
    text.trim_ascii()
}

/// What stands behind `//` in a line that is a comment, without the blanks around it; none in another line.
pub fn comment_of(line: &str) -> Option<&str>
    ensures { option_map (λ r. r.now) result ≡ comment_of line.now }
{
    match trimmed(line).strip_prefix(COMMENT) {
        Some(rest) => Some(trimmed(rest)),
        None => None,
    }
}

/// What stands behind a word in a comment that begins with it, without the blanks around it; none in another line.
pub fn said<'a>(line: &'a str, word: &str) -> Option<&'a str>
    ensures { option_map (λ r. r.now) result ≡ said word.now line.entry.now }
{
    match comment_of(line)?.strip_prefix(word) {
        Some(rest) => Some(trimmed(rest)),
        None => None,
    }
}
