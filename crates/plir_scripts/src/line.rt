//! The lines of a script.
use crate::stop::Stop;

/// A call: its command, the text behind that, the first three words of that text, and what stands behind the first two
/// of them. A word that isn't there is empty.
#[derive(Clone, Copy)]
pub struct Line<'a> {
    pub command: &'a str,
    pub text: &'a str,
    pub first: &'a str,
    pub second: &'a str,
    pub third: &'a str,
    pub tail: &'a str,
}

/// The words of a call.
pub fn read_line(call: &str) -> Line<'_> {
    let (command, text) = split_word(call);
    let (first, rest) = split_word(text);
    let (second, tail) = split_word(rest);
    let (third, _) = split_word(tail);
    Line {
        command,
        text,
        first,
        second,
        third,
        tail,
    }
}

/// The first word of a text, and what stands behind it.
pub fn split_word(text: &str) -> (&str, &str) {
    text.split_once(' ').unwrap_or((text, ""))
}

/// The number that a word is, in decimal digits.
pub fn number(word: &str) -> Result<usize, Stop> {
    word.parse::<usize>().map_err(|_| Stop::Refused)
}
