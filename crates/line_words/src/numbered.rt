//! Lines and words by their numbers.

ghost use Rattle.std.specs.Prelude.{◌≡◌, drop};
ghost use Rattle.line_words.specs.Numbered.{line_at, word_at};
ghost use Rattle.line_words.specs.Words.{lines_of, words};

use crate::{next_line, next_word};

/// The line of this number, from 1; empty where there is none.
pub fn line_at(text: &[u8], number: usize) -> &[u8]
    ensures { result.now ≡ line_at number (lines_of text.now) }
{
    let mut left = text;
    let mut ahead = number.saturating_sub(1);
    'lines: while let Some((line, rest)) = next_line(left) {
        if ahead == 0 {
            return line;
        }
        ahead -= 1;
        left = rest;
    }
    b""
}

/// The word of this number, from 1; empty where there is none.
pub fn word_at(line: &[u8], number: usize) -> &[u8]
    ensures { result.now ≡ word_at number (words line.now) }
{
    match next_word(behind_words(line, number.saturating_sub(1))) {
        Some((word, _)) => word,
        None => b"",
    }
}

/// What stands behind so many words.
pub fn behind_words(line: &[u8], count: usize) -> &[u8]
    ensures { words result.now ≡ drop count (words line.now) }
{
    let mut left = line;
    let mut ahead = count;
    'words: while let Some((_word, rest)) = next_word(left) {
        if ahead == 0 {
            return left;
        }
        ahead -= 1;
        left = rest;
    }
    left
}
