//! The values of a line's words: what stands behind a keyword, sizes and times.

ghost use Rattle.std.specs.Prelude.{◌≡◌, length, drop, slice_index_or, [], ◌≤◌};
ghost use Rattle.std.specs.List.{list_any};
ghost use Rattle.std.specs.Str.{bytes_eq};
ghost use Rattle.line_words.specs.Words.{words};
ghost use Rattle.haproxy_cfg.specs.Values.{as_period, as_size, behind_word, digits_end, ms_of};
ghost use Rattle.haproxy_cfg.specs.Values.{number_before, room_of, scaled_ms, scaled_size};

use agg_types::limits::{LARGEST_SIZE, PERIOD_END};
use line_words::{next_word, number};

/// The first word of a line, and what follows it; an empty one where there is none.
pub fn word_of(line: &[u8]) -> (&[u8], &[u8])
    ensures first { result.0.now ≡ slice_index_or (words line.now) 0 [] }
    ensures rest { words result.1.now ≡ drop 1 (words line.now) }
{
    match next_word(line) {
        None => (b"", line),
        Some(found) => found,
    }
}

/// Whether a word stands in a line.
pub fn has_word(line: &[u8], wanted: &[u8]) -> bool
    ensures { result ≡ list_any (λ word. bytes_eq word wanted.now) (words line.now) }
{
    let mut left = line;
    'words: while let Some((word, rest)) = next_word(left) {
        if word == wanted {
            return true;
        }
        left = rest;
    }
    false
}

/// The word behind the first one that is this keyword; empty where there is none.
pub fn value_of<'a>(line: &'a [u8], key: &[u8]) -> &'a [u8]
    ensures { result.now ≡ behind_word key.now (words line.now) }
{
    let mut left = line;
    'words: while let Some((word, rest)) = next_word(left) {
        if word == key {
            return word_of(rest).0;
        }
        left = rest;
    }
    b""
}

// Where the digits that a word begins with end.
fn digits_end(word: &[u8]) -> usize
    ensures value { result ≡ digits_end word.now }
    ensures within { result ≤ length word.now }
{
    let mut left = word;
    'digits: while let [byte, rest @ ..] = left {
        if !byte.is_ascii_digit() {
            return word.len() - left.len();
        }
        left = rest;
    }
    word.len()
}

// The number that a word begins with, and the unit behind it.
fn number_before(word: &[u8], end: usize) -> Option<u64>
    requires { end ≤ length word.now }
    ensures { result ≡ number_before end word.now }
{
    number(&word[..end]).ok()
}

/// Twice the number of entries that a size of HAProxy's says, at most as many as a table may have
/// here; none where the word is no size.
#[tactic(auto, unfolding(crate::specs::Values::room_of))]
pub fn room_of(word: &[u8]) -> Option<u64>
    ensures { result ≡ room_of word.now }
{
    let end = digits_end(word);
    let entries = number_before(word, end)?;
    scaled_size(entries, &word[end..])
}

// The units of sizes count in steps of 1,024.
fn scaled_size(entries: u64, unit: &[u8]) -> Option<u64>
    ensures { result ≡ scaled_size entries unit.now }
{
    let twice = 2 * u128::from(entries);
    match unit {
        b"" => Some(as_size(twice)),
        b"k" | b"K" => Some(as_size(twice * 1024)),
        b"m" | b"M" => Some(as_size(twice * 1_048_576)),
        b"g" | b"G" => Some(as_size(twice * 1_073_741_824)),
        _ => None,
    }
}

fn as_size(rows: u128) -> u64
    ensures { result ≡ as_size rows }
{
    rows.max(1).min(u128::from(LARGEST_SIZE)) as u64
}

/// The period in ms that a time of HAProxy's says; none where it is no time, or no period.
#[tactic(auto, unfolding(crate::specs::Values::ms_of))]
pub fn ms_of(word: &[u8]) -> Option<u32>
    ensures { result ≡ ms_of word.now }
{
    let end = digits_end(word);
    let count = number_before(word, end)?;
    scaled_ms(count, &word[end..])
}

// A part of a ms counts as a whole one.
fn scaled_ms(count: u64, unit: &[u8]) -> Option<u32>
    ensures { result ≡ scaled_ms count unit.now }
{
    let count = u128::from(count);
    match unit {
        b"us" => as_period((count + 999) / 1000),
        b"" | b"ms" => as_period(count),
        b"s" => as_period(count * 1000),
        b"m" => as_period(count * 60_000),
        b"h" => as_period(count * 3_600_000),
        b"d" => as_period(count * 86_400_000),
        _ => None,
    }
}

fn as_period(ms: u128) -> Option<u32>
    ensures { result ≡ as_period ms }
{
    if 1 <= ms && ms < u128::from(PERIOD_END) {
        Some(ms as u32)
    } else {
        None
    }
}
