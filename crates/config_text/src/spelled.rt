//! Numbers with units, as people write them where digits alone are read.

ghost use Rattle.std.specs.Prelude.{◌≡◌, ◌++◌, ◌≤◌, slice_index_or, [], OnOk};
ghost use Rattle.std.specs.List.{list_all};
ghost use Rattle.line_words.specs.Numbers.{is_decimal};
ghost use Rattle.line_words.specs.Words.{parts, words};
ghost use Rattle.config_text.specs.Spelled.{are_times, begins, behind, figure_from, has_unit};
ghost use Rattle.config_text.specs.Spelled.{hint, if_number, in_parens, is_figure, number_hint};
ghost use Rattle.config_text.specs.Spelled.{period_in, scaled, scaled_size, scaled_time, spelled};
ghost use Rattle.config_text.specs.Spelled.{told_as, unit_of, wants_number};
ghost use Rattle.config_text.specs.declared.spelled.TheConstants.{MOST_FIGURE};

use agg_types::NoMemory;
use key_text::{append_number, append_text};
use line_words::{Expected, Misread, next_part, word_at};

/// The most bytes of a word with a unit that is read.
pub(crate) const MOST_BYTES: usize = 20;

/// As much as no such word says.
pub(crate) const MOST_FIGURE: u128 = 10_000_000_000_000_000_000;

/// Appends what a number with a unit is here, where a number had to stand: nothing where the word
/// is none, or is missing.
pub(crate) fn append_number_hint(
    misread: Misread,
    line: &[u8],
    out: &mut Vec<u8>,
) -> Result<(), NoMemory>
    ensures { OnOk result
        (out.new.items ≡ out.old.items ++ number_hint misread (words line.now)) }
{
    if misread.is_missing || !wants_number(misread.expected) {
        return Ok(());
    }
    let before = word_at(line, misread.word.saturating_sub(1));
    append_hint(before, word_at(line, misread.word), out)
}

fn wants_number(expected: Expected) -> bool
    ensures { result ≡ wants_number expected }
{
    match expected {
        Expected::Number => true,
        _ => false,
    }
}

// The same of a word behind another one.
fn append_hint(before: &[u8], word: &[u8], out: &mut Vec<u8>) -> Result<(), NoMemory>
    ensures { OnOk result (out.new.items ≡ out.old.items ++ hint before.now word.now) }
{
    if before == b"store".as_slice() {
        let period = period_in(word);
        append_told(period, spelled(true, period), out)
    } else {
        append_told(word, spelled(are_times(before), word), out)
    }
}

// Whether times stand behind a word.
fn are_times(before: &[u8]) -> bool
    ensures { result ≡ are_times before.now }
{
    before == b"keep".as_slice() || before == b"hold".as_slice()
}

fn append_told(word: &[u8], number: Option<u64>, out: &mut Vec<u8>) -> Result<(), NoMemory>
    ensures { OnOk result (out.new.items ≡ out.old.items ++ told_as word.now number) }
{
    let Some(number) = number else {
        return Ok(());
    };
    append_text(b"; ", out)?;
    append_text(word, out)?;
    append_text(b" is ", out)?;
    append_number(u128::from(number), out)?;
    append_text(b" here", out)
}

// The first period of a list of columns that is a time with a unit.
fn period_in(list: &[u8]) -> &[u8]
    ensures { result.now ≡ period_in (parts 44 list.now) }
{
    let mut left = list;
    'items: loop {
        let (item, rest) = next_part(left, b',');
        let period = in_parens(item);
        if spelled(true, period).is_some() {
            return period;
        }
        match rest {
            None => return b"",
            Some(rest) => left = rest,
        }
    }
}

// What stands in an item's parentheses, empty where there are none.
fn in_parens(item: &[u8]) -> &[u8]
    ensures { result.now ≡ in_parens item.now }
{
    first_part(second_part(item, b'('), b')')
}

/// What stands before the first byte of this value.
pub(crate) fn first_part(text: &[u8], between: u8) -> &[u8]
    ensures { result.now ≡ slice_index_or (parts between text.now) 0 [] }
{
    match next_part(text, between) {
        (part, None) => part,
        (part, Some(_)) => part,
    }
}

// What stands between the first two bytes of this value.
fn second_part(text: &[u8], between: u8) -> &[u8]
    ensures { result.now ≡ slice_index_or (parts between text.now) 1 [] }
{
    match next_part(text, between).1 {
        None => b"",
        Some(rest) => first_part(rest, between),
    }
}

// The number that a word with a unit is here: a time in ms, or a size.
fn spelled(is_time: bool, word: &[u8]) -> Option<u64>
    ensures { result ≡ spelled is_time word.now }
{
    if has_unit(word) {
        scaled(is_time, figure(word), unit_of(word))
    } else {
        None
    }
}

fn has_unit(word: &[u8]) -> bool
    ensures { result ≡ has_unit word.now }
{
    begins(word) && word.len() <= MOST_BYTES && !are_digits(word)
}

// Whether a word begins with a digit.
fn begins(word: &[u8]) -> bool
    ensures { result ≡ begins word.now }
{
    match word {
        [] => false,
        [byte, ..] => byte.is_ascii_digit(),
    }
}

fn are_digits(word: &[u8]) -> bool
    ensures { result ≡ list_all is_decimal word.now }
{
    word.iter().all(|byte| byte.is_ascii_digit())
}

// The value of the digits that a word begins with.
fn figure(word: &[u8]) -> u128
    ensures value { result ≡ figure_from 0 word.now }
    ensures bound { result ≤ MOST_FIGURE }
{
    let mut left = word;
    let mut value = 0;
    'digits: while let [byte, rest @ ..] = left {
        if !is_figure(*byte) {
            return value;
        }
        value = behind(value, *byte);
        left = rest;
    }
    value
}

// A value with one more digit.
fn behind(value: u128, byte: u8) -> u128
    requires { value ≤ MOST_FIGURE }
    ensures value { result ≡ behind value byte }
    ensures bound { result ≤ MOST_FIGURE }
{
    if byte.is_ascii_digit() {
        (value * 10 + u128::from(byte - b'0')).min(MOST_FIGURE)
    } else {
        value
    }
}

// A digit, or what may stand between two.
fn is_figure(byte: u8) -> bool
    ensures { result ≡ is_figure byte }
{
    byte.is_ascii_digit() || byte == b'_'
}

// What stands behind the digits.
fn unit_of(word: &[u8]) -> &[u8]
    ensures { result.now ≡ unit_of word.now }
{
    let mut left = word;
    'digits: while let [byte, rest @ ..] = left {
        if !is_figure(*byte) {
            return left;
        }
        left = rest;
    }
    left
}

fn scaled(is_time: bool, figure: u128, unit: &[u8]) -> Option<u64>
    requires { figure ≤ MOST_FIGURE }
    ensures { result ≡ scaled is_time figure unit.now }
{
    if is_time {
        scaled_time(figure, unit)
    } else {
        scaled_size(figure, unit)
    }
}

// A part of a ms counts as a whole one.
fn scaled_time(figure: u128, unit: &[u8]) -> Option<u64>
    requires { figure ≤ MOST_FIGURE }
    ensures { result ≡ scaled_time figure unit.now }
{
    match unit {
        b"us" => if_number((figure + 999) / 1000),
        b"" | b"ms" => if_number(figure),
        b"s" => if_number(figure * 1000),
        b"m" => if_number(figure * 60_000),
        b"h" => if_number(figure * 3_600_000),
        b"d" => if_number(figure * 86_400_000),
        _ => None,
    }
}

// The units of sizes count in steps of 1,024.
fn scaled_size(figure: u128, unit: &[u8]) -> Option<u64>
    requires { figure ≤ MOST_FIGURE }
    ensures { result ≡ scaled_size figure unit.now }
{
    match unit {
        b"" => if_number(figure),
        b"k" | b"K" => if_number(figure * 1024),
        b"m" | b"M" => if_number(figure * 1_048_576),
        b"g" | b"G" => if_number(figure * 1_073_741_824),
        _ => None,
    }
}

fn if_number(number: u128) -> Option<u64>
    ensures { result ≡ if_number number }
{
    if number <= u128::from(u64::MAX) {
        Some(number as u64)
    } else {
        None
    }
}
