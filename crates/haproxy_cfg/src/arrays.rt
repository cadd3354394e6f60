//! Arrays in a `store` list, `gpc(n)` and `gpc_rate(n,p)`: their first two elements are columns.

ghost use Rattle.std.specs.Prelude.{◌≡◌, slice_index_or, []};
ghost use Rattle.line_words.specs.Words.{parts, words};
ghost use Rattle.haproxy_cfg.specs.Arrays.{array_behind, array_item, array_len, array_period};
ghost use Rattle.haproxy_cfg.specs.Arrays.{closed_elements, closed_period, element_for};
ghost use Rattle.haproxy_cfg.specs.Arrays.{elements_of, in_arrays};

use crate::values::{ms_of, word_of};
use agg_types::Col;
use line_words::{next_part, next_word, number};

/// How many elements an array has at most, as HAProxy has them.
pub const MOST_ELEMENTS: u64 = 100;

/// The period that a line's arrays store a column with, 0 for a count; none where none of them has
/// its element.
pub fn array_behind(col: Col, line: &[u8]) -> Option<u32>
    ensures { result ≡ array_behind col (words line.now) }
{
    let mut left = line;
    'words: while let Some((word, rest)) = next_word(left) {
        if word == b"store".as_slice() {
            let found = in_arrays(col, word_of(rest).0);
            if found.is_some() {
                return found;
            }
        }
        left = rest;
    }
    None
}

// The same of the list behind a `store`.
fn in_arrays(col: Col, list: &[u8]) -> Option<u32>
    ensures { result ≡ in_arrays col (parts 44 list.now) }
{
    let mut left = list;
    'items: loop {
        let (item, rest) = next_part(left, b',');
        let Some(rest) = rest else {
            return array_item(col, item, b"");
        };
        let found = array_item(col, item, first_item(rest));
        if found.is_some() {
            return found;
        }
        left = rest;
    }
}

fn first_item(list: &[u8]) -> &[u8]
    ensures { result.now ≡ slice_index_or (parts 44 list.now) 0 [] }
{
    match next_part(list, b',') {
        (item, None) => item,
        (item, Some(_)) => item,
    }
}

// The period of a column whose element an item's array has; the next item ends an array of rates.
fn array_item(col: Col, item: &[u8], next: &[u8]) -> Option<u32>
    ensures { result ≡ array_item col item.now next.now }
{
    let element = element_for(col)?;
    let count = array_len(col.is_rate(), item)?;
    if element < count {
        array_period(col.is_rate(), next)
    } else {
        None
    }
}

// Which element of an array a column is.
fn element_for(col: Col) -> Option<u64>
    ensures { result ≡ element_for col }
{
    match col {
        Col::Gpc0 | Col::Gpc0Rate => Some(0),
        Col::Gpc1 | Col::Gpc1Rate => Some(1),
        _ => None,
    }
}

/// How many elements an item says of an array, 1 to `MOST_ELEMENTS`: of counts all of it is read,
/// of rates the item ends at the comma.
pub fn array_len(is_rate: bool, item: &[u8]) -> Option<u64>
    ensures { result ≡ array_len is_rate item.now }
{
    if is_rate {
        elements_of(item.strip_prefix(b"gpc_rate(".as_slice())?)
    } else {
        closed_elements(item.strip_prefix(b"gpc(".as_slice())?)
    }
}

fn closed_elements(rest: &[u8]) -> Option<u64>
    ensures { result ≡ closed_elements rest.now }
{
    match rest {
        [count @ .., b')'] => elements_of(count),
        _ => None,
    }
}

fn elements_of(word: &[u8]) -> Option<u64>
    ensures { result ≡ elements_of word.now }
{
    let count = number(word).ok()?;
    if 1 <= count && count <= MOST_ELEMENTS {
        Some(count)
    } else {
        None
    }
}

/// The period of an array's elements, 0 where they are counts: of rates the next item has it.
pub fn array_period(is_rate: bool, next: &[u8]) -> Option<u32>
    ensures { result ≡ array_period is_rate next.now }
{
    if is_rate {
        closed_period(next)
    } else {
        Some(0)
    }
}

fn closed_period(rest: &[u8]) -> Option<u32>
    ensures { result ≡ closed_period rest.now }
{
    match rest {
        [period @ .., b')'] => ms_of(period),
        _ => None,
    }
}
