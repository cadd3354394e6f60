//! The tables of lines.

ghost use Rattle.std.specs.Prelude.{◌≡◌, ◌++◌, IfOk, OnOk};
ghost use Rattle.std.specs.List.{list_all};
ghost use Rattle.line_words.specs.Words.{parts, words};
ghost use Rattle.haproxy_cfg.specs.Tables.{cols_by, cols_of, fits, in_list, inside, is_plain};
ghost use Rattle.haproxy_cfg.specs.Tables.{item_of, kind_of, len_of, life_of, period_behind};
ghost use Rattle.haproxy_cfg.specs.Tables.{plain_name, put_col, shape_of, stored_period};
ghost use Rattle.haproxy_cfg.specs.Tables.{usual_len, with_len};

use crate::arrays::array_behind;
use crate::lives::keep_of;
use crate::values::{ms_of, room_of, value_of, word_of};
use agg_config::type_of;
use agg_types::{Col, Items, KeyKind, KeyLength, Name, NoMemory, Shape, is_name};
use line_words::{next_part, next_word, number};
use std::alloc::Global;

/// The table of this name that the rest of a line describes; none where its type or its size isn't
/// read here.
pub fn shape_of(alloc: Global, name: &[u8], line: &[u8]) -> Result<Option<Shape>, NoMemory>
    ensures { IfOk result (λ shape. shape ≡ shape_of name.now (words line.now)) }
{
    let Some(kind) = kind_of(line) else {
        return Ok(None);
    };
    let Some(size) = room_of(value_of(line, b"size")) else {
        return Ok(None);
    };
    let cols = cols_of(alloc, line)?;
    Ok(Some(Shape {
        name: Name::copy(alloc, name)?,
        kind,
        size,
        keep: keep_of(cols.as_slice(), life_of(line)),
        cols,
    }))
}

// The life that a proxy gives the rows of a table, in ms; none where it isn't read here.
fn life_of(line: &[u8]) -> Option<u32>
    ensures { result ≡ life_of (words line.now) }
{
    ms_of(value_of(line, b"expire"))
}

/// The kind of keys; none where the type or the length isn't read here.
pub fn kind_of(line: &[u8]) -> Option<KeyKind>
    ensures { result ≡ kind_of (words line.now) }
{
    with_len(type_of(value_of(line, b"type"))?, line)
}

// A kind, with the length of its keys where a declaration gives it one.
fn with_len(kind: KeyKind, line: &[u8]) -> Option<KeyKind>
    ensures { result ≡ with_len kind (words line.now) }
{
    if !kind.takes_length() {
        return Some(kind);
    }
    let len = len_of(line, usual_len(kind.length()))?;
    Some(kind.with_length(len))
}

// HAProxy's own length of keys: 32 bytes, the last of which ends a string.
fn usual_len(length: KeyLength) -> u64
    ensures { result ≡ usual_len length }
{
    match length {
        KeyLength::Exactly(_) => 32,
        KeyLength::AtMost(_) => 31,
    }
}

fn len_of(line: &[u8], usual: u64) -> Option<u64>
    ensures { result ≡ len_of usual (words line.now) }
{
    let word = value_of(line, b"len");
    if word.is_empty() {
        Some(usual)
    } else {
        number(word).ok()
    }
}

// The stored columns, in ascending order.
#[tactic(auto, unfolding(crate::specs::Tables::cols_of))]
fn cols_of(alloc: Global, line: &[u8]) -> Result<Items<(Col, u32)>, NoMemory>
    ensures { IfOk result (λ cols. cols ≡ cols_of (words line.now)) }
{
    cols_by(alloc, &Col::ALL, line)
}

// Those of a list of columns that are stored, in its order.
fn cols_by(alloc: Global, order: &[Col], line: &[u8]) -> Result<Items<(Col, u32)>, NoMemory>
    ensures { IfOk result (λ cols. cols ≡ cols_by order.now (words line.now)) }
{
    let mut cols = Items::from_vec(Vec::new(alloc));
    for col in order {
        put_col(*col, line, &mut cols)?;
    }
    Ok(cols)
}

// Puts a column behind others, where it is stored.
fn put_col(col: Col, line: &[u8], cols: &mut Items<(Col, u32)>) -> Result<(), NoMemory>
    ensures { OnOk result (cols.new ≡ cols.old ++ put_col col (words line.now)) }
{
    match stored_period(col, line) {
        None => Ok(()),
        Some(period) => cols.push((col, period)),
    }
}

/// The period of a column that a line stores, 0 for a count: the column's own, or else that of an
/// array that has it as an element. None where it isn't stored.
pub fn stored_period(col: Col, line: &[u8]) -> Option<u32>
    ensures { result ≡ stored_period col (words line.now) }
{
    let own = period_behind(col, line);
    if own.is_some() {
        own
    } else {
        array_behind(col, line)
    }
}

/// The period that a line stores a column with by its own name, 0 for a count; none where it
/// doesn't.
pub fn period_behind(col: Col, line: &[u8]) -> Option<u32>
    ensures { result ≡ period_behind col (words line.now) }
{
    let mut left = line;
    'words: while let Some((word, rest)) = next_word(left) {
        if word == b"store".as_slice() {
            let found = in_list(col, word_of(rest).0);
            if found.is_some() {
                return found;
            }
        }
        left = rest;
    }
    None
}

// The same of the list behind a `store`.
fn in_list(col: Col, list: &[u8]) -> Option<u32>
    ensures { result ≡ in_list col (parts 44 list.now) }
{
    let mut left = list;
    'items: loop {
        let (item, rest) = next_part(left, b',');
        let found = item_of(col, item);
        if found.is_some() {
            return found;
        }
        match rest {
            None => return None,
            Some(rest) => left = rest,
        }
    }
}

/// The period of an item, if it names this column: a count by its name alone, a rate with its
/// period in parentheses.
pub fn item_of(col: Col, item: &[u8]) -> Option<u32>
    ensures { result ≡ item_of col item.now }
{
    let rest = item.strip_prefix(col.name().as_bytes())?;
    if col.is_rate() {
        inside(rest)
    } else if rest.is_empty() {
        Some(0)
    } else {
        None
    }
}

fn inside(rest: &[u8]) -> Option<u32>
    ensures { result ≡ inside rest.now }
{
    match rest {
        [first, period @ .., b')'] if *first == b'(' => ms_of(period),
        _ => None,
    }
}

/// Whether a table may be one of the collector's: its name is one of HAProxy's, and its keys
/// aren't too long.
pub fn fits(shape: &Shape) -> bool
    ensures { result ≡ fits shape.now }
{
    plain_name(shape.name.as_slice()) && shape.kind.length_fits()
}

/// Whether a name has none of the marks that HAProxy's words may have: quotes, escapes, variables.
pub fn plain_name(name: &[u8]) -> bool
    ensures { result ≡ plain_name name.now }
{
    is_name(name) && all_plain(name)
}

fn all_plain(name: &[u8]) -> bool
    ensures { result ≡ list_all is_plain name.now }
{
    name.iter().all(|byte| is_plain(*byte))
}

fn is_plain(byte: u8) -> bool
    ensures { result ≡ is_plain byte }
{
    byte.is_ascii_alphanumeric()
        || byte == b'-'
        || byte == b'.'
        || byte == b'/'
        || byte == b':'
        || byte == b'_'
}
