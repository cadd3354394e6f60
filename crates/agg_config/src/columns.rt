//! The columns of a `store` list.

ghost use Rattle.std.specs.Prelude.{◌≡◌, ◌++◌, OnOk, IfOk};
ghost use Rattle.line_words.specs.Words.{parts};
ghost use Rattle.agg_config.specs.Columns.{column_at, count_item, in_order, item, known_period};
ghost use Rattle.agg_config.specs.Columns.{list_stored, of_column, ordered_by, period_of};
ghost use Rattle.agg_config.specs.Columns.{rate_item, stored};
ghost use Rattle.agg_config.specs.ReadResults.{Gives, read_each};

use crate::Unread;
use agg_types::{Col, Items, NoMemory};
use line_words::{Expected, Misread, Words, next_part, number, place_of};
use std::alloc::Global;

/// A column as the text has it, with its period in ms, or why that is no number.
pub(crate) type Stored = (Col, Result<u32, Misread>);

/// The columns behind a table's size, to the end of the line. They stand as in the text.
pub(crate) fn stored(alloc: Global, words: &mut Words<'_>) -> Result<Vec<Stored>, Unread>
    ensures { Gives (λ cols. cols.items) result (stored words.old) }
{
    if words.is_empty() {
        return Ok(Vec::new(alloc));
    }
    list_stored(alloc, words)
}

fn list_stored(alloc: Global, words: &mut Words<'_>) -> Result<Vec<Stored>, Unread>
    ensures { Gives (λ cols. cols.items) result (list_stored words.old) }
{
    words.keyword(b"store")?;
    let place = words.place();
    let list = words.word(Expected::Columns)?;
    words.end()?;
    items(alloc, place, list)
}

// The columns of a list, which is the word of this number.
fn items(alloc: Global, place: usize, list: &[u8]) -> Result<Vec<Stored>, Unread>
    ensures { Gives (λ cols. cols.items) result (read_each (item place) (parts 44 list.now)) }
{
    let mut cols = Vec::new(alloc);
    let mut left = list;
    'items: loop {
        let (first, rest) = next_part(left, b',');
        cols.push(item(place, first)?)?;
        match rest {
            None => return Ok(cols),
            Some(rest) => left = rest,
        }
    }
}

// A count by its name, a rate with its period in parentheses.
#[tactic(auto, unfolding(crate::specs::Columns::item))]
fn item(place: usize, text: &[u8]) -> Result<Stored, Misread>
    ensures { result ≡ item place text.now }
{
    match place_of(text, b'(') {
        None => count_item(place, column(place, text)?),
        Some(open) => rate_item(place, column(place, &text[..open])?, &text[open..]),
    }
}

fn column(place: usize, name: &[u8]) -> Result<Col, Misread>
    ensures { result ≡ column_at place name.now }
{
    Col::from_name(name).ok_or(Misread::wrong(place, Expected::Columns))
}

fn count_item(place: usize, col: Col) -> Result<Stored, Misread>
    ensures { result ≡ count_item place col }
{
    if col.is_rate() {
        Err(Misread::wrong(place, Expected::Columns))
    } else {
        Ok((col, Ok(0)))
    }
}

fn rate_item(place: usize, col: Col, text: &[u8]) -> Result<Stored, Misread>
    ensures { result ≡ rate_item place col text.now }
{
    match text {
        [_, period @ .., b')'] if col.is_rate() => Ok((col, period_of(place, period))),
        _ => Err(Misread::wrong(place, Expected::Columns)),
    }
}

fn period_of(place: usize, word: &[u8]) -> Result<u32, Misread>
    ensures { result ≡ period_of place word.now }
{
    match number(word) {
        Err(_) => Err(Misread::wrong(place, Expected::Number)),
        Ok(ms) => Ok(ms.min(u64::from(u32::MAX)) as u32),
    }
}

/// The columns with their periods, where each is a number.
pub(crate) fn known_periods(alloc: Global, cols: &[Stored]) -> Result<Vec<(Col, u32)>, Unread>
    ensures { Gives (λ known. known.items) result (read_each known_period cols.now) }
{
    let mut known = Vec::new(alloc);
    for col in cols {
        known.push(known_period(*col)?)?;
    }
    Ok(known)
}

fn known_period(col: Stored) -> Result<(Col, u32), Misread>
    ensures { result ≡ known_period col }
{
    let period = col.1?;
    Ok((col.0, period))
}

/// The columns in ascending order.
#[tactic(auto, unfolding(crate::specs::Columns::in_order))]
pub(crate) fn in_order(alloc: Global, cols: &[(Col, u32)]) -> Result<Items<(Col, u32)>, NoMemory>
    ensures { IfOk result (λ sorted. sorted ≡ in_order cols.now) }
{
    let sorted = ordered_by(alloc, &Col::ALL, cols)?;
    Ok(Items::from_vec(sorted))
}

// The columns in the order of a list of them all.
fn ordered_by(
    alloc: Global,
    order: &[Col],
    cols: &[(Col, u32)],
) -> Result<Vec<(Col, u32)>, NoMemory>
    ensures { IfOk result (λ sorted. sorted.items ≡ ordered_by order.now cols.now) }
{
    let mut sorted = Vec::with_capacity(alloc, cols.len())?;
    for col in order {
        push_of(&mut sorted, cols, *col)?;
    }
    Ok(sorted)
}

fn push_of(sorted: &mut Vec<(Col, u32)>, cols: &[(Col, u32)], col: Col) -> Result<(), NoMemory>
    ensures { OnOk result (sorted.new.items ≡ sorted.old.items ++ of_column col cols.now) }
{
    for stored in cols {
        if stored.0.id() == col.id() {
            sorted.push(*stored)?;
        }
    }
    Ok(())
}
