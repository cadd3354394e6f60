//! What changed of a filter's set, as JSON.

ghost use Rattle.std.specs.Prelude.{◌≡◌, ◌<◌, length};
ghost use Rattle.web_text.specs.Places.{kind_at};

use crate::parts::keys_from;
use agg_types::{Config, Key, KeyKind, NoMemory};
use book::Book;
use set_moves::Moved;
use std::alloc::Global;
use std::collections::BTreeSet;
use web_text::Json;

/// How many keys are told at most.
pub const MOST_TOLD: usize = 10_000;

/// How many changes are gone through at most. Who asks for more is told the set.
pub const MOST_CHANGES: usize = 100_000;

/// Between which numbers of events a filter's set changed.
#[derive(Clone, Copy, Debug)]
pub struct Span {
    /// The number that was asked for, if one was.
    pub since: Option<u64>,
    /// How many events the book answers for.
    pub to: u64,
}

/// What moved in the set of the filter at a place: the keys that entered and those that left, at
/// most so many together. Where more moved, or what moved isn't known, the first keys of the set,
/// at most so many. After `NoMemory` there is no text.
pub fn change_list(
    alloc: Global,
    book: &Book,
    place: usize,
    span: Span,
    moved: Option<&Moved>,
    most: usize,
) -> Result<Vec<u8>, NoMemory>
    requires { place < length book.now.config.filters }
{
    let mut json = Json::new(alloc);
    json.begin_object()?;
    json.number_if("since", span.since)?;
    json.number("to", span.to)?;
    let more = match moved {
        Some(moved) if moved.len() <= most => put_moved(&mut json, book, place, moved)?,
        _ => put_set(alloc, &mut json, book, place, most)?,
    };
    json.truth("more", more)?;
    json.end_object()?;
    Ok(json.into_text())
}

// The kind of a table's keys.
fn kind_of(config: &Config, table: usize) -> KeyKind
    ensures { result ≡ kind_at config.now table }
{
    match config.tables.get(table) {
        None => KeyKind::Binary(0),
        Some(shape) => shape.kind,
    }
}

// Puts the keys that entered and those that left; more don't follow.
fn put_moved(json: &mut Json, book: &Book, place: usize, moved: &Moved) -> Result<bool, NoMemory>
    requires { place < length book.now.config.filters }
{
    let filter = &book.config().filters.as_slice()[place];
    let kind = kind_of(book.config(), filter.table);
    json.truth("known", true)?;
    put_keys(json, kind, "entered", moved.entered())?;
    put_keys(json, kind, "left", moved.left())?;
    Ok(false)
}

// Puts a list of keys.
fn put_keys(
    json: &mut Json,
    kind: KeyKind,
    what: &str,
    keys: &BTreeSet<Key>,
) -> Result<(), NoMemory> {
    json.begin_list(what)?;
    for key in keys {
        json.key_item(kind, key.as_slice())?;
    }
    json.end_list()
}

// Puts the first keys of a set, which all entered, and answers whether more follow.
fn put_set(
    alloc: Global,
    json: &mut Json,
    book: &Book,
    place: usize,
    most: usize,
) -> Result<bool, NoMemory>
    requires { place < length book.now.config.filters }
{
    let filter = &book.config().filters.as_slice()[place];
    let kind = kind_of(book.config(), filter.table);
    json.truth("known", false)?;
    json.begin_list("entered")?;
    let (keys, more) = keys_from(alloc, book.filter_keys(place), None, most)?;
    for key in keys.as_slice() {
        json.key_item(kind, key.as_slice())?;
    }
    json.end_list()?;
    json.begin_list("left")?;
    json.end_list()?;
    Ok(more)
}
