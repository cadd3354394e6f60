//! Lists of keys as JSON, of a book that was looked at.

ghost use Rattle.std.specs.Prelude.{◌<◌, length};

use crate::parts::{count, keys_from};
use crate::values::put_values;
use agg_types::{Cond, Key, KeyKind, Name, NoMemory, Shape};
use book::{Book, Keys, Sought};
use fleet_model::Summed;
use key_text::read_key;
use std::alloc::Global;
use web_text::{AskFault, Entries, Json, begin_list, end_list, put_table};

// Which keys of a list are told: so many at most, of those behind one, or from the first on.
#[derive(Drop)]
struct Part {
    kind: KeyKind,
    after: Option<Key>,
    limit: usize,
}

impl Part {
    // What is asked for, of keys of a kind.
    fn of(alloc: Global, kind: KeyKind, entries: Entries<'_>) -> Result<Part, AskFault> {
        Ok(Part {
            kind,
            after: key_after(alloc, kind, entries.after)?,
            limit: entries.limit,
        })
    }
}

// The key that a text says, if there is one.
fn key_after(alloc: Global, kind: KeyKind, after: Option<&[u8]>) -> Result<Option<Key>, AskFault> {
    match after {
        None => Ok(None),
        Some(text) => match read_key(alloc, kind, text)? {
            None => Err(AskFault::BadKey),
            Some(key) => Ok(Some(key)),
        },
    }
}

// Begins a list of a book, with what it is a list of.
fn begin(
    json: &mut Json,
    book: &Book,
    events: u64,
    what: &str,
    name: &Name,
) -> Result<(), NoMemory> {
    begin_list(json, events, book.moment())?;
    json.text(what, name.as_slice())
}

/// The keys that the standing filter at a place holds.
pub fn filter_list(
    alloc: Global,
    book: &Book,
    events: u64,
    place: usize,
    entries: Entries<'_>,
) -> Result<Vec<u8>, AskFault>
    requires { place < length book.now.config.filters }
{
    let filter = &book.config().filters.as_slice()[place];
    let mut json = Json::new(alloc);
    begin(&mut json, book, events, "filter", &filter.name)?;
    let kind = put_table(&mut json, book.config(), filter.table)?;
    let part = Part::of(alloc, kind, entries)?;
    let more = put_filter(alloc, &mut json, book, place, &part)?;
    Ok(end_list(json, more)?)
}

// Puts how many keys a filter holds, when that changes next, and a part of them; answers whether
// more follow.
fn put_filter(
    alloc: Global,
    json: &mut Json,
    book: &Book,
    place: usize,
    part: &Part,
) -> Result<bool, NoMemory>
    requires { place < length book.now.config.filters }
{
    json.number("keys", count(book.filter_keys(place)))?;
    json.number_if("next_change", book.next_change(place))?;
    json.begin_list("entries")?;
    put_keys(alloc, json, book.filter_keys(place), part)
}

fn put_keys(alloc: Global, json: &mut Json, keys: Keys<'_>, part: &Part) -> Result<bool, NoMemory> {
    let (told, more) = keys_from(alloc, keys, part.after.as_ref(), part.limit)?;
    for key in told.as_slice() {
        json.key_item(part.kind, key.as_slice())?;
    }
    Ok(more)
}

/// The keys of the ranked list at a place, with their values. What is asked for behind a key that
/// isn't in the list is nothing.
pub fn rank_list(
    alloc: Global,
    book: &Book,
    events: u64,
    place: usize,
    entries: Entries<'_>,
) -> Result<Vec<u8>, AskFault>
    requires { place < length book.now.config.ranks }
{
    let rank = &book.config().ranks.as_slice()[place];
    let mut json = Json::new(alloc);
    begin(&mut json, book, events, "rank", &rank.name)?;
    let kind = put_table(&mut json, book.config(), rank.table)?;
    json.text("column", rank.col.name().as_bytes())?;
    json.begin_list("entries")?;
    let part = Part::of(alloc, kind, entries)?;
    let more = put_ranked(alloc, &mut json, book, place, &part)?;
    Ok(end_list(json, more)?)
}

// Puts a part of a ranked list, and answers whether more follow. Of a list from its first key on
// no more are looked for than are put, and one that follows them; a list behind a key is whole.
fn put_ranked(
    alloc: Global,
    json: &mut Json,
    book: &Book,
    place: usize,
    part: &Part,
) -> Result<bool, NoMemory>
    requires { place < length book.now.config.ranks }
{
    let most = match &part.after {
        None => part.limit.saturating_add(1),
        Some(_) => usize::MAX,
    };
    let mut is_told = part.after.is_none();
    let mut left = part.limit;
    for (key, value) in book.top_of(alloc, place, most)? {
        if !is_told {
            is_told = is_same(part.after.as_ref(), key);
        } else if left == 0 {
            return Ok(true);
        } else {
            left -= 1;
            put_value(json, part.kind, key, value)?;
        }
    }
    Ok(false)
}

// Puts a key of a ranked list.
fn put_value(json: &mut Json, kind: KeyKind, key: &Key, value: u128) -> Result<(), NoMemory> {
    json.begin_object()?;
    json.key("key", kind, key.as_slice())?;
    json.sum("value", value)?;
    json.end_object()
}

// Whether this is the key that is asked for behind.
fn is_same(after: Option<&Key>, key: &Key) -> bool {
    match after {
        None => false,
        Some(after) => *after == *key,
    }
}

// Puts a summed row.
fn put_row(json: &mut Json, shape: &Shape, key: &Key, sums: &Summed) -> Result<(), NoMemory> {
    json.begin_object()?;
    json.key("key", shape.kind, key.as_slice())?;
    json.number("peers", sums.peers as u64)?;
    json.number_if("expires_in_ms", sums.left)?;
    put_values(json, shape, sums)?;
    json.end_object()
}

// Begins the list of the table at a place.
fn begin_table(
    json: &mut Json,
    book: &Book,
    events: u64,
    place: usize,
    shape: &Shape,
) -> Result<(), NoMemory> {
    begin(json, book, events, "table", &shape.name)?;
    json.number("keys", book.used(place))?;
    json.begin_list("entries")
}

/// The summed rows of the table at a place that meet conditions.
pub fn table_list(
    alloc: Global,
    book: &Book,
    events: u64,
    place: usize,
    conds: &[Cond],
    entries: Entries<'_>,
) -> Result<Vec<u8>, AskFault>
    requires { place < length book.now.config.tables }
{
    let shape = &book.config().tables.as_slice()[place];
    let part = Part::of(alloc, shape.kind, entries)?;
    let mut json = Json::new(alloc);
    begin_table(&mut json, book, events, place, shape)?;
    let more = put_rows(alloc, &mut json, book, place, conds, &part)?;
    Ok(end_list(json, more)?)
}

// Puts a part of the rows that meet conditions, and answers whether more follow. No more of them
// are looked for than are put, and one that follows them.
fn put_rows(
    alloc: Global,
    json: &mut Json,
    book: &Book,
    place: usize,
    conds: &[Cond],
    part: &Part,
) -> Result<bool, NoMemory>
    requires { place < length book.now.config.tables }
{
    let shape = &book.config().tables.as_slice()[place];
    let sought = Sought {
        conds,
        after: part.after.as_ref(),
        most: part.limit.saturating_add(1),
    };
    let mut left = part.limit;
    for (key, sums) in book.first_rows(alloc, place, sought)? {
        if left == 0 {
            return Ok(true);
        }
        left -= 1;
        put_row(json, shape, key, &sums)?;
    }
    Ok(false)
}

/// The row of one key of the table at a place, if there is one.
pub fn row_list(
    alloc: Global,
    book: &Book,
    events: u64,
    place: usize,
    key: &Key,
) -> Result<Vec<u8>, AskFault>
    requires { place < length book.now.config.tables }
{
    let shape = &book.config().tables.as_slice()[place];
    let mut json = Json::new(alloc);
    begin_table(&mut json, book, events, place, shape)?;
    if let Some(sums) = book.summed(place, key) {
        put_row(&mut json, shape, key, &sums)?;
    }
    Ok(end_list(json, false)?)
}
