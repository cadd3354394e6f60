//! One key as JSON: the peers that hold it, and the filters of its table.

ghost use Rattle.std.specs.Prelude.{◌<◌, ◌≤◌, length};
ghost use Rattle.agg_types.specs.declared.limits.TheConstants.{MOST_CONDS};

use crate::values::put_values;
use agg_types::{Config, Filter, Key, NoMemory, Shape};
use book::{Book, PeerRow, Verdict};
use std::alloc::Global;
use web_text::{Json, begin_list};

/// A key of the table at a place: each peer's row of it, and whether each filter of the table holds
/// it and when the clock changes that.
pub fn one_key(
    alloc: Global,
    book: &Book,
    events: u64,
    place: usize,
    key: &Key,
) -> Result<Vec<u8>, NoMemory>
    requires { place < length book.now.config.tables }
{
    let config = book.config();
    let shape = &config.tables.as_slice()[place];
    let mut json = Json::new(alloc);
    begin_list(&mut json, events, book.moment())?;
    json.text("table", shape.name.as_slice())?;
    json.key("key", shape.kind, key.as_slice())?;
    json.begin_list("peers")?;
    for row in book.peer_rows(place, key) {
        put_peer(&mut json, config, shape, &row)?;
    }
    json.end_list()?;
    put_filters(&mut json, book, place, key)?;
    json.end_object()?;
    Ok(json.into_text())
}

// Puts a peer's row.
fn put_peer(
    json: &mut Json,
    config: &Config,
    shape: &Shape,
    row: &PeerRow,
) -> Result<(), NoMemory> {
    json.begin_object()?;
    match config.peers.get(row.peer) {
        None => json.null("peer")?,
        Some(name) => json.text("peer", name.as_slice())?,
    }
    json.number("age_ms", row.age)?;
    json.number_if("expires_in_ms", row.sums.left)?;
    put_values(json, shape, &row.sums)?;
    json.end_object()
}

// Puts the filters of a table, each with its verdict on a key.
fn put_filters(json: &mut Json, book: &Book, table: usize, key: &Key) -> Result<(), NoMemory> {
    json.begin_list("filters")?;
    for place in 0..book.config().filters.len() {
        let filter = filter_at(book, place);
        if filter.table == table {
            put_verdict(json, filter, book.verdict(filter, key))?;
        }
    }
    json.end_list()
}

// A standing filter: it has few conditions, as in every configuration that was checked.
#[tactic(auto, using(fleet_model::proofs::Checked::conds_few))]
fn filter_at(book: &Book, place: usize) -> &Filter
    requires { place < length book.now.config.filters }
    ensures { length result.now.conds ≤ MOST_CONDS }
{
    &book.config().filters.as_slice()[place]
}

// Puts a filter with its verdict.
fn put_verdict(json: &mut Json, filter: &Filter, verdict: Verdict) -> Result<(), NoMemory> {
    json.begin_object()?;
    json.text("filter", filter.name.as_slice())?;
    json.truth("holds", verdict.holds)?;
    json.number_if("next_change", verdict.next)?;
    json.end_object()
}
