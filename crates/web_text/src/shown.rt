//! What the page shows, as JSON.

ghost use Rattle.std.specs.Prelude.{◌≡◌, IfOk};
ghost use Rattle.web_text.specs.Places.{kind_at};

use crate::objects::Json;
use crate::standing::{NotSent, PeerStanding, Standing};
use crate::summary::{FilterSum, PeerRows, RankSum, Summary};
use agg_types::{Cond, Config, KeyKind, NoMemory, Push, Shape};
use line_words::operator_word;
use std::alloc::Global;

/// What the page shows of a book that was looked at and of what else stands. Times are in ms.
pub fn overview(
    alloc: Global,
    config: &Config,
    summary: &Summary,
    standing: &Standing,
) -> Result<Vec<u8>, NoMemory> {
    let mut json = Json::new(alloc);
    json.begin_object()?;
    json.number("events", summary.events)?;
    json.number("moment", summary.moment)?;
    json.number("behind_ms", summary.looked.saturating_sub(summary.moment))?;
    json.number("look_age_ms", standing.now.saturating_sub(summary.looked))?;
    json.text("name", config.me.as_slice())?;
    put_standing(&mut json, standing)?;
    put_peers(alloc, &mut json, config, summary, standing)?;
    put_tables(&mut json, config, summary)?;
    json.begin_list("filters")?;
    for filter in summary.filters.as_slice() {
        put_filter(&mut json, config, summary.moment, filter)?;
    }
    json.end_list()?;
    json.begin_list("ranks")?;
    for rank in summary.ranks.as_slice() {
        put_rank(&mut json, config, rank)?;
    }
    json.end_list()?;
    json.end_object()?;
    Ok(json.into_text())
}

fn put_standing(json: &mut Json, standing: &Standing) -> Result<(), NoMemory> {
    json.text("version", standing.version.as_bytes())?;
    json.number("uptime_ms", standing.now)?;
    json.number("connected", standing.connected as u64)?;
    json.number("updates", standing.updates)?;
    json.number("posts", standing.posts)?;
    json.number("waiting", standing.waiting as u64)?;
    json.number("refused", standing.refused)?;
    json.number("lost_lines", standing.lost_lines)?;
    json.begin_list("updates_per_second")?;
    for rate in standing.rates.as_slice() {
        json.number_item(*rate)?;
    }
    json.end_list()
}

/// How long ago a moment was, in ms: 0 where it is still to come, none where there is none.
pub(crate) fn ago(moment: Option<u64>, now: u64) -> Option<u64> {
    let moment = moment?;
    Some(now.saturating_sub(moment))
}

/// How many of the columns that a peer doesn't send are told in words.
const MOST_NOT_SENT: usize = 8;

/// What is told of a peer.
#[derive(Clone, Copy)]
pub(crate) struct ToldPeer<'c, 's> {
    pub(crate) name: &'c [u8],
    pub(crate) peer: &'s PeerStanding,
    pub(crate) held: PeerRows,
    pub(crate) not_sent: &'s [NotSent],
}

/// What is told of the peer at a place of the configuration, if it has one there.
pub(crate) fn told_peer<'c, 's>(
    config: &'c Config,
    summary: &Summary,
    standing: &'s Standing,
    place: usize,
) -> Option<ToldPeer<'c, 's>> {
    let not_sent = match standing.not_sent.as_slice().get(place) {
        None => &[],
        Some(columns) => columns.as_slice(),
    };
    Some(ToldPeer {
        name: config.peers.get(place)?.as_slice(),
        peer: standing.peers.as_slice().get(place)?,
        held: summary.of_peer(place),
        not_sent,
    })
}

/// Puts a peer with what it holds, as a member of a list, at so many ms after the start.
pub(crate) fn put_peer(
    alloc: Global,
    json: &mut Json,
    told: ToldPeer<'_, '_>,
    now: u64,
) -> Result<(), NoMemory> {
    let ToldPeer {
        name,
        peer,
        held,
        not_sent,
    } = told;
    json.begin_object()?;
    json.text("name", name)?;
    json.text("state", peer.state().as_bytes())?;
    match peer.address {
        None => json.null("from")?,
        Some(address) => {
            let text = format!(in alloc; "{address}")?;
            json.text("from", text.as_bytes())?;
        }
    }
    json.number_if("since_ms", ago(peer.since, now))?;
    json.number("updates", peer.updates)?;
    json.number_if("last_update_ms", ago(peer.last_update, now))?;
    json.number("rows", held.rows)?;
    json.number("dropped", held.dropped)?;
    json.number("unknown_tables", peer.unfollowed as u64)?;
    json.number("told", peer.told)?;
    json.number("learned", peer.learned)?;
    json.number_if("told_age_ms", ago(peer.told_at, now))?;
    json.number("columns_not_sent", not_sent.len() as u64)?;
    put_not_sent(json, not_sent)?;
    json.end_object()
}

// The first of the columns that a peer doesn't send.
fn put_not_sent(json: &mut Json, not_sent: &[NotSent]) -> Result<(), NoMemory> {
    json.begin_list("not_sent")?;
    for column in not_sent.iter().take(MOST_NOT_SENT) {
        json.begin_object()?;
        json.text("table", column.table.as_slice())?;
        json.text("reason", column.reason.as_bytes())?;
        json.end_object()?;
    }
    json.end_list()
}

fn put_peers(
    alloc: Global,
    json: &mut Json,
    config: &Config,
    summary: &Summary,
    standing: &Standing,
) -> Result<(), NoMemory> {
    json.begin_list("peers")?;
    for place in 0..standing.peers.len() {
        let Some(told) = told_peer(config, summary, standing, place) else {
            break;
        };
        put_peer(alloc, json, told, standing.now)?;
    }
    json.end_list()
}

fn put_tables(json: &mut Json, config: &Config, summary: &Summary) -> Result<(), NoMemory> {
    json.begin_list("tables")?;
    for (place, keys) in summary.tables.as_slice().iter().enumerate() {
        json.begin_object()?;
        put_table(json, config, place)?;
        json.number("keys", *keys)?;
        json.end_object()?;
    }
    json.end_list()
}

/// Puts the name of a table at a place of the configuration, or null where it has none there, and
/// answers the kind of its keys. After `NoMemory` the text is of no use.
pub fn put_table(json: &mut Json, config: &Config, place: usize) -> Result<KeyKind, NoMemory>
    ensures { IfOk result (λ kind. kind ≡ kind_at config.now place) }
{
    match config.tables.get(place) {
        None => {
            json.null("table")?;
            Ok(KeyKind::Binary(0))
        }
        Some(Shape { name, kind, .. }) => {
            json.text("table", name.as_slice())?;
            Ok(*kind)
        }
    }
}

fn put_filter(
    json: &mut Json,
    config: &Config,
    moment: u64,
    filter: &FilterSum,
) -> Result<(), NoMemory> {
    json.begin_object()?;
    json.text("filter", filter.name.as_slice())?;
    let kind = put_table(json, config, filter.table)?;
    put_conditions(json, filter.conds.as_slice())?;
    put_push(json, config, filter.name.as_slice())?;
    json.number("keys", filter.keys as u64)?;
    let next = match filter.next {
        None => None,
        Some(next) => Some(next.saturating_sub(moment)),
    };
    json.number_if("next_change_ms", next)?;
    json.begin_list("first")?;
    for key in filter.first.as_slice() {
        json.key_item(kind, key.as_slice())?;
    }
    json.end_list()?;
    json.end_object()
}

// What has to hold of a key, as the configuration says it.
fn put_conditions(json: &mut Json, conds: &[Cond]) -> Result<(), NoMemory> {
    json.begin_list("conditions")?;
    for cond in conds {
        json.begin_object()?;
        json.text("column", cond.col.name().as_bytes())?;
        json.text("operator", operator_word(cond.op))?;
        json.number("value", cond.bound)?;
        json.end_object()?;
    }
    json.end_list()
}

// Whether proxies are told the keys, and how long, in ms, they know one that has left the set.
fn put_push(json: &mut Json, config: &Config, filter: &[u8]) -> Result<(), NoMemory> {
    let pushes = config.pushes.as_slice();
    let push = pushes.iter().find(|push| push.name.as_slice() == filter);
    json.truth("pushed", push.is_some())?;
    json.number_if("hold_ms", push.and_then(|push: &Push| push.hold))
}

fn put_rank(json: &mut Json, config: &Config, rank: &RankSum) -> Result<(), NoMemory> {
    json.begin_object()?;
    json.text("rank", rank.name.as_slice())?;
    let kind = put_table(json, config, rank.table)?;
    json.text("column", rank.column.as_bytes())?;
    json.begin_list("first")?;
    for (key, value) in rank.first.as_slice() {
        json.begin_object()?;
        json.key("key", kind, key.as_slice())?;
        json.sum("value", *value)?;
        json.end_object()?;
    }
    json.end_list()?;
    json.end_object()
}
