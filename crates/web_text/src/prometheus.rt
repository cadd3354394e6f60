//! Figures in Prometheus's text format.

use crate::figure::*;
use crate::labels::append_label;
use crate::shown::ago;
use crate::standing::{PeerStanding, Standing};
use crate::summary::{FilterSum, PeerRows, RankSum, Summary};
use agg_types::{Config, NoMemory};
use std::alloc::Global;
use std::fmt;

/// A figure's value.
#[derive(Clone, Copy)]
enum Value {
    Count(u128),
    /// A time in ms, which is written in seconds.
    Time(u64),
}

impl fmt::Display for Value {
    fn fmt<W: fmt::Write>(&self, f: &mut fmt::Formatter<W>) -> fmt::Result {
        match self {
            Value::Count(count) => write!(f, "{count}"),
            Value::Time(time) => write!(f, "{}.{:03}", *time / 1000, *time % 1000),
        }
    }
}

// How long ago a moment was, if it came.
fn time_ago(moment: Option<u64>, now: u64) -> Option<Value> {
    Some(Value::Time(ago(moment, now)?))
}

// A count.
fn count(count: u64) -> Value {
    Value::Count(u128::from(count))
}

/// A label with its value.
type Label<'a> = (&'static [u8], &'a [u8]);

/// Figures on their way to text.
struct Lines {
    alloc: Global,
    out: Vec<u8>,
}

impl Drop for Lines {
    fn drop(self) {
        let Lines { alloc: _, out: _ } = self;
    }
}

impl Lines {
    fn into_text(self) -> Vec<u8> {
        let Lines { alloc: _, out } = self;
        out
    }

    fn put(&mut self, text: &[u8]) -> Result<(), NoMemory> {
        self.out.extend_from_slice(text)?;
        Ok(())
    }

    // The two lines before a figure's values.
    fn head(&mut self, figure: Figure) -> Result<(), NoMemory> {
        self.put(b"# HELP ")?;
        self.put(figure.name)?;
        self.put(b" ")?;
        self.put(figure.help)?;
        self.put(b"\n# TYPE ")?;
        self.put(figure.name)?;
        if figure.grows {
            self.put(b" counter\n")
        } else {
            self.put(b" gauge\n")
        }
    }

    fn labels(&mut self, labels: &[Label<'_>]) -> Result<(), NoMemory> {
        for (place, (name, value)) in labels.iter().enumerate() {
            self.put(if place == 0 { b"{" } else { b"," })?;
            self.put(*name)?;
            self.put(b"=\"")?;
            append_label(*value, &mut self.out)?;
            self.put(b"\"")?;
        }
        if labels.is_empty() {
            Ok(())
        } else {
            self.put(b"}")
        }
    }

    // A value with its labels.
    fn value(
        &mut self,
        figure: Figure,
        labels: &[Label<'_>],
        value: Value,
    ) -> Result<(), NoMemory> {
        self.put(figure.name)?;
        self.labels(labels)?;
        let text = format!(in self.alloc; " {value}\n")?;
        self.put(text.as_bytes())
    }

    // A figure that has one value.
    fn alone(&mut self, figure: Figure, value: Value) -> Result<(), NoMemory> {
        self.head(figure)?;
        self.value(figure, &[], value)
    }
}

/// The figures of a collector, of a book that was looked at and of what else stands. Times are in
/// seconds, with three digits behind the point.
pub fn figures(
    alloc: Global,
    config: &Config,
    summary: &Summary,
    standing: &Standing,
) -> Result<Vec<u8>, NoMemory> {
    let mut lines = Lines {
        alloc,
        out: Vec::new(alloc),
    };
    put_collector(&mut lines, summary, standing)?;
    put_peers(&mut lines, config, standing)?;
    put_told(&mut lines, config, standing)?;
    put_not_sent(&mut lines, config, standing)?;
    put_held(&mut lines, config, summary)?;
    put_tables(&mut lines, config, summary)?;
    put_filters(&mut lines, config, summary)?;
    put_ranks(&mut lines, config, summary)?;
    Ok(lines.into_text())
}

// What is told of the collector as a whole.
fn put_collector(
    lines: &mut Lines,
    summary: &Summary,
    standing: &Standing,
) -> Result<(), NoMemory> {
    lines.head(BUILD_INFO)?;
    let version = standing.version.as_bytes();
    let commit = standing.commit.as_bytes();
    let labels: [Label<'_>; 2] = [(b"commit", commit), (b"version", version)];
    lines.value(BUILD_INFO, &labels, count(1))?;
    let late = summary.looked.saturating_sub(summary.moment);
    let age = standing.now.saturating_sub(summary.looked);
    lines.alone(UPTIME, Value::Time(standing.now))?;
    lines.alone(BEHIND, Value::Time(late))?;
    lines.alone(LOOK_AGE, Value::Time(age))?;
    lines.alone(PEERS_CONNECTED, count(standing.connected as u64))?;
    lines.alone(UPDATES, count(standing.updates))?;
    lines.alone(POSTS, count(standing.posts))?;
    lines.alone(REFUSED, count(standing.refused))?;
    lines.alone(WAITING, count(standing.waiting as u64))?;
    lines.alone(SEATS, count(standing.seats))?;
    lines.alone(LOST_LINES, count(standing.lost_lines))?;
    put_process(lines, standing)
}

// What the process takes, where it is known.
fn put_process(lines: &mut Lines, standing: &Standing) -> Result<(), NoMemory> {
    for (figure, value) in [
        (MEMORY, standing.memory.map(count)),
        (PROCESSOR, standing.processor.map(Value::Time)),
        (BEGAN, standing.began.map(Value::Time)),
        (DESCRIPTORS, standing.descriptors.map(count)),
    ] {
        if let Some(value) = value {
            lines.alone(figure, value)?;
        }
    }
    Ok(())
}

/// What is told of each peer.
#[derive(Clone, Copy)]
enum OfPeer {
    Connected,
    Since,
    Updates,
    LastUpdate,
    Learned,
    ToldAge,
    Unfollowed,
}

impl OfPeer {
    const ALL: [OfPeer; 7] = [
        OfPeer::Connected,
        OfPeer::Since,
        OfPeer::Updates,
        OfPeer::LastUpdate,
        OfPeer::Learned,
        OfPeer::ToldAge,
        OfPeer::Unfollowed,
    ];

    fn figure(self) -> Figure {
        match self {
            OfPeer::Connected => PEER_CONNECTED,
            OfPeer::Since => PEER_STATE,
            OfPeer::Updates => PEER_UPDATES,
            OfPeer::LastUpdate => PEER_LAST_UPDATE,
            OfPeer::Learned => PEER_LEARNED,
            OfPeer::ToldAge => PEER_TOLD_AGE,
            OfPeer::Unfollowed => PEER_UNFOLLOWED,
        }
    }

    // What it is of a peer, if it has it.
    fn of(self, peer: &PeerStanding, now: u64) -> Option<Value> {
        match self {
            OfPeer::Connected => Some(count(u64::from(peer.is_connected))),
            OfPeer::Since => time_ago(peer.since, now),
            OfPeer::Updates => Some(count(peer.updates)),
            OfPeer::LastUpdate => time_ago(peer.last_update, now),
            OfPeer::Learned => Some(count(peer.learned)),
            OfPeer::ToldAge => time_ago(peer.told_at, now),
            OfPeer::Unfollowed => Some(count(peer.unfollowed as u64)),
        }
    }
}

fn put_peers(lines: &mut Lines, config: &Config, standing: &Standing) -> Result<(), NoMemory> {
    for of_peer in OfPeer::ALL {
        let figure = of_peer.figure();
        lines.head(figure)?;
        for (place, peer) in standing.peers.as_slice().iter().enumerate() {
            let Some(name) = config.peers.get(place) else {
                break;
            };
            if let Some(value) = of_peer.of(peer, standing.now) {
                lines.value(figure, &[(b"peer", name.as_slice())], value)?;
            }
        }
    }
    Ok(())
}

// How many keys each peer is told of each pushed filter.
fn put_told(lines: &mut Lines, config: &Config, standing: &Standing) -> Result<(), NoMemory> {
    lines.head(PEER_TOLD)?;
    for (place, told) in standing.told.as_slice().iter().enumerate() {
        if let Some(peer) = config.peers.get(place) {
            put_told_to(lines, config, peer.as_slice(), told.as_slice())?;
        }
    }
    Ok(())
}

// How many keys a peer is told of each pushed filter.
fn put_told_to(
    lines: &mut Lines,
    config: &Config,
    peer: &[u8],
    told: &[u64],
) -> Result<(), NoMemory> {
    for (push, keys) in config.pushes.as_slice().iter().zip(told) {
        let filter = push.name.as_slice();
        let labels: [Label<'_>; 2] = [(b"peer", peer), (b"filter", filter)];
        lines.value(PEER_TOLD, &labels, count(*keys))?;
    }
    Ok(())
}

// How many configured columns each peer doesn't send.
fn put_not_sent(lines: &mut Lines, config: &Config, standing: &Standing) -> Result<(), NoMemory> {
    lines.head(PEER_NOT_SENT)?;
    for (place, columns) in standing.not_sent.as_slice().iter().enumerate() {
        if let Some(peer) = config.peers.get(place) {
            let labels: [Label<'_>; 1] = [(b"peer", peer.as_slice())];
            lines.value(PEER_NOT_SENT, &labels, count(columns.len() as u64))?;
        }
    }
    Ok(())
}

/// What is told of the rows that a peer holds of a table.
#[derive(Clone, Copy)]
enum OfHeld {
    Rows,
    Dropped,
}

impl OfHeld {
    const ALL: [OfHeld; 2] = [OfHeld::Rows, OfHeld::Dropped];

    fn figure(self) -> Figure {
        match self {
            OfHeld::Rows => PEER_ROWS,
            OfHeld::Dropped => PEER_DROPPED,
        }
    }

    fn of(self, held: PeerRows) -> Value {
        match self {
            OfHeld::Rows => count(held.rows),
            OfHeld::Dropped => count(held.dropped),
        }
    }
}

fn put_held(lines: &mut Lines, config: &Config, summary: &Summary) -> Result<(), NoMemory> {
    for of_held in OfHeld::ALL {
        lines.head(of_held.figure())?;
        for (place, held) in summary.peers.as_slice().iter().enumerate() {
            if let Some(peer) = config.peers.get(place) {
                put_held_by(lines, config, of_held, peer.as_slice(), held.as_slice())?;
            }
        }
    }
    Ok(())
}

// What a peer holds of each table.
fn put_held_by(
    lines: &mut Lines,
    config: &Config,
    of_held: OfHeld,
    peer: &[u8],
    held: &[PeerRows],
) -> Result<(), NoMemory> {
    for (place, held) in held.iter().enumerate() {
        let table = table_name(config, place);
        let labels: [Label<'_>; 2] = [(b"peer", peer), (b"table", table)];
        lines.value(of_held.figure(), &labels, of_held.of(*held))?;
    }
    Ok(())
}

fn put_tables(lines: &mut Lines, config: &Config, summary: &Summary) -> Result<(), NoMemory> {
    lines.head(TABLE_KEYS)?;
    for (place, keys) in summary.tables.as_slice().iter().enumerate() {
        let name = table_name(config, place);
        lines.value(TABLE_KEYS, &[(b"table", name)], count(*keys))?;
    }
    lines.head(TABLE_SIZE)?;
    for table in config.tables.as_slice() {
        lines.value(
            TABLE_SIZE,
            &[(b"table", table.name.as_slice())],
            count(table.size),
        )?;
    }
    Ok(())
}

fn put_filters(lines: &mut Lines, config: &Config, summary: &Summary) -> Result<(), NoMemory> {
    lines.head(FILTER_KEYS)?;
    for filter in summary.filters.as_slice() {
        let labels = filter_labels(config, filter);
        lines.value(FILTER_KEYS, &labels, count(filter.keys as u64))?;
    }
    lines.head(FILTER_CHANGE)?;
    for filter in summary.filters.as_slice() {
        if let Some(next) = filter.next {
            let left = next.saturating_sub(summary.moment);
            let labels = filter_labels(config, filter);
            lines.value(FILTER_CHANGE, &labels, Value::Time(left))?;
        }
    }
    Ok(())
}

fn put_ranks(lines: &mut Lines, config: &Config, summary: &Summary) -> Result<(), NoMemory> {
    lines.head(RANK_TOP)?;
    for rank in summary.ranks.as_slice() {
        if let Some((_, value)) = rank.first.as_slice().first() {
            let labels = rank_labels(config, rank);
            lines.value(RANK_TOP, &labels, Value::Count(*value))?;
        }
    }
    Ok(())
}

// A table's name, by its place.
fn table_name(config: &Config, place: usize) -> &[u8] {
    match config.tables.get(place) {
        None => b"?",
        Some(table) => table.name.as_slice(),
    }
}

fn filter_labels<'a>(config: &'a Config, filter: &'a FilterSum) -> [Label<'a>; 2] {
    let table = table_name(config, filter.table);
    [(b"filter", filter.name.as_slice()), (b"table", table)]
}

fn rank_labels<'a>(config: &'a Config, rank: &'a RankSum) -> [Label<'a>; 3] {
    let table = table_name(config, rank.table);
    [
        (b"column", rank.column.as_bytes()),
        (b"rank", rank.name.as_slice()),
        (b"table", table),
    ]
}
