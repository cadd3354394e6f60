//! The answers to what operators ask of the collector itself. Names are quoted as in the log.

ghost use Rattle.std.specs.Prelude.{◌<◌, length};

use crate::board::Board;
use agg_types::{Config, NoMemory};
use book::Book;
use command_line::VERSION;
use defined_tables::{Because, DefinedTable, Lacking, Verdict};
use logged_keys::Value;
use process_figures::Usage;
use sockets::Connections;
use std::alloc::Global;
use std::fmt;
use std::net::SocketAddr;
use std::sync::Wait;
use web_lists::held_by;
use web_text::{PeerRows, PeerStanding};

/// The commands, a line each.
pub const HELP: &[u8] = b"add filter <filter> <table> data.<column> <operator> <value> ..
clear table <table> [key <key> | data.<column> <operator> <value> ..]
del filter <filter>
exit
help
prompt
quit
show config
show filter [<filter>]
show filters
show info
show key <table> <key>
show next <filter>
show peers [<peer>]
show rank [<rank>]
show ranks
show table [<table> [key <key> | data.<column> <operator> <value> ..]]
";

// Appends a counter's line.
fn append_line<V: fmt::Display + Drop>(
    alloc: Global,
    name: &str,
    value: V,
    out: &mut Vec<u8>,
) -> Result<(), NoMemory> {
    let line = format!(in alloc; "{name}: {value}\n")?;
    out.extend_from_slice(line.as_bytes())?;
    Ok(())
}

// How many keys all tables have.
fn keys_in(book: &Book) -> u64 {
    let mut keys = 0u64;
    for table in 0..book.config().tables.len() {
        keys = keys.saturating_add(book.used(table));
    }
    keys
}

// How many rows all peers hold.
fn rows_in(book: &Book) -> u64 {
    let mut rows = 0u64;
    for peer in 0..book.config().peers.len() {
        rows = rows.saturating_add(held_by(book, peer).rows);
    }
    rows
}

// Appends what a book and its configuration tell.
fn append_book(alloc: Global, book: &Book, out: &mut Vec<u8>) -> Result<(), NoMemory> {
    let config = book.config();
    append_line(alloc, "tables", config.tables.len(), out)?;
    append_line(alloc, "filters", config.filters.len(), out)?;
    append_line(alloc, "ranks", config.ranks.len(), out)?;
    append_line(alloc, "keys", keys_in(book), out)?;
    append_line(alloc, "rows", rows_in(book), out)
}

// A number, or a dash.
#[derive(Clone, Copy)]
struct Known(Option<u64>);

impl fmt::Display for Known {
    fn fmt<W: fmt::Write>(&self, f: &mut fmt::Formatter<W>) -> fmt::Result {
        match self.0 {
            None => f.write_str("-"),
            Some(number) => write!(f, "{number}"),
        }
    }
}

/// What counts of a collector.
#[derive(Clone, Copy)]
pub struct Counters<'a> {
    pub board: &'a Board,
    pub connections: &'a Connections,
    pub book: &'a Book,
    /// The time since its start, in ms.
    pub uptime: u64,
}

/// Appends the collector's counters, and its memory.
pub fn append_info<R: Wait + Usage>(
    rt: &R,
    alloc: Global,
    counters: Counters<'_>,
    out: &mut Vec<u8>,
) -> Result<(), NoMemory> {
    let Counters {
        board,
        connections,
        book,
        uptime,
    } = counters;
    let totals = board.totals(rt);
    append_line(alloc, "version", VERSION, out)?;
    append_line(alloc, "uptime_ms", uptime, out)?;
    append_line(alloc, "now_ms", book.moment(), out)?;
    append_line(alloc, "peers_connected", totals.connected, out)?;
    append_line(alloc, "updates", totals.updates, out)?;
    append_line(alloc, "posts", totals.posts, out)?;
    append_book(alloc, book, out)?;
    append_line(alloc, "seats", totals.seats, out)?;
    append_line(alloc, "waiting", connections.count_waiting(rt), out)?;
    append_line(alloc, "refused", totals.refused, out)?;
    append_line(alloc, "memory", Known(rt.resident()), out)
}

// The address of a connection, or a dash.
#[derive(Clone, Copy)]
struct From(Option<SocketAddr>);

impl fmt::Display for From {
    fn fmt<W: fmt::Write>(&self, f: &mut fmt::Formatter<W>) -> fmt::Result {
        match self.0 {
            None => f.write_str("-"),
            Some(address) => write!(f, "{address}"),
        }
    }
}

// The line of a peer. One that never came is in that state since the start.
#[derive(Clone, Copy)]
struct PeerLine<'a> {
    name: &'a [u8],
    peer: PeerStanding,
    held: PeerRows,
    now: u64,
}

impl<'a> fmt::Display for PeerLine<'a> {
    fn fmt<W: fmt::Write>(&self, f: &mut fmt::Formatter<W>) -> fmt::Result {
        let PeerLine {
            name,
            peer,
            held,
            now,
        } = *self;
        let since = now.saturating_sub(peer.since.unwrap_or(0));
        let name = Value(name);
        write!(f, "peer={name} state={}", peer.state())?;
        write!(f, " from={} since_ms={since}", From(peer.address))?;
        let last = Known(peer.last_update.map(|moment| now.saturating_sub(moment)));
        write!(f, " updates={} last_update_ms={last}", peer.updates)?;
        write!(f, " rows={} dropped={}", held.rows, held.dropped)?;
        write!(f, " unknown_tables={}", peer.unfollowed)?;
        write!(f, " told={} learned={}", peer.told, peer.learned)
    }
}

/// Appends a line for each peer of a book's configuration, at a moment, in ms.
pub fn append_peers<R: Wait>(
    rt: &R,
    alloc: Global,
    board: &Board,
    now: u64,
    book: &Book,
    out: &mut Vec<u8>,
) -> Result<(), NoMemory> {
    for (place, name) in book.config().peers.as_slice().iter().enumerate() {
        let Some(peer) = board.peer(rt, place) else {
            return Ok(());
        };
        let line = PeerLine {
            name: name.as_slice(),
            peer,
            held: held_by(book, place),
            now,
        };
        let line = format!(in alloc; "{line}\n")?;
        out.extend_from_slice(line.as_bytes())?;
    }
    Ok(())
}

// Why a table is followed without some columns, or nothing.
#[derive(Clone, Copy)]
struct Reasons<'a>(&'a [Lacking]);

impl<'a> fmt::Display for Reasons<'a> {
    fn fmt<W: fmt::Write>(&self, f: &mut fmt::Formatter<W>) -> fmt::Result {
        if self.0.is_empty() {
            return Ok(());
        }
        f.write_str(" reason=\"")?;
        for (place, lacking) in self.0.iter().enumerate() {
            if place > 0 {
                f.write_str(", ")?;
            }
            write!(f, "{lacking}")?;
        }
        f.write_str("\"")
    }
}

// The line of a table that a peer defined.
#[derive(Clone, Copy)]
struct TableLine<'a> {
    because: Because<'a>,
    reasons: Reasons<'a>,
}

impl<'a> fmt::Display for TableLine<'a> {
    fn fmt<W: fmt::Write>(&self, f: &mut fmt::Formatter<W>) -> fmt::Result {
        let because = self.because;
        let name = Value(because.name);
        match because.verdict {
            Verdict::Followed => {
                let reasons = self.reasons;
                write!(f, "table={name} state=followed{reasons}")
            }
            Verdict::Ignored => write!(f, "table={name} state=ignored"),
            _ => write!(f, "table={name} state=unknown reason=\"{because}\""),
        }
    }
}

// Appends the line of a table that a peer defined. One that is pushed has its line behind all.
fn append_table(
    alloc: Global,
    config: &Config,
    table: &DefinedTable,
    out: &mut Vec<u8>,
) -> Result<(), NoMemory> {
    if table.verdict == Verdict::Pushed {
        return Ok(());
    }
    let because = Because {
        config,
        name: table.name.as_slice(),
        verdict: table.verdict,
    };
    let reasons = Reasons(table.lacks.as_slice());
    let line = TableLine { because, reasons };
    let line = format!(in alloc; "{line}\n")?;
    out.extend_from_slice(line.as_bytes())?;
    Ok(())
}

// Appends a line for each pushed table, with how many of its keys a peer is told.
fn append_pushed(
    alloc: Global,
    board: &Board,
    config: &Config,
    peer: usize,
    out: &mut Vec<u8>,
) -> Result<(), NoMemory> {
    for (place, push) in config.pushes.as_slice().iter().enumerate() {
        let name = Value(push.name.as_slice());
        let told = board.told(peer, place);
        let line = format!(in alloc; "table={name} state=pushed told={told}\n")?;
        out.extend_from_slice(line.as_bytes())?;
    }
    Ok(())
}

/// Appends a line for each table that a peer's present or last connection defined, and then one for
/// each pushed table.
pub fn append_tables<R: Wait>(
    rt: &R,
    alloc: Global,
    board: &Board,
    config: &Config,
    peer: usize,
    out: &mut Vec<u8>,
) -> Result<(), NoMemory> {
    for place in 0..usize::MAX {
        let Some(table) = board.table(rt, peer, place)? else {
            break;
        };
        append_table(alloc, config, &table, out)?;
    }
    append_pushed(alloc, board, config, peer, out)
}
