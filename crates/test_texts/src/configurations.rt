//! What configurations declare, or their first faulty lines and what explains them.

use agg_config::{LineCause, LineFault};
use agg_types::{
    Col, Cond, Config, Filter, Ignored, KeyKind, Logged, Name, NoMemory, Push, Rank, Shape,
};
use config_text::append_explanation;
use std::alloc::Global;
use std::io;
use std::io::Write;

/// Prints behind a title what a configuration declares, or its first faulty line with what explains
/// it.
pub fn print<W: Write>(alloc: Global, text: &[u8], out: &mut W) -> io::Result<()> {
    out.write_all(b": ")?;
    match read(alloc, text) {
        Ok(config) => print_config(&config, out),
        Err(fault) => print_fault(alloc, text, fault, out),
    }
}

/// Reads a configuration, once more where an allocation failed: so what is printed is the same
/// whichever allocation fails.
pub fn read(alloc: Global, text: &[u8]) -> Result<Config, LineFault> {
    match agg_config::read(alloc, text) {
        Err(
            LineFault {
                line: _,
                cause: LineCause::NoMemory,
                place: _,
            },
        ) => agg_config::read(alloc, text),
        read => read,
    }
}

// Prints a faulty line as programs are told of it, and then as people are.
fn print_fault<W: Write>(
    alloc: Global,
    text: &[u8],
    fault: LineFault,
    out: &mut W,
) -> io::Result<()> {
    let line = fault.line;
    let cause = fault.cause;
    writeln!(out, "config line {line}: {cause}")?;
    match explained(alloc, text, fault) {
        Ok(explanation) => out.write_all(explanation.as_slice()),
        Err(NoMemory) => writeln!(out, "out of memory"),
    }
}

// What explains a fault, made once more where an allocation failed.
fn explained(alloc: Global, text: &[u8], fault: LineFault) -> Result<Vec<u8>, NoMemory> {
    match explanation(alloc, text, fault) {
        Err(NoMemory) => explanation(alloc, text, fault),
        explained => explained,
    }
}

fn explanation(alloc: Global, text: &[u8], fault: LineFault) -> Result<Vec<u8>, NoMemory> {
    let mut out = Vec::new(alloc);
    append_explanation(text, fault, &mut out)?;
    Ok(out)
}

fn print_config<W: Write>(config: &Config, out: &mut W) -> io::Result<()> {
    out.write_all(config.me.as_slice())?;
    print_peers(config.peers.as_slice(), out)?;
    print_tables(config.tables.as_slice(), out)?;
    print_filters(config.filters.as_slice(), out)?;
    print_ranks(config.ranks.as_slice(), out)?;
    print_pushes(config.pushes.as_slice(), out)?;
    print_bound(config.rows, out)?;
    print_logs(config.logs.as_slice(), out)?;
    print_ignored(config.ignored.as_slice(), out)
}

fn print_peers<W: Write>(peers: &[Name], out: &mut W) -> io::Result<()> {
    for peer in peers {
        print_named(" peer ", peer.as_slice(), out)?;
    }
    out.write_all(b"\n")
}

fn print_tables<W: Write>(tables: &[Shape], out: &mut W) -> io::Result<()> {
    for shape in tables {
        print_table(shape, out)?;
    }
    Ok(())
}

fn print_filters<W: Write>(filters: &[Filter], out: &mut W) -> io::Result<()> {
    for filter in filters {
        print_filter(filter, out)?;
    }
    Ok(())
}

fn print_ranks<W: Write>(ranks: &[Rank], out: &mut W) -> io::Result<()> {
    for rank in ranks {
        print_rank(rank, out)?;
    }
    Ok(())
}

fn print_pushes<W: Write>(pushes: &[Push], out: &mut W) -> io::Result<()> {
    for push in pushes {
        print_push(push, out)?;
    }
    Ok(())
}

fn print_named<W: Write>(kind: &str, name: &[u8], out: &mut W) -> io::Result<()> {
    out.write_all(kind.as_bytes())?;
    out.write_all(name)
}

// The word of a type of keys, and the length that it has where that is told.
fn kind_of(kind: KeyKind) -> (&'static [u8], Option<u64>) {
    match kind {
        KeyKind::Integer => (b" integer", None),
        KeyKind::Ip => (b" ip", None),
        KeyKind::Ipv6 => (b" ipv6", None),
        KeyKind::Str(len) => (b" string", Some(len)),
        KeyKind::Binary(len) => (b" binary", Some(len)),
    }
}

fn print_kind<W: Write>(kind: KeyKind, out: &mut W) -> io::Result<()> {
    let (word, len) = kind_of(kind);
    out.write_all(word)?;
    match len {
        None => Ok(()),
        Some(len) => write!(out, " {len}"),
    }
}

fn print_size<W: Write>(size: u64, out: &mut W) -> io::Result<()> {
    write!(out, " size {size}")
}

fn print_keep<W: Write>(keep: Option<u64>, out: &mut W) -> io::Result<()> {
    match keep {
        None => Ok(()),
        Some(keep) => write!(out, " keep {keep}"),
    }
}

fn print_table<W: Write>(shape: &Shape, out: &mut W) -> io::Result<()> {
    print_named("table ", shape.name.as_slice(), out)?;
    print_kind(shape.kind, out)?;
    print_size(shape.size, out)?;
    print_keep(shape.keep, out)?;
    for col in shape.cols.as_slice() {
        print_col(*col, out)?;
    }
    out.write_all(b"\n")
}

fn print_col<W: Write>(col: (Col, u32), out: &mut W) -> io::Result<()> {
    let name = col.0.name();
    let period = col.1;
    write!(out, " {name}({period})")
}

fn print_place<W: Write>(table: usize, out: &mut W) -> io::Result<()> {
    write!(out, " of table {table}")
}

fn print_cond<W: Write>(cond: &Cond, out: &mut W) -> io::Result<()> {
    let name = cond.col.name();
    let op = cond.op;
    let bound = cond.bound;
    write!(out, ", {name} {op:?} {bound}")
}

fn print_filter<W: Write>(filter: &Filter, out: &mut W) -> io::Result<()> {
    print_named("filter ", filter.name.as_slice(), out)?;
    print_place(filter.table, out)?;
    for cond in filter.conds.as_slice() {
        print_cond(cond, out)?;
    }
    out.write_all(b"\n")
}

fn print_rank<W: Write>(rank: &Rank, out: &mut W) -> io::Result<()> {
    print_named("rank ", rank.name.as_slice(), out)?;
    print_place(rank.table, out)?;
    let name = rank.col.name();
    let n = rank.n;
    writeln!(out, ": {n} by {name}")
}

fn print_push<W: Write>(push: &Push, out: &mut W) -> io::Result<()> {
    print_named("push ", push.name.as_slice(), out)?;
    match push.hold {
        None => writeln!(out, " while it holds"),
        Some(hold) => writeln!(out, " hold {hold}"),
    }
}

fn print_bound<W: Write>(rows: Option<u64>, out: &mut W) -> io::Result<()> {
    match rows {
        None => Ok(()),
        Some(rows) => writeln!(out, "rows {rows}"),
    }
}

fn print_logs<W: Write>(logs: &[Logged], out: &mut W) -> io::Result<()> {
    for logged in logs {
        print_line("log ", logged.filter.as_slice(), out)?;
    }
    Ok(())
}

fn print_ignored<W: Write>(ignored: &[Ignored], out: &mut W) -> io::Result<()> {
    for table in ignored {
        print_line("ignore ", table.table.as_slice(), out)?;
    }
    Ok(())
}

fn print_line<W: Write>(kind: &str, name: &[u8], out: &mut W) -> io::Result<()> {
    print_named(kind, name, out)?;
    out.write_all(b"\n")
}
