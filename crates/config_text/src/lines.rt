//! The lines of a configuration.

ghost use Rattle.std.specs.Prelude.{◌≡◌, ◌++◌, codes, OnOk};
ghost use Rattle.std.specs.List.{flat_map};
ghost use Rattle.agg_config.specs.Written.{hold_words, keep_words, table_name, text_of};
ghost use Rattle.config_text.specs.Spaced.{filter_line, filter_lines, filter_words, ignored_lines};
ghost use Rattle.config_text.specs.Spaced.{last_lines, log_lines, named_line, parts_text};
ghost use Rattle.config_text.specs.Spaced.{push_line, push_lines, push_words, rank_line};
ghost use Rattle.config_text.specs.Spaced.{rank_lines, rows_line, spaced, table_end, table_line};
ghost use Rattle.config_text.specs.Spaced.{table_words};

use crate::tables::{append_conditions, append_kind, append_store};
use crate::words::{append_figure, append_word};
use agg_types::{Config, Declared, Filter, Name, NoMemory, Push, Rank, Shape};
use key_text::append_text;

/// Appends the text of a configuration: a line for each thing that it declares, with its LF.
pub fn append_config(config: &Config, out: &mut Vec<u8>) -> Result<(), NoMemory>
    ensures { OnOk result (out.new.items ≡ out.old.items ++ text_of config.now) }
{
    append_parts(config, out)
}

fn append_parts(config: &Config, out: &mut Vec<u8>) -> Result<(), NoMemory>
    ensures { OnOk result (out.new.items ≡ out.old.items ++ parts_text config.now) }
{
    append_named(b"name", &config.me, out)?;
    append_peers(config.peers.as_slice(), out)?;
    append_tables(config.tables.as_slice(), out)?;
    append_filters(config, out)?;
    append_ranks(config, out)?;
    append_last(config, out)
}

// Appends the lines of pushed filters, of the bound on all rows, and of what is logged and ignored.
fn append_last(config: &Config, out: &mut Vec<u8>) -> Result<(), NoMemory>
    ensures { OnOk result (out.new.items ≡ out.old.items ++ last_lines config.now) }
{
    append_pushes(config, out)?;
    append_rows(config.rows, out)?;
    append_logs(config, out)?;
    append_ignored(config, out)
}

/// Appends the lines of the standing filters.
pub fn append_filters(config: &Config, out: &mut Vec<u8>) -> Result<(), NoMemory>
    ensures { OnOk result (out.new.items ≡ out.old.items ++ filter_lines config.now) }
{
    for filter in config.filters.as_slice() {
        append_filter(&config.tables, filter, out)?;
    }
    Ok(())
}

/// Appends the lines of the ranked lists.
pub fn append_ranks(config: &Config, out: &mut Vec<u8>) -> Result<(), NoMemory>
    ensures { OnOk result (out.new.items ≡ out.old.items ++ rank_lines config.now) }
{
    for rank in config.ranks.as_slice() {
        append_rank(&config.tables, rank, out)?;
    }
    Ok(())
}

/// Appends the lines of the pushed filters.
pub fn append_pushes(config: &Config, out: &mut Vec<u8>) -> Result<(), NoMemory>
    ensures { OnOk result (out.new.items ≡ out.old.items ++ push_lines config.now) }
{
    for push in config.pushes.as_slice() {
        append_push(push, out)?;
    }
    Ok(())
}

fn append_logs(config: &Config, out: &mut Vec<u8>) -> Result<(), NoMemory>
    ensures { OnOk result (out.new.items ≡ out.old.items ++ log_lines config.now) }
{
    for logged in config.logs.as_slice() {
        append_named(b"log", &logged.filter, out)?;
    }
    Ok(())
}

fn append_ignored(config: &Config, out: &mut Vec<u8>) -> Result<(), NoMemory>
    ensures { OnOk result (out.new.items ≡ out.old.items ++ ignored_lines config.now) }
{
    for ignored in config.ignored.as_slice() {
        append_named(b"ignore", &ignored.table, out)?;
    }
    Ok(())
}

fn append_peers(peers: &[Name], out: &mut Vec<u8>) -> Result<(), NoMemory>
    ensures { OnOk result (out.new.items
        ≡ out.old.items ++ flat_map (named_line (codes "peer")) peers.now) }
{
    for peer in peers {
        append_named(b"peer", peer, out)?;
    }
    Ok(())
}

fn append_tables(tables: &[Shape], out: &mut Vec<u8>) -> Result<(), NoMemory>
    ensures { OnOk result (out.new.items
        ≡ out.old.items ++ flat_map table_line tables.now) }
{
    for table in tables {
        append_table(table, out)?;
    }
    Ok(())
}

// Appends a line that declares a name.
fn append_named(label: &[u8], name: &Name, out: &mut Vec<u8>) -> Result<(), NoMemory>
    ensures { OnOk result (out.new.items
        ≡ out.old.items ++ named_line label.now name.now) }
{
    append_text(label, out)?;
    append_word(name.as_slice(), out)?;
    append_text(b"\n", out)
}

/// Appends the line of a table.
pub fn append_table(table: &Shape, out: &mut Vec<u8>) -> Result<(), NoMemory>
    ensures { OnOk result (out.new.items ≡ out.old.items ++ table_line table.now) }
{
    append_table_words(table, out)
}

fn append_table_words(table: &Shape, out: &mut Vec<u8>) -> Result<(), NoMemory>
    ensures { OnOk result (out.new.items ≡ out.old.items ++ table_words table.now) }
{
    append_text(b"table", out)?;
    append_word(table.name.as_slice(), out)?;
    append_word(b"type", out)?;
    append_kind(table.kind, out)?;
    append_table_end(table, out)
}

fn append_table_end(table: &Shape, out: &mut Vec<u8>) -> Result<(), NoMemory>
    ensures { OnOk result (out.new.items ≡ out.old.items ++ table_end table.now) }
{
    append_word(b"size", out)?;
    append_figure(table.size, out)?;
    append_keep(table.keep, out)?;
    append_store(table.cols.as_slice(), out)?;
    append_text(b"\n", out)
}

fn append_keep(keep: Option<u64>, out: &mut Vec<u8>) -> Result<(), NoMemory>
    ensures { OnOk result (out.new.items ≡ out.old.items ++ spaced (keep_words keep)) }
{
    match keep {
        None => Ok(()),
        Some(ms) => {
            append_word(b"keep", out)?;
            append_figure(ms, out)
        }
    }
}

// The name of a table; none where it isn't there, which no sound configuration has.
fn table_name(tables: &Declared<Shape>, table: usize) -> &[u8]
    ensures { result.now ≡ table_name tables.now table }
{
    match tables.get(table) {
        None => b"",
        Some(shape) => shape.name.as_slice(),
    }
}

fn append_filter(
    tables: &Declared<Shape>,
    filter: &Filter,
    out: &mut Vec<u8>,
) -> Result<(), NoMemory>
    ensures { OnOk result
        (out.new.items ≡ out.old.items ++ filter_line tables.now filter.now) }
{
    append_filter_words(filter, table_name(tables, filter.table), out)
}

fn append_filter_words(filter: &Filter, table: &[u8], out: &mut Vec<u8>) -> Result<(), NoMemory>
    ensures { OnOk result
        (out.new.items ≡ out.old.items ++ filter_words filter.now table.now) }
{
    append_text(b"filter", out)?;
    append_word(filter.name.as_slice(), out)?;
    append_word(table, out)?;
    append_conditions(filter.conds.as_slice(), out)?;
    append_text(b"\n", out)
}

fn append_rank(tables: &Declared<Shape>, rank: &Rank, out: &mut Vec<u8>) -> Result<(), NoMemory>
    ensures { OnOk result (out.new.items
        ≡ out.old.items ++ rank_line tables.now rank.now) }
{
    append_text(b"rank", out)?;
    append_word(rank.name.as_slice(), out)?;
    append_word(table_name(tables, rank.table), out)?;
    append_word(rank.col.name().as_bytes(), out)?;
    append_figure(rank.n, out)?;
    append_text(b"\n", out)
}

fn append_push(push: &Push, out: &mut Vec<u8>) -> Result<(), NoMemory>
    ensures { OnOk result (out.new.items ≡ out.old.items ++ push_line push.now) }
{
    append_push_words(push, out)
}

fn append_push_words(push: &Push, out: &mut Vec<u8>) -> Result<(), NoMemory>
    ensures { OnOk result (out.new.items ≡ out.old.items ++ push_words push.now) }
{
    append_text(b"push", out)?;
    append_word(push.name.as_slice(), out)?;
    append_hold(push.hold, out)?;
    append_text(b"\n", out)
}

fn append_hold(hold: Option<u64>, out: &mut Vec<u8>) -> Result<(), NoMemory>
    ensures { OnOk result (out.new.items ≡ out.old.items ++ spaced (hold_words hold)) }
{
    match hold {
        None => Ok(()),
        Some(ms) => {
            append_word(b"hold", out)?;
            append_figure(ms, out)
        }
    }
}

// Appends the line of a bound on all rows, where there is one.
fn append_rows(rows: Option<u64>, out: &mut Vec<u8>) -> Result<(), NoMemory>
    ensures { OnOk result (out.new.items ≡ out.old.items ++ rows_line rows) }
{
    match rows {
        None => Ok(()),
        Some(rows) => {
            append_text(b"rows", out)?;
            append_figure(rows, out)?;
            append_text(b"\n", out)
        }
    }
}
