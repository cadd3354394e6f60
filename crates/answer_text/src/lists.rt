//! The texts of standing filters and ranked lists.

ghost use Rattle.std.specs.Prelude.{◌≡◌, ◌++◌, ◌≤◌, ◌<◌, ◌^◌, length, map, take, OnOk};
ghost use Rattle.answer_text.specs.Lists.{change_ahead, change_text, distance_text, held_text};
ghost use Rattle.answer_text.specs.Lists.{key_line, period_of, place_text, places_text};
ghost use Rattle.answer_text.specs.Lists.{ranking_text, title_text};
ghost use Rattle.std.specs.List.{flat_map};

use crate::fleet::Ranked;
use crate::pieces::{append_counted, append_labelled};
use crate::tables::{append_cell, append_column, append_ms};
use agg_types::{Col, Filter, Key, NoMemory, Rank, Shape};
use key_text::{append_key, append_number, append_text};

// Appends the name of a filter or a list behind its title, and that of its table.
#[tactic(auto, using(key_text::proofs::Begins::begins_then))]
fn append_title(title: &[u8], name: &[u8], shape: &Shape, out: &mut Vec<u8>) -> Result<(), NoMemory>
    ensures ok { OnOk result
        (out.new.items ≡ out.old.items ++ title_text title.now name.now shape.now) }
    ensures begins { take (length out.old.items) out.new.items ≡ out.old.items }
{
    append_labelled(title, name, out)?;
    append_labelled(b", table: ", shape.name.as_slice(), out)
}

/// Appends the heading of a standing filter that holds these keys, and the keys.
#[tactic(auto, using(key_text::proofs::Begins::begins_then))]
pub fn append_held(
    filter: &Filter,
    shape: &Shape,
    keys: &[&Key],
    out: &mut Vec<u8>,
) -> Result<(), NoMemory>
    ensures ok { OnOk result (out.new.items
        ≡ out.old.items ++ held_text filter.now shape.now (map (λ key. key.now) keys.now)) }
    ensures begins { take (length out.old.items) out.new.items ≡ out.old.items }
{
    append_title(b"# filter: ", filter.name.as_slice(), shape, out)?;
    append_counted(b", keys:", keys.len() as u128, out)?;
    append_text(b"\n", out)?;
    append_keys(shape, keys, out)
}

fn append_keys(shape: &Shape, keys: &[&Key], out: &mut Vec<u8>) -> Result<(), NoMemory>
    ensures ok { OnOk result (out.new.items
        ≡ out.old.items ++ flat_map (key_line shape.now) (map (λ key. key.now) keys.now)) }
    ensures begins { take (length out.old.items) out.new.items ≡ out.old.items }
{
    for key in keys {
        append_key_line(shape, *key, out)?;
    }
    Ok(())
}

#[tactic(auto, using(key_text::proofs::Begins::begins_then))]
fn append_key_line(shape: &Shape, key: &Key, out: &mut Vec<u8>) -> Result<(), NoMemory>
    ensures ok { OnOk result (out.new.items ≡ out.old.items ++ key_line shape.now key.now) }
    ensures begins { take (length out.old.items) out.new.items ≡ out.old.items }
{
    append_text(b"key=", out)?;
    append_key(shape.kind, key.as_slice(), out)?;
    append_text(b"\n", out)
}

/// Appends the moment at which a standing filter holds other keys, if there is one.
#[tactic(auto, using(key_text::proofs::Begins::begins_then))]
pub fn append_change(
    filter: &Filter,
    shape: &Shape,
    t: Option<u64>,
    out: &mut Vec<u8>,
) -> Result<(), NoMemory>
    ensures ok { OnOk result (out.new.items ≡ out.old.items ++ change_text filter.now shape.now t) }
    ensures begins { take (length out.old.items) out.new.items ≡ out.old.items }
{
    append_title(b"# next: ", filter.name.as_slice(), shape, out)?;
    append_text(b", at:", out)?;
    append_ms(t, out)?;
    append_text(b"\n", out)
}

/// Appends the moment at which a standing filter holds other keys, if there is one, and how far off
/// it is at a moment.
#[tactic(auto, using(key_text::proofs::Begins::begins_then))]
pub fn append_change_ahead(
    filter: &Filter,
    shape: &Shape,
    now: u64,
    t: Option<u64>,
    out: &mut Vec<u8>,
) -> Result<(), NoMemory>
    ensures ok { OnOk result
        (out.new.items ≡ out.old.items ++ change_ahead filter.now shape.now now t) }
    ensures begins { take (length out.old.items) out.new.items ≡ out.old.items }
{
    append_title(b"# next: ", filter.name.as_slice(), shape, out)?;
    append_text(b", at:", out)?;
    append_ms(t, out)?;
    append_distance(now, t, out)?;
    append_text(b"\n", out)
}

fn append_distance(now: u64, t: Option<u64>, out: &mut Vec<u8>) -> Result<(), NoMemory>
    ensures ok { OnOk result (out.new.items ≡ out.old.items ++ distance_text now t) }
    ensures begins { take (length out.old.items) out.new.items ≡ out.old.items }
{
    match t {
        None => Ok(()),
        Some(t) => append_counted(b" in:", u128::from(t.saturating_sub(now)), out),
    }
}

/// Appends the heading of a ranked list, and its keys.
#[tactic(auto, using(key_text::proofs::Begins::begins_then))]
pub fn append_ranking(
    rank: &Rank,
    shape: &Shape,
    entries: Ranked<'_>,
    out: &mut Vec<u8>,
) -> Result<(), NoMemory>
    requires { length entries ≤ rank.now.n }
    ensures ok { OnOk result (out.new.items ≡ out.old.items
        ++ ranking_text rank.now shape.now (rank.now.col, period_of shape.now.cols rank.now.col)
        entries.entry) }
    ensures begins { take (length out.old.items) out.new.items ≡ out.old.items }
{
    let period = period_of(shape.cols.as_slice(), rank.col);
    append_title(b"# rank: ", rank.name.as_slice(), shape, out)?;
    append_text(b", by: ", out)?;
    append_column(rank.col, period, out)?;
    append_text(b"\n", out)?;
    append_places(shape, rank.col, period, entries, out)
}

fn period_of(cols: &[(Col, u32)], col: Col) -> u32
    ensures { result ≡ period_of cols.now col }
{
    match cols {
        [] => 0,
        [stored, others @ ..] => {
            if stored.0.id() == col.id() {
                stored.1
            } else {
                period_of(others, col)
            }
        }
    }
}

fn append_places(
    shape: &Shape,
    col: Col,
    period: u32,
    entries: Ranked<'_>,
    out: &mut Vec<u8>,
) -> Result<(), NoMemory>
    requires { length entries < 2 ^ 64 }
    ensures ok { OnOk result (out.new.items
        ≡ out.old.items ++ places_text shape.now (col, period) 1 entries.entry) }
    ensures begins { take (length out.old.items) out.new.items ≡ out.old.items }
{
    let mut place = 1u128;
    for (key, value) in entries {
        append_place(place, shape, key, (col, period), value, out)?;
        place += 1;
    }
    Ok(())
}

#[tactic(auto, using(key_text::proofs::Begins::begins_then))]
fn append_place(
    place: u128,
    shape: &Shape,
    key: &Key,
    col: (Col, u32),
    value: u128,
    out: &mut Vec<u8>,
) -> Result<(), NoMemory>
    ensures ok { OnOk result
        (out.new.items ≡ out.old.items ++ place_text place shape.now key.now col value) }
    ensures begins { take (length out.old.items) out.new.items ≡ out.old.items }
{
    append_number(place, out)?;
    append_text(b" key=", out)?;
    append_key(shape.kind, key.as_slice(), out)?;
    append_cell(col, value, out)?;
    append_text(b"\n", out)
}
