//! The text of one key: the peers that hold it, and the filters of its table.

ghost use Rattle.std.specs.Prelude.{◌≡◌, ◌++◌, ◌<◌, [], length, slice_index_or, take, OnOk};
ghost use Rattle.std.specs.List.{AllByRecursion, flat_map};
ghost use Rattle.answer_text.specs.KeyAnswer.{AppendsKey, AppendsVerdict, AppendsVerdicts, HasFew};
ghost use Rattle.answer_text.specs.KeyAnswer.{holders_text, key_heading, of_table, peer_line};
ghost use Rattle.answer_text.specs.KeyAnswer.{verdict_line, yes_or_no};

use crate::fleet::{Book, PeerRow, PeerRows};
use crate::names::append_name;
use crate::pieces::{append_counted, append_labelled};
use crate::tables::{append_cells, append_ms, shape_of};
use agg_types::{Col, Filter, Key, Name, NoMemory, Shape};
use key_text::{append_key, append_text};

/// Appends which peers hold a key of a table, each with its own values, and for each filter of the
/// table whether it holds the key, and when the clock changes that.
#[tactic(auto, using(crate::proofs::VerdictLines::key_lemmas))]
pub fn append_one_key(
    book: &Book,
    table: usize,
    key: &Key,
    out: &mut Vec<u8>,
) -> Result<(), NoMemory>
    requires { table < length book.now.config.tables }
    ensures ok { OnOk result (AppendsKey book.now table key.now out.old.items out.new.items) }
    ensures begins { take (length out.old.items) out.new.items ≡ out.old.items }
{
    append_holders(book, table, key, out)?;
    append_verdicts(book, table, key, filters_of(book), out)
}

// ---- the peers that hold it

#[tactic(auto, using(key_text::proofs::Begins::begins_then))]
fn append_holders(book: &Book, table: usize, key: &Key, out: &mut Vec<u8>) -> Result<(), NoMemory>
    requires { table < length book.now.config.tables }
    ensures ok { OnOk result
        (out.new.items ≡ out.old.items ++ holders_text book.now table key.now) }
    ensures begins { take (length out.old.items) out.new.items ≡ out.old.items }
{
    let shape = shape_of(book, table);
    let rows = book.peer_rows(table, key);
    append_key_heading(shape, key, rows.len(), out)?;
    append_peers(peers_of(book), shape.cols.as_slice(), rows, out)
}

#[tactic(auto, using(key_text::proofs::Begins::begins_then))]
fn append_key_heading(
    shape: &Shape,
    key: &Key,
    peers: usize,
    out: &mut Vec<u8>,
) -> Result<(), NoMemory>
    ensures ok { OnOk result
        (out.new.items ≡ out.old.items ++ key_heading shape.now key.now peers) }
    ensures begins { take (length out.old.items) out.new.items ≡ out.old.items }
{
    append_text(b"# table: ", out)?;
    append_name(shape.name.as_slice(), out)?;
    append_text(b", key: ", out)?;
    append_key(shape.kind, key.as_slice(), out)?;
    append_counted(b", peers:", peers as u128, out)?;
    append_text(b"\n", out)
}

fn peers_of(book: &Book) -> &[Name]
    ensures { result.now ≡ book.now.config.peers }
{
    book.config().peers.as_slice()
}

// Appends a line for each row.
fn append_peers(
    peers: &[Name],
    cols: &[(Col, u32)],
    rows: PeerRows<'_>,
    out: &mut Vec<u8>,
) -> Result<(), NoMemory>
    ensures ok { OnOk result
        (out.new.items ≡ out.old.items ++ flat_map (peer_line peers.now cols.now) rows.entry) }
    ensures begins { take (length out.old.items) out.new.items ≡ out.old.items }
{
    for row in rows {
        append_peer(peers, cols, &row, out)?;
    }
    Ok(())
}

#[tactic(auto, using(key_text::proofs::Begins::begins_then))]
fn append_peer(
    peers: &[Name],
    cols: &[(Col, u32)],
    row: &PeerRow,
    out: &mut Vec<u8>,
) -> Result<(), NoMemory>
    ensures ok { OnOk result
        (out.new.items ≡ out.old.items ++ peer_line peers.now cols.now row.now) }
    ensures begins { take (length out.old.items) out.new.items ≡ out.old.items }
{
    append_text(b"peer=", out)?;
    append_name(peer_name(peers, row.peer), out)?;
    append_counted(b" age=", u128::from(row.age), out)?;
    append_text(b" exp=", out)?;
    append_ms(row.sums.left, out)?;
    append_cells(&row.sums, cols, out)?;
    append_text(b"\n", out)
}

// The name of a peer; empty where there is none.
fn peer_name(peers: &[Name], peer: usize) -> &[u8]
    ensures { result.now ≡ slice_index_or peers.now peer [] }
{
    match peers.get(peer) {
        None => b"",
        Some(name) => name.as_slice(),
    }
}

// ---- the filters of its table

// The standing filters. Each has few conditions, as in every configuration that was checked.
#[tactic(auto, using(crate::proofs::VerdictLines::all_few))]
fn filters_of(book: &Book) -> &[Filter]
    ensures value { result.now ≡ book.now.config.filters }
    ensures few { AllByRecursion HasFew result.now }
{
    book.config().filters.as_slice()
}

// Appends a line for each of these filters that is of the table.
#[tactic(auto, using(crate::proofs::VerdictLines::line_lemmas))]
fn append_verdicts(
    book: &Book,
    table: usize,
    key: &Key,
    filters: &[Filter],
    out: &mut Vec<u8>,
) -> Result<(), NoMemory>
    requires { AllByRecursion HasFew filters.now }
    ensures ok { OnOk result (AppendsVerdicts book.now key.now (of_table table filters.now)
        out.old.items out.new.items) }
    ensures begins { take (length out.old.items) out.new.items ≡ out.old.items }
{
    match filters {
        [] => Ok(()),
        [filter, others @ ..] => {
            if filter.table != table {
                return append_verdicts(book, table, key, others, out);
            }
            append_verdict(book, key, filter, out)?;
            append_verdicts(book, table, key, others, out)
        }
    }
}

// Appends what a filter says of a key.
fn append_verdict(
    book: &Book,
    key: &Key,
    filter: &Filter,
    out: &mut Vec<u8>,
) -> Result<(), NoMemory>
    requires { HasFew filter.now }
    ensures ok { OnOk result
        (AppendsVerdict book.now key.now filter.now out.old.items out.new.items) }
    ensures begins { take (length out.old.items) out.new.items ≡ out.old.items }
{
    let verdict = book.verdict(filter, key);
    append_verdict_line(filter, verdict.holds, verdict.next, out)
}

#[tactic(auto, using(key_text::proofs::Begins::begins_then))]
fn append_verdict_line(
    filter: &Filter,
    holds: bool,
    next: Option<u64>,
    out: &mut Vec<u8>,
) -> Result<(), NoMemory>
    ensures ok { OnOk result
        (out.new.items ≡ out.old.items ++ verdict_line filter.now holds next) }
    ensures begins { take (length out.old.items) out.new.items ≡ out.old.items }
{
    append_text(b"filter=", out)?;
    append_name(filter.name.as_slice(), out)?;
    append_labelled(b" holds=", yes_or_no(holds), out)?;
    append_text(b" next=", out)?;
    append_ms(next, out)?;
    append_text(b"\n", out)
}

fn yes_or_no(is: bool) -> &'static [u8]
    ensures { result.now ≡ yes_or_no is }
{
    if is { b"yes" } else { b"no" }
}
