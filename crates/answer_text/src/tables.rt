//! The texts of tables and their rows.

ghost use Rattle.std.specs.Prelude.{◌≡◌, ◌++◌, ◌<◌, length, take, OnOk};
ghost use Rattle.agg_types.specs.Kind.{kind_name};
ghost use Rattle.answer_text.specs.Tables.{cell_text, cells_text, column_text, counts_text};
ghost use Rattle.answer_text.specs.Tables.{heading, ms_or_never, row_text, shape_of, sums_text};
ghost use Rattle.answer_text.specs.Tables.{value_in};

use crate::fleet::{Book, Summed};
use crate::pieces::{append_counted, append_labelled};
use agg_types::{Col, Key, KeyKind, NoMemory, Shape};
use key_text::{append_key, append_number, append_text};

/// The table at a position.
pub fn shape_of(book: &Book, table: usize) -> &Shape
    requires { table < length book.now.config.tables }
    ensures { result.now ≡ shape_of book.now table }
{
    &book.config().tables.as_slice()[table]
}

/// Appends the heading of a table with so many keys.
#[tactic(auto, using(key_text::proofs::Begins::begins_then))]
pub fn append_heading(shape: &Shape, used: u64, out: &mut Vec<u8>) -> Result<(), NoMemory>
    ensures ok { OnOk result (out.new.items ≡ out.old.items ++ heading shape.now used) }
    ensures begins { take (length out.old.items) out.new.items ≡ out.old.items }
{
    append_labelled(b"# table: ", shape.name.as_slice(), out)?;
    append_labelled(b", type: ", kind_name(shape.kind), out)?;
    append_counts(shape.size, used, out)
}

#[tactic(auto, using(key_text::proofs::Begins::begins_then))]
fn append_counts(size: u64, used: u64, out: &mut Vec<u8>) -> Result<(), NoMemory>
    ensures ok { OnOk result (out.new.items ≡ out.old.items ++ counts_text size used) }
    ensures begins { take (length out.old.items) out.new.items ≡ out.old.items }
{
    append_counted(b", size:", u128::from(size), out)?;
    append_counted(b", used:", u128::from(used), out)?;
    append_text(b"\n", out)
}

/// The name of a kind of keys.
pub fn kind_name(kind: KeyKind) -> &'static [u8]
    ensures { result.now ≡ kind_name kind }
{
    kind.name().as_bytes()
}

/// Appends the name of a column, that of a rate with its period, behind a label.
#[tactic(auto, using(key_text::proofs::Begins::begins_then))]
pub(crate) fn append_column(col: Col, period: u32, out: &mut Vec<u8>) -> Result<(), NoMemory>
    ensures ok { OnOk result (out.new.items ≡ out.old.items ++ column_text (col, period)) }
    ensures begins { take (length out.old.items) out.new.items ≡ out.old.items }
{
    append_text(col.name().as_bytes(), out)?;
    if col.is_rate() {
        append_counted(b"(", u128::from(period), out)?;
        append_text(b")", out)?;
    }
    Ok(())
}

/// Appends a column with its value, behind a space.
#[tactic(auto, using(key_text::proofs::Begins::begins_then))]
pub(crate) fn append_cell(col: (Col, u32), value: u128, out: &mut Vec<u8>) -> Result<(), NoMemory>
    ensures ok { OnOk result (out.new.items ≡ out.old.items ++ cell_text col value) }
    ensures begins { take (length out.old.items) out.new.items ≡ out.old.items }
{
    append_text(b" ", out)?;
    append_column(col.0, col.1, out)?;
    append_counted(b"=", value, out)
}

/// A summed row's value of a column.
pub(crate) fn value_in(sums: &Summed, col: Col) -> u128
    ensures { result ≡ value_in sums.now col }
{
    sums.values[col.place()]
}

/// Appends a number of ms, or that there is none.
pub(crate) fn append_ms(ms: Option<u64>, out: &mut Vec<u8>) -> Result<(), NoMemory>
    ensures ok { OnOk result (out.new.items ≡ out.old.items ++ ms_or_never ms) }
    ensures begins { take (length out.old.items) out.new.items ≡ out.old.items }
{
    match ms {
        None => append_text(b"never", out),
        Some(ms) => append_number(u128::from(ms), out),
    }
}

/// Appends the stored columns of a summed row, each with its value.
pub(crate) fn append_cells(
    sums: &Summed,
    cols: &[(Col, u32)],
    out: &mut Vec<u8>,
) -> Result<(), NoMemory>
    ensures ok { OnOk result (out.new.items ≡ out.old.items ++ cells_text sums.now cols.now) }
    ensures begins { take (length out.old.items) out.new.items ≡ out.old.items }
{
    for col in cols {
        append_cell(*col, value_in(sums, col.0), out)?;
    }
    Ok(())
}

/// Appends the line of a key's summed row.
#[tactic(auto, using(key_text::proofs::Begins::begins_then))]
pub fn append_row(
    shape: &Shape,
    key: &Key,
    sums: &Summed,
    out: &mut Vec<u8>,
) -> Result<(), NoMemory>
    ensures ok { OnOk result
        (out.new.items ≡ out.old.items ++ row_text shape.now key.now sums.now) }
    ensures begins { take (length out.old.items) out.new.items ≡ out.old.items }
{
    append_text(b"key=", out)?;
    append_key(shape.kind, key.as_slice(), out)?;
    append_sums(sums, shape.cols.as_slice(), out)
}

// Appends what stands behind the key.
#[tactic(auto, using(key_text::proofs::Begins::begins_then))]
fn append_sums(sums: &Summed, cols: &[(Col, u32)], out: &mut Vec<u8>) -> Result<(), NoMemory>
    ensures ok { OnOk result (out.new.items ≡ out.old.items ++ sums_text sums.now cols.now) }
    ensures begins { take (length out.old.items) out.new.items ≡ out.old.items }
{
    append_counted(b" peers=", sums.peers as u128, out)?;
    append_text(b" exp=", out)?;
    append_ms(sums.left, out)?;
    append_cells(sums, cols, out)?;
    append_text(b"\n", out)
}
