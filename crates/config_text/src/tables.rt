//! What a table's line says behind its name, and a filter's behind its table.

ghost use Rattle.std.specs.Prelude.{◌≡◌, ◌++◌, [], ◌∷◌, codes, OnOk};
ghost use Rattle.std.specs.Fmt.{decimal};
ghost use Rattle.std.specs.List.{flat_map};
ghost use Rattle.agg_config.specs.Written.{column_text, kind_words};
ghost use Rattle.line_words.specs.Conditions.{condition_words};
ghost use Rattle.agg_config.specs.Written.{length_words, store_words};
ghost use Rattle.config_text.specs.Spaced.{column_behind, spaced, stored_words};

use crate::words::{append_figure, append_word};
use agg_types::{Col, Cond, KeyKind, NoMemory};
use key_text::{append_number, append_text};
use line_words::operator_word;

/// Appends the words for a kind of keys.
pub(crate) fn append_kind(kind: KeyKind, out: &mut Vec<u8>) -> Result<(), NoMemory>
    ensures { OnOk result (out.new.items ≡ out.old.items ++ spaced (kind_words kind)) }
{
    append_word(kind.name().as_bytes(), out)?;
    append_length(kind.given_length(), out)
}

// Appends `len` and a length, where there is one.
fn append_length(length: Option<u64>, out: &mut Vec<u8>) -> Result<(), NoMemory>
    ensures { OnOk result (out.new.items ≡ out.old.items ++ spaced (length_words length)) }
{
    let Some(len) = length else {
        return Ok(());
    };
    append_word(b"len", out)?;
    append_figure(len, out)
}

/// Appends `store` and the columns, where there are any.
pub(crate) fn append_store(cols: &[(Col, u32)], out: &mut Vec<u8>) -> Result<(), NoMemory>
    ensures { OnOk result (out.new.items ≡ out.old.items ++ spaced (store_words cols.now)) }
{
    match cols {
        [] => Ok(()),
        [first, rest @ ..] => append_stored(*first, rest, out),
    }
}

fn append_stored(first: (Col, u32), rest: &[(Col, u32)], out: &mut Vec<u8>) -> Result<(), NoMemory>
    ensures { OnOk result
        (out.new.items ≡ out.old.items ++ spaced (store_words (first ∷ rest.now))) }
{
    append_stored_words(first, rest, out)
}

fn append_stored_words(
    first: (Col, u32),
    rest: &[(Col, u32)],
    out: &mut Vec<u8>,
) -> Result<(), NoMemory>
    ensures { OnOk result (out.new.items ≡ out.old.items ++ stored_words first rest.now) }
{
    append_word(b"store", out)?;
    append_text(b" ", out)?;
    append_column(first, out)?;
    append_columns(rest, out)
}

// Appends columns, each behind a comma.
fn append_columns(cols: &[(Col, u32)], out: &mut Vec<u8>) -> Result<(), NoMemory>
    ensures { OnOk result (out.new.items ≡ out.old.items ++ flat_map column_behind cols.now) }
{
    for col in cols {
        append_text(b",", out)?;
        append_column(*col, out)?;
    }
    Ok(())
}

// Appends a column, that of a rate with its period.
fn append_column(col: (Col, u32), out: &mut Vec<u8>) -> Result<(), NoMemory>
    ensures { OnOk result (out.new.items ≡ out.old.items ++ column_text col) }
{
    append_text(col.0.name().as_bytes(), out)?;
    if col.0.is_rate() {
        append_text(b"(", out)?;
        append_number(u128::from(col.1), out)?;
        append_text(b")", out)?;
    }
    Ok(())
}

/// Appends conditions.
pub(crate) fn append_conditions(conds: &[Cond], out: &mut Vec<u8>) -> Result<(), NoMemory>
    ensures { OnOk result
        (out.new.items ≡ out.old.items ++ spaced (flat_map condition_words conds.now)) }
{
    for cond in conds {
        append_condition(*cond, out)?;
    }
    Ok(())
}

fn append_condition(cond: Cond, out: &mut Vec<u8>) -> Result<(), NoMemory>
    ensures { OnOk result (out.new.items ≡ out.old.items ++ spaced (condition_words cond)) }
{
    append_word(b"data.", out)?;
    append_text(cond.col.name().as_bytes(), out)?;
    append_word(operator_word(cond.op), out)?;
    append_figure(cond.bound, out)
}
