//! Words that don't fit the table that a line names, and names that no filter may have.

ghost use Rattle.std.specs.Prelude.{◌≡◌, ◌++◌, codes, OnOk};
ghost use Rattle.std.specs.Option.{option_map};
ghost use Rattle.line_words.specs.Words.{words};
ghost use Rattle.show_clear.specs.Explained.{adds, bad_name_text, exists_text, full_text};
ghost use Rattle.show_clear.specs.Explained.{kind_text, quoted, shape_in, stored_text, table_word};
ghost use Rattle.show_clear.specs.Explained.{too_many_text, words_text};
ghost use Rattle.show_clear.specs.declared.fault.CommandFault.TheVariants as faults;

use crate::fleet::Book;
use crate::quoting::{append_columns, append_quoted};
use agg_types::limits::LONGEST_NAME;
use agg_types::{MOST_CONDS, MOST_FILTERS, NoMemory, Shape};
use answer_text::{append_counted, kind_name, shape_of};
use key_text::append_text;
use line_words::word_at;

// ---- where words stand

// Whether a filter is to be added: its name stands before that of its table.
fn adds(line: &[u8]) -> bool
    ensures { result ≡ adds (words line.now) }
{
    word_at(line, 1) == b"add".as_slice()
}

// The word that names the table.
fn table_word(line: &[u8]) -> &[u8]
    ensures { result.now ≡ table_word (words line.now) }
{
    if adds(line) {
        word_at(line, 4)
    } else {
        word_at(line, 3)
    }
}

// The table that a line names, if it exists.
fn shape_in<'a>(book: &'a Book, line: &[u8]) -> Option<&'a Shape>
    ensures { option_map (λ shape. shape.now) result ≡ shape_in book.now (words line.now) }
{
    match book.config().tables.position(table_word(line)) {
        None => None,
        Some(table) => Some(shape_of(book, table)),
    }
}

// ---- what was expected

/// Appends which word names no stored column, and the columns that the table stores.
pub(crate) fn append_bad_column(
    book: &Book,
    line: &[u8],
    wrong: &[u8],
    out: &mut Vec<u8>,
) -> Result<(), NoMemory>
    ensures { OnOk result (out.new.items
        ≡ out.old.items ++ words_text book.now (words line.now) wrong.now faults.BadColumn) }
{
    append_quoted(wrong, out)?;
    append_text(b" names no column that the table stores; it stores: ", out)?;
    append_stored(book, line, out)
}

fn append_stored(book: &Book, line: &[u8], out: &mut Vec<u8>) -> Result<(), NoMemory>
    ensures { OnOk result (out.new.items
        ≡ out.old.items ++ stored_text (shape_in book.now (words line.now))) }
{
    match shape_in(book, line) {
        None => Ok(()),
        Some(shape) => append_columns(shape.cols.as_slice(), out),
    }
}

/// Appends which word is no operator, and the operators.
pub(crate) fn append_bad_operator(wrong: &[u8], out: &mut Vec<u8>) -> Result<(), NoMemory>
    ensures { OnOk result (out.new.items ≡ out.old.items ++ (quoted wrong.now
        ++ codes " stands where one of eq, ne, lt, le, gt, ge is expected")) }
{
    append_quoted(wrong, out)?;
    append_text(
        b" stands where one of eq, ne, lt, le, gt, ge is expected",
        out,
    )
}

/// Appends which word is no value, and what a value is.
pub(crate) fn append_bad_value(wrong: &[u8], out: &mut Vec<u8>) -> Result<(), NoMemory>
    ensures { OnOk result (out.new.items ≡ out.old.items ++ (quoted wrong.now
        ++ codes " stands where 1 to 20 digits are expected, up to 18446744073709551615")) }
{
    append_quoted(wrong, out)?;
    append_text(
        b" stands where 1 to 20 digits are expected, up to 18446744073709551615",
        out,
    )
}

/// Appends which word is no key, and the type of the table's keys.
pub(crate) fn append_bad_key(
    book: &Book,
    line: &[u8],
    wrong: &[u8],
    out: &mut Vec<u8>,
) -> Result<(), NoMemory>
    ensures { OnOk result (out.new.items
        ≡ out.old.items ++ words_text book.now (words line.now) wrong.now faults.BadKey) }
{
    append_quoted(wrong, out)?;
    append_text(b" is no key of type ", out)?;
    append_kind(book, line, out)
}

fn append_kind(book: &Book, line: &[u8], out: &mut Vec<u8>) -> Result<(), NoMemory>
    ensures { OnOk result (out.new.items
        ≡ out.old.items ++ kind_text (shape_in book.now (words line.now))) }
{
    match shape_in(book, line) {
        None => Ok(()),
        Some(shape) => append_text(kind_name(shape.kind), out),
    }
}

/// Appends how many conditions there may be.
pub(crate) fn append_too_many(out: &mut Vec<u8>) -> Result<(), NoMemory>
    ensures { OnOk result (out.new.items ≡ out.old.items ++ too_many_text) }
{
    append_counted(b"there may be ", MOST_CONDS as u128, out)?;
    append_text(b" conditions", out)
}

// ---- names of filters

/// Appends what a filter's name may be.
pub(crate) fn append_bad_name(name: &[u8], out: &mut Vec<u8>) -> Result<(), NoMemory>
    ensures { OnOk result (out.new.items ≡ out.old.items ++ bad_name_text name.now) }
{
    append_quoted(name, out)?;
    append_counted(
        b" can't name a filter: a name has 1 to ",
        LONGEST_NAME as u128,
        out,
    )?;
    append_text(b" bytes, each of 33 to 126", out)
}

/// Appends that a filter has this name.
pub(crate) fn append_exists(name: &[u8], out: &mut Vec<u8>) -> Result<(), NoMemory>
    ensures { OnOk result (out.new.items ≡ out.old.items ++ exists_text name.now) }
{
    append_text(b"a filter ", out)?;
    append_quoted(name, out)?;
    append_text(b" exists already", out)
}

/// Appends how many filters there may be.
pub(crate) fn append_full(out: &mut Vec<u8>) -> Result<(), NoMemory>
    ensures { OnOk result (out.new.items ≡ out.old.items ++ full_text) }
{
    append_counted(b"there may be ", MOST_FILTERS as u128, out)?;
    append_text(
        b" filters; del filter <filter> takes away one that was added",
        out,
    )
}
