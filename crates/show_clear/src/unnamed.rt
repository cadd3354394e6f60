//! Names that nothing has, and those that there are.

ghost use Rattle.std.specs.Prelude.{◌≡◌, ◌++◌, OnOk};
ghost use Rattle.line_words.specs.Words.{words};
ghost use Rattle.show_clear.specs.Explained.{no_filter_named, no_name, no_peer_named};
ghost use Rattle.show_clear.specs.Explained.{no_rank_named, no_table, not_added, not_shown};

use crate::fleet::Book;
use crate::quoting::{append_names, append_quoted};
use agg_types::NoMemory;
use key_text::append_text;
use line_words::word_at;

/// Appends which name of a line nothing has.
pub(crate) fn append_no_name(
    book: &Book,
    line: &[u8],
    name: &[u8],
    out: &mut Vec<u8>,
) -> Result<(), NoMemory>
    ensures { OnOk result
        (out.new.items ≡ out.old.items ++ no_name book.now (words line.now) name.now) }
{
    let first = word_at(line, 1);
    if first == b"add".as_slice() {
        append_no_table(book, name, out)
    } else if first == b"del".as_slice() {
        append_not_added(name, out)
    } else {
        append_not_shown(book, word_at(line, 2), name, out)
    }
}

fn append_not_shown(
    book: &Book,
    what: &[u8],
    name: &[u8],
    out: &mut Vec<u8>,
) -> Result<(), NoMemory>
    ensures { OnOk result
        (out.new.items ≡ out.old.items ++ not_shown book.now what.now name.now) }
{
    if what == b"table".as_slice() || what == b"key".as_slice() {
        append_no_table(book, name, out)
    } else if what == b"rank".as_slice() {
        append_no_rank(book, name, out)
    } else if what == b"peers".as_slice() {
        append_no_peer(name, out)
    } else {
        append_no_filter(book, name, out)
    }
}

fn append_no_table(book: &Book, name: &[u8], out: &mut Vec<u8>) -> Result<(), NoMemory>
    ensures { OnOk result (out.new.items ≡ out.old.items ++ no_table book.now name.now) }
{
    append_text(b"no table ", out)?;
    append_quoted(name, out)?;
    append_text(b" is configured", out)?;
    append_names(b"; tables are: ", book.config().tables.as_slice(), out)
}

fn append_no_filter(book: &Book, name: &[u8], out: &mut Vec<u8>) -> Result<(), NoMemory>
    ensures { OnOk result (out.new.items ≡ out.old.items ++ no_filter_named book.now name.now) }
{
    append_text(b"no filter ", out)?;
    append_quoted(name, out)?;
    append_text(b" exists", out)?;
    append_names(b"; filters are: ", book.config().filters.as_slice(), out)
}

fn append_no_rank(book: &Book, name: &[u8], out: &mut Vec<u8>) -> Result<(), NoMemory>
    ensures { OnOk result (out.new.items ≡ out.old.items ++ no_rank_named book.now name.now) }
{
    append_text(b"no ranked list ", out)?;
    append_quoted(name, out)?;
    append_text(b" is configured", out)?;
    append_names(b"; ranked lists are: ", book.config().ranks.as_slice(), out)
}

fn append_no_peer(name: &[u8], out: &mut Vec<u8>) -> Result<(), NoMemory>
    ensures { OnOk result (out.new.items ≡ out.old.items ++ no_peer_named name.now) }
{
    append_text(b"no peer ", out)?;
    append_quoted(name, out)?;
    append_text(b" is configured; see show peers", out)
}

fn append_not_added(name: &[u8], out: &mut Vec<u8>) -> Result<(), NoMemory>
    ensures { OnOk result (out.new.items ≡ out.old.items ++ not_added name.now) }
{
    append_text(b"no filter ", out)?;
    append_quoted(name, out)?;
    append_text(b" was added; those of the configuration stay", out)
}
