//! The names that are told of a fault: those that the lines before it declare.

ghost use Rattle.std.specs.Prelude.{◌≡◌, ◌++◌, take, OnOk};
ghost use Rattle.line_words.specs.Words.{lines_of, parts, words};
ghost use Rattle.config_text.specs.Named.{after, behind_store, cause_names, check_names};
ghost use Rattle.config_text.specs.Named.{column_names, columns_in, columns_of, listed};
ghost use Rattle.config_text.specs.Named.{name_in, name_or_dots, names_in, separator, start, told};

use crate::spelled::first_part;
use agg_config::LineCause;
use agg_types::{ConfigFault, KeyKind, NoMemory};
use key_text::{append_key, append_text};
use line_words::{behind_words, next_line, next_part, next_word, word_at};

/// The most bytes of names that are told of a fault.
pub(crate) const MOST_NAMES: usize = 200;

/// How many lines are looked through for them, so that many faults take no long time.
pub(crate) const MOST_LINES: usize = 4096;

/// Appends what there is of what a faulty line names in vain, by so many lines of a text.
pub(crate) fn append_names(
    cause: LineCause,
    line: &[u8],
    text: &[u8],
    ahead: usize,
    out: &mut Vec<u8>,
) -> Result<(), NoMemory>
    ensures { OnOk result (out.new.items ≡ out.old.items
        ++ cause_names cause (words line.now) ahead (lines_of text.now)) }
{
    match cause {
        LineCause::Check(fault) => append_check_names(fault, line, text, ahead, out),
        LineCause::Syntax | LineCause::Number | LineCause::NoMemory => Ok(()),
    }
}

fn append_check_names(
    fault: ConfigFault,
    line: &[u8],
    text: &[u8],
    ahead: usize,
    out: &mut Vec<u8>,
) -> Result<(), NoMemory>
    ensures { OnOk result (out.new.items ≡ out.old.items
        ++ check_names fault (words line.now) ahead (lines_of text.now)) }
{
    match fault {
        ConfigFault::UnknownTable => {
            append_declared(b"table", b"; tables before it: ", text, ahead, out)
        }
        ConfigFault::UnknownFilter => {
            append_declared(b"filter", b"; filters before it: ", text, ahead, out)
        }
        ConfigFault::UnknownColumn => {
            let list = columns_of(word_at(line, 3), text, ahead);
            append_columns(b"; it stores: ", list, out)
        }
        _ => Ok(()),
    }
}

// Appends the names that lines of this kind declare.
fn append_declared(
    kind: &[u8],
    label: &[u8],
    text: &[u8],
    count: usize,
    out: &mut Vec<u8>,
) -> Result<(), NoMemory>
    ensures { OnOk result (out.new.items ≡ out.old.items
        ++ listed label.now start (names_in kind.now count (lines_of text.now))) }
{
    let mut listing = Listing::start();
    let mut left = text;
    let mut ahead = count;
    'lines: while let Some((line, rest)) = next_line(left) {
        if ahead == 0 {
            return Ok(());
        }
        let name = name_in(kind, line);
        append_told(label, listing, name, out)?;
        listing = listing.after(name);
        ahead -= 1;
        left = rest;
    }
    Ok(())
}

// The name that a line of this kind declares, empty where it is none.
fn name_in<'a>(kind: &[u8], line: &'a [u8]) -> &'a [u8]
    ensures { result.now ≡ name_in kind.now (words line.now) }
{
    if word_at(line, 1) == kind {
        word_at(line, 2)
    } else {
        b""
    }
}

// The columns of the first line that declares this table, as they stand there.
#[tactic(auto, using(crate::proofs::Taken::take_first))]
fn columns_of<'a>(table: &[u8], text: &'a [u8], count: usize) -> &'a [u8]
    ensures { result.now ≡ columns_of table.now (take count (lines_of text.now)) }
{
    let mut left = text;
    let mut ahead = count;
    'lines: while let Some((line, rest)) = next_line(left) {
        if ahead == 0 {
            return b"";
        }
        if name_in(b"table", line) == table {
            return columns_in(line);
        }
        ahead -= 1;
        left = rest;
    }
    b""
}

fn columns_in(line: &[u8]) -> &[u8]
    ensures { result.now ≡ columns_in (words line.now) }
{
    behind_store(behind_words(line, 6))
}

// What stands behind the first `store`.
fn behind_store(line: &[u8]) -> &[u8]
    ensures { result.now ≡ behind_store (words line.now) }
{
    let mut left = line;
    'words: while let Some((word, rest)) = next_word(left) {
        if word == b"store".as_slice() {
            return word_at(rest, 1);
        }
        left = rest;
    }
    b""
}

// Appends the names of a list's columns.
fn append_columns(label: &[u8], list: &[u8], out: &mut Vec<u8>) -> Result<(), NoMemory>
    ensures { OnOk result (out.new.items ≡ out.old.items
        ++ listed label.now start (column_names (parts 44 list.now))) }
{
    let mut listing = Listing::start();
    let mut left = list;
    'items: loop {
        let (item, rest) = next_part(left, b',');
        let name = first_part(item, b'(');
        append_told(label, listing, name, out)?;
        listing = listing.after(name);
        match rest {
            None => return Ok(()),
            Some(rest) => left = rest,
        }
    }
}

/// How far names are listed.
#[derive(Clone, Copy)]
struct Listing {
    /// How many bytes of names may follow.
    room: usize,
    /// No name stands yet.
    is_first: bool,
    /// One had no room.
    is_full: bool,
}

impl Listing {
    fn start() -> Listing
        ensures { result ≡ start }
    {
        Listing {
            room: MOST_NAMES,
            is_first: true,
            is_full: false,
        }
    }

    // Behind one more name.
    fn after(self, name: &[u8]) -> Listing
        ensures { result ≡ after self name.now }
    {
        if self.is_full || name.is_empty() {
            self
        } else if self.room < name.len() {
            Listing {
                room: self.room,
                is_first: false,
                is_full: true,
            }
        } else {
            Listing {
                room: self.room - name.len(),
                is_first: false,
                is_full: false,
            }
        }
    }
}

// Appends the next name.
fn append_told(
    label: &[u8],
    listing: Listing,
    name: &[u8],
    out: &mut Vec<u8>,
) -> Result<(), NoMemory>
    ensures { OnOk result (out.new.items ≡ out.old.items ++ told label.now listing name.now) }
{
    if listing.is_full || name.is_empty() {
        return Ok(());
    }
    append_separator(label, listing.is_first, out)?;
    append_name(listing.room, name, out)
}

fn append_separator(label: &[u8], is_first: bool, out: &mut Vec<u8>) -> Result<(), NoMemory>
    ensures { OnOk result (out.new.items ≡ out.old.items ++ separator label.now is_first) }
{
    if is_first {
        append_text(label, out)
    } else {
        append_text(b", ", out)
    }
}

fn append_name(room: usize, name: &[u8], out: &mut Vec<u8>) -> Result<(), NoMemory>
    ensures { OnOk result (out.new.items ≡ out.old.items ++ name_or_dots room name.now) }
{
    if room < name.len() {
        append_text(b"..", out)
    } else {
        append_key(KeyKind::Str(0), name, out)
    }
}
