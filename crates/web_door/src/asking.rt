//! Lists that are asked of a book.

ghost use Rattle.std.specs.Prelude.{◌<◌, length, IfOk};

use agg_types::{Declared, Named, NoMemory, Select};
use book::Book;
use key_text::read_key;
use show_clear::{Command, CommandFault, Question as Asked, parse};
use std::alloc::Global;
use thiserror::Error;
use web_lists::{filter_list, index, one_key, rank_list, row_list, table_list};
use web_target::{Part, Question};
use web_text::{AskFault, Entries};

/// Why a list isn't told.
#[derive(Debug, Drop, Error)]
pub enum ListFault {
    /// There is no table, filter or ranked list of this name.
    #[error("not found")]
    NoSuch,
    /// The conditions say nothing, or what stands for a key is none.
    #[error("{0}")]
    BadWhere(CommandFault),
    /// It can't be told as it is asked for, or an allocation failed.
    #[error("{0}")]
    Ask(#[from] AskFault),
}

impl From<NoMemory> for ListFault {
    fn from(refused: NoMemory) -> ListFault {
        ListFault::Ask(AskFault::from(refused))
    }
}

/// Which entries a part is.
pub fn entries_of(part: &Part) -> Entries<'_> {
    let after = match &part.after {
        None => None,
        Some(after) => Some(after.as_slice()),
    };
    Entries {
        limit: usize::try_from(part.limit).unwrap_or(usize::MAX),
        after,
    }
}

/// The list that a question asks of a book that answers for so many events. Other questions ask for
/// none.
pub fn list_of(
    alloc: Global,
    book: &Book,
    events: u64,
    question: &Question,
) -> Result<Vec<u8>, ListFault> {
    match question {
        Question::Index => Ok(index(alloc, book.config())?),
        Question::Table { name, conds, part } => {
            table_of(alloc, book, events, name.as_slice(), conds.as_slice(), part)
        }
        Question::Key { table, key } => {
            key_of(alloc, book, events, table.as_slice(), key.as_slice())
        }
        Question::Filter { name, part } => filter_of(alloc, book, events, name.as_slice(), part),
        Question::Rank { name, part } => rank_of(alloc, book, events, name.as_slice(), part),
        _ => Err(ListFault::NoSuch),
    }
}

/// The place of a declared name.
pub fn place_of<T: Named>(entries: &Declared<T>, name: &[u8]) -> Result<usize, ListFault>
    ensures { IfOk result (λ place. place < length entries.now) }
{
    match entries.position(name) {
        Some(place) if place < entries.len() => Ok(place),
        _ => Err(ListFault::NoSuch),
    }
}

fn filter_of(
    alloc: Global,
    book: &Book,
    events: u64,
    name: &[u8],
    part: &Part,
) -> Result<Vec<u8>, ListFault> {
    let place = place_of(&book.config().filters, name)?;
    Ok(filter_list(alloc, book, events, place, entries_of(part))?)
}

fn rank_of(
    alloc: Global,
    book: &Book,
    events: u64,
    name: &[u8],
    part: &Part,
) -> Result<Vec<u8>, ListFault> {
    let place = place_of(&book.config().ranks, name)?;
    Ok(rank_list(alloc, book, events, place, entries_of(part))?)
}

fn key_of(
    alloc: Global,
    book: &Book,
    events: u64,
    table: &[u8],
    text: &[u8],
) -> Result<Vec<u8>, ListFault> {
    let tables = &book.config().tables;
    let place = place_of(tables, table)?;
    match read_key(alloc, tables.as_slice()[place].kind, text)? {
        None => Err(ListFault::BadWhere(CommandFault::BadKey)),
        Some(key) => Ok(one_key(alloc, book, events, place, &key)?),
    }
}

fn table_of(
    alloc: Global,
    book: &Book,
    events: u64,
    name: &[u8],
    conds: &[u8],
    part: &Part,
) -> Result<Vec<u8>, ListFault> {
    let place = place_of(&book.config().tables, name)?;
    let entries = entries_of(part);
    match selection(alloc, book, name, conds)? {
        Select::All => Ok(table_list(alloc, book, events, place, &[], entries)?),
        Select::Conds(conds) => {
            Ok(table_list(alloc, book, events, place, conds.as_slice(), entries)?)
        }
        Select::One(key) => Ok(row_list(alloc, book, events, place, &key)?),
    }
}

// What the words behind a table's name in `show table` select.
fn selection(alloc: Global, book: &Book, name: &[u8], words: &[u8]) -> Result<Select, ListFault> {
    let mut line = Vec::new(alloc);
    push(&mut line, b"show table ")?;
    push(&mut line, name)?;
    push(&mut line, b" ")?;
    push(&mut line, words)?;
    match parse(alloc, book, line.as_slice()) {
        Ok(Command::Ask(Asked::Table { sel, .. })) => Ok(sel),
        Ok(_) => Err(ListFault::BadWhere(CommandFault::Unknown)),
        Err(CommandFault::NoMemory) => Err(ListFault::from(NoMemory)),
        Err(fault) => Err(ListFault::BadWhere(fault)),
    }
}

fn push(line: &mut Vec<u8>, text: &[u8]) -> Result<(), NoMemory> {
    line.extend_from_slice(text)?;
    Ok(())
}
