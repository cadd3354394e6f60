//! The lines of a round, handed to who writes them. No clause says what they are.

ghost use Rattle.std.specs.Prelude.{◌≡◌, [], IfOk, MatchOption};
ghost use Rattle.fleet_model.specs.Answers.{summed};
ghost use Rattle.logged_keys.specs.Values.{has_col, values_of};

use crate::lines::KeyLine;
use crate::round::{LeftOut, Round, Told};
use agg_types::{Col, Cond, Filter, Key, NoMemory};
use book::{Book, Summed};
use key_text::{append_key, append_number, append_text};
use std::alloc::Global;

/// Who writes lines.
pub trait KeyLines {
    /// Takes a line.
    fn note(&self, line: KeyLine<'_>);

    /// A line is lost: memory for it was refused.
    fn lose(&self);
}

impl<'l> Round<'l> {
    /// Hands the lines of a round over, by the book of its look: each change, and behind them the
    /// filters of which some aren't told.
    pub fn note<L: KeyLines>(&self, alloc: Global, book: &Book, lines: &L) {
        for told in &self.told {
            if note_change(alloc, book, *told, lines).is_err() {
                lines.lose();
            }
        }
        for left in &self.left_out {
            note_left_out(book, *left, lines);
        }
    }
}

// Hands over the line of a change.
fn note_change<L: KeyLines>(
    alloc: Global,
    book: &Book,
    told: Told<'_>,
    lines: &L,
) -> Result<(), NoMemory> {
    let config = book.config();
    let Some(filter) = config.filters.get(told.filter) else {
        return Ok(());
    };
    let Some(shape) = config.tables.get(filter.table) else {
        return Ok(());
    };
    let (name, change) = (filter.name.as_slice(), told.change);
    let mut key = Vec::new(alloc);
    append_key(shape.kind, change.key.as_slice(), &mut key)?;
    if change.is_in {
        let values = values_now(alloc, book, filter, &change.key)?;
        let values = values_text(alloc, values.as_slice())?;
        lines.note(KeyLine::Entered {
            filter: name,
            key: key.as_slice(),
            values: values.as_slice(),
        });
    } else {
        lines.note(KeyLine::Left {
            filter: name,
            key: key.as_slice(),
        });
    }
    Ok(())
}

// Hands over the line of a filter of which some changes aren't told.
fn note_left_out<L: KeyLines>(book: &Book, left: LeftOut, lines: &L) {
    if let Some(filter) = book.config().filters.get(left.filter) {
        lines.note(KeyLine::LeftOut {
            filter: filter.name.as_slice(),
            count: left.count,
        });
    }
}

// The fleet's sums of a filter's columns for a key; none where no peer has a row of it.
fn values_now(
    alloc: Global,
    book: &Book,
    filter: &Filter,
    key: &Key,
) -> Result<Vec<(Col, u128)>, NoMemory>
    ensures { IfOk result (λ values. MatchOption (summed book.now filter.now.table key.now)
        (values.items ≡ []) (λ sums. values.items ≡ values_of sums filter.now.conds)) }
{
    match book.summed(filter.table, key) {
        None => Ok(Vec::new(alloc)),
        Some(sums) => values_of(alloc, &sums, filter.conds.as_slice()),
    }
}

// Columns and their values, each behind a space.
fn values_text(alloc: Global, values: &[(Col, u128)]) -> Result<Vec<u8>, NoMemory> {
    let mut text = Vec::new(alloc);
    for (col, value) in values {
        append_text(b" ", &mut text)?;
        append_text(col.name().as_bytes(), &mut text)?;
        append_text(b"=", &mut text)?;
        append_number(*value, &mut text)?;
    }
    Ok(text)
}

// The sums of the columns of conditions, each column once, where it stands first.
fn values_of(alloc: Global, sums: &Summed, conds: &[Cond]) -> Result<Vec<(Col, u128)>, NoMemory>
    ensures { IfOk result (λ values. values.items ≡ values_of sums.now conds.now) }
{
    let mut values = Vec::new(alloc);
    for place in 0..conds.len() {
        let col = conds[place].col;
        if !has_col(&conds[..place], col) {
            values.push((col, sums.values[col.place()]))?;
        }
    }
    Ok(values)
}

fn has_col(conds: &[Cond], col: Col) -> bool
    ensures { result ≡ has_col col conds.now }
{
    conds.iter().any(|cond| cond.col.place() == col.place())
}
