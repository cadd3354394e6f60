//! The most that the rows of a key are worth together, column by column.
//!
//! Of more than a few rows it is kept up as rows come and go, so that who asks whether a key can
//! meet a bound at all reads one number, however many these are.

ghost use Rattle.std.specs.Prelude.{◌≡◌, ◌≤◌, ℕ, [], length, IfOk, IfSome, IsTrue};
ghost use Rattle.std.specs.Option.{option_copied};
ghost use Rattle.peer_rows.specs.Most.{AreAdded, AreMosts, AreRaised, most_in};

use crate::Row;
use crate::page::PeerRow;
use agg_types::NoMemory;
use std::alloc::Global;
use std::marker::Model;

/// Sums over rows of the most that each is worth at any moment, for the first columns. Contracts
/// see the list of them. It takes eight bytes, so that it adds nothing to the place of a key of one
/// row.
#[derive(Drop)]
pub(crate) struct Mosts {
    sums: Box<Vec<u64>>,
}

const _: () = prove!(size_of::<Mosts>() == 8);

impl Model for Mosts {
    ghost use Rattle.std.specs.Prelude.{List, ℕ};

    ghost Value = { List ℕ };

    ghost view = { λ mosts. mosts.sums.value.items };
}

impl Mosts {
    // Those of no row, for so many columns.
    fn none(alloc: Global, columns: usize) -> Result<Mosts, NoMemory>
        ensures { IfOk result (λ mosts. AreMosts mosts []) }
    {
        Ok(Mosts {
            sums: Box::new(alloc, vec![in alloc; 0u64; columns]?)?,
        })
    }

    /// Those of some rows, for the columns of the last.
    pub(crate) fn of(alloc: Global, rows: &[PeerRow]) -> Result<Mosts, NoMemory>
        ensures { IfOk result (λ mosts. AreMosts mosts rows.now) }
    {
        let columns = match rows.last() {
            Some((_, row)) => row.width(),
            None => 0,
        };
        Mosts::of_columns(alloc, rows, columns)
    }

    // Those of some rows, for so many columns.
    fn of_columns(alloc: Global, rows: &[PeerRow], columns: usize) -> Result<Mosts, NoMemory>
        ensures { IfOk result (λ mosts. AreMosts mosts rows.now) }
    {
        match rows {
            [] => Mosts::none(alloc, columns),
            [first, others @ ..] => {
                let mut mosts = Mosts::of_columns(alloc, others, columns)?;
                mosts.add(Some(&first.1));
                Ok(mosts)
            }
        }
    }

    /// The sums, by column.
    pub(crate) fn as_slice(&self) -> &[u64]
        ensures { result.now ≡ self.now }
    {
        self.sums.as_slice()
    }

    /// A row comes, if there is one. Sums that would no longer fit are given up.
    pub(crate) fn add(&mut self, row: Option<&Row>)
        ensures columns { length self.new ≤ length self.old }
        ensures sums { AreRaised (option_copied row.entry) self.old self.new (length self.new) }
    {
        if let Some(row) = row {
            if !add_each(self.sums.as_mut_slice(), row) {
                self.sums.clear();
            }
        }
    }

    /// A row goes that had come, if there is one.
    pub(crate) fn take_off(&mut self, row: Option<&Row>)
        ensures columns { length self.new ≤ length self.old }
        ensures sums { AreRaised (option_copied row.entry) self.new self.old (length self.new) }
    {
        if let Some(row) = row {
            if !take_each(self.sums.as_mut_slice(), row) {
                self.sums.clear();
            }
        }
    }
}

/// The most that a few rows are worth together in a column, by a walk over them. None says that it
/// doesn't fit in 128 bits.
pub(crate) fn most_among(rows: &[PeerRow], col: usize) -> Option<u128>
    ensures { IfSome result (λ most. most_in col rows.now ≤ most) }
{
    match rows {
        [] => Some(0),
        [first, others @ ..] => {
            most_among(others, col)?.checked_add(u128::from(first.1.most(col)))
        }
    }
}

// Adds the most that each cell is worth to its column's sum, if all fit.
fn add_each(sums: &mut [u64], row: &Row) -> bool
    ensures columns { length sums.new ≡ length sums.old }
    ensures sums { IsTrue result
        → AreAdded row.now.cells sums.old sums.new (length sums.new) }
{
    for col in 0..sums.len() {
        let Some(sum) = sums[col].checked_add(row.most(col)) else {
            return false;
        };
        sums[col] = sum;
    }
    true
}

// Takes the most that each cell is worth off its column's sum, if it is in there.
fn take_each(sums: &mut [u64], row: &Row) -> bool
    ensures columns { length sums.new ≡ length sums.old }
    ensures sums { IsTrue result
        → AreAdded row.now.cells sums.new sums.old (length sums.new) }
{
    for col in 0..sums.len() {
        let Some(sum) = sums[col].checked_sub(row.most(col)) else {
            return false;
        };
        sums[col] = sum;
    }
    true
}
