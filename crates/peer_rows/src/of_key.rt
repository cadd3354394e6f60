ghost use Rattle.std.specs.Prelude.{◌≡◌, ◌==◌, ◌≤◌, ℕ, [], ◌∷◌, ◌++◌, length, true};
ghost use Rattle.std.specs.Prelude.{IsTrue, ◌↔◌, IfNone, IfSome};
ghost use Rattle.std.specs.Iterator.{at_most};
ghost use Rattle.std.specs.Map.Iter.{TakesFirst};
ghost use Rattle.std.specs.Map.{keys_of};
ghost use Rattle.peer_rows.specs.Ends.{AreLive, HasEnded, IsLeast, is_behind, sooner};
ghost use Rattle.peer_rows.specs.Listing.{peer_and_row};
ghost use Rattle.peer_rows.specs.Most.{AreAbove, most_in};
ghost use Rattle.peer_rows.specs.Pages.{AreByPeer, joined};

use crate::Row;
use crate::key_rows::FEW;
use crate::mosts::most_among;
use crate::page::{Page, PeerRow};
use std::marker::Model;

/// Lends the rows of one key, each with the peer that holds it, by peer. Takes no memory.
///
/// Contracts see the list of what it has left.
#[derive(Drop)]
pub struct OfKey<'a> {
    one: Option<(usize, &'a Row)>,
    rows: &'a [PeerRow],
    // The pages behind these rows.
    later: &'a [Page],
    // How many rows are left.
    left: usize,
    // The most that the rows are worth together, by column, where it is kept.
    mosts: &'a [u64],
}

impl<'a> Model for OfKey<'a> {
    ghost use Rattle.std.specs.Prelude.{List, ℕ};
    ghost use Rattle.peer_rows.specs.declared.row.Row.{Row};
    ghost use Rattle.peer_rows.specs.Listing.{one_of};
    ghost use Rattle.std.specs.Prelude.{◌≡◌, ◌++◌, length};
    ghost use Rattle.peer_rows.specs.Most.{AreAbove};
    ghost use Rattle.peer_rows.specs.Pages.{joined};

    ghost Value = { List (ℕ × Row) };

    ghost view = { λ rows. one_of rows.one ++ rows.rows.now ++ joined rows.later.now };

    ghost invariant = { λ rows.
        AreAbove rows.mosts.now (one_of rows.one ++ rows.rows.now ++ joined rows.later.now)
        × (rows.left ≡ length (one_of rows.one ++ rows.rows.now ++ joined rows.later.now)) };
}

impl<'a> OfKey<'a> {
    // No row.
    pub(crate) fn none() -> OfKey<'a>
        ensures { result ≡ [] }
    {
        OfKey {
            one: None,
            rows: &[],
            later: &[],
            left: 0,
            mosts: &[],
        }
    }

    // This row of a peer.
    pub(crate) fn one(peer: usize, row: &'a Row) -> OfKey<'a>
        ensures { result ≡ (peer, row.now) ∷ [] }
    {
        OfKey {
            one: Some((peer, row)),
            rows: &[],
            later: &[],
            left: 1,
            mosts: &[],
        }
    }

    // These rows, with the most that they are worth together, where it is kept.
    pub(crate) fn new(rows: &'a [PeerRow], mosts: &'a [u64]) -> OfKey<'a>
        requires { AreAbove mosts.now rows.now }
        ensures { result ≡ rows.now }
    {
        OfKey {
            one: None,
            rows,
            later: &[],
            left: rows.len(),
            mosts,
        }
    }

    // The rows of these pages, of which there are so many, with the same.
    pub(crate) fn paged(pages: &'a [Page], len: usize, mosts: &'a [u64]) -> OfKey<'a>
        requires above { AreAbove mosts.now (joined pages.now) }
        requires len { len ≡ length (joined pages.now) }
        ensures { result ≡ joined pages.now }
    {
        OfKey {
            one: None,
            rows: &[],
            later: pages,
            left: len,
            mosts,
        }
    }

    /// The same rows once more: those that this has left.
    pub fn duplicate(&self) -> OfKey<'a>
        ensures { result ≡ self.now }
    {
        OfKey {
            one: self.one,
            rows: self.rows,
            later: self.later,
            left: self.left,
            mosts: self.mosts,
        }
    }

    /// The most that the rows that are left are worth together in a column at any moment, where it
    /// is at hand: by one number, or by a look at four rows at most.
    pub fn most(&self, col: usize) -> Option<u128>
        ensures { IfSome result (λ most. most_in col self.now ≤ most) }
    {
        match self.one {
            Some((_, row)) if self.left == 1 => Some(u128::from(row.most(col))),
            Some(_) => None,
            None => match self.mosts.get(col) {
                Some(most) => Some(u128::from(*most)),
                None => self.most_of_few(col),
            },
        }
    }

    // The same by a look at the rows, where they are few.
    fn most_of_few(&self, col: usize) -> Option<u128>
        ensures { IfSome result (λ most. most_in col self.now ≤ most) }
    {
        if self.one.is_none() && self.later.is_empty() && self.left <= FEW {
            most_among(self.rows, col)
        } else {
            None
        }
    }

    /// How many rows are left.
    pub fn len(&self) -> usize
        ensures { result ≡ length self.now }
    {
        self.left
    }

    /// Whether no row is left.
    pub fn is_empty(&self) -> bool
        ensures { result ≡ (length self.now == 0) }
    {
        self.left == 0
    }
}

impl<'a> Iterator for OfKey<'a> {
    type Item = (usize, &'a Row);

    ghost next_gives = { TakesFirst peer_and_row };

    ghost remaining = { λ rows. at_most (length rows) };

    fn next(&mut self) -> Option<(usize, &'a Row)> {
        if let Some(one) = self.one {
            self.one = None;
            self.left -= 1;
            return Some(one);
        }
        let (rows, later) = turned(self.rows, self.later);
        let (first, others) = rows.split_first()?;
        self.rows = others;
        self.later = later;
        self.left -= 1;
        Some((first.0, &first.1))
    }
}

// The first of some rows and of the pages behind them that isn't empty, with the pages behind that.
#[inline]
fn turned<'a>(rows: &'a [PeerRow], later: &'a [Page]) -> (&'a [PeerRow], &'a [Page])
    ensures rows { result.0.now ++ joined result.1.now ≡ rows.now ++ joined later.now }
    ensures last { result.0.now ≡ [] → joined result.1.now ≡ [] }
{
    if !rows.is_empty() {
        return (rows, later);
    }
    match later {
        [] => (rows, later),
        [page, others @ ..] => turned(page.as_slice(), others),
    }
}

/// Whether a peer's row is the only one.
pub(crate) fn is_only(rows: OfKey<'_>, peer: usize) -> bool
    ensures { IsTrue result ↔ (keys_of rows.entry ≡ peer ∷ []) }
{
    let mut left = rows;
    match left.next() {
        Some((own, _)) => own == peer && left.is_empty(),
        None => false,
    }
}

/// When the first of some rows ends, if one does.
pub(crate) fn least_end(rows: OfKey<'_>) -> Option<u64>
    ensures least { IsLeast rows.entry result }
    ensures behind { (t : ℕ) → AreLive t rows.entry → is_behind t result ≡ true }
{
    let mut left = rows;
    match left.next() {
        None => None,
        Some((_, row)) => sooner(row.end(), least_end(left)),
    }
}

// The sooner of two moments, where there are both, and else the one that there is.
fn sooner(a: Option<u64>, b: Option<u64>) -> Option<u64>
    ensures { result ≡ sooner a b }
{
    match (a, b) {
        (Some(first), Some(other)) => Some(first.min(other)),
        (Some(first), None) => Some(first),
        (None, other) => other,
    }
}

/// The first peer whose row has ended at a moment.
pub(crate) fn first_ended(rows: OfKey<'_>, t: u64) -> Option<usize>
    ensures some { AreByPeer rows.entry → IfSome result (HasEnded t rows.entry) }
    ensures none { IfNone result (AreLive t rows.entry) }
{
    let mut left = rows;
    match left.next() {
        None => None,
        Some((peer, row)) => {
            if row.is_live(t) {
                first_ended(left, t)
            } else {
                Some(peer)
            }
        }
    }
}
