//! The rows of a key that many peers hold: in pages by the numbers of the peers, so that a further
//! peer's row moves few others, and a peer's page is found by its number.
ghost use Rattle.std.specs.Prelude.{◌≡◌, ◌<◌, length, IsOk, IsSome, IfOk, OnOk, OnErr};
ghost use Rattle.std.specs.Prelude.{MatchBool, Some, is_some};
ghost use Rattle.std.specs.Option.{option_copied};
ghost use Rattle.std.specs.Ordering.{nat_cmp};
ghost use Rattle.std.specs.Map.{lookup, remove_entry};
ghost use Rattle.std.specs.BTreeMap.{insert_entry, is_at};
ghost use Rattle.peer_rows.specs.Most.{AreAbove};
ghost use Rattle.peer_rows.specs.Pages.{ArePages, IsPageOf, joined};

use crate::page::{PAGE, Page};
use crate::{OfKey, Row};
use agg_types::NoMemory;
use std::marker::Model;

/// Rows by peer, in pages: each has the rows of 32 peers, but the last one has those of all others.
/// A last page that is full is parted before a further row comes to it, where there is memory for
/// that. Contracts see the list of the rows.
#[derive(Drop)]
pub(crate) struct Pages {
    pub(crate) pages: Vec<Page>,
    // How many rows there are.
    pub(crate) len: usize,
}

impl Model for Pages {
    ghost use Rattle.std.specs.Prelude.{◌≡◌, List, ℕ, length};
    ghost use Rattle.peer_rows.specs.declared.row.Row.{Row};
    ghost use Rattle.peer_rows.specs.Pages.{ArePages, joined};

    ghost Value = { List (ℕ × Row) };

    ghost view = { λ rows. joined rows.pages.items };

    ghost invariant = { λ rows. ArePages 0 rows.pages.items
        × (rows.len ≡ length (joined rows.pages.items)) };
}

impl Pages {
    /// The row of a peer.
    pub(crate) fn get(&self, peer: usize) -> Option<&Row>
        ensures { option_copied result ≡ lookup (is_at (nat_cmp peer)) self.now }
    {
        let at = page_of(self.pages.as_slice(), peer);
        self.pages[at].get(peer)
    }

    /// Puts a peer's row in the place of an older one, which comes back.
    pub(crate) fn put(&mut self, peer: usize, row: Row) -> Result<Option<Row>, NoMemory>
        ensures ok { OnOk result (self.new ≡ insert_entry nat_cmp self.old peer row) }
        ensures old { IfOk result (λ old. old ≡ lookup (is_at (nat_cmp peer)) self.old) }
        ensures held { IsSome (lookup (is_at (nat_cmp peer)) self.old) → IsOk result }
        ensures err { OnErr result (self.new ≡ self.old) }
    {
        let mut row = row;
        if self.exchange(peer, &mut row) {
            return Ok(Some(row));
        }
        self.insert(peer, row)?;
        Ok(None)
    }

    /// Exchanges a peer's row for this one, if it is there.
    pub(crate) fn exchange(&mut self, peer: usize, row: &mut Row) -> bool
        ensures found { result ≡ is_some (lookup (is_at (nat_cmp peer)) self.old) }
        ensures rows { MatchBool result (self.new ≡ insert_entry nat_cmp self.old peer row.old)
            (self.new ≡ self.old) }
        ensures row { MatchBool result
            (lookup (is_at (nat_cmp peer)) self.old ≡ Some row.new) (row.new ≡ row.old) }
    {
        let at = page_of(self.pages.as_slice(), peer);
        self.pages[at].exchange(peer, row)
    }

    /// Takes a peer's row out.
    pub(crate) fn take(&mut self, peer: usize) -> Option<Row>
        ensures value { result ≡ lookup (is_at (nat_cmp peer)) self.old }
        ensures after { self.new ≡ remove_entry (is_at (nat_cmp peer)) self.old }
    {
        let at = page_of(self.pages.as_slice(), peer);
        let row = self.pages[at].take(peer)?;
        self.len -= 1;
        Some(row)
    }

    /// Looks at where a peer's row may lie, so that it is near when it is put. So always.
    pub(crate) fn touch(&self, peer: usize) -> bool {
        let at = page_of(self.pages.as_slice(), peer);
        self.pages[at].touch(peer % PAGE)
    }

    /// The rows with their peers, by peer, with the most that they are worth together.
    pub(crate) fn iter<'a>(&'a self, mosts: &'a [u64]) -> OfKey<'a>
        requires { AreAbove mosts.now self.now }
        ensures { result ≡ self.now }
    {
        OfKey::paged(self.pages.as_slice(), self.len, mosts)
    }

    // Puts in the row of a peer that has none. After NoMemory nothing has changed.
    fn insert(&mut self, peer: usize, row: Row) -> Result<(), NoMemory>
        requires { lookup (is_at (nat_cmp peer)) self.old ≡ None }
        ensures ok { OnOk result (self.new ≡ insert_entry nat_cmp self.old peer row) }
        ensures err { OnErr result (self.new ≡ self.old) }
    {
        let Some(len) = self.len.checked_add(1) else {
            return Err(NoMemory);
        };
        part_last(&mut self.pages, peer);
        let at = page_of(self.pages.as_slice(), peer);
        self.pages[at].insert(peer, row)?;
        self.len = len;
        Ok(())
    }
}

// The number of the page that a peer's row is in, or would be.
fn page_of(pages: &[Page], peer: usize) -> usize
    requires { ArePages 0 pages.now }
    ensures within { result < length pages.now }
    ensures page { IsPageOf peer 0 pages.now result }
{
    let last = pages.len().saturating_sub(1);
    (peer / PAGE).min(last)
}

// Parts the last page where a peer's row comes to it, it is full, and there is memory for one more.
fn part_last(pages: &mut Vec<Page>, peer: usize)
    requires { ArePages 0 pages.old.items }
    ensures are { ArePages 0 pages.new.items }
    ensures rows { joined pages.new.items ≡ joined pages.old.items }
{
    let Some(end) = pages.len().checked_mul(PAGE) else {
        return;
    };
    match pages.last() {
        Some(last) if last.len() >= PAGE && peer / PAGE + 1 >= pages.len() => {}
        _ => return,
    }
    if pages.reserve(1).is_err() {
        return;
    }
    let Some(mut last) = pages.pop() else {
        return;
    };
    let later = last.part(end);
    let _ = pages.push(last);
    if let Some(later) = later {
        let _ = pages.push(later);
    }
}
