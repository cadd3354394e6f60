//! Rows of one key that lie side by side, by peer.
ghost use Rattle.std.specs.Prelude.{◌≡◌, ◌≤◌, ◌++◌, length, take, drop};
ghost use Rattle.std.specs.Prelude.{IsTrue, IsOk, IsSome, IfNone, IfOk, IfSome, OnOk, OnErr};
ghost use Rattle.std.specs.Prelude.{MatchBool, MatchResult, None, Some, is_some};
ghost use Rattle.std.specs.Option.{option_copied};
ghost use Rattle.std.specs.Ordering.{nat_cmp};
ghost use Rattle.std.specs.Map.{lookup, remove_entry};
ghost use Rattle.std.specs.BTreeMap.{insert_entry, is_at};
ghost use Rattle.peer_rows.specs.Pages.{AreBefore, AreByPeer, AreFrom};
ghost use Rattle.peer_rows.specs.Peers.{IsFound, IsGap};

use crate::Row;
use agg_types::NoMemory;
use std::marker::Model;
use std::mem;

/// A row with the peer that holds it.
pub(crate) type PeerRow = (usize, Row);

const _: () = prove!(size_of::<PeerRow>() == 48);

/// With so many rows the last page is parted as a further row comes.
pub(crate) const PAGE: usize = 32;

/// Rows of one key that lie side by side, by peer. Contracts see the list of them.
#[derive(Drop)]
pub(crate) struct Page {
    pub(crate) rows: Vec<PeerRow>,
}

impl Model for Page {
    ghost use Rattle.std.specs.Prelude.{List, ℕ};
    ghost use Rattle.peer_rows.specs.declared.row.Row.{Row};

    ghost Value = { List (ℕ × Row) };

    ghost view = { λ page. page.rows.items };
}

impl Page {
    /// The rows.
    pub(crate) fn as_slice(&self) -> &[PeerRow]
        ensures { result.now ≡ self.now }
    {
        self.rows.as_slice()
    }

    /// How many there are.
    pub(crate) fn len(&self) -> usize
        ensures { result ≡ length self.now }
    {
        self.rows.len()
    }

    /// The row of a peer.
    pub(crate) fn get(&self, peer: usize) -> Option<&Row>
        requires { AreByPeer self.now }
        ensures { option_copied result ≡ lookup (is_at (nat_cmp peer)) self.now }
    {
        row_among(self.rows.as_slice(), peer)
    }

    /// Puts a peer's row in the place of an older one, which comes back. There will be at most so
    /// many rows, and any number is right.
    pub(crate) fn put(
        &mut self,
        peer: usize,
        row: Row,
        most: usize,
    ) -> Result<Option<Row>, NoMemory>
        requires { AreByPeer self.old }
        ensures ok { OnOk result (self.new ≡ insert_entry nat_cmp self.old peer row) }
        ensures old { IfOk result (λ old. old ≡ lookup (is_at (nat_cmp peer)) self.old) }
        ensures held { IsSome (lookup (is_at (nat_cmp peer)) self.old) → IsOk result }
        ensures err { OnErr result (self.new ≡ self.old) }
    {
        put_among(&mut self.rows, peer, row, most.min(PAGE))
    }

    /// Exchanges a peer's row for this one, if it is there.
    pub(crate) fn exchange(&mut self, peer: usize, row: &mut Row) -> bool
        requires { AreByPeer self.old }
        ensures found { result ≡ is_some (lookup (is_at (nat_cmp peer)) self.old) }
        ensures rows { MatchBool result (self.new ≡ insert_entry nat_cmp self.old peer row.old)
            (self.new ≡ self.old) }
        ensures row { MatchBool result
            (lookup (is_at (nat_cmp peer)) self.old ≡ Some row.new) (row.new ≡ row.old) }
    {
        exchange_among(&mut self.rows, peer, row)
    }

    /// Takes a peer's row out.
    pub(crate) fn take(&mut self, peer: usize) -> Option<Row>
        requires { AreByPeer self.old }
        ensures value { result ≡ lookup (is_at (nat_cmp peer)) self.old }
        ensures after { self.new ≡ remove_entry (is_at (nat_cmp peer)) self.old }
    {
        take_among(&mut self.rows, peer)
    }

    /// Takes the rows of peers from a number on out into a page of their own, with room for as many
    /// as a page has where there is memory for that. None says that memory for them was refused.
    pub(crate) fn part(&mut self, end: usize) -> Option<Page>
        requires { AreByPeer self.old }
        ensures none { IfNone result (self.new ≡ self.old) }
        ensures rows { IfSome result (λ later. self.old ≡ self.new ++ later) }
        ensures before { IfSome result (λ _. AreBefore end self.new) }
        ensures from { IfSome result (AreFrom end) }
    {
        let cut = cut_at(self.rows.as_slice(), end);
        let Ok(mut rows) = self.rows.split_off(cut) else {
            return None;
        };
        let _room = rows.reserve_exact(PAGE.saturating_sub(rows.len()));
        self.rows.shrink_to(room_for(cut));
        Some(Page { rows })
    }

    /// Puts in the row of a peer that has none, where the page is one of several.
    pub(crate) fn insert(&mut self, peer: usize, row: Row) -> Result<(), NoMemory>
        requires sorted { AreByPeer self.old }
        requires none { lookup (is_at (nat_cmp peer)) self.old ≡ None }
        ensures ok { OnOk result (self.new ≡ insert_entry nat_cmp self.old peer row) }
        ensures err { OnErr result (self.new ≡ self.old) }
    {
        let len = self.rows.len();
        if len == self.rows.capacity() {
            self.rows
                .reserve_exact(room_for(len + 1).saturating_sub(len))?;
        }
        put_among(&mut self.rows, peer, row, PAGE)?;
        Ok(())
    }

    /// Looks at where a row may lie, so that it is near when it is put: at a number, or at the
    /// last. Whether a row was found there that came at any moment but the last that there is, so
    /// always.
    pub(crate) fn touch(&self, number: usize) -> bool {
        match self.rows.get(number).or(self.rows.last()) {
            None => true,
            Some((own, row)) => *own != usize::MAX && row.arrived() != u64::MAX,
        }
    }
}

// Puts a row among those of several peers.
fn put_among(
    rows: &mut Vec<PeerRow>,
    peer: usize,
    row: Row,
    most: usize,
) -> Result<Option<Row>, NoMemory>
    requires { AreByPeer rows.old.items }
    ensures ok { OnOk result (rows.new.items ≡ insert_entry nat_cmp rows.old.items peer row) }
    ensures old { IfOk result (λ old. old ≡ lookup (is_at (nat_cmp peer)) rows.old.items) }
    ensures held { IsSome (lookup (is_at (nat_cmp peer)) rows.old.items) → IsOk result }
    ensures err { OnErr result (rows.new.items ≡ rows.old.items) }
{
    match find(rows.as_slice(), peer) {
        Ok(at) => Ok(Some(mem::replace(&mut rows[at].1, row))),
        Err(at) => {
            make_room(rows, most)?;
            rows.insert(at, (peer, row))?;
            Ok(None)
        }
    }
}

// Makes room for one row more: for all that may come once half of them are there, else for half as
// many again. So rows are moved seldom, and where each peer holds the key no room stays unused.
fn make_room(rows: &mut Vec<PeerRow>, most: usize) -> Result<(), NoMemory>
    ensures { rows.new.items ≡ rows.old.items }
{
    let len = rows.len();
    if len < rows.capacity() {
        return Ok(());
    }
    let left = most.saturating_sub(len);
    let more = if left <= len { left } else { len / 2 };
    Ok(rows.reserve_exact(more.max(1))?)
}

// Exchanges the row of a peer for another, if it is there.
fn exchange_among(rows: &mut Vec<PeerRow>, peer: usize, row: &mut Row) -> bool
    requires { AreByPeer rows.old.items }
    ensures found { result ≡ is_some (lookup (is_at (nat_cmp peer)) rows.old.items) }
    ensures rows { MatchBool result
        (rows.new.items ≡ insert_entry nat_cmp rows.old.items peer row.old)
        (rows.new.items ≡ rows.old.items) }
    ensures row { MatchBool result
        (lookup (is_at (nat_cmp peer)) rows.old.items ≡ Some row.new) (row.new ≡ row.old) }
{
    match find(rows.as_slice(), peer) {
        Ok(at) => {
            mem::swap(&mut rows[at].1, row);
            true
        }
        Err(_) => false,
    }
}

// Takes the row of a peer out.
fn take_among(rows: &mut Vec<PeerRow>, peer: usize) -> Option<Row>
    requires { AreByPeer rows.old.items }
    ensures value { result ≡ lookup (is_at (nat_cmp peer)) rows.old.items }
    ensures after { rows.new.items ≡ remove_entry (is_at (nat_cmp peer)) rows.old.items }
{
    match find(rows.as_slice(), peer) {
        Ok(at) => Some(rows.remove(at).1),
        Err(_) => None,
    }
}

// The row of a peer among those of several.
fn row_among(rows: &[PeerRow], peer: usize) -> Option<&Row>
    requires { AreByPeer rows.now }
    ensures { option_copied result ≡ lookup (is_at (nat_cmp peer)) rows.now }
{
    match find(rows, peer) {
        Ok(at) => Some(&rows[at].1),
        Err(_) => None,
    }
}

// Where the row of a peer stands among rows by peer, or else where it would stand. Where all peers
// hold the key, that is at its own number, and where those who don't come before it, by so many
// sooner.
fn find(rows: &[PeerRow], peer: usize) -> Result<usize, usize>
    requires { AreByPeer rows.now }
    ensures { MatchResult result (IsFound peer rows.now) (IsGap peer rows.now) }
{
    if stands_at(rows, peer, peer) {
        return Ok(peer);
    }
    let near = peer.saturating_sub(absent(rows));
    if stands_at(rows, near, peer) {
        return Ok(near);
    }
    rows.binary_search_by_key(&peer, |held| held.0)
}

// Whether the row of a peer stands at a place.
fn stands_at(rows: &[PeerRow], at: usize, peer: usize) -> bool
    requires { AreByPeer rows.now }
    ensures { IsTrue result → IsFound peer rows.now at }
{
    at < rows.len() && rows[at].0 == peer
}

// How many peers before that of the last row have none.
fn absent(rows: &[PeerRow]) -> usize {
    match rows.last() {
        None => 0,
        Some(last) => last.0.saturating_sub(rows.len().saturating_sub(1)),
    }
}

// How many rows are of peers before a number.
fn cut_at(rows: &[PeerRow], end: usize) -> usize
    requires { AreByPeer rows.now }
    ensures bound { result ≤ length rows.now }
    ensures before { AreBefore end (take result rows.now) }
    ensures from { AreFrom end (drop result rows.now) }
{
    match find(rows, end) {
        Ok(at) => at,
        Err(at) => at,
    }
}

// For how many rows a page has room that has so many: few sizes, so that blocks fit for others.
fn room_for(rows: usize) -> usize {
    match rows {
        0 => 0,
        1..=8 => 8,
        9..=16 => 16,
        17..=PAGE => PAGE,
        _ => rows,
    }
}
