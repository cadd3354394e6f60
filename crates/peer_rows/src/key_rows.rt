//! The rows of one key, in the form that fits how many there are.
ghost use Rattle.std.specs.Prelude.{◌≡◌, ◌≢◌, List, [], ◌∷◌, length};
ghost use Rattle.std.specs.Prelude.{◌==◌, IsTrue, ◌↔◌, IsOk, IsSome, IfOk, OnOk, OnErr};
ghost use Rattle.std.specs.Prelude.{MatchBool, MatchOption, Some, is_some, IfSome, IfNone, ℕ, true};
ghost use Rattle.std.specs.Prelude.{◌≤◌};
ghost use Rattle.std.specs.Option.{option_copied, option_map};
ghost use Rattle.std.specs.Ordering.{nat_cmp};
ghost use Rattle.std.specs.Map.{keys_of, lookup, remove_entry};
ghost use Rattle.std.specs.BTreeMap.{insert_entry, is_at};
ghost use Rattle.agg_types.specs.declared.limits.TheConstants.{LAST_MOMENT};
ghost use Rattle.peer_rows.specs.Arriving.{arrived_row};
ghost use Rattle.peer_rows.specs.Ends.{AreLive, HasEnded, IsLeast, end_of, is_behind};
ghost use Rattle.peer_rows.specs.Peers.{IsOne, ArePeers, AreSummed, held_by};

use crate::mosts::Mosts;
use crate::of_key::{first_ended, is_only, least_end};
use crate::page::{PAGE, Page, PeerRow};
use crate::pages::Pages;
use crate::{Arrival, OfKey, Row};
use agg_types::NoMemory;
use std::alloc::Global;
use std::marker::Model;
use std::mem;

const _: () = prove!(size_of::<KeyRows>() == 48);

/// Up to so many rows are looked at as their most is asked for. Sums of so few are kept only where
/// there were more once.
pub(crate) const FEW: usize = 4;

/// The rows of one key: at least one, each with the peer that holds it, by peer.
///
/// A single row lies in the value itself and takes no memory beside it; several lie side by side,
/// and many in pages.
#[derive(Drop)]
pub(crate) struct KeyRows {
    peers: Peers,
    alloc: Global,
}

#[derive(Drop)]
enum Peers {
    // In this order the peer lies beside the tag.
    One(u32, Row),
    Few(Page),
    // Beside them stands the most that they are worth together.
    Many(Page, Mosts),
    Paged(Pages, Mosts),
}

impl Model for KeyRows {
    ghost use Rattle.std.specs.Prelude.{List, ℕ};
    ghost use Rattle.peer_rows.specs.declared.row.Row.{Row};
    ghost use Rattle.peer_rows.specs.Ends.{AreLive, HasEnded, IsLeast, is_behind};
    ghost use Rattle.peer_rows.specs.Peers.{held_by, ArePeers, AreSummed};

    ghost Value = { List (ℕ × Row) };

    ghost view = { λ rows. held_by rows.peers };

    ghost invariant = { λ rows. ArePeers (held_by rows.peers) × AreSummed rows.peers };
}

impl KeyRows {
    /// The one row of a key.
    pub(crate) fn new(alloc: Global, peer: u32, row: Row) -> KeyRows
        ensures { result ≡ (peer, row) ∷ [] }
    {
        KeyRows {
            peers: Peers::One(peer, row),
            alloc,
        }
    }

    /// The row of a peer.
    pub(crate) fn get(&self, peer: usize) -> Option<&Row>
        ensures { option_copied result ≡ lookup (is_at (nat_cmp peer)) self.now }
    {
        match &self.peers {
            Peers::One(own, row) => {
                if *own as usize == peer {
                    Some(row)
                } else {
                    None
                }
            }
            Peers::Few(page) => page.get(peer),
            Peers::Many(page, _) => page.get(peer),
            Peers::Paged(pages, _) => pages.get(peer),
        }
    }

    /// Puts a peer's row in the place of an older one, which comes back. There are at most so many
    /// rows, and any number is right.
    pub(crate) fn put(
        &mut self,
        peer: usize,
        row: Row,
        most: usize,
    ) -> Result<Option<Row>, NoMemory>
        ensures ok { OnOk result (self.new ≡ insert_entry nat_cmp self.old peer row) }
        ensures old { IfOk result (λ old. old ≡ lookup (is_at (nat_cmp peer)) self.old) }
        ensures held { IsSome (lookup (is_at (nat_cmp peer)) self.old) → IsOk result }
        ensures err { OnErr result (self.new ≡ self.old) }
        ensures are { ArePeers self.new }
    {
        let old = put_into(self.alloc, &mut self.peers, peer, row, most)?;
        grow(self.alloc, &mut self.peers, most);
        Ok(old)
    }

    /// Exchanges a peer's row for this one, if it holds one.
    #[inline(always)]
    pub(crate) fn exchange(&mut self, peer: usize, row: &mut Row) -> bool
        ensures found { result ≡ is_some (lookup (is_at (nat_cmp peer)) self.old) }
        ensures rows { MatchBool result (self.new ≡ insert_entry nat_cmp self.old peer row.old)
            (self.new ≡ self.old) }
        ensures row { MatchBool result
            (lookup (is_at (nat_cmp peer)) self.old ≡ Some row.new) (row.new ≡ row.old) }
        ensures are { ArePeers self.new }
    {
        match &mut self.peers {
            Peers::One(own, held) => exchange_one(*own, held, peer, row),
            _ => exchange_among(&mut self.peers, peer, row),
        }
    }

    /// Makes a peer's row one of cells that arrive, if it holds one and they can be laid there, and
    /// answers the end of the row that was. None says that nothing has changed.
    #[inline(always)]
    pub(crate) fn arrive(&mut self, peer: usize, arrival: &Arrival<'_>) -> Option<Option<u64>>
        requires { arrival.now.t ≤ LAST_MOMENT }
        ensures rows { MatchOption result (self.new ≡ self.old)
            (λ _. self.new ≡ insert_entry nat_cmp self.old peer (arrived_row arrival.now)) }
        ensures end { IfSome result (λ end.
            option_map end_of (lookup (is_at (nat_cmp peer)) self.old) ≡ Some end) }
        ensures are { ArePeers self.new }
    {
        match &mut self.peers {
            Peers::One(own, held) => arrive_one(*own, held, peer, arrival),
            _ => arrive_among(&mut self.peers, peer, arrival),
        }
    }

    /// Looks at where a peer's row may lie among several, so that it is near when it is put. So
    /// always.
    pub(crate) fn touch(&self, peer: usize) -> bool {
        match &self.peers {
            Peers::One(_, _) => true,
            Peers::Few(page) => page.touch(peer),
            Peers::Many(page, _) => page.touch(peer),
            Peers::Paged(pages, _) => pages.touch(peer),
        }
    }

    /// Whether a peer's row is the only one.
    pub(crate) fn is_only(&self, peer: usize) -> bool
        ensures { IsTrue result ↔ (keys_of self.now ≡ peer ∷ []) }
    {
        match &self.peers {
            Peers::One(own, _) => *own as usize == peer,
            _ => is_only(self.iter(), peer),
        }
    }

    /// Takes a peer's row out, which isn't the only one.
    pub(crate) fn take(&mut self, peer: usize) -> Option<Row>
        requires { keys_of self.old ≢ peer ∷ [] }
        ensures value { result ≡ lookup (is_at (nat_cmp peer)) self.old }
        ensures after { self.new ≡ remove_entry (is_at (nat_cmp peer)) self.old }
        ensures are { ArePeers self.new }
    {
        take_from(&mut self.peers, peer)
    }

    /// Gives a peer's row back, and drops the others.
    pub(crate) fn into_row(self, peer: usize) -> Option<Row>
        ensures { result ≡ lookup (is_at (nat_cmp peer)) self }
    {
        let KeyRows { peers, .. } = self;
        match peers {
            Peers::One(own, row) => {
                if own as usize == peer {
                    Some(row)
                } else {
                    None
                }
            }
            Peers::Few(mut page) => page.take(peer),
            Peers::Many(mut page, _) => page.take(peer),
            Peers::Paged(mut pages, _) => pages.take(peer),
        }
    }

    /// When the first of the rows ends, if one does.
    pub(crate) fn least_end(&self) -> Option<u64>
        ensures least { IsLeast self.now result }
        ensures behind { (t : ℕ) → AreLive t self.now → is_behind t result ≡ true }
    {
        match &self.peers {
            Peers::One(_, row) => row.end(),
            _ => least_end(self.iter()),
        }
    }

    /// A peer whose row has ended at a moment.
    pub(crate) fn first_ended(&self, t: u64) -> Option<usize>
        ensures some { IfSome result (HasEnded t self.now) }
        ensures none { IfNone result (AreLive t self.now) }
    {
        match &self.peers {
            Peers::One(own, row) => {
                if row.is_live(t) {
                    None
                } else {
                    Some(*own as usize)
                }
            }
            _ => first_ended(self.iter(), t),
        }
    }

    /// The peer of the only row, if that has ended at a moment.
    pub(crate) fn only_ended(&self, t: u64) -> Option<usize>
        ensures ended { IfSome result (HasEnded t self.now) }
        ensures only { IfSome result (λ peer. keys_of self.now ≡ peer ∷ []) }
    {
        match &self.peers {
            Peers::One(own, row) => {
                if row.is_live(t) {
                    None
                } else {
                    Some(*own as usize)
                }
            }
            _ => None,
        }
    }

    /// How many rows there are.
    pub(crate) fn len(&self) -> usize
        ensures { result ≡ length self.now }
    {
        self.iter().len()
    }

    /// The rows with their peers, by peer.
    pub(crate) fn iter(&self) -> OfKey<'_>
        ensures rows { result ≡ self.now }
        ensures some { self.now ≢ [] }
    {
        match &self.peers {
            Peers::One(peer, row) => OfKey::one(*peer as usize, row),
            Peers::Few(page) => OfKey::new(page.as_slice(), &[]),
            Peers::Many(page, mosts) => OfKey::new(page.as_slice(), mosts.as_slice()),
            Peers::Paged(pages, mosts) => pages.iter(mosts.as_slice()),
        }
    }
}

// Puts a peer's row in the place of an older one, which comes back, and keeps up the most that the
// rows are worth together.
fn put_into(
    alloc: Global,
    peers: &mut Peers,
    peer: usize,
    row: Row,
    most: usize,
) -> Result<Option<Row>, NoMemory>
    requires are { ArePeers (held_by peers.old) }
    requires summed { AreSummed peers.old }
    ensures ok { OnOk result
        (held_by peers.new ≡ insert_entry nat_cmp (held_by peers.old) peer row) }
    ensures old { IfOk result (λ old. old ≡ lookup (is_at (nat_cmp peer)) (held_by peers.old)) }
    ensures held { IsSome (lookup (is_at (nat_cmp peer)) (held_by peers.old)) → IsOk result }
    ensures err { OnErr result (held_by peers.new ≡ held_by peers.old) }
    ensures summed { AreSummed peers.new }
{
    match peers {
        Peers::One(own, held) if *own as usize == peer => Ok(Some(mem::replace(held, row))),
        Peers::One(_, _) => {
            put_second(alloc, peers, (peer, row))?;
            Ok(None)
        }
        Peers::Few(page) => page.put(peer, row, most),
        Peers::Many(page, mosts) => {
            let old = page.put(peer, row, most)?;
            mosts.add(page.get(peer));
            mosts.take_off(old.as_ref());
            Ok(old)
        }
        Peers::Paged(pages, mosts) => {
            let old = pages.put(peer, row)?;
            mosts.add(pages.get(peer));
            mosts.take_off(old.as_ref());
            Ok(old)
        }
    }
}

// Puts the row of a second peer beside the one of the first.
fn put_second(alloc: Global, peers: &mut Peers, new: PeerRow) -> Result<(), NoMemory>
    requires one { IsOne peers.old }
    requires apart { keys_of (held_by peers.old) ≢ new.0 ∷ [] }
    ensures ok { OnOk result (held_by peers.new
        ≡ insert_entry nat_cmp (held_by peers.old) new.0 new.1) }
    ensures err { OnErr result (peers.new ≡ peers.old) }
    ensures summed { OnOk result (AreSummed peers.new) }
{
    let mut rows = Vec::with_capacity(alloc, 2)?;
    let nothing = Peers::One(0, Row::blank());
    let Peers::One(own, held) = mem::replace(peers, nothing) else {
        unreachable!();
    };
    let held = (own as usize, held);
    let (first, second) = if held.0 < new.0 {
        (held, new)
    } else {
        (new, held)
    };
    let _ = rows.push(first);
    let _ = rows.push(second);
    *peers = Peers::Few(Page { rows });
    Ok(())
}

// Gives rows the form that so many want, where there is memory for it, and where there will be at
// most so many.
fn grow(alloc: Global, peers: &mut Peers, most: usize)
    requires are { ArePeers (held_by peers.old) }
    requires summed { AreSummed peers.old }
    ensures rows { held_by peers.new ≡ held_by peers.old }
    ensures summed { AreSummed peers.new }
{
    match peers {
        Peers::Few(page) if page.len() > FEW => sum_up(alloc, peers),
        Peers::Many(page, _) if page.len() >= PAGE && most > PAGE => lay_in_pages(alloc, peers),
        _ => {}
    }
}

// Sums rows up that were few, if there is memory for their sums.
fn sum_up(alloc: Global, peers: &mut Peers)
    requires summed { AreSummed peers.old }
    ensures rows { held_by peers.new ≡ held_by peers.old }
    ensures summed { AreSummed peers.new }
{
    let Peers::Few(page) = &*peers else {
        return;
    };
    let Ok(mosts) = Mosts::of(alloc, page.as_slice()) else {
        return;
    };
    let nothing = Peers::One(0, Row::blank());
    let Peers::Few(page) = mem::replace(peers, nothing) else {
        unreachable!();
    };
    *peers = Peers::Many(page, mosts);
}

// Makes of rows that lie side by side a first page, if there is memory for the list of pages.
fn lay_in_pages(alloc: Global, peers: &mut Peers)
    requires are { ArePeers (held_by peers.old) }
    requires summed { AreSummed peers.old }
    ensures rows { held_by peers.new ≡ held_by peers.old }
    ensures summed { AreSummed peers.new }
{
    let Peers::Many(page, _) = &*peers else {
        return;
    };
    let len = page.len();
    let Ok(mut pages) = Vec::with_capacity(alloc, 2) else {
        return;
    };
    let nothing = Peers::One(0, Row::blank());
    let Peers::Many(page, mosts) = mem::replace(peers, nothing) else {
        unreachable!();
    };
    let _ = pages.push(page);
    *peers = Peers::Paged(Pages { pages, len }, mosts);
}

// Exchanges a row, if it is the peer's.
#[inline(always)]
fn exchange_one(own: u32, held: &mut Row, peer: usize, row: &mut Row) -> bool
    ensures found { result ≡ (own == peer) }
    ensures rows { MatchBool result (held.new ≡ row.old) (held.new ≡ held.old) }
    ensures row { MatchBool result (row.new ≡ held.old) (row.new ≡ row.old) }
{
    if own as usize != peer {
        return false;
    }
    mem::swap(held, row);
    true
}

// Exchanges a peer's row for this one, if it is there, and keeps up the most that the rows are
// worth together.
#[inline(never)]
fn exchange_among(peers: &mut Peers, peer: usize, row: &mut Row) -> bool
    requires are { ArePeers (held_by peers.old) }
    requires summed { AreSummed peers.old }
    ensures found { result ≡ is_some (lookup (is_at (nat_cmp peer)) (held_by peers.old)) }
    ensures rows { MatchBool result
        (held_by peers.new ≡ insert_entry nat_cmp (held_by peers.old) peer row.old)
        (held_by peers.new ≡ held_by peers.old) }
    ensures row { MatchBool result
        (lookup (is_at (nat_cmp peer)) (held_by peers.old) ≡ Some row.new) (row.new ≡ row.old) }
    ensures summed { AreSummed peers.new }
{
    match peers {
        Peers::One(own, held) => exchange_one(*own, held, peer, row),
        Peers::Few(page) => page.exchange(peer, row),
        Peers::Many(page, mosts) => {
            mosts.add(Some(row));
            let found = page.exchange(peer, row);
            mosts.take_off(Some(row));
            found
        }
        Peers::Paged(pages, mosts) => {
            mosts.add(Some(row));
            let found = pages.exchange(peer, row);
            mosts.take_off(Some(row));
            found
        }
    }
}

// Makes a row one of cells that arrive, if it is the peer's and they can be laid there.
#[inline(always)]
fn arrive_one(own: u32, held: &mut Row, peer: usize, arrival: &Arrival<'_>) -> Option<Option<u64>>
    requires { arrival.now.t ≤ LAST_MOMENT }
    ensures own { IfSome result (λ _. own ≡ peer) }
    ensures row { MatchOption result (held.new ≡ held.old)
        (λ _. held.new ≡ arrived_row arrival.now) }
    ensures end { IfSome result (λ end. end ≡ end_of held.old) }
{
    if own as usize != peer {
        return None;
    }
    let end = held.end();
    if held.arrive(arrival) {
        Some(end)
    } else {
        None
    }
}

// The same with a row that is made beside the others and exchanged for the peer's.
#[inline(never)]
fn arrive_among(peers: &mut Peers, peer: usize, arrival: &Arrival<'_>) -> Option<Option<u64>>
    requires early { arrival.now.t ≤ LAST_MOMENT }
    requires are { ArePeers (held_by peers.old) }
    requires summed { AreSummed peers.old }
    ensures rows { MatchOption result (held_by peers.new ≡ held_by peers.old)
        (λ _. held_by peers.new
        ≡ insert_entry nat_cmp (held_by peers.old) peer (arrived_row arrival.now)) }
    ensures end { IfSome result (λ end.
        option_map end_of (lookup (is_at (nat_cmp peer)) (held_by peers.old)) ≡ Some end) }
    ensures summed { AreSummed peers.new }
{
    let mut row = Row::blank();
    if !row.arrive(arrival) {
        return None;
    }
    if !exchange_among(peers, peer, &mut row) {
        return None;
    }
    Some(row.end())
}

// Takes a peer's row out, and off the most that the rows are worth together. One row alone stays.
fn take_from(peers: &mut Peers, peer: usize) -> Option<Row>
    requires are { ArePeers (held_by peers.old) }
    requires several { keys_of (held_by peers.old) ≢ peer ∷ [] }
    requires summed { AreSummed peers.old }
    ensures value { result ≡ lookup (is_at (nat_cmp peer)) (held_by peers.old) }
    ensures after { held_by peers.new
        ≡ remove_entry (is_at (nat_cmp peer)) (held_by peers.old) }
    ensures summed { AreSummed peers.new }
{
    match peers {
        Peers::One(_, _) => None,
        Peers::Few(page) => page.take(peer),
        Peers::Many(page, mosts) => {
            let row = page.take(peer);
            mosts.take_off(row.as_ref());
            row
        }
        Peers::Paged(pages, mosts) => {
            let row = pages.take(peer);
            mosts.take_off(row.as_ref());
            row
        }
    }
}
