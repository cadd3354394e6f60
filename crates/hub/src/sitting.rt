//! What a pass keeps of its own seat.

ghost use Rattle.std.specs.Prelude.{◌≡◌, ◌≤◌, false, length, replicate, take, IfOk};
ghost use Rattle.std.specs.Bool.{then_some};
ghost use Rattle.std.specs.List.{list_any};
ghost use Rattle.agg_types.specs.Whats.{as_what};
ghost use Rattle.fleet_model.specs.Rows.{putter};
ghost use Rattle.fleet_model.specs.Sessions.{opens};
ghost use Rattle.hub.specs.Posts.{is_put};
ghost use Rattle.hub.specs.Sitting.{opened_after, replacer, replacer_at};

use crate::roll::Roll;
use agg_types::{LentWhat, NoMemory, What, Whats};
use std::alloc::Global;
use std::marker::Model;

/// A seat, the number of its next event, and which peers it opened.
#[derive(Drop)]
pub struct Sitting {
    seat: u64,
    number: u64,
    opened: Vec<bool>,
}

impl Model for Sitting {
    ghost use Rattle.hub.specs.Sitting.{Recalled};

    ghost Value = { Recalled };

    ghost view = { λ s.
        record { seat = s.seat; number = s.number; opened = s.opened.items } };
}

impl Sitting {
    /// A seat that sat down and did nothing else, in a fleet of so many peers.
    pub fn new(alloc: Global, seat: u64, peers: usize) -> Result<Sitting, NoMemory>
        ensures { IfOk result
            (λ s. s ≡ record { seat = seat; number = 1; opened = replicate peers false }) }
    {
        Ok(Sitting {
            seat,
            number: 1,
            opened: Vec::from_elem(alloc, false, peers)?,
        })
    }

    /// Its number.
    pub fn seat(&self) -> u64
        ensures { result ≡ self.now.seat }
    {
        self.seat
    }

    /// The number of its next event.
    pub fn number(&self) -> u64
        ensures { result ≡ self.now.number }
    {
        self.number
    }

    /// Something happens at the seat. Its number isn't counted up.
    pub fn note(&mut self, what: LentWhat<'_>)
        ensures { self.new ≡ record self.old
            { opened = opened_after self.old.opened (as_what what.entry) } }
    {
        if let LentWhat::Other(What::Open(peer)) = what
            && let Some(opened) = self.opened.get_mut(*peer)
        {
            *opened = true;
        }
    }

    /// The number of its next event from now on.
    pub fn count_to(&mut self, number: u64)
        ensures { self.new ≡ record self.old { number = number } }
    {
        self.number = number;
    }

    /// Another seat that opened this peer last, where this one opened it before.
    fn replacer(&self, roll: &Roll, peer: usize) -> Option<u64>
        ensures { result ≡ replacer self.now roll.now peer }
    {
        match self.opened.get(peer) {
            Some(true) => roll.last_opener(peer).filter(|by| *by != self.seat),
            _ => None,
        }
    }

    /// The seat that makes this post a late one, behind so many first posts of its batch.
    pub fn replacer_at(
        &self,
        roll: &Roll,
        whats: &Whats,
        place: usize,
        what: LentWhat<'_>,
    ) -> Option<u64>
        requires { place ≤ length whats.now }
        ensures { result ≡ replacer_at self.now roll.now (take place whats.now)
            (as_what what.entry) }
    {
        let peer = putter_of(what)?;
        let by = self.replacer(roll, peer)?;
        if open_again(whats, place, peer) {
            None
        } else {
            Some(by)
        }
    }
}

/// Whose row this post puts, if it puts one.
fn putter_of(what: LentWhat<'_>) -> Option<usize>
    ensures { result ≡ then_some (is_put (as_what what.entry)) (putter (as_what what.entry)) }
{
    match what {
        LentWhat::Put { peer, .. } | LentWhat::Other(&What::Put { peer, .. }) => Some(peer),
        LentWhat::Other(_) => None,
    }
}

/// Whether one of so many first posts opens a peer.
fn open_again(whats: &Whats, place: usize, peer: usize) -> bool
    requires { place ≤ length whats.now }
    ensures { result ≡ list_any (opens peer) (take place whats.now) }
{
    for i in 0..place {
        if opens(whats.at(i), peer) {
            return true;
        }
    }
    false
}

/// Whether this post opens a peer.
fn opens(what: LentWhat<'_>, peer: usize) -> bool
    ensures { result ≡ opens peer (as_what what.entry) }
{
    matches!(what, LentWhat::Other(What::Open(opened)) if *opened == peer)
}
