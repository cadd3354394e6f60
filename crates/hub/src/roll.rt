//! What the locked side of the history counts: the seats that sit, and who opened which peer last.

ghost use Rattle.std.specs.Prelude.{◌≡◌, [], ◌≤◌, ◌<◌, ◌+◌, ◌-◌, ◌∷◌, false, true, replicate};
ghost use Rattle.std.specs.Prelude.{length, nat_lt, None, slice_index_or, IfOk, OnOk, OnErr};
ghost use Rattle.std.specs.Prelude.{is_some, IsTrue};
ghost use Rattle.std.specs.BTreeMap.{insert_entry, is_at};
ghost use Rattle.std.specs.Map.{lookup, remove_entry};
ghost use Rattle.std.specs.Ordering.{nat_cmp};
ghost use Rattle.agg_types.specs.Whats.{as_what};
ghost use Rattle.fleet_model.specs.Seats.{is_sit, is_leave};
ghost use Rattle.hub.specs.Roll.{last_after};

use agg_types::{LAST_SEAT, LentWhat, MOST_SEATS, NoMemory, What};
use std::alloc::Global;
use std::collections::BTreeMap;
use std::marker::Model;

/// The seats that sit, with the numbers of their next events, and who opened each peer last.
#[derive(Drop)]
pub struct Roll {
    seats: BTreeMap<u64, u64>,
    // The least number for a seat to come.
    next_seat: u64,
    // By the peers' places in the configuration.
    last: Vec<Option<u64>>,
}

impl Model for Roll {
    ghost use Rattle.hub.specs.Roll.{Counted};

    ghost Value = { Counted };

    ghost view = { λ r.
        record { seats = r.seats.entries; next_seat = r.next_seat; last = r.last.items } };
}

impl Roll {
    /// Nobody sat down yet, and nobody opened one of so many peers.
    pub fn new(alloc: Global, peers: usize) -> Result<Roll, NoMemory>
        ensures { IfOk result
            (λ r. r ≡ record { seats = []; next_seat = 0; last = replicate peers None }) }
    {
        Ok(Roll {
            seats: BTreeMap::new(alloc),
            next_seat: 0,
            last: Vec::from_elem(alloc, None, peers)?,
        })
    }

    /// Whether another seat may sit down.
    pub fn has_free_seat(&self) -> bool
        ensures seats { result ≡ true → nat_lt (length self.now.seats) MOST_SEATS ≡ true }
        ensures number { result ≡ true → self.now.next_seat ≤ LAST_SEAT }
    {
        self.seats.len() < MOST_SEATS && self.next_seat <= LAST_SEAT
    }

    /// The number of the next seat.
    pub fn next_seat(&self) -> u64
        ensures { result ≡ self.now.next_seat }
    {
        self.next_seat
    }

    /// How many peers there are.
    pub fn peers(&self) -> usize
        ensures { result ≡ length self.now.last }
    {
        self.last.len()
    }

    /// The number of a seat's next event, or none where it doesn't sit.
    pub fn number_of(&self, seat: u64) -> Option<u64>
        ensures { result ≡ lookup (is_at (nat_cmp seat)) self.now.seats }
    {
        self.seats.get(&seat).copied()
    }

    /// The seat that opened a peer last, if one did.
    pub fn last_opener(&self, peer: usize) -> Option<u64>
        ensures { result ≡ slice_index_or self.now.last peer None }
    {
        match self.last.get(peer) {
            None => None,
            Some(seat) => *seat,
        }
    }

    /// The next seat sits down. After NoMemory nothing has changed.
    pub fn sit(&mut self) -> Result<(), NoMemory>
        requires { self.old.next_seat ≤ LAST_SEAT }
        ensures ok { OnOk result
            (self.new ≡ record {
              seats =
                  insert_entry nat_cmp self.old.seats self.old.next_seat 1;
              next_seat =
                  self.old.next_seat + 1;
              last = self.old.last;
            }) }
        ensures err { OnErr result (self.new ≡ self.old) }
    {
        self.seats.insert(self.next_seat, 1)?;
        self.next_seat += 1;
        Ok(())
    }

    /// Something happens at a seat. Its number isn't counted up.
    pub fn note(&mut self, seat: u64, what: LentWhat<'_>)
        ensures { self.new ≡ record self.old
            { last = last_after self.old.last seat (as_what what.entry) } }
    {
        if let LentWhat::Other(What::Open(peer)) = what
            && let Some(last) = self.last.get_mut(*peer)
        {
            *last = Some(seat);
        }
    }

    /// A seat that sits counts up to a number.
    pub fn count_to(&mut self, seat: u64, number: u64)
        requires sits { IsTrue (is_some (lookup (is_at (nat_cmp seat)) self.old.seats)) }
        ensures { self.new ≡ record self.old
            { seats = insert_entry nat_cmp self.old.seats seat number } }
    {
        match self.seats.insert(seat, number) {
            Ok(_) => {}
            Err(_) => unreachable!(),
        }
    }

    /// A seat leaves.
    pub fn leave(&mut self, seat: u64)
        ensures { self.new ≡ record
            self.old { seats = remove_entry (is_at (nat_cmp seat)) self.old.seats } }
    {
        self.seats.remove(&seat);
    }
}
