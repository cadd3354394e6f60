//! Events that are drawn from a fixed generator.

ghost use Rattle.std.specs.Prelude.{◌<◌};

use crate::both::deeds::{Deed, Row};
use crate::both::fleet::{PEERS, Pair};

/// How many keys are drawn from.
const KEYS: u64 = 12;

/// The greatest life that there is, in ms.
const LONGEST: u64 = (1 << 32) - 1;

/// A generator of events: a linear congruential one, with what it needs to know of the fleet.
#[derive(Clone, Copy)]
pub struct Draw {
    state: u64,
    near: bool,
    drawn: u32,
    seats: [u64; PEERS],
    last: u64,
    // The peer that was drawn last.
    peer: usize,
}

impl Draw {
    /// The generator at its start, of lives and moments that are near, or far from one another.
    pub fn new(near: bool) -> Draw {
        Draw {
            state: 1,
            near,
            drawn: 0,
            seats: [1, 2, 3],
            last: 3,
            peer: 0,
        }
    }

    /// A number below a bound.
    fn below(&mut self, bound: u64) -> u64
        requires { 0 < bound }
        ensures { result < bound }
    {
        self.state = self
            .state
            .wrapping_mul(6_364_136_223_846_793_005)
            .wrapping_add(1_442_695_040_888_963_407);
        (self.state >> 33) % bound
    }

    /// The next event: first the clock and each peer sit down, then anything happens.
    pub fn deed(&mut self, pair: &Pair) -> Deed {
        let drawn = self.drawn;
        self.drawn = drawn.saturating_add(1);
        match drawn {
            0..4 => Deed::Sit(u64::from(drawn)),
            4..7 => Deed::Open(u64::from(drawn - 3), drawn as usize - 4),
            _ => self.any(pair.moment()),
        }
    }

    fn any(&mut self, moment: u64) -> Deed {
        match self.below(24) {
            0..14 => self.put(),
            14..18 => self.moment(moment),
            18 => self.clear(),
            19 => Deed::ClearKey(self.table(), self.key()),
            20 => self.add(),
            21 => self.drop_one(),
            _ => self.reconnect(),
        }
    }

    fn table(&mut self) -> usize {
        self.below(2) as usize
    }

    fn key(&mut self) -> u16 {
        self.below(KEYS) as u16
    }

    /// Mostly the peer that was drawn last, so that its events follow one another.
    fn peer(&mut self) -> usize {
        if self.below(4) == 0 {
            self.peer = self.below(PEERS as u64) as usize;
        }
        self.peer
    }

    /// No life, one that is over at once, a short one, or a long one.
    fn life(&mut self) -> Option<u64> {
        let short = self.below(6) + 1;
        match self.below(8) {
            0 => None,
            1 => Some(0),
            2..6 => Some(short),
            6 => Some(40),
            _ => Some(if self.near { 60 } else { LONGEST }),
        }
    }

    /// A peer's row, mostly by the seat that speaks for it, and at times by any other.
    fn put(&mut self) -> Deed {
        let peer = self.peer();
        let seat = if self.below(8) == 0 {
            self.below(self.last.saturating_add(2).max(1))
        } else {
            self.seat_of(peer)
        };
        let row = Row {
            peer,
            table: self.table(),
            key: self.key(),
            life: self.life(),
            count: self.below(60) as u32,
        };
        Deed::Put(seat, row)
    }

    fn seat_of(&self, peer: usize) -> u64 {
        self.seats.get(peer).copied().unwrap_or(0)
    }

    /// A moment after the last one, far behind it at times, or one that was before.
    fn moment(&mut self, moment: u64) -> Deed {
        let step = match self.below(8) {
            0 => 0,
            1..6 => self.below(5),
            6 => self.below(50),
            _ if self.near => 120,
            _ => LONGEST,
        };
        Deed::Moment(moment.saturating_add(step).min(1 << 61))
    }

    fn clear(&mut self) -> Deed {
        let table = self.table();
        if self.below(2) == 0 {
            Deed::ClearAll(table)
        } else {
            Deed::ClearAbove(table, self.below(60))
        }
    }

    /// A filter of one of these names goes, or that of the configuration is to.
    fn drop_one(&mut self) -> Deed {
        match self.below(5) as u8 {
            4 => Deed::DropConfigured,
            name => Deed::Drop(name.saturating_add(b'a')),
        }
    }

    /// A filter of one of four names.
    fn add(&mut self) -> Deed {
        let name = self.below(4) as u8;
        Deed::Add(name.saturating_add(b'a'), self.table(), self.below(8))
    }

    /// A new seat sits down, speaks for a peer, or one gets free.
    fn reconnect(&mut self) -> Deed {
        match self.below(3) {
            0 => {
                self.last = self.last.saturating_add(1);
                Deed::Sit(self.last)
            }
            1 => {
                let peer = self.peer();
                if let Some(seat) = self.seats.get_mut(peer) {
                    *seat = self.last;
                }
                Deed::Open(self.last, peer)
            }
            _ => Deed::Leave(self.below(self.last.saturating_add(1).max(1)).max(1)),
        }
    }
}
