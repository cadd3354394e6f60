//! Who sits down, and who leaves.

ghost use Rattle.std.specs.Prelude.{◌≡◌, ◌<◌, ◌≤◌, [], length, false, nat_lt, Some, true, ◌∷◌};
ghost use Rattle.std.specs.Prelude.{MatchResult};
ghost use Rattle.std.specs.BTreeMap.{is_at};
ghost use Rattle.std.specs.Map.{lookup};
ghost use Rattle.std.specs.Ordering.{nat_cmp};
ghost use Rattle.agg_types.specs.declared.event.What.TheVariants.{Leave};
ghost use Rattle.agg_types.specs.declared.limits.TheConstants.{LAST_SEAT, MOST_SEATS};
ghost use Rattle.agg_types.specs.declared.limits.TheConstants.{NUMBERS_END};
ghost use Rattle.fleet_model.specs.Seats.{numbered};
ghost use Rattle.hub.specs.History.{longer_by, own};
ghost use Rattle.hub.specs.Keeping.{IsBehind, IsLeft, ShowsSame, SitsDownIn};
ghost use Rattle.hub.specs.Posts.{Follows, NoneReplaced};
ghost use Rattle.hub.specs.Sitting.{sits_new};

use super::{Desk, set_aside};
use crate::faults::SeatFault;
use crate::log::Log;
use crate::naming::Naming;
use crate::pass::Pass;
use crate::receipt::Ticket;
use crate::sitting::Sitting;
use crate::store::{hang, store};
use agg_types::{Event, MOST_SEATS, NUMBERS_END, What};
use std::alloc::Global;
use std::sync::Wait;

impl<J: Naming, R: Wait + Drop> Desk<J, R> {
    /// The next seat sits down. Nothing is shown yet.
    pub fn seat<W: Wait>(&mut self, rt: &W, alloc: Global, log: &Log) -> Result<Pass, SeatFault>
        requires { log.now ≡ J.book }
        ensures same { ShowsSame self.old self.new }
        ensures pass { MatchResult result (SitsDownIn self.old self.new J.book)
            (λ _. self.new.all ≡ self.old.all) }
    {
        if self.stuck {
            return Err(SeatFault::NoMemory);
        }
        if !self.roll.has_free_seat() || self.sitting >= MOST_SEATS {
            return Err(SeatFault::NoSeat);
        }
        let Ok(sitting) = Sitting::new(alloc, self.roll.next_seat(), self.roll.peers()) else {
            return Err(SeatFault::NoMemory);
        };
        self.sit_down(rt, log, sitting)
    }

    fn sit_down<W: Wait>(&mut self, rt: &W, log: &Log, sitting: Sitting) -> Result<Pass, SeatFault>
        requires log { log.now ≡ J.book }
        requires runs { self.old.stuck ≡ false }
        requires sitting { sitting ≡ sits_new self.old.roll }
        requires free { nat_lt (length self.old.roll.seats) MOST_SEATS ≡ true }
        requires small { self.old.roll.next_seat ≤ LAST_SEAT }
        ensures same { ShowsSame self.old self.new }
        ensures pass { MatchResult result (SitsDownIn self.old self.new J.book)
            (λ _. self.new.all ≡ self.old.all) }
    {
        if self.sitting >= MOST_SEATS {
            return Err(SeatFault::NoSeat);
        }
        let seat = self.roll.next_seat();
        let _count = self.front.len();
        let aside = set_aside(self.short);
        let Ok(()) = self.queue.reserve(self.sitting + 2 + aside) else {
            return Err(SeatFault::NoMemory);
        };
        let Ok(()) = self.roll.sit() else {
            return Err(SeatFault::NoMemory);
        };
        let event = Event {
            seat,
            seq: 0,
            what: What::Sit,
        };
        store(rt, log, &mut self.front, &mut self.queue, event);
        self.sitting += 1;
        Ok(Pass::new(sitting, self.front.again()))
    }

    /// Stores that a seat leaves. It always has the room.
    fn stand_up<W: Wait>(&mut self, rt: &W, log: &Log, seat: u64, number: u64)
        requires log { log.now ≡ J.book }
        requires due { lookup (is_at (nat_cmp seat)) self.old.roll.seats ≡ Some number }
        requires small { number < NUMBERS_END }
        ensures same { ShowsSame self.old self.new }
        ensures all { self.new.all
            ≡ longer_by self.old.all (numbered seat number (Leave ∷ [])) }
    {
        if self.sitting == 0 {
            hang(rt);
        }
        self.sitting -= 1;
        self.roll.leave(seat);
        let event = Event {
            seat,
            seq: number,
            what: What::Leave,
        };
        store(rt, log, &mut self.front, &mut self.queue, event);
    }

    /// A seat leaves for good. A refusal gives the pass back, with how many events of its seat the
    /// history has, and a ticket for that.
    pub fn leave<W: Wait>(
        &mut self,
        rt: &W,
        log: &Log,
        pass: Pass,
    ) -> Result<Ticket, (Pass, u64, Ticket)>
        requires log { log.now ≡ J.book }
        requires pass { pass.seen.of ≡ J.book }
        ensures same { ShowsSame self.old self.new }
        ensures told { MatchResult result (IsLeft self.old self.new pass)
            (λ refused. IsBehind self.old self.new pass refused.0 refused.1 refused.2) }
    {
        let found = self.count_of(rt, &pass);
        if found != pass.number() {
            let now = self.ticket();
            return Err((pass, found, now));
        }
        if found >= NUMBERS_END {
            hang(rt);
            unreachable!();
        }
        Ok(self.go(rt, log, &pass))
    }

    /// A seat leaves that may.
    fn go<W: Wait>(&mut self, rt: &W, log: &Log, pass: &Pass) -> Ticket
        requires log { log.now ≡ J.book }
        requires follows { Follows pass.now.seen self.old.all }
        requires owns { length (own pass.now.seat self.old.all.events) ≡ pass.now.number }
        requires due { lookup (is_at (nat_cmp pass.now.seat)) self.old.roll.seats
            ≡ Some pass.now.number }
        requires none_replaced { NoneReplaced pass.now self.old.all.events (Leave ∷ []) }
        requires small { pass.now.number < NUMBERS_END }
        ensures same { ShowsSame self.old self.new }
        ensures told { IsLeft self.old self.new pass.now result }
    {
        self.stand_up(rt, log, pass.seat(), pass.number());
        self.ticket()
    }
}
