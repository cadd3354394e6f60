//! What is appended to the history.

ghost use Rattle.std.specs.Prelude.{◌≡◌, ◌<◌, ◌+◌, length, Some, MatchOption};
ghost use Rattle.std.specs.Prelude.{MatchResult, ◌≤◌, IsTrue, IsFalse};
ghost use Rattle.std.specs.BTreeMap.{is_at};
ghost use Rattle.std.specs.List.{All};
ghost use Rattle.std.specs.Map.{lookup};
ghost use Rattle.std.specs.Ordering.{nat_cmp};
ghost use Rattle.agg_types.specs.declared.limits.TheConstants.{NUMBERS_END};
ghost use Rattle.fleet_model.specs.Seats.{numbered};
ghost use Rattle.hub.specs.History.{longer_by, own};
ghost use Rattle.hub.specs.Keeping.{IsAppended, MayAppend, ShowsSame};
ghost use Rattle.hub.specs.Posts.{AppendRefused, Appends, FindsReplaced, Follows, NoneReplaced};
ghost use Rattle.hub.specs.Posts.{advanced};
ghost use Rattle.hub.specs.Roll.{MayPost};

use super::{Desk, set_aside};
use crate::faults::AppendFault;
use crate::freeing::frees_all;
use crate::log::Log;
use crate::naming::Naming;
use crate::pass::Pass;
use crate::receipt::Ticket;
use crate::store::hang;
use agg_types::{NUMBERS_END, Whats};
use std::sync::Wait;

impl<J: Naming, R: Wait + Drop> Desk<J, R> {
    /// How many events of its seat the history has. It begins with all that the pass has seen.
    pub fn count_of<W: Wait>(&self, rt: &W, pass: &Pass) -> u64
        requires { pass.now.seen.of ≡ J.book }
        ensures follows { Follows pass.now.seen self.now.all }
        ensures owns { length (own pass.now.seat self.now.all.events) ≡ result }
        ensures due { lookup (is_at (nat_cmp pass.now.seat)) self.now.roll.seats ≡ Some result }
    {
        if !pass.front().compare(&self.front) {
            hang(rt);
        }
        let _all = self.front.len();
        match self.roll.number_of(pass.seat()) {
            None => {
                hang(rt);
                unreachable!()
            }
            Some(found) => found,
        }
    }

    /// The seat that opened the peer of a posted Put after the pass's seat did.
    fn replaced<W: Wait>(&self, rt: &W, pass: &Pass, whats: &Whats) -> Option<u64>
        requires of { pass.now.seen.of ≡ J.book }
        requires owns { length (own pass.now.seat self.now.all.events) ≡ pass.now.number }
        ensures { MatchOption result (NoneReplaced pass.now self.now.all.events whats.now)
            (FindsReplaced pass.now self.now.all.events whats.now) }
    {
        pass.replaced(rt, &self.front, &self.roll, whats)
    }

    /// Stores what a pass posts, or hands it back where there is no memory for all of it. Room for
    /// the Leaves stays.
    fn add<W: Wait>(
        &mut self,
        rt: &W,
        log: &Log,
        pass: &mut Pass,
        whats: Whats,
    ) -> Result<(), Whats>
        requires log { log.now ≡ J.book }
        requires pass { pass.old.seen.of ≡ J.book }
        requires owns { length (own pass.old.seat self.old.all.events) ≡ pass.old.number }
        requires fits { All (MayPost self.old.all.config) whats }
        requires due { lookup (is_at (nat_cmp pass.old.seat)) self.old.roll.seats
            ≡ Some pass.old.number }
        requires last { pass.old.number + length whats < NUMBERS_END }
        ensures same { ShowsSame self.old self.new }
        ensures all { MatchResult result
            (λ _. self.new.all
            ≡ longer_by self.old.all (numbered pass.old.seat pass.old.number whats))
            (λ back. (back ≡ whats) × (self.new.all ≡ self.old.all)) }
        ensures pass { MatchResult result (λ _. pass.new ≡ advanced pass.old (length whats))
            (λ _. pass.new ≡ pass.old) }
    {
        let aside = set_aside(self.short);
        let Ok(()) = self.queue.reserve(self.sitting + 2 + aside) else {
            return Err(whats);
        };
        let run = pass.batch(whats)?;
        pass.store(
            rt,
            log,
            &mut self.front,
            &mut self.queue,
            &mut self.roll,
            run,
        );
        Ok(())
    }

    /// Whether a batch isn't taken, since memory is short and not all of the batch frees some.
    fn refuses(&self, whats: &Whats) -> bool
        ensures { IsFalse result → MayAppend self.now whats.now }
    {
        if !self.is_short() {
            return false;
        }
        !frees_all(whats)
    }

    /// Adds a batch to the history, where it may stand there.
    pub fn append<W: Wait>(
        &mut self,
        rt: &W,
        log: &Log,
        pass: &mut Pass,
        whats: Whats,
    ) -> Result<Ticket, (AppendFault, Whats)>
        requires log { log.now ≡ J.book }
        requires pass { pass.old.seen.of ≡ J.book }
        requires fits { All (MayPost pass.old.seen.config) whats }
        ensures same { ShowsSame self.old self.new }
        ensures kept { MatchResult result (IsAppended self.old self.new pass.old whats)
            (λ _. self.new.all ≡ self.old.all) }
        ensures told { MatchResult result (Appends pass.old pass.new whats)
            (λ refused. AppendRefused pass.old pass.new whats refused.0 refused.1) }
    {
        if self.refuses(&whats) {
            return Err((AppendFault::NoMemory, whats));
        }
        let found = self.count_of(rt, pass);
        if found != pass.number() {
            let now = self.ticket();
            return Err((AppendFault::NotNext { found, now }, whats));
        }
        if let Some(by) = self.replaced(rt, pass, &whats) {
            let now = self.ticket();
            return Err((AppendFault::Replaced { by, now }, whats));
        }
        if is_spent(found, whats.len()) {
            return Err((AppendFault::Spent, whats));
        }
        self.put_in(rt, log, pass, whats)
    }

    /// Adds a batch to the history that may stand there.
    fn put_in<W: Wait>(
        &mut self,
        rt: &W,
        log: &Log,
        pass: &mut Pass,
        whats: Whats,
    ) -> Result<Ticket, (AppendFault, Whats)>
        requires log { log.now ≡ J.book }
        requires pass { pass.old.seen.of ≡ J.book }
        requires may { MayAppend self.old whats }
        requires follows { Follows pass.old.seen self.old.all }
        requires owns { length (own pass.old.seat self.old.all.events) ≡ pass.old.number }
        requires fits { All (MayPost self.old.all.config) whats }
        requires due { lookup (is_at (nat_cmp pass.old.seat)) self.old.roll.seats
            ≡ Some pass.old.number }
        requires none_replaced { NoneReplaced pass.old self.old.all.events whats }
        requires last { pass.old.number + length whats < NUMBERS_END }
        ensures same { ShowsSame self.old self.new }
        ensures kept { MatchResult result (IsAppended self.old self.new pass.old whats)
            (λ _. self.new.all ≡ self.old.all) }
        ensures told { MatchResult result (Appends pass.old pass.new whats)
            (λ refused. AppendRefused pass.old pass.new whats refused.0 refused.1) }
    {
        if let Err(whats) = self.add(rt, log, pass, whats) {
            return Err((AppendFault::NoMemory, whats));
        }
        Ok(self.ticket())
    }
}

// Whether a seat's numbers don't go so far behind those that were given.
fn is_spent(given: u64, further: usize) -> bool
    ensures yes { IsTrue result → NUMBERS_END ≤ given + further }
    ensures no { IsFalse result → given + further < NUMBERS_END }
{
    given >= NUMBERS_END || further as u64 >= NUMBERS_END - given
}
