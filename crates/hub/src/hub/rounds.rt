//! Who publishes, and who waits for it.
//!
//! Whoever finds the press under the lock takes it with all that was appended, shows readers that
//! without the lock, and lays it back. It then wakes those whose lists are shown, and one of those
//! that appended meanwhile: that one is the next to publish.
//!
//! `show` takes the press and waits for looks. `wait` and `catch_up` take it only where they would
//! wait for none.

ghost use Rattle.std.specs.Prelude.{◌≡◌, true, IfSome, MatchResult};
ghost use Rattle.std.specs.List.{All};
ghost use Rattle.hub.specs.Posts.{AppendRefused, Appends, IsAwaited};
ghost use Rattle.hub.specs.Roll.{MayPost};

use super::Hub;
use crate::awaiting::Await;
use crate::desk::Desk;
use crate::faults::AppendFault;
use crate::naming::Naming;
use crate::pass::Pass;
use crate::patience::Patience;
use crate::press::Press;
use crate::receipt::{Receipt, Ticket};
use agg_types::Whats;
use std::rt::Clock;
use std::sync::{Condvar, CondvarTimeouts, MutexGuard, Wait};
use std::time::Duration;

impl<J: Naming, R: Wait + Drop> Hub<J, R> {
    /// Where those wait that wait for a round.
    pub fn bell(&self, round: u64) -> &Condvar {
        if round % 2 == 0 {
            &self.even
        } else {
            &self.odd
        }
    }

    // Publishes once, without the lock, and says whether that was shown.
    fn publish<W: Wait>(&self, rt: &W, press: Press<J, R>) -> bool {
        let (press, showed) = press.show_all(rt);
        self.looks.turn(showed);
        let (press, idle) = press.reader();
        let mut desk = self.desk.lock(rt);
        desk.keep(idle);
        desk.put_back(rt, press, showed);
        let round = desk.round();
        drop(desk);
        self.bell(round).notify_all();
        let next = self.bell(round.wrapping_add(1));
        if showed {
            next.notify_one();
        } else {
            next.notify_all();
        }
        showed
    }

    /// Where the last showing was refused, tries it again, if neither a look nor another thread is
    /// in the way; whether none is refused now. It waits for nothing but the lock.
    pub fn catch_up<W: Wait>(&self, rt: &W) -> bool {
        let mut desk = self.desk.lock(rt);
        if !desk.is_stuck() {
            return true;
        }
        if self.looks.hold() {
            return false;
        }
        let Some(press) = desk.take() else {
            return false;
        };
        drop(desk);
        self.publish(rt, press)
    }

    /// Waits until a ticket's list is shown, and publishes where nobody does. None where that was
    /// refused.
    pub fn show<W: Wait>(&self, rt: &W, ticket: Ticket) -> Option<Receipt>
        requires { ticket.of ≡ self.now.of }
        ensures { IfSome result (λ r. r ≡ ticket) }
    {
        for _ in rt.forever() {
            let mut desk = self.desk.lock(rt);
            if let Some(receipt) = desk.receipt(&ticket) {
                return Some(receipt);
            }
            if let Some(press) = desk.take() {
                drop(desk);
                if !self.publish(rt, press) {
                    return None;
                }
            } else {
                drop(self.bell(desk.round_of(&ticket)).wait(rt, desk));
            }
        }
        unreachable!()
    }

    /// Adds a batch to the history as one, and gives a ticket for it, which is to be waited for. It
    /// waits for no look. Where the last showing was refused it tries that again first. A refusal
    /// gives the batch back.
    ///
    /// NoMemory is for all but moments, clears and dropped filters while the hub's reserve is away
    /// or a showing stands refused.
    pub fn append<W: Wait>(
        &self,
        rt: &W,
        pass: &mut Pass,
        whats: Whats,
    ) -> Result<Ticket, (AppendFault, Whats)>
        requires pass { pass.old.seen.of ≡ self.now.of }
        requires fits { All (MayPost self.now.config) whats }
        ensures { MatchResult result (Appends pass.old pass.new whats)
            (λ refused. AppendRefused pass.old pass.new whats refused.0 refused.1) }
    {
        let _ = self.catch_up(rt);
        self.know(rt, pass);
        let mut desk = self.desk.lock(rt);
        desk.append(rt, &self.log, pass, whats)
    }

    /// Waits until a ticket's list is shown, for as long as `limit` at a time, or publishes where
    /// nobody does and no look is in the way of it. So it waits for no look, but never call it in a
    /// thread that is inside one. `Pass::see` takes up the receipt.
    pub fn wait<W: Wait + Clock>(&self, rt: &W, ticket: Ticket, limit: Duration) -> Await
        requires { ticket.of ≡ self.now.of }
        ensures { IsAwaited ticket result }
    {
        let mut patience = Patience::new(limit);
        for _ in rt.forever() {
            let mut desk = self.desk.lock(rt);
            if let Some(receipt) = desk.receipt(&ticket) {
                return Await::Shown(receipt);
            }
            if let Some(press) = self.press_for_now(&mut desk) {
                drop(desk);
                if !self.publish(rt, press) {
                    return Await::Pending;
                }
            } else if patience.is_over() {
                return Await::NotYet(ticket);
            } else {
                let bell = self.bell(desk.round_of(&ticket));
                self.sleep(rt, desk, bell, &mut patience);
            }
        }
        unreachable!()
    }

    // The press, where nobody has it and no look is in the way of a round.
    fn press_for_now(&self, desk: &mut Desk<J, R>) -> Option<Press<J, R>>
        ensures { desk.new ≡ desk.old }
    {
        if self.looks.hold() { None } else { desk.take() }
    }

    // Sleeps at a bell. Where nobody publishes, since a look is in the way of it, one thread
    // watches that look, and the others sleep until that one has published.
    fn sleep<'a, W: Wait + Clock>(
        &'a self,
        rt: &W,
        desk: MutexGuard<'a, Desk<J, R>>,
        bell: &Condvar,
        patience: &mut Patience,
    ) {
        let mut desk = desk;
        if desk.begin_watch() {
            self.watch(rt, desk, bell, patience);
            return;
        }
        let time = patience.rest();
        let (desk, ended) = bell.wait_timeout(rt, desk, time);
        drop(desk);
        if ended.timed_out() {
            patience.slept(time);
        }
    }

    // Comes back soon to see whether a look is still in the way.
    fn watch<'a, W: Wait + Clock>(
        &'a self,
        rt: &W,
        desk: MutexGuard<'a, Desk<J, R>>,
        bell: &Condvar,
        patience: &mut Patience,
    ) {
        let time = patience.step();
        if time.is_zero() {
            drop(desk);
            self.looks.pause();
            self.desk.lock(rt).end_watch();
            return;
        }
        let (mut desk, ended) = bell.wait_timeout(rt, desk, time);
        desk.end_watch();
        drop(desk);
        if ended.timed_out() {
            patience.slept(time);
        }
    }
}
