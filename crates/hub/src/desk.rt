//! What lies under the lock: the whole history, what of it the press took, and the press itself
//! while nobody publishes.

ghost use Rattle.std.specs.Prelude.{◌≡◌, ◌<◌, ◌≤◌, ◌^◌, [], false, length, not, true, IfOk};
ghost use Rattle.std.specs.Prelude.{IfSome};
ghost use Rattle.agg_types.specs.declared.limits.TheConstants.{MOST_SEATS};
ghost use Rattle.left_right.specs.Sides.{view};
ghost use Rattle.fleet_model.specs.Machine.{opened};
ghost use Rattle.hub.specs.Copied.{whole};
ghost use Rattle.hub.specs.History.{AllCount};
ghost use Rattle.hub.specs.Keeping.{IsOpened};
ghost use Rattle.hub.specs.Kept.{IsTold};
ghost use Rattle.hub.specs.Posts.{Follows};

use crate::copies::Logged;
use crate::hand::HubReader;
use crate::idle::Idle;
use crate::log::Front;
use crate::naming::Naming;
use crate::press::Press;
use crate::progress::Progress;
use crate::receipt::{Receipt, Showing, Ticket};
use crate::roll::Roll;
use crate::store::hang;
use agg_types::{MOST_SEATS, NoMemory};
use book::Book;
use std::alloc::Global;
use std::collections::VecDeque;
use std::marker::Model;
use std::sync::Wait;

mod appending;
mod seating;

/// What all threads that write share. Contracts see the whole history, the list that is shown,
/// whether the last showing was refused, and what is counted.
#[derive(Drop)]
pub struct Desk<J: Naming, R: Wait + Drop> {
    front: Front,
    // The beginning of it that the press took.
    from: Front,
    // What was appended since. It has room for a Leave of each seat that sits, and as a rule for
    // some batches that free memory.
    queue: VecDeque<Logged>,
    roll: Roll,
    // How many seats sit.
    sitting: usize,
    shown: Showing,
    stuck: bool,
    // Whether the reserve was away when the press was laid back.
    short: bool,
    // Whether a thread watches a look that holds the next round up.
    watched: bool,
    // How often the press was taken.
    rounds: u64,
    idle: Vec<Idle<J>>,
    // Away while somebody publishes.
    press: Option<Press<J, R>>,
}

impl<J: Naming, R: Wait + Drop> Model for Desk<J, R> {
    ghost use Rattle.std.specs.Prelude.{◌≡◌, ◌≤◌, ◌+◌, false, IfSome};
    ghost use Rattle.std.specs.VecDeque.{deque_len, deque_capacity};
    ghost use Rattle.agg_types.specs.declared.limits.TheConstants.{MOST_SEATS};
    ghost use Rattle.hub.specs.Copied.{whole};
    ghost use Rattle.hub.specs.Kept.{IsDesked, IsRested, Kept};

    ghost Value = { Kept };

    ghost view = { λ d.
        record { all = d.front; shown = d.shown; stuck = d.stuck; roll = d.roll } };

    ghost invariant = { λ d. IsDesked J.book d.from d.queue.items d.front d.shown d.roll
        × (deque_len d.queue + d.sitting ≤ deque_capacity d.queue)
        × (MOST_SEATS ≤ deque_capacity d.queue) × (d.sitting ≤ MOST_SEATS)
        × IfSome d.press (λ p. IsRested d.from d.shown d.stuck p) };
}

impl<J: Naming, R: Wait + Drop> Desk<J, R> {
    /// Whether the last showing was refused. Then nothing but Leaves and what frees memory is
    /// appended.
    pub fn is_stuck(&self) -> bool
        ensures { result ≡ self.now.stuck }
    {
        self.stuck
    }

    /// Whether nobody publishes.
    pub fn has_press(&self) -> bool {
        self.press.is_some()
    }

    /// The number of the round that is under way, or was the last.
    pub fn round(&self) -> u64 {
        self.rounds
    }

    /// Whether this thread is the one that watches a look that holds the next round up. There is
    /// at most one at a time, and none while somebody publishes.
    pub fn begin_watch(&mut self) -> bool
        ensures { self.new ≡ self.old }
    {
        if self.watched || self.press.is_none() {
            return false;
        }
        self.watched = true;
        true
    }

    /// The thread that watched doesn't any more.
    pub fn end_watch(&mut self)
        ensures { self.new ≡ self.old }
    {
        self.watched = false;
    }

    /// The number of the round that shows a ticket's list, if it isn't shown yet.
    pub fn round_of(&self, ticket: &Ticket) -> u64
        requires { ticket.now.of ≡ J.book }
    {
        if self.press.is_none() && ticket.front().compare(&self.from) {
            self.rounds
        } else {
            self.rounds.wrapping_add(1)
        }
    }

    /// How far showing has come.
    pub fn progress(&self) -> Progress
        ensures appended { result.appended ≡ length self.now.all.events }
        ensures shown { result.shown ≡ length self.now.shown.events }
    {
        Progress {
            appended: self.front.len(),
            shown: self.shown.len(),
            rounds: self.rounds,
            is_publishing: self.press.is_none(),
        }
    }

    /// Whether memory is short: the last showing was refused, or the reserve was away behind it.
    fn is_short(&self) -> bool
        ensures { result ≡ false → self.now.stuck ≡ false }
    {
        if self.stuck {
            return true;
        }
        self.short
    }

    /// A ticket for the whole history.
    fn ticket(&self) -> Ticket
        ensures all { result ≡ self.now.all }
        ensures legal { AllCount result.config result.opening result.events }
    {
        let _count = self.front.len();
        Ticket::of(self.front.again())
    }

    /// The receipt for a ticket, if its list is shown.
    pub fn receipt(&self, ticket: &Ticket) -> Option<Receipt>
        requires { ticket.now.of ≡ J.book }
        ensures { IfSome result (λ r. (r ≡ ticket.now) × Follows r self.now.shown) }
    {
        self.shown.receipt(ticket)
    }

    /// Takes the press, with all that was appended; none while somebody has it.
    pub fn take(&mut self) -> Option<Press<J, R>>
        ensures { self.new ≡ self.old }
    {
        let Some(mut press) = self.press.take() else {
            return None;
        };
        self.rounds = self.rounds.wrapping_add(1);
        if !press.take_in(&mut self.queue, &self.front) {
            return Some(press);
        }
        self.from = self.front.again();
        Some(press)
    }

    /// Lays the press back, which showed all that it took or was refused.
    pub fn put_back<W: Wait>(&mut self, rt: &W, press: Press<J, R>, showed: bool)
        requires { showed ≡ true → press.shown ≡ whole press.taken }
        ensures kept { (self.new.all ≡ self.old.all) × (self.new.roll ≡ self.old.roll) }
        ensures shown { self.new.shown ≡ press.shown.at }
        ensures stuck { self.new.stuck ≡ not showed }
    {
        if !press.taken().is(&self.from) {
            hang(rt);
            unreachable!();
        }
        self.shown = press.showing();
        self.stuck = !showed;
        self.short = !press.has_reserve();
        self.press = Some(press);
    }

    /// A reader to lend. None where none is idle, and no other place was found while the press lies
    /// here.
    pub fn reader(&mut self) -> Option<HubReader>
        ensures kept { self.new ≡ self.old }
        ensures told { IfSome result (λ r. IsTold J.book (view r.place)) }
    {
        if let Some(idle) = self.idle.pop() {
            return Some(idle.lend());
        }
        let Some(press) = self.press.take() else {
            return None;
        };
        let (press, idle) = press.reader();
        self.press = Some(press);
        match idle {
            None => None,
            Some(idle) => Some(idle.lend()),
        }
    }

    /// Keeps a reader for the next lens. Where there is no room its place is free again.
    pub fn keep(&mut self, idle: Option<Idle<J>>)
        ensures { self.new ≡ self.old }
    {
        if let Some(idle) = idle {
            let _ = self.idle.push(idle);
        }
    }

    /// The desk of a fleet that was just opened, with so many readers.
    pub fn new(
        alloc: Global,
        own: R,
        first: Book,
        second: Book,
        front: Front,
        places: usize,
    ) -> Result<Desk<J, R>, NoMemory>
        requires named { front.of ≡ J.book }
        requires empty { front.events ≡ [] }
        requires opened { (first ≡ opened front.config front.opening)
            × (second ≡ opened front.config front.opening) }
        requires places { (0 < places) × (places < 2 ^ 32) }
        ensures { IfOk result (λ d. IsOpened d front) }
    {
        let roll = Roll::new(alloc, first.config().peers.len())?;
        let queue = VecDeque::with_capacity(alloc, 2 * MOST_SEATS)?;
        let press = Press::new(alloc, own, first, second, front.again(), places)?;
        let filled = seat_readers(alloc, press, places)?;
        let (press, idle) = filled;
        let from = front.again();
        let shown = press.showing();
        Ok(Desk {
            front,
            from,
            queue,
            roll,
            sitting: 0,
            shown,
            stuck: false,
            short: false,
            watched: false,
            rounds: 0,
            idle,
            press: Some(press),
        })
    }
}

/// How much room a queue keeps for batches that free memory, of which each takes two places. None
/// is kept while memory is short, since then it is for these.
fn set_aside(short: bool) -> usize
    ensures { result ≤ MOST_SEATS }
{
    if short { 0 } else { MOST_SEATS }
}

// Readers for all places.
fn seat_readers<J: Naming, R: Wait + Drop>(
    alloc: Global,
    press: Press<J, R>,
    places: usize,
) -> Result<(Press<J, R>, Vec<Idle<J>>), NoMemory>
    ensures { IfOk result (λ r. r.0 ≡ press) }
{
    let mut idle = Vec::with_capacity(alloc, places)?;
    let mut press = press;
    'places: for _ in 0..places {
        let (same, reader) = press.reader();
        press = same;
        if let Some(reader) = reader {
            idle.push(reader)?;
        }
    }
    Ok((press, idle))
}
