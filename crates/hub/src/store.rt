//! Events on their way into the history.

ghost use Rattle.std.specs.Prelude.{◌≡◌, ◌<◌, ◌≤◌, ◌+◌, ◌++◌, ◌∷◌, [], Some, true, length};
ghost use Rattle.std.specs.BTreeMap.{is_at};
ghost use Rattle.std.specs.List.{All};
ghost use Rattle.std.specs.Map.{lookup};
ghost use Rattle.std.specs.Ordering.{nat_cmp};
ghost use Rattle.std.specs.VecDeque.{deque_len, deque_capacity};
ghost use Rattle.fleet_model.specs.Machine.{counts_now};
ghost use Rattle.fleet_model.specs.State.{state_of};
ghost use Rattle.hub.specs.Batches.{events_in};
ghost use Rattle.hub.specs.Copied.{Stores};
ghost use Rattle.hub.specs.History.{longer_by};
ghost use Rattle.hub.specs.Roll.{IsCountOf, MayPost, lasts_after};
ghost use Rattle.hub.specs.Sitting.{Recalls, all_opened_after};

use crate::batch::{Batch, Posting, Run};
use crate::copies::Logged;
use crate::log::{Front, Log};
use crate::roll::Roll;
use crate::sitting::Sitting;
use agg_types::{Event, LentWhat};
use std::collections::VecDeque;
use std::sync::Wait;

/// How many events a history may have.
const MOST_EVENTS: u64 = 1 << 62;

/// Never returns.
pub fn hang<R: Wait>(rt: &R)
    ensures { ⊥ }
{
    for _ in rt.forever() {}
    unreachable!()
}

/// Adds an event to the history.
fn add<R: Wait>(rt: &R, log: &Log, front: &mut Front, event: &Posting<'_>)
    requires log { log.now ≡ front.old.of }
    requires counts { counts_now (state_of front.old.config front.old.opening front.old.events)
        event.now ≡ true }
    ensures { front.new ≡ record front.old { events = front.old.events ++ event.now ∷ [] } }
{
    if front.len() >= MOST_EVENTS || !front.add(log, event) {
        hang(rt);
    }
}

/// Adds an event to the history, and puts it behind what no copy has yet.
pub fn store<R: Wait>(
    rt: &R,
    log: &Log,
    front: &mut Front,
    queue: &mut VecDeque<Logged>,
    event: Event,
)
    requires log { log.now ≡ front.old.of }
    requires counts { counts_now (state_of front.old.config front.old.opening front.old.events)
        event ≡ true }
    requires room { deque_len queue.old < deque_capacity queue.old }
    ensures front { front.new ≡ record front.old { events = front.old.events ++ event ∷ [] } }
    ensures queue { queue.new.items
        ≡ queue.old.items ++ record { events = event ∷ []; at = front.new } ∷ [] }
    ensures len { deque_len queue.new ≡ deque_len queue.old + 1 }
    ensures capacity { deque_capacity queue.new ≡ deque_capacity queue.old }
{
    let posting = Posting {
        seat: event.seat,
        seq: event.seq,
        what: LentWhat::of(&event.what),
    };
    add(rt, log, front, &posting);
    drop(posting);
    queue.push_back_reserved(Logged::event(event, front.again()));
}

/// Adds what a seat posts to the history, under the seat's next numbers, and puts it behind what no
/// copy has yet, as one.
pub fn store_all<R: Wait>(
    rt: &R,
    log: &Log,
    front: &mut Front,
    queue: &mut VecDeque<Logged>,
    roll: &mut Roll,
    sitting: &mut Sitting,
    run: Run,
)
    requires log { log.now ≡ front.old.of }
    requires counted { IsCountOf roll.old front.old }
    requires recalled { Recalls sitting.old front.old }
    requires seat { run.seat ≡ sitting.old.seat }
    requires first { run.first ≡ sitting.old.number }
    requires fits { All (MayPost front.old.config) run.whats }
    requires due { lookup (is_at (nat_cmp sitting.old.seat)) roll.old.seats
        ≡ Some sitting.old.number }
    requires room { deque_len queue.old + 2 ≤ deque_capacity queue.old }
    ensures front { front.new ≡ longer_by front.old (events_in run) }
    ensures stored { Stores queue.old.items front.old queue.new.items front.new }
    ensures counted { IsCountOf roll.new front.new }
    ensures recalled { Recalls sitting.new front.new }
    ensures len { deque_len queue.new ≡ deque_len queue.old + 2 }
    ensures capacity { deque_capacity queue.new ≡ deque_capacity queue.old }
    ensures seat { sitting.new.seat ≡ sitting.old.seat }
    ensures number { sitting.new.number ≡ sitting.old.number + length run.whats }
{
    add_all(rt, log, front, roll, sitting, run.batch());
    queue.push_back_reserved(Logged::batch(run, front.again()));
    queue.push_back_reserved(Logged::end(front.again()));
}

// Adds a batch to the history, as one.
fn add_all<R: Wait>(
    rt: &R,
    log: &Log,
    front: &mut Front,
    roll: &mut Roll,
    sitting: &mut Sitting,
    batch: &Batch,
)
    requires log { log.now ≡ front.old.of }
    requires counted { IsCountOf roll.old front.old }
    requires recalled { Recalls sitting.old front.old }
    requires seat { batch.now.seat ≡ sitting.old.seat }
    requires first { batch.now.first ≡ sitting.old.number }
    requires fits { All (MayPost front.old.config) batch.now.whats }
    requires due { lookup (is_at (nat_cmp sitting.old.seat)) roll.old.seats
        ≡ Some sitting.old.number }
    ensures front { front.new ≡ longer_by front.old (events_in batch.now) }
    ensures counted { IsCountOf roll.new front.new }
    ensures recalled { Recalls sitting.new front.new }
    ensures seat { sitting.new.seat ≡ sitting.old.seat }
    ensures number { sitting.new.number ≡ sitting.old.number + length batch.now.whats }
{
    let later = batch.first() + batch.len() as u64;
    note_all(roll, sitting, batch);
    roll.count_to(sitting.seat(), later);
    sitting.count_to(later);
    if front.len() >= MOST_EVENTS || !front.add_all(log, batch) {
        hang(rt);
    }
}

// Notes which peers a batch opens, for all and for its seat.
fn note_all(roll: &mut Roll, sitting: &mut Sitting, batch: &Batch)
    ensures roll { roll.new ≡ record roll.old
        { last = lasts_after roll.old.last batch.now.seat batch.now.whats } }
    ensures sitting { sitting.new ≡ record sitting.old
        { opened = all_opened_after sitting.old.opened batch.now.whats } }
{
    for place in 0..batch.len() {
        let posting = batch.at(place);
        roll.note(posting.seat, posting.what);
        sitting.note(posting.what);
    }
}
