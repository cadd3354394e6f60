//! Who waits until the workers of a collector have ended, and ends it where it is stuck.

use crate::patience::{Patience, Round, Signs};
use crate::pulse::Pulse;
use journal::{Alarm, Event, Journal};
use program::{Fault, Stuck};
use sockets::Ticks;
use std::sync::Wait;
use std::time::{Clock, Duration};

/// A round, in ms, and how many rests it has.
const ROUND: u64 = 500;

const RESTS: u64 = 10;

/// How many rests the workers of a stuck collector have to end: two seconds.
const LAST_RESTS: u64 = 40;

// Rests so often, or until the workers have ended: why, if they have.
fn rest<R: Clock>(rt: &R, pulse: &Pulse, rests: u64) -> Option<Fault> {
    for _ in 0..rests {
        if let Some(fault) = pulse.take_fault() {
            return Some(fault);
        }
        rt.sleep(Duration::from_millis(ROUND / RESTS));
    }
    None
}

// Says that the collector is stuck, and has those workers end that can.
fn give_up<R: Clock + Wait>(rt: &R, journal: &Journal, pulse: &Pulse, stuck: Stuck) -> Fault {
    let reason = stuck.reason();
    journal.note(rt, Event::Alarm(Alarm::Stuck { reason }));
    pulse.connections.stop();
    let _ended = rest(rt, pulse, LAST_RESTS);
    Fault::Stuck(stuck)
}

/// Waits until the workers have ended, and answers why they have. Where the collector is stuck it
/// says so, and waits for them no longer than two seconds: a worker that waits for what never comes
/// is cut off where the program ends. It waits for no lock that a worker may hold for long.
pub fn attend<R: Clock + Wait>(
    rt: &R,
    clock: &Ticks<R>,
    journal: &Journal,
    pulse: &Pulse,
) -> Fault {
    let mut patience = Patience::new();
    let mut signs = Signs::nothing();
    let mut last = clock.moment();
    for _ in rt.forever() {
        if let Some(fault) = rest(rt, pulse, RESTS) {
            return fault;
        }
        if let Some(seen) = pulse.signs() {
            signs = seen;
        }
        let now = clock.moment();
        let round = Round {
            signs,
            passed: now.saturating_sub(last).max(ROUND),
        };
        last = now;
        if let Some(stuck) = patience.see(round) {
            return give_up(rt, journal, pulse, stuck);
        }
    }
    unreachable!()
}
