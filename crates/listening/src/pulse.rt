//! What the workers of a collector tell whoever watches that they go on.

use crate::patience::Signs;
use collector_log::Board;
use hub::{Hub, Naming};
use journal::{Alarm, Event, Journal};
use program::Fault;
use sockets::{Admins, Connections, HttpCall, Ticks};
use std::alloc::Global;
use std::sync::{Mutex, Wait};
use std::time::{Clock, Duration};
use web_serve::Visits;

/// How long is rested between two looks, in ms.
const REST: u64 = 100;

/// How many lines on HTTP are told between two looks.
const MOST_CALLS: u32 = 60;

/// What is shared with whoever watches, who waits for none of its locks.
#[derive(Drop)]
pub struct Pulse {
    pub connections: Connections,
    signs: Mutex<Signs>,
    // why the workers have ended, once they have
    fault: Mutex<Option<Fault>>,
}

impl Pulse {
    /// Nobody has looked yet.
    pub fn new(alloc: Global) -> Pulse {
        Pulse {
            connections: Connections::new(alloc),
            signs: Mutex::new(Signs::nothing()),
            fault: Mutex::new(None),
        }
    }

    /// What was seen at the last look. None where a look is just being noted.
    pub fn signs(&self) -> Option<Signs> {
        let guard = self.signs.try_lock()?;
        Some(*guard)
    }

    // Looked, and saw this; how often was looked it counts itself.
    fn look<R: Wait>(&self, rt: &R, seen: Signs) {
        let mut guard = self.signs.lock(rt);
        let signs = &mut *guard;
        let looks = signs.looks.wrapping_add(1);
        *signs = seen;
        signs.looks = looks;
    }

    /// The workers have ended, for this reason.
    pub fn end<R: Wait>(&self, rt: &R, fault: Fault) {
        let mut guard = self.fault.lock(rt);
        *guard = Some(fault);
    }

    /// Why the workers have ended, once, if they have. None also where that is just being noted.
    pub fn take_fault(&self) -> Option<Fault> {
        let mut guard = self.fault.try_lock()?;
        let fault = &mut *guard;
        fault.take()
    }
}

/// What looks at how far a collector has come, and tells it, in a thread of its own among the
/// workers. Where it doesn't come round any more, that shows, too. It tells the log of operators'
/// connections that were HTTP's.
#[derive(Drop)]
pub struct Beats<'h, 'b, 'a, 'j, 't, 'p, J: Naming, R: Wait + Drop> {
    pub rt: R,
    pub hub: &'h Hub<J, R>,
    pub board: &'b Board,
    pub admins: &'a Admins,
    pub journal: &'j Journal,
    pub clock: &'t Ticks<R>,
    pub pulse: &'p Pulse,
}

impl<'h, 'b, 'a, 'j, 't, 'p, J: Naming, R: Clock + Wait + Drop> Beats<
    'h,
    'b,
    'a,
    'j,
    't,
    'p,
    J,
    R,
> {
    // Looks how far showing and the clock have come.
    fn look(&self) {
        let progress = self.hub.progress(&self.rt);
        let moment = match self.board.last_turn() {
            None => 0,
            Some(moment) => moment.saturating_add(1),
        };
        let seen = Signs {
            looks: 0,
            appended: progress.appended,
            shown: progress.shown,
            showings: progress.rounds,
            is_showing: progress.is_publishing,
            moment,
        };
        self.pulse.look(&self.rt, seen);
    }

    // Tells of operators' connections that were HTTP's.
    fn tell_http(&self) {
        for _ in 0..MOST_CALLS {
            let Some(call) = self.admins.take_http(&self.rt, self.clock.moment()) else {
                return;
            };
            let alarm = match call {
                HttpCall::From(address) => Alarm::HttpAtAdmin { address },
                HttpCall::More(count) => Alarm::MoreHttp { count },
            };
            self.journal.note(&self.rt, Event::Alarm(alarm));
        }
    }
}

impl<'h, 'b, 'a, 'j, 't, 'p, J: Naming, R: Clock + Wait + Drop> Visits
    for Beats<'h, 'b, 'a, 'j, 't, 'p, J, R> {
    fn threads(&self) -> u64 {
        1
    }

    // Looks until the collector ends.
    fn serve(&self) {
        for _ in 0..u64::MAX {
            if self.pulse.connections.are_closed() {
                return;
            }
            self.look();
            self.tell_http();
            self.rt.sleep(Duration::from_millis(REST));
        }
    }
}
