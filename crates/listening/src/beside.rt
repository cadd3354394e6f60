//! The doors of a collector, with visits, a watch and a pulse beside them.

use agg_types::Config;
use hub::{Hub, Naming};
use serve::{Caller, Clock, Door, Doors, Faulted, Gate, Served, Source, serve_all};
use std::io::Write;
use std::sync::Wait;
use std::sync::atomic::{AtomicU64, Ordering};
use std::thread::Threads;
use web_serve::Visits;

/// What is served beside the doors: visits, a watch and a pulse, of which the latter two have one
/// thread each.
#[derive(Drop)]
pub struct Beside<'v, 'w, 'p, V, F, P> {
    visits: &'v V,
    watch: &'w F,
    pulse: &'p P,
    // how many threads came to serve them
    came: AtomicU64,
}

impl<'v, 'w, 'p, V: Visits, F: Visits, P: Visits> Beside<'v, 'w, 'p, V, F, P> {
    /// No thread serves them yet.
    pub fn new(visits: &'v V, watch: &'w F, pulse: &'p P) -> Beside<'v, 'w, 'p, V, F, P> {
        Beside {
            visits,
            watch,
            pulse,
            came: AtomicU64::new(0),
        }
    }

    fn threads(&self) -> u64 {
        self.visits.threads().saturating_add(2)
    }

    // The first thread watches, the second is the pulse, the others serve visits.
    fn serve(&self) {
        match self.came.fetch_add(1, Ordering::SeqCst) {
            0 => self.watch.serve(),
            1 => self.pulse.serve(),
            _ => self.visits.serve(),
        }
    }
}

/// Doors, and what is served beside them.
#[derive(Drop)]
struct WithVisits<'d, 'b, 'v, 'w, 'p, D, V, F, P> {
    doors: &'d D,
    beside: &'b Beside<'v, 'w, 'p, V, F, P>,
}

impl<
    'd,
    'b,
    'v,
    'w,
    'p,
    S: Source + Drop,
    W: Write + Drop,
    D: Doors<S, W>,
    V: Visits,
    F: Visits,
    P: Visits,
> Doors<S, W> for WithVisits<'d, 'b, 'v, 'w, 'p, D, V, F, P> {
    ghost unread = { D.unread };

    ghost blank = { D.blank };

    fn peer(&self) -> Option<Caller<S, W>> {
        self.doors.peer()
    }

    fn admin(&self) -> Option<Caller<S, W>> {
        self.doors.admin()
    }

    fn door(&self, source: &S) -> Door {
        self.doors.door(source)
    }

    fn greet(&self, config: &Config, source: &mut S) -> bool {
        self.doors.greet(config, source)
    }

    fn seated(&self, source: &S) {
        self.doors.seated(source);
    }

    fn keeps_clock(&self) -> bool {
        self.doors.keeps_clock()
    }

    fn threads_beside(&self) -> u64 {
        self.beside.threads()
    }

    fn beside(&self) {
        self.beside.serve();
    }

    fn part_peer(&self, config: &Config, source: S, writer: W, ended: Result<Served, Faulted>) {
        self.doors.part_peer(config, source, writer, ended);
    }

    fn part_admin(
        &self,
        config: &Config,
        source: S,
        writer: W,
        door: Door,
        ended: Result<Served, Faulted>,
    ) {
        self.doors.part_admin(config, source, writer, door, ended);
    }
}

/// Serves who comes to these doors as `serve_all` does, and what is to be served beside them.
pub fn serve_beside<
    J: Naming + Send + Sync,
    H: Wait + Drop + Send,
    R: Threads + Wait + AllocGlobal + std::rt::Clock + Copy + Send + Sync,
    S: Source + Send + Drop,
    W: Write + Send + Drop,
    C: Clock + Sync,
    G: Gate + Sync,
    D: Doors<S, W> + Sync,
    V: Visits + Sync,
    F: Visits + Sync,
    P: Visits + Sync,
>(rt: &R, doors: &D, beside: &Beside<'_, '_, '_, V, F, P>, clock: &C, hub: &Hub<J, H>, gate: &G) {
    let doors = WithVisits { doors, beside };
    let _ended = serve_all(rt, rt.alloc(), &doors, clock, hub, gate);
}
