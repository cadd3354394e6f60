//! Timers over memory.

ghost use Rattle.std.specs.Prelude.{◌≡◌, ℕ, IfOk, slice_index_or, true};
ghost use Rattle.hub.specs.Posts.{Follows, SitsDown};
ghost use Rattle.worker_frame.specs.Moments.{IsTimed};

use crate::admins::{lens_of, seat_of};
use crate::fleet::moment_in;
use crate::memory::Turnstile;
use crate::told::Ending;
use agg_types::{Cell, Cells, What, Whats};
use anyhow::{Result, anyhow};
use hub::{Hub, Lens, Naming, Pass};
use serve::{Clock, Context, Faulted, Gate, Place, Served, run_timer};
use std::alloc::Global;
use std::sync::atomic::{AtomicU64, AtomicUsize, Ordering};
use std::sync::{Mutex, Wait};
use test_hub_calls::{lens, post, sit};
use test_support::{address, alone};

/// The moments of a clock, one behind each rest; then 0.
#[derive(Drop)]
pub struct Beats {
    moments: [u64; 4],
    at: AtomicUsize,
    portion: usize,
}

impl Beats {
    /// A clock of these moments, which lets all rows end by one.
    pub fn new(moments: [u64; 4]) -> Beats {
        Beats {
            moments,
            at: AtomicUsize::new(0),
            portion: 1000,
        }
    }
}

impl Clock for Beats {
    ghost use Rattle.std.specs.Prelude.{◌≡◌, ℕ, slice_index_or};

    ghost gives = { λ clock moment. (at : ℕ) × (moment ≡ slice_index_or clock.moments at 0) };

    fn now(&self) -> u64 {
        let at = self.at.load(Ordering::SeqCst);
        *self.moments.get(at).unwrap_or(&0)
    }

    fn rest(&self) {
        self.at.fetch_add(1, Ordering::SeqCst);
    }

    fn portion(&self) -> usize {
        self.portion
    }
}

/// A gate that is open for so many looks, and tells at each what the fleet's moment is and how many
/// keys the first table has then.
#[derive(Drop)]
struct Window<'a, R> {
    rt: &'a R,
    lens: Mutex<Lens>,
    open: u64,
    looks: AtomicU64,
}

impl<'a, R: Print + Wait> Gate for Window<'a, R> {
    fn turn(&self, _place: Place) {}

    fn stop(&self) -> bool {
        let mut guard = self.lens.lock(self.rt);
        let lens = &mut *guard;
        if let Some(look) = lens.look() {
            let book = look.book();
            let _ = println!(self.rt; "  at {} {} keys", book.moment(), book.used(0));
        }
        self.looks.fetch_add(1, Ordering::SeqCst) >= self.open
    }
}

/// The turns that a timer makes before its gate closes.
const TURNS: u64 = 4;

/// Rows by their addresses, and how long each lives, in ms.
const ROWS: [(u32, u64); 8] = [
    (0, 10),
    (1, 10),
    (2, 20),
    (3, 30),
    (4, 30),
    (5, 30),
    (6, 30),
    (7, 90),
];

/// Runs a timer, and has a lens of the same hub learn what its last post shows. What it told at Ok
/// are some of its clock's four moments, and 0 where the clock had no more; before each others that
/// rise up to it.
fn run<J: Naming, H: Wait + Drop, R: Wait, G: Gate>(
    context: &Context<'_, J, H, R, Beats, G>,
    pass: Pass,
    lens: &mut Lens,
) -> Result<Served, Faulted>
    requires pass { SitsDown pass × Follows context.now.hub.now pass.seen }
    requires lens { Follows context.now.hub.now lens.old.seen }
    ensures { IfOk result (IsTimed context.now.hub.now (λ moment. (at : ℕ)
        × (moment ≡ slice_index_or context.now.clock.now.moments at 0)) true pass.seat 0) }
{
    let served = run_timer(context, pass)?;
    if let Some(receipt) = &served.last {
        lens.learn(receipt);
    }
    Ok(served)
}

/// Runs a timer over a clock and a gate, and tells how it ended and what a look shows that has
/// learned of its last post. None without a seat or a lens.
pub fn tick<J: Naming, H: Wait + Drop, R: Wait, G: Gate>(
    rt: &R,
    alloc: Global,
    hub: &Hub<J, H>,
    beats: &Beats,
    gate: &G,
) -> Option<(Ending, Option<u64>)> {
    let mut lens = lens_of(rt, hub)?;
    let pass = seat_of(rt, hub)?;
    let context = Context {
        rt,
        alloc,
        hub,
        clock: beats,
        gate,
    };
    let ended = run(&context, pass, &mut lens);
    Some((Ending::of(&ended), moment_in(&mut lens)))
}

/// Runs a timer over these moments, and prints how it ended and what the fleet's moment is then.
pub fn row<J: Naming, H: Wait + Drop, R: Wait + Print>(
    rt: &R,
    alloc: Global,
    hub: &Hub<J, H>,
    moments: [u64; 4],
) -> Result<()> {
    let beats = Beats::new(moments);
    let gate = Turnstile::new(TURNS);
    let Some((ending, moment)) = tick(rt, alloc, hub, &beats, &gate) else {
        return Err(anyhow!("no seat or no lens"));
    };
    println!(rt; "a clock of {moments:?}: {ending}; then {moment:?}")?;
    Ok(())
}

/// A peer speaks, and puts these rows.
fn rows(alloc: Global) -> Result<Whats> {
    let mut whats = alone(alloc, What::Open(0))?;
    for (number, life) in ROWS {
        whats.push(What::Put {
            peer: 0,
            table: 0,
            key: address(alloc, number)?,
            life: Some(life),
            cells: Cells::copy(alloc, &[Cell::Count(1)])?,
        })?;
    }
    Ok(whats)
}

/// Runs a timer that lets few rows end by one moment, until its gate closes at a look. Prints what
/// is seen at each look, and how the timer ended.
pub fn portions<J: Naming, H: Wait + Drop, R: Wait + Print>(
    rt: &R,
    alloc: Global,
    hub: &Hub<J, H>,
    portion: usize,
    open: u64,
) -> Result<()> {
    let mut pass = sit(rt, hub)?;
    post(rt, alloc, hub, &mut pass, rows(alloc)?)?;
    let beats = Beats {
        moments: [100, 200, 150, 300],
        at: AtomicUsize::new(0),
        portion,
    };
    let gate = Window {
        rt,
        lens: Mutex::new(lens(rt, hub)?),
        open,
        looks: AtomicU64::new(0),
    };
    println!(rt;
        "a clock of {:?}, with portions of {portion}:",
        beats.moments
    )?;
    let Some((ending, moment)) = tick(rt, alloc, hub, &beats, &gate) else {
        return Err(anyhow!("no seat or no lens"));
    };
    println!(rt; "  {ending}; then {moment:?}")?;
    Ok(())
}
