//! An append beside a publication that waits for a look.

ghost use Rattle.std.specs.Prelude.{◌≡◌, true};

use agg_types::Whats;
use anyhow::{Result, anyhow};
use hub::{Hub, Look, Naming, Opening, Pass};
use std::alloc::Global;
use std::sync::Wait;
use std::sync::atomic::{AtomicBool, Ordering};
use std::thread;
use std::thread::Threads;
use std::time::{Clock, Duration, Instant};
use test_hub_calls::{batch, first_sum, lens, post, seen, session, sit};
use test_support::address;

/// How long the look lasts once the other thread posts, in ms.
const LOOK: u64 = 100;

/// How often it is read then.
const TURNS: usize = 1000;

/// What two threads over a hub tell each other.
#[derive(Drop)]
struct Both<'a, J: Naming, H: Wait + Drop> {
    alloc: Global,
    hub: &'a Hub<J, H>,
    // Whether the one that looks is inside its look, or gave up.
    inside: AtomicBool,
    // Whether the one that posts has begun.
    posting: AtomicBool,
    // Whether all was appended inside the look.
    appended: AtomicBool,
    // Whether the look showed the same all the while.
    stood: AtomicBool,
}

fn wait_for<W: Wait>(rt: &W, flag: &AtomicBool) {
    for _ in rt.forever() {
        if flag.load(Ordering::SeqCst) {
            break;
        }
        thread::yield_now();
    }
}

// Lets time go by.
fn linger<W: Wait + Clock>(rt: &W) -> Result<()> {
    let start = Instant::now(rt)?;
    for _ in rt.forever() {
        if start.elapsed(rt)? >= Duration::from_millis(LOOK) {
            break;
        }
        thread::yield_now();
    }
    Ok(())
}

// Whether a look shows the same sum at each of many turns.
fn stands(alloc: Global, look: &Look<'_>) -> Result<bool>
    requires { look.now.lens.now.inside ≡ true }
{
    let key = address(alloc, 0)?;
    let first = first_sum(look.book().summed(0, &key));
    let mut same = true;
    for _ in 0..TURNS {
        same = same && first_sum(look.book().summed(0, &key)) == first;
        thread::yield_now();
    }
    Ok(same)
}

// Three sessions of a peer, one after the other. The second publication, if not the first, waits
// for the look.
fn speak<J: Naming, H: Wait + Drop, W: Wait>(rt: &W, both: &Both<'_, J, H>) {
    wait_for(rt, &both.inside);
    both.posting.store(true, Ordering::SeqCst);
    for count in 1..4 {
        let _ = session(rt, both.alloc, both.hub, 1, count);
    }
}

/// Appends a batch; whether it stands in the history.
pub fn append<J: Naming, H: Wait + Drop, W: Wait>(
    rt: &W,
    hub: &Hub<J, H>,
    pass: &mut Pass,
    whats: Whats,
) -> bool
    requires { pass.old.seen.of ≡ hub.now.of }
    ensures { pass.new.seen.of ≡ hub.now.of }
{
    if !hub.allows(&whats) {
        return false;
    }
    hub.append(rt, pass, whats).is_ok()
}

// Appends a batch inside a look, while the other thread posts, and has it shown behind the look.
fn look_on<J: Naming, H: Wait + Drop, W: Wait + Clock>(
    rt: &W,
    both: &Both<'_, J, H>,
) -> Result<()> {
    let mut pass = sit(rt, both.hub)?;
    let mut lens = lens(rt, both.hub)?;
    let Some(look) = lens.look() else {
        return Err(anyhow!("no look"));
    };
    both.inside.store(true, Ordering::SeqCst);
    wait_for(rt, &both.posting);
    both.stood
        .store(stands(both.alloc, &look)?, Ordering::SeqCst);
    linger(rt)?;
    let appended = append(rt, both.hub, &mut pass, batch(both.alloc, 0, 5)?);
    drop(look);
    both.appended.store(appended, Ordering::SeqCst);
    post(rt, both.alloc, both.hub, &mut pass, Whats::new(both.alloc))?;
    Ok(())
}

// Looks, and lets the other thread go on where that failed.
fn watch<J: Naming, H: Wait + Drop, W: Wait + Clock>(rt: &W, both: &Both<'_, J, H>) {
    let _ = look_on(rt, both);
    both.inside.store(true, Ordering::SeqCst);
}

// What both threads did, over a hub.
fn row<
    J: Naming + Send + Sync,
    H: Wait + Drop + Send,
    R: Threads + Wait + Clock + Print + Copy + Send + Sync,
>(rt: &R, alloc: Global, hub: &Hub<J, H>) -> Result<()> {
    let both = Both {
        alloc,
        hub,
        inside: AtomicBool::new(false),
        posting: AtomicBool::new(false),
        appended: AtomicBool::new(false),
        stood: AtomicBool::new(false),
    };
    let all = &both;
    thread::scope(thread::scope_env(), rt, |scope| {
        if scope.spawn(move || watch(rt, all)).is_ok() {
            speak(rt, all);
        }
    });
    let appended = both.appended.load(Ordering::SeqCst);
    let sum = seen(alloc, &mut lens(rt, hub)?)?;
    let stood = both.stood.load(Ordering::SeqCst);
    println!(rt; "appended inside a look: {appended}, with a sum of {sum}; it stood: {stood}")?;
    Ok(())
}

/// One thread appends inside a look for which the publication of another one waits: so nothing is
/// published under the lock by which batches are appended.
pub fn stage<J: Naming + Send + Sync, R: Threads + Wait + Clock + Print + Copy + Send + Sync>(
    rt: &R,
    alloc: Global,
    opening: Opening,
) -> Result<()>
    requires { opening.of ≡ J.book }
{
    row(rt, alloc, &Hub::<J, &R>::new(alloc, rt, opening, 4)?)
}
