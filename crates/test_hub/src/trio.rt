//! Two passes and a lens, each in a thread of its own.

ghost use Rattle.std.specs.Prelude.{◌≡◌};

use agg_types::Whats;
use anyhow::Result;
use hub::{Hub, Naming, Opening};
use std::alloc::Global;
use std::sync::Wait;
use std::sync::atomic::{AtomicBool, AtomicUsize, Ordering};
use std::thread;
use std::thread::Threads;
use test_hub_calls::{batch, lens, post, seen, sit};
use test_support::{alone, put};

/// How many batches each pass posts.
const POSTS: u64 = 100;

/// What three threads over a hub tell each other.
#[derive(Drop)]
struct Trio<'a, J: Naming, H: Wait + Drop> {
    alloc: Global,
    hub: &'a Hub<J, H>,
    // How many threads still post.
    posting: AtomicUsize,
    // Whether a look ever showed less than an earlier one of the same lens.
    fell: AtomicBool,
}

// A peer speaks, and its count of the address 0.0.0.0 rises by one with each batch.
fn rise<J: Naming, H: Wait + Drop, W: Wait>(
    rt: &W,
    trio: &Trio<'_, J, H>,
    peer: usize,
) -> Result<()> {
    let mut pass = sit(rt, trio.hub)?;
    post(
        rt,
        trio.alloc,
        trio.hub,
        &mut pass,
        batch(trio.alloc, peer, 1)?,
    )?;
    for count in 2..POSTS + 1 {
        let whats = alone(trio.alloc, put(trio.alloc, peer, 0, count)?)?;
        post(rt, trio.alloc, trio.hub, &mut pass, whats)?;
    }
    Ok(())
}

// Posts, and tells when that is over.
fn speak<J: Naming, H: Wait + Drop, W: Wait>(rt: &W, trio: &Trio<'_, J, H>, peer: usize) {
    let _ = rise(rt, trio, peer);
    let _before = trio.posting.fetch_sub(1, Ordering::SeqCst);
}

// Looks until nobody posts any more, and once behind that.
fn follow<J: Naming, H: Wait + Drop, W: Wait>(rt: &W, trio: &Trio<'_, J, H>) -> Result<()> {
    let mut lens = lens(rt, trio.hub)?;
    let mut last = 0;
    for _ in rt.forever() {
        let over = trio.posting.load(Ordering::SeqCst) == 0;
        let sum = seen(trio.alloc, &mut lens)?;
        if sum < last {
            trio.fell.store(true, Ordering::SeqCst);
        }
        last = sum;
        if over {
            break;
        }
        thread::yield_now();
    }
    Ok(())
}

/// Two sessions post beside each other, and a reader looks all the while: no look shows less than
/// the one before it, and the last one shows all.
pub fn stage<J: Naming + Send + Sync, R: Threads + Wait + Print + Copy + Send + Sync>(
    rt: &R,
    alloc: Global,
    opening: Opening,
) -> Result<()>
    requires { opening.of ≡ J.book }
{
    row(rt, alloc, &Hub::<J, &R>::new(alloc, rt, opening, 4)?)
}

// What the three threads did, over a hub.
fn row<
    J: Naming + Send + Sync,
    H: Wait + Drop + Send,
    R: Threads + Wait + Print + Copy + Send + Sync,
>(rt: &R, alloc: Global, hub: &Hub<J, H>) -> Result<()> {
    let trio = Trio {
        alloc,
        hub,
        posting: AtomicUsize::new(2),
        fell: AtomicBool::new(false),
    };
    let all = &trio;
    thread::scope(thread::scope_env(), rt, |scope| {
        for peer in 0..2 {
            if scope.spawn(move || speak(rt, all, peer)).is_err() {
                let _before = all.posting.fetch_sub(1, Ordering::SeqCst);
            }
        }
        let _ = follow(rt, all);
    });
    let fell = trio.fell.load(Ordering::SeqCst);
    let sum = seen(alloc, &mut lens(rt, hub)?)?;
    println!(rt; "two passes and a lens in three threads: fell {fell}, a sum of {sum} at the end")?;
    Ok(())
}
