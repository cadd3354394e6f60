//! All workers of a collector, in threads of their own.

use crate::fleet::{moment_in, sum_in};
use crate::lobby::Lobby;
use crate::order::{Course, Order, Who};
use agg_types::MOST_SEATS;
use anyhow::Result;
use hub::{Hub, Lens, Naming};
use serve::serve_all;
use std::alloc::Global;
use std::sync::Wait;
use std::thread::Threads;
use std::time::Clock;

/// Who goes when. Each caller's last turn is the end of its connection.
const TURNS: [Who; 15] = [
    Who::First,
    Who::Second,
    Who::First,
    Who::Timer,
    Who::Admin,
    Who::Second,
    Who::Third,
    Who::First,
    Who::Timer,
    Who::Admin,
    Who::First,
    Who::Admin,
    Who::Second,
    Who::Admin,
    Who::Timer,
];

/// Of two sessions the first one is held at its gate until the other's hello was answered.
const BEHIND_THE_OTHER: [Who; 13] = [
    Who::Second,
    Who::First,
    Who::First,
    Who::First,
    Who::First,
    Who::Second,
    Who::Second,
    Who::Third,
    Who::Admin,
    Who::Admin,
    Who::Admin,
    Who::Admin,
    Who::Timer,
];

/// The first session is held at its gate until an admin's first command was answered.
const BEHIND_THE_ADMIN: [Who; 13] = [
    Who::Admin,
    Who::First,
    Who::First,
    Who::First,
    Who::First,
    Who::Second,
    Who::Second,
    Who::Second,
    Who::Third,
    Who::Admin,
    Who::Admin,
    Who::Admin,
    Who::Timer,
];

/// Who goes when where a gate closes behind the fourth turn. Each has one more turn from then on,
/// in which it treats what it had waited for; the timer's is the last.
const LAST_TURNS: [Who; 9] = [
    Who::First,
    Who::Second,
    Who::First,
    Who::Admin,
    Who::First,
    Who::Admin,
    Who::Second,
    Who::Third,
    Who::Timer,
];

/// A gate that never closes.
const WHOLE: Course = Course {
    title: "all in turn",
    turns: &TURNS,
    open: usize::MAX,
    is_full: false,
};

/// What is served, in its order: at last nothing, since the timer has no seat.
pub const COURSES: [Course; 5] = [
    WHOLE,
    Course {
        title: "a session behind the other's hello",
        turns: &BEHIND_THE_OTHER,
        ..WHOLE
    },
    Course {
        title: "a session behind an admin's answer",
        turns: &BEHIND_THE_ADMIN,
        ..WHOLE
    },
    Course {
        title: "a gate that closes",
        turns: &LAST_TURNS,
        open: 4,
        is_full: false,
    },
    Course {
        title: "no seat for the timer",
        is_full: true,
        ..WHOLE
    },
];

/// Prints what a lens shows.
fn say_shown(rt: &impl Print, alloc: Global, lens: Option<Lens>) -> Result<()> {
    if let Some(mut lens) = lens {
        let sum = sum_in(alloc, &mut lens)?;
        println!(rt; "10.0.0.1 has {sum:?} at {:?}", moment_in(&mut lens))?;
    }
    Ok(())
}

/// Takes all seats.
fn fill<J: Naming, H: Wait + Drop, R: Wait>(rt: &R, hub: &Hub<J, H>) {
    for _ in 0..MOST_SEATS {
        let _ = hub.seat(rt);
    }
}

/// Serves all that come through the doors in memory, in this order.
pub fn row<
    J: Naming + Send + Sync,
    H: Wait + Drop + Send,
    R: Threads + Wait + Clock + Print + Copy + Send + Sync,
>(rt: &R, alloc: Global, hub: &Hub<J, H>, course: Course) -> Result<()> {
    println!(rt; "{}:", course.title)?;
    if course.is_full {
        fill(rt, hub);
    }
    let order = Order::new(course);
    let lobby = Lobby::new(rt, alloc, &order);
    let ended = serve_all(rt, alloc, &lobby, &lobby, hub, &lobby);
    println!(rt; "{ended:?}")?;
    say_shown(rt, alloc, hub.lens(rt).ok())
}
