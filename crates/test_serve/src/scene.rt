//! What is done over a hub of its own.

use crate::memory::Step;
use crate::paper::EVEN;
use crate::peers::Case;
use crate::refused::Trial;
use crate::{admins, cases, known, news, peers, pieces, refused, rival, timers};
use anyhow::Result;
use hub::{Hub, Naming};
use serve::Door;
use std::alloc::Global;
use std::sync::Wait;
use std::time::Clock;

/// What is done over a hub.
#[derive(Clone, Copy)]
pub enum Scene {
    /// A session.
    Session(Case),
    /// A session of another peer, after one that may fail.
    Next(Case),
    /// An admin, after the sessions of both peers.
    Admin(Case),
    /// The same, where people read the answers.
    Person(Case),
    /// A timer over these moments.
    Timer([u64; 4]),
    /// A timer that lets so many rows end by one moment, and whose gate is open for so many looks.
    Portions(usize, u64),
    /// So many sessions one after the other.
    Leaving(Case, u64),
    /// So many admins one after the other.
    Quitting(Case, u64),
    /// A session, and what it tells its gate.
    News(&'static str, &'static [Step]),
    /// A session whose proxy is told a large set.
    Pieces,
    /// A worker to which allocations are refused.
    Refused(Trial),
    /// A session whose peer calls again.
    Rival,
    /// A session and an admin of known bytes.
    Known,
}

/// A case without a fault.
pub fn whole(title: &'static str, steps: &'static [Step]) -> Case {
    Case {
        title,
        steps,
        reads: 1000,
        looks: 1000,
        pen: EVEN,
        seated: true,
    }
}

/// A case of which so many reads work.
pub fn read_to(title: &'static str, steps: &'static [Step], reads: u64) -> Case {
    let mut case = whole(title, steps);
    case.reads = reads;
    case
}

/// A case whose gate is open for so many looks.
pub fn gated(title: &'static str, steps: &'static [Step], looks: u64) -> Case {
    let mut case = whole(title, steps);
    case.looks = looks;
    case
}

/// A case of which so many writes are taken, each of at most so many bytes.
pub fn written_to(title: &'static str, steps: &'static [Step], writes: u64, most: usize) -> Case {
    let mut case = whole(title, steps);
    case.pen.writes = writes;
    case.pen.most = most;
    case
}

/// A case each of whose writes takes at most so many bytes, and is interrupted before.
pub fn interrupted(title: &'static str, steps: &'static [Step], most: usize) -> Case {
    let mut case = whole(title, steps);
    case.pen.interrupted = true;
    case.pen.most = most;
    case
}

/// A case without a seat.
pub fn unseated(title: &'static str, steps: &'static [Step]) -> Case {
    let mut case = whole(title, steps);
    case.seated = false;
    case
}

fn next<J: Naming, H: Wait + Drop, R: Wait + Clock + Print>(
    rt: &R,
    alloc: Global,
    hub: &Hub<J, H>,
    case: Case,
) -> Result<()> {
    peers::row(rt, alloc, hub, case)?;
    peers::say_sum(rt, alloc, hub.lens(rt).ok())?;
    peers::row(rt, alloc, hub, whole("  the next peer", &cases::OTHER_TALK))?;
    peers::say_sum(rt, alloc, hub.lens(rt).ok())
}

fn admin<J: Naming, H: Wait + Drop, R: Wait + Clock + Print>(
    rt: &R,
    alloc: Global,
    hub: &Hub<J, H>,
    case: Case,
    door: Door,
) -> Result<()> {
    let _ = peers::leavers(rt, alloc, hub, whole("", &cases::TALK), 1);
    let _ = peers::leavers(rt, alloc, hub, whole("", &cases::OTHER_TALK), 1);
    admins::row(rt, alloc, hub, case, door)?;
    peers::say_sum(rt, alloc, hub.lens(rt).ok())
}

fn say_left(rt: &impl Print, case: Case, count: u64, left: u64) -> Result<()> {
    println!(rt; "of {count} {} {left} had a seat and left it", case.title)?;
    Ok(())
}

/// Does a scene.
pub fn play<J: Naming, H: Wait + Drop, R: Wait + Clock + Print>(
    rt: &R,
    alloc: Global,
    hub: &Hub<J, H>,
    scene: Scene,
) -> Result<()> {
    match scene {
        Scene::Session(case) => peers::row(rt, alloc, hub, case),
        Scene::Next(case) => next(rt, alloc, hub, case),
        Scene::Admin(case) => admin(rt, alloc, hub, case, Door::Programs),
        Scene::Person(case) => admin(rt, alloc, hub, case, Door::People),
        Scene::Timer(moments) => timers::row(rt, alloc, hub, moments),
        Scene::Portions(portion, open) => timers::portions(rt, alloc, hub, portion, open),
        Scene::Leaving(case, count) => {
            say_left(rt, case, count, peers::leavers(rt, alloc, hub, case, count))
        }
        Scene::Quitting(case, count) => {
            say_left(
                rt,
                case,
                count,
                admins::leavers(rt, alloc, hub, case, count),
            )
        }
        Scene::News(title, steps) => news::row(rt, alloc, hub, title, steps),
        Scene::Pieces => pieces::row(rt, alloc, hub),
        Scene::Refused(trial) => refused::row(rt, alloc, hub, trial),
        Scene::Rival => rival::row(rt, alloc, hub),
        Scene::Known => known::row(rt, alloc, hub),
    }
}
