//! Runs sessions, admins, timers and all of them together over connections in memory, and prints
//! what they do.
//!
//! Each scene is over a hub of its own. A line has the bytes that a worker wrote, and at `over`
//! what the row of 10.0.0.1 was in the fleet as each write was made. It has why the worker ended,
//! and how many events the history has up to the last that it posted (`last`), and up to its leave
//! (`left`). The last lines are of two peers, one that nobody knows, an admin and a timer at once,
//! each in a thread of its own. The threads go one at a time in a fixed order: one thread for all
//! would wait for ever. Three times all say what they have, once a gate closes before they have,
//! and once nothing is served, since the timer has no seat. Before them stand sessions of fleets
//! whose proxies are told a filter's keys, and workers to which allocations are refused.
#![tactic(auto)]

ghost use Rattle.std.specs.Prelude.{◌≡◌};

mod admins;
mod bytes;
mod cases;
mod everyone;
mod fleet;
mod held;
mod known;
mod lobby;
mod memory;
mod news;
mod order;
mod paper;
mod peers;
mod pieces;
mod recording;
mod refused;
mod rival;
mod scene;
mod timers;
mod told;

use crate::everyone::COURSES;
use crate::order::Course;
use crate::peers::Case;
use crate::refused::{TRIALS, Trial};
use crate::scene::{Scene, gated, interrupted, play, read_to, unseated, whole, written_to};
use anyhow::{Result, anyhow};
use hub::{Hub, Naming, Opening};
use std::alloc::Global;
use std::env::Env;
use std::marker::Brand;
use std::sync::Wait;
use std::thread::Threads;
use std::time::Clock;
use test_hub_calls::{TRIES, opening};
use test_support::{TWO_PROXIES, config};

/// Does a scene over a hub of its own.
fn stage<J: Naming, R: Print + Wait + Clock>(
    rt: &R,
    alloc: Global,
    opening: Opening,
    scene: Scene,
) -> Result<()>
    requires { opening.of ≡ J.book }
{
    let hub = Hub::<J, &R>::new(alloc, rt, opening, 4)?;
    play(rt, alloc, &hub, scene)
}

/// Serves all over a hub of its own.
fn stage_all<J: Naming + Send + Sync, R: Print + Threads + Wait + Clock + Copy + Send + Sync>(
    rt: &R,
    alloc: Global,
    opening: Opening,
    course: Course,
) -> Result<()>
    requires { opening.of ≡ J.book }
{
    let hub = Hub::<J, &R>::new(alloc, rt, opening, 4)?;
    everyone::row(rt, alloc, &hub, course)
}

/// Serves a session behind a look, over a hub of its own.
fn stage_held<J: Naming + Send + Sync, R: Print + Threads + Wait + Clock + Copy + Send + Sync>(
    rt: &R,
    alloc: Global,
    opening: Opening,
) -> Result<()>
    requires { opening.of ≡ J.book }
{
    held::row(rt, alloc, &Hub::<J, &R>::new(alloc, rt, opening, 4)?)
}

/// Sessions to which nothing happens from outside, and some without a seat.
fn add_sessions(scenes: &mut Vec<Scene>) -> Result<()> {
    for (title, steps) in cases::SESSIONS {
        scenes.push(Scene::Session(whole(title, steps)))?;
    }
    for case in [
        unseated("no seat", &cases::TALK),
        unseated("no seat, no hello", &cases::NO_HELLO),
        interrupted("interrupted writes", &cases::TALK, 3),
    ] {
        scenes.push(Scene::Session(case))?;
    }
    Ok(())
}

/// A session with the next peer behind it, and an admin.
fn add_both(scenes: &mut Vec<Scene>, session: Case, admin: Case) -> Result<()> {
    scenes.push(Scene::Next(session))?;
    scenes.push(Scene::Admin(admin))?;
    Ok(())
}

/// Sessions and admins whose reads fail.
fn add_failed_reads(scenes: &mut Vec<Scene>) -> Result<()> {
    for (title, reads) in cases::READS {
        let session = read_to(title, &cases::TALK, reads);
        add_both(scenes, session, read_to(title, &cases::COMMANDS, reads))?;
    }
    Ok(())
}

/// Sessions whose writes fail, admins to which nothing happens from outside, and admins whose
/// writes fail.
fn add_failed_writes(scenes: &mut Vec<Scene>) -> Result<()> {
    for (title, writes) in cases::WRITES {
        scenes.push(Scene::Next(written_to(title, &cases::TALK, writes, 3)))?;
    }
    for (title, steps) in cases::ADMINS {
        scenes.push(Scene::Admin(whole(title, steps)))?;
    }
    for (title, writes) in cases::WRITES {
        scenes.push(Scene::Admin(written_to(title, &cases::COMMANDS, writes, 20)))?;
    }
    Ok(())
}

/// Admins whose answers people read.
fn add_people(scenes: &mut Vec<Scene>) -> Result<()> {
    for (title, steps) in cases::PEOPLE {
        scenes.push(Scene::Person(whole(title, steps)))?;
    }
    Ok(())
}

/// Sessions and admins whose gate closes.
fn add_gates(scenes: &mut Vec<Scene>) -> Result<()> {
    for (title, looks) in cases::LOOKS {
        let session = gated(title, &cases::TALK, looks);
        add_both(scenes, session, gated(title, &cases::COMMANDS, looks))?;
    }
    Ok(())
}

/// Many workers, one after the other, that end before their source does; and timers.
fn add_last(scenes: &mut Vec<Scene>) -> Result<()> {
    for scene in [
        Scene::Leaving(
            read_to("sessions whose second read fails", &cases::TALK, 1),
            600,
        ),
        Scene::Leaving(gated("sessions whose gate closes", &cases::TALK, 1), 600),
        Scene::Quitting(gated("admins whose gate closes", &cases::COMMANDS, 2), 600),
        Scene::Timer([100, 200, 150, 300]),
        Scene::Timer([70, 70, 70, 70]),
        Scene::Portions(1000, 4),
        Scene::Portions(3, 6),
        Scene::Portions(1, 3),
    ] {
        scenes.push(scene)?;
    }
    Ok(())
}

/// A session whose proxy is told what is pushed, of which so many writes work.
fn telling(title: &'static str, writes: u64) -> Scene {
    Scene::Session(written_to(title, &cases::TOLD, writes, 1000))
}

/// The scenes, in their order.
fn scenes(alloc: Global) -> Result<Vec<Scene>> {
    let mut scenes = Vec::new(alloc);
    add_sessions(&mut scenes)?;
    add_failed_reads(&mut scenes)?;
    add_failed_writes(&mut scenes)?;
    add_people(&mut scenes)?;
    add_gates(&mut scenes)?;
    add_last(&mut scenes)?;
    Ok(scenes)
}

/// Does a scene over a hub of the fleet that a text writes.
fn act<R: Print + Wait + Clock>(rt: &R, alloc: Global, fleet: &[u8], scene: Scene) -> Result<()> {
    let opening = Opening::new(alloc, config(alloc, fleet)?, 0)?;
    stage::<Brand, R>(rt, alloc, opening, scene)
}

/// Runs each.
fn run<R: Print + Threads + Wait + Clock + Copy + Send + Sync>(
    rt: &R,
    alloc: Global,
) -> Result<()> {
    for scene in scenes(alloc)? {
        act(rt, alloc, TWO_PROXIES, scene)?;
    }
    for (title, fleet, writes) in cases::TELLINGS {
        act(rt, alloc, fleet, telling(title, writes))?;
    }
    for (title, fleet, steps) in news::CASES {
        act(rt, alloc, fleet, Scene::News(title, steps))?;
    }
    act(rt, alloc, pieces::LARGE, Scene::Pieces)?;
    for scene in [Scene::Rival, Scene::Known] {
        act(rt, alloc, TWO_PROXIES, scene)?;
    }
    run_again(rt, alloc)?;
    stage_held::<Brand, R>(rt, alloc, opening(alloc)?)?;
    for course in COURSES {
        stage_all::<Brand, R>(rt, alloc, opening(alloc)?, course)?;
    }
    Ok(())
}

/// Lets a worker work to which allocations are refused, from the start where none was printed.
fn act_again<R: Print + Wait + Clock>(rt: &R, alloc: Global, trial: Trial) -> Result<()> {
    for _ in 0..TRIES {
        if act(rt, alloc, trial.fleet, Scene::Refused(trial)).is_ok() {
            return Ok(());
        }
    }
    Err(anyhow!("{} never worked", trial.title))
}

/// Workers to which allocations are refused.
fn run_again<R: Print + Wait + Clock>(rt: &R, alloc: Global) -> Result<()> {
    for trial in TRIALS {
        act_again(rt, alloc, trial)?;
    }
    Ok(())
}

fn main(rt: HostRuntime) -> Result<()> {
    if std::env::args(&rt)?.any(|word| word.as_str() == "again") {
        return run_again(&rt, rt.alloc());
    }
    run(&rt, rt.alloc())
}
