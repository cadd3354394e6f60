//! When a collector counts as stuck, and lines of the log on that and on HTTP.

use crate::scene::Still;
use journal::{Alarm, Event, Heading, Journal};
use listening::{Patience, Round, Signs};
use program::Stuck;
use sockets::{Admins, HttpCall};
use std::io;
use std::net::{Ipv4Addr, SocketAddr, SocketAddrV4};
use std::sync::Wait;

/// 2026-11-24 at 09:45:12 in UTC.
const MORNING: u64 = 1_795_513_512;

/// How many rounds there are at most.
const MOST_ROUNDS: u64 = 200;

/// A round that comes in time, in ms.
const ROUND: u64 = 500;

/// What goes on in a collector, round by round.
#[derive(Clone, Copy, Debug)]
enum Course {
    /// All is shown, and the clock goes on.
    Well,
    /// No moment is ever posted.
    NoMoment,
    /// The clock stops at its first moment.
    ClockStops,
    /// Two events wait and aren't shown.
    NothingShown,
    /// The same, but one is shown in each 19th round, and one more comes.
    LittleShown,
    /// One showing is under way and doesn't end.
    LongShowing,
    /// One is under way for 30 s, and then all is shown and the clock goes on.
    EndedShowing,
    /// One is under way for 30 s, and then it is refused.
    RefusedShowing,
    /// A showing is under way in each round, and each is another one.
    RefusedEach,
    /// Nobody gets to look.
    Locked,
    /// The clock stops, and the process is stopped for 30 s in each round.
    Stopped,
    /// The clock stops, and each round comes 2 s late.
    Late,
}

/// All courses.
const COURSES: [Course; 12] = [
    Course::Well,
    Course::NoMoment,
    Course::ClockStops,
    Course::NothingShown,
    Course::LittleShown,
    Course::LongShowing,
    Course::EndedShowing,
    Course::RefusedShowing,
    Course::RefusedEach,
    Course::Locked,
    Course::Stopped,
    Course::Late,
];

/// The signs in the round of this number, the first of which is 1, where all goes well.
fn well(number: u64) -> Signs {
    Signs {
        looks: number,
        appended: 5,
        shown: 5,
        showings: 1,
        is_showing: false,
        moment: number,
    }
}

/// The signs where two events wait, and one showing is under way up to a round.
fn showing(number: u64, last: u64) -> Signs {
    let mut signs = well(number);
    signs.shown = 3;
    signs.is_showing = number <= last;
    signs.moment = 1;
    signs
}

/// What is seen in the round of this number.
fn signs_of(course: Course, number: u64) -> Signs {
    let mut signs = well(number);
    match course {
        Course::Well => {}
        Course::NoMoment => signs.moment = 0,
        Course::ClockStops | Course::Stopped | Course::Late => signs.moment = 1,
        Course::NothingShown => signs.shown = 3,
        Course::LittleShown => {
            let shown = number / 19;
            signs.shown = shown;
            signs.appended = shown.saturating_add(2);
        }
        Course::LongShowing => return showing(number, MOST_ROUNDS),
        Course::EndedShowing if number > 60 => {}
        Course::EndedShowing | Course::RefusedShowing => return showing(number, 60),
        Course::RefusedEach => {
            signs = showing(number, MOST_ROUNDS);
            signs.showings = number;
        }
        Course::Locked => return Signs {
            looks: 1,
            ..showing(1, 0)
        },
    }
    signs
}

/// The round of this number.
fn round_of(course: Course, number: u64) -> Round {
    let passed = match course {
        Course::Stopped => 30_000,
        Course::Late => 2500,
        _ => ROUND,
    };
    Round {
        signs: signs_of(course, number),
        passed,
    }
}

/// Prints in which round a collector counts as stuck, and why.
fn show_course(rt: &impl Print, course: Course) -> io::Result<()> {
    let mut patience = Patience::new();
    for number in 1..=MOST_ROUNDS {
        if let Some(stuck) = patience.see(round_of(course, number)) {
            return println!(rt; "{course:?}: round {number}: {}", stuck.reason());
        }
    }
    println!(rt; "{course:?}: goes on")
}

/// Prints the lines of a collector that is stuck, and of connections that were HTTP's.
fn show_alarms<R: Print + Wait + Copy + AllocGlobal>(rt: &R) {
    let journal = Journal::new(rt.alloc(), Heading::Time);
    let handles = Still {
        rt: *rt,
        seconds: Some(MORNING),
    };
    let caller = SocketAddr::V4(SocketAddrV4::new(Ipv4Addr::new(10, 0, 0, 1), 41234));
    for alarm in [
        Alarm::Stuck {
            reason: Stuck::Unshown.reason(),
        },
        Alarm::HttpAtAdmin {
            address: Some(caller),
        },
        Alarm::HttpAtAdmin { address: None },
        Alarm::MoreHttp { count: 3 },
    ] {
        journal.note(&handles, Event::Alarm(alarm));
    }
    journal.write_out(&handles);
}

/// Prints what is told of 603 connections that were HTTP's, at once and when a minute is over.
fn show_calls<R: Print + Wait + AllocGlobal>(rt: &R) -> io::Result<()> {
    let admins = Admins::new(rt.alloc(), None, None);
    for now in 0..603 {
        admins.note_http(rt, now, None);
    }
    for now in [603, 59_999, 60_000] {
        let mut told = 0u64;
        let mut more = 0u64;
        for _ in 0..1000 {
            match admins.take_http(rt, now) {
                None => break,
                Some(HttpCall::From(_)) => told = told.saturating_add(1),
                Some(HttpCall::More(count)) => more = more.saturating_add(count),
            }
        }
        println!(rt; "at {now}: {told} told, {more} more")?;
    }
    Ok(())
}

/// Prints when a collector counts as stuck, and what the log says of that and of HTTP.
pub fn show<R: Print + Wait + Copy + AllocGlobal>(rt: &R) -> io::Result<()> {
    println!(rt; "== when a collector is stuck")?;
    for course in COURSES {
        show_course(rt, course)?;
    }
    println!(rt; "== alarms")?;
    show_alarms(rt);
    show_calls(rt)
}
