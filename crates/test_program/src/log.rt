//! Lines of the log.

use crate::scene::{Few, Still};
use crate::{full, learned, status};
use agg_types::Whats;
use collector_log::{Board, Notes};
use hub::PostFault;
use journal::{Event, Heading, Journal};
use serve::{Cause, Gate, Gone, News, Place};
use session_core::{SessionCause, Status};
use sockets::{Connections, FoundBy, Reset, Ticks};
use std::io;
use std::net::{Ipv4Addr, Ipv6Addr, SocketAddr, SocketAddrV4, SocketAddrV6};
use std::sync::Wait;
use std::time::{Clock, Instant};

/// Three peers, so that a line with another's name shows, and one name is quoted; three tables, a
/// pushed filter, and a table that isn't followed on purpose.
const CONFIGURATION: &[u8] = b"name agg\npeer lb1\npeer lb2\npeer a=b\n\
table clients type ip size 100 store gpc0,http_req_rate(10000)\n\
table names type binary len 8 size 100 store gpc0\n\
table glitches type ip size 100 store glitch_cnt,glitch_rate(1000)\n\
filter hot clients data.gpc0 ge 1\npush hot\nignore cache\n";

/// 2026-11-24 at 09:45:12 in UTC.
pub const MORNING: u64 = 1_795_513_512;

/// A name longer than any that may be configured.
const LONG: [u8; 130] = [b'x'; 130];

/// Moments around leap days, and one past the last year that is written in full.
const MOMENTS: [u64; 6] = [
    0,
    951_782_399,
    951_782_400,
    4_107_542_399,
    4_107_542_400,
    999_999_999_999,
];

/// Names that a sender chose.
const NAMES: [&[u8]; 8] = [
    b"lb9",
    b"",
    b"a b",
    b"a=b",
    b"a\"b",
    b"a'b",
    b"a\\b",
    b"a\nb\xff\x00",
];

const SESSION: Place = Place::Session(None);

fn address(port: u16) -> SocketAddrV4 {
    SocketAddrV4::new(Ipv4Addr::new(10, 0, 0, 1), port)
}

fn sender() -> Option<SocketAddr> {
    Some(SocketAddr::V4(address(41234)))
}

/// Where is listened: at an address for operators, by a socket, and both, with an HTTP door.
fn show_doors(journal: &Journal, clock: &(impl Clock + Wait)) {
    let peers = SocketAddr::V4(address(9000));
    let admin = Some(SocketAddr::V4(address(9001)));
    let http = Some(SocketAddr::V6(SocketAddrV6::new(Ipv6Addr::LOCALHOST, 9002, 0, 0)));
    let path: &[u8] = b"/run/fleet/admin";
    let odd: &[u8] = b"my admin";
    for (admin, admin_socket, http) in [
        (admin, None, None),
        (None, Some(path), None),
        (admin, Some(odd), http),
    ] {
        let doors = Event::Listening {
            peers,
            admin,
            admin_socket,
            http,
        };
        journal.note(clock, doors);
    }
}

/// A peer that calls again.
fn show_replaced<R: Print + Wait>(notes: &Notes<'_, Still<R>>) {
    let replaced = Event::PeerReplaced {
        peer: b"lb1",
        address: sender(),
        updates: 812,
    };
    notes.journal.note(&notes.rt, replaced);
}

/// That a peer's hello was accepted, of a connection whose address isn't known.
fn connected(peer: &[u8]) -> Event<'_> {
    Event::PeerConnected {
        peer,
        address: None,
    }
}

/// A peer that reset its connection, and came back, or didn't.
fn show_resets<R: Print + Wait>(notes: &Notes<'_, Still<R>>) {
    for (found_by, is_back) in [(FoundBy::Read, true), (FoundBy::Write, false)] {
        let reset = Reset {
            peer: 0,
            address: SocketAddr::V4(address(41234)),
            updates: 812,
            found_by,
            at: 0,
        };
        let event = Event::PeerReset {
            peer: b"lb1",
            reset,
            is_back,
        };
        notes.journal.note(&notes.rt, event);
    }
}

/// Commands that changed something, from an address and from none.
fn show_changes<R: Print + Wait>(notes: &Notes<'_, Still<R>>) {
    for (sender, command) in [
        (sender(), b"clear table clients key 10.0.0.1".as_slice()),
        (sender(), b"del filter  hot"),
        (None, b"clear table names key \"a\xffb\""),
    ] {
        notes.tell(Place::Admin, News::Changed(sender, command));
    }
}

/// Connections that are turned away, before and after a turn of the timer.
fn show_turned_away<R: Print + Wait>(rt: &R, notes: &Notes<'_, Still<R>>) {
    notes.tell(SESSION, News::TurnedAway(sender()));
    notes.tell(Place::Admin, News::TurnedAway(sender()));
    notes.tell(SESSION, News::TurnedAway(None));
    notes
        .connections
        .turn_away(rt, SocketAddr::V4(address(41235)));
    notes
        .connections
        .turn_away(rt, SocketAddr::V4(address(41236)));
    notes.turn(SESSION);
    notes.turn(Place::Timer);
    notes
        .connections
        .turn_away(rt, SocketAddr::V4(address(41237)));
    notes.turn(Place::Timer);
}

/// Prints the lines of all that is told.
fn show_lines<R: Print + Wait + Copy + AllocGlobal>(
    rt: &R,
    notes: &Notes<'_, Still<R>>,
) -> io::Result<()> {
    show_doors(notes.journal, &notes.rt);
    show_replaced(notes);
    notes.tell(status::SESSION, News::Came(0));
    notes.tell(SESSION, News::Came(1));
    status::define(rt, notes)?;
    show_ends(rt, notes);
    show_resets(notes);
    show_changes(notes);
    show_turned_away(rt, notes);
    let read = Cause::Read;
    for name in NAMES {
        show_stranger(notes, Some(name), Some(&read));
    }
    show_unknown(notes.connections, notes);
    notes.journal.write_out(&notes.rt);
    show_moments(rt);
    show_levels(rt);
    show_refused(rt);
    show_crowd(rt);
    show_floods(rt);
    full::show(rt, notes)?;
    learned::show(notes)
}

/// Prints the lines of all that is told, and what operators are told.
pub fn show<R: Print + Wait + Copy + AllocGlobal>(rt: &R) -> io::Result<()> {
    println!(rt; "== the log")?;
    let Ok(config) = agg_config::read(rt.alloc(), CONFIGURATION) else {
        return println!(rt; "no configuration");
    };
    let Ok(board) = Board::new(rt.alloc(), 3, 1) else {
        return println!(rt; "no board");
    };
    let journal = Journal::new(rt.alloc(), Heading::Time);
    let connections = Connections::new(rt.alloc());
    let morning = Still {
        rt: *rt,
        seconds: Some(MORNING),
    };
    let clock = Ticks {
        rt: Still {
            rt: *rt,
            seconds: Some(MORNING),
        },
        start: Instant::now(&morning)?,
    };
    let notes = Notes {
        rt: morning,
        alloc: rt.alloc(),
        config: &config,
        connections: &connections,
        journal: &journal,
        clock: &clock,
        board: &board,
    };
    show_lines(rt, &notes)?;
    show_asked(rt, &notes)
}

/// Prints what operators are told.
fn show_asked<R: Print + Wait + AllocGlobal>(
    rt: &R,
    notes: &Notes<'_, Still<R>>,
) -> io::Result<()> {
    println!(rt; "== what operators ask")?;
    match agg_config::read(rt.alloc(), CONFIGURATION) {
        Ok(config) => status::show(rt, notes, config),
        Err(_) => println!(rt; "no configuration"),
    }
}

/// Connections that are closed since their peers aren't configured: a name is told once.
fn show_unknown<R: Print + Wait>(connections: &Connections, notes: &Notes<'_, Still<R>>) {
    let caller = SocketAddr::V4(address(41234));
    for hello in [
        b"HAProxyS 2.1\nagg\nlb9 1 1\n".as_slice(),
        b"HAProxyS 2.1\r\nagg\r\nlb9 2 2\r\n".as_slice(),
        b"HAProxyS 2.1\nagg\na b\xff\n".as_slice(),
        b"HAProxyS 2.1\nagg\n\xff=\n".as_slice(),
        b"".as_slice(),
    ] {
        connections.turn_away_unknown(&notes.rt, hello, caller);
        show_stranger(notes, None, None);
    }
    show_stranger(notes, None, None);
}

/// Connections that are over, by each cause, of a peer and of a stranger.
fn show_ends<R: Print + Wait + AllocGlobal>(rt: &R, notes: &Notes<'_, Still<R>>) {
    show_end(notes, None);
    show_end(notes, Some(Cause::Read));
    show_end(notes, Some(Cause::Write));
    let refused = SessionCause::Refused(Status::RemoteName);
    show_end(notes, Some(Cause::Session(refused)));
    show_end(notes, Some(Cause::Session(SessionCause::TimedOut)));
    let unposted = PostFault::NoMemory(Whats::new(rt.alloc()));
    show_end(notes, Some(Cause::Post(unposted)));
    show_end(notes, Some(Cause::Post(PostFault::Spent)));
    show_end(notes, Some(Cause::Look));
}

fn show_end<R: Print + Wait>(notes: &Notes<'_, Still<R>>, cause: Option<Cause>) {
    let gone = Gone {
        sender: sender(),
        peer: Some(1),
        name: None,
        called: None,
        updates: 812,
        cause: cause.as_ref(),
    };
    notes.tell(SESSION, News::Gone(gone));
    show_stranger(notes, None, cause.as_ref());
}

fn show_stranger<'a, R: Print + Wait>(
    notes: &Notes<'_, Still<R>>,
    name: Option<&'a [u8]>,
    cause: Option<&'a Cause>,
) {
    let gone = Gone {
        sender: sender(),
        peer: None,
        name,
        called: None,
        updates: 0,
        cause,
    };
    notes.tell(SESSION, News::Gone(gone));
}

/// What is written of 1,005 lines that come while standard error takes none: how many were lost,
/// and then those that waited, of which all but the first two are cut off here.
fn show_crowd<R: Print + Wait + Copy + AllocGlobal>(rt: &R) {
    let journal = Journal::new(rt.alloc(), Heading::Time);
    let handles = Still {
        rt: *rt,
        seconds: Some(MORNING),
    };
    for _ in 0..1005 {
        journal.note(&handles, Event::AdminTurnedAway { address: None });
    }
    let few = Few::new(handles, 3);
    journal.write_out(&few);
    let _ = println!(rt; "{} more lines", few.refused());
}

/// What is written of lines that come in floods, of which all but the first are cut off here: 60 of
/// a peer, 60 of 64 bits of an address, and 600 of all addresses. And how many others there were,
/// 59 s later.
fn show_floods<R: Print + Wait + Copy + AllocGlobal>(rt: &R) {
    let journal = Journal::new(rt.alloc(), Heading::Time);
    let handles = Still {
        rt: *rt,
        seconds: Some(MORNING),
    };
    for _ in 0..63 {
        journal.note(&handles, connected(b"a=b"));
    }
    for host in 0..62 {
        let ip = Ipv6Addr::new(0x2001, 0xdb8, 0, 1, 0, 0, 0, host);
        let caller = SocketAddr::V6(SocketAddrV6::new(ip, 41234, 0, 0));
        flood(&journal, &handles, caller, None);
    }
    for host in 0..12 {
        for port in 0..60 {
            let ip = Ipv4Addr::new(10, 0, 1, host);
            let caller = SocketAddr::V4(SocketAddrV4::new(ip, port));
            flood(&journal, &handles, caller, Some(&Cause::Read));
        }
    }
    let few = Few::new(handles, 1);
    journal.write_out(&few);
    let _ = println!(rt; "{} more lines", few.refused());
    let later = Still {
        rt: *rt,
        seconds: Some(MORNING + 59),
    };
    journal.write_out(&later);
}

fn flood(
    journal: &Journal,
    clock: &(impl Clock + Wait),
    caller: SocketAddr,
    cause: Option<&Cause>,
) {
    let stranger = Event::StrangerGone {
        name: None,
        called: None,
        me: b"agg",
        address: Some(caller),
        cause,
    };
    journal.note(clock, stranger);
}

/// Lines of each level, as journald reads them.
fn show_levels<R: Print + Wait + Copy + AllocGlobal>(rt: &R) {
    let journal = Journal::new(rt.alloc(), Heading::Level);
    let handles = Still {
        rt: *rt,
        seconds: Some(MORNING),
    };
    journal.note(&handles, connected(b"lb1"));
    journal.note(&handles, Event::AdminTurnedAway { address: None });
    journal.note(&handles, Event::PeerTurnedAway { address: None });
    journal.write_out(&handles);
}

/// Hellos that are refused since their senders aren't configured, and since they call the collector
/// by another name.
fn show_refused<R: Print + Wait + Copy + AllocGlobal>(rt: &R) {
    let journal = Journal::new(rt.alloc(), Heading::Time);
    let handles = Still {
        rt: *rt,
        seconds: Some(MORNING),
    };
    let unknown = Cause::Session(SessionCause::Refused(Status::RemoteName));
    let other = Cause::Session(SessionCause::Refused(Status::LocalName));
    let names = [b"lb9".as_slice(), b"a\"b\n".as_slice(), LONG.as_slice()];
    for name in names {
        note_refused(&journal, &handles, Some(name), None, &unknown);
    }
    for called in names {
        note_refused(&journal, &handles, None, Some(called), &other);
    }
    journal.write_out(&handles);
}

fn note_refused(
    journal: &Journal,
    clock: &(impl Clock + Wait),
    name: Option<&[u8]>,
    called: Option<&[u8]>,
    cause: &Cause,
) {
    let stranger = Event::StrangerGone {
        name,
        called,
        me: b"agg",
        address: None,
        cause: Some(cause),
    };
    journal.note(clock, stranger);
}

/// The same line at odd moments, and where the clock fails.
fn show_moments<R: Print + Wait + Copy + AllocGlobal>(rt: &R) {
    for moment in MOMENTS {
        show_moment(rt, Some(moment));
    }
    show_moment(rt, None);
}

fn show_moment<R: Print + Wait + Copy + AllocGlobal>(rt: &R, seconds: Option<u64>) {
    let journal = Journal::new(rt.alloc(), Heading::Time);
    let handles = Still { rt: *rt, seconds };
    journal.note(&handles, connected(b"lb1"));
    journal.write_out(&handles);
}
