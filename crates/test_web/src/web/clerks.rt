//! A clerk that answers connections in memory.

ghost use Rattle.std.specs.Prelude.{◌≡◌};

use crate::web::answers::standing;
use agg_types::{Cell, Cells, Key, NoMemory, What, Whats};
use anyhow::{Result, anyhow};
use http_server::{Config, Connection, Service, serve};
use hub::{Hub, Naming, Opening};
use std::alloc::Global;
use std::hash::RandomState;
use std::sync::Wait;
use std::sync::atomic::{AtomicU64, Ordering};
use std::time::{Clock, Duration};
use std::{io, str};
use test_hub_calls::{lens, post, sit};
use test_support::address;
use web_door::{Clerk, Facts, Looks, Porter};
use web_text::Standing;

/// What stands of a collector that is written down, and a clock: each time that it is asked, so
/// many µs have passed.
pub struct Paper {
    alloc: Global,
    hosts: Vec<String>,
    now: AtomicU64,
    step: u64,
    is_well: bool,
}

impl Drop for Paper {
    fn drop(self) {
        let Paper {
            alloc: _,
            hosts: _,
            now: _,
            step: _,
            is_well: _,
        } = self;
    }
}

impl Clock for Paper {
    fn monotonic(&self) -> io::Result<Duration> {
        let now = self.now.fetch_add(self.step, Ordering::SeqCst);
        Ok(Duration::from_micros(now))
    }

    fn since_1970(&self) -> io::Result<Duration> {
        self.monotonic()
    }
}

impl Facts for Paper {
    fn now(&self) -> u64 {
        self.now.load(Ordering::SeqCst) / 1000
    }

    fn is_well(&self) -> bool {
        self.is_well
    }

    fn has_ended(&self) -> bool {
        false
    }

    fn standing(&self) -> Result<Standing, NoMemory> {
        match standing(self.alloc, 2600) {
            Ok(standing) => Ok(standing),
            Err(_) => Err(NoMemory),
        }
    }
}

/// Requests of one connection after the other.
const FIRST: &[u8] = b"GET /healthz HTTP/1.1\r\nHost: localhost\r\n\r\n\
GET /api/v1/ranks/top HTTP/1.1\r\nHost: LocalHost:9998\r\n\r\n\
HEAD /api/v1/ranks/top HTTP/1.1\r\nHost: 127.0.0.1:9998\r\n\r\n\
POST /api/v1/ranks/top HTTP/1.1\r\nHost: [::1]\r\nContent-Length: 2\r\n\r\nhi\
GET /api/v1/tables/%2Ft?where=data.gpc0+gt+1&limit=1 HTTP/1.1\r\nHost: 127.0.0.1\r\n\r\n\
GET /api/v1/tables/%2Ft?where=data.gpc0+gt HTTP/1.1\r\nHost: 127.0.0.1\r\n\r\n\
GET /api/v1/tables/%2Ft?where=key+0.0.0.7 HTTP/1.1\r\nHost: 127.0.0.1\r\n\r\n\
GET /api/v1/tables/%2Ft/keys/0.0.0.7 HTTP/1.1\r\nHost: 127.0.0.1\r\n\r\n\
GET /api/v1/tables/%2Ft/keys/seven HTTP/1.1\r\nHost: 127.0.0.1\r\n\r\n\
GET /api/v1/filters/few?after=a%20b HTTP/1.1\r\nHost: 127.0.0.1\r\n\r\n\
GET /api/v1/filters/none HTTP/1.1\r\nHost: 127.0.0.1\r\n\r\n\
GET /api/v1/peers?limit=1 HTTP/1.1\r\nHost: Collector.Example:9998\r\n\r\n\
GET /api/v1 HTTP/1.1\r\nHost: 127.0.0.1\r\n\r\n\
GET /nothing HTTP/1.1\r\nHost: 127.0.0.1\r\nConnection: close\r\n\r\n";

/// Requests for hosts that aren't the collector's, for one that is by its target alone, and for
/// none.
const ELSEWHERE: &[u8] = b"GET /healthz HTTP/1.1\r\nHost: evil.example\r\n\r\n\
POST / HTTP/1.1\r\nHost: localhost.evil.example\r\nContent-Length: 2\r\n\r\nhi\
GET http://evil.example/healthz HTTP/1.1\r\nHost: localhost\r\n\r\n\
GET http://localhost:9998/healthz HTTP/1.1\r\nHost: evil.example\r\n\r\n\
GET /healthz HTTP/1.0\r\n\r\n";

/// Two figures in a row, and more looks than may be made.
const SECOND: &[u8] = b"GET /api/v1/peers HTTP/1.1\r\nHost: localhost\r\n\r\n\
GET /api/v1/peers HTTP/1.1\r\nHost: localhost\r\n\r\n\
GET /api/v1/ranks/top?limit=1 HTTP/1.1\r\nHost: localhost\r\n\r\n\
GET /api/v1/ranks/top?limit=1 HTTP/1.1\r\nHost: localhost\r\n\r\n\
GET /api/v1/peers HTTP/1.1\r\nHost: localhost\r\n\r\n\
GET /api/v1/ranks/top?limit=1 HTTP/1.1\r\nHost: localhost\r\n\r\n\
GET /healthz HTTP/1.1\r\nHost: localhost\r\nConnection: close\r\n\r\n";

/// What the porter is asked, on a connection each.
const BESIDE: [&[u8]; 4] = [
    b"GET /healthz HTTP/1.1\r\nHost: localhost\r\n\r\nGET /healthz HTTP/1.1\r\n",
    b"GET /metrics HTTP/1.1\r\nHost: localhost\r\n\r\n",
    b"HEAD /nothing?limit=1 HTTP/1.1\r\nHost: localhost\r\n\r\n",
    b"GET /healthz HTTP/1.1\r\nHost: evil.example\r\n\r\n",
];

/// A session of the first peer puts counts of two addresses.
fn batch(alloc: Global, counts: [u64; 2]) -> Result<Whats> {
    let mut whats = Whats::new(alloc);
    whats.push(What::Open(0))?;
    for (count, number) in [(counts[0], 7), (counts[1], 9)] {
        let key: Key = address(alloc, number)?;
        whats.push(What::Put {
            peer: 0,
            table: 0,
            key,
            life: None,
            cells: Cells::copy(alloc, &[Cell::Count(count), Cell::Count(0)])?,
        })?;
    }
    Ok(whats)
}

// Prints what was written, without its CRs.
fn show_written(rt: &impl Print, written: &[u8]) -> Result<()> {
    match str::from_utf8(written) {
        Ok(text) => {
            for line in text.lines() {
                println!(rt; "{line}")?;
            }
            Ok(())
        }
        Err(_) => Err(anyhow!("not UTF-8")),
    }
}

// Serves a connection that sends these bytes, and prints what it is answered.
fn show_served<S: Service>(
    rt: &impl Print,
    paper: &Paper,
    keys: RandomState,
    service: &mut S,
    bytes: &[u8],
) -> Result<()> {
    let mut connection = Connection::new(paper.alloc, keys, Config::default());
    let mut reader = bytes;
    let mut written = Vec::new(paper.alloc);
    serve(&mut connection, service, &mut reader, &mut written)?;
    show_written(rt, written.as_slice())
}

/// What a connection that sends these bytes is answered by a clerk.
pub fn answer<J: Naming, R: Print + Wait>(
    rt: &R,
    hub: &Hub<J, &R>,
    looks: &Looks<J>,
    paper: &Paper,
    keys: RandomState,
    bytes: &[u8],
) -> Result<()> {
    hub.has_one_history();
    let mut clerk = Clerk {
        rt,
        alloc: paper.alloc,
        clock: paper,
        hosts: paper.hosts.as_slice(),
        config: hub.config(),
        lens: lens(rt, hub)?,
        looks,
        facts: paper,
    };
    show_served(rt, paper, keys, &mut clerk, bytes)
}

/// What the porter answers, whatever the clerks do.
fn answer_beside(rt: &impl Print, paper: &Paper, keys: RandomState) -> Result<()> {
    for bytes in BESIDE {
        let mut porter = Porter {
            alloc: paper.alloc,
            hosts: paper.hosts.as_slice(),
            facts: paper,
        };
        show_served(rt, paper, keys, &mut porter, bytes)?;
    }
    Ok(())
}

/// A collector with one name of its own, whose clock gives so many µs more at each question.
pub fn paper_of(alloc: Global, step: u64) -> Result<Paper> {
    let mut hosts = Vec::new(alloc);
    hosts.push(String::from_str(alloc, "collector.example")?)?;
    Ok(Paper {
        alloc,
        hosts,
        now: AtomicU64::new(0),
        step,
        is_well: true,
    })
}

/// Shows what connections are answered, before and after posts.
pub fn show<J: Naming, R: Print + Wait>(
    rt: &R,
    alloc: Global,
    opening: Opening,
    keys: RandomState,
) -> Result<()>
    requires { opening.of ≡ J.book }
{
    let hub = Hub::<J, &R>::new(alloc, rt, opening, 2)?;
    let looks = Looks::new();
    let mut paper = paper_of(alloc, 1_000)?;
    let mut pass = sit(rt, &hub)?;
    post(rt, alloc, &hub, &mut pass, batch(alloc, [5, 6])?)?;
    answer(rt, &hub, &looks, &paper, keys, FIRST)?;
    answer(rt, &hub, &looks, &paper, keys, ELSEWHERE)?;
    post(rt, alloc, &hub, &mut pass, batch(alloc, [9, 2])?)?;
    paper.is_well = false;
    paper.step = 40_000;
    answer(rt, &hub, &looks, &paper, keys, SECOND)?;
    paper.is_well = true;
    answer_beside(rt, &paper, keys)
}
