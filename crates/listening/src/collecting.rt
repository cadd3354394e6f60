//! The collector on sockets.

ghost use Rattle.std.specs.Prelude.{◌≡◌, ◌<◌, ◌≤◌, []};
ghost use Rattle.agg_types.specs.Check.{config_faults};

use crate::attending::attend;
use crate::beside::{Beside, serve_beside};
use crate::disk::Paths;
use crate::pulse::{Beats, Pulse};
use agg_types::{Config, MOST_SEATS, NoMemory};
use collector_log::{Board, CollectorFacts, Notes, Usage, Watch};
use command_line::Endpoints;
use hub::{Hub, Naming, Opening};
use journal::{Event, Heading, Journal};
use program::{Asked, Fault};
use sockets::{Admins, Sockets, Ticks};
use std::alloc::Global;
use std::io::{ErrorKind, Write};
use std::marker::Brand;
use std::net::{Net, SocketAddr, TcpListener, TcpStream};
use std::os::unix::net::UnixListener;
use std::random::RandomSource;
use std::sync::{Arc, Wait};
use std::thread::Threads;
use std::time::{Clock, Instant};
use std::{io, thread};
use web_serve::Web;

/// How many may look at once: four admin connections, each of which may be about to end, the timer,
/// and who sees to full tables.
const PLACES: usize = 10;

/// How many more where there is an HTTP door.
const WEB_PLACES: usize = 16;

// How many may look at once. Where tables are pushed, a session with a seat may too.
fn places_for(config: &Config, endpoints: &Endpoints) -> usize
    ensures { (0 < result) × (result ≤ 1000) }
{
    let sessions = if config.pushes.is_empty() {
        0
    } else {
        MOST_SEATS
    };
    let visits = if endpoints.http.is_some() {
        WEB_PLACES
    } else {
        0
    };
    PLACES + sessions + visits
}

/// Why it ended, or didn't begin.
#[derive(Debug, Drop)]
pub struct Stopped {
    pub fault: Fault,
    /// Whether standard error takes lines, as far as is known.
    pub is_heard: bool,
}

impl Stopped {
    // Nothing was logged yet.
    fn early(fault: Fault) -> Stopped {
        Stopped {
            fault,
            is_heard: true,
        }
    }
}

/// Listens at all addresses, says so on standard output, and collects until the listener of the
/// proxies has failed, or the collector is stuck. Answers why it didn't begin, or ended.
///
/// Workers that are stuck aren't waited for: they end where the program does.
pub fn collect<R, P, O>(rt: &R, paths: &P, asked: Asked, output: &mut O) -> Stopped
where
    R: Threads + Wait + Copy + Send + Sync + 'static,
    R: Eprint + AllocGlobal + Clock + RandomSource + Usage,
    R: Net<Listener = TcpListener, Stream = TcpStream>,
    P: Paths,
    O: Write,
    requires { config_faults asked.config ≡ [] }
{
    let Asked { config, endpoints } = asked;
    let places = places_for(&config, &endpoints);
    let Ok(opening) = Opening::new(rt.alloc(), config, 0) else {
        return Stopped::early(Fault::NoMemory);
    };
    let heading = heading_for(paths);
    let Ok(journal) = Arc::new(rt.alloc(), Journal::new(rt.alloc(), heading)) else {
        return Stopped::early(Fault::NoMemory);
    };
    let fault = serve::<Brand, R, P, O>(rt, paths, opening, places, endpoints, &journal, output);
    let is_heard = journal.finish(rt);
    Stopped { fault, is_heard }
}

// How the lines of the log begin.
fn heading_for(paths: &impl Paths) -> Heading {
    if paths.logs_to_journald() {
        Heading::Level
    } else {
        Heading::Time
    }
}

fn listener<R>(rt: &R, address: SocketAddr) -> Result<TcpListener, Fault>
where
    R: Net<Listener = TcpListener, Stream = TcpStream>,
{
    match TcpListener::bind(rt, address) {
        Ok(listener) => Ok(listener),
        Err(error) => Err(Fault::Address(address, error)),
    }
}

// Listens at an address, where there is one.
fn listener_at<R>(rt: &R, address: Option<SocketAddr>) -> Result<Option<TcpListener>, Fault>
where
    R: Net<Listener = TcpListener, Stream = TcpStream>,
{
    match address {
        None => Ok(None),
        Some(address) => match listener(rt, address) {
            Ok(listener) => Ok(Some(listener)),
            Err(fault) => Err(fault),
        },
    }
}

// Listens by the socket of a path, where there is one.
fn socket_at<P: Paths>(
    alloc: Global,
    paths: &P,
    path: &Option<String>,
) -> Result<Option<UnixListener>, Fault> {
    let Some(path) = path else {
        return Ok(None);
    };
    let path = path.as_str();
    match paths.listen(path) {
        Ok(listener) => Ok(Some(listener)),
        Err(error) => match String::from_str(alloc, path) {
            Ok(path) => Err(Fault::Path(path, error)),
            Err(_) => Err(Fault::NoMemory),
        },
    }
}

/// The listener of the proxies, the operators, and the listener of the HTTP door.
type Listeners = (TcpListener, Admins, Option<TcpListener>);

// Begins to listen at all addresses.
fn listen<R, P>(rt: &R, paths: &P, endpoints: &Endpoints) -> Result<Listeners, Fault>
where
    R: AllocGlobal,
    R: Net<Listener = TcpListener, Stream = TcpStream>,
    P: Paths,
{
    let peers = listener(rt, endpoints.peers)?;
    let admin = listener_at(rt, endpoints.admin)?;
    let web = listener_at(rt, endpoints.http)?;
    let socket = socket_at(rt.alloc(), paths, &endpoints.admin_socket)?;
    Ok((peers, Admins::new(rt.alloc(), admin, socket), web))
}

// Has a thread of its own write the log. It isn't waited for at the end: standard error may take
// nothing any more.
fn begin_log<R>(rt: &R, journal: &Arc<Journal, Global>) -> io::Result<()>
where
    R: Threads + Wait + Copy + Send + Sync + 'static,
    R: Eprint + Clock,
{
    let journal = Arc::try_clone(journal)?;
    let rt_of_log = *rt;
    if thread::spawn(rt, move || journal.run(&rt_of_log)).is_err() {
        return Err(io::Error::from(ErrorKind::OutOfMemory));
    }
    Ok(())
}

// Says that proxies and operators may come.
fn begin<R, O>(
    rt: &R,
    endpoints: &Endpoints,
    journal: &Arc<Journal, Global>,
    output: &mut O,
) -> io::Result<Instant>
where
    R: Threads + Wait + Copy + Send + Sync + 'static,
    R: Eprint + Clock,
    O: Write,
{
    let start = Instant::now(rt)?;
    begin_log(rt, journal)?;
    writeln!(output, "listening")?;
    output.flush()?;
    let admin_socket = match &endpoints.admin_socket {
        None => None,
        Some(path) => Some(path.as_bytes()),
    };
    let event = Event::Listening {
        peers: endpoints.peers,
        admin: endpoints.admin,
        admin_socket,
        http: endpoints.http,
    };
    journal.note(rt, event);
    Ok(start)
}

// Listens at all addresses, has workers serve there, and waits until they have ended, or don't go
// on.
fn serve<J: Naming + Send + Sync + 'static, R, P, O>(
    rt: &R,
    paths: &P,
    opening: Opening,
    places: usize,
    endpoints: Endpoints,
    journal: &Arc<Journal, Global>,
    output: &mut O,
) -> Fault
where
    R: Threads + Wait + Copy + Send + Sync + 'static,
    R: Eprint + AllocGlobal + Clock + RandomSource + Usage,
    R: Net<Listener = TcpListener, Stream = TcpStream>,
    P: Paths,
    O: Write,
    requires named { opening.of ≡ J.book }
    requires places { (0 < places) × (places ≤ 1000) }
{
    let commit = paths.commit();
    let Ok(work) = Work::<J, R>::new(rt, opening, places, endpoints, journal, commit) else {
        return Fault::NoMemory;
    };
    let _kept = paths.take_standard();
    let listeners = match listen(rt, paths, &work.endpoints) {
        Ok(listeners) => listeners,
        Err(fault) => return fault,
    };
    match begin(rt, &work.endpoints, journal, output) {
        Ok(start) => work.attend(listeners, start),
        Err(error) => Fault::Start(error),
    }
}

/// What the workers stand on, which is theirs alone but for the log and the pulse.
#[derive(Drop)]
struct Work<J: Naming, R: Wait + Drop> {
    rt: R,
    hub: Hub<J, R>,
    board: Board,
    endpoints: Endpoints,
    // from which the program was proved, where that is known
    commit: Option<String>,
    journal: Arc<Journal, Global>,
    pulse: Arc<Pulse, Global>,
}

impl<J: Naming + Send + Sync + 'static, R> Work<J, R>
where
    R: Threads + Wait + Copy + Send + Sync + 'static,
    R: Eprint + AllocGlobal + Clock + RandomSource + Usage,
{
    // Nothing came yet.
    fn new(
        rt: &R,
        opening: Opening,
        places: usize,
        endpoints: Endpoints,
        journal: &Arc<Journal, Global>,
        commit: Option<String>,
    ) -> Result<Work<J, R>, NoMemory>
        requires named { opening.of ≡ J.book }
        requires places { (0 < places) × (places ≤ 1000) }
    {
        let hub = Hub::<J, R>::new(rt.alloc(), *rt, opening, places)?;
        let config = hub.config();
        let board = Board::new(rt.alloc(), config.peers.len(), config.pushes.len())?;
        let Ok(pulse) = Arc::new(rt.alloc(), Pulse::new(rt.alloc())) else {
            return Err(NoMemory);
        };
        Ok(Work {
            rt: *rt,
            hub,
            board,
            endpoints,
            commit,
            journal: Arc::try_clone(journal)?,
            pulse,
        })
    }

    // Has workers serve at these listeners in threads of their own, and waits until they have
    // ended, or don't go on. Then they aren't waited for.
    fn attend(self, listeners: Listeners, start: Instant) -> Fault {
        let rt = self.rt;
        let (Ok(journal), Ok(pulse)) = (Arc::try_clone(&self.journal), Arc::try_clone(&self.pulse))
        else {
            return Fault::NoMemory;
        };
        let work = self;
        if thread::spawn(&rt, move || work.run(listeners, start)).is_err() {
            return Fault::Start(io::Error::from(ErrorKind::OutOfMemory));
        }
        let clock = Ticks { rt, start };
        attend(&rt, &clock, &*journal, &*pulse)
    }

    // Serves until the listener of the proxies has failed, or the collector is given up.
    fn run(self, listeners: Listeners, start: Instant) {
        let Work {
            rt,
            hub,
            board,
            endpoints,
            commit,
            journal,
            pulse,
        } = self;
        let clock = Ticks { rt, start };
        let beating = Beating {
            commit: match &commit {
                None => "",
                Some(commit) => commit.as_str(),
            },
            board: &board,
            journal: &*journal,
            clock: &clock,
            pulse: &*pulse,
        };
        serve_at(&rt, &hub, &endpoints, listeners, &beating);
        let fault = match pulse.connections.take_fault(&rt) {
            None => Fault::NoMemory,
            Some(error) => Fault::Closed(error),
        };
        pulse.end(&rt, fault);
    }
}

/// What workers tell of themselves, and by which clock.
#[derive(Drop)]
struct Beating<'a, R> {
    // nothing where it isn't known
    commit: &'a str,
    board: &'a Board,
    journal: &'a Journal,
    clock: &'a Ticks<R>,
    pulse: &'a Pulse,
}

// Serves at these listeners until that of the proxies has failed.
fn serve_at<J: Naming + Send + Sync, R>(
    rt: &R,
    hub: &Hub<J, R>,
    endpoints: &Endpoints,
    listeners: Listeners,
    beating: &Beating<'_, R>,
)
where
    R: Threads + Wait + Copy + Send + Sync + 'static,
    R: Eprint + AllocGlobal + Clock + RandomSource + Usage,
{
    let (board, journal) = (beating.board, beating.journal);
    let (clock, pulse) = (beating.clock, beating.pulse);
    let (peers, admins, web) = listeners;
    let connections = &pulse.connections;
    let facts = CollectorFacts {
        alloc: rt.alloc(),
        config: hub.config(),
        clock,
        board,
        connections,
        journal,
        commit: beating.commit,
    };
    let hosts = endpoints.http_hosts.as_slice();
    let web = Web::new(*rt, rt.alloc(), &facts, web, hub, hosts);
    let doors = Sockets {
        alloc: rt.alloc(),
        clock,
        peers,
        from: endpoints.from.as_slice(),
        unknown_peers: endpoints.unknown_peers,
        admins: &admins,
        connections,
    };
    let notes = Notes {
        rt: *rt,
        alloc: rt.alloc(),
        config: hub.config(),
        connections,
        journal,
        clock,
        board,
    };
    let watch = Watch {
        rt: *rt,
        alloc: rt.alloc(),
        hub,
        journal,
        clock,
        connections,
        board,
    };
    let beats = Beats {
        rt: *rt,
        hub,
        board,
        admins: &admins,
        journal,
        clock,
        pulse,
    };
    let beside = Beside::new(&web, &watch, &beats);
    serve_beside(rt, &doors, &beside, clock, hub, &notes);
    notes.tell_last();
}
