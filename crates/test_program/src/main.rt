//! Runs the program in memory, and prints what it writes to each stream and its exit status; then
//! lines of the log, and when a collector counts as stuck. What it writes to standard output is
//! printed as it comes, what it writes to standard error behind that.
//!
//! Last it runs `aggregator listen` on sockets, with a peer and admins: `tcp` says how. That
//! collector is still running when the program ends.
#![tactic(auto)]

mod full;
mod keys;
mod learned;
mod log;
mod scene;
mod status;
mod stuck;
mod tcp;

use collector_log::Usage;
use command_line::Endpoints;
use program::{Asked, Prepared, prepare};
use scene::{Scene, Shelf, Still, Torn};
use std::io::{BufRead, BufReader, Write};
use std::marker::Brand;
use std::net::{Ipv4Addr, Net, SocketAddr, SocketAddrV4, TcpListener, TcpStream};
use std::random::RandomSource;
use std::sync::Wait;
use std::thread::Threads;
use std::time::Clock;
use std::{io, thread};

/// A configuration, and a script that begins with it.
const CONFIGURATION: &[u8] = b"name agg\npeer lb1\ntable t type ip size 100 store gpc0\n";

const SCRIPT: &[u8] =
    b"name agg\npeer lb1\ntable t type ip size 100 store gpc0\nstart 0\nshow table\n";

/// A configuration whose second line is faulty.
const FAULTY: &[u8] = b"name agg\npeer\n";

/// A configuration with three faulty lines, and one that needs the last of them.
const FAULTS: &[u8] = b"name agg\npeer\n\npeer lb1\ntable t type ip size 1x\r\npeer lb1\ntable u\n\
filter f u data.gpc0 gt 1\npeer lb2";

/// What `listen` needs, with a file.
const LISTEN_FILE: &[&[u8]] = &[
    b"listen",
    b"--config=faulty.conf",
    b"--peers=192.0.2.1:1024",
    b"--admin=192.0.2.2:1025",
];

/// What `listen` needs, in either order.
const LISTEN: &[&[u8]] = &[
    b"listen",
    b"--peers=192.0.2.1:1024",
    b"--admin=192.0.2.2:1025",
];

const LISTEN_TURNED: &[&[u8]] = &[
    b"listen",
    b"--from=192.0.2.0/24",
    b"--unknown-peers=wait",
    b"--admin=192.0.2.2:1025",
    b"--peers=192.0.2.1:1024",
];

/// An address of IPv6, and a socket in the place of an address of operators.
const LISTEN_HERE: &[&[u8]] = &[
    b"listen",
    b"--peers=[2001:db8::1]:1024",
    b"--admin-socket=/run/fleet/admin",
    b"--http=[::1]:80",
];

/// A proxy's own file.
const HAPROXY: &[u8] = b"peers fleet\n peer lb1 10.1.0.1:10000\n peer agg 10.1.0.9:10000\n\
backend clients\n stick-table type ip size 100k store http_req_rate(10s) peers fleet\n";

/// Command lines with what stands on standard input.
const RUNS: [(&[&[u8]], &[u8]); 25] = [
    (&[b"--help"], b""),
    (&[b"--version"], b""),
    (&[], b""),
    (&[b"replay", b"now"], b""),
    (&[b"listen", b"--peers=192.0.2.1:1024"], b""),
    (
        &[b"listen", b"--peers=192.0.2.1:1024", b"--admin=nowhere"],
        b"",
    ),
    (&[b"replay"], SCRIPT),
    (&[b"replay"], b"name agg\npeer\nstart 0\n"),
    (&[b"replay"], b"name agg\nstart 0\nconnect now\n"),
    (&[b"replay"], b"name agg\n"),
    (LISTEN, FAULTY),
    (LISTEN_TURNED, b"peer lb1\n"),
    (&[b"replay", b"\xff"], b""),
    (&[b"check"], CONFIGURATION),
    (&[b"check"], FAULTS),
    (&[b"check"], b"peer lb1\n"),
    (&[b"check", b"--config=sound.conf"], FAULTY),
    (&[b"check", b"--config", b"faulty.conf"], CONFIGURATION),
    (&[b"check", b"--config", b"missing.conf"], CONFIGURATION),
    (LISTEN_FILE, CONFIGURATION),
    (&[b"import"], HAPROXY),
    (&[b"import", b"--name=lb1"], HAPROXY),
    (
        &[
            b"import",
            b"--name=agg",
            b"peers.cfg",
            b"tables.cfg",
            b"again.cfg",
        ],
        b"",
    ),
    (&[b"import", b"peers.cfg", b"missing.cfg"], HAPROXY),
    (&[b"check", b"sound.conf"], FAULTY),
];

fn main(rt: HostRuntime) -> anyhow::Result<()> {
    for (words, input) in RUNS {
        show_run(&rt, words, input)?;
    }
    show_prepared(&rt)?;
    show_torn(&rt)?;
    show_addresses_in_use(&rt)?;
    log::show(&rt)?;
    show_keys(&rt)?;
    stuck::show(&rt)?;
    let (peers, admin) = tcp::addresses(&rt)?;
    let _collector = thread::spawn(&rt, move || {
        let _ = tcp::collect(&rt, peers, admin);
    })?;
    tcp::show(&rt, peers, admin)
}

/// Prints what the log says of the keys of logged filters.
fn show_keys<R: Print + Wait + Copy + AllocGlobal>(rt: &R) -> anyhow::Result<()> {
    let still = Still {
        rt: *rt,
        seconds: Some(log::MORNING),
    };
    keys::show::<Brand, R>(&still, keys::opening(rt.alloc())?)
}

/// Prints what was written to standard error, and the exit status.
fn show_end(rt: &impl Print, errors: &[u8], status: u8) -> io::Result<()> {
    println!(rt; "-- standard error")?;
    io::writer(rt).write_all(errors)?;
    println!(rt; "-- status {status}")
}

fn show_words(rt: &impl Print, words: &[&[u8]]) -> io::Result<()> {
    print!(rt; "==")?;
    for word in words {
        print!(rt; " {}", word.escape_ascii())?;
    }
    println!(rt;)
}

/// Runs a command line on an input.
fn show_run<R>(rt: &R, words: &'static [&'static [u8]], input: &'static [u8]) -> io::Result<()>
where
    R: Threads + Wait + Copy + Send + Sync + 'static,
    R: Print + Eprint + AllocGlobal + Clock + RandomSource + Usage,
    R: Net<Listener = TcpListener, Stream = TcpStream>,
{
    show_words(rt, words)?;
    let scene = Scene {
        rt: *rt,
        words,
        input,
    };
    let mut errors = Vec::new(rt.alloc());
    let status = listening::run(rt, &(scene, rt.alloc()), &Shelf, &mut errors);
    show_end(rt, errors.as_slice(), status)
}

/// Prints what a command line leaves to do.
fn show_left(rt: &impl Print, errors: &[u8], left: Prepared) -> io::Result<()> {
    match left {
        Prepared::Ended(status) => show_end(rt, errors, status),
        Prepared::Collect(asked) => {
            println!(rt; "-- standard error")?;
            io::writer(rt).write_all(errors)?;
            let Asked { config, endpoints } = asked;
            println!(rt; "-- collects: {} peers", config.peers.len())?;
            show_endpoints(rt, &endpoints)
        }
    }
}

/// Prints where is to be listened.
fn show_endpoints(rt: &impl Print, endpoints: &Endpoints) -> io::Result<()> {
    let Endpoints {
        peers,
        from,
        unknown_peers,
        admin,
        admin_socket,
        http,
        http_hosts: _,
    } = endpoints;
    println!(rt; "-- peers at {peers}")?;
    if let Some(admin) = admin {
        println!(rt; "-- operators at {admin}")?;
    }
    if let Some(path) = admin_socket {
        println!(rt; "-- operators by {path}")?;
    }
    if let Some(http) = http {
        println!(rt; "-- HTTP at {http}")?;
    }
    println!(rt;
        "-- from {} networks; unknown peers: {unknown_peers:?}",
        from.len()
    )
}

/// Prints what a command line does to its streams and leaves to do.
fn show_prepare<R, I, O>(rt: &R, words: &[&str], input: &mut I, output: &mut O) -> io::Result<()>
where
    R: Print + AllocGlobal,
    I: BufRead,
    O: Write,
{
    let mut errors = Vec::new(rt.alloc());
    let left = prepare(rt.alloc(), words, &Shelf, input, output, &mut errors);
    show_left(rt, errors.as_slice(), left)
}

/// Prints by what is collected where the configuration has no fault.
fn show_prepared(rt: &(impl Print + AllocGlobal)) -> io::Result<()> {
    for words in [LISTEN, LISTEN_TURNED, LISTEN_HERE] {
        show_words(rt, words)?;
        let mut line: Vec<&str> = Vec::new(rt.alloc());
        line.push("aggregator")?;
        for word in words {
            line.push(std::str::from_utf8(word).unwrap_or("?"))?;
        }
        let mut input = CONFIGURATION;
        show_prepare(rt, line.as_slice(), &mut input, &mut io::writer(rt))?;
    }
    Ok(())
}

/// Prints what a command line does whose streams fail, behind a title.
fn show_titled<R, I, O>(
    rt: &R,
    title: &str,
    words: &[&str],
    input: &mut I,
    output: &mut O,
) -> io::Result<()>
where
    R: Print + AllocGlobal,
    I: BufRead,
    O: Write,
{
    println!(rt; "== {title}")?;
    show_prepare(rt, words, input, output)
}

/// The words of `listen` where a stream fails.
const LISTEN_TORN: [&str; 4] = [
    "aggregator",
    "listen",
    "--peers=192.0.2.1:1024",
    "--admin=192.0.2.2:1025",
];

/// Prints how it ends where nothing can be read.
fn show_no_input(rt: &(impl Print + AllocGlobal)) -> io::Result<()> {
    let mut input = BufReader::new(rt.alloc(), Torn)?;
    let mut output = io::writer(rt);
    let replay = ["aggregator", "replay"];
    show_titled(rt, "replay: no input", &replay, &mut input, &mut output)?;
    show_titled(
        rt,
        "listen: no input",
        &LISTEN_TORN,
        &mut input,
        &mut output,
    )
}

/// Prints how it ends where standard output takes nothing.
fn show_no_output(rt: &(impl Print + AllocGlobal)) -> io::Result<()> {
    let mut faulty = FAULTY;
    show_titled(
        rt,
        "listen: no output",
        &LISTEN_TORN,
        &mut faulty,
        &mut Torn,
    )?;
    let help = ["aggregator", "--help"];
    show_titled(rt, "--help: no output", &help, &mut faulty, &mut Torn)
}

/// Prints how it ends where standard error takes nothing.
fn show_no_errors(rt: &(impl Print + AllocGlobal)) -> io::Result<()> {
    println!(rt; "== nothing: no standard error")?;
    let mut faulty = FAULTY;
    let left = prepare(
        rt.alloc(),
        &["aggregator"],
        &Shelf,
        &mut faulty,
        &mut io::writer(rt),
        &mut Torn,
    );
    show_left(rt, b"", left)
}

/// Prints how it ends where a stream fails.
fn show_torn(rt: &(impl Print + AllocGlobal)) -> io::Result<()> {
    show_no_input(rt)?;
    show_no_output(rt)?;
    show_no_errors(rt)
}

/// Listens at these addresses.
fn listen<R, E>(rt: &R, peers: SocketAddrV4, admin: SocketAddrV4, errors: &mut E) -> io::Result<u8>
where
    R: Threads + Wait + Copy + Send + Sync + 'static,
    R: Print + Eprint + AllocGlobal + Clock + RandomSource + Usage,
    R: Net<Listener = TcpListener, Stream = TcpStream>,
    E: Write,
{
    let peers = format!(in rt.alloc(); "--peers={peers}")?;
    let admin = format!(in rt.alloc(); "--admin={admin}")?;
    let words = ["aggregator", "listen", peers.as_str(), admin.as_str()];
    let mut input = CONFIGURATION;
    let mut output = io::writer(rt);
    let status = listening::run_words(rt, &words, &Shelf, &mut input, &mut output, errors);
    Ok(status)
}

/// Listens at these addresses, of which one is in use. Its port is printed as PORT.
fn show_in_use<R>(rt: &R, peers: SocketAddrV4, admin: SocketAddrV4, port: u16) -> io::Result<()>
where
    R: Threads + Wait + Copy + Send + Sync + 'static,
    R: Print + Eprint + AllocGlobal + Clock + RandomSource + Usage,
    R: Net<Listener = TcpListener, Stream = TcpStream>,
{
    let mut errors = Vec::new(rt.alloc());
    let status = listen(rt, peers, admin, &mut errors)?;
    let port = format!(in rt.alloc(); ":{port}:")?;
    let text = String::from_utf8_lossy(rt.alloc(), errors.as_slice())?;
    let text = text.replace(rt.alloc(), port.as_str(), ":PORT:")?;
    show_end(rt, text.as_bytes(), status)
}

/// Listens by a socket that is in use, and not at an address of operators.
fn show_socket_in_use<R>(rt: &R, peers: SocketAddrV4) -> io::Result<()>
where
    R: Threads + Wait + Copy + Send + Sync + 'static,
    R: Print + Eprint + AllocGlobal + Clock + RandomSource + Usage,
    R: Net<Listener = TcpListener, Stream = TcpStream>,
{
    say_in_use(rt, "the socket of the operators is in use")?;
    let mut errors = Vec::new(rt.alloc());
    let peers = format!(in rt.alloc(); "--peers={peers}")?;
    let words = [
        "aggregator",
        "listen",
        peers.as_str(),
        "--admin-socket=/run/fleet/admin",
    ];
    let mut input = CONFIGURATION;
    let mut output = io::writer(rt);
    let status = listening::run_words(rt, &words, &Shelf, &mut input, &mut output, &mut errors);
    show_end(rt, errors.as_slice(), status)
}

/// Prints that an address is in use, in words.
fn say_in_use(rt: &impl Print, what: &str) -> io::Result<()> {
    println!(rt; "== listen: {what}")
}

/// Listens where proxies can't connect, and then the same without a standard error.
fn show_peers_in_use<R>(rt: &R, any: SocketAddrV4, other: SocketAddrV4) -> io::Result<()>
where
    R: Threads + Wait + Copy + Send + Sync + 'static,
    R: Print + Eprint + AllocGlobal + Clock + RandomSource + Usage,
    R: Net<Listener = TcpListener, Stream = TcpStream>,
{
    say_in_use(rt, "the address of the proxies is in use")?;
    let taken = TcpListener::bind(rt, SocketAddr::V4(any))?;
    if let SocketAddr::V4(peers) = taken.local_addr()? {
        show_in_use(rt, peers, other, peers.port())?;
        say_in_use(rt, "that, and no standard error")?;
        let status = listen(rt, peers, other, &mut Torn)?;
        show_end(rt, b"", status)?;
    }
    Ok(())
}

/// Listens where operators can't connect.
fn show_admin_in_use<R>(rt: &R, any: SocketAddrV4, other: SocketAddrV4) -> io::Result<()>
where
    R: Threads + Wait + Copy + Send + Sync + 'static,
    R: Print + Eprint + AllocGlobal + Clock + RandomSource + Usage,
    R: Net<Listener = TcpListener, Stream = TcpStream>,
{
    say_in_use(rt, "the address of the operators is in use")?;
    let taken = TcpListener::bind(rt, SocketAddr::V4(other))?;
    if let SocketAddr::V4(admin) = taken.local_addr()? {
        show_in_use(rt, any, admin, admin.port())?;
    }
    Ok(())
}

/// Listens where proxies can't connect, and then where operators can't, since the address is in
/// use.
fn show_addresses_in_use<R>(rt: &R) -> io::Result<()>
where
    R: Threads + Wait + Copy + Send + Sync + 'static,
    R: Print + Eprint + AllocGlobal + Clock + RandomSource + Usage,
    R: Net<Listener = TcpListener, Stream = TcpStream>,
{
    let any = SocketAddrV4::new(Ipv4Addr::LOCALHOST, 0);
    let other = SocketAddrV4::new(Ipv4Addr::new(127, 0, 0, 2), 0);
    show_peers_in_use(rt, any, other)?;
    show_admin_in_use(rt, any, other)?;
    show_socket_in_use(rt, any)
}
