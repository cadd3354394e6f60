//! `aggregator listen`, a peer and an admin over TCP on this machine.
//!
//! The collector runs in a thread, with the configuration on standard input. A peer says hello,
//! defines a table and sends three updates, each once the one before it is acknowledged; then an
//! admin asks for the table and what else stands, and quits. Another one asks by the socket, which
//! was left there before, and is told what is wrong with its lines. A browser's form ends its
//! connection and changes nothing. A stranger that says nothing is connected all the while, and a
//! newer connection of the peer ends the older one. What each is answered is printed. The collector
//! doesn't end by itself: the program ends while it runs.

use anyhow::{Result, anyhow};
use collector_log::Usage;
use listening::Disk;
use std::alloc::Global;
use std::env::Env;
use std::fs::{File, Files};
use std::io::{BufReader, Read, Write};
use std::net::{Ipv4Addr, Net, SocketAddr, SocketAddrV4, TcpListener, TcpStream};
use std::os::unix::fs::PermissionsExt;
use std::os::unix::net::{UnixListener, UnixStream};
use std::random::RandomSource;
use std::sync::Wait;
use std::thread::Threads;
use std::time::{Clock, Duration};
use std::{fs, io};

/// What the peer sends, and how many bytes it is answered. First a hello. Then a definition of the
/// table `t`, of addresses with gpc0, whose rows never end, and behind it an update that puts
/// 10.0.0.1 to 5. Then an update of 10.0.0.2 to 9, and one of 10.0.0.1 to 6.
const TALK: [(&[u8], usize); 4] = [
    (b"HAProxyS 2.1\nagg\nlb1 1 1\n", 6),
    (
        b"\x0a\x82\x07\x01\x01t\x04\x04\x04\x00\x0a\x80\x09\x00\x00\x00\x01\x0a\x00\x00\x01\x05",
        8,
    ),
    (b"\x0a\x81\x05\x0a\x00\x00\x02\x09", 8),
    (b"\x0a\x81\x05\x0a\x00\x00\x01\x06", 8),
];

/// The path of the operators' socket.
const SOCKET: &str = "admin";

/// How often a connection is tried, and how long it rests in between, in ms.
const TRIES: u64 = 100;

const REST: u64 = 50;

/// How long a read may wait, in ms.
const LIMIT: u64 = 5000;

/// An address of this machine whose port is free.
fn free_address<R: Net<Listener = TcpListener, Stream = TcpStream>>(
    rt: &R,
) -> io::Result<SocketAddr> {
    let any = SocketAddr::V4(SocketAddrV4::new(Ipv4Addr::LOCALHOST, 0));
    let listener = TcpListener::bind(rt, any)?;
    listener.local_addr()
}

/// Connects, once the collector listens.
fn connect<R: Clock + Net<Listener = TcpListener, Stream = TcpStream>>(
    rt: &R,
    address: SocketAddr,
) -> Result<TcpStream> {
    for _ in 0..TRIES {
        if let Ok(stream) = TcpStream::connect(rt, address) {
            stream.set_read_timeout(Some(Duration::from_millis(LIMIT)))?;
            return Ok(stream);
        }
        rt.sleep(Duration::from_millis(REST));
    }
    Err(anyhow!("nobody listens"))
}

/// Sends all of the bytes.
fn send(stream: &TcpStream, bytes: &[u8]) -> io::Result<()> {
    let mut stream = stream;
    stream.write_all(bytes)
}

/// Sends a piece, and prints so many bytes of its answer.
fn say(rt: &impl Print, stream: &TcpStream, piece: &[u8], count: usize) -> Result<()> {
    send(stream, piece)?;
    let mut answer = [0; 16];
    let answer = &mut answer[..count.min(16)];
    let mut from = stream;
    from.read_exact(answer)?;
    println!(rt; "{}", answer.escape_ascii())?;
    Ok(())
}

/// Asks: the answer up to its empty line, or to the end of the connection.
fn answer(alloc: Global, stream: &TcpStream, line: &[u8]) -> Result<Vec<u8>> {
    send(stream, line)?;
    let mut answer = Vec::new(alloc);
    let mut from = stream;
    for _ in 0..TRIES {
        let mut buffer = [0; 1000];
        let count = from.read(&mut buffer)?;
        answer.extend_from_slice(&buffer[..count])?;
        if count == 0 || answer.as_slice().ends_with(b"\n\n") {
            break;
        }
    }
    Ok(answer)
}

/// Asks, and prints the answer.
fn ask(rt: &impl Print, alloc: Global, stream: &TcpStream, line: &[u8]) -> Result<()> {
    let answer = answer(alloc, stream, line)?;
    io::writer(rt).write_all(answer.as_slice())?;
    Ok(())
}

/// What begins a line or a word whose value isn't the same each time.
const VARYING: [&[u8]; 6] = [
    b"uptime_ms: ",
    b"now_ms: ",
    b"memory: ",
    b"from=",
    b"since_ms=",
    b"last_update_ms=",
];

/// Whether these bytes begin with a label and a value, which is no dash.
fn has_value(bytes: &[u8], label: &[u8]) -> bool {
    bytes.starts_with(label) && !matches!(bytes.get(label.len()), Some(b'-'))
}

/// Asks, and prints the answer, with a # for each value that isn't the same each time.
fn ask_varying(rt: &impl Print, alloc: Global, stream: &TcpStream, line: &[u8]) -> Result<()> {
    let answer = answer(alloc, stream, line)?;
    let mut rest = answer.as_slice();
    for _ in 0..answer.len() {
        let Some((first, behind)) = rest.split_first() else {
            break;
        };
        if let Some(label) = VARYING.iter().find(|label| has_value(rest, label)) {
            io::writer(rt).write_all(label)?;
            io::writer(rt).write_all(b"#")?;
            rest = behind_value(rest, label.len());
        } else {
            io::writer(rt).write_all(&[*first])?;
            rest = behind;
        }
    }
    Ok(())
}

/// What follows the value behind so many bytes.
fn behind_value(bytes: &[u8], label: usize) -> &[u8] {
    let Some(value) = bytes.get(label..) else {
        return b"";
    };
    match value
        .iter()
        .position(|byte: &u8| *byte == b' ' || *byte == b'\n')
    {
        None => b"",
        Some(end) => match value.get(end..) {
            None => b"",
            Some(rest) => rest,
        },
    }
}

/// What an operator asks of the collector itself, and the end of the connection.
fn ask_status(rt: &impl Print, alloc: Global, asking: &TcpStream) -> Result<()> {
    for line in [b"help\n".as_slice(), b"show config\n", b"show peers lb1\n"] {
        ask(rt, alloc, asking, line)?;
    }
    for line in [b"show info\n".as_slice(), b"show peers\n"] {
        ask_varying(rt, alloc, asking, line)?;
    }
    ask(rt, alloc, asking, b"quit\n")?;
    println!(rt; "the admin connection is over")?;
    Ok(())
}

/// A browser sends a form behind a question: what it is answered up to the end of the connection.
fn browse(rt: &HostRuntime, admin: SocketAddr) -> Result<()> {
    let browser = connect(rt, admin)?;
    send(
        &browser,
        b"show table t\nPOST / HTTP/1.1\r\nHost: x\r\n\r\nclear table t\n",
    )?;
    let mut answer = Vec::new(rt.alloc());
    let mut from = &browser;
    from.read_to_end(&mut answer)?;
    io::writer(rt).write_all(answer.as_slice())?;
    println!(rt; "the browser's connection is over")?;
    Ok(())
}

/// Runs the program over `listen` at these addresses.
pub fn collect<R>(rt: &R, peers: SocketAddr, admin: SocketAddr) -> Result<u8>
where
    R: Threads + Wait + Copy + Send + Sync + 'static,
    R: Input + Print + Eprint + AllocGlobal + Clock + RandomSource + Usage,
    R: Net<Listener = TcpListener, Stream = TcpStream> + Files<File = File> + Env,
{
    let peers = format!(in rt.alloc(); "--peers={peers}")?;
    let admin = format!(in rt.alloc(); "--admin={admin}")?;
    let socket = format!(in rt.alloc(); "--admin-socket={SOCKET}")?;
    let words = [
        "aggregator",
        "listen",
        peers.as_str(),
        admin.as_str(),
        socket.as_str(),
    ];
    let mut input = BufReader::new(rt.alloc(), rt.reader())?;
    let mut output = io::writer(rt);
    let mut errors = Vec::new(rt.alloc());
    let status = listening::run_words(
        rt,
        &words,
        &Disk { rt: *rt },
        &mut input,
        &mut output,
        &mut errors,
    );
    Ok(status)
}

/// Leaves a socket behind on which nobody answers.
fn leave_socket<R: Net + Files>(rt: &R) -> io::Result<()> {
    let _left = UnixListener::bind(rt, SOCKET)?;
    Ok(())
}

/// Asks by the socket: who may use it, and what is answered up to the end of the connection.
fn ask_by_socket<R: Print + AllocGlobal + Net + Files>(rt: &R) -> Result<()> {
    let mode = fs::metadata(rt, SOCKET)?.permissions().mode() & 0o777;
    println!(rt; "the socket has mode {mode:o}")?;
    let mut here = UnixStream::connect(rt, SOCKET)?;
    here.set_read_timeout(Some(Duration::from_millis(LIMIT)))?;
    here.write_all(b"show table\nshow nothing; show filter clients;show filter;\nexit\n")?;
    let mut answer = Vec::new(rt.alloc());
    here.read_to_end(&mut answer)?;
    io::writer(rt).write_all(answer.as_slice())?;
    fs::remove_file(rt, SOCKET)?;
    Ok(())
}

/// The peer calls again: what its newer connection is answered, and what comes on the older one.
fn call_again(rt: &HostRuntime, peers: SocketAddr, older: &TcpStream) -> Result<()> {
    let newer = connect(rt, peers)?;
    let [(hello, count), ..] = TALK;
    say(rt, &newer, hello, count)?;
    let mut from = older;
    let mut rest = [0; 16];
    let count = from.read(&mut rest)?;
    println!(rt; "the older connection: {count} more bytes")?;
    Ok(())
}

/// The addresses of the peers and of the admins. It leaves the operators' socket behind.
pub fn addresses(rt: &HostRuntime) -> io::Result<(SocketAddr, SocketAddr)> {
    leave_socket(rt)?;
    let peers = free_address(rt)?;
    Ok((peers, free_address(rt)?))
}

/// Prints what a peer and admins are answered by a collector that runs meanwhile.
pub fn show(rt: &HostRuntime, peers: SocketAddr, admin: SocketAddr) -> Result<()> {
    let _stranger = connect(rt, peers)?;
    let peer = connect(rt, peers)?;
    for (piece, count) in TALK {
        say(rt, &peer, piece, count)?;
    }
    let asking = connect(rt, admin)?;
    ask(rt, rt.alloc(), &asking, b"show table t\n")?;
    ask(rt, rt.alloc(), &asking, b"clear table t key 10.0.0.2\n")?;
    ask(rt, rt.alloc(), &asking, b"show table\n")?;
    ask_status(rt, rt.alloc(), &asking)?;
    browse(rt, admin)?;
    ask_by_socket(rt)?;
    call_again(rt, peers, &peer)
}
