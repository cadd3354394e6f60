//! What command lines ask for, and the texts and exit statuses of those that ask for no job.

use command_line::{Endpoints, Job, Network, UnknownPeers, Usage, admits};
use std::alloc::Global;
use std::env::Env;
use std::io;
use std::net::{IpAddr, Ipv4Addr, Ipv6Addr};
use std::process::ExitCode;

/// IPv4 addresses that call.
const ADDRESSES: [[u8; 4]; 5] = [
    [10, 1, 0, 0],
    [10, 1, 0, 7],
    [10, 1, 0, 8],
    [10, 2, 255, 255],
    [192, 168, 7, 1],
];

/// IPv6 addresses that call; the first two stand for IPv4 ones.
const WIDE_ADDRESSES: [[u16; 8]; 5] = [
    [0, 0, 0, 0, 0, 0xffff, 0x0a01, 0x0007],
    [0, 0, 0, 0, 0, 0xffff, 0x0a01, 0x0008],
    [0, 0, 0, 0, 0, 0, 0, 1],
    [0x2001, 0x0db8, 0, 0, 0, 0, 0, 0x0007],
    [0x2001, 0x0db9, 0, 0, 0, 0, 0, 0x0007],
];

/// Prints what each line on standard input asks for. Then reads the command line of the program
/// itself so, and answers that one's status.
pub fn run(rt: &HostRuntime) -> anyhow::Result<ExitCode> {
    print_rows(rt)?;
    let words = given(rt)?;
    match command_line::read(rt.alloc(), words.as_slice()) {
        Ok(_) => Ok(ExitCode::SUCCESS),
        Err(usage) => {
            usage.print(&mut io::writer(rt), &mut rt.stderr())?;
            Ok(ExitCode::from(usage.status()))
        }
    }
}

fn print_rows(rt: &HostRuntime) -> anyhow::Result<()> {
    for line in rt.lines(rt.alloc()) {
        print_row(rt, line?.as_str())?;
    }
    Ok(())
}

// The words of the program's own command line.
fn given(rt: &HostRuntime) -> anyhow::Result<Vec<String>> {
    let mut words: Vec<String> = Vec::new(rt.alloc());
    for word in std::env::args(rt)? {
        words.push(word)?;
    }
    Ok(words)
}

fn words_of(alloc: Global, line: &str) -> anyhow::Result<Vec<&str>> {
    let mut words: Vec<&str> = Vec::new(alloc);
    for word in line.split_whitespace() {
        words.push(word)?;
    }
    Ok(words)
}

fn print_row(rt: &(impl Print + AllocGlobal), line: &str) -> anyhow::Result<()> {
    println!(rt; "== {line}")?;
    let words = words_of(rt.alloc(), line)?;
    match read(rt.alloc(), words.as_slice()) {
        Ok(job) => print_job(rt, &job),
        Err(usage) => print_usage(rt, &usage),
    }
}

fn print_usage(rt: &impl Print, usage: &Usage) -> anyhow::Result<()> {
    println!(rt; "{usage}status {}", usage.status())?;
    Ok(())
}

fn print_job(rt: &impl Print, job: &Job<'_>) -> anyhow::Result<()> {
    match job {
        Job::Replay => println!(rt; "replay")?,
        Job::Import { name, files } => print_import(rt, *name, files.as_slice())?,
        Job::Check { config } => println!(rt; "check {}", config.unwrap_or("-"))?,
        Job::Listen { config, endpoints } => {
            print_endpoints(rt, endpoints)?;
            print_config(rt, *config)?;
        }
    }
    Ok(())
}

fn print_import(rt: &impl Print, name: Option<&str>, files: &[&str]) -> anyhow::Result<()> {
    println!(rt; "import as {}", name.unwrap_or("the last peer"))?;
    for file in files {
        println!(rt; "of {file}")?;
    }
    Ok(())
}

fn print_config(rt: &impl Print, config: Option<&str>) -> anyhow::Result<()> {
    if let Some(config) = config {
        println!(rt; "by {config}")?;
    }
    Ok(())
}

fn print_endpoints(rt: &impl Print, endpoints: &Endpoints) -> anyhow::Result<()> {
    print_doors(rt, endpoints)?;
    print_others(rt, endpoints)?;
    if endpoints.from.is_empty() {
        return Ok(());
    }
    print_addresses(rt, endpoints.from.as_slice())?;
    print_wide_addresses(rt, endpoints.from.as_slice())
}

// Where proxies connect, and operators.
fn print_doors(rt: &impl Print, endpoints: &Endpoints) -> anyhow::Result<()> {
    let peers = &endpoints.peers;
    match &endpoints.admin {
        None => println!(rt; "listen to {peers}")?,
        Some(admin) => println!(rt; "listen to {peers} and {admin}")?,
    }
    Ok(())
}

// What else was asked for.
fn print_others(rt: &impl Print, endpoints: &Endpoints) -> anyhow::Result<()> {
    if let Some(path) = &endpoints.admin_socket {
        println!(rt; "and by {path} for operators")?;
    }
    if let Some(http) = &endpoints.http {
        println!(rt; "and to {http} for HTTP")?;
    }
    for host in endpoints.http_hosts.as_slice() {
        println!(rt; "as {host}")?;
    }
    if endpoints.unknown_peers == UnknownPeers::Wait {
        println!(rt; "unknown peers wait")?;
    }
    Ok(())
}

fn print_addresses(rt: &impl Print, from: &[Network]) -> anyhow::Result<()> {
    for [a, b, c, d] in ADDRESSES {
        print_address(rt, from, IpAddr::V4(Ipv4Addr::new(a, b, c, d)))?;
    }
    Ok(())
}

fn print_wide_addresses(rt: &impl Print, from: &[Network]) -> anyhow::Result<()> {
    for segments in WIDE_ADDRESSES {
        print_address(rt, from, IpAddr::V6(Ipv6Addr::from_segments(segments)))?;
    }
    Ok(())
}

// Whether an address may connect.
fn print_address(rt: &impl Print, from: &[Network], address: IpAddr) -> anyhow::Result<()> {
    let is_taken = admits(from, address);
    println!(rt;
        "{address} {}",
        if is_taken { "may connect" } else { "is closed" }
    )?;
    Ok(())
}

// Reads a line, once more where an allocation failed.
fn read<'a>(alloc: Global, words: &'a [&'a str]) -> Result<Job<'a>, Usage> {
    match command_line::read(alloc, words) {
        Err(Usage::NoMemory) => command_line::read(alloc, words),
        read => read,
    }
}
