//! Texts: a configuration, keys, and the words of a command line.

use agg_types::{KeyKind, Name};
use anyhow::Result;
use command_line::{Endpoints, Job, Usage};
use key_text::{append_key, read_key};
use std::alloc::Global;
use test_support::{TWO_PROXIES, config};

/// A peer that stands twice, in line 3.
const TWICE: &[u8] = b"name agg\npeer lb1\npeer lb1\n";

/// The words of a command line that listens.
const LISTEN: [&str; 6] = [
    "aggregator",
    "listen",
    "--peers",
    "127.0.0.1:10000",
    "--admin",
    "127.0.0.1:9999",
];

/// `agg_config::read` answers the configuration that a text writes, or its first faulty line.
fn read_configuration(rt: &impl Print, alloc: Global, text: &[u8]) -> Result<()> {
    match agg_config::read(alloc, text) {
        Ok(read) => println!(rt;
            "read: {} peers, {} tables",
            read.peers.len(),
            read.tables.len()
        )?,
        Err(fault) => println!(rt; "read: line {}: {}", fault.line, fault.cause)?,
    }
    Ok(())
}

/// `Config::check` answers the first fault of a configuration: here a blank in a name.
fn check_configuration(rt: &impl Print, alloc: Global) -> Result<()> {
    let mut config = config(alloc, TWO_PROXIES)?;
    println!(rt; "check: {:?}", config.check())?;
    config.me = Name::copy(alloc, b"a name")?;
    println!(rt; "check: {:?}", config.check())?;
    Ok(())
}

/// `append_key` appends the text of a key.
fn print_key(rt: &impl Print, alloc: Global, kind: KeyKind, key: &[u8]) -> Result<()> {
    let mut text = Vec::new(alloc);
    append_key(kind, key, &mut text)?;
    println!(rt; "append_key: {}", text.as_slice().escape_ascii())?;
    Ok(())
}

/// `read_key` answers the key that a text was printed from, or none.
fn read_address(rt: &impl Print, alloc: Global, text: &[u8]) -> Result<()> {
    match read_key(alloc, KeyKind::Ip, text)? {
        None => println!(rt; "read_key: none")?,
        Some(key) => println!(rt; "read_key: {:?}", key.as_slice())?,
    }
    Ok(())
}

/// `command_line::read` answers the job that words ask for, or why they ask for none.
fn read_words(rt: &impl Print, alloc: Global, words: &[&str]) -> Result<()> {
    match command_line::read(alloc, words) {
        Ok(job) => print_job(rt, &job),
        Err(usage) => print_usage(rt, &usage),
    }
}

fn print_usage(rt: &impl Print, usage: &Usage) -> Result<()> {
    println!(rt; "words: status {}", usage.status())?;
    Ok(())
}

fn print_job(rt: &impl Print, job: &Job<'_>) -> Result<()> {
    match job {
        Job::Replay => println!(rt; "words: replay")?,
        Job::Import { .. } => println!(rt; "words: import")?,
        Job::Check { config } => println!(rt; "words: check {}", config.unwrap_or("-"))?,
        Job::Listen { endpoints, .. } => print_endpoints(rt, endpoints)?,
    }
    Ok(())
}

fn print_endpoints(rt: &impl Print, endpoints: &Endpoints) -> Result<()> {
    let peers = &endpoints.peers;
    match &endpoints.admin {
        None => println!(rt; "words: listen to {peers}")?,
        Some(admin) => println!(rt; "words: listen to {peers} and {admin}")?,
    }
    Ok(())
}

/// Shows each.
pub fn show(rt: &impl Print, alloc: Global) -> Result<()> {
    for text in [TWO_PROXIES, TWICE] {
        read_configuration(rt, alloc, text)?;
    }
    check_configuration(rt, alloc)?;
    print_key(rt, alloc, KeyKind::Ip, &[10, 0, 0, 1])?;
    print_key(rt, alloc, KeyKind::Str(16), b"a b")?;
    read_address(rt, alloc, b"10.0.0.1")?;
    read_address(rt, alloc, b"10.0.0")?;
    read_words(rt, alloc, &LISTEN)?;
    read_words(rt, alloc, &["aggregator", "replay"])?;
    read_words(rt, alloc, &["aggregator"])
}
