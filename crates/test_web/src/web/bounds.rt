//! For which hosts requests may be, and when looks may begin.

use anyhow::Result;
use std::alloc::Global;
use web_door::{Budget, freshness};
use web_target::admits_host;

/// Hosts as requests name them.
const HOSTS: [&[u8]; 24] = [
    b"localhost",
    b"LOCALHOST",
    b"localhost:9998",
    b"localhost:",
    b"localhost.",
    b"localhost:99x",
    b"localhost:1:2",
    b"Collector.Example",
    b"collector.example:443",
    b"other.example",
    b"evil.example",
    b"127.0.0.1",
    b"10.1.2.3:80",
    b"127.0.0.1.evil.example",
    b"127.0.0.256",
    b"127.1",
    b"[::1]",
    b"[2001:db8::7]:9998",
    b"[::1]9998",
    b"[::1",
    b"[127.0.0.1]",
    b"::1",
    b"[]",
    b"",
];

/// Moments at which a look may begin or not, behind one of 300 ms that ended after a second, in ms.
const MOMENTS: [u64; 4] = [1000, 2999, 3000, 4000];

/// Shows both.
pub fn show(rt: &impl Print, alloc: Global) -> Result<()> {
    let mut names = Vec::new(alloc);
    names.push(String::from_str(alloc, "collector.example")?)?;
    names.push(String::from_str(alloc, "OTHER.example")?)?;
    for host in HOSTS {
        let admits = admits_host(alloc, names.as_slice(), host)?;
        println!(rt; "host \"{}\": {admits}", host.escape_ascii())?;
    }
    show_budget(rt)
}

fn show_budget(rt: &impl Print) -> Result<()> {
    let mut budget = Budget::new();
    println!(rt;
        "looks in a row: {} of 5 ms, {} of 50 ms",
        looks_in_a_row(5_000),
        looks_in_a_row(50_000)
    )?;
    budget.spend(1_000_000, 300_000);
    for moment in MOMENTS {
        println!(rt;
            "at {moment} ms: {}",
            budget.allows(moment.saturating_mul(1000))
        )?;
    }
    println!(rt;
        "fresh for {} and {} us",
        freshness(70_000),
        freshness(300_000)
    )?;
    Ok(())
}

// How many looks that take so many µs each may begin one right behind the other, up to a hundred.
fn looks_in_a_row(took: u64) -> u64 {
    let mut budget = Budget::new();
    let mut now = 0u64;
    let mut count = 0u64;
    for _ in 0..100u64 {
        if !budget.allows(now) {
            break;
        }
        now = now.saturating_add(took);
        budget.spend(now, took);
        count = count.saturating_add(1);
    }
    count
}
