//! Reads and writes that fail.

use std::io;
use std::io::{BufReader, Write};
use test_support::{Full, Torn};

/// A script that prints a line of as many bytes.
const SCRIPT: &[u8] = b"name agg\nstart 0\nx";

/// One that prints two such lines.
const TWO: &[u8] = b"name agg\nstart 0\nx\ny\n";

/// Prints how the replay ends where its reader fails behind none of its bytes, one, and so on, and
/// where it doesn't fail. The scripts have one line behind `start`, and two.
pub fn show_reads(rt: &(impl Print + AllocGlobal)) -> io::Result<()> {
    for room in 0..SCRIPT.len().saturating_add(2) {
        show_read(rt, SCRIPT, room)?;
    }
    for room in 16..TWO.len().saturating_add(2) {
        show_read(rt, TWO, room)?;
    }
    Ok(())
}

fn show_read(rt: &(impl Print + AllocGlobal), left: &[u8], room: usize) -> io::Result<()> {
    let len = left.len();
    let mut script = BufReader::new(rt.alloc(), Torn { left, room })?;
    let mut out = Full::new(rt.alloc(), 100, true);
    let status = replay::replay_from(rt.alloc(), &mut script, &mut out).status();
    let bytes = out.taken.len();
    println!(rt; "reads {room} of {len}: status {status}, {bytes} written")
}

/// Prints how the replay ends where its writer has room for none of its bytes, for one, and so on,
/// and where a flush fails.
pub fn show_writes(rt: &(impl Print + AllocGlobal)) -> io::Result<()> {
    for room in 0..20 {
        show_write(rt, room, true)?;
    }
    show_write(rt, 100, false)
}

fn show_write(rt: &(impl Print + AllocGlobal), room: usize, flushes: bool) -> io::Result<()> {
    let mut script = SCRIPT;
    let mut out = Full::new(rt.alloc(), room, flushes);
    let status = replay::replay_from(rt.alloc(), &mut script, &mut out).status();
    print!(rt; "writes {room}, flushes {flushes}: status {status}, ")?;
    let mut printed = io::writer(rt);
    printed.write_all(out.taken.as_slice())?;
    if out.taken.last() != Some(&b'\n') {
        printed.write_all(b"\n")?;
    }
    Ok(())
}
