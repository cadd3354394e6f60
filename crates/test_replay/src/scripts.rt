//! The scripts of `data/`.

use std::io::Write;
use std::{fs, io};

/// Replays each script that is named on standard input, a name a line, and prints how it ended and
/// what it printed.
pub fn show(rt: &HostRuntime) -> io::Result<()> {
    for line in rt.lines(rt.alloc()) {
        let name = line?;
        let script = fs::read(rt, name.as_str())?;
        let mut out = Vec::new(rt.alloc());
        let ending = replay::replay(rt.alloc(), script.as_slice(), &mut out)?;
        let status = ending.status();
        println!(rt; "== {name}: {status}")?;
        io::writer(rt).write_all(out.as_slice())?;
    }
    Ok(())
}
