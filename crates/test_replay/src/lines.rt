//! Lines of 10 MB.

use std::alloc::{AllocError, Global};
use std::io;
use std::io::Write;

/// The bytes that fill a line.
const LONG: usize = 10_000_000;

/// What stands around the bytes that fill a line, and the byte that does.
const ROWS: [(&str, &[u8], u8, &[u8]); 12] = [
    ("a command", b"name agg\nstart 0\n", b'x', b"\n"),
    (
        "a command of NUL",
        b"name agg\nstart 0\n",
        0,
        b"\nshow table",
    ),
    (
        "a command of 0xff without LF",
        b"name agg\nstart 0\n",
        0xff,
        b"",
    ),
    (
        "spaces before a command",
        b"name agg\nstart 0\n",
        b' ',
        b"show table",
    ),
    ("a line of spaces", b"name agg\nstart 0\n", b' ', b"\nx"),
    ("a comment", b"name agg\nstart 0\n#", 0xff, b"\nx"),
    (
        "bytes of a hello",
        b"name agg\nstart 0\nconnect\nbytes 1 ",
        b'7',
        b"\nx",
    ),
    (
        "hexadecimal digits",
        b"name agg\nstart 0\nconnect\nbytes 1 ",
        0,
        b"\nx",
    ),
    ("a moment", b"name agg\nstart 0\nmoment ", b'1', b"\nx"),
    ("an opening moment", b"name agg\nstart ", b'0', b"\nx"),
    ("a configuration line", b"name agg\n", 0, b"\nstart 0\nx"),
    ("a name", b"name ", b'a', b"\nstart 0\nx"),
];

/// Prints how each row ends, and what it prints.
pub fn show(rt: &(impl Print + AllocGlobal)) -> io::Result<()> {
    for (title, before, byte, behind) in ROWS {
        let script = filled(rt.alloc(), before, byte, behind)?;
        let mut out = Vec::new(rt.alloc());
        let ending = replay::replay(rt.alloc(), script.as_slice(), &mut out)?;
        let status = ending.status();
        println!(rt; "{title}: status {status}")?;
        io::writer(rt).write_all(out.as_slice())?;
    }
    Ok(())
}

fn filled(alloc: Global, before: &[u8], byte: u8, behind: &[u8]) -> Result<Vec<u8>, AllocError> {
    let mut script = Vec::new(alloc);
    script.extend_from_slice(before)?;
    let filled = script.len().saturating_add(LONG);
    script.resize(filled, byte)?;
    script.extend_from_slice(behind)?;
    Ok(script)
}
