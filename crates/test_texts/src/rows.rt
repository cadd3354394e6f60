//! Texts in a file: rows begin with `~` and a title, which fills the line; the text follows.

use crate::{configurations, imports, written};
use line_words::{next_line, next_part};
use std::alloc::Global;
use std::io::{BufWriter, Write};
use std::{fs, io};

/// What the text of a row is.
#[derive(Clone, Copy)]
pub enum Kind {
    Configuration,
    Written,
    Haproxy,
}

/// Prints each row of a file, and what its text gives.
pub fn run(rt: &HostRuntime, path: &str, kind: Kind) -> io::Result<()> {
    let rows = fs::read(rt, path)?;
    let mut out = BufWriter::new(rt.alloc(), io::writer(rt))?;
    print_rows(rt.alloc(), rows.as_slice(), kind, &mut out)?;
    out.flush()
}

fn print_rows<W: Write>(alloc: Global, rows: &[u8], kind: Kind, out: &mut W) -> io::Result<()> {
    let mut left = Some(rows);
    for _ in 0..rows.len() {
        let Some(text) = left else {
            return Ok(());
        };
        let (row, rest) = next_part(text, b'~');
        if let Some((title, text)) = next_line(row) {
            print_row(alloc, title, text, kind, out)?;
        }
        left = rest;
    }
    Ok(())
}

fn print_row<W: Write>(
    alloc: Global,
    title: &[u8],
    text: &[u8],
    kind: Kind,
    out: &mut W,
) -> io::Result<()> {
    out.write_all(b"== ")?;
    out.write_all(title)?;
    match kind {
        Kind::Configuration => configurations::print(alloc, text, out),
        Kind::Written => written::print(alloc, text, out),
        Kind::Haproxy => imports::print(alloc, text, out),
    }
}
