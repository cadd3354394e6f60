//! The configurations that a haproxy.cfg gives. What is printed is read again as the collector
//! does, and its peers and tables are counted.

use crate::configurations::read;
use haproxy_import::{ImportFault, import};
use std::alloc::Global;
use std::io;
use std::io::Write;

/// Prints behind a title the configuration that a haproxy.cfg gives, or what is wrong with it.
pub fn print<W: Write>(alloc: Global, text: &[u8], out: &mut W) -> io::Result<()> {
    out.write_all(b"\n")?;
    match imported(alloc, text) {
        Ok(written) => {
            out.write_all(written.as_slice())?;
            print_counts(alloc, written.as_slice(), out)
        }
        Err(fault) => writeln!(out, "{fault}"),
    }
}

// Imports once more where an allocation failed: so what is printed is the same whichever allocation
// fails.
fn imported(alloc: Global, text: &[u8]) -> Result<Vec<u8>, ImportFault> {
    match import(alloc, None, text, &[]) {
        Err(ImportFault::NoMemory) => import(alloc, None, text, &[]),
        imported => imported,
    }
}

fn print_counts<W: Write>(alloc: Global, text: &[u8], out: &mut W) -> io::Result<()> {
    match read(alloc, text) {
        Ok(config) => {
            let peers = config.peers.len();
            let tables = config.tables.len();
            writeln!(out, "-- read: {peers} peers, {tables} tables")
        }
        Err(_) => writeln!(out, "-- not read"),
    }
}
