//! Configurations written out, and read again.

use crate::configurations::read;
use agg_types::{Config, NoMemory};
use config_text::append_config;
use std::alloc::Global;
use std::io;
use std::io::Write;

/// Prints behind a title the text of a configuration, and whether that is its own text.
pub fn print<W: Write>(alloc: Global, text: &[u8], out: &mut W) -> io::Result<()> {
    out.write_all(b"\n")?;
    let Some(once) = written(alloc, text) else {
        return out.write_all(b"-- not read\n");
    };
    out.write_all(once.as_slice())?;
    match written(alloc, once.as_slice()) {
        Some(twice) if twice.as_slice() == once.as_slice() => {
            out.write_all(b"-- read and written: the same\n")
        }
        _ => out.write_all(b"-- read and written: another\n"),
    }
}

// What a configuration is written as, once more where an allocation failed.
fn written(alloc: Global, text: &[u8]) -> Option<Vec<u8>> {
    let config = read(alloc, text).ok()?;
    match text_of(alloc, &config) {
        Err(NoMemory) => text_of(alloc, &config).ok(),
        Ok(written) => Some(written),
    }
}

fn text_of(alloc: Global, config: &Config) -> Result<Vec<u8>, NoMemory> {
    let mut out = Vec::new(alloc);
    append_config(config, &mut out)?;
    Ok(out)
}
