//! A configuration as text. No clause says what it is: `import` reads it again.

use crate::fleets::{line_of, tell_sections};
use crate::notes::Notes;
use crate::page::Page;
use crate::{pushes, sizes};
use agg_types::{Config, NoMemory};
use std::alloc::Global;

const HEAD: &[u8] =
    b"# From a haproxy.cfg, whose lines the comments name. Add a peer line for each further\n\
# proxy, then filters and ranked lists.\n";

const NO_PEERS: &[u8] =
    b"# WARNING: no proxy is named by a peer or server line of a peers section: add peer lines.\n";

const NO_TABLES: &[u8] =
    b"# WARNING: nothing to follow: no stick-table with peers, no table in a peers section.\n";

const NO_COLLECTOR: &[u8] =
    b"# The file names no collector: give its name here, and name it in each peers section.\n";

/// Behind the name of the last peer.
const TAKEN: &[u8] = b", the last peer, is taken for the collector. If it is a proxy, write a\n\
# peer line for it, give the collector's name here, and let each proxy name that and itself\n\
# alone.";

/// The lines of a configuration without filters and ranked lists, with comments.
pub(crate) fn text_of(
    alloc: Global,
    config: &Config,
    notes: &Notes<'_>,
) -> Result<Vec<u8>, NoMemory> {
    let mut page = Page::new(alloc, notes.origins);
    page.put(&[HEAD])?;
    put_peers(&mut page, config, notes)?;
    put_tables(&mut page, config, notes)?;
    Ok(page.into_text())
}

fn put_peers(page: &mut Page<'_>, config: &Config, notes: &Notes<'_>) -> Result<(), NoMemory> {
    let me = config.me.as_slice();
    if config.peers.is_empty() {
        page.put(&[NO_PEERS])?;
    }
    tell_sections(page, notes.sections(), me, notes.is_named)?;
    page.put(&[notes.peers()])?;
    put_me(page, notes, me)?;
    for peer in config.peers.as_slice() {
        page.put(&[b"peer ", peer.as_slice(), b"\n"])?;
    }
    Ok(())
}

fn put_me(page: &mut Page<'_>, notes: &Notes<'_>, me: &[u8]) -> Result<(), NoMemory> {
    match line_of(notes.sections(), me) {
        _ if notes.is_named => {}
        None => page.put(&[NO_COLLECTOR])?,
        Some(line) => page.comment(line, &[me, TAKEN])?,
    }
    page.put(&[b"name ", me, b"\n"])
}

fn put_tables(page: &mut Page<'_>, config: &Config, notes: &Notes<'_>) -> Result<(), NoMemory> {
    let head = if config.tables.is_empty() {
        NO_TABLES
    } else {
        sizes::RULE
    };
    page.put(&[head, notes.tables()])?;
    if notes.pushes().is_empty() {
        Ok(())
    } else {
        page.put(&[pushes::HEAD, notes.pushes()])
    }
}
