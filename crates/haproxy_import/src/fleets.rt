//! Comments on `peers` sections. No clause says what they tell.

use crate::page::Page;
use agg_types::NoMemory;
use haproxy_cfg::{has_word, value_of, word_of};
use std::alloc::Global;

/// A line of a section: its number, its first word, and what follows it.
#[derive(Clone, Copy)]
pub(crate) struct Said<'a> {
    line: u64,
    first: &'a [u8],
    rest: &'a [u8],
}

impl<'a> Said<'a> {
    /// A line.
    pub(crate) fn new(line: u64, first: &'a [u8], rest: &'a [u8]) -> Said<'a> {
        Said { line, first, rest }
    }

    // Whether it names a peer.
    fn is_peer(self) -> bool {
        self.first == b"peer".as_slice() || self.first == b"server".as_slice()
    }

    // Whether it names this peer.
    fn is_of(self, name: &[u8]) -> bool {
        self.is_peer() && word_of(self.rest).0 == name
    }

    fn put(self, page: &mut Page<'_>) -> Result<(), NoMemory> {
        page.put(&[b"#        "])?;
        page.words(self.first)?;
        page.words(self.rest)?;
        page.put(&[b"\n"])
    }
}

/// A `peers` section: the line that opens it, its name, and its lines.
#[derive(Drop)]
pub(crate) struct Section<'a> {
    line: u64,
    name: &'a [u8],
    lines: Vec<Said<'a>>,
}

impl<'a> Section<'a> {
    /// One without lines.
    pub(crate) fn new(alloc: Global, line: u64, name: &'a [u8]) -> Section<'a> {
        Section {
            line,
            name,
            lines: Vec::new(alloc),
        }
    }

    /// Whether it has no lines.
    pub(crate) fn is_empty(&self) -> bool {
        self.lines.is_empty()
    }

    /// Adds a line.
    pub(crate) fn push(&mut self, said: Said<'a>) -> Result<(), NoMemory> {
        self.lines.push(said)?;
        Ok(())
    }

    // The line of this peer.
    fn line_of(&self, name: &[u8]) -> Option<Said<'a>> {
        self.lines
            .as_slice()
            .iter()
            .copied()
            .find(|said| said.is_of(name))
    }

    // The first proxy beside the collector.
    fn first_proxy(&self, me: &[u8]) -> Option<Said<'a>> {
        self.lines
            .as_slice()
            .iter()
            .copied()
            .find(|said| said.is_peer() && !said.is_of(me))
    }

    // How many proxies it names beside the collector.
    fn proxies(&self, me: &[u8]) -> usize {
        self.lines
            .as_slice()
            .iter()
            .filter(|said| said.is_peer() && !said.is_of(me))
            .count()
    }
}

/// The line that names the collector first, where one does.
pub(crate) fn line_of(sections: &[Section<'_>], me: &[u8]) -> Option<u64> {
    for section in sections {
        if let Some(said) = section.line_of(me) {
            return Some(said.line);
        }
    }
    None
}

/// Tells what keeps the sections from being right for a collector of this name, which may be given.
pub(crate) fn tell_sections(
    page: &mut Page<'_>,
    sections: &[Section<'_>],
    me: &[u8],
    is_given: bool,
) -> Result<(), NoMemory> {
    let is_there = line_of(sections, me).is_some();
    for section in sections {
        match section.line_of(me) {
            Some(collector) => tell_fleet(page, section, me, collector)?,
            None if section.first_proxy(me).is_none() => {}
            None if is_there || is_given => tell_other(page, section, me, is_there)?,
            None => {}
        }
    }
    Ok(())
}

// A section that names the collector.
fn tell_fleet(
    page: &mut Page<'_>,
    section: &Section<'_>,
    me: &[u8],
    collector: Said<'_>,
) -> Result<(), NoMemory> {
    if let Some(proxy) = section.first_proxy(me) {
        if 2 <= section.proxies(me) {
            tell_mesh(page, section, me, proxy)?;
        }
    }
    tell_tls(page, section, me)?;
    tell_shard(page, me, collector)
}

// A section that names proxies, and not the collector, which another one may name.
fn tell_other(
    page: &mut Page<'_>,
    section: &Section<'_>,
    me: &[u8],
    is_there: bool,
) -> Result<(), NoMemory> {
    page.begin(section.line)?;
    page.put(&[b"peers ", section.name, b" doesn't name ", me])?;
    if is_there {
        page.put(&[
            b": take out the lines of tables with peers ",
            section.name,
            b"\n",
        ])
    } else {
        page.put(&[b": let each proxy name itself and ", me, b" alone there.\n"])?;
        put_second(page, section, me)
    }
}

// Proxies that name one another, too.
fn tell_mesh(
    page: &mut Page<'_>,
    section: &Section<'_>,
    me: &[u8],
    proxy: Said<'_>,
) -> Result<(), NoMemory> {
    page.begin(section.line)?;
    page.put(&[b"WARNING: peers ", section.name, b" names "])?;
    page.number(section.proxies(me) as u64)?;
    page.put(&[b" proxies beside ", me, b".\n"])?;
    page.put(&[
        b"# They teach it one another's rows, too: from the first resync on a key counts once for\n\
# each of them. Let each proxy name itself and ",
        me,
        b" alone, as here the first one:\n#     peers ",
        section.name,
        b"\n",
    ])?;
    for said in section.lines.as_slice() {
        let is_shown = !said.is_peer() || said.is_of(me) || said.line == proxy.line;
        if is_shown {
            said.put(page)?;
        }
    }
    put_second(page, section, me)
}

// A section for the collector beside one that proxies keep for themselves.
fn put_second(page: &mut Page<'_>, section: &Section<'_>, me: &[u8]) -> Result<(), NoMemory> {
    page.put(&[
        b"# Or keep peers ",
        section.name,
        b" for the tables that proxies share, without ",
        me,
        b", and add a section that the\n# tables for ",
        me,
        b" name, at a port of its own:\n#     peers ",
        section.name,
        b"_collector\n#         peer <this proxy> <its address>:<another port>\n",
    ])?;
    page.put(&[b"#         peer ", me, b" <address>:<port>\n"])
}

// The collector would get only a part of the keys.
fn tell_shard(page: &mut Page<'_>, me: &[u8], said: Said<'_>) -> Result<(), NoMemory> {
    let shard = value_of(said.rest, b"shard");
    if shard.is_empty() {
        return Ok(());
    }
    page.comment(
        said.line,
        &[
            b"WARNING: shard ",
            shard,
            b": proxies push only the keys of this shard to ",
            me,
            b"; take it off the line",
        ],
    )
}

// The collector has no TLS.
fn tell_tls(page: &mut Page<'_>, section: &Section<'_>, me: &[u8]) -> Result<(), NoMemory> {
    for said in section.lines.as_slice() {
        let is_its_line = said.first == b"default-server".as_slice() || said.is_of(me);
        if is_its_line && has_word(said.rest, b"ssl") {
            return page.comment(
                said.line,
                &[
                    b"WARNING: ssl: ",
                    me,
                    b" has no TLS, so proxies can't reach it by this line",
                ],
            );
        }
    }
    Ok(())
}
