//! What the comments tell, gathered line by line, and the lines of tables among them. No clause
//! says what they tell.

use crate::columns::{Described, tell_blocks, tell_columns};
use crate::fleets::{Said, Section};
use crate::origins::Origin;
use crate::page::Page;
use crate::pushes::{suggest, tell_target};
use crate::reasons::{tell_again, tell_full, tell_unfit, tell_unread};
use crate::sizes::tell_room;
use agg_types::{NoMemory, Shape};
use haproxy_cfg::shape_of;
use std::alloc::Global;
use std::mem;

/// What is told of the lines so far.
#[derive(Drop)]
pub(crate) struct Notes<'a> {
    alloc: Global,
    /// From which files the lines come.
    pub(crate) origins: &'a [Origin<'a>],
    /// Whether the collector's name is given.
    pub(crate) is_named: bool,
    line: u64,
    section: Section<'a>,
    sections: Vec<Section<'a>>,
    table_lines: Vec<u64>,
    peers: Page<'a>,
    tables: Page<'a>,
    pushes: Page<'a>,
}

impl<'a> Notes<'a> {
    /// Nothing, of lines that come from these files. Whether the collector's name is given.
    pub(crate) fn new(alloc: Global, origins: &'a [Origin<'a>], is_named: bool) -> Notes<'a> {
        Notes {
            alloc,
            origins,
            is_named,
            line: 0,
            section: Section::new(alloc, 0, b""),
            sections: Vec::new(alloc),
            table_lines: Vec::new(alloc),
            peers: Page::new(alloc, origins),
            tables: Page::new(alloc, origins),
            pushes: Page::new(alloc, origins),
        }
    }

    /// The next line of the file is read.
    pub(crate) fn next_line(&mut self) {
        self.line = self.line.saturating_add(1);
    }

    /// The line opens a section of this name, or the file ends.
    pub(crate) fn open(&mut self, name: &'a [u8]) -> Result<(), NoMemory> {
        let next = Section::new(self.alloc, self.line, name);
        let section = mem::replace(&mut self.section, next);
        if !section.is_empty() {
            self.sections.push(section)?;
        }
        Ok(())
    }

    /// The line stands in a `peers` section.
    pub(crate) fn say(&mut self, first: &'a [u8], rest: &'a [u8]) -> Result<(), NoMemory> {
        self.section.push(Said::new(self.line, first, rest))
    }

    /// The line's peer is left out.
    pub(crate) fn no_peer(&mut self, name: &[u8], why: &[u8]) -> Result<(), NoMemory> {
        self.peers
            .comment(self.line, &[b"peer ", name, b" is left out: ", why])
    }

    fn described<'b>(&self, name: &'b [u8], rest: &'b [u8]) -> Described<'b> {
        Described {
            line: self.line,
            name,
            rest,
        }
    }

    /// The line's stick table isn't pushed.
    pub(crate) fn not_pushed(&mut self, name: &[u8], rest: &[u8]) -> Result<(), NoMemory> {
        let why = b" is left out: its stick-table names no peers section, so no proxy pushes it";
        self.tables.comment(self.line, &[b"table ", name, why])?;
        match shape_of(self.alloc, name, rest)? {
            None => Ok(()),
            Some(shape) => {
                self.tables.put(&[b"#"])?;
                self.tables.table(&shape)
            }
        }
    }

    /// The line's table isn't read.
    pub(crate) fn unread(&mut self, name: &[u8], rest: &[u8]) -> Result<(), NoMemory> {
        let table = self.described(name, rest);
        tell_unread(&mut self.tables, table)
    }

    /// The line's table may not be.
    pub(crate) fn unfit(&mut self, shape: &Shape, rest: &[u8]) -> Result<(), NoMemory> {
        let table = self.described(shape.name.as_slice(), rest);
        tell_unfit(&mut self.tables, table, shape)
    }

    /// The line's table would be one too many.
    pub(crate) fn full(&mut self, shape: &Shape, rest: &[u8]) -> Result<(), NoMemory> {
        let table = self.described(shape.name.as_slice(), rest);
        tell_full(&mut self.tables, table)
    }

    /// Another table, at this place, has the name of the line's.
    pub(crate) fn again(
        &mut self,
        shape: &Shape,
        rest: &[u8],
        kept: &Shape,
        place: usize,
    ) -> Result<(), NoMemory> {
        let table = self.described(shape.name.as_slice(), rest);
        let line = self.table_lines.get(place).copied().unwrap_or(0);
        tell_again(&mut self.tables, table, shape, kept, line)
    }

    /// The line's table is taken; `fleet` is the `peers` section that it names.
    pub(crate) fn table(
        &mut self,
        shape: &Shape,
        rest: &[u8],
        fleet: &[u8],
    ) -> Result<(), NoMemory> {
        let table = self.described(shape.name.as_slice(), rest);
        let is_whole = tell_columns(&mut self.tables, table)?;
        tell_blocks(&mut self.tables, table)?;
        tell_room(&mut self.tables, table, shape)?;
        if is_whole {
            tell_target(&mut self.tables, table, shape)?;
        }
        self.tables.table(shape)?;
        suggest(&mut self.pushes, table, shape, fleet)?;
        self.table_lines.push(self.line)?;
        Ok(())
    }

    /// The `peers` sections that are closed.
    pub(crate) fn sections(&self) -> &[Section<'a>] {
        self.sections.as_slice()
    }

    /// Comments on peers.
    pub(crate) fn peers(&self) -> &[u8] {
        self.peers.as_slice()
    }

    /// The lines of tables, and comments on them.
    pub(crate) fn tables(&self) -> &[u8] {
        self.tables.as_slice()
    }

    /// Comments on filters that may be pushed.
    pub(crate) fn pushes(&self) -> &[u8] {
        self.pushes.as_slice()
    }
}
