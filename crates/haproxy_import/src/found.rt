//! What a haproxy.cfg declares, line by line.

ghost use Rattle.std.specs.Prelude.{◌≡◌, ◌∷◌, OnOk, IfOk};
ghost use Rattle.std.specs.Option.{option_map};
ghost use Rattle.line_words.specs.Words.{words};
ghost use Rattle.haproxy_cfg.specs.Tables.{shape_of};
ghost use Rattle.haproxy_import.specs.Found.{behind, config_of, last_of, me_of, named};
ghost use Rattle.haproxy_import.specs.Found.{others_than, peers_line};
ghost use Rattle.haproxy_import.specs.Found.{proxy_line, said, said_in, start, with_peer};
ghost use Rattle.haproxy_import.specs.Found.{with_shape, with_table};

use crate::notes::Notes;
use crate::origins::Origin;
use agg_types::{Config, Declared, MOST_PEERS, MOST_TABLES, Name, NoMemory, Shape};
use haproxy_cfg::{
    SectionKind, before_hash, fits, has_word, opened, plain_name, shape_of, value_of, word_of,
};
use std::alloc::Global;
use std::marker::Model;

/// Why a peer is left out whose name isn't plain.
const ODD_NAME: &[u8] = b"a name with quotes, escapes or variables isn't read";

/// What the lines so far declare. Contracts see it without its notes.
#[derive(Drop)]
pub(crate) struct Found<'a> {
    alloc: Global,
    kind: SectionKind,
    section: &'a [u8],
    last: &'a [u8],
    unnamed: bool,
    peers: Declared<Name>,
    tables: Declared<Shape>,
    notes: Notes<'a>,
}

impl<'a> Model for Found<'a> {
    ghost use Rattle.haproxy_import.specs.States.{State};

    ghost Value = { State };

    ghost view = { λ found. record {
      kind = found.kind;
      section = found.section.now;
      last = found.last.now;
      unnamed = found.unnamed;
      peers = found.peers;
      tables = found.tables;
    } };
}

impl<'a> Found<'a> {
    /// Nothing but the collector, where its name is given. The lines come from these files.
    pub(crate) fn new(
        alloc: Global,
        me: Option<&[u8]>,
        origins: &'a [Origin<'a>],
    ) -> Result<Found<'a>, NoMemory>
        ensures { IfOk result (λ found. found ≡ start (option_map (λ name. name.now) me.entry)) }
    {
        Ok(Found {
            alloc,
            kind: SectionKind::Other,
            section: b"",
            last: b"",
            unnamed: false,
            peers: named(alloc, me)?,
            tables: Declared::new(alloc),
            notes: Notes::new(alloc, origins, me.is_some()),
        })
    }

    /// Reads the next line.
    #[tactic(auto, unfolding(crate::specs::Found::behind))]
    pub(crate) fn line(&mut self, line: &'a [u8]) -> Result<(), NoMemory>
        ensures { OnOk result (self.new ≡ behind self.old (said line.now)) }
    {
        self.notes.next_line();
        let (first, rest) = word_of(before_hash(line));
        match opened(first) {
            Some(kind) => {
                self.kind = kind;
                self.section = word_of(rest).0;
                self.notes.open(self.section)
            }
            None => self.statement(first, rest),
        }
    }

    fn statement(&mut self, first: &'a [u8], rest: &'a [u8]) -> Result<(), NoMemory>
        ensures { OnOk result
            (self.new ≡ said_in self.old.kind self.old first.now (words rest.now)) }
    {
        match self.kind {
            SectionKind::Peers => self.peers_line(first, rest),
            SectionKind::Proxy => self.proxy_line(first, rest),
            SectionKind::Other => Ok(()),
        }
    }

    fn peers_line(&mut self, first: &'a [u8], rest: &'a [u8]) -> Result<(), NoMemory>
        ensures { OnOk result (self.new ≡ peers_line self.old first.now (words rest.now)) }
    {
        self.notes.say(first, rest)?;
        let (name, rest) = word_of(rest);
        if first == b"peer".as_slice() || first == b"server".as_slice() {
            self.peer(name)
        } else if first == b"table".as_slice() {
            let name = slashed(self.alloc, name)?;
            self.table(name.as_slice(), rest)
        } else {
            Ok(())
        }
    }

    fn proxy_line(&mut self, first: &'a [u8], rest: &'a [u8]) -> Result<(), NoMemory>
        ensures { OnOk result (self.new ≡ proxy_line self.old first.now (words rest.now)) }
    {
        if first != b"stick-table".as_slice() {
            return Ok(());
        }
        if !has_word(rest, b"peers") {
            return self.notes.not_pushed(self.section, rest);
        }
        self.table(self.section, rest)
    }

    // One that exists already is the last again; one too many is left out.
    fn peer(&mut self, name: &'a [u8]) -> Result<(), NoMemory>
        ensures { OnOk result (self.new ≡ with_peer self.old name.now) }
    {
        if !plain_name(name) {
            self.unnamed = true;
            return self.notes.no_peer(name, ODD_NAME);
        }
        if self.peers.contains(name) {
            self.last = name;
            return Ok(());
        }
        if MOST_PEERS < self.peers.len() {
            let why = format!(in self.alloc; "{MOST_PEERS} stand before it, the most here")?;
            return self.notes.no_peer(name, why.as_bytes());
        }
        self.last = name;
        self.peers.push(Name::copy(self.alloc, name)?)
    }

    fn table(&mut self, name: &[u8], rest: &[u8]) -> Result<(), NoMemory>
        ensures { OnOk result
            (self.new ≡ with_table self.old (shape_of name.now (words rest.now))) }
    {
        match shape_of(self.alloc, name, rest)? {
            None => self.notes.unread(name, rest),
            Some(shape) => self.add(shape, rest),
        }
    }

    fn add(&mut self, shape: Shape, rest: &[u8]) -> Result<(), NoMemory>
        ensures { OnOk result (self.new ≡ with_shape self.old shape) }
    {
        let name = shape.name.as_slice();
        if !fits(&shape) {
            return self.notes.unfit(&shape, rest);
        }
        if self.tables.contains(name) {
            return tell_again(&mut self.notes, &self.tables, &shape, rest);
        }
        if MOST_TABLES <= self.tables.len() {
            return self.notes.full(&shape, rest);
        }
        let fleet = match self.kind {
            SectionKind::Peers => self.section,
            SectionKind::Proxy | SectionKind::Other => value_of(rest, b"peers"),
        };
        self.notes.table(&shape, rest, fleet)?;
        self.tables.push(shape)
    }

    /// The configuration: the collector has the name that is given, or else that of the last peer,
    /// if there are several.
    #[tactic(auto, unfolding(crate::specs::Found::config_of))]
    pub(crate) fn config(&self, me: Option<&[u8]>) -> Result<Config, NoMemory>
        ensures { IfOk result (λ config.
            config ≡ config_of (option_map (λ name. name.now) me.entry) self.now) }
    {
        let me = self.me(me);
        Ok(Config {
            me: Name::copy(self.alloc, me)?,
            peers: others(self.alloc, self.peers.as_slice(), me)?,
            tables: self.tables.duplicate(self.alloc)?,
            filters: Declared::new(self.alloc),
            ranks: Declared::new(self.alloc),
            pushes: Declared::new(self.alloc),
            rows: None,
            logs: Declared::new(self.alloc),
            ignored: Declared::new(self.alloc),
        })
    }

    fn me<'b>(&'b self, given: Option<&'b [u8]>) -> &'b [u8]
        ensures { result.now ≡ me_of (option_map (λ name. name.now) given.entry) self.now }
    {
        match given {
            None => self.last_peer(),
            Some(name) => name,
        }
    }

    fn last_peer(&self) -> &[u8]
        ensures { result.now ≡ last_of self.now }
    {
        if self.peers.is_empty() || self.peers.len() < 2 && !self.unnamed {
            b"collector"
        } else {
            self.last
        }
    }

    /// What is told of the lines, all sections closed.
    pub(crate) fn into_notes(self) -> Result<Notes<'a>, NoMemory> {
        let mut notes = self.notes;
        notes.open(b"")?;
        Ok(notes)
    }
}

// The collector as a peer, where its name is given.
fn named(alloc: Global, me: Option<&[u8]>) -> Result<Declared<Name>, NoMemory>
    ensures { IfOk result (λ peers. peers ≡ named (option_map (λ name. name.now) me.entry)) }
{
    let mut peers = Declared::new(alloc);
    if let Some(name) = me {
        peers.push(Name::copy(alloc, name)?)?;
    }
    Ok(peers)
}

// Tells of a table whose name one of these tables has.
fn tell_again(
    notes: &mut Notes<'_>,
    tables: &Declared<Shape>,
    shape: &Shape,
    rest: &[u8],
) -> Result<(), NoMemory> {
    let Some(place) = tables.position(shape.name.as_slice()) else {
        return Ok(());
    };
    match tables.get(place) {
        None => Ok(()),
        Some(kept) => notes.again(shape, rest, kept, place),
    }
}

// The name on the wire of a table that a `peers` section declares.
fn slashed(alloc: Global, name: &[u8]) -> Result<Name, NoMemory>
    ensures { IfOk result (λ slashed. slashed ≡ 47 ∷ name.now) }
{
    let mut bytes = vec![in alloc; b'/']?;
    bytes.extend_from_slice(name)?;
    Name::copy(alloc, bytes.as_slice())
}

// The peers that don't have this name.
fn others(alloc: Global, peers: &[Name], me: &[u8]) -> Result<Declared<Name>, NoMemory>
    ensures { IfOk result (λ others. others ≡ others_than me.now peers.now) }
{
    let mut others = Declared::new(alloc);
    for peer in peers {
        if !peer.is(me) {
            others.push(peer.duplicate(alloc)?)?;
        }
    }
    Ok(others)
}
