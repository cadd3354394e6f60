//! What is told to an operator while the collector runs.

use crate::board::Board;
use crate::reporting::{Counters, HELP, append_info, append_peers, append_tables};
use agg_types::{Config, NoMemory};
use book::Book;
use defined_tables::{Because, DefinedTable, Lacking, Mention, Verdict, judge, lacks_of};
use journal::{Event, Journal};
use peers_msg::Definition;
use process_figures::Usage;
use serve::{Cause, Gate, Gone, News, Place, Status};
use sockets::{Connections, FoundBy, Reset, Ticks, Unasked};
use std::alloc::Global;
use std::net::SocketAddr;
use std::sync::Wait;
use std::time::Clock;
use update_values::types_not_kept;

/// The gate of the collector: it lets all pass until the peers' door is closed for good, notes the
/// news for the log and on the board, and tells what stands there.
#[derive(Drop)]
pub struct Notes<'a, R> {
    pub rt: R,
    pub alloc: Global,
    pub config: &'a Config,
    pub connections: &'a Connections,
    pub journal: &'a Journal,
    pub clock: &'a Ticks<R>,
    pub board: &'a Board,
}

// The seat at a place, if a session with one is there.
fn seat_at(place: Place) -> Option<u64> {
    match place {
        Place::Session(seat) => seat,
        Place::Admin | Place::Timer => None,
    }
}

impl<'a, R> Notes<'a, R> {
    // A peer's name.
    fn name(&self, peer: usize) -> &[u8] {
        match self.config.peers.as_slice().get(peer) {
            None => b"?",
            Some(name) => name.as_slice(),
        }
    }

    // Whether a newer connection of its peer ended the one from this address.
    fn was_replaced(&self, address: Option<SocketAddr>) -> bool
    where
        R: Wait,
    {
        match address {
            None => false,
            Some(address) => self.connections.was_replaced(&self.rt, address),
        }
    }

    // Tells of the connection from this address, if it was closed since its peer isn't configured.
    fn tells_unknown(&self, address: Option<SocketAddr>) -> bool
    where
        R: Clock + Wait,
    {
        let Some(address) = address else {
            return false;
        };
        let Some(call) = self.connections.take_unknown(&self.rt, address) else {
            return false;
        };
        if let Some(name) = &call.name {
            let name = name.as_slice();
            self.note(Event::PeerUnknown { name, address });
        }
        true
    }

    // The line of an event waits for standard error.
    fn note(&self, event: Event<'_>)
    where
        R: Clock + Wait,
    {
        self.journal.note(&self.rt, event);
    }

    // Keeps the end of a peer's connection untold, where the peer reset it, until it is known
    // whether it comes back.
    fn holds(&self, peer: usize, gone: Gone<'_>) -> bool
    where
        R: Clock + Wait,
    {
        let (Some(address), Some(cause)) = (gone.sender, gone.cause) else {
            return false;
        };
        let found_by = match cause {
            Cause::Read => FoundBy::Read,
            Cause::Write => FoundBy::Write,
            _ => return false,
        };
        if !self.connections.was_reset(&self.rt, peer, address) {
            return false;
        }
        let reset = Reset {
            peer,
            address,
            updates: gone.updates,
            found_by,
            at: self.clock.moment(),
        };
        self.connections.resets.hold(&self.rt, reset)
    }

    // Tells of a connection that its peer reset.
    fn tell_reset(&self, reset: Reset, is_back: bool)
    where
        R: Clock + Wait,
    {
        let peer = self.name(reset.peer);
        self.note(Event::PeerReset {
            peer,
            reset,
            is_back,
        });
    }

    // Tells of the connections whose peers reset them and aren't back in time by a moment, in ms.
    fn tell_overdue(&self, now: u64)
    where
        R: Clock + Wait,
    {
        for _ in 0..u64::MAX {
            let Some(reset) = self.connections.resets.take_overdue(&self.rt, now) else {
                return;
            };
            self.tell_reset(reset, false);
        }
    }

    /// Tells of all connections that peers reset, whether these may come back or not: the collector
    /// ends.
    pub fn tell_last(&self)
    where
        R: Clock + Wait,
    {
        self.tell_overdue(u64::MAX);
    }

    // A peer's hello was accepted, of a session with this seat.
    fn came(&self, peer: usize, seat: Option<u64>)
    where
        R: Clock + Wait,
    {
        let address = self.connections.address_of(&self.rt, peer);
        self.board
            .come(&self.rt, peer, seat, address, self.clock.moment());
        if let Some(reset) = self.connections.resets.take_of(&self.rt, peer) {
            self.tell_reset(reset, true);
        }
        let peer = self.name(peer);
        self.note(Event::PeerConnected { peer, address });
    }

    // A peer's session defined a table: what comes of it is logged where that is new and isn't what
    // is configured. Where memory is lacking its columns aren't looked at.
    fn defined(&self, peer: usize, definition: &Definition)
    where
        R: Clock + Wait,
    {
        let name = definition.name.as_slice();
        let verdict = judge(self.config, definition);
        let lacks = match verdict {
            Verdict::Followed => self.followed(peer, definition),
            _ => Vec::new(self.alloc),
        };
        let Ok(kept) = Vec::from_slice(self.alloc, name) else {
            return;
        };
        let table = DefinedTable {
            name: kept,
            verdict,
            lacks,
        };
        if self.board.define(&self.rt, peer, table) && verdict.is_unknown() {
            let because = Because {
                config: self.config,
                name,
                verdict,
            };
            let peer = self.name(peer);
            self.note(Event::TableUnfollowed { peer, because });
        }
    }

    // A peer's session defined a table that is followed: the configured columns that it doesn't
    // bring. They are logged, and those that it has and that aren't kept, each once.
    fn followed(&self, peer: usize, definition: &Definition) -> Vec<Lacking>
    where
        R: Clock + Wait,
    {
        let tables = &self.config.tables;
        let Some(place) = tables.position(definition.name.as_slice()) else {
            return Vec::new(self.alloc);
        };
        let Some(shape) = tables.get(place) else {
            return Vec::new(self.alloc);
        };
        let Ok(lacks) = lacks_of(self.alloc, shape, definition) else {
            return Vec::new(self.alloc);
        };
        let table = shape.name.as_slice();
        for lacking in lacks.as_slice() {
            let (lacking, mention) = (*lacking, Mention::Lacks(place, *lacking));
            if self.board.is_news(&self.rt, peer, mention) {
                let peer = self.name(peer);
                self.note(Event::ColumnUnfollowed {
                    peer,
                    table,
                    lacking,
                });
            }
        }
        let types = types_not_kept(shape, definition);
        if types != 0 && self.board.is_news(&self.rt, peer, Mention::NotKept(place)) {
            let peer = self.name(peer);
            self.note(Event::ColumnsNotKept { peer, table, types });
        }
        lacks
    }

    // Tells of the connection of a peer that is over.
    fn peer_gone(&self, place: usize, gone: Gone<'_>)
    where
        R: Clock + Wait,
    {
        let address = gone.sender;
        let updates = gone.updates;
        let peer = self.name(place);
        if self.was_replaced(address) {
            self.note(Event::PeerReplaced {
                peer,
                address,
                updates,
            });
            return;
        }
        if self.holds(place, gone) {
            return;
        }
        // made anew, to live as long as the name of a peer
        let cause = match gone.cause {
            None => None,
            Some(cause) => Some(cause),
        };
        self.note(Event::PeerGone {
            peer,
            address,
            updates,
            cause,
        });
    }

    // Tells of a connection that is over, and of which no hello was accepted.
    fn stranger_gone(&self, gone: Gone<'_>)
    where
        R: Clock + Wait,
    {
        let address = gone.sender;
        if self.tells_unknown(address) {
            return;
        }
        // made anew, to live as long as the collector's name
        let cause = match gone.cause {
            None => None,
            Some(cause) => Some(cause),
        };
        let name = match gone.name {
            None => None,
            Some(name) => Some(name),
        };
        let called = match gone.called {
            None => None,
            Some(called) => Some(called),
        };
        self.note(Event::StrangerGone {
            name,
            called,
            me: self.config.me.as_slice(),
            address,
            cause,
        });
    }

    // Tells of the connection of a session that is over, which had this seat.
    fn gone(&self, seat: Option<u64>, gone: Gone<'_>)
    where
        R: Clock + Wait,
    {
        match gone.peer {
            None => {
                self.board.refuse(1);
                self.stranger_gone(gone);
            }
            Some(peer) => {
                self.board.go(&self.rt, peer, seat, self.clock.moment());
                self.peer_gone(peer, gone);
            }
        }
    }
}

impl<'a, R: Clock + Wait + Usage> Gate for Notes<'a, R> {
    // The timer comes every 100 ms, and tells what was counted.
    fn turn(&self, place: Place) {
        if place != Place::Timer {
            return;
        }
        let now = self.clock.moment();
        self.board.tick(&self.rt, now);
        self.tell_overdue(now);
        if let Some(Unasked { count, last }) = self.connections.unasked(&self.rt) {
            self.board.refuse(count);
            self.note(Event::PeersUnasked { count, last });
        }
    }

    fn stop(&self) -> bool {
        self.connections.are_closed()
    }

    fn tell(&self, place: Place, news: News<'_>) {
        match news {
            News::Came(peer) => self.came(peer, seat_at(place)),
            News::Posted(peer, updates) => self.board.post(peer, updates, self.clock.moment()),
            News::Defined(peer, definition) => self.defined(peer, definition),
            News::Taught(peer, table, taught) => {
                self.board
                    .teach(&self.rt, peer, seat_at(place), table, taught);
            }
            News::Learned(peer, table, keys) => {
                self.board.hear(&self.rt, peer, seat_at(place), table, keys);
            }
            News::Told(peer, table, keys) => self.board.tell(peer, seat_at(place), table, keys),
            News::Changed(address, command) => {
                self.note(Event::AdminChanged { address, command });
            }
            News::Gone(gone) => self.gone(seat_at(place), gone),
            News::Ticked => self.board.post_moment(self.clock.moment()),
            News::Sat => self.board.sit(),
            News::Left => self.board.leave(),
            News::TurnedAway(address) => {
                self.board.refuse(1);
                match place {
                    Place::Admin => self.note(Event::AdminTurnedAway { address }),
                    _ => self.note(Event::PeerTurnedAway { address }),
                }
            }
        }
    }

    fn told_all(&self, place: Place, peer: usize) {
        self.board
            .tell_all(peer, seat_at(place), self.clock.moment());
    }

    fn status(&self, book: &Book, status: Status, out: &mut Vec<u8>) -> Result<(), NoMemory> {
        let rt = &self.rt;
        let now = self.clock.moment();
        match status {
            Status::Help => {
                out.extend_from_slice(HELP)?;
                Ok(())
            }
            Status::Info => {
                let counters = Counters {
                    board: self.board,
                    connections: self.connections,
                    book,
                    uptime: now,
                };
                append_info(rt, self.alloc, counters, out)
            }
            Status::Peers => append_peers(rt, self.alloc, self.board, now, book, out),
            Status::Tables(peer) => {
                append_tables(rt, self.alloc, self.board, self.config, peer, out)
            }
        }
    }
}
