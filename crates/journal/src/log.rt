//! The log: what an operator reads on standard error, a line an event.
//!
//! A line is the time in UTC to the second, a level, the event in words, and what it is about as
//! `key=value`; for journald the level's number stands in place of the time. A value that could be
//! taken for anything else is quoted, and its bytes outside printable ASCII are escaped, so that a
//! line break that a sender chose begins no line.

use crate::alarms::Alarm;
use crate::heading::{Head, Heading};
use agg_types::limits::LONGEST_NAME;
use command_line::VERSION;
use defined_tables::{Because, Columns, Lacking};
use hub::PostFault;
use logged_keys::{KeyLine, Value};
use serve::Cause;
use session_core::{SessionCause, Status};
use sockets::{FoundBy, Reset};
use std::fmt;
use std::net::SocketAddr;

/// What the system says of a connection that the other side reset.
const RESET: &str = " error=\"Connection reset by peer\"";

/// What happened.
#[derive(Clone, Copy)]
pub enum Event<'a> {
    /// Proxies and operators may come, at these addresses and by the socket of this path. Its line
    /// has the program's version too.
    Listening {
        peers: SocketAddr,
        admin: Option<SocketAddr>,
        admin_socket: Option<&'a [u8]>,
        http: Option<SocketAddr>,
    },
    /// A peer's hello was accepted.
    PeerConnected {
        peer: &'a [u8],
        address: Option<SocketAddr>,
    },
    /// A peer's session defined a table that isn't followed.
    TableUnfollowed {
        peer: &'a [u8],
        because: Because<'a>,
    },
    /// A peer's session defined a table that is followed without one of its configured columns.
    ColumnUnfollowed {
        peer: &'a [u8],
        table: &'a [u8],
        lacking: Lacking,
    },
    /// A table of a peer's session that is followed has columns that aren't kept: of these types of
    /// the peers protocol, a bit for each.
    ColumnsNotKept {
        peer: &'a [u8],
        table: &'a [u8],
        types: u64,
    },
    /// A table didn't take an update of a peer, which holds as many rows of it as its size. So many
    /// updates of the peer were dropped by now.
    TableFull {
        peer: &'a [u8],
        table: &'a [u8],
        size: u64,
        dropped: u64,
    },
    /// A peer's session taught more learned rows of a table than own ones, these updates of each,
    /// and another peer holds many of them with the same numbers, whose session does the same.
    RowsLearned {
        peer: &'a [u8],
        table: &'a [u8],
        learned: u64,
        own: u64,
        other: &'a [u8],
    },
    /// The connection of a peer is over, after so many updates.
    PeerGone {
        peer: &'a [u8],
        address: Option<SocketAddr>,
        updates: u64,
        cause: Option<&'a Cause>,
    },
    /// A peer reset its connection, as a read or a write found, and came back soon or didn't.
    PeerReset {
        peer: &'a [u8],
        reset: Reset,
        is_back: bool,
    },
    /// The connection of a peer ended as a newer one of it sat down.
    PeerReplaced {
        peer: &'a [u8],
        address: Option<SocketAddr>,
        updates: u64,
    },
    /// A connection is over of which no hello was accepted. Its sender chose the name, and that by
    /// which it called the collector, whose own name is the last one.
    StrangerGone {
        name: Option<&'a [u8]>,
        called: Option<&'a [u8]>,
        me: &'a [u8],
        address: Option<SocketAddr>,
        cause: Option<&'a Cause>,
    },
    /// A connection was closed since the peer of its hello isn't configured.
    PeerUnknown {
        name: &'a [u8],
        address: SocketAddr,
    },
    /// A peer's connection was closed before it was served: no thread, no seat, or out of memory.
    PeerTurnedAway {
        address: Option<SocketAddr>,
    },
    /// Connections of peers were closed at once: they came from an address that isn't asked for.
    PeersUnasked {
        count: u64,
        last: Option<SocketAddr>,
    },
    /// Lines of the log were lost: standard error took none for long, or memory was lacking.
    LinesLost {
        count: u64,
    },
    /// A command of an operator changed something. Its sender chose the bytes.
    AdminChanged {
        address: Option<SocketAddr>,
        command: &'a [u8],
    },
    /// An operator's connection was closed before it was served: no seat, or out of memory.
    AdminTurnedAway {
        address: Option<SocketAddr>,
    },
    /// The collector is stuck and ends, or an operator's connection was HTTP's.
    Alarm(Alarm),
    /// A key came into a logged filter's set or left it, or some did and aren't told.
    Key(KeyLine<'a>),
}

impl<'a> Event<'a> {
    /// How much an operator has to care, and what happened.
    pub(crate) fn words(&self) -> &'static str {
        match self {
            Event::Listening { .. } => "info listening",
            Event::PeerConnected { .. } => "info peer connected",
            Event::TableUnfollowed { .. } => "warn table not followed",
            Event::ColumnUnfollowed { .. } => "warn column not followed",
            Event::ColumnsNotKept { .. } => "info columns not kept",
            Event::TableFull { .. } => "warn table full",
            Event::RowsLearned { .. } => "warn rows learned from others",
            Event::PeerGone { cause: None, .. } => "info peer disconnected",
            Event::PeerGone { .. } => "warn peer ended",
            Event::PeerReset { is_back: true, .. } => "info peer ended",
            Event::PeerReset { .. } => "warn peer ended",
            Event::PeerReplaced { .. } => "info peer replaced",
            Event::StrangerGone { cause: None, .. } => "info connection closed without a hello",
            Event::StrangerGone { .. } => "warn connection ended",
            Event::PeerUnknown { .. } => "warn unknown peer closed",
            Event::PeerTurnedAway { .. } => "error connection turned away",
            Event::PeersUnasked { .. } => "warn connections from elsewhere closed",
            Event::LinesLost { .. } => "warn log lines lost",
            Event::AdminChanged { .. } => "info admin changed",
            Event::AdminTurnedAway { .. } => "warn admin turned away",
            Event::Alarm(alarm) => alarm.words(),
            Event::Key(line) => line.words(),
        }
    }
}

/// The line of an event at a time, in seconds since 1970, without its LF.
#[derive(Clone, Copy)]
pub(crate) struct Line<'a> {
    pub heading: Heading,
    pub seconds: u64,
    pub event: Event<'a>,
}

impl<'a> fmt::Display for Line<'a> {
    fn fmt<W: fmt::Write>(&self, f: &mut fmt::Formatter<W>) -> fmt::Result {
        let head = Head {
            heading: self.heading,
            seconds: self.seconds,
            words: self.event.words(),
        };
        write!(f, "{head}")?;
        match self.event {
            Event::Listening {
                peers,
                admin,
                admin_socket,
                http,
            } => {
                let (admin, http) = (Door(" admin=", admin), Door(" http=", http));
                let socket = Socket(admin_socket);
                write!(f, " version={VERSION} peers={peers}{admin}{socket}{http}")
            }
            Event::PeerConnected { peer, address } => {
                write!(f, " peer={}{}", Value(peer), From(address))
            }
            Event::TableUnfollowed { peer, because } => {
                let (peer, table) = (Value(peer), Value(because.name));
                write!(f, " peer={peer} table={table} reason=\"{because}\"")
            }
            Event::ColumnUnfollowed {
                peer,
                table,
                lacking,
            } => {
                let (peer, table) = (Value(peer), Value(table));
                write!(f, " peer={peer} table={table} reason=\"{lacking}\"")
            }
            Event::ColumnsNotKept { peer, table, types } => {
                let (peer, table) = (Value(peer), Value(table));
                write!(f, " peer={peer} table={table} columns={}", Columns(types))
            }
            Event::TableFull {
                peer,
                table,
                size,
                dropped,
            } => {
                let (peer, table) = (Value(peer), Value(table));
                write!(
                    f,
                    " peer={peer} table={table} size={size} dropped={dropped}"
                )
            }
            Event::RowsLearned {
                peer,
                table,
                learned,
                own,
                other,
            } => {
                let (peer, table, other) = (Value(peer), Value(table), Value(other));
                write!(f, " peer={peer} table={table} learned={learned}")?;
                write!(f, " own={own} other={other}")
            }
            Event::PeerGone {
                peer,
                address,
                updates,
                cause,
            } => {
                let from = From(address);
                let why = Why(cause);
                write!(f, " peer={}{from} updates={updates}{why}", Value(peer))
            }
            Event::PeerReset { peer, reset, .. } => {
                let peer = Value(peer);
                let (address, updates) = (reset.address, reset.updates);
                let cause = match reset.found_by {
                    FoundBy::Read => Cause::Read,
                    FoundBy::Write => Cause::Write,
                };
                let why = Why(Some(&cause));
                write!(
                    f,
                    " peer={peer} address={address} updates={updates}{why}{RESET}"
                )
            }
            Event::PeerReplaced {
                peer,
                address,
                updates,
            } => write!(
                f,
                " peer={}{} updates={updates}",
                Value(peer),
                From(address)
            ),
            Event::StrangerGone {
                name,
                called,
                me,
                address,
                cause,
            } => {
                write!(f, "{}{}{}", Named(name), From(address), Why(cause))?;
                match (refusal(cause), name, called) {
                    (Some(Status::RemoteName), Some(name), _) => {
                        let name = First(name);
                        write!(f, " reason=\"no peer {name} is configured\"")
                    }
                    (Some(Status::LocalName), _, Some(called)) => {
                        let (called, me) = (First(called), First(me));
                        write!(f, " reason=\"called {called}, not {me}\"")
                    }
                    _ => Ok(()),
                }
            }
            Event::PeerUnknown { name, address } => {
                write!(f, " name={} address={address}", Value(name))
            }
            Event::PeerTurnedAway { address } => {
                write!(
                    f,
                    "{} reason=\"no thread, no seat, or out of memory\"",
                    From(address)
                )
            }
            Event::PeersUnasked { count, last } => write!(f, " count={count}{}", From(last)),
            Event::LinesLost { count } => write!(f, " count={count}"),
            Event::AdminChanged { address, command } => {
                write!(f, "{} command={}", From(address), Value(command))
            }
            Event::AdminTurnedAway { address } => {
                write!(f, "{} reason=\"no seat, or out of memory\"", From(address))
            }
            Event::Alarm(alarm) => write!(f, "{alarm}"),
            Event::Key(line) => write!(f, "{line}"),
        }
    }
}

// The name that a hello gave, if it was read so far.
#[derive(Clone, Copy)]
struct Named<'a>(Option<&'a [u8]>);

impl<'a> fmt::Display for Named<'a> {
    fn fmt<W: fmt::Write>(&self, f: &mut fmt::Formatter<W>) -> fmt::Result {
        match self.0 {
            None => Ok(()),
            Some(name) => write!(f, " name={}", Value(name)),
        }
    }
}

// With which status a hello was refused, if it was.
fn refusal(cause: Option<&Cause>) -> Option<Status> {
    match cause {
        Some(Cause::Session(SessionCause::Refused(status))) => Some(*status),
        _ => None,
    }
}

// The first bytes of a name that a hello gave, escaped.
#[derive(Clone, Copy)]
struct First<'a>(&'a [u8]);

impl<'a> fmt::Display for First<'a> {
    fn fmt<W: fmt::Write>(&self, f: &mut fmt::Formatter<W>) -> fmt::Result {
        let first = self.0.get(..LONGEST_NAME).unwrap_or(self.0);
        write!(f, "{}", first.escape_ascii())
    }
}

// Where it is listened, if at an address.
#[derive(Clone, Copy)]
struct Door<'a>(&'a str, Option<SocketAddr>);

impl<'a> fmt::Display for Door<'a> {
    fn fmt<W: fmt::Write>(&self, f: &mut fmt::Formatter<W>) -> fmt::Result {
        match self.1 {
            None => Ok(()),
            Some(address) => write!(f, "{}{address}", self.0),
        }
    }
}

// The path of the socket of operators, if there is one.
#[derive(Clone, Copy)]
struct Socket<'a>(Option<&'a [u8]>);

impl<'a> fmt::Display for Socket<'a> {
    fn fmt<W: fmt::Write>(&self, f: &mut fmt::Formatter<W>) -> fmt::Result {
        match self.0 {
            None => Ok(()),
            Some(path) => write!(f, " admin_socket={}", Value(path)),
        }
    }
}

// Where a connection comes from.
#[derive(Clone, Copy)]
struct From(Option<SocketAddr>);

impl fmt::Display for From {
    fn fmt<W: fmt::Write>(&self, f: &mut fmt::Formatter<W>) -> fmt::Result {
        match self.0 {
            None => Ok(()),
            Some(address) => write!(f, " address={address}"),
        }
    }
}

// Why a connection ended, where it didn't end by itself.
#[derive(Clone, Copy)]
struct Why<'a>(Option<&'a Cause>);

impl<'a> fmt::Display for Why<'a> {
    fn fmt<W: fmt::Write>(&self, f: &mut fmt::Formatter<W>) -> fmt::Result {
        match self.0 {
            None => Ok(()),
            Some(Cause::Post(PostFault::NoMemory(_))) => write!(f, " cause=\"out of memory\""),
            Some(Cause::Post(_)) => write!(f, " cause=\"post refused\""),
            Some(cause) => write!(f, " cause=\"{cause}\""),
        }
    }
}
