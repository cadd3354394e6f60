//! Both listeners: the doors of a collector.

use crate::admins::Admins;
use crate::connections::Connections;
use crate::faults::{lacks, passes};
use crate::greeting::{Greeting, Hello, read_hello};
use crate::incoming::{Incoming, ROOM};
use crate::line_head::LineHead;
use crate::outgoing::Outgoing;
use crate::pace::{Answers, Pace, Times};
use crate::streams::Stream;
use crate::ticks::Ticks;
use crate::waiter::Waiter;
use agg_types::Config;
use bytes::BytesMut;
use command_line::{Network, UnknownPeers, admits};
use serve::{Caller, Door, Doors, Faulted, Served};
use std::alloc::Global;
use std::io;
use std::net::{SocketAddr, TcpListener};
use std::sync::{Arc, Wait};
use std::time::{Clock, Duration};

/// How long a read waits, and a write before it looks at the time, in ms.
const SOCKET_LIMIT: u64 = 500;

/// How long a read of a proxy that is told pushed tables waits, in ms: then its session looks
/// whether something is to be told.
const PUSHING_LIMIT: u64 = 50;

/// The time before an accept that failed is tried again, in ms.
const REST: u64 = 100;

/// The time before an accept is tried again for which a waiting connection was closed, in ms.
const SHORT_REST: u64 = 1;

/// A connection of either door.
type Visitor<'a, R> = Caller<Incoming<'a, R>, Outgoing<'a, R>>;

/// Both listeners: the doors of a collector.
#[derive(Drop)]
pub struct Sockets<'a, R> {
    pub alloc: Global,
    pub clock: &'a Ticks<R>,
    /// Where proxies connect, and from which networks they may: from all where there are none.
    pub peers: TcpListener,
    pub from: &'a [Network],
    /// What is done about peers that aren't configured.
    pub unknown_peers: UnknownPeers,
    pub admins: &'a Admins,
    pub connections: &'a Connections,
}

impl<'a, R: Clock + Wait> Sockets<'a, R> {
    // A connection with its limits. What is sent leaves at once.
    fn caller(
        &self,
        stream: Arc<Stream, Global>,
        sender: Option<SocketAddr>,
        waiter: Option<Waiter<'a, R>>,
        answers: Option<Answers<'a>>,
    ) -> io::Result<Visitor<'a, R>> {
        stream.send_at_once()?;
        stream.set_write_timeout(Duration::from_millis(SOCKET_LIMIT))?;
        let limit = stream.set_read_timeout(Duration::from_millis(SOCKET_LIMIT));
        let writer = Outgoing {
            stream: Arc::try_clone(&stream)?,
            clock: self.clock,
            connections: self.connections,
            answers,
        };
        let id = match &waiter {
            None => 0,
            Some(waiter) => waiter.id,
        };
        let source = Incoming {
            waiter,
            stream,
            clock: self.clock,
            sender,
            id,
            peer: None,
            pace: None,
            head: LineHead::new(),
            held: BytesMut::new(self.alloc),
            is_over: false,
            reads: 0,
            failed: 0,
            is_limited: limit.is_ok(),
            is_fed: false,
        };
        Ok(Caller { source, writer })
    }

    // A peer's connection that came, which waits for its hello from now on. None where it comes
    // from elsewhere, where memory is lacking, or the connection is gone.
    fn waiting(&self, stream: Stream, sender: SocketAddr) -> Option<Visitor<'a, R>> {
        let rt = &self.clock.rt;
        if !admits(self.from, sender.ip()) {
            self.connections.turn_away(rt, sender);
            return None;
        }
        let stream = Arc::new(self.alloc, stream).ok()?;
        let id = self.connections.come(rt, &stream)?;
        let waiter = Waiter {
            clock: self.clock,
            connections: self.connections,
            id,
        };
        self.caller(stream, Some(sender), Some(waiter), None).ok()
    }

    // An operator's connection that came. None where memory is lacking, or it is gone.
    fn operator(&self, stream: Stream, sender: Option<SocketAddr>) -> Option<Visitor<'a, R>> {
        let stream = Arc::new(self.alloc, stream).ok()?;
        let times = Arc::new(self.alloc, Times::new()).ok()?;
        let mine = Arc::try_clone(&times).ok()?;
        let answers = Answers {
            admins: self.admins,
            times,
        };
        let caller = self.caller(stream, sender, None, Some(answers));
        let Caller { mut source, writer } = caller.ok()?;
        source.held.reserve(ROOM).ok()?;
        source.pace = Some(Pace::new(self.clock, self.admins, self.connections, mine));
        Some(Caller { source, writer })
    }

    // What to do about an accept that failed: whether it is tried again. Where a connection waits
    // whose end helps, that one is closed.
    fn tries_again(&self, fault: &io::Error) -> bool {
        if !passes(fault) {
            return false;
        }
        let rt = &self.clock.rt;
        let rest = if lacks(fault) && self.connections.make_room(rt) {
            SHORT_REST
        } else {
            REST
        };
        rt.sleep(Duration::from_millis(rest));
        true
    }
}

impl<'a, R: Clock + Wait> Doors<Incoming<'a, R>, Outgoing<'a, R>> for Sockets<'a, R> {
    ghost use Rattle.std.specs.Prelude.{None};

    ghost unread = { None };

    ghost blank = { None };

    // The next connection. None after a fault that won't pass: then all is over.
    fn peer(&self) -> Option<Visitor<'a, R>> {
        for _ in 0..u64::MAX {
            match self.peers.accept() {
                Ok((stream, sender)) => {
                    if let Some(caller) = self.waiting(Stream::tcp(stream), sender) {
                        return Some(caller);
                    }
                }
                Err(fault) if self.tries_again(&fault) => {}
                Err(fault) => {
                    self.connections.close(&self.clock.rt, fault);
                    return None;
                }
            }
        }
        None
    }

    fn admin(&self) -> Option<Visitor<'a, R>> {
        for _ in 0..u64::MAX {
            let (stream, sender) = self.admins.next(&self.clock.rt, self.connections)?;
            if let Some(caller) = self.operator(stream, sender) {
                return Some(caller);
            }
        }
        None
    }

    fn door(&self, source: &Incoming<'a, R>) -> Door {
        source.stream.door()
    }

    fn greet(&self, config: &Config, source: &mut Incoming<'a, R>) -> bool {
        let rt = &self.clock.rt;
        let Greeting { bytes, hello } = read_hello(rt, self.alloc, config, &source.stream);
        source.waiter = None;
        let limit = if config.pushes.is_empty() {
            Duration::from_millis(SOCKET_LIMIT)
        } else {
            Duration::from_millis(PUSHING_LIMIT)
        };
        source.is_limited = source.stream.set_read_timeout(limit).is_ok();
        if hello == Hello::Unknown && self.unknown_peers == UnknownPeers::Wait {
            if let Some(sender) = source.sender {
                let hello = bytes.as_slice();
                self.connections.turn_away_unknown(rt, hello, sender);
            }
            source.begin_with(BytesMut::new(self.alloc), Hello::Late);
            return false;
        }
        source.begin_with(bytes, hello);
        matches!(hello, Hello::Of(_))
    }

    fn keeps_clock(&self) -> bool {
        true
    }

    fn seated(&self, source: &Incoming<'a, R>) {
        let (Some(peer), Some(sender)) = (source.peer, source.sender) else {
            return;
        };
        self.connections
            .sit(&self.clock.rt, peer, source.id, sender, &source.stream);
    }

    fn part_peer(
        &self,
        _config: &Config,
        source: Incoming<'a, R>,
        _writer: Outgoing<'a, R>,
        _ended: Result<Served, Faulted>,
    ) {
        if let Some(peer) = source.peer {
            self.connections.rise(&self.clock.rt, peer, source.id);
        }
    }
}
