//! Lines that come in floods: which are told, and what is told in place of the others.

use crate::alarms::Alarm;
use crate::heading::{Head, Heading};
use crate::log::Event;
use logged_keys::Value;
use std::alloc::Global;
use std::net::{IpAddr, Ipv6Addr, SocketAddr};
use std::{fmt, str};
use throttle::{Counted, Throttle};

/// The events that strangers or one peer can repeat, by what their lines begin with.
const REPEATED: [&str; 11] = [
    "warn connection ended",
    "info connection closed without a hello",
    "info peer connected",
    "info peer disconnected",
    "info peer ended",
    "warn peer ended",
    "info peer replaced",
    "warn table not followed",
    "warn column not followed",
    "info columns not kept",
    "warn http at the admin address",
];

/// How many lines of one kind of event were left out.
#[derive(Drop)]
pub(crate) struct LeftOut {
    // what its lines begin with
    words: &'static str,
    counted: Counted,
}

impl LeftOut {
    /// How many lines these are.
    pub fn count(&self) -> u64 {
        self.counted.count
    }

    // What they are about, as their lines say it.
    fn source(&self) -> &str {
        match &self.counted.source {
            None => "",
            Some(source) => str::from_utf8(source.as_slice()).unwrap_or(""),
        }
    }
}

/// The line in place of those that were left out, at a time, in seconds since 1970, without its LF.
#[derive(Clone, Copy)]
pub(crate) struct CountLine<'a> {
    pub heading: Heading,
    pub seconds: u64,
    pub left_out: &'a LeftOut,
}

impl<'a> fmt::Display for CountLine<'a> {
    fn fmt<W: fmt::Write>(&self, f: &mut fmt::Formatter<W>) -> fmt::Result {
        let left_out = self.left_out;
        let head = Head {
            heading: self.heading,
            seconds: self.seconds,
            words: left_out.words,
        };
        write!(f, "{head}{} count={}", left_out.source(), left_out.count())
    }
}

/// What is remembered of the lines that come in floods.
#[derive(Drop)]
pub(crate) struct Floods {
    alloc: Global,
    throttles: [Throttle; 11],
}

impl Floods {
    /// No line came yet. Takes no memory.
    pub fn new(alloc: Global) -> Floods {
        Floods {
            alloc,
            throttles: [
                Throttle::new(alloc),
                Throttle::new(alloc),
                Throttle::new(alloc),
                Throttle::new(alloc),
                Throttle::new(alloc),
                Throttle::new(alloc),
                Throttle::new(alloc),
                Throttle::new(alloc),
                Throttle::new(alloc),
                Throttle::new(alloc),
                Throttle::new(alloc),
            ],
        }
    }

    /// Whether the line of an event at a moment, in ms, is to be told. It is counted else.
    pub fn may_tell(&mut self, now: u64, event: Event<'_>) -> bool {
        let words = event.words();
        let Some(kind) = REPEATED.iter().position(|repeated| *repeated == words) else {
            return true;
        };
        let Some(throttle) = self.throttles.get_mut(kind) else {
            return true;
        };
        let source = Source(event);
        match format!(in self.alloc; "{source}") {
            Ok(source) => throttle.offer(now, source.as_bytes()),
            Err(_fault) => {
                throttle.leave_out(now);
                false
            }
        }
    }

    /// Takes a count that is to be told by now, in ms, if there is one.
    pub fn take_due(&mut self, now: u64) -> Option<LeftOut> {
        for kind in 0..REPEATED.len() {
            let throttle = self.throttles.get_mut(kind)?;
            if let Some(counted) = throttle.take_due(now) {
                let words = *REPEATED.get(kind)?;
                return Some(LeftOut { words, counted });
            }
        }
        None
    }
}

// What an event is about, as its line says it: a peer, or an address without its port. Nothing
// where its address isn't known.
#[derive(Clone, Copy)]
struct Source<'a>(Event<'a>);

impl<'a> fmt::Display for Source<'a> {
    fn fmt<W: fmt::Write>(&self, f: &mut fmt::Formatter<W>) -> fmt::Result {
        match self.0 {
            Event::PeerConnected { peer, .. }
            | Event::TableUnfollowed { peer, .. }
            | Event::ColumnUnfollowed { peer, .. }
            | Event::ColumnsNotKept { peer, .. }
            | Event::PeerGone { peer, .. }
            | Event::PeerReset { peer, .. }
            | Event::PeerReplaced { peer, .. } => write!(f, " peer={}", Value(peer)),
            Event::StrangerGone {
                address: Some(address),
                ..
            } => write!(f, " address={}", Network(address)),
            Event::Alarm(
                Alarm::HttpAtAdmin {
                    address: Some(address),
                },
            ) => write!(f, " address={}", Network(address)),
            _ => Ok(()),
        }
    }
}

// An address without its port; of an IPv6 one its first 64 bits. One that stands for an IPv4
// address is that.
#[derive(Clone, Copy)]
struct Network(SocketAddr);

impl fmt::Display for Network {
    fn fmt<W: fmt::Write>(&self, f: &mut fmt::Formatter<W>) -> fmt::Result {
        match self.0.ip().to_canonical() {
            IpAddr::V4(ip) => write!(f, "{ip}"),
            IpAddr::V6(ip) => {
                let [a, b, c, d, ..] = ip.segments();
                let network = Ipv6Addr::new(a, b, c, d, 0, 0, 0, 0);
                write!(f, "{network}/64")
            }
        }
    }
}
