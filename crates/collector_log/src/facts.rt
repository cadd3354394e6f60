//! What stands of a collector, for who answers over HTTP.

use crate::board::Board;
use agg_types::{Config, NoMemory};
use command_line::VERSION;
use journal::Journal;
use process_figures::Usage;
use sockets::{Connections, Ticks};
use std::alloc::Global;
use std::sync::Wait;
use std::time::Clock;
use web_door::Facts;
use web_text::{NotSent, PeerStanding, Standing};

/// How long the timer may take from one turn to the next, in ms, before the collector isn't well.
const PATIENCE: u64 = 5000;

/// What stands of a collector, for clerks.
#[derive(Drop)]
pub struct CollectorFacts<'a, R> {
    pub alloc: Global,
    pub config: &'a Config,
    pub clock: &'a Ticks<R>,
    pub board: &'a Board,
    pub connections: &'a Connections,
    pub journal: &'a Journal,
    /// From which commit the program was proved; nothing where that isn't known.
    pub commit: &'a str,
}

impl<'a, R: Clock + Wait> CollectorFacts<'a, R> {
    // What stands of each peer.
    fn peers(&self) -> Result<Vec<PeerStanding>, NoMemory> {
        let mut peers = Vec::new(self.alloc);
        for place in 0..self.config.peers.len() {
            let Some(peer) = self.board.peer(&self.clock.rt, place) else {
                break;
            };
            peers.push(peer)?;
        }
        Ok(peers)
    }

    // Which configured columns each peer doesn't send.
    fn not_sent(&self) -> Result<Vec<Vec<NotSent>>, NoMemory> {
        let mut peers = Vec::new(self.alloc);
        for place in 0..self.config.peers.len() {
            peers.push(self.board.not_sent(&self.clock.rt, place)?)?;
        }
        Ok(peers)
    }

    // How many keys of each pushed table each peer is told.
    fn told(&self) -> Result<Vec<Vec<u64>>, NoMemory> {
        let mut told = Vec::new(self.alloc);
        for peer in 0..self.config.peers.len() {
            let mut keys = Vec::new(self.alloc);
            for pushed in 0..self.config.pushes.len() {
                keys.push(self.board.told(peer, pushed))?;
            }
            told.push(keys)?;
        }
        Ok(told)
    }
}

impl<'a, R: Clock + Wait + Usage> Facts for CollectorFacts<'a, R> {
    fn now(&self) -> u64 {
        self.clock.moment()
    }

    fn is_well(&self) -> bool {
        match self.board.last_turn() {
            None => false,
            Some(turned) => self.clock.moment().saturating_sub(turned) < PATIENCE,
        }
    }

    fn has_ended(&self) -> bool {
        self.connections.are_closed()
    }

    fn standing(&self) -> Result<Standing, NoMemory> {
        let totals = self.board.totals(&self.clock.rt);
        Ok(Standing {
            version: VERSION,
            commit: String::from_str(self.alloc, self.commit)?,
            now: self.clock.moment(),
            connected: totals.connected,
            updates: totals.updates,
            posts: totals.posts,
            seats: totals.seats,
            waiting: self.connections.count_waiting(&self.clock.rt),
            refused: totals.refused,
            memory: self.clock.rt.resident(),
            processor: self.clock.rt.worked(),
            began: self.clock.rt.began(),
            descriptors: self.clock.rt.descriptors(),
            lost_lines: self.journal.lost_lines(&self.clock.rt),
            peers: self.peers()?,
            told: self.told()?,
            not_sent: self.not_sent()?,
            rates: self.board.rates(&self.clock.rt)?,
        })
    }
}
