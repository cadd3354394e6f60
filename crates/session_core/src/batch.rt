//! What a piece of the stream gives.

ghost use Rattle.std.specs.Prelude.{◌≡◌, ◌++◌, ◌==◌, ◌&&◌, [], length, take, drop, vec_len, ◌≤◌};
ghost use Rattle.std.specs.Prelude.{◌<◌, ◌^◌};
ghost use Rattle.session_core.specs.Asking.{asks_all};
ghost use Rattle.session_core.specs.Piece.{nothing};

use crate::SessionCause;
use agg_types::Whats;
use peers_msg::kinds::{CONTROL_CLASS, RESYNC_PARTIAL};
use std::alloc::Global;
use std::marker::Model;
use std::mem;
use thiserror::Error;

/// What a piece gives: facts for the fleet, replies, and acknowledgements, which are sent after the
/// replies.
#[derive(Debug, Drop)]
pub struct Batch {
    facts: Whats,
    /// The replies, and behind them the acknowledgements.
    out: Vec<u8>,
    /// How many bytes of these are replies.
    split: usize,
}

impl Model for Batch {
    ghost use Rattle.std.specs.Prelude.{◌≤◌, length, take, drop};
    ghost use Rattle.session_core.specs.Batched.{Batched};

    ghost Value = { Batched };

    ghost view = { λ batch. record {
      facts = batch.facts;
      replies = take batch.split batch.out.items;
      acks = drop batch.split batch.out.items;
    } };

    ghost invariant = { λ batch. batch.split ≤ length batch.out.items };
}

impl Batch {
    /// A batch of these facts and bytes, of which so many are replies.
    pub(crate) fn new(facts: Whats, out: Vec<u8>, split: usize) -> Batch
        requires { split ≤ length out.items }
        ensures { result ≡ record {
          facts = facts;
          replies = take split out.items;
          acks = drop split out.items;
        } }
    {
        Batch { facts, out, split }
    }

    /// A batch of nothing. Takes no memory.
    pub(crate) fn empty(alloc: Global) -> Batch
        ensures { result ≡ nothing }
    {
        Batch::new(Whats::new(alloc), Vec::new(alloc), 0)
    }

    /// Where there are no facts, leaves their room for other facts.
    pub(crate) fn leave_room(&mut self, spare: &mut Whats)
        requires { spare.old ≡ [] }
        ensures same { self.new ≡ self.old }
        ensures spare { spare.new ≡ [] }
    {
        if self.facts.is_empty() {
            mem::swap(&mut self.facts, spare);
        }
    }

    /// What happens at the session's seat, in order.
    pub fn facts(&self) -> &Whats
        ensures { result.now ≡ self.now.facts }
    {
        &self.facts
    }

    /// The bytes that answer, which are sent before the acknowledgements.
    pub fn replies(&self) -> &[u8]
        ensures { result.now ≡ self.now.replies }
    {
        &self.out[..self.split]
    }

    /// The acknowledgements.
    pub fn acks(&self) -> &[u8]
        ensures { result.now ≡ self.now.acks }
    {
        &self.out[self.split..]
    }

    /// Whether nothing is sent.
    pub fn is_silent(&self) -> bool
        ensures { result ≡ (length (self.now.replies ++ self.now.acks) == 0) }
    {
        self.out.is_empty()
    }

    /// Whether a resync request was read: `partial` stands among the replies, behind an even number
    /// of bytes, as each reply has one. Takes no memory.
    pub fn asks_all(&self) -> bool
        ensures { result ≡ asks_all self.now.replies }
    {
        has_partial(self.replies())
    }

    /// The facts, and the bytes to send: the replies, then the acknowledgements. Takes no memory.
    pub fn into_parts(self) -> (Whats, Vec<u8>)
        ensures facts { result.0 ≡ self.facts }
        ensures short { length result.0 < 2 ^ 63 }
        ensures out { result.1.items ≡ self.replies ++ self.acks }
    {
        let Batch { facts, out, .. } = self;
        let _fewer = facts.len();
        (facts, out)
    }
}

// Whether `partial` stands among replies.
#[tactic(auto, unfolding(crate::specs::Asking::asks_all))]
fn has_partial(replies: &[u8]) -> bool
    ensures { result ≡ asks_all replies.now }
{
    let mut left = replies;
    'pairs: while let [class, kind, rest @ ..] = left {
        if *class == CONTROL_CLASS && *kind == RESYNC_PARTIAL {
            return true;
        }
        left = rest;
    }
    false
}

/// Why a session ends, and what its last piece gave before that.
#[derive(Debug, Drop, Error)]
#[error("{cause}")]
pub struct SessionFault {
    /// Why.
    pub cause: SessionCause,
    /// What the piece gave up to the fault, with the fault's own answer. Empty after `NoMemory`,
    /// and where the session had ended before.
    pub batch: Batch,
}
