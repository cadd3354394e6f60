//! A stream of messages that comes in pieces.

ghost use Rattle.std.specs.Prelude.{◌≡◌, ◌≢◌, ◌+◌, ◌++◌, ◌<◌, ◌≤◌, ℕ, List, [], length, take};
ghost use Rattle.std.specs.Prelude.{Some, Err};
ghost use Rattle.std.specs.Prelude.{IsSome, IfOk, IfErr, IsOkAnd};
ghost use Rattle.agg_types.specs.declared.limits.TheConstants.{LONGEST_PAYLOAD};

use crate::decoding::decode;
use crate::framing::{Head, head_of};
use crate::given::{Given, Parts};
use crate::room::Room;
use crate::{Message, WireCause, WireFault};
use agg_types::{Items, NoMemory};
use bytes::BytesMut;
use std::alloc::Global;
use std::marker::Model;
use std::mem;

/// The reader of a stream of messages that comes in pieces, cut anywhere.
///
/// Between two pieces it keeps the bytes that are no whole message yet, or the fault that ended the
/// stream. Contracts see these two.
#[derive(Debug, Drop)]
pub struct Feed {
    /// The kept bytes.
    kept: BytesMut,
    fault: Option<WireCause>,
    /// Room for the next piece; nothing that contracts see.
    room: Room,
    alloc: Global,
}

impl Model for Feed {
    ghost use Rattle.peers_msg.specs.DecoderState.{DecoderState, IsKept};

    ghost Value = { DecoderState };

    ghost view = { λ feed. record {
      rest = feed.kept.items;
      fault = feed.fault;
    } };

    ghost invariant = { λ feed. IsKept feed.kept.items feed.fault };
}

impl Feed {
    ghost use Rattle.peers_msg.specs.Kinds.{longest_head};
    ghost use Rattle.peers_msg.specs.Message.{reading_of};
    ghost use Rattle.peers_msg.specs.Feed.{feed_of, fed, decoder_of, kept_after, Answers, GoesOn};
    ghost use Rattle.peers_msg.specs.Feed.{HasRead};

    /// A feed that has taken no byte. Takes no memory.
    pub fn new(alloc: Global) -> Feed
        ensures { result ≡ feed_of [] }
    {
        Feed {
            kept: BytesMut::new(alloc),
            fault: None,
            room: Room::new(alloc),
            alloc,
        }
    }

    /// Takes the next piece of the stream, and gives the messages that are whole now, in order.
    ///
    /// A fault comes with the messages before it, and is answered for good from then on, with none
    /// before it. `NoMemory` leaves the feed as it was: the same piece may be fed again.
    pub fn feed(&mut self, piece: &[u8]) -> Result<Items<Message>, WireFault>
        // What the piece gives, from what is kept.
        ensures answer { Answers result (fed self.old piece.now) }
        ensures after { self.new ≡ kept_after result self.old (fed self.old piece.now) }

        // For all the bytes that the feed has taken: this hands out what their reading has with the
        // piece beyond what it had without.
        ensures so_far { (taken : List ℕ) → self.old ≡ feed_of taken
            → GoesOn result (reading_of taken) (reading_of (taken ++ piece.now)) }
        ensures stands { (taken : List ℕ) → self.old ≡ feed_of taken
            → self.new ≡ kept_after result (feed_of taken) (reading_of (taken ++ piece.now)) }

        // Once faulted, every later call answers the same cause; `NoMemory` never stays.
        ensures ended { IfErr result (λ fault. fault.cause ≢ WireCause.NoMemory
            → self.new.fault ≡ Some fault.cause) }
        ensures for_good { (cause : WireCause) → self.old.fault ≡ Some cause
            → (cause ≢ WireCause.NoMemory) × (self.new ≡ self.old)
            × (result ≡ Err (record { cause = cause; before = [] })) }

        // Less than one message is kept.
        ensures bounded { length self.new.rest < longest_head + LONGEST_PAYLOAD }
    {
        // A hint to the prover: reading a field brings what every feed keeps of itself into scope,
        // before and after the call.
        let _ = &self.kept;
        let handed_out = self.take_piece(piece);
        let _ = &self.kept;
        handed_out
    }

    /// Reads the next piece, for a caller that can still fail before it has dealt with what it
    /// says.
    ///
    /// `Some` is what the piece gives, with the feed as it was: `commit` takes the piece, and the
    /// piece may be read again where nothing was committed. `None` where there is no message and no
    /// fault: then the piece is taken. `NoMemory` leaves the feed as it was.
    pub fn read(&mut self, piece: &[u8]) -> Result<Option<Given>, NoMemory>
        ensures reading { HasRead result self.old self.new (fed self.old piece.now) }
        ensures faulty { IsSome self.old.fault → IsOkAnd result IsSome }
    {
        if let Some(cause) = self.fault {
            let none = Items::from_vec(Vec::new(self.alloc));
            let bytes = BytesMut::new(self.alloc);
            return Ok(Some(Given::faulty(self.alloc, bytes, none, cause)));
        }
        let len = self.kept.len();
        self.kept.extend_from_slice(piece)?;
        if let Head::Short = head_of(self.kept.as_slice()) {
            return Ok(None);
        }
        let all = take_out(&mut self.kept, len, self.room.take_front())?;
        let entries = self.room.take_entries();
        let rest = self.room.take_rest();
        Ok(Some(decode(self.alloc, all, entries, rest)?))
    }

    /// Takes what was read. Takes no memory.
    pub fn commit(&mut self, given: Given)
        ensures after { self.new ≡ decoder_of given }
    {
        let Parts {
            fault,
            rest,
            bytes,
            entries,
        } = given.into_parts();
        let front = mem::replace(&mut self.kept, rest);
        self.fault = fault;
        self.room.put_back(front, bytes, entries);
    }

    /// Reads a piece and takes it.
    fn take_piece(&mut self, piece: &[u8]) -> Result<Items<Message>, WireFault>
        ensures answer { Answers result (fed self.old piece.now) }
        ensures after { self.new ≡ kept_after result self.old (fed self.old piece.now) }
        ensures faulty { (cause : WireCause) → self.old.fault ≡ Some cause
            → result ≡ Err (record { cause = cause; before = [] }) }
    {
        let none = Items::from_vec(Vec::new(self.alloc));
        if let Some(cause) = self.fault {
            return Err(WireFault {
                cause,
                before: none,
            });
        }
        match self.read(piece) {
            Ok(Some(given)) => self.hand_out(given),
            Ok(None) => Ok(none),
            Err(NoMemory) => Err(WireFault {
                cause: WireCause::NoMemory,
                before: none,
            }),
        }
    }

    fn hand_out(&mut self, given: Given) -> Result<Items<Message>, WireFault>
        ensures answer { Answers result given }
        ensures after { self.new ≡ kept_after result self.old given }
    {
        let fault = given.fault();
        let messages = match given.to_messages(self.alloc) {
            Ok(messages) => messages,
            Err(NoMemory) => {
                return Err(WireFault {
                    cause: WireCause::NoMemory,
                    before: Items::from_vec(Vec::new(self.alloc)),
                });
            }
        };
        self.commit(given);
        match fault {
            None => Ok(messages),
            Some(cause) => Err(WireFault {
                cause,
                before: messages,
            }),
        }
    }
}

/// Takes all bytes out, and leaves the first `len` in another block, after `NoMemory` in this one.
fn take_out(kept: &mut BytesMut, len: usize, room: BytesMut) -> Result<BytesMut, NoMemory>
    requires front { len ≤ length kept.old.items }
    requires none { room.items ≡ [] }
    ensures all { IfOk result (λ all. all.items ≡ kept.old.items) }
    ensures left { kept.new.items ≡ take len kept.old.items }
{
    let mut front = room;
    match front.extend_from_slice(&kept.as_slice()[..len]) {
        Ok(()) => Ok(mem::replace(kept, front)),
        Err(_) => {
            kept.truncate(len);
            Err(NoMemory)
        }
    }
}
