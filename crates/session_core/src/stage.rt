//! Where a session stands, and what a piece does to it.

ghost use Rattle.std.specs.Prelude.{◌≡◌, ◌++◌, [], Some, IfOk, IsOkAnd, OnOk, OnErr};
ghost use Rattle.std.specs.Option.{option_map};
ghost use Rattle.peers_msg.specs.Feed.{fed};
ghost use Rattle.session_core.specs.Hello.{hello_of};
ghost use Rattle.session_core.specs.Run.{run};
ghost use Rattle.session_core.specs.Undo.{LeadBack, IsSaid};
ghost use Rattle.session_core.specs.Silence.{over_with, IsOverAs};
ghost use Rattle.session_core.specs.declared.cause.SessionCause.{SessionCause};
ghost use Rattle.session_core.specs.Piece.{with_stage, stage_at_end, end_reply, AreSettled};
ghost use Rattle.session_core.specs.Piece.{IsSettled, setup_of, status_text, end_text, first_end};
ghost use Rattle.session_core.specs.Piece.{piece_of, messages_outcome, with_front, hello_outcome};
ghost use Rattle.session_core.specs.Piece.{accepted_outcome, refused_outcome};

use crate::Status;
use crate::batch::Batch;
use crate::cause::End;
use crate::hello::hello_of;
use crate::run::{run, write_acks};
use crate::track::Track;
use crate::undo::Change;
use agg_types::{Config, Declared, NoMemory, Shape, What, Whats};
use bytes::Bytes;
use peers_msg::{Feed, Given, Message, WireCause, write_message};
use std::alloc::Global;

/// For how many facts at most room is taken before a piece's messages are read. Most pieces have
/// 16 KB, and an update has some 14 bytes at least, so that few have more; room for more is made as
/// they come. Messages of two bytes, of which a piece may have very many, are no facts.
const MOST_AT_ONCE: usize = 1024;

/// The messages of a peer whose hello was accepted.
#[derive(Debug, Drop)]
pub(crate) struct Dialogue {
    pub(crate) peer: usize,
    pub(crate) feed: Feed,
    pub(crate) track: Track,
}

/// Where a session stands.
#[derive(Debug, Drop)]
pub(crate) enum Stage {
    /// The bytes of a hello that isn't whole yet.
    Greeting(Bytes),
    Talking(Dialogue),
    /// Why the session is over, and its peer if the hello was accepted.
    Over(End, Option<usize>),
}

/// What a piece gives.
#[derive(Debug, Drop)]
pub(crate) struct Outcome {
    pub(crate) batch: Batch,
    pub(crate) end: Option<End>,
}

/// What a piece gives, and where the session stands after it.
#[derive(Debug, Drop)]
pub(crate) struct StageOutcome {
    pub(crate) stage: Stage,
    pub(crate) batch: Batch,
    pub(crate) end: Option<End>,
}

/// What a piece gives, from where the session stands; the facts are there for their room. After
/// `NoMemory` it stands where it did.
#[tactic(auto, unfolding(crate::specs::Piece::piece_of))]
pub(crate) fn take_piece(
    alloc: Global,
    config: &Config,
    seated: bool,
    stage: &mut Stage,
    facts: Whats,
    piece: &[u8],
) -> Result<Outcome, NoMemory>
    requires settled { IsSettled stage.old }
    requires none { facts ≡ [] }
    ensures ok { IfOk result (λ outcome. with_stage outcome stage.new
        ≡ piece_of (setup_of config.now) seated stage.old piece.now) }
    ensures err { OnErr result (stage.new ≡ stage.old) }
    ensures over { (cause : SessionCause) → over_with stage.old ≡ Some cause
        → IsOkAnd result (λ outcome. IsOverAs cause outcome.batch outcome.end) }
    ensures settled { IsSettled stage.new }
{
    match stage {
        Stage::Greeting(bytes) => {
            let bytes = joined(alloc, bytes.as_slice(), piece)?;
            let StageOutcome {
                stage: next,
                batch,
                end,
            } = greet(alloc, config, seated, bytes)?;
            *stage = next;
            Ok(Outcome { batch, end })
        }
        Stage::Talking(dialogue) => {
            let peer = dialogue.peer;
            let replies = Vec::new(alloc);
            let outcome = converse(alloc, &config.tables, dialogue, facts, replies, piece)?;
            end_stage(stage, peer, outcome.end);
            Ok(outcome)
        }
        Stage::Over(end, _) => Ok(Outcome {
            batch: Batch::empty(alloc),
            end: Some(*end),
        }),
    }
}

fn joined(alloc: Global, front: &[u8], back: &[u8]) -> Result<Bytes, NoMemory>
    ensures { IfOk result (λ bytes. bytes ≡ front.now ++ back.now) }
{
    let mut bytes = Vec::from_slice(alloc, front)?;
    bytes.extend_from_slice(back)?;
    Ok(Bytes::from_vec(bytes)?)
}

/// The bytes of a hello, and what may follow it.
fn greet(
    alloc: Global,
    config: &Config,
    seated: bool,
    bytes: Bytes,
) -> Result<StageOutcome, NoMemory>
    ensures greeted { IfOk result (λ outcome. outcome
        ≡ hello_outcome config.now.tables bytes
        (hello_of config.now.me config.now.peers seated bytes)) }
    ensures settled { IfOk result (λ outcome. IsSettled outcome.stage) }
{
    match hello_of(config, seated, bytes.as_slice()) {
        Ok(None) => Ok(StageOutcome {
            stage: Stage::Greeting(bytes),
            batch: Batch::empty(alloc),
            end: None,
        }),
        Ok(Some((peer, rest))) => open(alloc, &config.tables, peer, rest),
        Err(status) => refuse(alloc, status),
    }
}

/// A refused hello.
fn refuse(alloc: Global, status: Status) -> Result<StageOutcome, NoMemory>
    ensures { IfOk result (λ outcome. outcome ≡ refused_outcome status) }
{
    let end = End::Refused(status);
    let replies = Vec::from_slice(alloc, status_text(status))?;
    let split = replies.len();
    Ok(StageOutcome {
        stage: Stage::Over(end, None),
        batch: Batch::new(Whats::new(alloc), replies, split),
        end: Some(end),
    })
}

/// The line that answers a hello.
fn status_text(status: Status) -> &'static [u8]
    ensures { result.now ≡ status_text status }
{
    match status {
        Status::Accepted => b"200\n",
        Status::TryLater => b"300\n",
        Status::Protocol => b"501\n",
        Status::Version => b"502\n",
        Status::LocalName => b"503\n",
        Status::RemoteName => b"504\n",
    }
}

/// An accepted hello, and the bytes after it.
fn open(
    alloc: Global,
    tables: &Declared<Shape>,
    peer: usize,
    rest: &[u8],
) -> Result<StageOutcome, NoMemory>
    ensures opened { IfOk result (λ outcome. outcome
        ≡ accepted_outcome tables.now (peer, rest.now)) }
    ensures settled { IfOk result (λ outcome. IsSettled outcome.stage) }
{
    let mut facts = Whats::new(alloc);
    facts.push(What::Open(peer))?;
    let mut replies = Vec::from_slice(alloc, status_text(Status::Accepted))?;
    write_message(&Message::Request, &mut replies)?;
    let mut dialogue = Dialogue {
        peer,
        feed: Feed::new(alloc),
        track: Track::new(alloc),
    };
    let Outcome { batch, end } = converse(alloc, tables, &mut dialogue, facts, replies, rest)?;
    let mut stage = Stage::Talking(dialogue);
    end_stage(&mut stage, peer, end);
    Ok(StageOutcome { stage, batch, end })
}

/// Where a piece showed an end, the dialogue of this peer is over.
fn end_stage(stage: &mut Stage, peer: usize, end: Option<End>)
    ensures { stage.new ≡ stage_at_end stage.old peer end }
{
    if let Some(end) = end {
        *stage = Stage::Over(end, Some(peer));
    }
}

/// What a piece of messages gives, behind the facts and replies that are there. After `NoMemory`
/// the dialogue is as it was, and where the piece showed an end it is over.
#[tactic(auto, unfolding(crate::specs::Piece::messages_outcome))]
fn converse(
    alloc: Global,
    tables: &Declared<Shape>,
    dialogue: &mut Dialogue,
    facts: Whats,
    replies: Vec<u8>,
    piece: &[u8],
) -> Result<Outcome, NoMemory>
    requires { AreSettled dialogue.old.track.entries }
    ensures ok { IfOk result (λ outcome. with_stage outcome
        (stage_at_end (Stage.Talking dialogue.new) dialogue.old.peer outcome.end)
        ≡ with_front facts replies.items
        (messages_outcome tables.now dialogue.old.peer dialogue.old.track
        (fed dialogue.old.feed piece.now))) }
    ensures err { OnErr result (dialogue.new ≡ dialogue.old) }
    ensures settled { AreSettled dialogue.new.track.entries }
{
    match dialogue.feed.read(piece)? {
        Some(given) => answer(alloc, tables, dialogue, given, facts, replies),
        None => {
            let split = replies.len();
            Ok(Outcome {
                batch: Batch::new(facts, replies, split),
                end: None,
            })
        }
    }
}

/// The same for messages that were read.
#[tactic(auto, unfolding(crate::specs::Piece::messages_outcome))]
fn answer(
    alloc: Global,
    tables: &Declared<Shape>,
    dialogue: &mut Dialogue,
    given: Given,
    facts: Whats,
    replies: Vec<u8>,
) -> Result<Outcome, NoMemory>
    requires { AreSettled dialogue.old.track.entries }
    ensures ok { IfOk result (λ outcome. with_stage outcome
        (stage_at_end (Stage.Talking dialogue.new) dialogue.old.peer outcome.end)
        ≡ with_front facts replies.items
        (messages_outcome tables.now dialogue.old.peer dialogue.old.track given)) }
    ensures err { OnErr result (dialogue.new ≡ dialogue.old) }
    ensures settled { AreSettled dialogue.new.track.entries }
{
    let mut facts = facts;
    // A message is a fact at most.
    facts.reserve(given.len().min(MOST_AT_ONCE))?;
    let mut out = replies;
    let current = dialogue.track.current();
    let mut changes = dialogue.track.take_room();
    match say(
        alloc,
        tables,
        dialogue.peer,
        &mut dialogue.track,
        &given,
        &mut facts,
        &mut out,
        &mut changes,
    ) {
        Ok((end, split)) => {
            dialogue.track.clear_updated();
            dialogue.track.keep_room(changes);
            dialogue.feed.commit(given);
            Ok(Outcome {
                batch: Batch::new(facts, out, split),
                end,
            })
        }
        Err(NoMemory) => {
            dialogue.track.take_back(current, changes);
            Err(NoMemory)
        }
    }
}

/// What messages and the fault behind them give, and how many bytes of it are replies. The changes
/// of the track lead back to what it was.
fn say(
    alloc: Global,
    tables: &Declared<Shape>,
    peer: usize,
    track: &mut Track,
    given: &Given,
    facts: &mut Whats,
    out: &mut Vec<u8>,
    changes: &mut Vec<Change>,
) -> Result<(Option<End>, usize), NoMemory>
    ensures undo { LeadBack changes.old.items track.old.entries
        changes.new.items track.new.entries }
    ensures said { IfOk result (λ x. IsSaid x.0 x.1 track.new facts.old facts.new
        out.old.items out.new.items (run tables.now peer track.old given.now.messages) given.now) }
{
    let end = run(alloc, tables, peer, track, given, facts, out, changes)?;
    let end = first_end(end, given.fault());
    say_end(end, out)?;
    let split = out.len();
    write_acks(track.entries(), out)?;
    Ok((end, split))
}

/// The end that a message showed, or else that of the stream.
fn first_end(end: Option<End>, fault: Option<WireCause>) -> Option<End>
    ensures { result ≡ first_end end (option_map (λ wire. End.Wire wire) fault) }
{
    match end {
        Some(end) => Some(end),
        None => fault.map(End::Wire),
    }
}

/// Adds what is sent at an end.
fn say_end(end: Option<End>, out: &mut Vec<u8>) -> Result<(), NoMemory>
    ensures { OnOk result (out.new.items ≡ out.old.items ++ end_reply end) }
{
    match end {
        None => Ok(()),
        Some(end) => write_end(end, out),
    }
}

/// Adds what is sent where a session of messages ends: size limit reached, or protocol error.
fn write_end(end: End, out: &mut Vec<u8>) -> Result<(), NoMemory>
    ensures { OnOk result (out.new.items ≡ out.old.items ++ end_text end) }
{
    match end {
        End::Wire(WireCause::TooLong) => write_message(&Message::SizeError, out),
        End::Wire(WireCause::BadInteger) => write_message(&Message::ProtocolError, out),
        End::Wire(WireCause::BadField) => write_message(&Message::ProtocolError, out),
        End::Wire(WireCause::NoMemory) | End::Refused(_) | End::PeerError | End::TimedOut => Ok(()),
    }
}
