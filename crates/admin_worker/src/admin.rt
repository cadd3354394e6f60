//! One admin connection: commands, and their answers.

ghost use Rattle.std.specs.Prelude.{◌≡◌, ◌<◌, ◌≤◌, ◌+◌, ◌^◌, ◌⊎◌, ◌++◌, ◌∷◌, ℕ, List, [], true};
ghost use Rattle.std.specs.Prelude.{Err, false, IfErr, MatchResult};
ghost use Rattle.hub.specs.Posts.{Follows, SitsDown};
ghost use Rattle.worker_frame.specs.Traffic.{Traffic, so_far};
ghost use Rattle.worker_frame.specs.declared.source.TheConstants.{MOST_READS};
ghost use Rattle.admin_worker.specs.Commanding.{HasLearned, IsAtHub, KeepsPoster, RunsOut, Takes};
ghost use Rattle.admin_worker.specs.Commanding.{Works, WorksOn};
ghost use Rattle.admin_worker.specs.Commands.{IsCommandedUntil, IsCommandedWhole};
ghost use Rattle.admin_worker.specs.Framing.{HasNoEnd, is_end};
ghost use Rattle.admin_worker.specs.Manners.{first_manner};
ghost use Rattle.worker_frame.specs.declared.door.Door.{Door};

use crate::asked::quits;
use crate::faults::LineFault;
use crate::framing::split_command;
use crate::obeying::{obey_part, refused};
use crate::worker::AdminWorker;
use hub::{Lens, Naming, Pass};
use std::io::Write;
use std::sync::Wait;
use worker_frame::{
    Came, Cause, Clock, Context, Door, Faulted, Gate, Link, MOST_READS, Served, Source, buffer,
    front,
};

// Obeys the part whose last bytes these are, and that ends so, unless it asks to quit. Whether the
// connection goes on.
fn end_part<J: Naming, H: Wait + Drop, R: Wait, C: Clock, G: Gate, W: Write>(
    context: &Context<'_, J, H, R, C, G>,
    worker: &mut AdminWorker,
    writer: &mut W,
    bytes: &[u8],
    end: u8,
) -> Result<bool, LineFault>
    requires { IsAtHub context.now.hub.now worker.old }
    ensures keeps { KeepsPoster context.now.hub.now worker.old worker.new }
    ensures takes { (rest : List ℕ) → HasNoEnd bytes.now → is_end end ≡ true
        → Takes context.now.hub.now worker.old worker.new (bytes.now ++ end ∷ rest) rest
        (W.contents writer.old) (W.contents writer.new) result }
{
    if worker.keep(bytes).is_err() {
        return Err(LineFault::Post(refused(context.alloc)));
    }
    if quits(worker.line.as_slice()) {
        return Ok(false);
    }
    let text = worker.line.as_slice();
    let next = worker.manner.follow(text, end);
    obey_part(context, worker, writer)?;
    worker.line.clear();
    worker.manner = next;
    Ok(true)
}

// Takes a piece: each part that ends in it is obeyed, up to one that asks to quit. Whether the
// connection goes on.
fn take_parts<J: Naming, H: Wait + Drop, R: Wait, C: Clock, G: Gate, W: Write>(
    context: &Context<'_, J, H, R, C, G>,
    worker: &mut AdminWorker,
    writer: &mut W,
    piece: &[u8],
) -> Result<bool, LineFault>
    requires { IsAtHub context.now.hub.now worker.old }
    ensures keeps { KeepsPoster context.now.hub.now worker.old worker.new }
    ensures takes { Takes context.now.hub.now worker.old worker.new piece.now []
        (W.contents writer.old) (W.contents writer.new) result }
{
    let mut rest = piece;
    while let Some((front, end, behind)) = split_command(rest) {
        let goes = end_part(context, worker, writer, front, end)?;
        if !goes {
            return Ok(false);
        }
        rest = behind;
    }
    if worker.keep(rest).is_err() {
        return Err(LineFault::Post(refused(context.alloc)));
    }
    Ok(true)
}

// Reads once, and does what that asks for. Whether the connection goes on.
fn turn_admin<J: Naming, H: Wait + Drop, R: Wait, C: Clock, G: Gate, S: Source, W: Write>(
    context: &Context<'_, J, H, R, C, G>,
    worker: &mut AdminWorker,
    link: &mut Link<S, W>,
    buffer: &mut [u8],
) -> Result<bool, Cause>
    requires reads { S.reads link.old.source < 2 ^ 62 }
    requires at { IsAtHub context.now.hub.now worker.old }
    ensures keeps { KeepsPoster context.now.hub.now worker.old worker.new }
    ensures reads { S.reads link.new.source ≡ S.reads link.old.source + 1 }
    ensures failed { S.failed link.old.source ≤ S.failed link.new.source }
    ensures read { result ≡ Err Cause.Read
        → S.failed link.old.source < S.failed link.new.source }
    ensures works { (door : Door) (seat : ℕ) (start : Traffic)
        → Works door context.now.hub.now seat worker.old [] start
        (so_far (S.given link.old.source) (W.contents link.old.writer))
        → WorksOn door context.now.hub.now seat worker.new [] start
        (so_far (S.given link.new.source) (W.contents link.new.writer)) result }
{
    match link.source.read(buffer) {
        Err(_) => Err(Cause::Read),
        Ok(Came::End) => Ok(false),
        Ok(Came::Nothing) => Ok(worker.wait()),
        Ok(Came::Bytes(count)) => {
            worker.silent = 0;
            Ok(take_parts(context, worker, &mut link.writer, front(buffer, count))?)
        }
    }
}

// Reads until the source ends, a part asks to quit, the gate says so, or a fault comes.
fn run_admin<J: Naming, H: Wait + Drop, R: Wait, C: Clock, G: Gate, S: Source, W: Write>(
    context: &Context<'_, J, H, R, C, G>,
    worker: &mut AdminWorker,
    link: &mut Link<S, W>,
) -> Result<(), Cause>
    requires reads { S.reads link.old.source ≡ 0 }
    requires at { IsAtHub context.now.hub.now worker.old }
    requires line { worker.old.line.bytes.items ≡ [] }
    requires manner { worker.old.manner ≡ first_manner worker.old.manner.door }
    requires learned { HasLearned context.now.hub.now context.now.hub.now
        worker.old.poster.pass.seat worker.old [] }
    ensures keeps { KeepsPoster context.now.hub.now worker.old worker.new }
    ensures works { RunsOut worker.old.manner.door context.now.hub.now
        worker.old.poster.pass.seat worker.new
        (so_far (S.given link.old.source) (W.contents link.old.writer))
        (so_far (S.given link.new.source) (W.contents link.new.writer)) result }
    ensures read { result ≡ Err Cause.Read
        → (S.failed link.old.source < S.failed link.new.source)
        ⊎ (S.reads link.new.source ≡ MOST_READS) }
{
    let Some(mut buffer) = buffer(context.alloc) else {
        return Err(Cause::Post(refused(context.alloc)));
    };
    for made in 0..MOST_READS {
        if context.gate.stop() {
            return Ok(());
        }
        let goes = turn_admin(context, worker, link, buffer.as_mut_slice())?;
        if !goes {
            return Ok(());
        }
    }
    Err(Cause::Read)
}

/// Serves one admin connection, with a lens of its own and a pass that has posted nothing.
///
/// A line ends with LF, and several commands on it are parted by `;`. Each is obeyed as soon as it
/// ends; one that hasn't ended when the connection does is dropped. Its answer has an empty line
/// behind it, and is made whole, and the look given up, before anything is posted or written. A
/// change is posted, learned and told, and then answered `ok`. A blank part behind a `;` is no
/// command. `prompt` turns whether a prompt stands behind each answer, and answers are for people
/// then. `quit` or `exit` ends the connection, without an answer; so do 20 reads in a row that gave
/// nothing. `door` says for whom the answers are else.
pub fn serve_admin<J: Naming, H: Wait + Drop, R: Wait, C: Clock, G: Gate, S: Source, W: Write>(
    context: &Context<'_, J, H, R, C, G>,
    link: &mut Link<S, W>,
    lens: Lens,
    pass: Pass,
    door: Door,
) -> Result<Served, Faulted>
    requires pass { SitsDown pass × Follows context.now.hub.now pass.seen }
    requires lens { Follows context.now.hub.now lens.seen }
    requires reads { S.reads link.old.source ≡ 0 }

    // What was read, changed and answered; and what the receipts show of that.
    ensures served { MatchResult result
        (IsCommandedWhole door context.now.hub.now pass.seat
        (so_far (S.given link.old.source) (W.contents link.old.writer))
        (so_far (S.given link.new.source) (W.contents link.new.writer)))
        (IsCommandedUntil door context.now.hub.now pass.seat
        (so_far (S.given link.old.source) (W.contents link.old.writer))
        (so_far (S.given link.new.source) (W.contents link.new.writer))) }

    // It ends with Read only where a read failed, or `MOST_READS` were made.
    ensures read { IfErr result (λ faulted. faulted.cause ≡ Cause.Read
        → (S.failed link.old.source < S.failed link.new.source)
        ⊎ (S.reads link.new.source ≡ MOST_READS)) }
{
    let sender = link.source.sender();
    let mut worker = AdminWorker::new(context.alloc, lens, pass, sender, door);
    let ended = run_admin(context, &mut worker, link);
    let served = worker.into_poster().leave(context.rt, context.hub);
    match ended {
        Ok(()) => Ok(served),
        Err(cause) => Err(Faulted { cause, served }),
    }
}
