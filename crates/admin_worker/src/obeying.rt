//! What an admin does for a command, and what it writes for it.

ghost use Rattle.std.specs.Prelude.{◌≡◌, ◌∷◌, ℕ, List, [], false, IfSome};
ghost use Rattle.std.specs.Option.{option_to_list};
ghost use Rattle.agg_types.specs.declared.event.What.{What};
ghost use Rattle.hub.specs.History.{Beginning};
ghost use Rattle.hub.specs.Roll.{MayPost};
ghost use Rattle.worker_frame.specs.Told.{stored_of};
ghost use Rattle.admin_worker.specs.Commanding.{ChangesTo, HasLearned, HasLooked, IsAtHub};
ghost use Rattle.admin_worker.specs.Commanding.{KeepsPoster, ObeysTo, kept_of};
ghost use Rattle.admin_worker.specs.Commands.{is_silent};
ghost use Rattle.admin_worker.specs.Status.{quits};
ghost use Rattle.admin_worker.specs.declared.manner.Manner.{Manner};

use crate::answering::Answered;
use crate::faults::LineFault;
use crate::worker::AdminWorker;
use agg_types::{NoMemory, What, Whats};
use hub::{Naming, PostFault};
use std::alloc::Global;
use std::io::Write;
use std::sync::Wait;
use worker_frame::{Clock, Context, Gate, Place, send};

/// An allocation of one's own that failed.
pub fn refused(alloc: Global) -> PostFault
    ensures { stored_of result 1 ≡ 0 }
{
    PostFault::NoMemory(Whats::new(alloc))
}

// Posts a change, and learns and tells that it is shown.
fn post_change<J: Naming, H: Wait + Drop, R: Wait, C: Clock, G: Gate>(
    context: &Context<'_, J, H, R, C, G>,
    worker: &mut AdminWorker,
    what: What,
) -> Result<(), PostFault>
    requires at { IsAtHub context.now.hub.now worker.old }
    requires fits { MayPost context.now.hub.now.config what }
    ensures keeps { KeepsPoster context.now.hub.now worker.old worker.new }
    ensures changes { (since : Beginning) (seat : ℕ) (whats : List What)
        → HasLearned context.now.hub.now since seat worker.old whats
        → ChangesTo context.now.hub.now since seat worker.new whats (what ∷ []) result }
{
    let Ok(whats) = Whats::alone(context.alloc, what) else {
        return Err(refused(context.alloc));
    };
    worker.poster.post(context.rt, context.hub, whats)?;
    worker.poster.show(&mut worker.lens);
    worker.tell(context.gate);
    Ok(())
}

// Does what a command asks for.
fn carry_out<J: Naming, H: Wait + Drop, R: Wait, C: Clock, G: Gate>(
    context: &Context<'_, J, H, R, C, G>,
    worker: &mut AdminWorker,
    change: Option<What>,
) -> Result<(), PostFault>
    requires at { IsAtHub context.now.hub.now worker.old }
    requires fits { IfSome change (MayPost context.now.hub.now.config) }
    ensures keeps { KeepsPoster context.now.hub.now worker.old worker.new }
    ensures changes { (since : Beginning) (seat : ℕ) (whats : List What)
        → HasLearned context.now.hub.now since seat worker.old whats
        → ChangesTo context.now.hub.now since seat worker.new whats (option_to_list change)
        result }
{
    match change {
        None => Ok(()),
        Some(what) => post_change(context, worker, what),
    }
}

// Does what a command asks for that was looked at, and writes its answer, which was made in some
// manner.
fn reply<J: Naming, H: Wait + Drop, R: Wait, C: Clock, G: Gate, W: Write>(
    context: &Context<'_, J, H, R, C, G>,
    worker: &mut AdminWorker,
    writer: &mut W,
    answered: Answered,
) -> Result<(), LineFault>
    requires at { IsAtHub context.now.hub.now worker.old }
    requires fits { IfSome answered.change (MayPost context.now.hub.now.config) }
    ensures keeps { KeepsPoster context.now.hub.now worker.old worker.new }
    ensures obeys { (manner : Manner) (since : Beginning) (seat : ℕ) (whats : List What)
        (line : List ℕ)
        → HasLooked manner context.now.hub.now since seat worker.old whats line answered
        → ObeysTo false manner context.now.hub.now since seat worker.new whats line
        (W.contents writer.old) (W.contents writer.new) result }
{
    let Answered { change, text } = answered;
    carry_out(context, worker, change)?;
    send(writer, text.as_slice())?;
    Ok(())
}

// Does what the command that is kept asks for, and writes its answer.
fn obey<J: Naming, H: Wait + Drop, R: Wait, C: Clock, G: Gate, W: Write>(
    context: &Context<'_, J, H, R, C, G>,
    worker: &mut AdminWorker,
    writer: &mut W,
) -> Result<(), LineFault>
    requires { IsAtHub context.now.hub.now worker.old }
    ensures keeps { KeepsPoster context.now.hub.now worker.old worker.new }
    ensures obeys { (since : Beginning) (seat : ℕ) (whats : List What) (line : List ℕ)
        → HasLearned context.now.hub.now since seat worker.old whats
        → worker.old.line.bytes.items ≡ kept_of line → quits line ≡ false
        → ObeysTo false worker.old.manner context.now.hub.now since seat worker.new whats line
        (W.contents writer.old) (W.contents writer.new) result }
{
    context.gate.turn(Place::Admin);
    match worker.look(context.alloc, context.gate) {
        Ok(Some(answered)) => reply(context, worker, writer, answered),
        Ok(None) => Err(LineFault::Look),
        Err(NoMemory) => Err(LineFault::Post(refused(context.alloc))),
    }
}

/// Does what the part that is kept asks for, and writes its answer. A blank one behind a `;` asks
/// for nothing.
pub fn obey_part<J: Naming, H: Wait + Drop, R: Wait, C: Clock, G: Gate, W: Write>(
    context: &Context<'_, J, H, R, C, G>,
    worker: &mut AdminWorker,
    writer: &mut W,
) -> Result<(), LineFault>
    requires { IsAtHub context.now.hub.now worker.old }
    ensures keeps { KeepsPoster context.now.hub.now worker.old worker.new }
    ensures obeys { (since : Beginning) (seat : ℕ) (whats : List What) (line : List ℕ)
        → HasLearned context.now.hub.now since seat worker.old whats
        → worker.old.line.bytes.items ≡ kept_of line → quits line ≡ false
        → ObeysTo (is_silent worker.old.manner.behind line) worker.old.manner context.now.hub.now
        since seat worker.new whats line (W.contents writer.old) (W.contents writer.new) result }
{
    if worker.is_silent() {
        return Ok(());
    }
    obey(context, worker, writer)
}
