//! The messages of a piece, one after the other.

ghost use Rattle.std.specs.Prelude.{◌≡◌, ◌++◌, List, [], ◌∷◌, IfOk, OnOk, vec_len};
ghost use Rattle.session_core.specs.Tracked.{Tracked};
ghost use Rattle.session_core.specs.Undo.{LeadBack};
ghost use Rattle.session_core.specs.Run.{Ran, run, ack_of, acks_of, settled};

use crate::cause::End;
use crate::track::{Entry, Heard, Track};
use crate::undo::Change;
use agg_types::{Declared, NoMemory, Shape, Whats};
use peers_msg::{Given, Message, write_message};
use std::alloc::Global;

/// How many bytes most acknowledgements have at most: room for them is made at once.
const ACK_BYTES: usize = 16;

/// What the messages do, up to the first that ends the session; its cause is returned. The facts
/// and replies are added to those that are there.
pub(crate) fn run(
    alloc: Global,
    tables: &Declared<Shape>,
    peer: usize,
    track: &mut Track,
    given: &Given,
    facts: &mut Whats,
    replies: &mut Vec<u8>,
    changes: &mut Vec<Change>,
) -> Result<Option<End>, NoMemory>
    ensures undo { LeadBack changes.old.items track.old.entries
        changes.new.items track.new.entries }
    ensures ran { IfOk result (λ end. Ran end track.new facts.old facts.new
        replies.old.items replies.new.items (run tables.now peer track.old given.now.messages)) }
{
    // The plan of the table in force, if one was made.
    let mut plan = track.plan_now(tables);
    // Updates are taken many at once, where they can be; what stands between such runs, one by one.
    let count = given.len();
    let mut at = track.put_updates(alloc, tables, peer, &mut plan, given, 0, facts, changes)?;
    while at < count {
        let Some(message) = given.get(at) else {
            break;
        };
        match track.step(alloc, tables, peer, &mut plan, message, facts, changes)? {
            Heard::Nothing => {}
            Heard::Confirm => write_message(&Message::Confirm, replies)?,
            Heard::Partial => write_message(&Message::Partial, replies)?,
            Heard::End(cause) => return Ok(Some(cause)),
        }
        let next = at + 1;
        at = track.put_updates(alloc, tables, peer, &mut plan, given, next, facts, changes)?;
    }
    track.keep(plan);
    Ok(None)
}

/// Adds the acknowledgements of the ids that had an update.
#[tactic(auto, unfolding(crate::specs::Run::acks_of))]
pub(crate) fn write_acks(entries: &[Entry], out: &mut Vec<u8>) -> Result<(), NoMemory>
    ensures { OnOk result (out.new.items ≡ out.old.items ++ acks_of entries.now) }
{
    for entry in entries {
        write_ack(entry, out)?;
    }
    Ok(())
}

fn write_ack(entry: &Entry, out: &mut Vec<u8>) -> Result<(), NoMemory>
    ensures { OnOk result (out.new.items ≡ out.old.items ++ ack_of entry.now) }
{
    if !entry.updated {
        return Ok(());
    }
    out.reserve(ACK_BYTES)?;
    let ack = Message::Acked {
        id: entry.id,
        last: entry.last,
    };
    write_message(&ack, out)
}

/// No entry has an update yet.
pub(crate) fn clear_updated(entries: &mut [Entry])
    ensures { entries.new ≡ settled entries.old }
{
    for entry in entries.iter_mut() {
        entry.updated = false;
    }
}
