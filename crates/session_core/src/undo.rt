//! How a piece that can't be taken whole is taken back, change by change.

ghost use Rattle.std.specs.Prelude.{◌≡◌, ◌<◌, List, length, slice_get, slice_set, Some, OnOk};
ghost use Rattle.std.specs.Prelude.{OnErr, IsTrue};
ghost use Rattle.session_core.specs.declared.track.Entry.{Entry};
ghost use Rattle.session_core.specs.Undo.{undone, before};

use crate::track::Entry;
use agg_types::NoMemory;

/// A change of a session's entries, with what takes it back.
#[derive(Clone, Copy, Debug)]
pub(crate) enum Change {
    /// At this place stood this entry.
    Replaced(usize, Entry),
    /// At this place an entry was put in.
    Added(usize),
}

/// Notes what stands at a place that is to be changed, unless it was the last that was noted. So a
/// run of updates under one id is one note.
#[inline]
pub(crate) fn note(changes: &mut Vec<Change>, at: usize, entry: &Entry) -> Result<(), NoMemory>
    ensures ok { OnOk result ((entries : List Entry) (next : Entry)
        → slice_get entries at ≡ Some entry.now
        → undone changes.new.items (slice_set entries at next)
        ≡ undone changes.old.items entries) }
    ensures err { OnErr result (changes.new.items ≡ changes.old.items) }
{
    if is_noted(changes.as_slice(), at) {
        return Ok(());
    }
    note_first(changes, at, entry)
}

/// Notes what stands at a place. Apart, so that a run of updates makes no room for it.
#[cold]
#[inline(never)]
fn note_first(changes: &mut Vec<Change>, at: usize, entry: &Entry) -> Result<(), NoMemory>
    ensures ok { OnOk result ((entries : List Entry) (next : Entry)
        → slice_get entries at ≡ Some entry.now
        → undone changes.new.items (slice_set entries at next)
        ≡ undone changes.old.items entries) }
    ensures err { OnErr result (changes.new.items ≡ changes.old.items) }
{
    changes.push(Change::Replaced(at, *entry))?;
    Ok(())
}

/// Whether the last note is of this place.
#[inline]
fn is_noted(changes: &[Change], at: usize) -> bool
    ensures { IsTrue result → (entries : List Entry) (next : Entry)
        → undone changes.now (slice_set entries at next) ≡ undone changes.now entries }
{
    match changes.split_last() {
        Some((Change::Replaced(place, _), _)) => *place == at,
        _ => false,
    }
}

/// The entries as they were before the changes. Takes no memory.
pub(crate) fn take_back(changes: Vec<Change>, entries: &mut Vec<Entry>)
    ensures { entries.new.items ≡ undone changes.items entries.old.items }
{
    let mut left = changes;
    while let Some(change) = left.pop() {
        take_one_back(change, entries);
    }
}

fn take_one_back(change: Change, entries: &mut Vec<Entry>)
    ensures { entries.new.items ≡ before change entries.old.items }
{
    match change {
        Change::Replaced(at, entry) => {
            if at < entries.len() {
                entries[at] = entry;
            }
        }
        Change::Added(at) => {
            if at < entries.len() {
                entries.remove(at);
            }
        }
    }
}
