//! Where the rows of the next updates' keys lie, looked for together.
//!
//! Nothing is promised of it: each spot is a hint, with which every call does and answers the same.

use crate::runs::hint_at;
use agg_types::{Key, LentWhat, Whats};
use book_machine::Machine;
use peer_rows::{Spot, Trace};

// So many updates are looked at together: enough that their waits for memory overlap, few enough
// that what was read is still near when they are put.
const GROUP: usize = 16;

// Tables of fewer rows lie in the nearer caches, where a look ahead costs more than it saves.
const FAR: usize = 1 << 17;

/// The spots of some updates of a run, from a place on, up to another one.
#[derive(Clone, Copy)]
pub(crate) struct Lookahead {
    from: usize,
    until: usize,
    // The table of the first of them, and whether its rows lie far.
    table: Option<usize>,
    is_far: bool,
    spots: [Option<Spot>; GROUP],
}

impl Lookahead {
    /// Before the first update: none is looked for.
    pub(crate) fn none() -> Lookahead {
        Lookahead {
            from: 0,
            until: 0,
            table: None,
            is_far: false,
            spots: [None; GROUP],
        }
    }

    /// Looks for the keys of the updates of a peer from a place on, each step for all of them
    /// before the next. The steps are: where a key is looked for, a first look there, where its
    /// rows may lie, by that or by its hint, a look whether they do, and one at the peer's row.
    /// Looks for none where the table has few rows.
    #[inline(never)]
    pub(crate) fn look(
        &mut self,
        machine: &Machine,
        peer: usize,
        whats: &Whats,
        from: usize,
        hints: &Vec<Option<Spot>>,
    ) {
        self.find_far(machine, whats, from);
        self.until = from.saturating_add(GROUP);
        if self.is_far {
            self.from = from;
            self.spots = [None; GROUP];
            let count = GROUP.min(whats.len().saturating_sub(from));
            spots(machine, peer, whats, from, hints, count, &mut self.spots);
        }
    }

    // Says whether the rows lie far of the table that the update at a place puts one into. They are
    // counted once for all updates of one table that follow each other.
    fn find_far(&mut self, machine: &Machine, whats: &Whats, from: usize) {
        let table = match put_at(whats, from) {
            Some((table, _)) => Some(table),
            None => None,
        };
        if self.table == table {
            return;
        }
        self.table = table;
        self.is_far = match table {
            Some(table) => machine.rows.rows_of(table) >= FAR,
            None => false,
        };
    }

    /// Whether the updates up to a place, as they come one after the other, were looked at.
    #[inline]
    pub(crate) fn has(&self, place: usize) -> bool {
        place < self.until
    }

    /// The spot of the update at a place, if it was looked for and found.
    #[inline]
    pub(crate) fn spot(&self, place: usize) -> Option<Spot> {
        if !self.is_far {
            return None;
        }
        self.spots
            .get(place.saturating_sub(self.from))
            .copied()
            .flatten()
    }
}

// Looks for the keys of so many updates of a peer from a place on.
fn spots(
    machine: &Machine,
    peer: usize,
    whats: &Whats,
    from: usize,
    hints: &Vec<Option<Spot>>,
    count: usize,
    spots: &mut [Option<Spot>; GROUP],
) {
    let mut puts = [None; GROUP];
    let mut traces = [None; GROUP];
    let count = count.min(GROUP);
    for ahead in 0..count {
        let place = from.saturating_add(ahead);
        puts[ahead] = put_at(whats, place);
        traces[ahead] = trace(machine, puts[ahead], hint_at(hints, place));
    }
    for ahead in 0..count {
        traces[ahead] = touch(machine, puts[ahead], traces[ahead]);
    }
    for ahead in 0..count {
        spots[ahead] = match traces[ahead] {
            None => hint_at(hints, from.saturating_add(ahead)),
            Some(trace) => guess(machine, puts[ahead], trace),
        };
    }
    for ahead in 0..count {
        spots[ahead] = confirm(machine, puts[ahead], spots[ahead]);
    }
    for ahead in 0..count {
        spots[ahead] = touch_row(machine, peer, puts[ahead], spots[ahead]);
    }
}

// The table and the key of the update at a place.
fn put_at(whats: &Whats, place: usize) -> Option<(usize, &Key)> {
    match whats.get(place)? {
        LentWhat::Put { table, key, .. } => Some((table, key)),
        LentWhat::Other(_) => None,
    }
}

// Where an update's key is looked for, if no hint says where its rows lie.
fn trace(machine: &Machine, put: Option<(usize, &Key)>, hint: Option<Spot>) -> Option<Trace> {
    if hint.is_some() {
        return None;
    }
    let (table, key) = put?;
    machine.rows.trace(table, key)
}

// The trace with a first look at what it leads to.
fn touch(machine: &Machine, put: Option<(usize, &Key)>, trace: Option<Trace>) -> Option<Trace> {
    let (table, _) = put?;
    Some(machine.rows.touch(table, trace?))
}

// Where the rows of an update's key may lie.
fn guess(machine: &Machine, put: Option<(usize, &Key)>, trace: Trace) -> Option<Spot> {
    let (table, _) = put?;
    machine.rows.guess(table, trace)
}

// The spot of an update's key, if its rows lie there.
fn confirm(machine: &Machine, put: Option<(usize, &Key)>, spot: Option<Spot>) -> Option<Spot> {
    let (table, key) = put?;
    machine.rows.confirm(spot?, table, key)
}

// The spot of an update's key with a first look at where its peer's row lies there.
fn touch_row(
    machine: &Machine,
    peer: usize,
    put: Option<(usize, &Key)>,
    spot: Option<Spot>,
) -> Option<Spot> {
    let (table, _) = put?;
    machine.rows.touch_row(spot?, table, peer)
}
