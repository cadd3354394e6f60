//! Where the words of the places stand that are looked at next, looked for together.
//!
//! Nothing is promised of it: each is a hint, with which a place is emptied in the same way.

use crate::index::KeyPlaces;
use place_index::Near;
use place_plans::PlacePlans;

// So many places are looked at together: enough that their waits for memory overlap, few enough
// that what was read is still near when they are emptied.
const GROUP: usize = 16;

/// Hints for the places that are due next.
#[derive(Drop)]
pub(crate) struct Ahead {
    nears: [Near; GROUP],
    // How many of them are left. The last is for the next place.
    left: usize,
}

impl Ahead {
    /// Looks for the words of the places that are due next and emptied then: first for the windows
    /// of their keys, then at these.
    pub(crate) fn look(keys: &KeyPlaces, plans: &PlacePlans, t: u64) -> Ahead {
        let due = plans.due(t);
        let left = GROUP.min(due.len());
        let places = &due[due.len() - left..];
        let mut nears = [Near::nowhere(); GROUP];
        for next in 0..left {
            nears[next] = near(keys, places[next] as usize, t);
        }
        for next in 0..left {
            nears[next] = keys.touch_near(places[next] as usize, nears[next]);
        }
        Ahead { nears, left }
    }

    /// Whether there is no hint left.
    pub(crate) fn is_empty(&self) -> bool {
        self.left == 0
    }

    /// The hint for the next place.
    pub(crate) fn take(&mut self) -> Near {
        self.left = self.left.saturating_sub(1);
        self.nears
            .get(self.left)
            .copied()
            .unwrap_or(Near::nowhere())
    }
}

// Where the word may stand that names a place, if that is emptied at a moment.
fn near(keys: &KeyPlaces, at: usize, t: u64) -> Near {
    match keys.value(at) {
        Some(rows) if rows.only_ended(t).is_some() => keys.near(at),
        _ => Near::nowhere(),
    }
}
