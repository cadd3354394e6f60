//! When the rows of each place are looked at, since one may have ended.
ghost use Rattle.std.specs.Prelude.{◌≡◌, ◌≢◌, ◌≤◌, ◌<◌, ℕ, List, [], Option, true, false};
ghost use Rattle.place_plans.specs.Plans.{count_due, is_due, plan_at};
ghost use Rattle.peer_rows.specs.Ends.{IsLeast, IsPlanned, is_behind};
ghost use Rattle.peer_rows.specs.declared.row.Row.{Row};

use place_plans::{PlacePlans, look_at};
use std::alloc::Global;

/// The planned looks at places.
#[derive(Drop)]
pub(crate) struct Ends {
    pub(crate) plans: PlacePlans,
    // Some place whose rows end may have no plan, since memory for it was refused: then all are
    // looked at.
    pub(crate) missed: bool,
}

impl Ends {
    /// No plan.
    pub(crate) fn new(alloc: Global) -> Ends
        ensures plans { result.plans ≡ [] }
        ensures missed { result.missed ≡ false }
    {
        Ends {
            plans: PlacePlans::new(alloc),
            missed: false,
        }
    }

    /// Sees to it that a place is looked at by the least end of its rows. A plan that is there
    /// stays if it is in time.
    pub(crate) fn note(&mut self, at: usize, now: u64, least: Option<u64>)
        ensures own { (rows : List (ℕ × Row)) → IsLeast rows least
            → IsPlanned self.new.missed rows (plan_at self.new.plans at) }
        ensures others { (p : ℕ) → p ≢ at
            → plan_at self.new.plans p ≡ plan_at self.old.plans p }
        ensures missed { self.new.missed ≡ false → self.old.missed ≡ false }
        ensures due { (t : ℕ) → t ≤ now → is_behind t least ≡ true
            → count_due t self.new.plans ≤ count_due t self.old.plans }
    {
        let Some(end) = least else {
            self.plans.cancel(at);
            return;
        };
        if is_by(self.plans.at(at), end) {
            return;
        }
        if self.plans.plan(at, moment_for(now, end)).is_err() {
            self.missed = true;
        }
    }
}

/// Whether there is a moment that is no later than an end.
pub(crate) fn is_by(planned: Option<u64>, end: u64) -> bool
    ensures { result ≡ is_due end planned }
{
    match planned {
        None => false,
        Some(at) => at <= end,
    }
}

// When to look for an end.
fn moment_for(now: u64, end: u64) -> u64
    ensures by { result ≤ end }
    ensures behind { (t : ℕ) → t ≤ now → t < end → t < result }
{
    if now < end { look_at(now, end) } else { end }
}
