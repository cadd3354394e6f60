//! Planned changes of the verdicts in places.

ghost use Rattle.std.specs.Prelude.{◌≡◌, ◌≤◌, ℕ, [], None, true, false, IfNone, IfSome};
ghost use Rattle.place_plans.specs.Plans.{plan_at};
ghost use Rattle.standing_filters.specs.Plans.{IsFirstOf, IsPlanned};
ghost use Rattle.standing_filters.specs.Turns.{has_come};

use place_plans::PlacePlans;
use std::alloc::Global;
use std::marker::Model;

/// For each place the moment at which the verdict in it changes, or that they are lost.
///
/// They only spare a walk over the verdicts, which say themselves when they change. So where
/// memory for one is refused all are lost, and no call fails for that.
#[derive(Drop)]
pub(crate) struct ChangePlans {
    plans: PlacePlans,
    is_lost: bool,
    alloc: Global,
}

impl Model for ChangePlans {
    ghost use Rattle.standing_filters.specs.Plans.{Planning};

    ghost Value = { Planning };

    ghost view = { λ p. record { moments = p.plans; lost = p.is_lost } };
}

impl ChangePlans {
    /// No place has a plan. Takes no memory.
    pub(crate) fn new(alloc: Global) -> ChangePlans
        ensures { result ≡ record { moments = []; lost = false } }
    {
        ChangePlans {
            plans: PlacePlans::new(alloc),
            is_lost: false,
            alloc,
        }
    }

    /// Whether they are lost.
    pub(crate) fn is_lost(&self) -> bool
        ensures { result ≡ self.now.lost }
    {
        self.is_lost
    }

    /// No place has a plan, again. Takes no memory.
    pub(crate) fn begin(&mut self)
        ensures { self.new ≡ record { moments = []; lost = false } }
    {
        *self = ChangePlans::new(self.alloc);
    }

    /// Plans a moment for a place in the stead of the one before, or takes that away. Where memory
    /// is refused all are lost.
    pub(crate) fn plan(&mut self, place: usize, next: Option<u64>)
        ensures { self.new.lost ≡ false → IsPlanned place next self.old self.new }
    {
        if self.is_lost {
            return;
        }
        let Some(at) = next else {
            self.plans.cancel(place);
            return;
        };
        if self.plans.plan(place, at).is_err() {
            self.plans = PlacePlans::new(self.alloc);
            self.is_lost = true;
        }
    }

    /// Takes the plan of a place away whose moment has come by `t`, and answers the place. None
    /// says that there is none, or that they are lost. Takes no memory.
    pub(crate) fn take_due(&mut self, t: u64) -> Option<usize>
        ensures taken { IfSome result (λ place. IsPlanned place None self.old self.new) }
        ensures due { IfSome result (λ place. has_come t (plan_at self.old.moments place) ≡ true) }
        ensures none { IfNone result (self.old.lost ≡ false
            → (place : ℕ) → has_come t (plan_at self.old.moments place) ≡ false) }
        ensures same { IfNone result (self.new ≡ self.old) }
    {
        if self.is_lost {
            return None;
        }
        self.plans.take_due(t)
    }

    /// The least moment that is planned.
    pub(crate) fn next_at(&self) -> Option<u64>
        ensures { IsFirstOf (plan_at self.now.moments) result }
    {
        self.plans.next_at()
    }

    /// A moment up to `t` by which few places are due: so many, or those of one moment.
    pub(crate) fn few_by(&self, t: u64, most: usize) -> u64
        ensures { result ≤ t }
    {
        self.plans.few_by(t, most)
    }
}
