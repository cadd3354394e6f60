//! A filter that is to be added: first it judges the keys that have rows, one by one.

ghost use Rattle.std.specs.Prelude.{◌≡◌, ◌≤◌, ◌+◌, length, IfOk, IsOk, OnOk, OnErr};
ghost use Rattle.agg_types.specs.declared.limits.TheConstants.{MOST_CONDS};
ghost use Rattle.crossing.specs.First.{IsFlatSoon};
ghost use Rattle.standing_filters.specs.Plans.{IsWatch, view_of_watch};
ghost use Rattle.standing_filters.specs.Verdicts.{out};
ghost use Rattle.standing_filters.specs.Watched.{IsTouched, unheld, verdict_at};

use crate::touching::make_copies;
use crate::watch::Watch;
use agg_types::{Filter, Key, NoMemory};
use crossing::{Meter, Values};
use std::alloc::Global;
use std::marker::Model;

/// A filter that isn't among the standing ones yet, with the verdicts on the keys that it judged.
///
/// Contracts see the filter with these verdicts.
pub struct Adding {
    watch: Watch,
    // Copies of the key that is judged.
    copies: Vec<Key>,
    alloc: Global,
}

// By hand, so that what drops it elsewhere proves nothing of its parts.
impl Drop for Adding {
    fn drop(self) {
        let Adding {
            watch: _,
            copies: _,
            alloc: _,
        } = self;
    }
}

impl Model for Adding {
    ghost use Rattle.standing_filters.specs.Plans.{IsWatch, view_of_watch};
    ghost use Rattle.standing_filters.specs.Watched.{Watched};

    ghost Value = { Watched };

    ghost view = { λ a. view_of_watch a.watch };

    ghost invariant = { λ a. IsWatch a.watch };
}

impl Adding {
    // A filter that has judged no key yet, with room for verdicts on so many.
    pub(crate) fn new(alloc: Global, filter: &Filter, keys: usize) -> Result<Adding, NoMemory>
        requires few { length filter.now.conds ≤ MOST_CONDS }
        ensures { IfOk result (λ adding. adding ≡ unheld filter.now) }
    {
        let mut watch = Watch::new(alloc, filter.duplicate(alloc)?);
        watch.reserve(keys)?;
        Ok(Adding {
            watch,
            copies: Vec::new(alloc),
            alloc,
        })
    }

    /// Judges a key that wasn't judged yet, by its values at a moment, in ms. After `NoMemory`
    /// nothing has changed. A key that the filter doesn't hold, and never will by the clock alone,
    /// takes no memory and no search. Reads at most 505 values where they stay from 2^33 ms on, and
    /// counts them, after `NoMemory` too.
    pub fn judge<V: Values>(
        &mut self,
        key: &Key,
        values: &V,
        now: u64,
        meter: &mut Meter,
    ) -> Result<(), NoMemory>
        ensures ok { verdict_at self.old.kept key.now ≡ out → OnOk result
            (IsTouched (V.summed values.now) (V.living values.now) self.old.filter.table key.now
            now self.old self.new) }
        ensures filter { self.new.filter ≡ self.old.filter }
        ensures err { OnErr result (self.new ≡ self.old) }
        ensures dead { V.living values.now self.old.filter.table key.now now ≡ 0 → IsOk result }
        ensures counted { IsFlatSoon now (V.flat values.now self.old.filter.table key.now)
            → meter.new.evals ≤ meter.old.evals + 505 }
    {
        let verdict = self.watch.judge(key, values, now, meter);
        if verdict.is_out() {
            return Ok(());
        }
        self.watch.reserve(0)?;
        make_copies(&mut self.copies, self.alloc, key, 1)?;
        self.watch.change(None, key, &mut self.copies, verdict);
        Ok(())
    }

    // The verdicts.
    pub(crate) fn into_watch(self) -> Watch
        ensures watch { IsWatch result }
        ensures view { view_of_watch result ≡ self }
    {
        let Adding {
            watch,
            copies: _,
            alloc: _,
        } = self;
        watch
    }
}
