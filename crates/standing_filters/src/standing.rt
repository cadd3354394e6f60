//! The standing filters of a collector.

ghost use Rattle.std.specs.Prelude.{◌≡◌, ◌≤◌, ◌<◌, ◌+◌, ◌*◌, ◌==◌, ◌++◌, ◌∷◌, [], ℕ, List};
ghost use Rattle.std.specs.Prelude.{length, map, remove, true, IfOk, IsFalse, IsOk};
ghost use Rattle.std.specs.Prelude.{IsTrue, OnOk, OnErr, Some};
ghost use Rattle.std.specs.Prelude.{◌≢◌, ◌⊎◌, false, slice_get, unwrap_or};
ghost use Rattle.std.specs.List.{All, AllByRecursion, list_any};
ghost use Rattle.std.specs.List.Sorted.{IsStrictlySortedBy};
ghost use Rattle.std.specs.BTreeMap.{is_at};
ghost use Rattle.std.specs.Cmp.Lexicographic.{slice_cmp};
ghost use Rattle.std.specs.Ordering.{nat_cmp};
ghost use Rattle.agg_types.specs.declared.limits.TheConstants.{MOST_CONDS};
ghost use Rattle.crossing.specs.First.{IsFlatSoon};
ghost use Rattle.standing_filters.specs.Flips.{TellsIfKnown, holding};
ghost use Rattle.standing_filters.specs.Plans.{IsPlanOf};
ghost use Rattle.standing_filters.specs.Turns.{AreReadFor, AreTurned, IsQuiet};
ghost use Rattle.standing_filters.specs.Watched.{AreForgotten, AreTouched, IsFirstChange, IsReady};
ghost use Rattle.standing_filters.specs.Watched.{HaveNone, filters_of, is_among, keys_held};
ghost use Rattle.standing_filters.specs.Watched.{unheld};
ghost use Rattle.standing_filters.specs.Watched.{verdict_at, verdicts_of};

use crate::adding::Adding;
use crate::flips::Flips;
use crate::forgetting::{clear_each, forget_each};
use crate::keys::Keys;
use crate::planned::Planned;
use crate::touching::{make_copies, reserve_each, touch_each};
use crate::turning::turn_each;
use crate::watch::Watch;
use agg_types::{Config, Filter, Key, NoMemory};
use crossing::{Meter, Values};
use place_index::IndexKey;
use std::alloc::Global;
use std::marker::Model;

/// Standing filters, each with the keys that it holds or will hold by the clock alone.
///
/// Contracts see each filter with its verdicts, the table whose filters have room for one more, and
/// the key of which there are copies for these.
pub struct Standing {
    watches: Vec<Watch>,
    // A table for which room was looked at.
    table: usize,
    // For so many judgements of its keys there is room in each of its filters.
    sure: usize,
    // Whether the copies are of one key: one for each of these filters, and at least one.
    is_copied: bool,
    copies: Vec<Key>,
    alloc: Global,
}

// By hand, so that what drops it elsewhere proves nothing of its parts.
impl Drop for Standing {
    fn drop(self) {
        let Standing {
            watches: _,
            table: _,
            sure: _,
            is_copied: _,
            copies: _,
            alloc: _,
        } = self;
    }
}

impl Model for Standing {
    ghost use Rattle.std.specs.Prelude.{map};
    ghost use Rattle.standing_filters.specs.Plans.{AreWatches, view_of_watch};
    ghost use Rattle.standing_filters.specs.Ready.{AreReady, copied_of, ready_of};
    ghost use Rattle.standing_filters.specs.Watched.{AllWatched};

    ghost Value = { AllWatched };

    ghost view = { λ s. record {
      filters = map view_of_watch s.watches.items;
      ready = ready_of s.table s.sure;
      copied = copied_of s.is_copied s.copies.items;
    } };

    ghost invariant = { λ s. AreWatches s.watches.items
        × AreReady s.table s.sure s.is_copied s.copies.items s.watches.items };
}

impl Standing {
    /// The standing filters of a configuration, none of which holds a key.
    pub fn new(alloc: Global, config: &Config) -> Result<Standing, NoMemory>
        requires few { All (λ filter. length filter.conds ≤ MOST_CONDS) config.now.filters }
        ensures filters { IfOk result (λ standing. standing.filters
            ≡ map unheld config.now.filters) }
    {
        let mut standing = Standing {
            watches: Vec::new(alloc),
            table: 0,
            sure: 0,
            is_copied: false,
            copies: Vec::new(alloc),
            alloc,
        };
        let filters = config.filters.as_slice();
        for filter in filters {
            let adding = standing.begin(filter, 0)?;
            standing.add(adding)?;
        }
        Ok(standing)
    }

    /// Makes the room that a judgement of a key takes in each filter of its table: for its verdict,
    /// and for its place in the order of the keys. So a touch of that key is sure, until another
    /// call changes something. At most so many keys of the table are to have rows: room is made for
    /// a verdict on each, and for some more, so it is looked at once for many touches. A key of
    /// more than 16 bytes is copied too, for each of these filters. After `NoMemory` no verdict has
    /// changed.
    #[inline]
    pub fn prepare(&mut self, table: usize, key: &Key, keys: usize) -> Result<(), NoMemory>
        ensures filters { self.new.filters ≡ self.old.filters }
        ensures ok { OnOk result (IsReady table key.now self.new) }
    {
        if self.is_sure(table) && key.is_short() {
            return Ok(());
        }
        self.prepare_room(table, key, keys)
    }

    /// Whether a touch of a key is sure, as `prepare` makes it.
    #[inline(always)]
    pub fn is_ready(&self, table: usize, key: &Key) -> bool
        ensures yes { IsTrue result → IsReady table key.now self.now }
        ensures no { IsFalse result → ¬ (IsReady table key.now self.now) }
    {
        self.is_sure(table) && (key.is_short() || self.has_copies(key))
    }

    /// Whether a filter may have a verdict on a key: it is sure that none has where this is false.
    /// Reads no value, and searches for no key.
    #[inline(always)]
    pub fn may_hold(&self, key: &Key) -> bool
        ensures { result ≡ false → HaveNone key.now self.now.filters }
    {
        let hash = key.hash_of();
        for watch in self.watches.as_slice() {
            if watch.may_have(hash) {
                return true;
            }
        }
        false
    }

    /// Judges a key by each filter of its table, by its values at a moment, in ms. After `NoMemory`
    /// no verdict has changed, and no read was counted. It doesn't come where the key is ready, or
    /// has no live row; whether it has one is asked only where room is refused. Reads at most 505
    /// values for each filter of its table where they stay from 2^33 ms on, and counts them. The
    /// flips tell where it came into a set or left it.
    pub fn touch<V: Values>(
        &mut self,
        table: usize,
        key: &Key,
        values: &V,
        now: u64,
        meter: &mut Meter,
        flips: &mut Flips,
    ) -> Result<(), NoMemory>
        ensures ok { OnOk result (AreTouched (V.summed values.now) (V.living values.now) table
            key.now now self.old.filters self.new.filters) }
        ensures err { OnErr result (self.new.filters ≡ self.old.filters) }
        ensures ready { IsReady table key.now self.old → IsOk result }
        ensures dead { V.living values.now table key.now now ≡ 0 → IsOk result }
        ensures counted { IsFlatSoon now (V.flat values.now table key.now)
            → meter.new.evals ≤ meter.old.evals + 505 * filters_of table self.old.filters }
        ensures flips { OnOk result (TellsIfKnown (holding self.old.filters)
            (holding self.new.filters) flips.old flips.new) }
        ensures flips_err { OnErr result (flips.new ≡ flips.old) }
        ensures unread { OnErr result (meter.new.evals ≡ meter.old.evals) }
    {
        self.touch_near(None, table, key, values, now, meter, flips)
    }

    /// What `touch` does and answers, whatever the hint: a place where the verdict on the key may
    /// lie, of each filter. One that is right saves the search. Where keys come in the order in
    /// which the rows of keys come, that is the place of the rows.
    pub fn touch_near<V: Values>(
        &mut self,
        hint: Option<usize>,
        table: usize,
        key: &Key,
        values: &V,
        now: u64,
        meter: &mut Meter,
        flips: &mut Flips,
    ) -> Result<(), NoMemory>
        ensures ok { OnOk result (AreTouched (V.summed values.now) (V.living values.now) table
            key.now now self.old.filters self.new.filters) }
        ensures err { OnErr result (self.new.filters ≡ self.old.filters) }
        ensures ready { IsReady table key.now self.old → IsOk result }
        ensures dead { V.living values.now table key.now now ≡ 0 → IsOk result }
        ensures counted { IsFlatSoon now (V.flat values.now table key.now)
            → meter.new.evals ≤ meter.old.evals + 505 * filters_of table self.old.filters }
        ensures flips { OnOk result (TellsIfKnown (holding self.old.filters)
            (holding self.new.filters) flips.old flips.new) }
        ensures flips_err { OnErr result (flips.new ≡ flips.old) }
        ensures unread { OnErr result (meter.new.evals ≡ meter.old.evals) }
    {
        if self.is_ready(table, key) {
            self.judge(hint, table, key, values, now, meter, flips);
            return Ok(());
        }
        self.touch_unready(hint, table, key, values, now, meter, flips)
    }

    /// The clock goes on to a moment, in ms: judges each key whose verdict changes up to then, by
    /// its values at that moment, and no other. It is never refused: only plans and flips take
    /// memory, and they are lost where it is refused. Where no verdict changes up to then, no value
    /// is read and no memory taken. Reads at most 505 values for each filter and key of which a
    /// change has come, where they stay from 2^33 ms on, and counts them. The flips tell which came
    /// into a set and which left it.
    pub fn moment<V: Values>(
        &mut self,
        values: &V,
        t: u64,
        meter: &mut Meter,
        flips: &mut Flips,
    ) -> Result<(), NoMemory>
        ensures ok { OnOk result (AreTurned (V.summed values.now) (V.living values.now) t
            self.old.filters self.new.filters) }
        ensures sure { IsOk result }
        ensures quiet { AllByRecursion (IsQuiet t) self.old.filters
            → meter.new.evals ≡ meter.old.evals }
        ensures counted { ((table : ℕ) (key : List ℕ)
            → IsFlatSoon t (V.flat values.now table key))
            → AreReadFor t self.old.filters meter.old.evals meter.new.evals }
        ensures flips { OnOk result (TellsIfKnown (holding self.old.filters)
            (holding self.new.filters) flips.old flips.new) }
    {
        self.sure = 0;
        self.is_copied = false;
        turn_each(self.watches.as_mut_slice(), 0, values, t, meter, flips);
        Ok(())
    }

    /// Keys of a table have no row any more: no filter of the table holds one of them, nor will by
    /// the clock alone. Reads no value, and takes no memory but for flips, which tell which of them
    /// were held.
    pub fn forget(&mut self, table: usize, keys: &[Key], flips: &mut Flips)
        ensures forgotten { AreForgotten table (is_among keys.now) self.old.filters
            self.new.filters }
        ensures flips { TellsIfKnown (holding self.old.filters) (holding self.new.filters)
            flips.old flips.new }
    {
        self.sure = 0;
        self.is_copied = false;
        forget_each(self.watches.as_mut_slice(), 0, table, keys, flips);
    }

    /// No key of a table has a row any more: no filter of the table holds one, nor will by the
    /// clock alone. Reads no value and takes no memory, so which were held isn't told.
    pub fn clear_table(&mut self, table: usize)
        ensures { AreForgotten table (λ key. true) self.old.filters self.new.filters }
    {
        self.sure = 0;
        self.is_copied = false;
        clear_each(self.watches.as_mut_slice(), table);
    }

    /// A filter that is to be added: it holds no key, and judges those that have rows before it is
    /// added. These are so many keys, at most: room is made for a verdict on each. After `NoMemory`
    /// there is none.
    pub fn begin(&self, filter: &Filter, keys: usize) -> Result<Adding, NoMemory>
        requires few { length filter.now.conds ≤ MOST_CONDS }
        ensures { IfOk result (λ adding. adding ≡ unheld filter.now) }
    {
        Adding::new(self.alloc, filter, keys)
    }

    /// Adds a filter behind the others, with its verdicts. After `NoMemory` nothing has changed.
    pub fn add(&mut self, adding: Adding) -> Result<(), NoMemory>
        ensures ok { OnOk result (self.new.filters ≡ self.old.filters ++ adding ∷ []) }
        ensures err { OnErr result (self.new.filters ≡ self.old.filters) }
    {
        self.sure = 0;
        self.is_copied = false;
        self.watches.push(adding.into_watch())?;
        Ok(())
    }

    /// Takes a filter and its verdicts away; those behind it move up by one. Takes no memory.
    pub fn remove(&mut self, filter: usize)
        requires { filter < length self.old.filters }
        ensures { self.new.filters ≡ remove self.old.filters filter }
    {
        self.sure = 0;
        self.is_copied = false;
        let _gone = self.watches.remove(filter);
    }

    /// The keys that a filter holds, in order.
    pub fn keys(&self, filter: usize) -> Keys<'_>
        requires { filter < length self.now.filters }
        ensures held { result ≡ keys_held (verdicts_of self.now filter) }
        ensures ordered { IsStrictlySortedBy (slice_cmp nat_cmp)
            (keys_held (verdicts_of self.now filter)) }
        ensures exact { (key : List ℕ)
            → list_any (is_at (slice_cmp nat_cmp key)) (keys_held (verdicts_of self.now filter))
            ≡ (verdict_at (verdicts_of self.now filter) key).holds }
    {
        self.watches[filter].keys()
    }

    /// The first moment, in ms, at which a filter comes to hold a key or no longer holds one, if
    /// only the clock goes on; none where it never does.
    pub fn next_change(&self, filter: usize) -> Option<u64>
        requires { filter < length self.now.filters }
        ensures { IsFirstChange (verdicts_of self.now filter) result }
    {
        self.watches[filter].next_change()
    }

    /// The planned changes of a filter: when, in ms, if only the clock goes on, it comes to hold a
    /// key or no longer holds one, in the order of the keys.
    pub fn planned(&self, filter: usize) -> Planned<'_>
        requires { filter < length self.now.filters }
        ensures exact { IsPlanOf (verdicts_of self.now filter) result }
        ensures ordered { IsStrictlySortedBy (slice_cmp nat_cmp) (map (λ e. e.1) result) }
    {
        self.watches[filter].planned()
    }

    /// A moment up to `t` by which `moment` judges few keys for each filter: at most so many, or
    /// those of a single moment. Takes no memory.
    ///
    /// Who goes on in portions asks for the next one's moment. No clause counts them.
    pub fn few_by(&self, t: u64, most: usize) -> u64
        ensures { result ≤ t }
    {
        let mut by = t;
        for watch in self.watches.as_slice() {
            by = watch.few_by(by, most);
        }
        by
    }

    /// How many filters there are.
    pub fn len(&self) -> usize
        ensures { result ≡ length self.now.filters }
    {
        self.watches.len()
    }

    /// Whether there is no filter.
    pub fn is_empty(&self) -> bool
        ensures { result ≡ (length self.now.filters == 0) }
    {
        self.watches.is_empty()
    }
}

impl Standing {
    // What `prepare` does where it has to look at the filters, or to copy the key.
    #[cold]
    #[inline(never)]
    fn prepare_room(&mut self, table: usize, key: &Key, keys: usize) -> Result<(), NoMemory>
        ensures filters { self.new.filters ≡ self.old.filters }
        ensures ok { OnOk result (IsReady table key.now self.new) }
    {
        self.sure = 0;
        self.is_copied = false;
        self.table = table;
        let reserved = reserve_each(self.watches.as_mut_slice(), table, keys)?;
        if key.is_short() {
            self.sure = reserved.sure;
            return Ok(());
        }
        make_copies(&mut self.copies, self.alloc, key, reserved.filters)?;
        self.sure = reserved.sure;
        self.is_copied = true;
        Ok(())
    }

    // Whether there is room for a judgement of a table's key.
    #[inline(always)]
    fn is_sure(&self, table: usize) -> bool
        ensures yes { IsTrue result → self.now.ready ≡ Some table }
        ensures no { IsFalse result → self.now.ready ≢ Some table }
    {
        self.sure > 0 && self.table == table
    }

    // Whether there are copies of a key.
    #[inline(always)]
    fn has_copies(&self, key: &Key) -> bool
        ensures yes { IsTrue result → self.now.copied ≡ Some key.now }
        ensures no { IsFalse result → self.now.copied ≢ Some key.now }
    {
        self.is_copied && is_first(self.copies.as_slice(), key)
    }

    // What `touch_near` does of a key that isn't ready.
    #[cold]
    #[inline(never)]
    fn touch_unready<V: Values>(
        &mut self,
        hint: Option<usize>,
        table: usize,
        key: &Key,
        values: &V,
        now: u64,
        meter: &mut Meter,
        flips: &mut Flips,
    ) -> Result<(), NoMemory>
        ensures ok { OnOk result (AreTouched (V.summed values.now) (V.living values.now) table
            key.now now self.old.filters self.new.filters) }
        ensures err { OnErr result (self.new.filters ≡ self.old.filters) }
        ensures dead { V.living values.now table key.now now ≡ 0 → IsOk result }
        ensures counted { IsFlatSoon now (V.flat values.now table key.now)
            → meter.new.evals ≤ meter.old.evals + 505 * filters_of table self.old.filters }
        ensures flips { OnOk result (TellsIfKnown (holding self.old.filters)
            (holding self.new.filters) flips.old flips.new) }
        ensures flips_err { OnErr result (flips.new ≡ flips.old) }
        ensures unread { OnErr result (meter.new.evals ≡ meter.old.evals) }
    {
        if self.prepare(table, key, 0).is_ok() || values.are_fewer(table, key, now, 1) {
            self.judge(hint, table, key, values, now, meter, flips);
            return Ok(());
        }
        Err(NoMemory)
    }

    // Judges a key that is ready, or that has no live row.
    #[inline(always)]
    fn judge<V: Values>(
        &mut self,
        hint: Option<usize>,
        table: usize,
        key: &Key,
        values: &V,
        now: u64,
        meter: &mut Meter,
        flips: &mut Flips,
    )
        requires sure { IsReady table key.now self.old
            ⊎ (V.living values.now table key.now now ≡ 0) }
        ensures touched { AreTouched (V.summed values.now) (V.living values.now) table key.now now
            self.old.filters self.new.filters }
        ensures counted { IsFlatSoon now (V.flat values.now table key.now)
            → meter.new.evals ≤ meter.old.evals + 505 * filters_of table self.old.filters }
        ensures flips { TellsIfKnown (holding self.old.filters) (holding self.new.filters)
            flips.old flips.new }
    {
        self.sure = self.sure.saturating_sub(1);
        self.is_copied = false;
        touch_each(
            self.watches.as_mut_slice(),
            0,
            hint,
            table,
            key,
            &mut self.copies,
            values,
            now,
            meter,
            flips,
        );
    }
}

// Whether a key is the first of some.
#[inline]
fn is_first(copies: &[Key], key: &Key) -> bool
    ensures { 0 < length copies.now
        → result ≡ is_at (slice_cmp nat_cmp key.now) (unwrap_or (slice_get copies.now 0) []) }
{
    match copies {
        [] => false,
        [copy, ..] => *key == *copy,
    }
}
