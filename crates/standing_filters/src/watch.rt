//! One standing filter: the verdicts on its keys, and plans of when they change.

ghost use Rattle.std.specs.Prelude.{ℕ, List, ◌≡◌, ◌≢◌, ◌≤◌, ◌<◌, ◌+◌, ◌==◌, ◌⊎◌, [], length};
ghost use Rattle.std.specs.Prelude.{slice_set};
ghost use Rattle.std.specs.Prelude.{if◌then◌else◌, is_some, map, IfNone, IfSome, IsSome, IsOk};
ghost use Rattle.std.specs.Prelude.{IfOk, OnOk, OnErr};
ghost use Rattle.std.specs.Prelude.{MatchBool, None, Some, false, true, unwrap_or};
ghost use Rattle.std.specs.List.{list_any};
ghost use Rattle.std.specs.List.Sorted.{IsStrictlySortedBy};
ghost use Rattle.std.specs.BTreeMap.{is_at};
ghost use Rattle.std.specs.Cmp.Lexicographic.{slice_cmp};
ghost use Rattle.std.specs.Map.{keys_of};
ghost use Rattle.std.specs.Ordering.{nat_cmp};
ghost use Rattle.agg_types.specs.Key.{is_short};
ghost use Rattle.agg_types.specs.declared.limits.TheConstants.{MOST_CONDS};
ghost use Rattle.crossing.specs.First.{IsFlatSoon};
ghost use Rattle.place_index.specs.Hash.{hash_of_bytes};
ghost use Rattle.place_index.specs.Places.{item_at, key_at};
ghost use Rattle.standing_filters.specs.Flips.{TellsAt};
ghost use Rattle.standing_filters.specs.Placed.{IsSetAt, change_in, verdict_in};
ghost use Rattle.standing_filters.specs.Ready.{AreCopies};
ghost use Rattle.standing_filters.specs.Turns.{IsQuiet, IsReadFor, IsTurned, is_due};
ghost use Rattle.standing_filters.specs.Verdicts.{IsVerdict, out};
ghost use Rattle.standing_filters.specs.Watched.{IsFirstChange, IsTouched, keys_held, unheld};
ghost use Rattle.standing_filters.specs.Watched.{verdict_at};
ghost use Rattle.standing_filters.specs.Plans.{Becomes, IsPlanOf, IsWatch, IsWatchBut};
ghost use Rattle.standing_filters.specs.Plans.{kept_at, kept_by, view_of_watch};

use crate::flips::Flips;
use crate::judging::{OUT, Verdict, judge};
use crate::kept::KeptVerdicts;
use crate::keys::Keys;
use crate::planned::Planned;
use crate::plans::ChangePlans;
use agg_types::{Filter, Key, NoMemory};
use crossing::{Meter, Values};
use std::alloc::Global;
use std::marker::Model;

/// A standing filter with the verdicts on its keys.
///
/// `reserve` makes room for verdicts. No other call takes memory but for plans, which are lost
/// where it is refused.
#[derive(Drop)]
pub(crate) struct Watch {
    filter: Filter,
    // Those that aren't `OUT`.
    kept: KeptVerdicts,
    // When the verdict in each place changes, if it does.
    plans: ChangePlans,
}

/// Room for so many more verdicts is made than are needed.
const SPARE: usize = 1024;

/// For so many judgements at most it is looked at once whether there is room.
pub(crate) const AHEAD: usize = 64;

impl Model for Watch {
    ghost use Rattle.standing_filters.specs.Plans.{Watching};

    ghost Value = { Watching };

    ghost view = { λ w. record {
      filter = w.filter;
      places = w.kept.places;
      room = w.kept.room;
      plans = w.plans;
    } };
}

impl Watch {
    /// A standing filter that holds no key.
    pub(crate) fn new(alloc: Global, filter: Filter) -> Watch
        ensures view { view_of_watch result ≡ unheld filter }
        ensures stay { length filter.conds ≤ MOST_CONDS → IsWatch result }
    {
        Watch {
            filter,
            kept: KeptVerdicts::new(alloc),
            plans: ChangePlans::new(alloc),
        }
    }

    /// Whether the filter is one of a table.
    #[inline]
    pub(crate) fn is_of(&self, table: usize) -> bool
        ensures { result ≡ (self.now.filter.table == table) }
    {
        self.filter.table == table
    }

    /// The keys that the filter holds, in order.
    pub(crate) fn keys(&self) -> Keys<'_>
        ensures held { result ≡ keys_held (kept_by self.now) }
        ensures ordered { IsStrictlySortedBy (slice_cmp nat_cmp) (keys_held (kept_by self.now)) }
        ensures exact { (key : List ℕ)
            → list_any (is_at (slice_cmp nat_cmp key)) (keys_held (kept_by self.now))
            ≡ (verdict_at (kept_by self.now) key).holds }
    {
        self.kept.keys()
    }

    /// The first moment at which a verdict on a key changes.
    pub(crate) fn next_change(&self) -> Option<u64>
        requires { IsWatch self.now }
        ensures { IsFirstChange (kept_by self.now) result }
    {
        if self.plans.is_lost() {
            return self.kept.first_change();
        }
        self.plans.next_at()
    }

    /// A moment up to `t` by which few verdicts change: so many, or those of one moment.
    pub(crate) fn few_by(&self, t: u64, most: usize) -> u64
        ensures { result ≤ t }
    {
        self.plans.few_by(t, most)
    }

    /// The keys whose verdicts change, in order, each with that moment.
    pub(crate) fn planned(&self) -> Planned<'_>
        ensures exact { IsPlanOf (kept_by self.now) result }
        ensures ordered { IsStrictlySortedBy (slice_cmp nat_cmp) (map (λ e. e.1) result) }
    {
        self.kept.planned()
    }

    /// Whether a verdict may be kept on a key of a hash: it is sure that none is where this is
    /// false.
    #[inline(always)]
    pub(crate) fn may_have(&self, hash: u32) -> bool
        ensures { result ≡ false → (key : List ℕ) → hash_of_bytes key ≡ hash
            → verdict_at (kept_by self.now) key ≡ out }
    {
        self.kept.may_have(hash)
    }

    /// Judges a key by its values at a moment.
    #[inline(always)]
    pub(crate) fn judge<V: Values>(
        &self,
        key: &Key,
        values: &V,
        now: u64,
        meter: &mut Meter,
    ) -> Verdict
        requires few { length self.now.filter.conds ≤ MOST_CONDS }
        ensures verdict { IsVerdict (V.summed values.now) (V.living values.now) self.now.filter now
            key.now result }
        ensures counted { IsFlatSoon now (V.flat values.now self.now.filter.table key.now)
            → meter.new.evals ≤ meter.old.evals + 505 }
        ensures dead { V.living values.now self.now.filter.table key.now now ≡ 0 → result ≡ out }
    {
        judge(&self.filter, key, values, now, meter)
    }

    /// Makes room for one more verdict, and for so many in all, with some to spare. After
    /// `NoMemory` no verdict has changed.
    ///
    /// Until room is looked at again, up to `AHEAD` keys may come that weren't counted. So there is
    /// room for these too: at any time, for a verdict on each key of the table.
    #[inline]
    pub(crate) fn reserve(&mut self, keys: usize) -> Result<(), NoMemory>
        requires { IsWatch self.old }
        ensures filter { self.new.filter ≡ self.old.filter }
        ensures places { self.new.places ≡ self.old.places }
        ensures stay { IsWatch self.new }
        ensures ok { OnOk result (0 < self.new.room) }
        ensures room { self.old.room ≤ self.new.room }
    {
        let more = keys.saturating_sub(self.kept.count()).saturating_add(AHEAD);
        if more <= self.kept.room() {
            return Ok(());
        }
        self.kept.reserve(more.saturating_add(SPARE))
    }

    /// For how many further verdicts there is room.
    #[inline]
    pub(crate) fn room(&self) -> usize
        ensures { result ≡ self.now.room }
    {
        self.kept.room()
    }

    /// Keeps a verdict on a key, and plans its change. Answers whether the key was held before.
    /// Where the key has no verdict yet, it takes room for one and a copy of the key: a short one's
    /// own. No search of the keys in order, where one is kept already. No answer depends on the
    /// hint.
    #[inline(always)]
    pub(crate) fn change(
        &mut self,
        hint: Option<usize>,
        key: &Key,
        copies: &mut Vec<Key>,
        verdict: Verdict,
    ) -> bool
        requires watch { IsWatch self.old }
        requires room { verdict ≢ out → (0 < self.old.room)
            × ((is_short key.now ≡ true) ⊎ AreCopies key.now 1 copies.old.items) }
        ensures filter { self.new.filter ≡ self.old.filter }
        ensures stay { IsWatch self.new }
        ensures kept { Becomes key.now verdict (kept_by self.old) (kept_by self.new) }
        ensures was { result ≡ (verdict_at (kept_by self.old) key.now).holds }
        ensures copies { (more : ℕ) → AreCopies key.now (more + 1) copies.old.items
            → AreCopies key.now more copies.new.items }
        ensures room_left { self.old.room ≤ self.new.room + 1 }
    {
        if verdict.is_out() {
            return self.forget(hint, key);
        }
        let Some((at, old)) = self.kept.find_near(hint, key) else {
            if let Some(copy) = copy_of(key, copies) {
                self.enter(copy, verdict);
            }
            return false;
        };
        if old != verdict {
            self.put(at, verdict);
        }
        old.holds
    }

    /// Keeps no verdict on a key, so that it is `OUT`. Answers whether it was held before. No
    /// answer depends on the hint.
    #[inline(always)]
    pub(crate) fn forget(&mut self, hint: Option<usize>, key: &Key) -> bool
        requires { IsWatch self.old }
        ensures filter { self.new.filter ≡ self.old.filter }
        ensures stay { IsWatch self.new }
        ensures was { result ≡ (verdict_at (kept_by self.old) key.now).holds }
        ensures kept { Becomes key.now out (kept_by self.old) (kept_by self.new) }
        ensures room_left { self.new.room ≡ self.old.room }
    {
        let Some((at, old)) = self.kept.find_near(hint, key) else {
            return false;
        };
        self.take_out(at);
        old.holds
    }

    /// Keeps no verdict on any key, so that each is `OUT`. Takes no memory.
    pub(crate) fn clear(&mut self)
        requires { IsWatch self.old }
        ensures filter { self.new.filter ≡ self.old.filter }
        ensures stay { IsWatch self.new }
        ensures places { self.new.places ≡ [] }
    {
        self.kept.clear();
        self.plans.begin();
    }
}

impl Watch {
    /// Judges each key whose verdict changes up to a moment, by its values then, and notes which
    /// come into the set and which leave it. Takes no memory but for flips and plans.
    pub(crate) fn turn<V: Values>(
        &mut self,
        values: &V,
        t: u64,
        meter: &mut Meter,
        place: usize,
        flips: &mut Flips,
    )
        requires { IsWatch self.old }
        ensures stay { IsWatch self.new }
        ensures turned { IsTurned (V.summed values.now) (V.living values.now) t
            (view_of_watch self.old) (view_of_watch self.new) }
        ensures quiet { IsQuiet t (view_of_watch self.old) → meter.new.evals ≡ meter.old.evals }
        ensures counted { ((table : ℕ) (key : List ℕ)
            → IsFlatSoon t (V.flat values.now table key))
            → IsReadFor t (view_of_watch self.old) meter.old.evals meter.new.evals }
        ensures flips { flips.new.lost ≡ false → TellsAt place
            (λ key. (verdict_at (kept_by self.old) key).holds)
            (λ key. (verdict_at (kept_by self.new) key).holds) flips.old flips.new }
    {
        while let Some(at) = self.take_due(t) {
            self.turn_place(at, values, t, meter, place, flips);
        }
        if !self.is_lost() {
            return;
        }
        let count = self.places();
        let mut is_turned = false;
        for other in 0..count {
            if !self.is_due(other, t) {
                continue;
            }
            self.turn_place(other, values, t, meter, place, flips);
            is_turned = true;
        }
        if !is_turned {
            return;
        }
        self.plan_all();
    }

    // Judges the key in a place by its values at a moment, up to which its verdict was to change.
    fn turn_place<V: Values>(
        &mut self,
        at: usize,
        values: &V,
        t: u64,
        meter: &mut Meter,
        place: usize,
        flips: &mut Flips,
    )
        requires watch { IsWatchBut at self.old }
        requires due { is_due t (verdict_in self.old.places at) ≡ true }
        ensures stay { IsWatch self.new }
        ensures set { IsSetAt at self.old.places self.new.places }
        ensures turned { is_due t (verdict_in self.new.places at) ≡ false }
        ensures touched { (key : List ℕ) → key_at self.old.places at ≡ Some key
            → IsTouched (V.summed values.now) (V.living values.now) self.old.filter.table key t
            (view_of_watch self.old) (view_of_watch self.new) }
        ensures counted { ((table : ℕ) (key : List ℕ)
            → IsFlatSoon t (V.flat values.now table key))
            → meter.new.evals ≤ meter.old.evals + 505 }
        ensures flips { flips.new.lost ≡ false → TellsAt place
            (λ key. (verdict_at (kept_by self.old) key).holds)
            (λ key. (verdict_at (kept_by self.new) key).holds) flips.old flips.new }
    {
        let Some(key) = self.kept.key(at) else {
            return;
        };
        let verdict = judge(&self.filter, key, values, t, meter);
        flips.note(place, key, held_by(self.kept.verdict(at)), verdict.holds);
        self.put(at, verdict);
    }

    // Takes the plan of a place away whose verdict changes up to a moment, and answers the place.
    fn take_due(&mut self, t: u64) -> Option<usize>
        requires { IsWatch self.old }
        ensures filter { self.new.filter ≡ self.old.filter }
        ensures places { self.new.places ≡ self.old.places }
        ensures watch { IfSome result (λ at. IsWatchBut at self.new) }
        ensures due { IfSome result (λ at. is_due t (verdict_in self.new.places at) ≡ true) }
        ensures stay { IfNone result (IsWatch self.new) }
        ensures none { IfNone result (self.new.plans.lost ≡ false
            → (p : ℕ) → is_due t (verdict_in self.new.places p) ≡ false) }
    {
        self.plans.take_due(t)
    }

    // Whether the plans are lost.
    fn is_lost(&self) -> bool
        ensures { result ≡ self.now.plans.lost }
    {
        self.plans.is_lost()
    }

    // How many places there are.
    fn places(&self) -> usize
        ensures { result ≡ length self.now.places }
    {
        self.kept.places()
    }

    // Whether the verdict in a place changes up to a moment.
    fn is_due(&self, at: usize, t: u64) -> bool
        ensures { result ≡ is_due t (verdict_in self.now.places at) }
    {
        match self.kept.change_at(at) {
            Some(moment) => moment <= t,
            None => false,
        }
    }

    // Plans the changes of all verdicts anew. Where memory is refused the plans are lost.
    fn plan_all(&mut self)
        requires { IsWatch self.old }
        ensures filter { self.new.filter ≡ self.old.filter }
        ensures places { self.new.places ≡ self.old.places }
        ensures stay { IsWatch self.new }
    {
        self.plans.begin();
        for at in 0..self.kept.places() {
            self.plans.plan(at, self.kept.change_at(at));
        }
    }

    // Puts a verdict on a key in that has none, and plans its change.
    fn enter(&mut self, key: Key, verdict: Verdict)
        requires watch { IsWatch self.old }
        requires none { kept_at (kept_by self.old) key ≡ None }
        requires room { 0 < self.old.room }
        ensures filter { self.new.filter ≡ self.old.filter }
        ensures stay { IsWatch self.new }
        ensures becomes { Becomes key verdict (kept_by self.old) (kept_by self.new) }
        ensures room_left { self.old.room ≤ self.new.room + 1 }
    {
        let at = self.kept.insert(key, verdict);
        self.plans.plan(at, verdict.next);
    }

    // Puts a verdict in the stead of the one in a place, and plans its change.
    fn put(&mut self, at: usize, verdict: Verdict)
        requires watch { IsWatchBut at self.old }
        requires there { IsSome (item_at self.old.places at) }
        ensures filter { self.new.filter ≡ self.old.filter }
        ensures stay { IsWatch self.new }
        ensures set { IsSetAt at self.old.places self.new.places }
        ensures own { verdict_in self.new.places at ≡ verdict }
        ensures becomes { (key : List ℕ) → key_at self.old.places at ≡ Some key
            → Becomes key verdict (kept_by self.old) (kept_by self.new) }
        ensures room_left { self.new.room ≡ self.old.room }
    {
        if verdict.is_out() {
            self.take_out(at);
            return;
        }
        self.kept.replace(at, verdict);
        self.plans.plan(at, verdict.next);
    }

    // Takes the verdict in a place out.
    fn take_out(&mut self, at: usize)
        requires { IsWatchBut at self.old }
        ensures filter { self.new.filter ≡ self.old.filter }
        ensures stay { IsWatch self.new }
        ensures after { self.new.places ≡ slice_set self.old.places at None }
        ensures becomes { (key : List ℕ) → key_at self.old.places at ≡ Some key
            → Becomes key out (kept_by self.old) (kept_by self.new) }
        ensures room_left { self.new.room ≡ self.old.room }
    {
        self.kept.remove(at);
        self.plans.plan(at, None);
    }
}

/// Whether a verdict that may be kept says that its key is held.
pub(crate) fn held_by(verdict: Option<Verdict>) -> bool
    ensures { result ≡ (unwrap_or verdict out).holds }
{
    verdict.is_some_and(|verdict| verdict.holds)
}

// A copy of a key, which takes no memory: its own where it is short, and else the last of some.
#[inline(always)]
fn copy_of(key: &Key, copies: &mut Vec<Key>) -> Option<Key>
    ensures copy { (is_short key.now ≡ true) ⊎ AreCopies key.now 1 copies.old.items
        → result ≡ Some key.now }
    ensures copies { (more : ℕ) → AreCopies key.now (more + 1) copies.old.items
        → AreCopies key.now more copies.new.items }
{
    match key.short_copy() {
        Some(copy) => Some(copy),
        None => copies.pop(),
    }
}
