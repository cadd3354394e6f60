ghost use Rattle.std.specs.Prelude.{◌≡◌, ◌≢◌, ◌<◌, ◌≤◌, ◌+◌, ◌++◌, ℕ, [], ◌∷◌, Some, None};
ghost use Rattle.std.specs.Prelude.{true, false, length, IfOk};
ghost use Rattle.std.specs.Prelude.{slice_get, IfSome, IfNone, OnOk, OnErr, count_by, is_some};
ghost use Rattle.std.specs.List.{swap_remove};
ghost use Rattle.place_plans.specs.Forms.{Fits, links_of, room_of};
ghost use Rattle.place_plans.specs.Links.{IsLinked, link_in, mended, moments_of, places_at};
ghost use Rattle.place_plans.specs.Plans.{cancelled, is_due, padded, plan_at, planned};

use crate::all_links::Links;
use crate::buckets::Buckets;
use agg_types::NoMemory;
use std::alloc::Global;
use std::marker::Model;

/// Places each with a planned moment, or with none.
///
/// Contracts see the list of the places' moments. A place beyond the last has none.
pub struct PlacePlans {
    links: Links,
    buckets: Buckets,
    // How many places have a plan.
    count: usize,
}

// By hand, so that what drops it elsewhere proves nothing of its parts.
impl Drop for PlacePlans {
    fn drop(self) {
        let PlacePlans {
            links: _,
            buckets: _,
            count: _,
        } = self;
    }
}

impl Model for PlacePlans {
    ghost use Rattle.std.specs.Prelude.{List, Option, ℕ, ◌≡◌, count_by, is_some};
    ghost use Rattle.place_plans.specs.Forms.{Fits, links_of, room_of};
    ghost use Rattle.place_plans.specs.Links.{IsLinked, moments_of};

    ghost Value = { List (Option ℕ) };

    ghost view = { λ p. moments_of (links_of p.links) };

    ghost invariant = { λ p. IsLinked (links_of p.links) p.buckets
        × (p.count ≡ count_by is_some (moments_of (links_of p.links))) };
}

impl PlacePlans {
    /// No place has a plan. Takes no memory.
    pub fn new(alloc: Global) -> PlacePlans
        ensures { result ≡ [] }
    {
        PlacePlans {
            links: Links::new(alloc),
            buckets: Buckets::new(alloc),
            count: 0,
        }
    }

    /// The moment that is planned for a place.
    #[inline]
    pub fn at(&self, place: usize) -> Option<u64>
        ensures { result ≡ plan_at self.now place }
    {
        let (moment, _) = self.links.get(place)?;
        Some(moment)
    }

    /// How many places have a plan.
    pub fn count(&self) -> usize
        ensures { result ≡ count_by is_some self.now }
    {
        self.count
    }

    /// Plans a moment for a place, in the stead of the one before. After `NoMemory` nothing has
    /// changed.
    pub fn plan(&mut self, place: usize, at: u64) -> Result<(), NoMemory>
        ensures ok { OnOk result (self.new ≡ planned self.old place at) }
        ensures err { OnErr result (self.new ≡ self.old) }
    {
        if place >= u32::MAX as usize {
            return Err(NoMemory);
        }
        let _places = self.links.len();
        let before = self.links.get(place);
        match before {
            Some(link) if link.0 == at => Ok(()),
            Some(link) => move_plan(&mut self.links, &mut self.buckets, place, link, at),
            None => {
                add_plan(&mut self.links, &mut self.buckets, place, at)?;
                self.count += 1;
                Ok(())
            }
        }
    }

    /// Takes the plan of a place away, if it has one. Takes no memory.
    pub fn cancel(&mut self, place: usize)
        ensures { self.new ≡ cancelled self.old place }
    {
        let Some(link) = self.links.get(place) else {
            return;
        };
        drop_plan(&mut self.links, &mut self.buckets, place, link);
        self.count -= 1;
    }

    /// The least moment that is planned; none where no place has a plan.
    pub fn next_at(&self) -> Option<u64>
        ensures some { IfSome result (λ at. (place : ℕ) × (plan_at self.now place ≡ Some at)) }
        ensures least { IfSome result
            (λ at. (place u : ℕ) → plan_at self.now place ≡ Some u → at ≤ u) }
        ensures none { IfNone result ((place : ℕ) → plan_at self.now place ≡ None) }
    {
        next_planned(&self.links, &self.buckets)
    }

    /// A moment up to `t`: the last by which at most so many places are due, or the least that is
    /// planned where that one alone has more. Nothing else is promised of it.
    ///
    /// Who takes what is due in portions asks for the next one's moment.
    pub fn few_by(&self, t: u64, most: usize) -> u64
        ensures { result ≤ t }
    {
        self.buckets.few_by(t, most)
    }

    /// Places that `take_due` answers next, from the last of these on. Nothing is promised of them.
    ///
    /// Who looks at several places asks for these first, so that the waits for memory overlap.
    pub fn due(&self, t: u64) -> &[u32] {
        self.buckets.due(t)
    }

    /// Takes the plan of a place away whose moment is at most `t`, one of the least, and answers
    /// the place. None says that there is no such place. Takes no memory.
    pub fn take_due(&mut self, t: u64) -> Option<usize>
        ensures due { IfSome result (λ place. is_due t (plan_at self.old place) ≡ true) }
        ensures after { IfSome result (λ place. self.new ≡ cancelled self.old place) }
        ensures none { IfNone result ((place : ℕ) → is_due t (plan_at self.old place) ≡ false) }
        ensures same { IfNone result (self.new ≡ self.old) }
    {
        let place = first_due(&self.links, &self.buckets, t)?;
        self.cancel(place);
        Some(place)
    }
}

// A place whose moment is at most `t`, of the least moment.
fn first_due(links: &Links, buckets: &Buckets, t: u64) -> Option<usize>
    requires { IsLinked (links_of links.now) buckets.now }
    ensures due { IfSome result
        (λ place. is_due t (plan_at (moments_of (links_of links.now)) place) ≡ true) }
    ensures none { IfNone result ((place : ℕ)
        → is_due t (plan_at (moments_of (links_of links.now)) place) ≡ false) }
{
    match buckets.first() {
        Some((at, place)) if at <= t => Some(place as usize),
        _ => None,
    }
}

// The least moment that is planned.
fn next_planned(links: &Links, buckets: &Buckets) -> Option<u64>
    requires { IsLinked (links_of links.now) buckets.now }
    ensures some { IfSome result
        (λ at. (place : ℕ) × (plan_at (moments_of (links_of links.now)) place ≡ Some at)) }
    ensures least { IfSome result (λ at. (place u : ℕ)
        → plan_at (moments_of (links_of links.now)) place ≡ Some u → at ≤ u) }
    ensures none { IfNone result
        ((place : ℕ) → plan_at (moments_of (links_of links.now)) place ≡ None) }
{
    let _places = links.len();
    let (at, _place) = buckets.first()?;
    Some(at)
}

// Takes the stand of a place out of its bucket. The place that gets it is told.
fn leave(links: &mut Links, buckets: &mut Buckets, link: (u64, u32))
    requires within { link.1 < length (places_at buckets.old link.0) }
    requires fits { Fits links.old link }
    ensures own { places_at buckets.new link.0
        ≡ swap_remove (places_at buckets.old link.0) link.1 0 }
    ensures others { (m : ℕ) → m ≢ link.0
        → places_at buckets.new m ≡ places_at buckets.old m }
    ensures links { (links_of links.new)
        ≡ mended (links_of links.old) (slice_get (places_at buckets.new link.0) link.1) link }
    ensures fits { (l : ℕ × ℕ) → Fits links.old l → Fits links.new l }
{
    if let Some(moved) = buckets.remove(link.0, link.1) {
        links.tell(moved as usize, link);
    }
}

// Takes the plan of a place away.
fn drop_plan(links: &mut Links, buckets: &mut Buckets, place: usize, link: (u64, u32))
    requires linked { IsLinked (links_of links.old) buckets.old }
    requires link { link_in (links_of links.old) place ≡ Some link }
    requires fits { Fits links.old link }
    ensures linked { IsLinked (links_of links.new) buckets.new }
    ensures after { moments_of (links_of links.new)
        ≡ cancelled (moments_of (links_of links.old)) place }
{
    leave(links, buckets, link);
    links.clear(place);
}

// Takes the memory of the links up to a place.
fn make_room(links: &mut Links, place: usize) -> Result<(), NoMemory>
    requires { place < 4294967295 }
    ensures same { links_of links.new ≡ links_of links.old }
    ensures fits { (l : ℕ × ℕ) → Fits links.old l → Fits links.new l }
    ensures room { OnOk result (place + 1 ≤ length (links_of links.new) + room_of links.new) }
{
    let wanted = (place + 1).saturating_sub(links.len());
    links.reserve(wanted)
}

// Takes a number in the bucket of a moment for a place, for which a link fits then.
fn stand(links: &mut Links, buckets: &mut Buckets, place: usize, at: u64) -> Result<u32, NoMemory>
    requires { place < 4294967295 }
    ensures same { links_of links.new ≡ links_of links.old }
    ensures room { place + 1 ≤ length (links_of links.old) + room_of links.old
        → OnOk result (place + 1 ≤ length (links_of links.new) + room_of links.new) }
    ensures fits { IfOk result (λ index. Fits links.new (at, index)) }
    ensures kept { (l : ℕ × ℕ) → Fits links.old l → Fits links.new l }
    ensures index { IfOk result (λ index. index ≡ length (places_at buckets.old at)) }
    ensures own { OnOk result
        (places_at buckets.new at ≡ places_at buckets.old at ++ place ∷ []) }
    ensures others { (m : ℕ) → m ≢ at → places_at buckets.new m ≡ places_at buckets.old m }
    ensures err { OnErr result (buckets.new ≡ buckets.old) }
{
    let most = links.most(at);
    if let Ok(index) = buckets.push(at, place as u32, most) {
        return Ok(index);
    }
    if buckets.count(at) < most as usize {
        return Err(NoMemory);
    }
    links.widen(buckets.allocator())?;
    make_room(links, place)?;
    let wide = links.most(at);
    buckets.push(at, place as u32, wide)
}

// Adds links without plans up to a place.
fn grow(links: &mut Links, place: usize)
    requires small { place < 4294967295 }
    requires room { place + 1 ≤ length (links_of links.old) + room_of links.old }
    ensures items { links_of links.new ≡ padded (links_of links.old) (place + 1) }
    ensures fits { (l : ℕ × ℕ) → Fits links.old l → Fits links.new l }
{
    for _more in links.len()..place + 1 {
        links.push_none();
    }
}

// Plans a moment for a place that has none.
fn add_plan(links: &mut Links, buckets: &mut Buckets, place: usize, at: u64) -> Result<(), NoMemory>
    requires linked { IsLinked (links_of links.old) buckets.old }
    requires none { link_in (links_of links.old) place ≡ None }
    requires small { place < 4294967295 }
    ensures linked { IsLinked (links_of links.new) buckets.new }
    ensures ok { OnOk result
        (moments_of (links_of links.new) ≡ planned (moments_of (links_of links.old)) place at) }
    ensures err { OnErr result (moments_of (links_of links.new) ≡ moments_of (links_of links.old)) }
{
    make_room(links, place)?;
    let index = stand(links, buckets, place, at)?;
    grow(links, place);
    links.tell(place, (at, index));
    Ok(())
}

// Plans another moment for a place that has one.
fn move_plan(
    links: &mut Links,
    buckets: &mut Buckets,
    place: usize,
    link: (u64, u32),
    at: u64,
) -> Result<(), NoMemory>
    requires linked { IsLinked (links_of links.old) buckets.old }
    requires link { link_in (links_of links.old) place ≡ Some link }
    requires apart { link.0 ≢ at }
    requires fits { Fits links.old link }
    requires place { place < 4294967295 }
    ensures linked { IsLinked (links_of links.new) buckets.new }
    ensures ok { OnOk result
        (moments_of (links_of links.new) ≡ planned (moments_of (links_of links.old)) place at) }
    ensures err { OnErr result (moments_of (links_of links.new) ≡ moments_of (links_of links.old)) }
{
    let index = stand(links, buckets, place, at)?;
    leave(links, buckets, link);
    links.tell(place, (at, index));
    Ok(())
}
