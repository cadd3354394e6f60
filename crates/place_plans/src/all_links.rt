//! What all places know of their plans.
ghost use Rattle.std.specs.Prelude.{◌≡◌, ◌<◌, ◌≤◌, ◌+◌, ℕ, [], ◌∷◌, ◌++◌, None, Some, length};
ghost use Rattle.std.specs.Prelude.{IfOk, IfSome, OnOk, slice_set};
ghost use Rattle.place_plans.specs.Forms.{Fits, links_of, room_of};
ghost use Rattle.place_plans.specs.Links.{link_in};

use crate::link::{Link, MOMENTS, NUMBERS};
use crate::wide_link::WideLink;
use agg_types::NoMemory;
use segments::Segments;
use std::alloc::Global;

/// The links of all places: in eight bytes each, until a moment or a number comes that wants
/// twelve.
#[derive(Drop)]
pub(crate) enum Links {
    Short(Segments<Link>),
    Wide(Segments<WideLink>),
}

impl Links {
    /// No places. Takes no memory.
    pub(crate) fn new(alloc: Global) -> Links
        ensures { links_of result ≡ [] }
    {
        Links::Short(Segments::new(alloc))
    }

    /// How many places there are.
    pub(crate) fn len(&self) -> usize
        ensures { result ≡ length (links_of self.now) }
    {
        match self {
            Links::Short(links) => links.len(),
            Links::Wide(links) => links.len(),
        }
    }

    /// The moment of a place, and its number in that moment's bucket.
    #[inline]
    pub(crate) fn get(&self, place: usize) -> Option<(u64, u32)>
        ensures value { result ≡ link_in (links_of self.now) place }
        ensures fits { IfSome result (Fits self.now) }
    {
        match self {
            Links::Short(links) => short_at(links, place),
            Links::Wide(links) => wide_at(links, place),
        }
    }

    /// Below how many numbers a link to a moment fits.
    pub(crate) fn most(&self, moment: u64) -> u32
        ensures { (index : ℕ) → index < result → Fits self.now (moment, index) }
    {
        match self {
            Links::Short(_) if moment < MOMENTS => NUMBERS,
            Links::Short(_) => 0,
            Links::Wide(_) => u32::MAX,
        }
    }

    /// Tells a place its moment and its number there.
    pub(crate) fn tell(&mut self, place: usize, link: (u64, u32))
        requires { Fits self.old link }
        ensures after { links_of self.new ≡ slice_set (links_of self.old) place (Some link) }
        ensures fits { (l : ℕ × ℕ) → Fits self.old l → Fits self.new l }
    {
        match self {
            Links::Short(links) => {
                links.replace(place, Link::to(link.0, link.1));
            }
            Links::Wide(links) => {
                links.replace(place, WideLink::to(link.0, link.1));
            }
        }
    }

    /// Takes the plan of a place away.
    pub(crate) fn clear(&mut self, place: usize)
        ensures { links_of self.new ≡ slice_set (links_of self.old) place None }
    {
        match self {
            Links::Short(links) => {
                links.replace(place, Link::none());
            }
            Links::Wide(links) => {
                links.replace(place, WideLink::none());
            }
        }
    }

    /// Takes the memory of so many further places, or of none.
    pub(crate) fn reserve(&mut self, places: usize) -> Result<(), NoMemory>
        ensures same { links_of self.new ≡ links_of self.old }
        ensures ok { OnOk result (places ≤ room_of self.new) }
        ensures fits { (l : ℕ × ℕ) → Fits self.old l → Fits self.new l }
    {
        match self {
            Links::Short(links) => links.reserve(places),
            Links::Wide(links) => links.reserve(places),
        }
    }

    /// Adds a place without a plan, in memory that was taken for it.
    pub(crate) fn push_none(&mut self)
        requires { 0 < room_of self.old }
        ensures items { links_of self.new ≡ links_of self.old ++ None ∷ [] }
        ensures room { room_of self.new + 1 ≡ room_of self.old }
        ensures fits { (l : ℕ × ℕ) → Fits self.old l → Fits self.new l }
    {
        match self {
            Links::Short(links) => links.push_reserved(Link::none()),
            Links::Wide(links) => links.push_reserved(WideLink::none()),
        }
    }

    /// Has all links in twelve bytes.
    pub(crate) fn widen(&mut self, alloc: Global) -> Result<(), NoMemory>
        ensures same { links_of self.new ≡ links_of self.old }
        ensures fits { (l : ℕ × ℕ) → Fits self.old l → Fits self.new l }
    {
        if let Links::Short(links) = &*self {
            let wide = widened(links, alloc)?;
            *self = Links::Wide(wide);
        }
        Ok(())
    }
}

// The moment of a place, and its number in that moment's bucket.
#[inline]
fn short_at(links: &Segments<Link>, place: usize) -> Option<(u64, u32)>
    ensures value { result ≡ link_in links.now.items place }
    ensures moment { IfSome result (λ link. link.0 < 1099511627776) }
    ensures index { IfSome result (λ link. link.1 < 16777215) }
{
    match links.get(place) {
        Some(link) => link.get(),
        None => None,
    }
}

// The same of links in twelve bytes.
#[inline]
fn wide_at(links: &Segments<WideLink>, place: usize) -> Option<(u64, u32)>
    ensures value { result ≡ link_in links.now.items place }
    ensures small { IfSome result (λ link. link.1 < 4294967295) }
{
    match links.get(place) {
        Some(link) => link.get(),
        None => None,
    }
}

// The same links in twelve bytes.
fn widened(short: &Segments<Link>, alloc: Global) -> Result<Segments<WideLink>, NoMemory>
    ensures { IfOk result (λ wide. wide.items ≡ short.now.items) }
{
    let len = short.len();
    let mut wide = Segments::new(alloc);
    wide.reserve(len)?;
    for at in 0..len {
        let link = short_at(short, at);
        wide.push_reserved(WideLink::of(link));
    }
    Ok(wide)
}
