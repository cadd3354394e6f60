//! A list in blocks of a bounded length, none of which ever moves.
ghost use Rattle.std.specs.Prelude.{◌≡◌, ◌<◌, ◌≤◌, ◌+◌, ◌-◌, ◌*◌, ◌^◌, [], ◌∷◌, ◌++◌, length};
ghost use Rattle.std.specs.Prelude.{IfOk, IsOk, OnOk, OnErr, ℕ, IsTrue, IsFalse};
ghost use Rattle.std.specs.Prelude.{slice_get, slice_set, slice_index_or, Some};
ghost use Rattle.std.specs.Vec.{vec_len, vec_capacity};
ghost use Rattle.std.specs.Option.{option_copied};
ghost use Rattle.segments.specs.Segments.{joined, AreFull, AreComplete, AreBlank, HasRoom};
ghost use Rattle.segments.specs.Segments.{AreListed};

use agg_types::NoMemory;
use std::alloc::Global;
use std::marker::Model;
use std::mem;

/// How many items a segment has at most: those of 64 bytes fill 64 KB.
const LONGEST: usize = 1024;

/// Some items of a list, in memory that was taken for as many as a segment has at most.
#[derive(Drop)]
struct Segment<T> {
    items: Vec<T>,
}

impl<T> Model for Segment<T> {
    ghost use Rattle.std.specs.Prelude.{List, ◌≤◌};
    ghost use Rattle.std.specs.Coded.{coded_list};
    ghost use Rattle.std.specs.Vec.{vec_capacity};

    ghost Value = { List T };

    ghost coded = { coded_list T.code };

    ghost view = { λ a. a.items.items };

    ghost invariant = { λ a. 1024 ≤ vec_capacity a.items };
}

impl<T: Drop> Segment<T> {
    ghost use Rattle.std.specs.Borrow.{sem};
    ghost use Rattle.segments.specs.Lending.{lends_item};

    // No items.
    fn blank(alloc: Global) -> Result<Segment<T>, NoMemory>
        ensures { IfOk result (λ segment. segment ≡ []) }
    {
        let items = Vec::with_capacity(alloc, LONGEST)?;
        Ok(Segment { items })
    }

    fn len(&self) -> usize
        ensures { result ≡ length self.now }
    {
        self.items.len()
    }

    fn get(&self, at: usize) -> Option<&T>
        ensures { option_copied result ≡ slice_get self.now at }
    {
        self.items.get(at)
    }

    // Lends an item for writing.
    #[inline]
    fn item_mut(&mut self, at: usize) -> &mut T
        requires { at < length self.old }
        ensures* writes_back { sem 𝓛 (lends_item T.row self.entry at result) }
        ensures value { slice_get self.old at ≡ Some result.now }
    {
        &mut self.items[at]
    }

    // Adds an item behind the others.
    fn push(&mut self, item: T)
        requires { length self.old < 1024 }
        ensures { self.new ≡ self.old ++ item ∷ [] }
    {
        self.items.push_reserved(item);
    }

    #[inline]
    fn replace(&mut self, at: usize, item: T) -> Option<T>
        ensures value { result ≡ slice_get self.old at }
        ensures after { self.new ≡ slice_set self.old at item }
    {
        Some(mem::replace(self.items.get_mut(at)?, item))
    }
}

/// A list in segments. Contracts see its items, and for how many further ones there is memory.
///
/// No item ever moves: a further one moves at most the addresses of the segments.
pub struct Segments<T> {
    segments: Vec<Segment<T>>,
    // Segments without items, which come next.
    blank: Vec<Segment<T>>,
    len: usize,
    room: usize,
}

// By hand, so that what drops it elsewhere proves nothing of its parts.
impl<T: Drop> Drop for Segments<T> {
    fn drop(self) {
        let Segments {
            segments: _,
            blank: _,
            len: _,
            room: _,
        } = self;
    }
}

impl<T> Model for Segments<T> {
    ghost use Rattle.std.specs.Vec.{vec_capacity};
    ghost use Rattle.segments.specs.Segments.{Roomy, roomy_code, joined, AreRoomy};

    ghost Value = { Roomy T };

    ghost coded = { roomy_code T.code };

    ghost view = { λ s. record { items = joined s.segments.items; room = s.room } };

    ghost invariant = { λ s. AreRoomy s.segments.items s.blank.items (vec_capacity s.segments)
        s.len s.room };
}

impl<T: Drop> Segments<T> {
    ghost use Rattle.std.specs.Borrow.{sem};
    ghost use Rattle.segments.specs.Lending.{lends_joined};

    /// No items. Takes no memory.
    pub fn new(alloc: Global) -> Segments<T>
        ensures items { result.items ≡ [] }
        ensures room { result.room ≡ 0 }
    {
        Segments {
            segments: Vec::new(alloc),
            blank: Vec::new(alloc),
            len: 0,
            room: 0,
        }
    }

    /// How many items there are.
    #[inline]
    pub fn len(&self) -> usize
        ensures { result ≡ length self.now.items }
    {
        self.len
    }

    /// What the segments are made with.
    pub fn allocator(&self) -> Global {
        *self.segments.allocator()
    }

    /// The item of a number.
    #[inline]
    pub fn get(&self, at: usize) -> Option<&T>
        ensures { option_copied result ≡ slice_get self.now.items at }
    {
        get_in(&self.segments, at)
    }

    /// Lends the item of a number for writing.
    #[inline]
    pub fn item_mut(&mut self, at: usize) -> &mut T
        requires { at < length self.old.items }
        ensures* writes_back { sem 𝓛 (lends_joined T.row self.entry at result) }
        ensures value { slice_get self.old.items at ≡ Some result.now }
    {
        let segment = &mut self.segments[at / LONGEST];
        segment.item_mut(at % LONGEST)
    }

    /// Exchanges the item of a number for this one.
    #[inline]
    pub fn replace(&mut self, at: usize, item: T) -> Option<T>
        ensures value { result ≡ slice_get self.old.items at }
        ensures after { self.new.items ≡ slice_set self.old.items at item }
        ensures room { self.new.room ≡ self.old.room }
    {
        replace_in(&mut self.segments, at, item)
    }

    /// Takes the memory of so many further items, or of none.
    pub fn reserve(&mut self, items: usize) -> Result<(), NoMemory>
        ensures items { self.new.items ≡ self.old.items }
        ensures ok { OnOk result (items ≤ self.new.room) }
        ensures room { self.old.room ≤ self.new.room }
        ensures held { items ≤ self.old.room → IsOk result }
    {
        if items <= self.room {
            return Ok(());
        }
        // No memory has so many items.
        self.len.checked_add(items).ok_or(NoMemory)?;
        let number = wanted(&self.segments, items);
        self.segments.reserve(number)?;
        add_blank(&mut self.blank, number)?;
        self.room = items;
        Ok(())
    }

    /// Adds an item behind the others, in memory that was taken for it.
    pub fn push_reserved(&mut self, item: T)
        requires { 0 < self.old.room }
        ensures items { self.new.items ≡ self.old.items ++ item ∷ [] }
        ensures room { self.new.room + 1 ≡ self.old.room }
        ensures small { length self.new.items < 2 ^ 64 }
    {
        make_room(&mut self.segments, &mut self.blank);
        push_to(&mut self.segments, item);
        self.len += 1;
        self.room -= 1;
    }

    /// Adds an item behind the others. After `NoMemory` they are as they were.
    pub fn push(&mut self, item: T) -> Result<(), NoMemory>
        ensures ok { OnOk result (self.new.items ≡ self.old.items ++ item ∷ []) }
        ensures err { OnErr result (self.new.items ≡ self.old.items) }
    {
        self.reserve(1)?;
        self.push_reserved(item);
        Ok(())
    }
}

// The segment of a number.
#[inline]
fn segment_of<T: Drop>(segments: &Vec<Segment<T>>, number: usize) -> Option<&Segment<T>>
    ensures { option_copied result ≡ slice_get segments.now.items number }
{
    segments.get(number)
}

// The item of a number.
#[inline]
fn get_in<T: Drop>(segments: &Vec<Segment<T>>, at: usize) -> Option<&T>
    requires { AreFull segments.now.items }
    ensures { option_copied result ≡ slice_get (joined segments.now.items) at }
{
    match segment_of(segments, at / LONGEST) {
        Some(segment) => segment.get(at % LONGEST),
        None => None,
    }
}

// Exchanges the item of a number.
#[inline]
fn replace_in<T: Drop>(segments: &mut Vec<Segment<T>>, at: usize, item: T) -> Option<T>
    requires { AreFull segments.old.items }
    ensures value { result ≡ slice_get (joined segments.old.items) at }
    ensures after { joined segments.new.items ≡ slice_set (joined segments.old.items) at item }
    ensures full { AreFull segments.new.items }
    ensures len { vec_len segments.new ≡ vec_len segments.old }
    ensures capacity { vec_capacity segments.new ≡ vec_capacity segments.old }
{
    match segments.get_mut(at / LONGEST) {
        Some(segment) => segment.replace(at % LONGEST, item),
        None => None,
    }
}

// Whether the last segment has room.
fn has_room<T: Drop>(segments: &Vec<Segment<T>>) -> bool
    requires { AreFull segments.now.items }
    ensures yes { IsTrue result → HasRoom segments.now.items }
    ensures no { IsFalse result → AreComplete segments.now.items }
{
    match segments.last() {
        Some(last) => last.len() < LONGEST,
        None => false,
    }
}

// For how many further items the last segment has room.
fn free_in<T: Drop>(segments: &Vec<Segment<T>>) -> usize
    requires { AreFull segments.now.items }
    ensures { length (joined segments.now.items) + result ≡ 1024 * vec_len segments.now }
{
    match segments.last() {
        Some(last) => LONGEST.saturating_sub(last.len()),
        None => 0,
    }
}

// How many further segments so many items want.
fn wanted<T: Drop>(segments: &Vec<Segment<T>>, items: usize) -> usize
    requires { AreFull segments.now.items }
    ensures { length (joined segments.now.items) + items
        ≤ 1024 * (vec_len segments.now + result) }
{
    let behind = items.saturating_sub(free_in(segments));
    if behind == 0 { 0 } else { behind / LONGEST + 1 }
}

// Adds blank segments until there are so many, as far as there is memory.
fn add_blank<T: Drop>(blank: &mut Vec<Segment<T>>, number: usize) -> Result<(), NoMemory>
    requires { AreBlank blank.old.items }
    ensures blank { AreBlank blank.new.items }
    ensures more { vec_len blank.old ≤ vec_len blank.new }
    ensures bound { (most : ℕ) → vec_len blank.old ≤ most → number ≤ most
        → vec_len blank.new ≤ most }
    ensures ok { OnOk result (number ≤ vec_len blank.new) }
{
    let alloc = *blank.allocator();
    for _have in blank.len()..number {
        let segment = Segment::blank(alloc)?;
        blank.push(segment)?;
    }
    Ok(())
}

// Lets a blank segment be the last one, if that has no room.
fn make_room<T: Drop>(segments: &mut Vec<Segment<T>>, blank: &mut Vec<Segment<T>>)
    requires listed { AreListed segments.old.items blank.old.items (vec_capacity segments.old) }
    requires room { length (joined segments.old.items)
        < 1024 * (vec_len segments.old + vec_len blank.old) }
    ensures items { joined segments.new.items ≡ joined segments.old.items }
    ensures listed { AreListed segments.new.items blank.new.items (vec_capacity segments.new) }
    ensures room { HasRoom segments.new.items }
    ensures same { vec_len segments.new + vec_len blank.new
        ≡ vec_len segments.old + vec_len blank.old }
{
    if has_room(segments) {
        return;
    }
    if let Some(segment) = blank.pop() {
        segments.push_reserved(segment);
    }
}

// Adds an item to the last segment.
fn push_to<T: Drop>(segments: &mut Vec<Segment<T>>, item: T)
    requires full { AreFull segments.old.items }
    requires room { HasRoom segments.old.items }
    ensures items { joined segments.new.items ≡ joined segments.old.items ++ item ∷ [] }
    ensures full { AreFull segments.new.items }
    ensures len { vec_len segments.new ≡ vec_len segments.old }
    ensures capacity { vec_capacity segments.new ≡ vec_capacity segments.old }
{
    if let Some(last) = segments.last_mut() {
        last.push(item);
    }
}
