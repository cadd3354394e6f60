//! What a seat posts as one.
ghost use Rattle.std.specs.Prelude.{◌≡◌, ◌==◌, ◌<◌, ◌+◌, ◌^◌, [], ◌∷◌, ◌++◌, drop, length};
ghost use Rattle.std.specs.Prelude.{slice_get, IfOk, OnErr, OnOk, Some, vec_capacity, vec_len};
ghost use Rattle.std.specs.Option.{option_map};
ghost use Rattle.agg_types.specs.declared.event.What.TheVariants.{Put};
ghost use Rattle.agg_types.specs.Whats.{as_what};

use crate::entry::{Entry, cells_fit, fits};
use crate::{Cell, Cells, Key, LentWhat, NoMemory, PackedCells, What};
use std::alloc::Global;
use std::fmt;
use std::marker::Model;

/// So many cells are laid sooner one by one than as a block.
const FEW: usize = 8;

/// What happens at a seat, one event after the other. Contracts see the list of its `What`s.
///
/// A session makes it of a piece of the stream, a hub adds it to the history as one, and both
/// copies of a book take it.
///
/// An update takes no memory of its own but for a key of more than 16 bytes, which has a block: its
/// cells lie in its entry, packed in words, or, where they are more or larger than fit there, in a
/// block that all updates share.
pub struct Whats {
    entries: Vec<Entry>,
    /// Those of the updates that aren't packed, one update's behind another's.
    cells: Vec<Cell>,
}

// By hand, so that what drops it elsewhere proves nothing of its parts.
impl Drop for Whats {
    fn drop(self) {
        let Whats {
            entries: _,
            cells: _,
        } = self;
    }
}

impl Model for Whats {
    ghost use Rattle.std.specs.Prelude.{List};
    ghost use Rattle.agg_types.specs.declared.event.What.{What};

    ghost Value = { List What };

    ghost use Rattle.std.specs.Prelude.{length, map};
    ghost use Rattle.agg_types.specs.Whats.{AreWithin, entry_what};

    ghost view = { λ whats. map (entry_what whats.cells.items) whats.entries.items };

    ghost invariant = { λ whats. AreWithin (length whats.cells.items) whats.entries.items };
}

impl Whats {
    /// Nothing yet. Takes no memory.
    pub fn new(alloc: Global) -> Whats
        ensures { result ≡ [] }
    {
        Whats {
            entries: Vec::new(alloc),
            cells: Vec::new(alloc),
        }
    }

    /// One alone.
    pub fn alone(alloc: Global, what: What) -> Result<Whats, NoMemory>
        ensures { IfOk result (λ whats. whats ≡ what ∷ []) }
    {
        let mut whats = Whats::new(alloc);
        whats.push(what)?;
        Ok(whats)
    }

    /// What takes memory for it.
    pub fn alloc(&self) -> Global {
        *self.entries.allocator()
    }

    /// How much happened: fewer than 2^63.
    #[inline]
    pub fn len(&self) -> usize
        ensures count { result ≡ length self.now }
        ensures short { result < 2 ^ 63 }
    {
        self.entries.len()
    }

    /// Whether nothing happened.
    pub fn is_empty(&self) -> bool
        ensures { result ≡ (length self.now == 0) }
    {
        self.entries.is_empty()
    }

    /// What happened at a place, if it is one.
    #[inline]
    pub fn get(&self, place: usize) -> Option<LentWhat<'_>>
        ensures { option_map (λ what. as_what what) result ≡ slice_get self.now place }
    {
        Some(
            self.entries
                .as_slice()
                .get(place)?
                .lend(self.cells.as_slice()),
        )
    }

    /// What happened at a place.
    #[inline]
    pub fn at(&self, place: usize) -> LentWhat<'_>
        requires { place < length self.now }
        ensures get { slice_get self.now place ≡ Some (as_what result) }
        ensures left { drop place self.now ≡ as_what result ∷ drop (place + 1) self.now }
    {
        self.entries[place].lend(self.cells.as_slice())
    }

    /// Takes room for so many updates more at once.
    pub fn reserve(&mut self, count: usize) -> Result<(), NoMemory>
        ensures { self.new ≡ self.old }
    {
        Ok(self.entries.reserve(count)?)
    }

    /// Adds what happened behind the others. After NoMemory the list is as it was.
    pub fn push(&mut self, what: What) -> Result<(), NoMemory>
        ensures ok { OnOk result (self.new ≡ self.old ++ what ∷ []) }
        ensures err { OnErr result (self.new ≡ self.old) }
    {
        self.entries.reserve(1)?;
        let what = Box::new(self.alloc(), what)?;
        self.entries.push_reserved(Entry::Other(what));
        Ok(())
    }

    /// Adds an update behind the others. After NoMemory the list is as it was.
    #[inline(always)]
    pub fn push_put(
        &mut self,
        peer: usize,
        table: usize,
        key: Key,
        life: Option<u64>,
        cells: &[Cell],
    ) -> Result<(), NoMemory>
        ensures ok { OnOk result
            (self.new ≡ self.old ++ Put peer table key life cells.now ∷ []) }
        ensures err { OnErr result (self.new ≡ self.old) }
    {
        match PackedCells::pack(cells) {
            Some(packed) => self.push_packed(peer, table, key, life, packed),
            None => self.push_wide(peer, table, key, life, cells),
        }
    }

    /// Adds an update whose cells are packed. After NoMemory the list is as it was.
    #[inline(always)]
    pub fn push_packed(
        &mut self,
        peer: usize,
        table: usize,
        key: Key,
        life: Option<u64>,
        cells: PackedCells,
    ) -> Result<(), NoMemory>
        ensures ok { OnOk result (self.new ≡ self.old ++ Put peer table key life cells ∷ []) }
        ensures err { OnErr result (self.new ≡ self.old) }
    {
        if !fits(peer, table, life) {
            let cells = cells.unpack(self.alloc())?;
            return self.push_what(peer, table, key, life, cells);
        }
        make_room(&mut self.entries)?;
        self.entries
            .push_reserved(Entry::packed(peer, table, key, life, cells));
        Ok(())
    }

    // Adds an update whose cells aren't packed: they are laid behind the others'.
    #[inline(never)]
    fn push_wide(
        &mut self,
        peer: usize,
        table: usize,
        key: Key,
        life: Option<u64>,
        cells: &[Cell],
    ) -> Result<(), NoMemory>
        ensures ok { OnOk result
            (self.new ≡ self.old ++ Put peer table key life cells.now ∷ []) }
        ensures err { OnErr result (self.new ≡ self.old) }
    {
        let start = self.cells.len();
        if !fits(peer, table, life) || !cells_fit(start, cells.len()) {
            let cells = Cells::copy(self.alloc(), cells)?;
            return self.push_what(peer, table, key, life, cells);
        }
        make_room(&mut self.entries)?;
        lay(&mut self.cells, cells)?;
        let entry = Entry::put(peer, table, key, life, start, cells.len());
        self.entries.push_reserved(entry);
        Ok(())
    }

    // Adds an update that no entry has room for, in a block of its own.
    #[cold]
    #[inline(never)]
    fn push_what(
        &mut self,
        peer: usize,
        table: usize,
        key: Key,
        life: Option<u64>,
        cells: Cells,
    ) -> Result<(), NoMemory>
        ensures ok { OnOk result (self.new ≡ self.old ++ Put peer table key life cells ∷ []) }
        ensures err { OnErr result (self.new ≡ self.old) }
    {
        self.push(What::Put {
            peer,
            table,
            key,
            life,
            cells,
        })
    }

    /// Takes all out. The room stays.
    pub fn clear(&mut self)
        ensures { self.new ≡ [] }
    {
        self.entries.clear();
        self.cells.clear();
    }
}

// Room for one more. Where there is some already, as behind `reserve`, that takes one test.
#[inline]
fn make_room(entries: &mut Vec<Entry>) -> Result<(), NoMemory>
    ensures items { entries.new.items ≡ entries.old.items }
    ensures room { OnOk result (vec_len entries.new < vec_capacity entries.new) }
{
    if entries.len() < entries.capacity() {
        return Ok(());
    }
    Ok(entries.reserve(1)?)
}

// Lays cells behind the others. Few are laid one by one where they have room.
#[inline]
fn lay(all: &mut Vec<Cell>, cells: &[Cell]) -> Result<(), NoMemory>
    ensures ok { OnOk result (all.new.items ≡ all.old.items ++ cells.now) }
    ensures err { OnErr result (all.new.items ≡ all.old.items) }
{
    if cells.len() > FEW || cells.len() > all.capacity() - all.len() {
        return Ok(all.extend_from_slice(cells)?);
    }
    for cell in cells {
        all.push_reserved(*cell);
    }
    Ok(())
}

// How many there are, and no more.
impl fmt::Debug for Whats {
    fn fmt<W: fmt::Write>(&self, f: &mut fmt::Formatter<W>) -> fmt::Result {
        f.debug_tuple("Whats").field(&self.len()).finish()
    }
}
