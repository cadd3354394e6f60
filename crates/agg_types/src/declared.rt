ghost use Rattle.std.specs.Prelude.{◌≡◌, ◌==◌, [], ◌∷◌, ◌++◌, length, remove, take};
ghost use Rattle.std.specs.Prelude.{slice_get};
ghost use Rattle.std.specs.Prelude.{IfOk, IfSome, OnOk, OnErr, ◌<◌};
ghost use Rattle.std.specs.List.{list_any};
ghost use Rattle.std.specs.Option.{option_copied};
ghost use Rattle.std.specs.Str.{bytes_eq};
ghost use Rattle.agg_types.specs.Naming.{HasLookups, IsNoted, Notes, NotesAgain};
ghost use Rattle.agg_types.specs.Naming.{place_of};

use crate::NoMemory;
use indexmap::IndexMap;
use std::alloc::Global;
use std::marker::Model;

/// What a configuration declares by name: a peer, a table, a filter or a ranked list.
pub trait Named: Drop {
    ghost use Rattle.std.specs.Prelude.{List, ℕ};

    // The name's bytes.
    ghost name_of: { Self → List ℕ };

    /// The name's bytes.
    fn name(&self) -> &[u8]
        ensures { result.now ≡ name_of self.now };

    /// An equal value, in memory of its own.
    fn again(&self, alloc: Global) -> Result<Self, NoMemory>
        ensures { IfOk result (λ copied. copied ≡ self.now) };
}

/// The declarations of one kind, in their order, found by name at one look-up of a hash table.
///
/// Contracts see the list alone. A name may stand twice, until `Config::check` refuses it: it names
/// the first then.
#[derive(Debug)]
pub struct Declared<T: Named> {
    entries: Vec<T>,
    firsts: IndexMap<Vec<u8>, usize>,
}

// By hand, so that what drops it elsewhere proves nothing of its parts.
impl<T: Named> Drop for Declared<T> {
    fn drop(self) {
        let Declared {
            entries: _,
            firsts: _,
        } = self;
    }
}

impl<T: Named> Model for Declared<T> {
    ghost use Rattle.std.specs.Prelude.{List};
    ghost use Rattle.std.specs.Coded.{coded_list};
    ghost use Rattle.agg_types.specs.Naming.{KeepsFirsts};

    ghost Value = { List T };

    ghost coded = { coded_list T.code };

    ghost view = { λ a. a.entries.items };

    ghost invariant = { λ a. KeepsFirsts T.name_of a.entries.items a.firsts };
}

impl<T: Named> Declared<T> {
    /// No declarations. Takes no memory.
    pub fn new(alloc: Global) -> Declared<T>
        ensures { result ≡ [] }
    {
        Declared {
            entries: Vec::new(alloc),
            firsts: IndexMap::new(alloc),
        }
    }

    /// Adds a declaration behind the others. After NoMemory they are as they were.
    pub fn push(&mut self, entry: T) -> Result<(), NoMemory>
        ensures ok { OnOk result (self.new ≡ self.old ++ entry ∷ []) }
        ensures err { OnErr result (self.new ≡ self.old) }
    {
        let alloc = *self.entries.allocator();
        self.entries.reserve(1)?;
        let place = self.entries.len();
        note(alloc, &mut self.firsts, entry.name(), place)?;
        self.entries.push(entry).unwrap();
        Ok(())
    }

    /// Takes away the declaration at a place; those behind it move up by one. Takes no memory.
    pub fn remove(&mut self, place: usize)
        requires { place < length self.old }
        ensures { self.new ≡ remove self.old place }
    {
        let _gone = self.entries.remove(place);
        note_again(&mut self.firsts, self.entries.as_slice());
    }

    /// The place of the first declaration of a name.
    pub fn position(&self, name: &[u8]) -> Option<usize>
        ensures first { result ≡ place_of T.name_of self.now name.now }
        ensures within { IfSome result (λ place. place < length self.now) }
    {
        self.firsts.get(name).copied()
    }

    /// Whether a name is declared.
    pub fn contains(&self, name: &[u8]) -> bool
        ensures { result ≡ list_any (λ entry. bytes_eq (T.name_of entry) name.now) self.now }
    {
        self.firsts.contains_key(name)
    }

    /// Whether one of the first declarations, as many as given, has a name.
    pub fn has_before(&self, before: usize, name: &[u8]) -> bool
        ensures { result
            ≡ list_any (λ entry. bytes_eq (T.name_of entry) name.now) (take before self.now) }
    {
        match self.position(name) {
            Some(first) => first < before,
            None => false,
        }
    }

    /// The declarations, in order.
    pub fn as_slice(&self) -> &[T]
        ensures { result.now ≡ self.now }
    {
        self.entries.as_slice()
    }

    /// The declaration at a place.
    pub fn get(&self, place: usize) -> Option<&T>
        ensures { option_copied result ≡ slice_get self.now place }
    {
        self.entries.get(place)
    }

    /// How many declarations there are.
    pub fn len(&self) -> usize
        ensures { result ≡ length self.now }
    {
        self.entries.len()
    }

    /// Whether there is no declaration.
    pub fn is_empty(&self) -> bool
        ensures { result ≡ (length self.now == 0) }
    {
        self.entries.is_empty()
    }

    /// Equal declarations, in memory of their own.
    pub fn duplicate(&self, alloc: Global) -> Result<Declared<T>, NoMemory>
        ensures { IfOk result (λ copied. copied ≡ self.now) }
    {
        let mut copied = Declared::new(alloc);
        for entry in self.as_slice() {
            copied.push(entry.again(alloc)?)?;
        }
        Ok(copied)
    }
}

// Notes that a name is declared at a place, unless an earlier place has it.
fn note(
    alloc: Global,
    firsts: &mut IndexMap<Vec<u8>, usize>,
    name: &[u8],
    place: usize,
) -> Result<(), NoMemory>
    ensures ok { OnOk result (Notes firsts.old name.now place firsts.new) }
    ensures err { OnErr result (HasLookups firsts.old firsts.new) }
{
    if firsts.contains_key(name) {
        return Ok(());
    }
    firsts.insert(Vec::from_slice(alloc, name)?, place)?;
    Ok(())
}

// Each noted name is noted where it is declared first now, or forgotten where it no longer is.
fn note_again<T: Named>(firsts: &mut IndexMap<Vec<u8>, usize>, entries: &[T])
    ensures { NotesAgain T.name_of entries.now firsts.old firsts.new }
{
    firsts.retain(
        |name: &Vec<u8>, first: &mut usize| -> bool
            ensures { IsNoted (place_of T.name_of entries.entry.now name.now.items) result
                first.new }
        { note_place(first, first_of(entries, name.as_slice())) },
    );
}

// Notes a place, if there is one, and whether there is.
fn note_place(noted: &mut usize, place: Option<usize>) -> bool
    ensures { IsNoted place result noted.new }
{
    match place {
        Some(place) => {
            *noted = place;
            true
        }
        None => false,
    }
}

// The place of the first entry of a name.
fn first_of<T: Named>(entries: &[T], name: &[u8]) -> Option<usize>
    ensures { result ≡ place_of T.name_of entries.now name.now }
{
    entries.iter().position(|entry| entry.name() == name)
}
