//! Words that name the places of keys, in windows that their hashes choose.
ghost use Rattle.std.specs.Prelude.{◌≡◌, ◌≢◌, ℕ, ◌+◌, ◌<◌, ◌%◌, [], Some, length, slice_get};
ghost use Rattle.std.specs.Prelude.{IfSome, IsTrue, slice_index_or};
ghost use Rattle.std.specs.Option.{option_copied};
ghost use Rattle.hash_windows.specs.Windows.{word_of, home, hash_in, place_in};
ghost use Rattle.hash_windows.specs.Windows.{short_of, IsFreeAt, IsIn, Has, Names};

use crate::parting::parted;
use segments::Segments;
use std::alloc::Global;

/// How many words a window has: with 6 bytes each they take less than two lines of the cache.
pub const WIDTH: usize = 16;

// Words of which each line of the cache has one in which a part of a window lies.
const FIRST: usize = 0;

const MIDDLE: usize = 8;

const LAST: usize = 15;

/// No further window is made until each has so many places.
const FEWEST: usize = 8;

/// From then on one is made for so many further places, so all are parted once the last ones have
/// 11. With fewer windows more keys find no free word, and an ordered map holds them. With so many
/// it is one in 150.
const PLACES: usize = 3;

/// So many places have a number that fits a word, and so many short hashes there are.
const NUMBERS: u32 = 1 << 24;

// The same for the lower half of a number.
const LOW: u32 = 1 << 16;

/// The 24 bits of a hash that words have.
#[inline]
pub fn short(hash: u32) -> u32
    ensures value { result ≡ short_of hash }
    ensures small { result < 16777216 }
{
    hash / 256 % NUMBERS
}

/// The number of a place that may have a key of this short hash, plus one, in 6 bytes. A word of
/// number 0 is free.
#[derive(Clone, Copy)]
pub struct Word {
    hash_low: u16,
    hash_high: u8,
    place_high: u8,
    place_low: u16,
}

const _: () = prove!(size_of::<Window>() == 96);

/// A word that names nothing.
pub(crate) const FREE: Word = Word {
    hash_low: 0,
    hash_high: 0,
    place_high: 0,
    place_low: 0,
};

impl Word {
    /// The word that names a place for keys of a short hash, if its number fits.
    pub fn naming(hash: u32, at: usize) -> Option<Word>
        requires { hash < 16777216 }
        ensures { IfSome result (λ word. word ≡ word_of hash at) }
    {
        let place = u32::try_from(at.checked_add(1)?).ok()?;
        if place >= NUMBERS {
            return None;
        }
        Some(Word {
            hash_low: (hash % LOW) as u16,
            hash_high: (hash / LOW) as u8,
            place_high: (place / LOW) as u8,
            place_low: (place % LOW) as u16,
        })
    }

    /// The short hash.
    #[inline]
    pub fn hash(self) -> u32
        ensures { result ≡ hash_in self }
    {
        u32::from(self.hash_high) * LOW + u32::from(self.hash_low)
    }

    // The number.
    #[inline]
    fn place(self) -> u32
        ensures { result ≡ place_in self }
    {
        u32::from(self.place_high) * LOW + u32::from(self.place_low)
    }

    // Whether it has this number.
    #[inline]
    fn names(self, place: u32) -> bool
        ensures { IsTrue result → place_in self ≡ place }
    {
        u32::from(self.place_low) == place % LOW && u32::from(self.place_high) == place / LOW
    }

    /// The place that the word names for keys of a short hash.
    #[inline]
    pub fn named(self, hash: u32) -> Option<usize>
        ensures { (at : ℕ) → self ≡ word_of hash at → result ≡ Some at }
    {
        if u32::from(self.hash_low) != hash % LOW || u32::from(self.hash_high) != hash / LOW {
            return None;
        }
        (self.place() as usize).checked_sub(1)
    }
}

/// Where a key is looked for: its short hash, the number of its window, and where a word stands
/// there that may name its place. Nothing is promised of it.
#[derive(Clone, Copy)]
pub struct Trace {
    hash: u32,
    window: usize,
    word: usize,
}

/// Where the word may stand that names a place: the number of a window, and the index there.
/// Nothing is promised of it.
#[derive(Clone, Copy)]
pub struct Near {
    window: usize,
    word: usize,
}

impl Near {
    /// A word that stands nowhere.
    pub fn nowhere() -> Near {
        Near {
            window: usize::MAX,
            word: WIDTH,
        }
    }
}

/// The words next to each other that keys of one hash may have.
pub type Window = [Word; WIDTH];

/// All windows. They are made one by one, each out of an older one whose words it parts.
///
/// Nothing is said of where words stand, nor that a key has one: whoever finds no word looks
/// elsewhere, and whoever finds one looks at its place.
#[derive(Drop)]
pub struct Windows {
    windows: Segments<Window>,
    // A hash chooses among so many windows, as far as there are so many.
    wide: u32,
    // Half of `wide`: how far below a missing window the one is that stands for it.
    half: u32,
}

impl Windows {
    /// No windows. Takes no memory.
    pub fn new(alloc: Global) -> Windows {
        Windows {
            windows: Segments::new(alloc),
            wide: 2,
            half: 1,
        }
    }

    /// What the windows are made with, and keys are.
    pub fn allocator(&self) -> Global {
        self.windows.allocator()
    }

    // The number of the window of a short hash.
    #[inline]
    fn home(&self, hash: u32) -> usize
        ensures { result ≡ home self.now.wide self.now.half (length self.now.windows.items) hash }
    {
        let low = modulo(hash, self.wide) as usize;
        if low < self.windows.len() {
            low
        } else {
            low.saturating_sub(self.half as usize)
        }
    }

    /// The window of a short hash.
    #[inline]
    pub fn window(&self, hash: u32) -> &[Word]
        ensures { result.now ≡ slice_index_or self.now.windows.items
            (home self.now.wide self.now.half (length self.now.windows.items) hash) [] }
    {
        match self.windows.get(self.home(hash)) {
            Some(window) => window.as_slice(),
            None => &[],
        }
    }

    /// Where the word of a key of this hash may stand. Reads no window.
    #[inline]
    pub fn near(&self, hash: u32) -> Near {
        Near {
            window: self.home(short(hash)),
            word: WIDTH,
        }
    }

    /// The same for a place, after a first look at the window.
    #[inline]
    pub fn touch_near(&self, at: usize, near: Near) -> Near {
        let word = match self.windows.get(near.window) {
            Some(window) => near_place(window, at),
            None => WIDTH,
        };
        Near { word, ..near }
    }

    /// Where keys of a hash are looked for. Reads no window.
    #[inline]
    pub fn trace(&self, hash: u32) -> Trace {
        let short = short(hash);
        Trace {
            hash: short,
            window: self.home(short),
            word: WIDTH,
        }
    }

    /// The trace with a first look at its window.
    #[inline]
    pub fn touch(&self, trace: Trace) -> Trace {
        let word = match self.windows.get(trace.window) {
            Some(window) => near_hash(window, trace.hash),
            None => WIDTH,
        };
        Trace { word, ..trace }
    }

    /// The place that a word of a trace's window names. Nothing is promised of it.
    #[inline]
    pub fn guess(&self, trace: Trace) -> Option<usize> {
        let window = self.windows.get(trace.window)?;
        window
            .get(last_of(window, trace.hash, trace.word))?
            .named(trace.hash)
    }

    // The window of a number, or a free one where there is none.
    fn window_at(&self, number: usize) -> Window
        ensures { (word : Word) → IsIn (slice_index_or self.now.windows.items number []) word
            → IsIn result word }
    {
        match self.windows.get(number) {
            Some(window) => *window,
            None => [FREE; WIDTH],
        }
    }

    /// Writes a word that names the place, if the window has a free one.
    pub fn put(&mut self, hash: u32, at: usize) -> bool
        ensures has { IsTrue result → Has self.new hash at }
        ensures others { (h q : ℕ) → Has self.old h q → Has self.new h q }
    {
        let short = short(hash);
        let Some(word) = Word::naming(short, at) else {
            return false;
        };
        let home = self.home(short);
        let Some(free) = self.free_index(home) else {
            return false;
        };
        let window = self.windows.item_mut(home);
        window[free] = word;
        true
    }

    // The index of a free word in the window of a number.
    fn free_index(&self, home: usize) -> Option<usize>
        ensures within { IfSome result (λ index. index < 16) }
        ensures some { IfSome result (λ _. home < length self.now.windows.items) }
        ensures free { IfSome result
            (λ index. IsFreeAt (slice_index_or self.now.windows.items home []) index) }
    {
        match self.windows.get(home) {
            Some(window) => free_in(window),
            None => None,
        }
    }

    /// Frees the word that names the place of a key of this hash.
    pub fn clear(&mut self, hash: u32, at: usize) -> bool
        ensures { (h q : ℕ) → q ≢ at → Has self.old h q → Has self.new h q }
    {
        self.free(at, self.near(hash))
    }

    /// Frees a word that names the place, if it stands in the window that a hint says. No other one
    /// names it, since no two keys lie in a place.
    pub fn free(&mut self, at: usize, near: Near) -> bool
        ensures { (h q : ℕ) → q ≢ at → Has self.old h q → Has self.new h q }
    {
        let Some(index) = self.index_of(at, near) else {
            return false;
        };
        let window = self.windows.item_mut(near.window);
        window[index] = FREE;
        true
    }

    // The index of a word that names the place in the window that a hint says.
    fn index_of(&self, at: usize, near: Near) -> Option<usize>
        ensures within { IfSome result (λ index. index < 16) }
        ensures some { IfSome result (λ _. near.window < length self.now.windows.items) }
        ensures is { IfSome result (λ index. Names
            (slice_index_or self.now.windows.items near.window []) index (at + 1)) }
    {
        let place = u32::try_from(at.checked_add(1)?).ok()?;
        match self.windows.get(near.window) {
            Some(window) => index_near(window, place, near.word),
            None => None,
        }
    }

    /// Whether there are fewer windows than so many places want.
    pub fn is_small(&self, places: usize) -> bool {
        let count = self.windows.len();
        let parted = if count == self.wide as usize {
            0
        } else {
            count.saturating_sub(self.half as usize)
        };
        let whole = count.saturating_sub(parted);
        let more = places.saturating_sub(whole.saturating_mul(FEWEST));
        count == 0 || parted.saturating_mul(PLACES) < more
    }

    /// Makes a further window, if there is memory for it.
    pub fn grow(&mut self)
        ensures { (h q : ℕ) → Has self.old h q → Has self.new h q }
    {
        self.widen();
        self.add();
    }

    // Makes a further window out of the one that stood for it, whose words it parts.
    fn add(&mut self)
        ensures { (h q : ℕ) → Has self.old h q → Has self.new h q }
    {
        let count = self.windows.len();
        let from = count.saturating_sub(self.half as usize);
        let window = self.window_at(from);
        let sides = parted(&window, self.wide, count);
        let Ok(()) = self.windows.push(sides.1) else {
            return;
        };
        self.windows.replace(from, sides.0);
    }

    // Once there are as many windows as a hash chooses among, it chooses among twice as many.
    fn widen(&mut self)
        ensures { (h q : ℕ) → Has self.old h q → Has self.new h q }
    {
        if self.windows.len() != self.wide as usize {
            return;
        }
        if self.wide == 0 {
            return;
        }
        if let Some(wide) = self.wide.checked_mul(2) {
            self.half = self.wide;
            self.wide = wide;
        }
    }
}

/// The remainder of a division, which by 0 leaves all. That by a power of two, which it mostly is,
/// is made without a division.
#[inline]
pub fn modulo(hash: u32, by: u32) -> u32
    ensures { result ≡ hash % by }
{
    let power = by.trailing_zeros();
    if power < 32 && by == 1 << power {
        return hash & (by - 1);
    }
    if by == 0 { hash } else { hash % by }
}

// The index of a free word.
fn free_in(window: &Window) -> Option<usize>
    ensures within { IfSome result (λ index. index < 16) }
    ensures free { IfSome result (λ index. IsFreeAt window.now index) }
{
    window
        .iter()
        .position(|word| word.place_high == 0 && word.place_low == 0)
}

// The index of a word with the number of a place, which is looked for at a likely one first.
#[inline]
fn index_near(window: &Window, place: u32, hint: usize) -> Option<usize>
    ensures within { IfSome result (λ index. index < 16) }
    ensures is { IfSome result (λ index. Names window.now index place) }
{
    if names_at(window, hint, place) {
        return Some(hint);
    }
    for index in 0..WIDTH {
        if names_at(window, index, place) {
            return Some(index);
        }
    }
    None
}

// Whether the word of an index has the number of a place.
#[inline]
fn names_at(window: &Window, index: usize, place: u32) -> bool
    ensures within { IsTrue result → index < 16 }
    ensures is { IsTrue result → Names window.now index place }
{
    match word_at(window, index) {
        Some(word) => word.names(place),
        None => false,
    }
}

// An index whose word has the lower half of a short hash, if there is one: else the one that was
// said. All words are looked at, since a branch at each would be foretold wrongly once.
#[inline]
fn last_of(window: &Window, hash: u32, said: usize) -> usize {
    let low = hash % LOW;
    let mut last = said;
    for index in 0..WIDTH {
        if u32::from(window[index].hash_low) == low {
            last = index;
        }
    }
    last
}

// Where a word may stand that names a place: three of them are looked at, one in each line of the
// cache in which a part of the window lies. So few that several windows are waited for at once.
#[inline]
fn near_place(window: &Window, at: usize) -> usize {
    let low = at.wrapping_add(1) % LOW as usize;
    let first = if usize::from(window[FIRST].place_low) == low {
        FIRST
    } else {
        WIDTH
    };
    let middle = if usize::from(window[MIDDLE].place_low) == low {
        MIDDLE
    } else {
        first
    };
    if usize::from(window[LAST].place_low) == low {
        LAST
    } else {
        middle
    }
}

// The same for a short hash.
#[inline]
fn near_hash(window: &Window, hash: u32) -> usize {
    let low = hash % LOW;
    let first = if u32::from(window[FIRST].hash_low) == low {
        FIRST
    } else {
        WIDTH
    };
    let middle = if u32::from(window[MIDDLE].hash_low) == low {
        MIDDLE
    } else {
        first
    };
    if u32::from(window[LAST].hash_low) == low {
        LAST
    } else {
        middle
    }
}

/// The word of an index.
#[inline]
pub fn word_at(window: &[Word], index: usize) -> Option<&Word>
    ensures { option_copied result ≡ slice_get window.now index }
{
    window.get(index)
}
