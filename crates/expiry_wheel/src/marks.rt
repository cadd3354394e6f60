ghost use Rattle.std.specs.Prelude.{◌≡◌, ◌≢◌, ℕ, ◌<◌, ◌≤◌, ◌+◌, ◌*◌, IfNone, IfSome};
ghost use Rattle.std.specs.Int.{bit_at};
ghost use Rattle.expiry_wheel.specs.Marks.{mark_of, AreUnmarked, IsFirstMarked};

// How many words there are, a bit for each slot.
const WORDS: usize = 32;

// A mark for each slot of a wheel, 64 in a word.
#[derive(Clone, Copy, Debug, Drop)]
pub(crate) struct Marks {
    words: [u64; WORDS],
}

impl Marks {
    pub(crate) fn none() -> Marks
        ensures { (slot : ℕ) → mark_of result.words slot ≡ 0 }
    {
        Marks { words: [0; WORDS] }
    }

    pub(crate) fn set(&mut self, slot: usize)
        requires { slot < 2048 }
        ensures here { mark_of self.new.words slot ≡ 1 }
        ensures others { (other : ℕ) → other ≢ slot
            → mark_of self.new.words other ≡ mark_of self.old.words other }
    {
        let word = self.words[slot / 64];
        self.words[slot / 64] = with_bit(word, slot % 64);
    }

    pub(crate) fn clear(&mut self, slot: usize)
        requires { slot < 2048 }
        ensures here { mark_of self.new.words slot ≡ 0 }
        ensures others { (other : ℕ) → other ≢ slot
            → mark_of self.new.words other ≡ mark_of self.old.words other }
    {
        let word = self.words[slot / 64];
        self.words[slot / 64] = without_bit(word, slot % 64);
    }

    // The first marked slot of those from one on.
    pub(crate) fn first_from(&self, from: usize) -> Option<usize>
        requires { from ≤ 2048 }
        ensures none { IfNone result (AreUnmarked self.now.words from 2048) }
        ensures some { IfSome result (IsFirstMarked self.now.words from) }
    {
        let word = from / 64;
        if word == WORDS {
            return None;
        }
        match lowest_bit(bits_from(self.words[word], from % 64)) {
            Some(bit) => Some(64 * word + bit),
            None => self.first_from_word(word + 1),
        }
    }

    fn first_from_word(&self, from: usize) -> Option<usize>
        requires { from ≤ 32 }
        ensures none { IfNone result (AreUnmarked self.now.words (64 * from) 2048) }
        ensures some { IfSome result (IsFirstMarked self.now.words (64 * from)) }
    {
        for word in from..WORDS {
            if let Some(bit) = lowest_bit(self.words[word]) {
                return Some(64 * word + bit);
            }
        }
        None
    }
}

fn with_bit(word: u64, bit: usize) -> u64
    requires { bit < 64 }
    ensures here { bit_at result bit ≡ 1 }
    ensures others { (other : ℕ) → other ≢ bit → bit_at result other ≡ bit_at word other }
{
    word | (1 << bit)
}

fn without_bit(word: u64, bit: usize) -> u64
    requires { bit < 64 }
    ensures here { bit_at result bit ≡ 0 }
    ensures others { (other : ℕ) → other < 64 → other ≢ bit
        → bit_at result other ≡ bit_at word other }
{
    word & !(1 << bit)
}

// The bits of a word from one on, and 0 for those below.
fn bits_from(word: u64, bit: usize) -> u64
    requires { bit < 64 }
    ensures below { (other : ℕ) → other < bit → bit_at result other ≡ 0 }
    ensures from { (other : ℕ) → bit ≤ other → other < 64
        → bit_at result other ≡ bit_at word other }
{
    word & (u64::MAX << bit)
}

// The place of the lowest bit that is set.
fn lowest_bit(word: u64) -> Option<usize>
    ensures none { IfNone result (word ≡ 0) }
    ensures within { IfSome result (λ bit. bit < 64) }
    ensures here { IfSome result (λ bit. bit_at word bit ≡ 1) }
    ensures before { IfSome result (λ bit. (other : ℕ) → other < bit → bit_at word other ≡ 0) }
{
    if word == 0 {
        return None;
    }
    Some(word.trailing_zeros() as usize)
}
