//! Words of 32 bits in which a few cells lie, in a batch and in a row.
ghost use Rattle.std.specs.Prelude.{◌≡◌, ◌+◌, ◌<◌, ◌≤◌, ℕ, length, slice_index};

/// How many words there are: as many as two rates and a count take.
pub const WORDS: usize = 7;

/// The words of a few cells.
pub type Words = [u32; WORDS];

/// Writes a cell's words from a place on: one by one where there are as many as a cell has, since a
/// copy of a few words is dearer.
#[inline(always)]
pub fn write_words(words: &mut Words, at: usize, cell: &[u32])
    requires { at + length cell.now ≤ 7 }
    ensures here { (k : ℕ) → k < length cell.now
        → slice_index words.new (at + k) ≡ slice_index cell.now k }
    ensures before { (k : ℕ) → k < at → slice_index words.new k ≡ slice_index words.old k }
{
    match cell {
        [only] => words[at] = *only,
        [low, high] => {
            words[at] = *low;
            words[at + 1] = *high;
        }
        [first, second, third] => {
            words[at] = *first;
            words[at + 1] = *second;
            words[at + 2] = *third;
        }
        [first, second, third, fourth, fifth] => {
            words[at] = *first;
            words[at + 1] = *second;
            words[at + 2] = *third;
            words[at + 3] = *fourth;
            words[at + 4] = *fifth;
        }
        _ => words[at..at + cell.len()].copy_from_slice(cell),
    }
}
