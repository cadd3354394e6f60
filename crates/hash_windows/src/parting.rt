//! How the words of a window are parted between it and a new one.
ghost use Rattle.std.specs.Prelude.{◌≡◌, ◌≢◌, ◌%◌, Some, slice_get};
ghost use Rattle.hash_windows.specs.Windows.{hash_in, IsIn};

use crate::windows::{FREE, WIDTH, Window, Word, modulo, word_at};

/// The words of a window that stay, and those that go to a new one: whose hash chooses that number.
pub(crate) fn parted(window: &Window, wide: u32, number: usize) -> (Window, Window)
    ensures stay { (word : Word) → IsIn window.now word → hash_in word % wide ≢ number
        → IsIn result.0 word }
    ensures go { (word : Word) → IsIn window.now word → hash_in word % wide ≡ number
        → IsIn result.1 word }
{
    let mut stay = [FREE; WIDTH];
    let mut go = [FREE; WIDTH];
    for index in 0..WIDTH {
        let sides = sides(window, index, wide, number);
        stay[index] = sides.0;
        go[index] = sides.1;
    }
    (stay, go)
}

// The word of an index on the side of those that stay, or of those that go.
fn sides(window: &Window, index: usize, wide: u32, number: usize) -> (Word, Word)
    ensures stay { (word : Word) → slice_get window.now index ≡ Some word
        → hash_in word % wide ≢ number → result.0 ≡ word }
    ensures go { (word : Word) → slice_get window.now index ≡ Some word
        → hash_in word % wide ≡ number → result.1 ≡ word }
{
    match word_at(window, index) {
        Some(word) => side_of(*word, wide, number),
        None => (FREE, FREE),
    }
}

fn side_of(word: Word, wide: u32, number: usize) -> (Word, Word)
    ensures stay { hash_in word % wide ≢ number → result.0 ≡ word }
    ensures go { hash_in word % wide ≡ number → result.1 ≡ word }
{
    if modulo(word.hash(), wide) as usize == number {
        (FREE, word)
    } else {
        (word, FREE)
    }
}
