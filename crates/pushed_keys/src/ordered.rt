//! Moves in the order of their keys.

ghost use Rattle.std.specs.Prelude.{◌≡◌, Bool, List, ℕ, IfOk};
ghost use Rattle.pushed_keys.specs.Moves.{AreInOrder, is_next, last_words, moved_keys, said_of};

use crate::Moved;
use agg_types::NoMemory;
use std::alloc::Global;

/// Moves in the order of their keys, of each key the last.
pub fn in_order<'a>(alloc: Global, moves: &[Moved<'a>]) -> Result<Vec<Moved<'a>>, NoMemory>
    ensures order { IfOk result (λ kept. AreInOrder (moved_keys kept.items)) }
    ensures said { IfOk result (λ kept. (key : List ℕ) (was : Bool)
        → said_of key kept.items was ≡ said_of key moves.now was) }
{
    let mut sorted = Vec::new(alloc);
    sorted.extend_from_slice(moves)?;
    sorted.sort_by_key(|moved| moved.key)?;
    let kept = last_words(alloc, sorted.as_slice())?;
    Ok(kept)
}

// Of moves in the order of their keys, the last of each key.
fn last_words<'a>(alloc: Global, moves: &[Moved<'a>]) -> Result<Vec<Moved<'a>>, NoMemory>
    ensures { IfOk result (λ kept. kept.items ≡ last_words moves.now) }
{
    let mut kept = Vec::new(alloc);
    let mut left = moves;
    while let [first, others @ ..] = left {
        if !is_next(first.key, others) {
            kept.push(*first)?;
        }
        left = others;
    }
    Ok(kept)
}

// Whether the first of these moves is of a key.
fn is_next(key: &[u8], moves: &[Moved<'_>]) -> bool
    ensures { result ≡ is_next key.now moves.now }
{
    match moves {
        [] => false,
        [first, ..] => key == first.key,
    }
}
