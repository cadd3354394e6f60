//! Parts of the keys that a filter holds.

ghost use Rattle.std.specs.Prelude.{◌≡◌, map, IfOk};
ghost use Rattle.std.specs.Option.{option_copied};
ghost use Rattle.web_text.specs.Parts.{IsPart};

use agg_types::{Key, NoMemory};
use book::Keys;
use std::alloc::Global;
use web_text::is_behind;

/// Of these keys the first ones behind one, at most so many, and whether more follow. No more of
/// them are kept.
pub(crate) fn keys_from<'a>(
    alloc: Global,
    keys: Keys<'a>,
    after: Option<&Key>,
    limit: usize,
) -> Result<(Vec<&'a Key>, bool), NoMemory>
    ensures { IfOk result (λ part. IsPart limit (option_copied after.entry) keys.entry
        (map (λ key. key.now) part.0.items) part.1) }
{
    let mut told = Vec::new(alloc);
    for key in keys {
        if is_behind(after, key) {
            if told.len() >= limit {
                return Ok((told, true));
            }
            told.push(key)?;
        }
    }
    Ok((told, false))
}

/// How many keys these are.
pub(crate) fn count(keys: Keys<'_>) -> u64 {
    let mut count = 0u64;
    for _ in keys {
        count = count.saturating_add(1);
    }
    count
}
