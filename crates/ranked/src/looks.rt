//! How far a ranked list would look.

ghost use Rattle.std.specs.Prelude.{◌≤◌};
ghost use Rattle.agg_types.specs.declared.limits.TheConstants.{LONGEST_RANK};

use crate::slack::bound_of;
use crate::{Best, Wanted};
use agg_types::{Key, NoMemory};
use crossing::Values;
use expiry_wheel::{Entries, OrderedDue};
use std::alloc::Global;

/// Whether a list at a moment looks at no more than so many keys until it has given all. It is
/// tried: by then all these are looked at.
pub(crate) fn looks_at_most<V: Values>(
    alloc: Global,
    index: &OrderedDue<Key>,
    wanted: Wanted,
    values: &V,
    most: usize,
) -> Result<bool, NoMemory>
    requires { wanted.n ≤ LONGEST_RANK }
{
    let mut best = Best::new(alloc, wanted.n)?;
    let mut ahead = Entries::new(index);
    for _ in 0..most {
        match ahead.peek() {
            None => return Ok(true),
            Some((zeros, key)) => {
                if is_past(&best, zeros) {
                    return Ok(true);
                }
                ahead.step();
                look(&mut best, key, values, wanted);
            }
        }
    }
    Ok(false)
}

// Whether all of the best stand before every key with a bound of so many leading zeros.
fn is_past(best: &Best<'_>, zeros: u64) -> bool {
    match best.least() {
        None => false,
        Some(least) => least > bound_of(zeros),
    }
}

// Offers a key, if it has a live row.
fn look<'a, V: Values>(best: &mut Best<'a>, key: &'a Key, values: &V, wanted: Wanted) {
    let Wanted {
        table,
        col,
        now,
        ..
    } = wanted;
    if values.live(table, key, now) > 0 {
        best.offer(key, values.value(table, key, col, now));
    }
}
