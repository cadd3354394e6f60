//! What a lens shows of the fleet that is served.

use agg_types::{Key, NoMemory};
use hub::Lens;
use std::alloc::Global;
use test_hub_calls::first_sum;

/// The sum of the address 10.0.0.1, as a look shows it: 0 where no peer holds it, none where there
/// is no look.
pub fn sum_in(alloc: Global, lens: &mut Lens) -> Result<Option<u64>, NoMemory> {
    let key = Key::copy(alloc, &[10, 0, 0, 1])?;
    Ok(
        lens.look()
            .map(|look| first_sum(look.book().summed(0, &key))),
    )
}

/// The moment that a lens shows. None where there is no look.
pub fn moment_in(lens: &mut Lens) -> Option<u64> {
    lens.look().map(|look| look.book().moment())
}
