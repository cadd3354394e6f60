//! From when on the clock changes nothing.

ghost use Rattle.std.specs.Prelude.{◌≡◌, ◌^◌, ◌-◌, min};
ghost use Rattle.book_rows.specs.Shown.{as_arrival};
ghost use Rattle.fleet_model.specs.Next.{flat_from};

use peer_rows::Row;

/// The moment from which a row stays as it is, or the last one of all.
pub fn flat_from(longest: u32, row: &Row) -> u64
    ensures { result ≡ min (flat_from longest (as_arrival row.now)) (2 ^ 64 - 1) }
{
    let rates = 2 * u64::from(longest) + 1;
    let life = match row.ends() {
        None => 0,
        Some(ends) => ends.saturating_sub(row.arrived()),
    };
    row.arrived().saturating_add(rates.max(life))
}
