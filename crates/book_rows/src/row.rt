//! One row as it is kept, and what it stands for.

ghost use Rattle.std.specs.Prelude.{◌≡◌};
ghost use Rattle.fleet_model.specs.Moments.{is_live};
ghost use Rattle.book_rows.specs.Shown.{as_arrival};

use peer_rows::Row;

/// Whether a row lives at a moment.
pub fn is_live(t: u64, row: &Row) -> bool
    ensures { result ≡ is_live t (as_arrival row.now) }
{
    match row.ends() {
        None => true,
        Some(ends) => t < ends.max(row.arrived()),
    }
}
