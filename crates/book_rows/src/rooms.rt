//! Whether there is room for a row.

ghost use Rattle.std.specs.Prelude.{◌≡◌, ◌<◌, ◌-◌, ◌==◌, ◌||◌, Some, count_by, length};
ghost use Rattle.fleet_model.specs.Keys.{AreInOrder};
ghost use Rattle.fleet_model.specs.Rows.{has_room, size_of, takes_more};
ghost use Rattle.fleet_model.specs.Seats.{is_number};
ghost use Rattle.book_rows.specs.Planned.{IsInside, place_at};

use crate::at::At;
use crate::store::Store;
use agg_types::{Config, Shape};

impl Store {
    /// Whether a peer may put a row at a place: it holds one there; or it holds fewer of the table
    /// than its size, and all peers together fewer than their bound, unless the row's life is over
    /// at once. Without a bound the row itself is looked for only where the table is full.
    #[tactic(auto, unfolding(fleet_model::specs::Rows::has_room))]
    #[inline(always)]
    pub fn has_room(&self, config: &Config, at: At<'_>, life: Option<u64>) -> bool
        requires { IsInside self.now.peers self.now.tables (place_at at) }
        ensures exact { result ≡ has_room config.now self.now.rows (place_at at.entry) life }
        ensures ordered { AreInOrder self.now.rows }
    {
        let size = size_of(config.tables.as_slice(), at.table);
        let is_below = (self.held(at.table, at.peer) as u64) < size;
        match config.rows {
            None => is_below || self.has_row(at),
            Some(most) => self.has_row(at) || (is_below && self.takes_more(most, life)),
        }
    }

    // Whether all peers together may hold a row more of such a life, if so many are the bound.
    #[inline(never)]
    fn takes_more(&self, most: u64, life: Option<u64>) -> bool
        ensures { result ≡ (is_number life 0 || takes_more (Some most) self.now.rows) }
    {
        life == Some(0) || self.free_of(most) > 0
    }

    // How many of so many rows are still free: a look at how many each peer holds of each table.
    fn free_of(&self, most: u64) -> u64
        ensures { result ≡ most - length self.now.rows }
    {
        let mut free = most;
        for table in 0..self.size.tables {
            free = self.free_beside(table, free);
        }
        free
    }

    // What is left of so many free rows beside those of a table.
    fn free_beside(&self, table: usize, most: u64) -> u64
        requires { table < self.now.tables }
        ensures { result ≡ most - count_by (λ row. row.0.table == table) self.now.rows }
    {
        let mut free = most;
        for peer in 0..self.size.peers {
            free = free.saturating_sub(self.held(table, peer) as u64);
        }
        free
    }
}

fn size_of(tables: &[Shape], table: usize) -> u64
    ensures { result ≡ size_of tables.now table }
{
    match tables.get(table) {
        None => 0,
        Some(shape) => shape.size,
    }
}
