//! What stands on a table, looked up once for all updates of it that follow each other.

ghost use Rattle.std.specs.Prelude.{◌≡◌, ◌==◌};
ghost use Rattle.std.specs.List.{list_any};
ghost use Rattle.book_machine.specs.Uses.{IsUseOf, has_list};

use crate::machine::Machine;
use agg_types::{Filter, UpdateForm};
use book_frame::standing::cols_of;
use screens::Screens;

/// Whether an update of a table asks for more than its row: the key is judged where a filter
/// stands, and bounded where there is a ranked list.
#[derive(Clone, Copy)]
pub struct TableUse {
    /// The position of the table.
    pub table: usize,
    /// Whether a filter is of it.
    pub is_judged: bool,
    /// Whether a ranked list is of it.
    pub is_ranked: bool,
    /// What its updates have in common that a batch packs.
    pub form: Option<UpdateForm>,
    /// What a key must be worth for a filter to hold it, if each of the table's filters asks that.
    pub screens: Option<Screens>,
}

impl Machine {
    /// What stands on a table.
    pub fn use_of(&self, table: usize) -> TableUse
        ensures table { result.table ≡ table }
        ensures found { IsUseOf self.now.config result }
    {
        TableUse {
            table,
            is_judged: has_filter(self.config.filters.as_slice(), table),
            is_ranked: self.is_ranked(table),
            form: UpdateForm::of(self.config.tables.as_slice(), table),
            screens: Screens::of(
                cols_of(self.config.tables.as_slice(), table),
                self.config.filters.as_slice(),
                table,
            ),
        }
    }

    /// What stands on a table, in place of what was looked up last if that isn't it.
    #[inline]
    pub fn use_after(&self, last: &mut TableUse, table: usize)
        requires { IsUseOf self.now.config last.old }
        ensures table { last.new.table ≡ table }
        ensures found { IsUseOf self.now.config last.new }
    {
        if last.table != table {
            *last = self.use_of(table);
        }
    }

    /// Whether a ranked list is of a table.
    pub fn is_ranked(&self, table: usize) -> bool
        ensures { result ≡ has_list self.now.config table }
    {
        let ranks = self.config.ranks.as_slice();
        ranks.iter().any(|rank| rank.table == table)
    }
}

/// Whether some filter is of a table.
pub fn has_filter(filters: &[Filter], table: usize) -> bool
    ensures { result ≡ list_any (λ filter. filter.table == table) filters.now }
{
    filters.iter().any(|filter| filter.table == table)
}
