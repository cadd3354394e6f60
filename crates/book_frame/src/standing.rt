//! What stands in a configuration: columns, ranked lists, and the filters that may be added to.

ghost use Rattle.std.specs.Prelude.{◌≡◌, ◌<◌, ◌++◌, [], ◌∷◌, if◌then◌else◌, length};
ghost use Rattle.std.specs.Prelude.{slice_index_or, is_some, remove, IfSome, OnOk, OnErr};
ghost use Rattle.std.specs.Option.{option_map_or};
ghost use Rattle.fleet_model.specs.Answers.{no_filter};
ghost use Rattle.fleet_model.specs.Filters.{dropped, is_added, is_new};
ghost use Rattle.fleet_model.specs.Next.{longest_period};
ghost use Rattle.fleet_model.specs.Ranking.{no_rank};
ghost use Rattle.fleet_model.specs.Values.{cols_of};

use agg_types::{Col, Declared, Filter, MOST_FILTERS, Name, NoMemory, Rank, Shape};
use std::alloc::Global;

/// The columns of a table; none where there is no such table.
pub fn cols_of(tables: &[Shape], table: usize) -> &[(Col, u32)]
    ensures { result.now ≡ cols_of tables.now table }
{
    match tables.get(table) {
        None => &[],
        Some(shape) => shape.cols.as_slice(),
    }
}

/// The longest period of a table's columns, in ms.
pub fn longest_period(cols: &[(Col, u32)]) -> u32
    ensures { result ≡ longest_period cols.now }
{
    let mut longest = 0;
    for (_col, period) in cols {
        longest = longest.max(*period);
    }
    longest
}

/// The ranked list at a position.
pub fn rank_at(ranks: &[Rank], position: usize) -> &Rank
    requires { position < length ranks.now }
    ensures { result.now ≡ slice_index_or ranks.now position no_rank }
{
    &ranks[position]
}

/// The filter at a position.
pub fn filter_at(filters: &[Filter], position: usize) -> &Filter
    requires { position < length filters.now }
    ensures { result.now ≡ slice_index_or filters.now position no_filter }
{
    &filters[position]
}

/// Adds a filter behind the others, if it is new.
pub fn add_filter(
    alloc: Global,
    filters: &mut Declared<Filter>,
    filter: &Filter,
) -> Result<(), NoMemory>
    ensures ok { OnOk result (filters.new
        ≡ (if is_new filters.old filter.now then filters.old ++ filter.now ∷ [] else filters.old)) }
    ensures err { OnErr result (filters.new ≡ filters.old) }
{
    if is_new(filters, filter) {
        filters.push(filter.duplicate(alloc)?)
    } else {
        Ok(())
    }
}

/// Whether a filter may be added: fewer stand than may, and none has its name.
fn is_new(filters: &Declared<Filter>, filter: &Filter) -> bool
    ensures { result ≡ is_new filters.now filter.now }
{
    let named = filters.contains(filter.name.as_slice());
    filters.len() < MOST_FILTERS && !named
}

/// Takes the added filter of a name away, if there is one, of which the first so many were
/// configured; those behind it move up by one. Takes no memory.
pub fn drop_filter(filters: &mut Declared<Filter>, configured: usize, name: &Name)
    ensures { filters.new ≡ dropped configured name.now filters.old }
{
    if let Some(place) = added_at(filters.as_slice(), configured, name.as_slice()) {
        filters.remove(place);
    }
}

/// The place of the added filter of a name, of which the first so many were configured.
pub fn added_at(filters: &[Filter], configured: usize, name: &[u8]) -> Option<usize>
    ensures within { IfSome result (λ place. place < length filters.now) }
    ensures there { is_some result ≡ is_added configured filters.now name.now }
    ensures gone { dropped configured name.now filters.now
        ≡ option_map_or (λ place. remove filters.now place) result filters.now }
{
    for place in configured..filters.len() {
        if filters[place].name.is(name) {
            return Some(place);
        }
    }
    None
}
