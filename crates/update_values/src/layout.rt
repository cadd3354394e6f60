//! What a definition says of the values of its table's updates, and where a column is among them.

ghost use Rattle.std.specs.Prelude.{◌≡◌, ◌<◌, ◌≤◌, IfSome};
ghost use Rattle.peers_msg.specs.Payload.{is_array};
ghost use Rattle.update_values.specs.Layout.{array_periods_after, cell_place, count_of, counts_of};
ghost use Rattle.update_values.specs.Layout.{element_for, ends_at, has_period, has_type};
ghost use Rattle.update_values.specs.Layout.{is_rate_type, layout_of, needed, needed_by, period_of};
ghost use Rattle.update_values.specs.Layout.{periods_after, periods_of, place_of, readable, types};
ghost use Rattle.update_values.specs.Layout.{types_read, value_width, width_of};

use agg_types::{Col, LAST_BASIC_TYPE, LAST_TYPE};
use peers_msg::data_types::{GPC_ARRAY, GPC_RATE_ARRAY, GPT_ARRAY, SERVER_KEY};
use peers_msg::{ArrayParameter, Definition};

/// How many data types are known: those from 0 on.
pub const TYPES: usize = LAST_TYPE as usize + 1;

/// How many of them are read in any case.
const BASIC_TYPES: usize = LAST_BASIC_TYPE as usize + 1;

/// How many elements an array has at most, as HAProxy has them.
pub const MOST_ELEMENTS: u64 = 100;

/// How many data types are arrays.
const ARRAYS: usize = 3;

/// What a definition says of the values of its table's updates.
#[derive(Clone, Copy, Debug)]
pub struct Layout {
    /// The data types that are sent, a bit for each.
    pub bits: u64,
    /// The period of each data type in ms; 0 where none is given.
    pub periods: [u64; TYPES],
    /// How many elements each array has, from the first data type of arrays on; 0 where it isn't
    /// said.
    pub counts: [u64; ARRAYS],
}

/// Where a definition has a column.
#[derive(Clone, Copy, Debug)]
pub(crate) struct Place {
    /// The data type.
    pub(crate) kind: usize,
    /// The element, where that is an array, else 0.
    pub(crate) element: usize,
}

/// What a definition says of the values of its table's updates.
pub fn layout_of(definition: &Definition) -> Layout
    ensures { result ≡ layout_of definition.now }
{
    Layout {
        bits: definition.bits,
        periods: periods_of(definition),
        counts: counts_of(definition),
    }
}

/// The period of each data type, in ms; 0 where none is given.
#[tactic(auto, unfolding(crate::specs::Layout::periods_of))]
fn periods_of(definition: &Definition) -> [u64; TYPES]
    ensures { result ≡ periods_of definition.now }
{
    let mut periods = [0; TYPES];
    put_periods(definition.periods.as_slice(), &mut periods);
    put_array_periods(definition.arrays.as_slice(), &mut periods);
    periods
}

/// Puts the periods of pairs in their places.
fn put_periods(pairs: &[(u64, u64)], periods: &mut [u64; TYPES])
    ensures { periods.new ≡ periods_after periods.old pairs.now }
{
    for (id, period) in pairs {
        if *id < TYPES as u64 {
            periods[*id as usize] = *period;
        }
    }
}

/// Puts the periods of arrays in their places.
fn put_array_periods(arrays: &[ArrayParameter], periods: &mut [u64; TYPES])
    ensures { periods.new ≡ array_periods_after periods.old arrays.now }
{
    for array in arrays {
        if array.id < TYPES as u64 {
            periods[array.id as usize] = array.period.unwrap_or(0);
        }
    }
}

/// How many elements each array has; 0 where it isn't said.
#[tactic(auto, unfolding(crate::specs::Layout::counts_of))]
fn counts_of(definition: &Definition) -> [u64; ARRAYS]
    ensures { result ≡ counts_of definition.now }
{
    let mut counts = [0; ARRAYS];
    for array in definition.arrays.as_slice() {
        if is_array(array.id) {
            counts[(array.id - GPT_ARRAY) as usize] = array.count;
        }
    }
    counts
}

/// Whether a data type is an array.
fn is_array(kind: u64) -> bool
    ensures { result ≡ is_array kind }
{
    kind >= GPT_ARRAY && kind <= GPC_RATE_ARRAY
}

/// Whether a data type is among these bits.
pub(crate) fn has_type(bits: u64, kind: usize) -> bool
    requires { kind < 64 }
    ensures { result ≡ has_type bits kind }
{
    (bits >> kind) % 2 == 1
}

/// Whether a data type is a rate: the columns say it.
fn is_rate_type(kind: usize) -> bool
    ensures { result ≡ is_rate_type kind }
{
    Col::ALL
        .iter()
        .any(|col| col.is_rate() && usize::from(col.id()) == kind)
}

/// The element of an array that stands in a column's place.
fn element_for(col: Col) -> Option<Place>
    ensures { result ≡ element_for col }
{
    let kind = match col {
        Col::Gpc0 | Col::Gpc1 => GPC_ARRAY as usize,
        Col::Gpc0Rate | Col::Gpc1Rate => GPC_RATE_ARRAY as usize,
        _ => return None,
    };
    match col {
        Col::Gpc0 | Col::Gpc0Rate => Some(Place { kind, element: 0 }),
        _ => Some(Place { kind, element: 1 }),
    }
}

impl Layout {
    /// The period of a data type, in ms; 0 where none is given.
    pub(crate) fn period_of(&self, kind: usize) -> u64
        ensures { result ≡ period_of self.now kind }
    {
        self.periods.get(kind).copied().unwrap_or(0)
    }

    /// How many elements an array has.
    fn count_of(&self, kind: usize) -> u64
        ensures { result ≡ count_of self.now kind }
    {
        let at = kind.saturating_sub(GPT_ARRAY as usize);
        self.counts.get(at).copied().unwrap_or(0)
    }

    /// How many numbers an update has of a data type.
    pub(crate) fn width_of(&self, kind: usize) -> usize
        requires { kind < 64 }
        ensures all { result ≡ width_of self.now kind }
        ensures small { result ≤ 300 }
    {
        if has_type(self.bits, kind) {
            self.value_width(kind)
        } else {
            0
        }
    }

    /// How many numbers the value of a data type is.
    fn value_width(&self, kind: usize) -> usize
        ensures all { result ≡ value_width self.now kind }
        ensures small { result ≤ 300 }
    {
        let id = kind as u64;
        if id == SERVER_KEY {
            return 0;
        }
        if is_array(id) {
            let each = if id == GPC_RATE_ARRAY { 3 } else { 1 };
            return each * self.count_of(kind).min(MOST_ELEMENTS) as usize;
        }
        if is_rate_type(kind) { 3 } else { 1 }
    }

    /// Where the definition has a column: its own data type, or else an array's.
    pub(crate) fn place_of(&self, col: Col) -> Option<Place>
        ensures exact { result ≡ place_of self.now col }
        ensures small { IfSome result (λ place. place.kind < types) }
        ensures early { IfSome result (λ place. place.element ≤ 1) }
    {
        let kind = usize::from(col.id());
        if has_type(self.bits, kind) {
            return Some(Place { kind, element: 0 });
        }
        let place = element_for(col)?;
        if has_type(self.bits, place.kind) && (place.element as u64) < self.count_of(place.kind) {
            Some(place)
        } else {
            None
        }
    }

    /// Whether a data type has a column's period; counts have none.
    pub(crate) fn has_period(&self, kind: usize, col: (Col, u32)) -> bool
        ensures { result ≡ has_period self.now kind col }
    {
        !col.0.is_rate() || self.period_of(kind) == u64::from(col.1)
    }

    /// Where the value of a column is, if it becomes a cell.
    pub(crate) fn cell_place(&self, col: (Col, u32)) -> Option<Place>
        ensures exact { result ≡ cell_place self.now col }
        ensures small { IfSome result (λ place. place.kind < types) }
        ensures early { IfSome result (λ place. place.element ≤ 1) }
    {
        let place = self.place_of(col.0)?;
        if self.has_period(place.kind, col) {
            Some(place)
        } else {
            None
        }
    }

    /// Whether reading ends at an array.
    fn ends_at(&self, kind: u64) -> bool
        requires { kind < 64 }
        ensures { result ≡ ends_at self.now kind }
    {
        let kind = kind as usize;
        let count = self.count_of(kind);
        has_type(self.bits, kind) && !(count >= 1 && count <= MOST_ELEMENTS)
    }

    /// How many data types can be read.
    pub(crate) fn readable(&self) -> usize
        ensures exact { result ≡ readable self.now }
        ensures within { result ≤ types }
    {
        if self.ends_at(GPT_ARRAY) {
            GPT_ARRAY as usize
        } else if self.ends_at(GPC_ARRAY) {
            GPC_ARRAY as usize
        } else if self.ends_at(GPC_RATE_ARRAY) {
            GPC_RATE_ARRAY as usize
        } else {
            TYPES
        }
    }

    /// How many data types a column needs.
    fn needed(&self, col: (Col, u32)) -> usize
        ensures { result ≡ needed self.now col }
    {
        match self.cell_place(col) {
            None => 0,
            Some(place) => place.kind + 1,
        }
    }

    /// How many data types these columns need.
    fn needed_by(&self, cols: &[(Col, u32)]) -> usize
        ensures { result ≡ needed_by self.now cols.now }
    {
        match cols {
            [] => BASIC_TYPES,
            [first, rest @ ..] => self.needed(*first).max(self.needed_by(rest)),
        }
    }

    /// How many data types are read of the updates of a table with these columns.
    pub(crate) fn types_read(&self, cols: &[(Col, u32)]) -> usize
        ensures exact { result ≡ types_read self.now cols.now }
        ensures within { result ≤ types }
    {
        self.readable().min(self.needed_by(cols))
    }
}
