//! What a definition doesn't bring of a table's columns, for who tells it.

ghost use Rattle.std.specs.Prelude.{◌≡◌, ◌<◌};
ghost use Rattle.update_values.specs.Lack.{bits_where, is_not_kept, is_place_of_one, lack_of};
ghost use Rattle.update_values.specs.Lack.{period_lack};
ghost use Rattle.update_values.specs.Layout.{layout_of};

use crate::layout::{Layout, has_type, layout_of};
use agg_types::{Col, Shape};
use peers_msg::Definition;

/// Why the values of a configured column, which counts 0, aren't among those that a definition
/// brings.
#[derive(Clone, Copy, Debug, PartialEq, Eq)]
pub enum Lack {
    /// The column isn't sent, and no element of an array stands in its place.
    NotSent,
    /// It has this period there, in ms, and another one here.
    OtherPeriod(u64),
    /// It has no period there.
    NoPeriod,
    /// It stands behind an array of which the definition doesn't say how many elements it has, or
    /// says 0 or more than 100: what stands behind that can't be read.
    NotRead,
}

/// What a definition lacks of a configured column, with its period in ms (of a count any); `None`
/// where the column's values become cells. The definition's table needn't have the column.
pub fn lack_of(definition: &Definition, col: Col, period: u32) -> Option<Lack>
    ensures { result ≡ lack_of definition.now (col, period) }
{
    let layout = layout_of(definition);
    let Some(place) = layout.place_of(col) else {
        return Some(Lack::NotSent);
    };
    if !layout.has_period(place.kind, (col, period)) {
        return Some(period_lack(layout.period_of(place.kind)));
    }
    if place.kind < layout.readable() {
        None
    } else {
        Some(Lack::NotRead)
    }
}

fn period_lack(period: u64) -> Lack
    ensures { result ≡ period_lack period }
{
    if period == 0 {
        Lack::NoPeriod
    } else {
        Lack::OtherPeriod(period)
    }
}

/// The data types that a definition has and that become no cell of a table, a bit each, those
/// above 26 included; but for those of which `lack_of` tells a lack of one of its columns.
#[tactic(auto, unfolding(crate::specs::Lack::bits_where))]
pub fn types_not_kept(shape: &Shape, definition: &Definition) -> u64
    ensures { result ≡ bits_where
        (is_not_kept (layout_of definition.now) shape.now.cols) 64 }
{
    let layout = layout_of(definition);
    let mut bits = 0;
    for kind in 0..64 {
        if is_not_kept(&layout, shape.cols.as_slice(), kind) {
            bits += 1 << kind;
        }
    }
    bits
}

/// Whether a data type is sent, and no column of the table is at it.
fn is_not_kept(layout: &Layout, cols: &[(Col, u32)], kind: usize) -> bool
    requires { kind < 64 }
    ensures { result ≡ is_not_kept layout.now cols.now kind }
{
    has_type(layout.bits, kind) && !is_place_of_one(layout, cols, kind)
}

/// Whether the definition has one of the columns at a data type.
fn is_place_of_one(layout: &Layout, cols: &[(Col, u32)], kind: usize) -> bool
    ensures { result ≡ is_place_of_one layout.now cols.now kind }
{
    cols.iter().any(|col| match layout.place_of(col.0) {
        None => false,
        Some(place) => place.kind == kind,
    })
}
