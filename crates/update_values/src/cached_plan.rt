//! A plan that is kept from update to update, with what it was made of.

ghost use Rattle.std.specs.Prelude.{◌≡◌, [], vec_len, IsTrue, IfOk, IfSome, Some};
ghost use Rattle.update_values.specs.Plan.{AreCells, IsPlan, planned};

use crate::decode_plan::DecodePlan;
use crate::layout::Layout;
use agg_types::{Cell, Col, Items, NoMemory, PackedCells};
use std::alloc::Global;
use std::marker::Model;

/// A plan, with the layout and the columns that it was made of, in a block of
/// their own, so that it is moved at little cost. Contracts see the plan.
#[derive(Debug, Drop)]
pub struct CachedPlan {
    made: Box<Made>,
}

#[derive(Debug, Drop)]
struct Made {
    layout: Layout,
    cols: Items<(Col, u32)>,
    plan: DecodePlan,
}

impl Model for CachedPlan {
    ghost use Rattle.std.specs.Prelude.{box_value};
    ghost use Rattle.update_values.specs.declared.decode_plan.DecodePlan.{DecodePlan};

    ghost Value = { DecodePlan };

    ghost view = { λ kept. box_value kept.made };
}

impl Model for Made {
    ghost use Rattle.update_values.specs.declared.decode_plan.DecodePlan.{DecodePlan};
    ghost use Rattle.update_values.specs.Plan.{IsPlan};

    ghost Value = { DecodePlan };

    ghost view = { λ made. made.plan };

    ghost invariant = { λ made. IsPlan made.layout made.cols made.plan };
}

impl CachedPlan {
    /// The plan for updates of this layout, under these columns.
    pub fn new(alloc: Global, layout: &Layout, cols: &[(Col, u32)]) -> Result<CachedPlan, NoMemory>
        ensures { IfOk result (IsPlan layout.now cols.now) }
    {
        let made = Made {
            layout: *layout,
            cols: Items::copy(alloc, cols)?,
            plan: DecodePlan::new(alloc, layout, cols)?,
        };
        Ok(CachedPlan {
            made: Box::new(alloc, made)?,
        })
    }

    /// Whether it is the plan of these. A false costs a plan that is made again.
    pub(crate) fn is_of(&self, layout: &Layout, cols: &[(Col, u32)]) -> bool
        ensures { IsTrue result → IsPlan layout.now cols.now self.now }
    {
        self.made.is_of(layout, cols)
    }

    /// Reads the cells of an update's values into words; `None` where `read` has to read them.
    #[inline(always)]
    pub fn pack(&self, bytes: &[u8]) -> Option<PackedCells>
        ensures { IfSome result (λ packed. planned self.now bytes.now ≡ Some packed) }
    {
        self.made.pack(bytes)
    }

    /// Reads the cells of an update's values; false where one is cut or too large.
    #[inline]
    pub fn read(&mut self, bytes: &[u8]) -> bool
        ensures cells { AreCells result self.new.cells.items (planned self.old bytes.now) }
        ensures width { vec_len self.new.numbers ≡ vec_len self.old.numbers }
        ensures name { self.new.name ≡ self.old.name }
        ensures sources { self.new.sources ≡ self.old.sources }
    {
        self.made.read(bytes)
    }

    /// The cells of the update that was read last.
    #[inline]
    pub fn cells(&self) -> &[Cell]
        ensures { result.now ≡ self.now.cells.items }
    {
        self.made.cells()
    }
}

impl Made {
    fn is_of(&self, layout: &Layout, cols: &[(Col, u32)]) -> bool
        ensures { IsTrue result → IsPlan layout.now cols.now self.now }
    {
        same_layout(&self.layout, layout) && same_cols(self.cols.as_slice(), cols)
    }

    #[inline(always)]
    fn pack(&self, bytes: &[u8]) -> Option<PackedCells>
        ensures { IfSome result (λ packed. planned self.now bytes.now ≡ Some packed) }
    {
        self.plan.pack(bytes)
    }

    #[inline]
    fn read(&mut self, bytes: &[u8]) -> bool
        ensures cells { AreCells result self.new.cells.items (planned self.old bytes.now) }
        ensures width { vec_len self.new.numbers ≡ vec_len self.old.numbers }
        ensures name { self.new.name ≡ self.old.name }
        ensures sources { self.new.sources ≡ self.old.sources }
    {
        self.plan.read(bytes)
    }

    #[inline]
    fn cells(&self) -> &[Cell]
        ensures { result.now ≡ self.now.cells.items }
    {
        self.plan.cells.as_slice()
    }
}

fn same_layout(left: &Layout, right: &Layout) -> bool
    ensures { IsTrue result → left.now ≡ right.now }
{
    left.bits == right.bits
        && same_numbers(&left.periods, &right.periods)
        && same_numbers(&left.counts, &right.counts)
}

fn same_numbers(left: &[u64], right: &[u64]) -> bool
    ensures { IsTrue result → left.now ≡ right.now }
{
    left == right
}

fn same_cols(left: &[(Col, u32)], right: &[(Col, u32)]) -> bool
    ensures { IsTrue result → left.now ≡ right.now }
{
    match left {
        [] => right.is_empty(),
        [col, cols @ ..] => match right {
            [] => false,
            [other, others @ ..] => {
                col.1 == other.1 && same_col(col.0, other.0) && same_cols(cols, others)
            }
        },
    }
}

fn same_col(left: Col, right: Col) -> bool
    ensures { IsTrue result → left ≡ right }
{
    left == right
}

/// The plan of these, if it is among those kept; it is taken out.
pub fn take_plan(
    plans: &mut Vec<CachedPlan>,
    layout: &Layout,
    cols: &[(Col, u32)],
) -> Option<CachedPlan>
    ensures { IfSome result (IsPlan layout.now cols.now) }
{
    for at in 0..plans.len() {
        if at < plans.len() && plans[at].is_of(layout, cols) {
            return Some(plans.swap_remove(at));
        }
    }
    None
}
