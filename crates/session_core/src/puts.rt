//! The rows that updates give. What updates of one table have in common, that stand one behind the
//! other, is looked up once.

ghost use Rattle.std.specs.Prelude.{◌≡◌, ◌≤◌, ◌==◌, IfOk, IfSome, OnOk, Some};
ghost use Rattle.agg_types.specs.Kind.{kind_length};
ghost use Rattle.session_core.specs.Meaning.{AddsFact};
ghost use Rattle.session_core.specs.Plan.{IsPlanOf};
ghost use Rattle.session_core.specs.Puts.{PutsGoOn, put_in, put_of_values};
ghost use Rattle.session_core.specs.Tracked.{id_after, put_of};
ghost use Rattle.update_values.specs.Plan.{AreCells, IsPlan, cells_read};
ghost use Rattle.update_values.specs.Values.{cells_at};

use crate::lives::life_of;
use crate::track::Followed;
use agg_types::{Cell, Cells, Col, Declared, KeyLength, NoMemory, PackedCells, Shape, What, Whats};
use peers_msg::{Given, LentMessage};
use std::alloc::Global;
use update_values::{CachedPlan, key_at, key_of, key_of_length};

/// Adds the rows of the updates from a place on to the facts, up to the first message that is none
/// or can't be read: its place, and the id of the last update before it. They are read along the
/// plan of their table.
#[inline(never)]
pub(crate) fn put_updates(
    alloc: Global,
    peer: usize,
    followed: &Followed,
    shape: &Shape,
    plan: &mut CachedPlan,
    given: &Given,
    from: usize,
    last: u32,
    facts: &mut Whats,
) -> Result<(usize, u32), NoMemory>
    requires { IsPlan followed.now.layout shape.now.cols plan.old }
    ensures puts { IfOk result (λ x. PutsGoOn peer followed.now shape.now from last facts.old
        facts.new given.now.messages x.0 x.1) }
    ensures forward { IfOk result (λ x. from ≤ x.0) }
    ensures planned { IsPlan followed.now.layout shape.now.cols plan.new }
{
    let length = shape.kind.length();
    let count = given.len();
    let mut at = from;
    let mut newest = last;
    while at < count {
        let Some(message) = given.get(at) else {
            break;
        };
        let LentMessage::Update { id, life, rest } = message else {
            break;
        };
        if !put(
            alloc, peer, followed, shape, length, plan, life, rest, facts,
        )? {
            break;
        }
        newest = id_after(newest, id);
        at += 1;
    }
    Ok((at, newest))
}

/// Adds the row that an update gives to the facts; false where its key or a value is cut or too
/// large. Cells that fit in words, as most do, are read straight into them.
#[inline(always)]
#[tactic(auto, unfolding(crate::specs::Puts::put_in))]
fn put(
    alloc: Global,
    peer: usize,
    followed: &Followed,
    shape: &Shape,
    length: KeyLength,
    plan: &mut CachedPlan,
    life: Option<u32>,
    bytes: &[u8],
    facts: &mut Whats,
) -> Result<bool, NoMemory>
    requires plan { IsPlan followed.now.layout shape.now.cols plan.old }
    requires length { length ≡ kind_length shape.now.kind }
    ensures put { IfOk result (λ told. AddsFact told facts.old facts.new
        (put_in shape.now peer followed.now life bytes.now)) }
    ensures planned { IsPlan followed.now.layout shape.now.cols plan.new }
{
    let Some((key, values)) = key_of_length(length, bytes) else {
        return Ok(false);
    };
    let life = life_of(shape.keep, followed.expiry, life);
    if let Some(packed) = pack_cells(followed, shape.cols.as_slice(), plan, values) {
        let key = key_of(alloc, key)?;
        facts.push_packed(peer, followed.table, key, life, packed)?;
        return Ok(true);
    }
    put_wide(alloc, peer, followed, shape, plan, life, key, values, facts)
}

/// Reads the cells of an update's values along the plan into words; `None` where `read_cells` has
/// to read them.
#[inline(always)]
fn pack_cells(
    followed: &Followed,
    cols: &[(Col, u32)],
    plan: &CachedPlan,
    values: &[u8],
) -> Option<PackedCells>
    requires { IsPlan followed.now.layout cols.now plan.now }
    ensures { IfSome result (λ packed.
        cells_at followed.now.layout cols.now values.now ≡ Some packed) }
{
    plan.pack(values)
}

/// Adds the row of this key and this life whose values these are to the facts; false where a value
/// is cut or too large. Its cells needn't fit in words. It is apart, so that the updates whose
/// cells do make no room for it.
#[inline(never)]
fn put_wide(
    alloc: Global,
    peer: usize,
    followed: &Followed,
    shape: &Shape,
    plan: &mut CachedPlan,
    life: Option<u64>,
    key: &[u8],
    values: &[u8],
    facts: &mut Whats,
) -> Result<bool, NoMemory>
    requires { IsPlan followed.now.layout shape.now.cols plan.old }
    ensures put { IfOk result (λ told. AddsFact told facts.old facts.new
        (put_of_values shape.now peer followed.now life key.now values.now)) }
    ensures planned { IsPlan followed.now.layout shape.now.cols plan.new }
{
    if !read_cells(followed, shape.cols.as_slice(), plan, values) {
        return Ok(false);
    }
    let key = key_of(alloc, key)?;
    facts.push_put(peer, followed.table, key, life, plan.cells())?;
    Ok(true)
}

/// Reads the cells of an update's values along the plan; false where a value is cut or too large.
#[inline(always)]
fn read_cells(
    followed: &Followed,
    cols: &[(Col, u32)],
    plan: &mut CachedPlan,
    values: &[u8],
) -> bool
    requires { IsPlan followed.now.layout cols.now plan.old }
    ensures cells { AreCells result plan.new.cells.items
        (cells_at followed.now.layout cols.now values.now) }
    ensures planned { IsPlan followed.now.layout cols.now plan.new }
{
    plan.read(values)
}

/// Makes the plan of a definition, where there is none.
pub(crate) fn make_plan(
    alloc: Global,
    followed: &Followed,
    cols: &[(Col, u32)],
    plan: &mut Option<CachedPlan>,
) -> Result<(), NoMemory>
    requires { IfSome plan.old (IsPlan followed.now.layout cols.now) }
    ensures { OnOk result
        (IfSome plan.new (IsPlan followed.now.layout cols.now)) }
{
    if plan.is_none() {
        let made = CachedPlan::new(alloc, &followed.layout, cols)?;
        *plan = Some(made);
    }
    Ok(())
}

/// Adds the row that an update alone gives to the facts; false where its key or a value is cut or
/// too large. Runs have taken all that can be read, so this finds one that can't, and needs no
/// speed. Without a second call of `push_put`, the one of the run is laid into it.
#[tactic(auto, unfolding(crate::specs::Tracked::put_of))]
pub(crate) fn tell_put(
    alloc: Global,
    tables: &Declared<Shape>,
    peer: usize,
    followed: &Followed,
    plan: &mut Option<CachedPlan>,
    life: Option<u32>,
    bytes: &[u8],
    facts: &mut Whats,
) -> Result<bool, NoMemory>
    requires { IfSome plan.old (IsPlanOf tables.now followed.now) }
    ensures put { IfOk result (λ told. AddsFact told facts.old facts.new
        (put_of tables.now peer followed.now life bytes.now)) }
    ensures planned { OnOk result (IfSome plan.new (IsPlanOf tables.now followed.now)) }
{
    let Some(shape) = tables.get(followed.table) else {
        return Ok(false);
    };
    let Some((key, values)) = key_at(shape.kind, bytes) else {
        return Ok(false);
    };
    if !read_planned(alloc, followed, shape.cols.as_slice(), plan, values)? {
        return Ok(false);
    }
    let what = What::Put {
        peer,
        table: followed.table,
        key: key_of(alloc, key)?,
        life: life_of(shape.keep, followed.expiry, life),
        cells: Cells::copy(alloc, cells_read(plan))?,
    };
    facts.push(what)?;
    Ok(true)
}

/// Reads the cells of an update's values along the plan, which is made where there is none; false
/// where a value is cut or too large.
#[inline]
fn read_planned(
    alloc: Global,
    followed: &Followed,
    cols: &[(Col, u32)],
    plan: &mut Option<CachedPlan>,
    values: &[u8],
) -> Result<bool, NoMemory>
    requires { IfSome plan.old (IsPlan followed.now.layout cols.now) }
    ensures cells { IfOk result (λ whole. AreCells whole (cells_read plan.new)
        (cells_at followed.now.layout cols.now values.now)) }
    ensures planned { OnOk result
        (IfSome plan.new (IsPlan followed.now.layout cols.now)) }
{
    if let Some(plan) = plan {
        return Ok(plan.read(values));
    }
    let mut made = CachedPlan::new(alloc, &followed.layout, cols)?;
    let whole = made.read(values);
    *plan = Some(made);
    Ok(whole)
}

/// The cells that were read last along a plan.
#[inline]
fn cells_read(plan: &Option<CachedPlan>) -> &[Cell]
    ensures { result.now ≡ cells_read plan.now }
{
    match plan {
        Some(plan) => plan.cells(),
        None => &[],
    }
}

/// The id of an update, where the last one's is this.
#[inline]
pub(crate) fn id_after(last: u32, id: Option<u32>) -> u32
    ensures { result ≡ id_after last id }
{
    match id {
        Some(id) => id,
        None => last.wrapping_add(1),
    }
}
