//! The cells of an update in one pass over its bytes, where its integers are those of its columns
//! in order.

ghost use Rattle.std.specs.Prelude.{◌≡◌, ◌≤◌, Bool, IfSome, drop, length, Some, None, nat_le, sum};
ghost use Rattle.std.specs.Prelude.{if◌then◌else◌, map};
ghost use Rattle.peers_msg.specs.Payload.{number_at};
ghost use Rattle.std.specs.Option.{option_map};
ghost use Rattle.update_values.specs.Plan.{AreCells};
ghost use Rattle.update_values.specs.Straight.{is_straight, words_of};
ghost use Rattle.update_values.specs.Along.{cell_at, cells_along, cells_with, count_at, rate_at};

use crate::plan::{Source, count_in, rate};
use crate::values::{elapsed_of, low_word};
use agg_types::{Cell, PackedCells};
use peers_msg::get_int;

/// The least first byte of an integer of more than one byte.
const FIRST_OF_LONG: u8 = 240;

/// The last byte of such an integer is below this.
const LAST_BELOW: u8 = 128;

/// Whether the integers of these columns stand one column's behind another's, from this place up
/// to that one.
pub(crate) fn is_straight(at: usize, end: usize, sources: &[Source]) -> bool
    ensures { result ≡ is_straight at end sources.now }
{
    match sources {
        [] => at == end,
        [first, rest @ ..] => match first {
            Source::Blank(_) => is_straight(at, end, rest),
            Source::Count { at: place, .. } => {
                *place == at && at < end && is_straight(at + 1, end, rest)
            }
            Source::Rate { at: place } => {
                *place == at && end.saturating_sub(at) >= 3 && is_straight(at + 3, end, rest)
            }
        },
    }
}

/// Whether the cells of these columns take at most so many words, where they are packed.
pub(crate) fn take_at_most(words: usize, sources: &[Source]) -> bool
    ensures { result ≡ nat_le (sum (map words_of sources.now)) words }
{
    match sources {
        [] => true,
        [first, rest @ ..] => {
            let own = words_of(first);
            own <= words && take_at_most(words - own, rest)
        }
    }
}

/// How many words the cell of a column takes.
fn words_of(source: &Source) -> usize
    ensures { result ≡ words_of source.now }
{
    match source {
        Source::Blank(Cell::Count(_)) | Source::Count { .. } => 1,
        Source::Blank(Cell::Rate { .. }) | Source::Rate { .. } => 3,
    }
}

/// Reads the cells of all columns one behind the other into words, so that none is written to
/// memory as a `Cell`; `None` where an integer is cut or too large, or a cell doesn't fit.
#[inline(always)]
pub(crate) fn read_packed(sources: &[Source], bytes: &[u8]) -> Option<PackedCells>
    ensures { IfSome result (λ packed. cells_along sources.now bytes.now ≡ Some packed) }
{
    let mut packed = PackedCells::none();
    let mut rest = bytes;
    for source in sources {
        let taken = pack_cell(source, rest, &mut packed)?;
        rest = &rest[taken..];
    }
    Some(packed)
}

/// Packs the cell of the column whose integers are at the front behind the others: how many bytes
/// they take. What is rare is read apart, into a cell, so that only that cell has to be in memory.
#[inline(always)]
fn pack_cell(source: &Source, bytes: &[u8], packed: &mut PackedCells) -> Option<usize>
    ensures exact { IfSome result (λ taken. cells_with packed.old (cell_at source.now bytes.now)
        ≡ Some (packed.new, drop taken bytes.now)) }
    ensures within { IfSome result (λ taken. taken ≤ length bytes.now) }
{
    match source {
        Source::Blank(blank) => taken_if(packed.push(*blank), 0),
        Source::Count { wide, .. } => {
            if let Some((count, taken)) = short_count_at(bytes) {
                return taken_if(packed.push_count(count), taken);
            }
            let mut cell = Cell::Count(0);
            let taken = read_count(*wide, bytes, &mut cell)?;
            taken_if(packed.push(cell), taken)
        }
        Source::Rate { .. } => {
            if let Some((elapsed, cur, prev)) = small_rate_at(bytes) {
                let fits = packed.push_rate(u64::from(elapsed), u32::from(cur), u32::from(prev));
                return taken_if(fits, 3);
            }
            let mut cell = Cell::Count(0);
            let taken = read_rate(bytes, &mut cell)?;
            taken_if(packed.push(cell), taken)
        }
    }
}

/// So many bytes, where their cell fits.
#[inline(always)]
fn taken_if(fits: bool, taken: usize) -> Option<usize>
    ensures { result ≡ (if fits then Some taken else None) }
{
    if fits { Some(taken) } else { None }
}

/// Reads the cells of all columns one behind the other; false where an integer is cut or too large.
#[inline]
pub(crate) fn read_straight(sources: &[Source], bytes: &[u8], cells: &mut [Cell]) -> bool
    requires { length cells.old ≡ length sources.now }
    ensures { AreCells result cells.new (cells_along sources.now bytes.now) }
{
    let mut rest = bytes;
    for (at, source) in sources.iter().enumerate() {
        let Some(taken) = read_cell(source, rest, &mut cells[at]) else {
            return false;
        };
        rest = &rest[taken..];
    }
    true
}

/// Reads the cell of the column whose integers are at the front: how many bytes they take. What is
/// rare is apart and gives one number, so that most cells make no room for it.
#[inline(always)]
fn read_cell(source: &Source, bytes: &[u8], cell: &mut Cell) -> Option<usize>
    ensures exact { option_map (λ taken. (cell.new, drop taken bytes.now)) result
        ≡ cell_at source.now bytes.now }
    ensures within { IfSome result (λ taken. taken ≤ length bytes.now) }
{
    match source {
        Source::Blank(blank) => {
            *cell = *blank;
            Some(0)
        }
        Source::Count { wide, .. } => {
            if let Some((count, taken)) = short_count_at(bytes) {
                set_count(cell, count);
                return Some(taken);
            }
            read_count(*wide, bytes, cell)
        }
        Source::Rate { .. } => {
            if let Some((elapsed, cur, prev)) = small_rate_at(bytes) {
                set_rate(cell, u64::from(elapsed), u32::from(cur), u32::from(prev));
                return Some(3);
            }
            read_rate(bytes, cell)
        }
    }
}

/// Puts a count into a cell. Where one was, as in all updates of a table but the first, only its
/// number is written.
#[inline(always)]
fn set_count(cell: &mut Cell, count: u64)
    ensures { cell.new ≡ Cell.Count count }
{
    if let Cell::Count(old) = cell {
        *old = count;
        return;
    }
    *cell = Cell::Count(count);
}

/// Puts a rate into a cell, in the same way.
#[inline(always)]
fn set_rate(cell: &mut Cell, elapsed: u64, cur: u32, prev: u32)
    ensures { cell.new ≡ Cell.Rate elapsed cur prev }
{
    if let Cell::Rate {
        elapsed: old_elapsed,
        cur: old_cur,
        prev: old_prev,
    } = cell
    {
        *old_elapsed = elapsed;
        *old_cur = cur;
        *old_prev = prev;
        return;
    }
    *cell = rate(elapsed, cur, prev);
}

/// A count of one to three bytes, as those of most updates, and how many it has.
#[inline(always)]
fn short_count_at(bytes: &[u8]) -> Option<(u64, usize)>
    ensures exact { (wide : Bool) → IfSome result (λ x. count_at wide bytes.now
        ≡ Some (Cell.Count x.0, drop x.1 bytes.now)) }
    ensures within { IfSome result (λ x. x.1 ≤ length bytes.now) }
{
    match bytes {
        [count, ..] if *count < FIRST_OF_LONG => Some((u64::from(*count), 1)),
        [first, second, ..] if *second < LAST_BELOW => {
            Some((u64::from(*first) + 16 * u64::from(*second), 2))
        }
        [first, second, third, ..] if *third < LAST_BELOW => {
            let low = u64::from(*first) + 16 * u64::from(*second);
            Some((low + 2048 * u64::from(*third), 3))
        }
        _ => None,
    }
}

/// Reads a count: how many bytes it takes.
#[inline(never)]
fn read_count(wide: bool, bytes: &[u8], cell: &mut Cell) -> Option<usize>
    ensures exact { option_map (λ taken. (cell.new, drop taken bytes.now)) result
        ≡ count_at wide bytes.now }
    ensures within { IfSome result (λ taken. taken ≤ length bytes.now) }
{
    let (count, taken) = number_within(bytes)?;
    *cell = count_in(&[count], wide);
    Some(taken)
}

/// A rate whose integers have one byte each, as those of many updates.
#[inline(always)]
fn small_rate_at(bytes: &[u8]) -> Option<(u8, u8, u8)>
    ensures exact { IfSome result (λ x. rate_at bytes.now
        ≡ Some (Cell.Rate x.0 x.1 x.2, drop 3 bytes.now)) }
    ensures within { IfSome result (λ x. 3 ≤ length bytes.now) }
{
    match bytes {
        [elapsed, cur, prev, ..]
            if *elapsed < FIRST_OF_LONG && *cur < FIRST_OF_LONG && *prev < FIRST_OF_LONG => {
            Some((*elapsed, *cur, *prev))
        }
        _ => None,
    }
}

/// Reads a rate: how many bytes it takes.
#[inline(never)]
fn read_rate(bytes: &[u8], cell: &mut Cell) -> Option<usize>
    ensures exact { option_map (λ taken. (cell.new, drop taken bytes.now)) result
        ≡ rate_at bytes.now }
    ensures within { IfSome result (λ taken. taken ≤ length bytes.now) }
{
    let (elapsed, first) = number_within(bytes)?;
    let rest = &bytes[first..];
    let (cur, second) = number_within(rest)?;
    let rest = &rest[second..];
    let (prev, third) = number_within(rest)?;
    *cell = rate(elapsed_of(elapsed), low_word(cur), low_word(prev));
    Some(first + second + third)
}

/// The integer at the front, and how many bytes it takes.
#[inline]
#[tactic(auto, unfolding(peers_msg::specs::Payload::number_at))]
fn number_within(bytes: &[u8]) -> Option<(u64, usize)>
    ensures exact { option_map (λ x. (x.0, drop x.1 bytes.now)) result ≡ number_at bytes.now }
    ensures within { IfSome result (λ x. x.1 ≤ length bytes.now) }
{
    match get_int(bytes) {
        Ok(Some((number, len))) => Some((number, len)),
        Ok(None) | Err(_) => None,
    }
}
