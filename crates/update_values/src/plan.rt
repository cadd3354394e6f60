//! Where a column's numbers are among those of an update, and its cell from them.

ghost use Rattle.std.specs.Prelude.{◌≡◌, ◌<◌, ◌≤◌, ◌*◌, Option, IfOk, length, drop, map};
ghost use Rattle.std.specs.Option.{ForSome, option_map};
ghost use Rattle.update_values.specs.Layout.{types};
ghost use Rattle.update_values.specs.Plan.{cell_from, name_before, no_source, numbers_along};
ghost use Rattle.update_values.specs.Plan.{source_at, source_of, widths};
ghost use Rattle.update_values.specs.Values.{count_in, numbers_at, rate_in};

use crate::layout::{Layout, Place, has_type};
use crate::values::{elapsed_of, low_word, number_at, string_at};
use agg_types::{Cell, Col, NoMemory};
use peers_msg::data_types::SERVER_KEY;
use std::alloc::Global;

/// Where a column's numbers are among those of an update. Three kinds are distinguished by
/// branches, which are foreseen; four took a table of jumps, and a third of the time of a long row.
#[derive(Clone, Copy, Debug)]
pub(crate) enum Source {
    /// This cell stands for a column that isn't sent, or whose rate has another period.
    Blank(Cell),
    /// A count, which is kept modulo 2^64 if it is wide, else modulo 2^32.
    Count { at: usize, wide: bool },
    /// A rate's three.
    Rate { at: usize },
}

/// How many numbers an update has of the data types below this one.
pub(crate) fn widths(layout: &Layout, below: usize) -> usize
    requires { below ≤ types }
    ensures all { result ≡ widths layout.now below 0 }
    ensures small { result ≤ 300 * below }
{
    let mut all = 0;
    for kind in 0..below {
        all += layout.width_of(kind);
    }
    all
}

/// Where the numbers of a column are, where so many data types are read.
fn source_of(layout: &Layout, count: usize, col: (Col, u32)) -> Source
    ensures { result ≡ source_of layout.now count col }
{
    match layout.cell_place(col) {
        None => blank(col.0),
        Some(place) => source_at(layout, count, col.0, place),
    }
}

/// Where the numbers of these columns are, where so many data types are read.
pub(crate) fn sources_of(
    alloc: Global,
    layout: &Layout,
    count: usize,
    cols: &[(Col, u32)],
) -> Result<Vec<Source>, NoMemory>
    ensures { IfOk result (λ sources. sources.items
        ≡ map (source_of layout.now count) cols.now) }
{
    let mut sources = Vec::with_capacity(alloc, cols.len())?;
    for col in cols {
        sources.push(source_of(layout, count, *col))?;
    }
    Ok(sources)
}

/// The same of a column that the definition has at this place.
fn source_at(layout: &Layout, count: usize, col: Col, place: Place) -> Source
    requires kind { place.kind < types }
    requires element { place.element ≤ 1 }
    ensures { result ≡ source_at layout.now count col (Option.Some place) }
{
    if place.kind >= count {
        return blank(col);
    }
    let first = widths(layout, place.kind);
    if col.is_rate() {
        Source::Rate {
            at: first + 3 * place.element,
        }
    } else {
        Source::Count {
            at: first + place.element,
            wide: col.is_wide(),
        }
    }
}

/// What stands for a column that has no numbers.
fn blank(col: Col) -> Source
    ensures { result ≡ no_source col }
{
    if col.is_rate() {
        Source::Blank(rate(0, 0, 0))
    } else {
        Source::Blank(Cell::Count(0))
    }
}

/// Before which number the name of a server stands, where so many data types are read.
pub(crate) fn name_before(layout: &Layout, count: usize) -> Option<usize>
    ensures exact { result ≡ name_before layout.now count }
    ensures within { ForSome result (λ before. before ≤ widths layout.now count 0) }
{
    let kind = SERVER_KEY as usize;
    if has_type(layout.bits, kind) && kind < count {
        Some(widths(layout, kind))
    } else {
        None
    }
}

/// Puts the cells of all columns in place of what was there.
#[inline]
pub(crate) fn fill(cells: &mut [Cell], numbers: &[u64], sources: &[Source])
    requires { length cells.old ≡ length sources.now }
    ensures { cells.new ≡ map (cell_from numbers.now) sources.now }
{
    for (at, source) in sources.iter().enumerate() {
        cells[at] = cell_from(numbers, *source);
    }
}

/// Reads as many numbers as there is room for, with a name before this one: whether none is cut or
/// too large.
pub(crate) fn read_along(name: Option<usize>, bytes: &[u8], numbers: &mut [u64]) -> Option<()>
    requires { ForSome name (λ before. before ≤ length numbers.old) }
    ensures along { option_map (λ _. numbers.new) result
        ≡ numbers_along name (length numbers.old) bytes.now }
    ensures room { length numbers.new ≡ length numbers.old }
{
    match name {
        None => {
            read_numbers(bytes, numbers)?;
            Some(())
        }
        Some(before) => read_around(before, bytes, numbers),
    }
}

/// The same, where a name is there.
fn read_around(before: usize, bytes: &[u8], numbers: &mut [u64]) -> Option<()>
    requires { before ≤ length numbers.old }
    ensures along { option_map (λ _. numbers.new) result
        ≡ numbers_along (Option.Some before) (length numbers.old) bytes.now }
    ensures room { length numbers.new ≡ length numbers.old }
{
    let (front, others) = numbers.split_at_mut(before);
    let rest = read_numbers(bytes, front)?;
    let (_, rest) = string_at(rest)?;
    read_numbers(rest, others)?;
    Some(())
}

/// Reads as many numbers as there is room for: the bytes after them; `None` where one is cut or too
/// large.
fn read_numbers<'a>(bytes: &'a [u8], numbers: &mut [u64]) -> Option<&'a [u8]>
    ensures numbers { option_map (λ rest. (numbers.new, rest.now)) result
        ≡ numbers_at (length numbers.old) bytes.now }
    ensures room { length numbers.new ≡ length numbers.old }
{
    let mut rest = bytes;
    for number in numbers.iter_mut() {
        let (value, after) = number_at(rest)?;
        *number = value;
        rest = after;
    }
    Some(rest)
}

#[inline]
fn cell_from(numbers: &[u64], source: Source) -> Cell
    ensures { result ≡ cell_from numbers.now source }
{
    match source {
        Source::Blank(cell) => cell,
        Source::Count { at, wide } => count_in(from(numbers, at), wide),
        Source::Rate { at } => rate_in(from(numbers, at)),
    }
}

/// The numbers from this place on.
#[inline]
fn from(numbers: &[u64], at: usize) -> &[u64]
    ensures { result.now ≡ drop at numbers.now }
{
    if at <= numbers.len() {
        &numbers[at..]
    } else {
        &[]
    }
}

#[inline]
pub(crate) fn count_in(numbers: &[u64], wide: bool) -> Cell
    ensures { result ≡ count_in wide numbers.now }
{
    match numbers {
        [count, ..] if wide => Cell::Count(*count),
        [count, ..] => Cell::Count(u64::from(low_word(*count))),
        [] => Cell::Count(0),
    }
}

#[inline]
pub(crate) fn rate_in(numbers: &[u64]) -> Cell
    ensures { result ≡ rate_in numbers.now }
{
    match numbers {
        [elapsed, cur, prev, ..] => rate(elapsed_of(*elapsed), low_word(*cur), low_word(*prev)),
        _ => rate(0, 0, 0),
    }
}

#[inline]
pub(crate) fn rate(elapsed: u64, cur: u32, prev: u32) -> Cell
    ensures { result ≡ Cell.Rate elapsed cur prev }
{
    Cell::Rate { elapsed, cur, prev }
}
