//! The conditions of a `filter` line.

ghost use Rattle.std.specs.Prelude.{◌≡◌};
ghost use Rattle.line_words.specs.Reader.{Reads};
ghost use Rattle.agg_config.specs.Filters.{condition, conditions, known_bound};
ghost use Rattle.agg_config.specs.ReadResults.{Gives, read_each};

use crate::Unread;
use agg_types::{Col, Cond, MOST_CONDS, Op};
use line_words::{Misread, Words};
use std::alloc::Global;

/// A condition as the text has it, with its bound, or why that is no number.
pub(crate) type Condition = (Col, Op, Result<u64, Misread>);

/// The conditions that end a line, up to four.
pub(crate) fn conditions(alloc: Global, words: &mut Words<'_>) -> Result<Vec<Condition>, Unread>
    ensures { Gives (λ conds. conds.items) result (conditions MOST_CONDS words.old) }
{
    let mut conds = Vec::new(alloc);
    for _ in 0..MOST_CONDS {
        if words.is_empty() {
            return Ok(conds);
        }
        conds.push(condition(words)?)?;
    }
    words.end()?;
    Ok(conds)
}

#[tactic(auto, unfolding(crate::specs::Filters::condition))]
fn condition(words: &mut Words<'_>) -> Result<Condition, Misread>
    ensures { Reads (λ x. x) (condition words.old) result words.new }
{
    let col = words.data_column()?;
    let (op, bound) = words.comparison()?;
    Ok((col, op, bound))
}

/// The conditions with their bounds, where each is a number.
pub(crate) fn known_bounds(alloc: Global, conds: &[Condition]) -> Result<Vec<Cond>, Unread>
    ensures { Gives (λ known. known.items) result (read_each known_bound conds.now) }
{
    let mut known = Vec::new(alloc);
    for cond in conds {
        known.push(known_bound(*cond)?)?;
    }
    Ok(known)
}

fn known_bound(cond: Condition) -> Result<Cond, Misread>
    ensures { result ≡ known_bound cond }
{
    let (col, op, bound) = cond;
    let bound = bound?;
    Ok(Cond { col, op, bound })
}
