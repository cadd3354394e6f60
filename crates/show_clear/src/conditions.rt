//! Conditions from the words of a line.

ghost use Rattle.show_clear.specs.Parse.{Says, Takes, cond_of, conds_of, no_more_at, some_conds};
ghost use Rattle.show_clear.specs.Parse.{stored_column};
ghost use Rattle.std.specs.Prelude.{◌≡◌, [], Err, IfErr, IfOk};

use crate::{CommandFault, Refused};
use agg_types::{Col, Cond, Items, MOST_CONDS, Shape};
use line_words::{DATA, Expected, Misread, Words};
use std::alloc::Global;

// The column of a condition, which the table has to store.
#[tactic(auto, unfolding(crate::specs::Parse::stored_column))]
fn stored_column(shape: &Shape, words: &mut Words<'_>) -> Result<Col, Refused>
    ensures { Takes (stored_column shape.now.cols words.old) result words.new }
{
    let place = words.place();
    let col = words.data_column()?;
    if shape.stores(col) {
        Ok(col)
    } else {
        Err(Refused::at(
            CommandFault::BadColumn,
            Misread::wrong(place, Expected::Column),
        ))
    }
}

// A condition on a table.
#[tactic(auto, unfolding(crate::specs::Parse::cond_of))]
fn next_cond(shape: &Shape, words: &mut Words<'_>) -> Result<Cond, Refused>
    ensures { Takes (cond_of shape.now.cols words.old) result words.new }
{
    let col = stored_column(shape, words)?;
    let (op, bound) = words.comparison()?;
    let bound = bound?;
    Ok(Cond { col, op, bound })
}

/// Up to four conditions on a table, to the end of the line.
#[tactic(auto, using(crate::proofs::CondLemmas::cond_lemmas))]
pub(crate) fn read_conds(
    alloc: Global,
    shape: &Shape,
    words: &mut Words<'_>,
) -> Result<Items<Cond>, Refused>
    ensures { Says (conds_of shape.now.cols MOST_CONDS words.old) result }
{
    let mut conds = Vec::new(alloc);
    for _ in 0..MOST_CONDS {
        if words.is_empty() {
            return Ok(Items::from_vec(conds));
        }
        conds.push(next_cond(shape, words)?)?;
    }
    no_more(words)?;
    Ok(Items::from_vec(conds))
}

// No word may follow the last condition that may be.
fn no_more(words: &mut Words<'_>) -> Result<(), Refused>
    ensures ok { IfOk result
        (λ none. no_more_at words.old.number words.old.words ≡ Ok []) }
    ensures err { IfErr result
        (λ refused. no_more_at words.old.number words.old.words ≡ Err refused) }
{
    if words.is_empty() {
        return Ok(());
    }
    let place = words.place();
    let word = words.word(Expected::End)?;
    let fault = if word.starts_with(DATA) {
        CommandFault::TooMany
    } else {
        CommandFault::Unknown
    };
    Err(Refused::at(fault, Misread::wrong(place, Expected::End)))
}

/// One to four conditions on a table, to the end of the line.
#[tactic(auto, unfolding(crate::specs::Parse::some_conds))]
pub(crate) fn read_some_conds(
    alloc: Global,
    shape: &Shape,
    words: &mut Words<'_>,
) -> Result<Items<Cond>, Refused>
    ensures { Says (some_conds shape.now.cols words.old) result }
{
    if words.is_empty() {
        return Err(Refused::from(Misread::missing(words.place(), Expected::Condition)));
    }
    read_conds(alloc, shape, words)
}
