//! What is answered over HTTP, in memory: targets, lists and figures of a book, for which hosts and
//! how often, and by a clerk and a porter; and what a program is told that follows a filter's set.

mod answers;
mod bounds;
mod clerks;
mod following;
mod targets;

use crate::web::following::{CONFIG as FOLLOWED, follow, show_few};
use anyhow::Result;
use hub::Opening;
use std::alloc::Global;
use std::hash::RandomState;
use std::io::{BufReader, Input};
use std::marker::Brand;
use std::random::RandomSource;
use std::sync::Wait;
use test_support::config;

/// A collector with names that need escapes.
const CONFIG: &[u8] = b"name agg
peer l<b>&\"1\\
peer lb2
table /t type ip size 1000 store gpc0,conn_cnt
table s type string len 20 size 10 store conn_cnt
filter a<&\">b\\ /t data.gpc0 ge 5
filter few s data.conn_cnt lt 3
rank top /t gpc0 4
";

/// Runs each.
pub fn run<R: Print + Input + RandomSource + Wait>(rt: &R, alloc: Global) -> Result<()> {
    let mut input = BufReader::new(alloc, rt.reader())?;
    targets::show(rt, alloc, &mut input)?;
    answers::show(rt, alloc)?;
    bounds::show(rt, alloc)?;
    let opening = Opening::new(alloc, config(alloc, CONFIG)?, 0)?;
    clerks::show::<Brand, R>(rt, alloc, opening, RandomState::new(rt)?)?;
    show_few(rt, alloc)?;
    let followed = Opening::new(alloc, config(alloc, FOLLOWED)?, 0)?;
    follow::<Brand, R>(rt, alloc, followed, RandomState::new(rt)?)
}
