//! What targets ask for, a line each.

use anyhow::Result;
use std::alloc::Global;
use std::io::BufRead;
use web_target::{Part, Question, read};

/// Shows what the target of each line asks for.
pub fn show<I: BufRead>(rt: &impl Print, alloc: Global, input: &mut I) -> Result<()> {
    for line in input.lines(alloc) {
        show_one(rt, alloc, line?.as_str())?;
    }
    Ok(())
}

fn show_one(rt: &impl Print, alloc: Global, line: &str) -> Result<()> {
    let (path, query) = match line.split_once("?") {
        None => (line, None),
        Some((path, query)) => (path, Some(query.as_bytes())),
    };
    match read(alloc, path.as_bytes(), query) {
        Err(fault) => println!(rt; "{line}: {fault}")?,
        Ok(question) => {
            print!(rt; "{line}: ")?;
            show_question(rt, &question)?;
        }
    }
    Ok(())
}

fn say(rt: &impl Print, what: &str) -> Result<()> {
    println!(rt; "{what}")?;
    Ok(())
}

fn show_question(rt: &impl Print, question: &Question) -> Result<()> {
    match question {
        Question::Page => say(rt, "page"),
        Question::Health => say(rt, "health"),
        Question::Metrics => say(rt, "metrics"),
        Question::Index => say(rt, "index"),
        Question::Overview => say(rt, "overview"),
        Question::Peers(part) => show_named(rt, "peers", b"", part),
        Question::Table { name, conds, part } => {
            show_conds(rt, conds.as_slice())?;
            show_named(rt, "table", name.as_slice(), part)
        }
        Question::Key { table, key } => show_key(rt, table.as_slice(), key.as_slice()),
        Question::Filter { name, part } => show_named(rt, "filter", name.as_slice(), part),
        Question::Changes { name, since } => show_changes(rt, name.as_slice(), *since),
        Question::Rank { name, part } => show_named(rt, "rank", name.as_slice(), part),
    }
}

fn show_conds(rt: &impl Print, conds: &[u8]) -> Result<()> {
    print!(rt; "where \"{}\" ", conds.escape_ascii())?;
    Ok(())
}

fn show_key(rt: &impl Print, table: &[u8], key: &[u8]) -> Result<()> {
    println!(rt;
        "key \"{}\" of \"{}\"",
        key.escape_ascii(),
        table.escape_ascii()
    )?;
    Ok(())
}

fn show_changes(rt: &impl Print, name: &[u8], since: Option<u64>) -> Result<()> {
    print!(rt; "changes of \"{}\"", name.escape_ascii())?;
    if let Some(since) = since {
        print!(rt; " since {since}")?;
    }
    println!(rt;)?;
    Ok(())
}

fn show_named(rt: &impl Print, what: &str, name: &[u8], part: &Part) -> Result<()> {
    print!(rt; "{what} \"{}\" limit {}", name.escape_ascii(), part.limit)?;
    if let Some(after) = &part.after {
        print!(rt; " after \"{}\"", after.as_slice().escape_ascii())?;
    }
    println!(rt;)?;
    Ok(())
}
