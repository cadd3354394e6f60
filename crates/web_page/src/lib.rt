//! The page that shows a collector to people.
//!
//! It is one text of several parts, each a macro that hands what stands before it and its own text
//! on to the next part: what always stands there (`markup`), how it looks (`style`), and the
//! script. The script has words of its own (`basics`), asks the collector (`asking`), says what is
//! wrong (`verdict`), draws (`chart`), fills the sections (`sections`), opens one thing at a time
//! (`panels`, `keys`), and goes round (`running`).
#![tactic(auto)]

mod asking;
mod basics;
mod chart;
mod keys;
mod markup;
mod page;
mod panels;
mod running;
mod sections;
mod style;
mod verdict;

pub use page::PAGE;
