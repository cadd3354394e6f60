//! What the target of a request asks for, and for which hosts requests may be.
//!
//! The HTTP door of the collector reads targets with it. `read` gives the question, or what is
//! wrong with the target. Its contract is exact over specs/Targets, which says what each path and
//! each word of a query means. Names and conditions are bytes here: whether there is such a table,
//! and what a condition says, is asked of a book later. `admits_host` tells whether a request may
//! be for a host, exactly by the rule of specs/Hosts. No clause says that an allocation fails only
//! where there is no memory.
#![tactic(auto)]

mod hosts;
mod query;
mod question;
mod reading;

pub use hosts::admits_host;
pub use question::{FEWEST, MOST, Part, Question, TargetFault, USUAL, Words};
pub use reading::read;
