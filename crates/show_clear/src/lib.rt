//! Commands of one line each, and the texts of their answers, over a book: for scripts and for
//! admin connections.
//!
//! `parse` gives the command that a line says, a question or a change, or its first fault from the
//! left. `read_command` does the same, and tells which word the line is refused for and what had to
//! stand there. `answer` and `refusal` append their texts whole, or leave what was there. What
//! lines and answers say stands in specs/Parse and specs/Answer, as functions of bytes and of the
//! book's state. People get their texts from `answer_people` and `explain`, by specs/People and
//! specs/Explained: how far off a filter's next change is, and which word of a refused line is
//! wrong. No clause says that an allocation fails only where there is no memory; but a line of up
//! to three words takes none.
#![tactic(auto)]

mod answers;
mod command;
mod conditions;
mod explaining;
mod fault;
mod fleet;
mod forms;
pub mod laws;
mod parsing;
mod quoting;
mod refused;
mod unfit;
mod unnamed;

pub use answers::{answer, answer_people};
pub use command::{Change, Command, Question};
pub use explaining::explain;
pub use fault::{CommandFault, refusal};
pub use parsing::{parse, read_command, without_returns};
pub use refused::Refused;
