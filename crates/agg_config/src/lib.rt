//! A collector's configuration, read from its text: `name`, `peer`, `table`, `filter`, `rank`,
//! `push`, `rows`, `log` and `ignore` lines.
//!
//! For the programs, which read it before they serve or replay. `read` answers the configuration
//! that the text writes, or the first faulty line with what is wrong with it, exactly; `Reader`
//! does the same with lines that come one after the other. `faults` finds all faulty lines in one
//! pass. What each line means, and when it is faulty behind the lines before it, is said in specs/
//! of whole lists of words and lines. A fault has its line, its cause, and the word that is wrong,
//! or missing, with what had to stand there; `LineFault` as text is the line that is printed of it.
//! No clause says that there is memory.
#![tactic(auto)]

mod causes;
mod checker;
mod columns;
mod declarations;
mod declaring;
mod filters;
mod finding;
mod laws;
mod reader;

pub(crate) use causes::Unread;
pub use causes::{LineCause, LineFault};
pub use declarations::type_of;
pub use finding::faults;
pub use laws::{in_order_keeps, written_configuration_is_read, written_line_is_read};
pub use reader::{Reader, read};
