//! The words of a line of text, for every reader of lines: configurations, scripts and commands.
//!
//! Text is bytes. A line ends with LF, and a CR before that is dropped; one or more spaces separate
//! its words. Nothing is copied: lines and words are slices of the text.
//!
//! `next_line`, `next_word` and `next_part` give exactly the first line, word and part, and what is
//! left has exactly the others. `line_at`, `word_at` and `behind_words` find them by their number.
//! `number` and `operator` answer exactly what a word writes, and `operator_word` writes a
//! comparison. `Words` reads a line word by word, for configurations, steps and commands alike. A
//! fault (`Misread`) tells which word is wrong or missing, and what had to stand there.
#![tactic(auto)]

mod misread;
mod numbered;
mod numbers;
mod operators;
mod parts;
mod reader;

pub use misread::{Expected, Misread};
pub use numbered::{behind_words, line_at, word_at};
pub use numbers::{NumberFault, number};
pub use operators::{operator, operator_word};
pub use parts::{is_comment, next_line, next_part, next_word, place_of};
pub use reader::{Comparison, DATA, Words};
