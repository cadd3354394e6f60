//! The words of a line, read one after the other.

ghost use Rattle.std.specs.Prelude.{◌≡◌, ◌+◌, length, nat_eq, IfOk};
ghost use Rattle.line_words.specs.Reader.{Reads, column, comparison, data_column, end, keyword};
ghost use Rattle.line_words.specs.Reader.{left_of, next_is, number, operator, word};

use crate::{Expected, Misread, next_word, number, operator};
use agg_types::{Col, Op};
use std::marker::Model;

/// What begins a condition's first word.
pub const DATA: &[u8] = b"data.";

/// A condition's operator, and its number or why that is none.
pub type Comparison = (Op, Result<u64, Misread>);

/// What a line has left: its words, and the number of the next of them, from 1.
///
/// Contracts see both. After a fault the words are of no use.
#[derive(Drop)]
pub struct Words<'a> {
    line: &'a [u8],
    number: usize,
}

impl<'a> Model for Words<'a> {
    ghost use Rattle.std.specs.Prelude.{◌+◌, ◌≤◌, ◌^◌, length};
    ghost use Rattle.line_words.specs.Words.{words};
    ghost use Rattle.line_words.specs.Reader.{Left};

    ghost Value = { Left };

    ghost view = { λ left. record { number = left.number; words = words left.line.now } };

    ghost invariant = { λ left. left.number + length left.line.now ≤ 2 ^ 63 };
}

impl<'a> Words<'a> {
    /// The words of a line.
    pub fn of(line: &'a [u8]) -> Words<'a>
        ensures { result ≡ left_of line.now }
    {
        Words { line, number: 1 }
    }

    /// The number of the next word, from 1.
    pub fn place(&self) -> usize
        ensures { result ≡ self.now.number }
    {
        self.number
    }

    /// Whether no word is left.
    pub fn is_empty(&self) -> bool
        ensures { result ≡ nat_eq (length self.now.words) 0 }
    {
        next_word(self.line).is_none()
    }

    /// Whether the next word is this one.
    pub fn next_is(&self, wanted: &[u8]) -> bool
        ensures { result ≡ next_is wanted.now self.now.words }
    {
        match next_word(self.line) {
            None => false,
            Some((found, _)) => found == wanted,
        }
    }

    /// The next word. Where the line ends before it, `expected` is reported.
    pub fn word(&mut self, expected: Expected) -> Result<&'a [u8], Misread>
        ensures reads { Reads (λ found. found.now) (word expected self.old) result self.new }
        ensures shorter { IfOk result
            (λ found. length self.old.words ≡ length self.new.words + 1) }
    {
        match next_word(self.line) {
            None => Err(Misread::missing(self.number, expected)),
            Some((found, line)) => {
                self.line = line;
                self.number += 1;
                Ok(found)
            }
        }
    }

    /// That the next word is this one.
    pub fn keyword(&mut self, wanted: &[u8]) -> Result<(), Misread>
        ensures { Reads (λ x. x) (keyword wanted.now self.old) result self.new }
    {
        let place = self.number;
        if self.word(Expected::Keyword)? == wanted {
            Ok(())
        } else {
            Err(Misread::wrong(place, Expected::Keyword))
        }
    }

    /// That no word is left.
    pub fn end(&mut self) -> Result<(), Misread>
        ensures { Reads (λ x. x) (end self.old) result self.new }
    {
        if self.is_empty() {
            Ok(())
        } else {
            Err(Misread::wrong(self.number, Expected::End))
        }
    }

    /// The number that the next word writes. A word that writes none is a fault by itself: who
    /// reads on tells the faults of later words first.
    pub fn number(&mut self) -> Result<Result<u64, Misread>, Misread>
        ensures { Reads (λ x. x) (number self.old) result self.new }
    {
        let place = self.number;
        let found = self.word(Expected::Number)?;
        Ok(number(found).map_err(|_| Misread::wrong(place, Expected::Number)))
    }

    /// The column that the next word names.
    pub fn column(&mut self) -> Result<Col, Misread>
        ensures { Reads (λ x. x) (column self.old) result self.new }
    {
        let place = self.number;
        let name = self.word(Expected::Column)?;
        Col::from_name(name).ok_or(Misread::wrong(place, Expected::Column))
    }

    /// The comparison that the next word names.
    pub fn operator(&mut self) -> Result<Op, Misread>
        ensures { Reads (λ x. x) (operator self.old) result self.new }
    {
        let place = self.number;
        let name = self.word(Expected::Operator)?;
        operator(name).ok_or(Misread::wrong(place, Expected::Operator))
    }

    /// The column of a condition, whose first word is `data.` and the column's name. Its comparison
    /// follows.
    pub fn data_column(&mut self) -> Result<Col, Misread>
        ensures { Reads (λ x. x) (data_column self.old) result self.new }
    {
        let place = self.number;
        let first = self.word(Expected::Condition)?;
        match first.strip_prefix(DATA) {
            None => Err(Misread::wrong(place, Expected::Condition)),
            Some(name) => Col::from_name(name).ok_or(Misread::wrong(place, Expected::Column)),
        }
    }

    /// What a condition says behind its column: an operator and a number. Who reads it looks first
    /// whether the column may stand there.
    pub fn comparison(&mut self) -> Result<Comparison, Misread>
        ensures { Reads (λ x. x) (comparison self.old) result self.new }
    {
        let op = self.operator()?;
        let bound = self.number()?;
        Ok((op, bound))
    }
}
