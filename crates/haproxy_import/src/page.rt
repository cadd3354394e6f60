//! Text that is written piece by piece.

use crate::origins::Origin;
use agg_types::{NoMemory, Shape};
use config_text::append_table;
use line_words::next_word;
use std::alloc::Global;

/// What is written so far, of lines that come from these files.
#[derive(Drop)]
pub(crate) struct Page<'a> {
    alloc: Global,
    origins: &'a [Origin<'a>],
    text: Vec<u8>,
}

impl<'a> Page<'a> {
    /// Nothing.
    pub(crate) fn new(alloc: Global, origins: &'a [Origin<'a>]) -> Page<'a> {
        Page {
            alloc,
            origins,
            text: Vec::new(alloc),
        }
    }

    /// How many bytes were written.
    pub(crate) fn len(&self) -> usize {
        self.text.len()
    }

    /// What was written.
    pub(crate) fn as_slice(&self) -> &[u8] {
        self.text.as_slice()
    }

    /// What was written.
    pub(crate) fn into_text(self) -> Vec<u8> {
        self.text
    }

    /// Appends these texts, one behind the other.
    pub(crate) fn put(&mut self, texts: &[&[u8]]) -> Result<(), NoMemory> {
        for text in texts {
            self.text.extend_from_slice(text)?;
        }
        Ok(())
    }

    /// Appends a number.
    pub(crate) fn number(&mut self, number: u64) -> Result<(), NoMemory> {
        let digits = format!(in self.alloc; "{number}")?;
        self.put(&[digits.as_bytes()])
    }

    /// Appends a table's line.
    pub(crate) fn table(&mut self, shape: &Shape) -> Result<(), NoMemory> {
        append_table(shape, &mut self.text)
    }

    /// Begins a comment on a line of the file.
    pub(crate) fn begin(&mut self, line: u64) -> Result<(), NoMemory> {
        self.put(&[b"# "])?;
        self.place(line)?;
        self.put(&[b": "])
    }

    /// Appends where a line stands: its number, with its file where that has a name.
    pub(crate) fn place(&mut self, line: u64) -> Result<(), NoMemory> {
        let mut found = None;
        for origin in self.origins {
            if origin.before < line {
                found = Some((origin.name, line - origin.before));
            }
        }
        let Some((name, line)) = found else {
            self.put(&[b"line "])?;
            return self.number(line);
        };
        self.put(&[name.as_bytes(), b":"])?;
        self.number(line)
    }

    /// Appends a comment of these texts on a line of the file.
    pub(crate) fn comment(&mut self, line: u64, texts: &[&[u8]]) -> Result<(), NoMemory> {
        self.begin(line)?;
        self.put(texts)?;
        self.put(&[b"\n"])
    }

    /// Appends the words of a line, a space before each.
    pub(crate) fn words(&mut self, line: &[u8]) -> Result<(), NoMemory> {
        let mut left = line;
        'words: while let Some((word, rest)) = next_word(left) {
            self.put(&[b" ", word])?;
            left = rest;
        }
        Ok(())
    }
}
