//! What is wrong with a word of a line.

ghost use Rattle.std.specs.Prelude.{◌≡◌};
ghost use Rattle.line_words.specs.Reader.{missing, wrong};

/// What had to stand where a word is wrong or missing.
#[derive(Clone, Copy, Debug, PartialEq, Eq)]
pub enum Expected {
    /// A name.
    Name,
    /// One of the words that may stand here.
    Keyword,
    /// The end of the line.
    End,
    /// 1 to 20 decimal digits, up to 2^64 - 1.
    Number,
    /// The name of a column.
    Column,
    /// The names of columns, with a comma between them, and a rate's period in parentheses.
    Columns,
    /// `data.` and the name of a column.
    Condition,
    /// One of eq, ne, le, ge, lt and gt.
    Operator,
    /// A key of the table's kind.
    Key,
    /// A moment in ms, up to `LAST_MOMENT`.
    Moment,
    /// Bytes, each as two hexadecimal digits.
    Hexadecimal,
}

/// The first wrong or missing word of a line, and what had to stand there.
#[derive(Clone, Copy, Debug, PartialEq, Eq)]
pub struct Misread {
    /// The number of the word, from 1.
    pub word: usize,
    /// Whether the line ends before that word.
    pub is_missing: bool,
    /// What had to stand there.
    pub expected: Expected,
}

impl Misread {
    /// The line ends before the word of this number.
    pub fn missing(word: usize, expected: Expected) -> Misread
        ensures { result ≡ missing word expected }
    {
        Misread {
            word,
            is_missing: true,
            expected,
        }
    }

    /// The word of this number isn't what had to stand there.
    pub fn wrong(word: usize, expected: Expected) -> Misread
        ensures { result ≡ wrong word expected }
    {
        Misread {
            word,
            is_missing: false,
            expected,
        }
    }
}
