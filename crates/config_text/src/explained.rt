//! What is wrong with a configuration, in words.

ghost use Rattle.std.specs.Prelude.{◌≡◌, ◌≤◌, ◌-◌, ◌++◌, OnOk, drop};
ghost use Rattle.std.specs.Fmt.{decimal};
ghost use Rattle.line_words.specs.Numbered.{line_at};
ghost use Rattle.line_words.specs.Words.{lines_of, words};
ghost use Rattle.config_text.specs.Explained.{cause_text, check_text, expected_text, explanation};
ghost use Rattle.config_text.specs.Explained.{explanations, form_named, form_of, found_text};
ghost use Rattle.config_text.specs.Explained.{keyword_text, line_explanation, misread_text};
ghost use Rattle.config_text.specs.Explained.{place_and_hint, place_text, quoted, reason_text};
ghost use Rattle.config_text.specs.Explained.{table_word, wanted_text, wants_length, why_text};
ghost use Rattle.agg_types.specs.declared.check.ConfigFault.TheVariants.{TooMany, BadPeriod};
ghost use Rattle.agg_types.specs.declared.check.ConfigFault.TheVariants.{BadSize, BadName};

use crate::named::{MOST_LINES, append_names};
use crate::spelled::append_number_hint;
use agg_config::{LineCause, LineFault};
use agg_types::limits::{
    HOLD_END, LARGEST_SIZE, LONGEST_KEY, LONGEST_NAME, LONGEST_RANK, MOST_FILTERS, MOST_IGNORED,
    MOST_LOGS, MOST_PEERS, MOST_PUSHES, MOST_RANKS, MOST_ROWS, MOST_TABLES, PERIOD_END,
    SHORTEST_HOLD,
};
use agg_types::{ConfigFault, KeyKind, NoMemory};
use key_text::{append_key, append_number, append_text};
use line_words::{Expected, Misread, line_at, next_line, word_at};

/// The longest period and the longest hold, in ms.
const LAST_PERIOD: u64 = PERIOD_END as u64 - 1;

const LAST_HOLD: u64 = HOLD_END - 1;

/// Where `type`, the kind of keys and what is behind them stand in a table's line: words, from 1.
const TYPE_PLACE: usize = 3;

const KIND_PLACE: usize = 4;

const LENGTH_PLACE: usize = 5;

const BEHIND_SIZE: usize = 7;

const BEHIND_LATER_SIZE: usize = 9;

/// Appends what explains the faults of a text's lines, a line for each, with its LF.
pub fn append_explanations(
    text: &[u8],
    faults: &[LineFault],
    out: &mut Vec<u8>,
) -> Result<(), NoMemory>
    ensures { OnOk result
        (out.new.items ≡ out.old.items ++ explanations (lines_of text.now) faults.now) }
{
    let mut left = text;
    let mut before = 0;
    for fault in faults {
        let ahead = fault.line.saturating_sub(1);
        left = seek(text, left, before, ahead);
        before = ahead;
        append_behind(*fault, text, left, out)?;
    }
    Ok(())
}

// What stands behind so many lines of a text, by what stands behind some: those are passed over but
// once where the lines wanted ascend.
fn seek<'a>(text: &'a [u8], left: &'a [u8], before: usize, ahead: usize) -> &'a [u8]
    requires { lines_of left.now ≡ drop before (lines_of text.now) }
    ensures { lines_of result.now ≡ drop ahead (lines_of text.now) }
{
    if ahead < before {
        return behind_lines(text, ahead);
    }
    behind_lines(left, ahead - before)
}

// What stands behind so many lines.
fn behind_lines(text: &[u8], count: usize) -> &[u8]
    ensures { lines_of result.now ≡ drop count (lines_of text.now) }
{
    let mut left = text;
    let mut ahead = count;
    'lines: while let Some((_line, rest)) = next_line(left) {
        if ahead == 0 {
            return left;
        }
        ahead -= 1;
        left = rest;
    }
    left
}

// The first line; empty where there is none.
fn first_line(text: &[u8]) -> &[u8]
    ensures { result.now ≡ line_at 1 (lines_of text.now) }
{
    match next_line(text) {
        Some((line, _)) => line,
        None => b"",
    }
}

// Appends what explains a fault, by what stands behind the lines before its own.
fn append_behind(
    fault: LineFault,
    text: &[u8],
    left: &[u8],
    out: &mut Vec<u8>,
) -> Result<(), NoMemory>
    ensures { lines_of left.now ≡ drop (fault.line - 1) (lines_of text.now) → OnOk result
        (out.new.items ≡ out.old.items ++ explanation (lines_of text.now) fault) }
{
    append_line(fault, text, first_line(left), out)
}

/// Appends what explains a fault of a text's lines, with an LF: the line, the word that is wrong or
/// missing, and what had to stand there. Where the line has a name that nothing has, the names that
/// there are stand behind that.
pub fn append_explanation(text: &[u8], fault: LineFault, out: &mut Vec<u8>) -> Result<(), NoMemory>
    ensures { OnOk result
        (out.new.items ≡ out.old.items ++ explanation (lines_of text.now) fault) }
{
    append_line(fault, text, line_at(text, fault.line), out)
}

fn append_line(
    fault: LineFault,
    text: &[u8],
    line: &[u8],
    out: &mut Vec<u8>,
) -> Result<(), NoMemory>
    ensures { OnOk result (out.new.items
        ≡ out.old.items ++ line_explanation (lines_of text.now) fault line.now) }
{
    append_counted(b"config line ", fault.line as u64, out)?;
    append_why(fault, text, line, out)?;
    append_text(b"\n", out)
}

// Appends what is wrong with a line, and the names that there are.
fn append_why(fault: LineFault, text: &[u8], line: &[u8], out: &mut Vec<u8>) -> Result<(), NoMemory>
    ensures { OnOk result (out.new.items
        ≡ out.old.items ++ why_text (lines_of text.now) fault (words line.now)) }
{
    let before = fault.line.saturating_sub(1).min(MOST_LINES);
    append_reason(fault, line, out)?;
    append_names(fault.cause, line, text, before, out)
}

fn append_reason(fault: LineFault, line: &[u8], out: &mut Vec<u8>) -> Result<(), NoMemory>
    ensures { OnOk result (out.new.items
        ≡ out.old.items ++ reason_text fault.cause fault.place (words line.now)) }
{
    match fault.place {
        None => {
            append_text(b": ", out)?;
            append_cause(fault.cause, out)
        }
        Some(misread) => append_misread(misread, line, out),
    }
}

fn append_misread(misread: Misread, line: &[u8], out: &mut Vec<u8>) -> Result<(), NoMemory>
    ensures { OnOk result
        (out.new.items ≡ out.old.items ++ misread_text misread (words line.now)) }
{
    append_counted(b", word ", misread.word as u64, out)?;
    append_found(misread, line, out)?;
    append_wanted(misread, line, out)
}

fn append_found(misread: Misread, line: &[u8], out: &mut Vec<u8>) -> Result<(), NoMemory>
    ensures { OnOk result
        (out.new.items ≡ out.old.items ++ found_text misread (words line.now)) }
{
    if misread.is_missing {
        append_text(b" is missing", out)
    } else {
        append_quoted(word_at(line, misread.word), out)
    }
}

fn append_wanted(misread: Misread, line: &[u8], out: &mut Vec<u8>) -> Result<(), NoMemory>
    ensures { OnOk result
        (out.new.items ≡ out.old.items ++ wanted_text misread (words line.now)) }
{
    append_expected(misread, line, out)?;
    append_text(b"; write: ", out)?;
    append_text(form_of(line).as_bytes(), out)
}

// Appends what had to stand there, and what a number with a unit is here.
fn append_expected(misread: Misread, line: &[u8], out: &mut Vec<u8>) -> Result<(), NoMemory>
    ensures { OnOk result
        (out.new.items ≡ out.old.items ++ place_and_hint misread (words line.now)) }
{
    append_text(b": expected ", out)?;
    append_text(place_text(misread, line).as_bytes(), out)?;
    append_number_hint(misread, line, out)
}

fn append_quoted(word: &[u8], out: &mut Vec<u8>) -> Result<(), NoMemory>
    ensures { OnOk result (out.new.items ≡ out.old.items ++ quoted word.now) }
{
    append_text(b" \"", out)?;
    append_key(KeyKind::Str(0), word, out)?;
    append_text(b"\"", out)
}

fn place_text(misread: Misread, line: &[u8]) -> &'static str
    ensures { result.now ≡ place_text misread (words line.now) }
{
    expected_text(misread.expected, keyword_text(misread.word, line))
}

// The keyword of a place, where there is but one.
fn keyword_text(place: usize, line: &[u8]) -> &'static str
    ensures { result.now ≡ keyword_text place (words line.now) }
{
    let kind = word_at(line, 1);
    if kind == b"table".as_slice() {
        table_word(place, wants_length(line))
    } else if kind == b"push".as_slice() {
        "hold"
    } else {
        "a keyword"
    }
}

fn table_word(place: usize, has_len: bool) -> &'static str
    ensures { result.now ≡ table_word place has_len }
{
    if place == TYPE_PLACE {
        "type"
    } else if place == KIND_PLACE {
        "ip, ipv4, ipv6, integer, string or binary"
    } else if place == LENGTH_PLACE && has_len {
        "len"
    } else if place == LENGTH_PLACE || place == BEHIND_SIZE && has_len {
        "size"
    } else if place == BEHIND_SIZE || place == BEHIND_LATER_SIZE && has_len {
        "keep or store"
    } else {
        "store"
    }
}

// Whether a line declares a table whose keys have a length.
#[tactic(auto, unfolding(crate::specs::Explained::wants_length))]
fn wants_length(line: &[u8]) -> bool
    ensures { result ≡ wants_length (words line.now) }
{
    if word_at(line, 1) != b"table".as_slice() {
        return false;
    }
    match KeyKind::from_name(word_at(line, KIND_PLACE)) {
        None => false,
        Some(kind) => kind.takes_length(),
    }
}

fn expected_text(expected: Expected, keyword: &'static str) -> &'static str
    ensures { result.now ≡ expected_text expected keyword.now }
{
    match expected {
        Expected::Name => "a name",
        Expected::Keyword => keyword,
        Expected::End => "the line's end",
        Expected::Number => "a number of 1 to 20 digits",
        Expected::Column => "a column",
        Expected::Columns => "columns with commas between, a rate with its period in ms",
        Expected::Condition => "data.<column>",
        Expected::Operator => "eq, ne, le, ge, lt or gt",
        Expected::Key => "a key",
        Expected::Moment => "a moment in ms",
        Expected::Hexadecimal => "hexadecimal digits, two for each byte",
    }
}

#[tactic(auto, unfolding(crate::specs::Explained::form_of))]
fn form_of(line: &[u8]) -> &'static str
    ensures { result.now ≡ form_of (words line.now) }
{
    if wants_length(line) {
        "table <name> type string|binary len <n> size <rows> [keep <ms>] \
            [store <column>,<rate>(<ms>)]"
    } else {
        form_named(word_at(line, 1))
    }
}

fn form_named(kind: &[u8]) -> &'static str
    ensures { result.now ≡ form_named kind.now }
{
    if kind == b"name".as_slice() {
        "name <name>"
    } else if kind == b"peer".as_slice() {
        "peer <name>"
    } else if kind == b"table".as_slice() {
        "table <name> type <type> size <rows> [keep <ms>] [store <column>,<rate>(<ms>)]"
    } else if kind == b"filter".as_slice() {
        "filter <name> <table> data.<column> <operator> <number> .."
    } else if kind == b"rank".as_slice() {
        "rank <name> <table> <column> <length>"
    } else if kind == b"push".as_slice() {
        "push <filter> [hold <ms>]"
    } else if kind == b"rows".as_slice() {
        "rows <n>"
    } else if kind == b"log".as_slice() {
        "log <filter>"
    } else if kind == b"ignore".as_slice() {
        "ignore <table>"
    } else {
        "name, peer, table, filter, rank, push, rows, log or ignore first"
    }
}

fn append_cause(cause: LineCause, out: &mut Vec<u8>) -> Result<(), NoMemory>
    ensures { OnOk result (out.new.items ≡ out.old.items ++ cause_text cause) }
{
    match cause {
        LineCause::Syntax => {
            append_text(
                b"no line gives the collector its name; write: name <name>",
                out,
            )
        }
        LineCause::Number => append_text(b"expected a number of 1 to 20 digits", out),
        LineCause::Check(fault) => append_check(fault, out),
        LineCause::NoMemory => append_text(b"out of memory", out),
    }
}

fn append_check(fault: ConfigFault, out: &mut Vec<u8>) -> Result<(), NoMemory>
    ensures { OnOk result (out.new.items ≡ out.old.items ++ check_text fault) }
{
    match fault {
        ConfigFault::Duplicate => append_text(
            b"the name stands already, or a column or rows twice; \
                a pushed filter and an ignored table have no table's name",
            out,
        ),
        ConfigFault::TooMany => append_limits(out),
        ConfigFault::UnknownTable => append_text(b"no line before declares the table", out),
        ConfigFault::UnknownColumn => append_text(b"the table doesn't store the column", out),
        ConfigFault::BadPeriod => append_periods(out),
        ConfigFault::BadSize => append_sizes(out),
        ConfigFault::BadName => append_name_limits(out),
        ConfigFault::UnknownFilter => append_text(b"no line before declares the filter", out),
    }
}

fn append_limits(out: &mut Vec<u8>) -> Result<(), NoMemory>
    ensures { OnOk result (out.new.items ≡ out.old.items ++ check_text TooMany) }
{
    append_counted(b"there may be ", MOST_PEERS as u64, out)?;
    append_counted(b" peers, ", MOST_TABLES as u64, out)?;
    append_counted(b" tables, ", MOST_FILTERS as u64, out)?;
    append_counted(b" filters, ", MOST_RANKS as u64, out)?;
    append_counted(b" ranked lists, ", MOST_PUSHES as u64, out)?;
    append_counted(b" pushes, ", MOST_LOGS as u64, out)?;
    append_counted(b" logs, ", MOST_IGNORED as u64, out)?;
    append_text(b" ignored tables", out)
}

fn append_periods(out: &mut Vec<u8>) -> Result<(), NoMemory>
    ensures { OnOk result (out.new.items ≡ out.old.items ++ check_text BadPeriod) }
{
    append_counted(b"a period and a keep are 1 to ", LAST_PERIOD, out)?;
    append_counted(b" ms, a hold ", SHORTEST_HOLD, out)?;
    append_counted(b" to ", LAST_HOLD, out)
}

fn append_sizes(out: &mut Vec<u8>) -> Result<(), NoMemory>
    ensures { OnOk result (out.new.items ≡ out.old.items ++ check_text BadSize) }
{
    append_counted(b"a size is 1 to ", LARGEST_SIZE, out)?;
    append_counted(b", a len 1 to ", LONGEST_KEY, out)?;
    append_counted(b", a ranked list's length 1 to ", LONGEST_RANK, out)?;
    append_counted(b", rows 1 to ", MOST_ROWS, out)
}

fn append_name_limits(out: &mut Vec<u8>) -> Result<(), NoMemory>
    ensures { OnOk result (out.new.items ≡ out.old.items ++ check_text BadName) }
{
    append_counted(b"a name has 1 to ", LONGEST_NAME as u64, out)?;
    append_text(b" bytes, each of 33 to 126", out)
}

// Appends a label and a number.
fn append_counted(label: &[u8], number: u64, out: &mut Vec<u8>) -> Result<(), NoMemory>
    ensures { OnOk result (out.new.items ≡ out.old.items ++ label.now ++ decimal number) }
{
    append_text(label, out)?;
    append_number(u128::from(number), out)
}
