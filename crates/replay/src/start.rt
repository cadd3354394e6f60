//! The line of a script that opens the fleet.

ghost use Rattle.std.specs.Prelude.{◌≡◌, ◌≤◌, ◌^◌, [], List, ℕ, length, position, IfOk, IfSome};
ghost use Rattle.agg_config.specs.Lines.{HasRead, lines_read};
ghost use Rattle.agg_types.specs.declared.limits.TheConstants.{LAST_MOMENT};
ghost use Rattle.line_words.specs.Reader.{left_of};
ghost use Rattle.line_words.specs.Words.{lines_of};
ghost use Rattle.replay.specs.Script.{is_start, opening_of};
ghost use Rattle.replay.specs.Source.{OfLines};
ghost use Rattle.replay.specs.Start.{IsCutAt};

use crate::steps::last_moment;
use crate::streams::{MOST_LINES, take_line};
use agg_config::Reader;
use line_words::{Expected, Words, next_line, next_word};
use std::alloc::Global;
use std::io;
use std::io::{BufRead, ErrorKind};

/// What a script has up to its first line whose first word is `start`, or up to its end. It is the
/// configuration before that line, the line's number, and the opening moment that it says, if it
/// says one of at most `LAST_MOMENT` and nothing else.
#[derive(Drop)]
pub struct Start {
    pub config: Reader,
    pub number: u128,
    pub opening: Option<u64>,
}

/// Reads a script up to its first line whose first word is `start`, or to its end. The reader reads
/// the lines before it.
pub fn start_of<R: BufRead>(alloc: Global, config: Reader, script: &mut R) -> io::Result<Start>
    requires none { HasRead config [] }
    requires count { lines_read config ≡ 0 }
    ensures cut { IfOk result (λ start. OfLines (R.remaining script.old) (R.remaining script.new)
        (λ lines rest. IsCutAt lines (position is_start lines) rest start)) }
    ensures in_range { IfOk result
        (λ start. IfSome start.opening (λ moment. moment ≤ LAST_MOMENT)) }
    ensures numbered { IfOk result (λ start. start.number ≤ 2 ^ 63) }
{
    let mut config = config;
    let mut bytes = Vec::new(alloc);
    'lines: for number in 1..MOST_LINES {
        take_line(script, &mut bytes)?;
        let Some((line, _)) = next_line(bytes.as_slice()) else {
            return Ok(Start {
                config,
                number,
                opening: None,
            });
        };
        if is_start(line) {
            let opening = opening_of(line);
            return Ok(Start {
                config,
                number,
                opening,
            });
        }
        config.line(line);
    }
    Err(io::Error::from(ErrorKind::FileTooLarge))
}

fn is_start(line: &[u8]) -> bool
    ensures { result ≡ is_start line.now }
{
    match next_word(line) {
        None => false,
        Some((first, _)) => first == b"start".as_slice(),
    }
}

// The moment that a line of two words says.
fn opening_of(line: &[u8]) -> Option<u64>
    ensures said { result ≡ opening_of (left_of line.now) }
    ensures in_range { IfSome result (λ moment. moment ≤ LAST_MOMENT) }
{
    let mut words = Words::of(line);
    words.word(Expected::Keyword).ok()?;
    last_moment(&mut words).ok()
}
