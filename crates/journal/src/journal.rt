//! The lines of the log, on their way to standard error.

use crate::floods::{CountLine, Floods, LeftOut};
use crate::heading::Heading;
use crate::log::{Event, Line};
use sockets::is_due;
use std::alloc::{AllocError, Global};
use std::collections::VecDeque;
use std::sync::{Mutex, Wait};
use std::time::{Clock, Duration, Instant, SystemTime, UNIX_EPOCH};

/// How many lines may wait.
const MOST_LINES: usize = 1000;

/// How long is rested where no line waits, in ms.
const REST: u64 = 20;

/// How often is looked at the end whether all lines are written.
const LAST_LOOKS: u64 = 50;

/// What waits.
#[derive(Drop)]
struct Waiting {
    lines: VecDeque<String>,
    // how many lines didn't fit or weren't written, until that is told
    lost: u64,
    // the same since the collector began
    lost_in_all: u64,
    told_at: Option<Instant>,
    // whether a line is being written
    is_writing: bool,
    // whether no line comes any more
    is_over: bool,
}

impl Waiting {
    // Whether there is room for a line, which then waits behind the others.
    fn keep(&mut self, line: String) -> bool {
        if self.lines.len() >= MOST_LINES {
            return false;
        }
        self.lines.push_back(line).is_ok()
    }

    // So many lines aren't written.
    fn lose(&mut self, count: u64) {
        self.lost = self.lost.saturating_add(count);
        self.lost_in_all = self.lost_in_all.saturating_add(count);
    }
}

/// The log: lines that wait for standard error.
///
/// Whoever notes an event never waits for standard error, only for others that note one. At most
/// 1,000 lines wait. What doesn't fit is counted, and told once lines can be written again. Of
/// what strangers or one peer can repeat, 60 lines a minute are told, and the others counted.
#[derive(Drop)]
pub struct Journal {
    alloc: Global,
    heading: Heading,
    waiting: Mutex<Waiting>,
    floods: Mutex<Floods>,
}

// The seconds since 1970. A clock that fails gives 0.
fn seconds_now(rt: &impl Clock) -> u64 {
    let Ok(now) = SystemTime::now(rt) else {
        return 0;
    };
    match now.duration_since(UNIX_EPOCH) {
        Ok(passed) => passed.as_secs(),
        Err(_) => 0,
    }
}

// The moment of a clock that goes on, in ms. A clock that fails gives 0.
fn moment_now(rt: &impl Clock) -> u64 {
    match rt.monotonic() {
        Ok(passed) => u64::try_from(passed.as_millis()).unwrap_or(u64::MAX),
        Err(_) => 0,
    }
}

impl Journal {
    /// A log whose lines begin so, of which none waits. Takes no memory.
    pub fn new(alloc: Global, heading: Heading) -> Journal {
        Journal {
            alloc,
            heading,
            waiting: Mutex::new(Waiting {
                lines: VecDeque::new(alloc),
                lost: 0,
                lost_in_all: 0,
                told_at: None,
                is_writing: false,
                is_over: false,
            }),
            floods: Mutex::new(Floods::new(alloc)),
        }
    }

    // The line of an event.
    fn line(&self, seconds: u64, event: Event<'_>) -> Result<String, AllocError> {
        let heading = self.heading;
        let line = Line {
            heading,
            seconds,
            event,
        };
        format!(in self.alloc; "{line}")
    }

    // Whether the line of an event is to be told. It is counted else.
    fn may_tell<R: Clock + Wait>(&self, rt: &R, event: Event<'_>) -> bool {
        let now = moment_now(rt);
        let mut guard = self.floods.lock(rt);
        let floods = &mut *guard;
        floods.may_tell(now, event)
    }

    // What was left out and is to be told by a moment, in ms, if there is something.
    fn take_left_out<R: Wait>(&self, rt: &R, now: u64) -> Option<LeftOut> {
        let mut guard = self.floods.lock(rt);
        let floods = &mut *guard;
        floods.take_due(now)
    }

    /// The line of an event waits from now on. It is lost where 1,000 wait, or memory is lacking.
    /// It is left out and counted where too many like it were told.
    pub fn note<R: Clock + Wait>(&self, rt: &R, event: Event<'_>) {
        if self.may_tell(rt, event) {
            let line = self.line(seconds_now(rt), event);
            self.keep(rt, line, 1);
        }
    }

    // A line waits from now on, which stands for so many. These are lost where 1,000 wait.
    fn keep<R: Wait>(&self, rt: &R, line: Result<String, AllocError>, count: u64) {
        let mut guard = self.waiting.lock(rt);
        let waiting = &mut *guard;
        let is_kept = match line {
            Ok(line) => waiting.keep(line),
            Err(_fault) => false,
        };
        if !is_kept {
            waiting.lose(count);
        }
    }

    // The line that has waited longest.
    fn take_line<R: Wait>(&self, rt: &R) -> Option<String> {
        let mut guard = self.waiting.lock(rt);
        let waiting = &mut *guard;
        let line = waiting.lines.pop_front();
        waiting.is_writing = line.is_some();
        line
    }

    // How many lines were lost, where that is to be told now.
    fn take_lost<R: Clock + Wait>(&self, rt: &R) -> Option<u64> {
        let mut guard = self.waiting.lock(rt);
        let waiting = &mut *guard;
        if waiting.lost == 0 || !is_due(rt, waiting.told_at) {
            return None;
        }
        let count = waiting.lost;
        waiting.lost = 0;
        waiting.told_at = Instant::now(rt).ok();
        Some(count)
    }

    /// So many lines weren't written.
    pub fn lose<R: Wait>(&self, rt: &R, count: u64) {
        let mut guard = self.waiting.lock(rt);
        let waiting = &mut *guard;
        waiting.lose(count);
    }

    /// How many lines were lost since the collector began.
    pub fn lost_lines<R: Wait>(&self, rt: &R) -> u64 {
        let guard = self.waiting.lock(rt);
        guard.lost_in_all
    }

    // Tells how many lines were lost, where that is to be told now.
    fn tell_lost<R: Eprint + Clock + Wait>(&self, rt: &R) {
        let Some(count) = self.take_lost(rt) else {
            return;
        };
        let line = Line {
            heading: self.heading,
            seconds: seconds_now(rt),
            event: Event::LinesLost { count },
        };
        if eprintln!(rt; "{line}").is_err() {
            self.lose(rt, count);
        }
    }

    // Tells what was left out, where that is to be told now.
    fn tell_left_out<R: Eprint + Clock + Wait>(&self, rt: &R) {
        let now = moment_now(rt);
        for _ in 0..u64::MAX {
            let Some(left_out) = self.take_left_out(rt, now) else {
                return;
            };
            let line = CountLine {
                heading: self.heading,
                seconds: seconds_now(rt),
                left_out: &left_out,
            };
            if eprintln!(rt; "{line}").is_err() {
                self.lose(rt, left_out.count());
            }
        }
    }

    /// Writes the lines that wait, how many were left out, and how many were lost.
    pub fn write_out<R: Eprint + Clock + Wait>(&self, rt: &R) {
        for _ in 0..u64::MAX {
            self.tell_lost(rt);
            self.tell_left_out(rt);
            let Some(line) = self.take_line(rt) else {
                return;
            };
            if eprintln!(rt; "{line}").is_err() {
                self.lose(rt, 1);
            }
        }
    }

    // Whether no line comes any more.
    fn is_over<R: Wait>(&self, rt: &R) -> bool {
        let guard = self.waiting.lock(rt);
        guard.is_over
    }

    /// Writes lines as they come, until no more come. One thread does this.
    pub fn run<R: Eprint + Clock + Wait>(&self, rt: &R) {
        for _ in rt.forever() {
            let is_over = self.is_over(rt);
            self.write_out(rt);
            if is_over {
                return;
            }
            rt.sleep(Duration::from_millis(REST));
        }
        unreachable!()
    }

    // Whether all lines are written.
    fn is_written<R: Wait>(&self, rt: &R) -> bool {
        let guard = self.waiting.lock(rt);
        guard.lines.is_empty() && !guard.is_writing
    }

    // The line of what was left out.
    fn count_line(&self, seconds: u64, left_out: &LeftOut) -> Result<String, AllocError> {
        let heading = self.heading;
        let line = CountLine {
            heading,
            seconds,
            left_out,
        };
        format!(in self.alloc; "{line}")
    }

    // All that was left out so far waits as lines.
    fn keep_left_out<R: Clock + Wait>(&self, rt: &R) {
        for _ in 0..u64::MAX {
            let Some(left_out) = self.take_left_out(rt, u64::MAX) else {
                return;
            };
            let line = self.count_line(seconds_now(rt), &left_out);
            self.keep(rt, line, left_out.count());
        }
    }

    // No line comes any more.
    fn end<R: Clock + Wait>(&self, rt: &R) {
        self.keep_left_out(rt);
        let mut guard = self.waiting.lock(rt);
        let waiting = &mut *guard;
        waiting.is_over = true;
    }

    /// No line comes any more. Waits until all are written, for a second at most: whether they are.
    pub fn finish<R: Clock + Wait>(&self, rt: &R) -> bool {
        self.end(rt);
        for _ in 0..LAST_LOOKS {
            if self.is_written(rt) {
                return true;
            }
            rt.sleep(Duration::from_millis(REST));
        }
        false
    }
}
