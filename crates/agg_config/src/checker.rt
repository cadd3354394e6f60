//! All faults of the lines of a configuration, in one pass.

ghost use Rattle.std.specs.Prelude.{◌≡◌, ◌≤◌, ◌<◌, ◌+◌, ◌^◌, ◌++◌, ℕ, List, [], ◌∷◌, length};
ghost use Rattle.std.specs.Prelude.{OnOk, OnErr, IfOk, IfErr};
ghost use Rattle.agg_types.specs.Check.{all_faults};
ghost use Rattle.agg_config.specs.Reading.{IsFirstFault};

use crate::reader::{opening, read_line};
use crate::{LineCause, LineFault};
use agg_types::{Config, NoMemory};
use std::alloc::Global;

/// A configuration that is judged line by line, each faulty line as if it were blank. It keeps what
/// the other lines write, so a fault costs no more than a line.
#[derive(Drop)]
pub(crate) struct Checker {
    alloc: Global,
    config: Config,
    named: bool,
    count: usize,
    ghost sound: { all_faults config ≡ [] },
    ghost counted: { count ≤ 2 ^ 63 },
}

impl Checker {
    ghost use Rattle.agg_config.specs.Lines.{Ends, HasJudged, lines_judged};

    /// A checker that has judged no line.
    pub fn new(alloc: Global) -> Result<Checker, NoMemory>
        ensures none { IfOk result (λ checker. HasJudged checker []) }
        ensures count { IfOk result (λ checker. lines_judged checker ≡ 0) }
    {
        Ok(Checker {
            alloc,
            config: opening(alloc)?,
            named: false,
            count: 0,
        })
    }

    /// Judges the next line. A fault is the first of the lines so far and of any that follow; from
    /// then on the line counts as blank.
    pub fn line(&mut self, line: &[u8]) -> Result<(), LineFault>
        requires { lines_judged self.old < 2 ^ 63 }
        ensures ok { OnOk result ((lines : List (List ℕ)) → HasJudged self.old lines
            → HasJudged self.new (lines ++ line.now ∷ [])) }
        ensures blank { OnErr result ((lines : List (List ℕ)) → HasJudged self.old lines
            → HasJudged self.new (lines ++ [] ∷ [])) }
        ensures number { IfErr result (λ fault. (lines : List (List ℕ)) → HasJudged self.old lines
            → fault.line ≡ length lines + 1) }
        ensures first { IfErr result (λ fault. (lines later : List (List ℕ))
            → HasJudged self.old lines → IsFirstFault (lines ++ line.now ∷ later) fault) }
        ensures count { lines_judged self.new ≤ lines_judged self.old + 1 }
    {
        self.count += 1;
        match read_line(self.alloc, &mut self.config, &mut self.named, line) {
            Ok(()) => Ok(()),
            Err(wrong) => Err(LineFault {
                line: self.count,
                cause: wrong.cause,
                place: wrong.place,
            }),
        }
    }

    /// The fault of no line, which counts for the one behind the last: that none gives the
    /// collector its name.
    pub fn finish(self) -> Option<LineFault>
        ensures { (lines : List (List ℕ)) → HasJudged self lines → Ends lines result }
    {
        if self.named {
            return None;
        }
        Some(LineFault {
            line: self.count + 1,
            cause: LineCause::Syntax,
            place: None,
        })
    }
}
