//! The lines of a configuration, one after the other.

ghost use Rattle.std.specs.Prelude.{◌≡◌, ◌≤◌, ◌<◌, ◌+◌, ◌^◌, ◌++◌, ℕ, true, List, []};
ghost use Rattle.std.specs.Prelude.{◌∷◌, None, Some, Ok, OnOk, OnErr, IfOk, IfErr, slice_get};
ghost use Rattle.agg_types.specs.Check.{all_faults, config_faults};
ghost use Rattle.agg_types.specs.declared.config.Config.{Config};
ghost use Rattle.line_words.specs.Words.{lines_of};
ghost use Rattle.agg_config.specs.Reading.{FailsFirst, IsFirstFault, Passes, Write, bounds_again};
ghost use Rattle.agg_config.specs.Reading.{faults_behind, is_me, meaning, opening, takes_memory};
ghost use Rattle.agg_config.specs.declared.causes.LineCause.TheVariants.{NoMemory as RefusedLine};

use crate::causes::Wrong;
use crate::declarations::{Declaration, declared};
use crate::declaring::{declare, second_name, wrong_check};
use crate::{LineCause, LineFault};
use agg_types::{Config, ConfigFault, Declared, Name, NoMemory};
use line_words::next_line;
use std::alloc::Global;

fn is_me(declaration: &Declaration) -> bool
    ensures { result ≡ is_me declaration.now }
{
    match declaration {
        Declaration::Me(_) => true,
        _ => false,
    }
}

// Whether it bounds all rows where a line before it did.
fn bounds_again(config: &Config, declaration: &Declaration) -> bool
    ensures { result ≡ bounds_again config.now declaration.now }
{
    match declaration {
        Declaration::Rows(_) => config.rows.is_some(),
        _ => false,
    }
}

/// Reads a line behind the others. A faulty one changes nothing, nor does one whose allocation
/// fails.
pub(crate) fn read_line(
    alloc: Global,
    config: &mut Config,
    named: &mut bool,
    line: &[u8],
) -> Result<(), Wrong>
    requires { all_faults config.old ≡ [] }
    ensures sound { all_faults config.new ≡ [] }
    ensures ok { OnOk result (Passes config.old named.old (meaning line.now) config.new named.new) }
    ensures err { IfErr result (λ wrong. FailsFirst wrong
        (faults_behind config.old named.old (meaning line.now))) }
    ensures spare { IfErr result (λ wrong. wrong.cause ≡ RefusedLine
        → takes_memory line.now ≡ true) }
    ensures config { OnErr result (config.new ≡ config.old) }
    ensures named { OnErr result (named.new ≡ named.old) }
{
    match declared(alloc, line)? {
        None => Ok(()),
        Some(declaration) => add(config, named, declaration),
    }
}

// Adds a declaration to the others, where it goes with them.
fn add(config: &mut Config, named: &mut bool, declaration: Declaration) -> Result<(), Wrong>
    requires { all_faults config.old ≡ [] }
    ensures sound { all_faults config.new ≡ [] }
    ensures ok { OnOk result
        (Passes config.old named.old (Ok (Some declaration)) config.new named.new) }
    ensures err { IfErr result (λ wrong. FailsFirst wrong
        (faults_behind config.old named.old (Ok (Some declaration)))) }
    ensures config { OnErr result (config.new ≡ config.old) }
    ensures named { OnErr result (named.new ≡ named.old) }
{
    if bounds_again(config, &declaration) {
        return Err(wrong_check(ConfigFault::Duplicate));
    }
    let me = is_me(&declaration);
    if *named && me {
        return Err(second_fault(&declaration));
    }
    declare(config, declaration)?;
    *named = *named || me;
    Ok(())
}

// What is wrong with a name of the collector where it has one already.
fn second_fault(declaration: &Declaration) -> Wrong
    requires { is_me declaration.now ≡ true }
    ensures { (config : Config) → all_faults config ≡ []
        → slice_get (faults_behind config true (Ok (Some declaration.now))) 0 ≡ Some result }
{
    match declaration {
        Declaration::Me(name) => second_name(name),
        _ => wrong_check(ConfigFault::Duplicate),
    }
}

/// No peer, table, filter, ranked list, push, bound, log or ignored table, under a name that isn't
/// the collector's yet.
pub(crate) fn opening(alloc: Global) -> Result<Config, NoMemory>
    ensures { IfOk result (λ config. config ≡ opening) }
{
    Ok(Config {
        me: Name::copy(alloc, b"-")?,
        peers: Declared::new(alloc),
        tables: Declared::new(alloc),
        filters: Declared::new(alloc),
        ranks: Declared::new(alloc),
        pushes: Declared::new(alloc),
        rows: None,
        logs: Declared::new(alloc),
        ignored: Declared::new(alloc),
    })
}

/// A configuration that is read line by line. It keeps what the lines write, or their first fault:
/// a line behind that one takes no memory.
#[derive(Drop)]
pub struct Reader {
    alloc: Global,
    config: Config,
    named: bool,
    count: usize,
    fault: Option<LineFault>,
    ghost sound: { fault ≡ None → all_faults config ≡ [] },
    ghost counted: { count ≤ 2 ^ 63 },
}

impl Reader {
    ghost use Rattle.agg_config.specs.Lines.{Finishes, HasRead, lines_read};

    /// A reader that has read no line.
    pub fn new(alloc: Global) -> Result<Reader, NoMemory>
        ensures none { IfOk result (λ reader. HasRead reader []) }
        ensures count { IfOk result (λ reader. lines_read reader ≡ 0) }
    {
        Ok(Reader {
            alloc,
            config: opening(alloc)?,
            named: false,
            count: 0,
            fault: None,
        })
    }

    /// Reads the next line. Behind a faulty one nothing is read.
    pub fn line(&mut self, line: &[u8])
        requires { lines_read self.old < 2 ^ 63 }
        ensures read { (lines : List (List ℕ)) → HasRead self.old lines
            → HasRead self.new (lines ++ line.now ∷ []) }
        ensures count { lines_read self.new ≤ lines_read self.old + 1 }
    {
        if self.fault.is_some() {
            return;
        }
        match read_line(self.alloc, &mut self.config, &mut self.named, line) {
            Ok(()) => self.count += 1,
            Err(wrong) => {
                self.fault = Some(LineFault {
                    line: self.count + 1,
                    cause: wrong.cause,
                    place: wrong.place,
                })
            }
        }
    }

    /// What the lines write, or their first fault. Without a `name` line that is Syntax, at the
    /// line behind the last.
    pub fn finish(self) -> Result<Config, LineFault>
        ensures finished { (lines : List (List ℕ)) → HasRead self lines → Finishes lines result }
        ensures faultless { IfOk result (λ config. all_faults config ≡ []) }
        ensures sound { IfOk result (λ config. config_faults config ≡ []) }
    {
        let Reader {
            config,
            named,
            count,
            fault,
            ..
        } = self;
        match fault {
            Some(fault) => Err(fault),
            None if named => Ok(config),
            None => Err(LineFault {
                line: count + 1,
                cause: LineCause::Syntax,
                place: None,
            }),
        }
    }
}

/// The configuration that a text writes, or its first faulty line.
///
/// Each line is judged behind the lines before it: Syntax comes before Number, and that before
/// Check. A text without a `name` line has the fault Syntax at the line after its last. `NoMemory`
/// is reported at the line where an allocation failed, and may come before any other fault. A blank
/// line takes no memory, nor does a comment. docs/CONFIGURATION.md has the lines. They declare what
/// HAProxy's `peers` section and its `stick-table` lines do (Configuration Manual).
pub fn read(alloc: Global, text: &[u8]) -> Result<Config, LineFault>
    ensures written { IfOk result (Write (lines_of text.now)) }
    ensures faultless { IfOk result (λ config. all_faults config ≡ []) }
    ensures sound { IfOk result (λ config. config_faults config ≡ []) }
    ensures fault { IfErr result (IsFirstFault (lines_of text.now)) }
{
    let Ok(mut reader) = Reader::new(alloc) else {
        return Err(LineFault {
            line: 1,
            cause: LineCause::NoMemory,
            place: None,
        });
    };
    let mut left = text;
    'lines: while let Some((line, rest)) = next_line(left) {
        reader.line(line);
        left = rest;
    }
    reader.finish()
}
