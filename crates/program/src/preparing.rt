//! The words of a command line, and what they ask for.

ghost use Rattle.std.specs.Prelude.{◌≡◌, ◌⊎◌, ℕ, List, Option, map, IfOk, IfSome, OnErr, OnOk};
ghost use Rattle.std.specs.Option.{option_map};
ghost use Rattle.std.specs.Io.KnownBytes.{Appends};
ghost use Rattle.agg_config.specs.Faults.{AreFaults};
ghost use Rattle.program.specs.Checking.{checked_text};
ghost use Rattle.program.specs.Wiring.{Begins, Breaks, Checks, Does, Fails, Halts, Imports, IsCut};
ghost use Rattle.program.specs.Wiring.{IsFirstAlone, Prepares, Replays, Reported, Stops};
ghost use Rattle.program.specs.Wiring.{StopsReport, StopsTelling, Tells, streams};

use crate::checking::{explained_faults, print_faults};
use crate::fault::{FAULT, Fault, tell};
use crate::files::{Files, read_text};
use crate::prepared::{Asked, Prepared};
use crate::texts::{Texts, read_texts};
use agg_config::{LineCause, LineFault};
use command_line::{Endpoints, Job, Usage};
use haproxy_import::ImportFault;
use std::alloc::Global;
use std::convert::AsStr;
use std::io;
use std::io::{BufRead, Write};

/// The status of a configuration without a fault.
const FINE: u8 = 0;

/// The status of a faulty configuration.
const BAD_CONFIGURATION: u8 = 3;

/// Does what the words of a command line ask for, the first of them the program's name, up to where
/// proxies would be listened to. Where an allocation or a write failed the status is 5.
pub fn prepare<S: AsStr, F: Files, I: BufRead, O: Write, E: Write>(
    alloc: Global,
    words: &[S],
    files: &F,
    input: &mut I,
    output: &mut O,
    errors: &mut E,
) -> Prepared
    ensures { let s = streams (O.contents output.old) (O.contents output.new)
        (E.contents errors.old) (E.contents errors.new) in
        Prepares (map S.text words.now) (F.holds files.now) (I.remaining input.old) s result
        ⊎ Fails (map S.text words.now) (F.holds files.now) (I.remaining input.old) s result }
{
    match try_prepare(alloc, words, files, input, output, errors) {
        Ok(prepared) => prepared,
        Err(_) => Prepared::Ended(FAULT),
    }
}

// Does what the words ask for, where no allocation and no write fails.
fn try_prepare<S: AsStr, F: Files, I: BufRead, O: Write, E: Write>(
    alloc: Global,
    words: &[S],
    files: &F,
    input: &mut I,
    output: &mut O,
    errors: &mut E,
) -> io::Result<Prepared>
    ensures done { IfOk result (Prepares (map S.text words.now) (F.holds files.now)
        (I.remaining input.old) (streams (O.contents output.old) (O.contents output.new)
        (E.contents errors.old) (E.contents errors.new))) }
    ensures cut { OnErr result (Halts (map S.text words.now) (F.holds files.now)
        (I.remaining input.old) (streams (O.contents output.old) (O.contents output.new)
        (E.contents errors.old) (E.contents errors.new))) }
{
    match command_line::read(alloc, words) {
        Ok(job) => do_job(alloc, job, files, input, output, errors),
        Err(usage) => tell_usage(&usage, output, errors),
    }
}

// Does a job, up to where proxies would be listened to.
fn do_job<F: Files, I: BufRead, O: Write, E: Write>(
    alloc: Global,
    job: Job<'_>,
    files: &F,
    input: &mut I,
    output: &mut O,
    errors: &mut E,
) -> io::Result<Prepared>
    ensures done { IfOk result (Does (F.holds files.now) (I.remaining input.old) job.entry
        (streams (O.contents output.old) (O.contents output.new)
        (E.contents errors.old) (E.contents errors.new))) }
    ensures cut { OnErr result (Stops (F.holds files.now) (I.remaining input.old) job.entry
        (streams (O.contents output.old) (O.contents output.new)
        (E.contents errors.old) (E.contents errors.new))) }
{
    match job {
        Job::Replay => Ok(run_replay(alloc, input, output)),
        Job::Import { name, files: names } => {
            match read_texts(alloc, files, names.as_slice(), input) {
                Ok(read) => import(alloc, name, &read, output, errors),
                Err(error) => end(alloc, &Fault::Unread(error), errors),
            }
        }
        Job::Check { config } => match read_text(alloc, files, config, input) {
            Ok(text) => check(alloc, text.as_slice(), output, errors),
            Err(error) => end(alloc, &Fault::Unread(error), errors),
        },
        Job::Listen { config, endpoints } => match read_text(alloc, files, config, input) {
            Ok(text) => listen(alloc, text.as_slice(), output, errors, endpoints),
            Err(error) => end(alloc, &Fault::Unread(error), errors),
        },
    }
}

// Replays the script on standard input.
fn run_replay<I: BufRead, O: Write>(alloc: Global, input: &mut I, output: &mut O) -> Prepared
    ensures { (errors : Option (List ℕ)) → Replays (I.remaining input.old)
        (streams (O.contents output.old) (O.contents output.new) errors errors) result }
{
    let ending = replay::replay_from(alloc, input, output);
    Prepared::Ended(ending.status())
}

// Tells why there is no job.
fn tell_usage<O: Write, E: Write>(
    usage: &Usage,
    output: &mut O,
    errors: &mut E,
) -> io::Result<Prepared>
    ensures done { IfOk result (Tells usage.now
        (streams (O.contents output.old) (O.contents output.new)
        (E.contents errors.old) (E.contents errors.new))) }
    ensures cut { OnErr result (IsCut (streams (O.contents output.old) (O.contents output.new)
        (E.contents errors.old) (E.contents errors.new))) }
{
    usage.print(output, errors)?;
    Ok(Prepared::Ended(usage.status()))
}

// Prints a configuration for a haproxy.cfg, for a collector whose name may be given.
fn import<O: Write, E: Write>(
    alloc: Global,
    name: Option<&str>,
    read: &Texts<'_>,
    output: &mut O,
    errors: &mut E,
) -> io::Result<Prepared>
    ensures done { (known : Option (List ℕ)) → IfSome known (λ bytes. read.now.text.items ≡ bytes)
        → IfOk result (Imports (option_map (λ text. text.now) name.entry) known
        (streams (O.contents output.old) (O.contents output.new)
        (E.contents errors.old) (E.contents errors.new))) }
    ensures cut { OnErr result (IsCut (streams (O.contents output.old) (O.contents output.new)
        (E.contents errors.old) (E.contents errors.new))) }
{
    let me = name.map(|text| text.as_bytes());
    match haproxy_import::import(alloc, me, read.text.as_slice(), read.origins.as_slice()) {
        Ok(written) => {
            output.write_all(written.as_slice())?;
            output.flush()?;
            Ok(Prepared::Ended(FINE))
        }
        Err(ImportFault::NoMemory) => end(alloc, &Fault::NoMemory, errors),
        Err(ImportFault::Unlike) => {
            errors.write_all(b"the configuration can't be written\n")?;
            Ok(Prepared::Ended(BAD_CONFIGURATION))
        }
    }
}

// Says what is wrong with a configuration.
fn check<O: Write, E: Write>(
    alloc: Global,
    text: &[u8],
    output: &mut O,
    errors: &mut E,
) -> io::Result<Prepared>
    ensures done { (known : Option (List ℕ)) → IfSome known (λ bytes. text.now ≡ bytes)
        → IfOk result (Checks known (streams (O.contents output.old) (O.contents output.new)
        (E.contents errors.old) (E.contents errors.new))) }
    ensures cut { (known : Option (List ℕ)) → IfSome known (λ bytes. text.now ≡ bytes)
        → OnErr result (StopsTelling AreFaults known (streams (O.contents output.old)
        (O.contents output.new) (E.contents errors.old) (E.contents errors.new))) }
{
    let Ok(faults) = agg_config::faults(alloc, text) else {
        return end(alloc, &Fault::NoMemory, errors);
    };
    report(alloc, text, faults.as_slice(), output, errors)
}

// Reads a configuration, and reports what is wrong with it first.
fn listen<O: Write, E: Write>(
    alloc: Global,
    text: &[u8],
    output: &mut O,
    errors: &mut E,
    endpoints: Endpoints,
) -> io::Result<Prepared>
    ensures done { (known : Option (List ℕ)) → IfSome known (λ bytes. text.now ≡ bytes)
        → IfOk result (Begins known endpoints (streams (O.contents output.old)
        (O.contents output.new) (E.contents errors.old) (E.contents errors.new))) }
    ensures cut { (known : Option (List ℕ)) → IfSome known (λ bytes. text.now ≡ bytes)
        → OnErr result (StopsTelling IsFirstAlone known (streams (O.contents output.old)
        (O.contents output.new) (E.contents errors.old) (E.contents errors.new))) }
{
    let fault = match agg_config::read(alloc, text) {
        Ok(config) => return Ok(Prepared::Collect(Asked { config, endpoints })),
        Err(fault) => fault,
    };
    if fault.cause == LineCause::NoMemory {
        return end(alloc, &Fault::NoMemory, errors);
    }
    report(alloc, text, &[fault], output, errors)
}

// Ends by a fault, which is reported.
fn end<E: Write>(alloc: Global, fault: &Fault, errors: &mut E) -> io::Result<Prepared>
    ensures { IfOk result (λ prepared. (known : Option (List ℕ))
        → Breaks (streams known known (E.contents errors.old) (E.contents errors.new)) prepared) }
{
    Ok(Prepared::Ended(tell(alloc, fault, errors)?))
}

// Prints what is wrong with a configuration, and then what explains it.
fn report<O: Write, E: Write>(
    alloc: Global,
    text: &[u8],
    faults: &[LineFault],
    output: &mut O,
    errors: &mut E,
) -> io::Result<Prepared>
    ensures done { IfOk result (Reported text.now faults.now (streams (O.contents output.old)
        (O.contents output.new) (E.contents errors.old) (E.contents errors.new))) }
    ensures cut { OnErr result (StopsReport faults.now (streams (O.contents output.old)
        (O.contents output.new) (E.contents errors.old) (E.contents errors.new))) }
{
    let Ok(explained) = explained_faults(alloc, text, faults) else {
        return end(alloc, &Fault::NoMemory, errors);
    };
    print_whole(faults, output)?;
    match faults {
        [] => Ok(Prepared::Ended(FINE)),
        _ => {
            errors.write_all(explained.as_slice())?;
            Ok(Prepared::Ended(BAD_CONFIGURATION))
        }
    }
}

// Prints what is wrong with a configuration.
fn print_whole<O: Write>(faults: &[LineFault], output: &mut O) -> io::Result<()>
    ensures { OnOk result
        (Appends (O.contents output.old) (O.contents output.new) (checked_text faults.now)) }
{
    print_faults(faults, output)?;
    output.flush()
}
