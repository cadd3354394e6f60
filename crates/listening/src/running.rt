//! The program over its handles and streams.

use crate::collecting::collect;
use crate::disk::Paths;
use collector_log::Usage;
use program::{FAULT, Files, Prepared, arguments, prepare, tell, tell_no_words};
use std::convert::AsStr;
use std::env::Env;
use std::io;
use std::io::{BufRead, BufReader, BufWriter, Write};
use std::net::{Net, TcpListener, TcpStream};
use std::random::RandomSource;
use std::sync::Wait;
use std::thread::Threads;
use std::time::Clock;

/// Runs the program over its arguments, standard input and standard output, which are the host's,
/// and these files, and answers the exit status. It collects over the threads, the clock and the
/// sockets of `rt`. A word that isn't UTF-8 is a bad command line: status 2.
pub fn run<R, H, F, E>(rt: &R, host: &H, files: &F, errors: &mut E) -> u8
where
    R: Threads + Wait + Copy + Send + Sync + 'static,
    R: Eprint + AllocGlobal + Clock + RandomSource + Usage,
    R: Net<Listener = TcpListener, Stream = TcpStream>,
    H: Env + Input + Print + AllocGlobal,
    F: Files + Paths,
    E: Write,
{
    match try_run(rt, host, files, errors) {
        Ok(status) => status,
        Err(_) => FAULT,
    }
}

// Runs the program, where its arguments and buffers for its streams can be had.
fn try_run<R, H, F, E>(rt: &R, host: &H, files: &F, errors: &mut E) -> io::Result<u8>
where
    R: Threads + Wait + Copy + Send + Sync + 'static,
    R: Eprint + AllocGlobal + Clock + RandomSource + Usage,
    R: Net<Listener = TcpListener, Stream = TcpStream>,
    H: Env + Input + Print + AllocGlobal,
    F: Files + Paths,
    E: Write,
{
    let words = match arguments(host) {
        Ok(words) => words,
        Err(fault) => return tell_no_words(&fault, errors),
    };
    let words = words.as_slice();
    let mut input = BufReader::new(host.alloc(), host.reader())?;
    let mut output = BufWriter::new(host.alloc(), io::writer(host))?;
    Ok(run_words(rt, words, files, &mut input, &mut output, errors))
}

// Whether the words of a command line ask for the version: that was printed then.
fn asks_version<S: AsStr>(words: &[S]) -> bool {
    match words.get(1) {
        None => false,
        Some(word) => word.as_str() == "--version" || word.as_str() == "-V",
    }
}

// Says behind the version from which commit the program was proved, where that is known.
fn print_commit<S: AsStr, P: Paths, O: Write>(
    words: &[S],
    paths: &P,
    output: &mut O,
) -> io::Result<()> {
    if !asks_version(words) {
        return Ok(());
    }
    let Some(commit) = paths.commit() else {
        return Ok(());
    };
    writeln!(output, "commit {}", commit.as_str())?;
    output.flush()
}

/// Runs the program over the words of a command line and its streams, and answers the exit status.
/// It collects over the threads, the clock and the sockets of `rt`. Where standard error takes
/// nothing any more, it ends without the line that says why.
pub fn run_words<R, S, F, I, O, E>(
    rt: &R,
    words: &[S],
    files: &F,
    input: &mut I,
    output: &mut O,
    errors: &mut E,
) -> u8
where
    R: Threads + Wait + Copy + Send + Sync + 'static,
    R: Eprint + AllocGlobal + Clock + RandomSource + Usage,
    R: Net<Listener = TcpListener, Stream = TcpStream>,
    S: AsStr,
    F: Files + Paths,
    I: BufRead,
    O: Write,
    E: Write,
{
    match prepare(rt.alloc(), words, files, input, output, errors) {
        Prepared::Ended(status) => match print_commit(words, files, output) {
            Ok(()) => status,
            Err(_) => FAULT,
        },
        Prepared::Collect(asked) => {
            let stopped = collect(rt, files, asked, output);
            if !stopped.is_heard {
                return FAULT;
            }
            tell(rt.alloc(), &stopped.fault, errors).unwrap_or(FAULT)
        }
    }
}
