//! `puffin-tool`: counts a stream of scopes, replays a script of commands into a file of frames, and prints the report of a
//! file.
#![tactic(auto)]

use puffin_data::data::{Buffered, Counted};
use puffin_data::{Error, FileError};
use puffin_replay::replay::{
    Script, Task, ToolFault, count_stream, finish, print_report, read_script, read_words,
    run_script,
};
use puffin_threads::thread_profiler::ThreadInfo;
use std::fs::File;
use std::io::BufReader;
use std::process::ExitCode;
use std::{env, io};

/// How many bytes of a file are read ahead.
const READ_AHEAD: usize = 65_536;

/// Opens three files, which take the places of standard input, output and error if those are closed, so that no file opened
/// later is mistaken for one of them. A closed input is then at its end, and nothing can be written to a closed output. The
/// files stay open until they are dropped.
fn placeholders(rt: &HostRuntime) -> [io::Result<File>; 3] {
    [(); 3].map(|_| File::open(rt, "/dev/null"))
}

/// Returns the program's arguments. Fails if one isn't text, or with `Memory`.
fn words(rt: &HostRuntime) -> Result<Vec<String>, ToolFault> {
    let mut words = Vec::new(rt.alloc());
    let args = match env::args(rt) {
        Ok(args) => args,
        Err(error) if error.kind() == io::ErrorKind::OutOfMemory => {
            return Err(ToolFault::Cause(Error::Memory));
        }
        Err(_) => return Err(ToolFault::Words),
    };
    for word in args.skip(1) {
        if words.push(word).is_err() {
            return Err(ToolFault::Cause(Error::Memory));
        }
    }
    Ok(words)
}

/// Returns the fault of a file that can't be opened or created.
fn not_opened(error: &io::Error) -> ToolFault {
    match error.kind() {
        io::ErrorKind::OutOfMemory => ToolFault::File(FileError::Memory),
        _ => ToolFault::File(FileError::Io),
    }
}

/// Counts the stream on standard input.
fn count(rt: &HostRuntime) -> Result<(), ToolFault> {
    let mut input = Counted::new(rt.stdin());
    let mut output = Counted::new(rt.stdout());
    match count_stream(rt.alloc(), &mut input, &mut output)? {
        None => Ok(()),
        Some(cause) => Err(ToolFault::Cause(cause)),
    }
}

/// Reads the script in a file.
fn script_in(rt: &HostRuntime, path: &str) -> Result<Script, ToolFault> {
    match File::open(rt, path) {
        Ok(file) => read_script(rt.alloc(), &mut Counted::new(file)),
        Err(error) => Err(not_opened(&error)),
    }
}

/// Replays a script. Reads the script before creating the file.
fn replay(rt: &HostRuntime, script: &str, out: &str) -> Result<(), ToolFault> {
    let script = script_in(rt, script)?;
    let mut out = match File::create(rt, out) {
        Ok(file) => Counted::new(file),
        Err(error) => return Err(not_opened(&error)),
    };
    let mut lines = Counted::new(rt.stdout());
    Ok(run_script(rt.alloc(), &script, &mut out, &mut lines)?)
}

/// Opens a file that is read ahead, so that small packets take few system calls.
fn read_ahead(rt: &HostRuntime, path: &str) -> io::Result<BufReader<File>> {
    BufReader::with_capacity(rt.alloc(), READ_AHEAD, File::open(rt, path)?)
}

/// Prints the report of a file for one thread.
fn report(rt: &HostRuntime, path: &str, thread: &ThreadInfo) -> Result<(), ToolFault> {
    let mut file = match read_ahead(rt, path) {
        Ok(file) => Buffered::new(file),
        Err(error) => return Err(not_opened(&error)),
    };
    let mut lines = Counted::new(rt.stdout());
    Ok(print_report(rt.alloc(), &mut file, thread, &mut lines)?)
}

/// Does what the arguments ask for.
fn run(rt: &HostRuntime) -> Result<(), ToolFault> {
    let words = words(rt)?;
    match read_words(words.as_slice()) {
        Ok(Some(Task::Count)) => count(rt),
        Ok(Some(Task::Replay(script, out))) => replay(rt, script.as_str(), out.as_str()),
        Ok(Some(Task::Report(file, thread))) => report(rt, file.as_str(), &thread),
        Ok(None) => Err(ToolFault::Words),
        Err(cause) => Err(ToolFault::Cause(cause)),
    }
}

fn main(rt: HostRuntime) -> ExitCode {
    let _placeholders = placeholders(&rt);
    let fault = run(&rt).err();
    ExitCode::from(finish(fault, &mut Counted::new(rt.stderr())))
}
