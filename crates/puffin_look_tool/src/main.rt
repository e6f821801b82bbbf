//! `puffin-look`: shows what is in a file of frames: its threads, its frames, a frame as a tree, all of it as a trace, as folded
//! stacks, its scopes by name, or a page of them.
#![tactic(auto)]

mod faults;
mod input;
mod page;
mod pages;
mod progress;
mod skimmed;
mod tops;

use crate::faults::{Cause, LookFault, OUTPUT, fault_of, finish};
use crate::input::Input;
use crate::progress::{Output, Progress};
use puffin_look::{
    Form, Indices, Options, View, print_folded, print_frame, print_frames, print_slow_frames,
    print_slowest, print_threads, print_trace, read_words, take_options,
};
use std::fs::File;
use std::process::ExitCode;
use std::{env, io};

/// What `--help` prints.
const HELP: &str = "puffin-look shows what is in a file of frames.

  puffin-look threads FILE               its threads, with their scopes, bytes and times
  puffin-look frames FILE [A..B]         its frames, with their threads, scopes and times
  puffin-look frames FILE N              the N slowest frames, the slowest first
  puffin-look frame FILE INDEX [THREAD]  a frame as a tree of scopes
  puffin-look trace FILE                 a trace, for ui.perfetto.dev, chrome://tracing and speedscope.app
  puffin-look folded FILE [THREAD]       folded stacks, for flamegraph.pl
  puffin-look top FILE [THREAD]          its scopes by name, those that take the most time first
    --by own|total|calls|max             the greatest of this first
    --texts                              a row for each text of a name
  puffin-look slowest FILE [N]           the N (5) slowest frames, each with the path of scopes that takes the most time
  puffin-look diff OLD NEW [THREAD]      the scopes of two files by name, those that changed the most first
    --fail-above N%                      status 3 if own time in each frame grew by more
    --limit N                            of top and diff: the first N rows
  puffin-look view FILE PAGE             a page for a browser: the slowest frames and the last ones, as flame charts
    --frames A..B                        of trace, folded, top, slowest, diff and view: these alone
    --json                               of threads, frames, top, slowest and diff: JSON, with one row a line
  puffin-look --help, --version          this text; the version

A..B are the frames with indices from A on and below B. THREAD is START:NAME as `threads` lists it, or the name of all threads
that have it, or a beginning of their names and a `*`.";

/// What `--version` prints.
const VERSION: &str = "puffin-look 0.20.0";

/// Opens three files, which take the places of standard input, output and error if those are closed, so that no file opened
/// later is mistaken for one of them. A closed input is then at its end, and nothing can be written to a closed output. The
/// files stay open until they are dropped.
fn placeholders(rt: &HostRuntime) -> [io::Result<File>; 3] {
    [(); 3].map(|_| File::open(rt, "/dev/null"))
}

/// Returns the program's arguments. Fails if one isn't text, or with `Memory`.
fn words(rt: &HostRuntime) -> Result<Vec<String>, LookFault<'static>> {
    let mut words = Vec::new(rt.alloc());
    let args = match env::args(rt) {
        Ok(args) => args,
        Err(error) if error.kind() == io::ErrorKind::OutOfMemory => return Err(LookFault::Memory),
        Err(_) => return Err(LookFault::Words),
    };
    for word in args.skip(1) {
        if words.push(word).is_err() {
            return Err(LookFault::Memory);
        }
    }
    Ok(words)
}

/// Prints a list, which is read once.
fn list<'w>(
    rt: &HostRuntime,
    view: View<'w>,
    form: Form,
    input: &Input<'w>,
) -> Result<(), LookFault<'w>> {
    let mut source = input.reader(rt)?;
    let mut out = input.output(rt);
    let printed = match view {
        View::Threads => print_threads(rt.alloc(), &mut source, &mut out, form),
        View::Slowest(limit) => print_slowest(rt.alloc(), &mut source, &mut out, limit, form),
        View::Frames(indices) => print_frames(rt.alloc(), &mut source, &mut out, indices, form),
        _ => Ok(()),
    };
    match printed {
        Ok(()) => Ok(()),
        Err(error) => Err(fault_of(input.path, error, source.last_error(), out.last_error())),
    }
}

/// Fails if a frame wasn't found, or not with its thread.
fn found<'w>(path: &'w str, view: View<'w>, is_found: bool) -> Result<(), LookFault<'w>> {
    if is_found {
        return Ok(());
    }
    match view {
        View::Frame(index, None) => Err(LookFault::At(path, Cause::NoFrame(index))),
        View::Frame(index, Some(word)) => Err(LookFault::At(path, Cause::NotInFrame(index, word))),
        _ => Ok(()),
    }
}

/// Prints what has names of scopes, which is read twice.
fn draw<'w>(
    rt: &HostRuntime,
    view: View<'w>,
    options: Options,
    input: &Input<'w>,
) -> Result<(), LookFault<'w>> {
    let overview = input.overview(rt)?;
    let wanted = match view {
        View::Frame(index, word) => input.wanted(rt, Some(Indices::only(index)), word)?,
        View::Folded(word) | View::Top(word) => input.wanted(rt, options.frames, word)?,
        _ => input.wanted(rt, options.frames, None)?,
    };
    let mut source = input.reader(rt)?;
    let mut out = input.output(rt);
    let printed = match view {
        View::Frame(..) => print_frame(rt.alloc(), &overview, &mut source, &mut out, &wanted),
        View::Folded(_) => {
            print_folded(rt.alloc(), &overview, &mut source, &mut out, &wanted).map(|_| true)
        }
        View::SlowFrames(limit) => {
            print_slow_frames(
                rt.alloc(),
                &overview,
                &mut source,
                &mut out,
                &wanted,
                limit,
                options.form,
            )
            .map(|()| true)
        }
        View::Top(_) => {
            tops::print(rt, &overview, &mut source, &mut out, &wanted, options).map(|()| true)
        }
        _ => print_trace(rt.alloc(), &overview, &mut source, &mut out, wanted.frames).map(
            |()| true,
        ),
    };
    match printed {
        Ok(is_found) => found(input.path, view, is_found),
        Err(error) => Err(fault_of(input.path, error, source.last_error(), out.last_error())),
    }
}

/// Prints what was asked for of the file at a path.
fn show<'w>(
    rt: &HostRuntime,
    progress: &'w Progress,
    view: View<'w>,
    options: Options,
    path: &'w str,
) -> Result<(), LookFault<'w>> {
    let input = Input::open(rt, progress, path)?;
    match view {
        View::Threads | View::Frames(_) | View::Slowest(_) => list(rt, view, options.form, &input),
        View::Page(page) => pages::view(rt, &input, page, options.frames),
        View::Diff(new, word) => tops::diff(rt, &input, new, word, options),
        _ => draw(rt, view, options, &input),
    }
}

/// Does what the arguments ask for.
fn run<'w>(
    rt: &HostRuntime,
    progress: &'w Progress,
    words: &'w [String],
    options: Option<Options>,
) -> Result<(), LookFault<'w>> {
    if let [word] = words {
        match word.as_str() {
            "--help" | "-h" => return tell(rt, HELP),
            "--version" => return tell(rt, VERSION),
            _ => return Err(LookFault::Words),
        }
    }
    match (read_words(words), options) {
        (Some((view, path)), Some(options)) if options.are_taken_by(view) => {
            show(rt, progress, view, options, path)
        }
        _ => Err(LookFault::Words),
    }
}

/// Prints a text on standard output.
fn tell(rt: &HostRuntime, text: &str) -> Result<(), LookFault<'static>> {
    match println!(rt; "{text}") {
        Ok(()) => Ok(()),
        Err(error) if error.kind() == io::ErrorKind::BrokenPipe => Err(LookFault::Unread),
        Err(error) => Err(LookFault::At(OUTPUT, Cause::System(error))),
    }
}

fn main(rt: HostRuntime) -> ExitCode {
    let _placeholders = placeholders(&rt);
    let status = match words(&rt) {
        Ok(mut words) => {
            let options = take_options(&mut words);
            let progress = Progress::new(&rt);
            let ended = run(&rt, &progress, words.as_slice(), options);
            progress.hide();
            finish(&rt, &ended)
        }
        Err(fault) => finish(&rt, &Err(fault)),
    };
    ExitCode::from(status)
}
