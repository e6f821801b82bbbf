//! Why the program fails, and what it prints then.

use puffin_data::{FileError, FrameIndex};
use std::{fmt, io};

/// What is told of words that are no request.
const USAGE: &str =
    "usage: puffin-look threads FILE [--json] | frames FILE [N|A..B] [--json] | frame FILE INDEX [THREAD] | trace FILE [--frames A..B] | folded FILE [THREAD] [--frames A..B] | top FILE [THREAD] [--by own|total|calls|max] [--limit N] [--texts] [--frames A..B] [--json] | slowest FILE [N] [--frames A..B] [--json] | diff OLD NEW [THREAD] [--limit N] [--fail-above N%] [--frames A..B] [--json] | view FILE PAGE [--frames A..B]";

/// The status of a tool that writes to a pipe that nobody reads any more, as a shell tells it.
const UNREAD: u8 = 141;

/// The status if a time has grown by more than it may.
const GROWN: u8 = 3;

/// The name of standard output in faults.
pub(crate) const OUTPUT: &str = "standard output";

/// What is wrong with a file, or with standard output.
#[derive(Clone, Copy)]
pub(crate) enum Cause<'w> {
    /// The system failed.
    System(io::Error),
    /// Reading or writing failed with this error.
    File(FileError),
    /// The file has no frame with this index.
    NoFrame(FrameIndex),
    /// The file has no thread that this word names.
    NoThread(&'w str),
    /// The frame with this index has no scopes of the thread that this word names.
    NotInFrame(FrameIndex, &'w str),
    /// The own time of a name in each frame has grown by more than so many percent.
    Grown(u64),
    /// The file can't be read a second time.
    ReadOnce,
    /// The file is one of frames, where a page is to be written.
    HasFrames,
}

/// Why the program failed.
#[derive(Clone, Copy)]
pub(crate) enum LookFault<'w> {
    /// The arguments aren't a request.
    Words,
    /// There is no memory for the arguments.
    Memory,
    /// Nobody reads standard output any more.
    Unread,
    /// This is wrong with what has this name.
    At(&'w str, Cause<'w>),
}

/// Returns the fault of a call that read the file and wrote to standard output.
pub(crate) fn fault_of<'w>(
    path: &'w str,
    error: FileError,
    read: Option<io::Error>,
    written: Option<io::Error>,
) -> LookFault<'w> {
    match (error, read, written) {
        (FileError::Io, Some(error), _) => LookFault::At(path, Cause::System(error)),
        (FileError::Io, None, Some(error)) if error.kind() == io::ErrorKind::BrokenPipe => {
            LookFault::Unread
        }
        (FileError::Io, None, Some(error)) => LookFault::At(OUTPUT, Cause::System(error)),
        (FileError::Io, None, None) => LookFault::At(OUTPUT, Cause::File(error)),
        _ => LookFault::At(path, Cause::File(error)),
    }
}

/// A word that is printed with its control characters escaped, as in a table.
#[derive(Drop)]
struct Escaped<'w>(&'w str);

impl fmt::Display for Escaped<'_> {
    fn fmt<W: fmt::Write>(&self, f: &mut fmt::Formatter<W>) -> fmt::Result {
        for letter in self.0.chars() {
            if letter < ' ' || letter == '\x7f' {
                write!(f, "\\x{:02x}", u32::from(letter))?;
            } else {
                f.write_char(letter)?;
            }
        }
        Ok(())
    }
}

/// Prints a fault on standard error, in one line.
fn print_fault(rt: &HostRuntime, name: &str, cause: &Cause<'_>) -> io::Result<()> {
    let name = Escaped(name);
    match cause {
        Cause::System(error) => {
            let message = format!(in rt.alloc(); "{error}")?;
            let message = message.split(" (os error").next().unwrap_or("Io");
            eprintln!(rt; "puffin-look: {name}: {message}")
        }
        Cause::File(error) => eprintln!(rt; "puffin-look: {name}: {error}"),
        Cause::NoFrame(index) => eprintln!(rt; "puffin-look: {name}: no frame {index}"),
        Cause::NoThread(word) => {
            let word = Escaped(word);
            eprintln!(rt; "puffin-look: {name}: no thread {word}")
        }
        Cause::NotInFrame(index, word) => {
            let word = Escaped(word);
            eprintln!(rt; "puffin-look: {name}: no frame {index} with the thread {word}")
        }
        Cause::Grown(percent) => {
            eprintln!(rt;
                "puffin-look: {name}: own time in each frame grew by more than {percent}%"
            )
        }
        Cause::ReadOnce => {
            eprintln!(rt; "puffin-look: {name}: can't be read twice; write it to a file first")
        }
        Cause::HasFrames => eprintln!(rt; "puffin-look: {name}: is a file of frames, not replaced"),
    }
}

/// Tells of a fault, and returns the program's status.
pub(crate) fn finish(rt: &HostRuntime, ended: &Result<(), LookFault<'_>>) -> u8 {
    let (told, status) = match ended {
        Ok(()) => (Ok(()), 0),
        Err(LookFault::Words) => (eprintln!(rt; "{USAGE}"), 2),
        Err(LookFault::Memory) => (eprintln!(rt; "puffin-look: Memory"), 1),
        Err(LookFault::Unread) => (Ok(()), UNREAD),
        Err(LookFault::At(name, cause @ Cause::Grown(_))) => (print_fault(rt, name, cause), GROWN),
        Err(LookFault::At(name, cause)) => (print_fault(rt, name, cause), 1),
    };
    // (there is nobody to tell that standard error failed)
    let _ = told;
    status
}
