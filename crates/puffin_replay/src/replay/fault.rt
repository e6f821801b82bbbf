//! Why the program fails, and how it says so.

ghost use Rattle.std.specs.Prelude.{◌≡◌, ◌++◌, ◌+◌, ◌≤◌, ◌⊎◌};
ghost use Rattle.std.specs.Io.KnownBytes.{Appends};
ghost use Rattle.arrayvec.specs.ArrayString.{array_string_len};
ghost use Rattle.puffin_data.specs.Cause.{file_error_text};
ghost use Rattle.puffin_data.specs.Device.{CanFail, TookNothing, WritesBeginning};
ghost use Rattle.puffin_data.specs.declared.file_error.FileError.TheVariants.{Memory};
ghost use Rattle.puffin_replay.specs.declared.replay.fault.ToolFault.TheVariants.{File};
ghost use Rattle.puffin_replay.specs.Program.Faults.{fault_line, fault_text, status_of};

use arrayvec::ArrayString;
use itoa::Buffer;
use puffin_data::data::{Drain, write_all};
use puffin_data::{Error, FileError};
use std::alloc::AllocError;

/// Why the program failed.
#[derive(Clone, Copy, Debug, PartialEq, Eq)]
pub enum ToolFault {
    /// The arguments aren't a task.
    Words,
    /// This line of the script, counted from 1, isn't a valid line.
    Line(u64),
    /// What was read was refused with this error.
    Cause(Error),
    /// Reading or writing failed with this error.
    File(FileError),
}

impl From<AllocError> for ToolFault {
    ghost from_gives = { λ _ fault. fault ≡ File Memory };

    fn from(_: AllocError) -> ToolFault {
        ToolFault::File(FileError::Memory)
    }
}

impl From<FileError> for ToolFault {
    ghost from_gives = { λ cause fault. fault ≡ File cause };

    fn from(cause: FileError) -> ToolFault {
        ToolFault::File(cause)
    }
}

/// A buffer that is longer than any line that is printed.
type Line = ArrayString<80>;

/// Appends the text of an error.
fn push_file_error(line: &mut Line, fault: FileError)
    requires { array_string_len line.old ≤ 32 }
    ensures text { line.new.bytes ≡ line.old.bytes ++ file_error_text fault }
    ensures len { array_string_len line.new ≤ array_string_len line.old + 32 }
{
    line.push_str(fault.name());
    match fault {
        FileError::UnknownKind(kind) | FileError::Compressed(kind) => {
            line.push_str(" ");
            line.push_str(Buffer::new().format(kind));
        }
        FileError::Refused(cause) => {
            line.push_str(" ");
            line.push_str(cause.name());
        }
        _ => {}
    }
}

/// Formats the line for standard error.
fn line_of(fault: ToolFault) -> Line
    ensures { result.bytes ≡ fault_line fault }
{
    let mut line = Line::new();
    match fault {
        ToolFault::Words => {
            line.push_str(
                "usage: puffin-tool count | replay SCRIPT OUT | report FILE START:NAME\n",
            );
        }
        ToolFault::Line(number) => {
            line.push_str("puffin-tool: script line ");
            line.push_str(Buffer::new().format(number));
            line.push_str("\n");
        }
        ToolFault::Cause(cause) => {
            line.push_str("puffin-tool: ");
            line.push_str(cause.name());
            line.push_str("\n");
        }
        ToolFault::File(cause) => {
            line.push_str("puffin-tool: ");
            push_file_error(&mut line, cause);
            line.push_str("\n");
        }
    }
    line
}

/// Writes the line that reports a fault, if there is one. Returns the program's status: 0 without a fault, 2 for wrong
/// arguments, else 1. If the writer fails, the status is the same, and a prefix of the line has been written.
pub fn finish<D: Drain>(fault: Option<ToolFault>, drain: &mut D) -> u8
    requires { CanFail D.failures drain.old }
    ensures status { result ≡ status_of fault }
    ensures beginning { WritesBeginning (D.contents drain.old) (D.contents drain.new) (
        fault_text fault) }
    // The whole line is written, or the writer failed or took no byte.
    ensures whole { Appends (D.contents drain.old) (D.contents drain.new) (fault_text fault)
        ⊎ ((D.failures drain.new ≡ D.failures drain.old + 1) ⊎ TookNothing D.takes drain.new) }
{
    let Some(fault) = fault else {
        return 0;
    };
    let _ = write_all(drain, line_of(fault).as_str().as_bytes());
    if fault == ToolFault::Words { 2 } else { 1 }
}
