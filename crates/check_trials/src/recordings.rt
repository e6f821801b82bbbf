//! A script that is recorded into memory.

use crate::again;
use crate::refusal::Refusal;
use puffin::profile_view::FrameView;
use puffin_data::data::{Counted, ScopeId};
use puffin_data::{Error, FileError};
use puffin_replay::replay::{Command, Reply, record};
use puffin_threads::thread_profiler::Closed;
use std::alloc::Global;

/// The file of one frame, with the scope `data` of the thread `main`.
const FILE: &[u8] =
    b"PUF0PFD4\x07\0\0\0\0\xc8\xfbX\x02#\x012\0\0\0\0\x01\x01\xc8\x04main#(\x01\0\0\0d\0\0\0\0\0\0\0\x04data\0\0\0\0\0\0\0\0),\x01\0\0\0\0\0\0\x01\x01\xc8\xfbX\x02\x01\0\0\0\0";

/// The file of no frame.
const NO_FRAME: &[u8] = b"PUF0";

/// Makes the commands that begin the scope, end it and take the frame.
fn commands(alloc: Global) -> Option<Vec<Command>> {
    let text = again!(String::from_str(alloc, "data"))?;
    let id = ScopeId::new(1)?;
    let mut commands = Vec::new(alloc);
    again!(commands.reserve(3))?;
    for command in [
        Command::Begin {
            thread: 0,
            at: 100,
            id,
            text,
        },
        Command::End {
            thread: 0,
            at: 300,
            back: 0,
        },
        Command::NewFrame,
    ] {
        commands.push(command).ok()?;
    }
    Some(commands)
}

/// Returns whether a command wasn't refused, and the report wasn't kept.
fn is_whole(reply: &Reply) -> bool {
    match reply {
        Reply::Began(offset) => *offset == 18,
        Reply::Ended(closed) => *closed == Closed::Reported,
        Reply::Frame(emitted) => emitted.frame.is_some(),
        _ => false,
    }
}

/// Returns whether a command has one of the replies that it can have if memory is refused: the refusal itself, a report that is
/// kept for it, or what follows from one of these, an end without a begin and a frame without scopes.
fn is_without_memory(reply: &Reply) -> bool {
    match reply {
        Reply::Refused(cause) => matches!(cause, Error::Memory | Error::MismatchedEnd),
        Reply::Ended(closed) => *closed == Closed::Kept(Error::Memory),
        Reply::Frame(emitted) => emitted.frame.is_none(),
        _ => false,
    }
}

/// Records the commands once. Returns whether all of them succeeded. Fails with `BadScopes` if one was refused for another cause
/// than memory.
fn record_into(
    alloc: Global,
    commands: &[Command],
    bytes: &mut Vec<u8>,
) -> Result<bool, FileError> {
    let mut names = Vec::new(alloc);
    names.push(String::from_str(alloc, "main")?)?;
    let mut view = FrameView::new(alloc);
    let replies = record(alloc, names, commands, &mut view, &mut Counted::new(bytes))?;
    if !replies
        .iter()
        .all(|it| is_whole(it) || is_without_memory(it))
    {
        return Err(FileError::BadScopes);
    }
    Ok(replies.len() == 3 && replies.iter().all(is_whole))
}

/// Records the commands once. Returns whether all of them succeeded, and the file.
fn recorded(alloc: Global, commands: &[Command]) -> Result<(bool, Vec<u8>), FileError> {
    let mut bytes = Vec::new(alloc);
    let is_whole = record_into(alloc, commands, &mut bytes)?;
    Ok((is_whole, bytes))
}

/// Returns whether a recording is as documented: the file has the frame if all commands succeeded, and no frame if one was
/// refused or the report was kept. A recording may also fail for want of memory.
fn is_documented(recording: &Result<(bool, Vec<u8>), FileError>) -> bool {
    match recording {
        Ok((true, file)) => file.as_slice() == FILE,
        Ok((false, file)) => file.as_slice() == NO_FRAME,
        Err(cause) => cause.is_memory(),
    }
}

/// Records the commands, and records them again if that didn't succeed whole. Prints the size of the file.
pub(crate) fn run<R: Print + AllocGlobal>(rt: &R) -> Option<()> {
    let commands = commands(rt.alloc())?;
    for _ in 0..2 {
        let recording = recorded(rt.alloc(), &commands);
        if !is_documented(&recording) {
            return None;
        }
        if let Ok((true, file)) = recording {
            let len = file.len();
            return println!(rt; "recorded bytes {len}").ok();
        }
    }
    None
}
