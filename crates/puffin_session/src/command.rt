//! The commands of a session, and the replies to them.

use puffin_collector::Emitted;
use puffin_data::data::{ScopeId, Stream};
use puffin_data::{Error, NanoSecond};
use puffin_threads::thread_profiler::{Closed, ThreadInfo};

/// A step of a session. A negative time counts as 0, and a time before the thread's last one counts as the last one.
#[derive(Drop)]
pub enum Command {
    /// Begins a scope.
    Begin {
        /// The thread's number in the session, from 0.
        thread: usize,
        /// The start, in nanoseconds.
        at: NanoSecond,
        /// The scope's id.
        id: ScopeId,
        /// The scope's text.
        text: String,
    },
    /// Ends an open scope, which must be the innermost one of its thread.
    End {
        /// The thread's number in the session, from 0.
        thread: usize,
        /// The stop, in nanoseconds.
        at: NanoSecond,
        /// How many scopes are open within this one; only 0 is accepted.
        back: usize,
    },
    /// Registers a scope's details with a thread, which hands them on with its next accepted report.
    Register {
        /// The thread's number in the session, from 0.
        thread: usize,
        /// The scope's own name, or `None` if it is a whole function.
        name: Option<String>,
        /// The function that contains the scope.
        function: String,
        /// The file that contains the scope.
        file: String,
        /// The line in the file, counted from 1, or 0 if it is unknown.
        line: u32,
    },
    /// Registers the caller's own scopes by their names.
    RegisterUser {
        /// The scopes' names.
        names: Vec<String>,
    },
    /// Reports the caller's own scopes.
    ReportUser {
        /// The thread whose scopes they are.
        info: ThreadInfo,
        /// The scopes. The stream is walked first.
        stream: Stream,
    },
    /// Makes the next frame list every known scope.
    Snapshot,
    /// Takes a frame.
    NewFrame,
}

/// The outcome of a command.
#[derive(Drop)]
pub enum Reply {
    /// The scope was begun. Its size is at this offset of its thread's stream.
    Began(usize),
    /// The scope was ended.
    Ended(Closed),
    /// The details were registered under this id.
    Registered(ScopeId),
    /// The scopes have these ids, one for each name.
    RegisteredUser(Vec<ScopeId>),
    /// The scopes were reported.
    Reported,
    /// The next frame will list every known scope.
    Snapshot,
    /// What was due was taken as a frame, if there was a scope.
    Frame(Emitted),
    /// The command failed and changed nothing, with two exceptions: `RegisterUser` may have registered the first few of its
    /// scopes, and `NewFrame` may have made the first few of the new details known.
    Refused(Error),
}
