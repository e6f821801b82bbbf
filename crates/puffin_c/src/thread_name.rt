//! The name under which a thread's scopes are found, as programs pass it.

ghost use Rattle.std.specs.Prelude.{◌≡◌, OnOk, IfOk, IfErr};
ghost use Rattle.std.specs.Str.{IsUtf8};
ghost use Rattle.puffin_threads.specs.Thread.ThreadKey.{key_of};
ghost use Rattle.puffin_c.specs.Recording.{IsNoText};
ghost use Rattle.puffin_c.specs.Reporting.{key_given};

use crate::fault::Fault;
use crate::texts::{new_string, text};
use puffin_threads::thread_profiler::ThreadInfo;
use std::alloc::Global;

/// A thread's name, and when its first scope began.
#[repr(C)]
#[derive(Clone, Copy)]
pub struct PuffinThreadName<'a> {
    /// The name.
    pub name: &'a [u8],
    /// When the thread's first scope began, in nanoseconds.
    pub start_ns: i64,
    /// Whether it is known when the thread's first scope began.
    pub has_start: bool,
}

impl<'a> PuffinThreadName<'a> {
    /// Returns the info of the thread with this name and this start, or with this name and no start if `has_start` isn't set.
    /// Fails with `NotText` if the name isn't UTF-8, otherwise only with `Memory`.
    pub(crate) fn info(&self, alloc: Global) -> Result<ThreadInfo, Fault>
        ensures ok { IfOk result (λ info. key_of info ≡ key_given self.now) }
        ensures text { OnOk result (IsUtf8 self.now.name.now) }
        ensures err { IfErr result (IsNoText self.now.name.now) }
    {
        let name = text(self.name)?;
        Ok(ThreadInfo {
            start_time_ns: self.has_start.then_some(self.start_ns),
            name: new_string(alloc, name)?,
        })
    }
}
