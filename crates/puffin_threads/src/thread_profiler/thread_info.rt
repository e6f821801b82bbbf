ghost use Rattle.std.specs.Prelude.{◌≡◌, IfOk, IsOkUnless};
ghost use Rattle.puffin_data.specs.declared.error.Error.{Error};
ghost use Rattle.puffin_threads.specs.Thread.ThreadKey.{key_of};

use puffin_data::{Error, NanoSecond, Result};

/// Identifies the thread whose scopes a stream holds. Infos are ordered by start, then by the bytes of the name; a missing
/// start comes first.
#[derive(Debug, PartialEq, Eq, PartialOrd, Ord, Hash, Drop)]
pub struct ThreadInfo {
    /// When the thread's first scope began, in nanoseconds, or `None` if that isn't known.
    pub start_time_ns: Option<NanoSecond>,
    /// The thread's name.
    pub name: String,
}

impl ThreadInfo {
    /// Copies the info. Fails only with `Memory`.
    pub fn clone(&self) -> Result<ThreadInfo>
        ensures ok { IfOk result (λ info. key_of info ≡ key_of self.now) }
        ensures err { IsOkUnless result Error.Memory }
    {
        Ok(ThreadInfo {
            start_time_ns: self.start_time_ns,
            name: self.name.clone()?,
        })
    }
}
