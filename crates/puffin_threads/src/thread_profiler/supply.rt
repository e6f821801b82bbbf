//! What the scopes of a thread and its next report need, made ahead.

ghost use Rattle.std.specs.Prelude.{◌≡◌, ◌+◌, ◌*◌, ◌<◌, ◌≤◌, length, Option, None, OnOk, OnErr, IsOkUnless};
ghost use Rattle.puffin_data.specs.declared.error.Error.{Error};
ghost use Rattle.puffin_threads.specs.inner.Supplied.{IsReady, IsSupplied, HasCopy, Prepares};

use puffin_data::data::{BEGIN_LIMIT, END_SIZE, Stream};
use puffin_data::{Error, Result};

// A scope with a text of at most so many bytes begins with at most `BEGIN_LIMIT` bytes in both forms.
const SHORT_TEXT: usize = 127;

/// A copy of a thread's name, and how long its stream may be.
#[derive(Drop)]
pub(crate) struct Supply {
    // A copy of the thread's name, which the next report takes.
    pub(crate) copy: Option<String>,
    // While the stream is shorter, there are a copy of the name and room for a scope with a short text.
    pub(crate) ready: usize,
    // While the stream is shorter, there is room for a scope with a short text.
    pub(crate) limit: usize,
}

/// Sets the copy to one of the name if it is missing. Fails only with `Memory`.
fn keep_copy(copy: &mut Option<String>, name: &String) -> Result<()>
    ensures ok { OnOk result (HasCopy copy.old copy.new name.now) }
    ensures err { OnErr result (copy.new ≡ copy.old) }
    ensures memory { IsOkUnless result Error.Memory }
{
    if copy.is_none() {
        *copy = Some(name.clone()?);
    }
    Ok(())
}

/// Returns how long a stream may be so that a scope with a short text begins within its room, and the ends of all open scopes
/// fit it then: an open scope takes at least 22 bytes, and 9 more for its end.
fn ready_len(stream: &Stream) -> usize
    ensures { 0 < result → IsReady result stream.now }
{
    let all = stream.len().saturating_add(stream.room());
    all.saturating_sub(BEGIN_LIMIT + END_SIZE) / 31 * 22
}

impl Supply {
    /// Takes the copy of the name.
    #[inline(always)]
    pub(crate) fn take_copy(&mut self) -> Option<String>
        ensures copy { result ≡ self.old.copy }
        ensures left { self.new ≡ record { copy = None; ready = 0; limit = self.old.limit } }
    {
        self.ready = 0;
        self.copy.take()
    }

    /// Makes a copy of the name if there is none, and room for the beginning of a scope with this text, its end and the ends of
    /// all open scopes. Fails only with `Memory`.
    #[inline(always)]
    pub(crate) fn prepare(
        &mut self,
        name: &String,
        stream: &mut Stream,
        num_open: usize,
        text: &str,
    ) -> Result<()>
        requires few { 22 * num_open ≤ length stream.old.bytes }
        requires supplied { IsSupplied self.old stream.old }
        ensures { Prepares self.old self.new name.now stream.old stream.new num_open text.now
            result }
    {
        if text.len() <= SHORT_TEXT && stream.len() < self.ready {
            return Ok(());
        }
        self.renew(name, stream, num_open, text)
    }

    /// Does what [`Supply::prepare`] does where something may be missing. Asks for more room than a scope needs, so that others
    /// can follow without a look at it; if that is refused, for no more.
    #[cold]
    #[inline(never)]
    fn renew(
        &mut self,
        name: &String,
        stream: &mut Stream,
        num_open: usize,
        text: &str,
    ) -> Result<()>
        requires few { 22 * num_open ≤ length stream.old.bytes }
        requires supplied { IsSupplied self.old stream.old }
        ensures { Prepares self.old self.new name.now stream.old stream.new num_open text.now
            result }
    {
        keep_copy(&mut self.copy, name)?;
        let len = stream.len();
        if text.len() <= SHORT_TEXT && len < self.limit {
            self.ready = self.limit;
            return Ok(());
        }
        let needed = stream.form().begin_limit(text) + END_SIZE * (num_open + 1);
        if ready_len(stream) <= len {
            let _ = stream.reserve(needed + len / 2 + 300);
        }
        stream.reserve(needed)?;
        self.limit = ready_len(stream);
        self.ready = self.limit;
        Ok(())
    }
}
