//! Which frames of a file are shown, and which of their threads.

ghost use Rattle.std.specs.Prelude.{◌≡◌};
ghost use Rattle.puffin_threads.specs.Thread.ThreadKey.{key_of, has_same_key};
ghost use Rattle.puffin_look.specs.Wanted.{is_within, is_one_of, is_wanted};

use puffin_data::FrameIndex;
use puffin_threads::thread_profiler::ThreadInfo;

/// The indices from the first to the last.
#[derive(Clone, Copy, Debug, PartialEq, Eq)]
pub struct Indices {
    pub first: FrameIndex,
    pub last: FrameIndex,
}

impl Indices {
    /// Returns this index alone.
    pub fn only(index: FrameIndex) -> Indices
        ensures first { result.first ≡ index }
        ensures last { result.last ≡ index }
    {
        Indices {
            first: index,
            last: index,
        }
    }
}

/// Which frames of a file are shown, and which of their threads.
#[derive(Drop)]
pub struct Wanted {
    /// The indices of the frames, or `None` for all frames.
    pub frames: Option<Indices>,
    /// The threads, or `None` for all. [`threads_named`](crate::threads_named) finds them by their names.
    pub threads: Option<Vec<ThreadInfo>>,
}

impl Wanted {
    /// Returns whether a thread is shown.
    pub(crate) fn has_thread(&self, thread: &ThreadInfo) -> bool
        ensures { result ≡ is_wanted self.now (key_of thread.now) }
    {
        match &self.threads {
            None => true,
            Some(threads) => is_one_of(threads, thread),
        }
    }
}

/// Returns whether two are the same thread.
fn is_same(one: &ThreadInfo, other: &ThreadInfo) -> bool
    ensures { result ≡ has_same_key (key_of one.now) (key_of other.now) }
{
    one == other
}

/// Returns whether a thread is one of these.
fn is_one_of(threads: &[ThreadInfo], thread: &ThreadInfo) -> bool
    ensures { result ≡ is_one_of threads.now (key_of thread.now) }
{
    threads.iter().any(|it| is_same(it, thread))
}

/// Returns whether an index is one of these, or of all.
pub(crate) fn is_within(indices: Option<Indices>, index: FrameIndex) -> bool
    ensures { result ≡ is_within indices index }
{
    match indices {
        None => true,
        Some(indices) => indices.first <= index && index <= indices.last,
    }
}
