//! What frames have of each thread: in how many it has a stream, and its scopes, bytes and range in them.

ghost use Rattle.std.specs.Prelude.{◌≡◌, [], OnOk, OnErr, IsOkUnless, unwrap_or};
ghost use Rattle.std.specs.FinMap as map;
ghost use Rattle.puffin_data.specs.declared.error.Error.{Error};
ghost use Rattle.puffin_data.specs.Honesty.{facts_of};
ghost use Rattle.puffin_threads.specs.Thread.ThreadKey.{by_key, key_of};
ghost use Rattle.puffin_frames.specs.Frame.Contents.{streams_held};
ghost use Rattle.puffin_view.specs.ThreadTotals.{no_totals, totals_with, with_stream, with_frame, HasSome};

use puffin_data::data::StreamInfo;
use puffin_data::{Error, NanoSecond, Result};
use puffin_frames::frame_data::UnpackedFrameData;
use puffin_threads::thread_profiler::ThreadInfo;
use std::alloc::Global;
use std::collections::BTreeMap;

/// What frames have of one thread. A sum that doesn't fit `u64` is `u64::MAX`.
#[derive(Clone, Copy, Debug)]
pub struct ThreadTotals {
    /// The number of frames with a stream of the thread.
    pub frames: u64,
    /// The number of its scopes.
    pub scopes: u64,
    /// The size of its streams, in bytes.
    pub bytes: u64,
    /// The least start and the greatest stop of its scopes, in nanoseconds.
    pub range_ns: (NanoSecond, NanoSecond),
}

impl ThreadTotals {
    /// Returns the totals of a thread without frames.
    fn none() -> ThreadTotals
        ensures { result ≡ no_totals }
    {
        ThreadTotals {
            frames: 0,
            scopes: 0,
            bytes: 0,
            range_ns: (NanoSecond::MAX, NanoSecond::MIN),
        }
    }

    /// Returns the totals with the stream of one more frame.
    fn with(self, info: &StreamInfo) -> ThreadTotals
        ensures { result ≡ totals_with self (facts_of info.now) }
    {
        let (start, stop) = self.range_ns;
        ThreadTotals {
            frames: self.frames.saturating_add(1),
            scopes: self.scopes.saturating_add(info.num_scopes as u64),
            bytes: self.bytes.saturating_add(info.stream.len() as u64),
            range_ns: (start.min(info.range_ns.0), stop.max(info.range_ns.1)),
        }
    }
}

/// The totals of all threads of some frames, of a file or of a view.
///
/// ```
/// let mut all = AllTotals::new(alloc);
/// all.add(&frame.unpacked()?)?;
/// for (thread, totals) in all.totals.iter() {
///     println!(rt; "{}: {} frames", thread.name, totals.frames);
/// }
/// ```
#[derive(Drop)]
pub struct AllTotals {
    /// The totals by thread. A thread without a stream in any of the frames has none.
    pub totals: BTreeMap<ThreadInfo, ThreadTotals>,
}

impl AllTotals {
    /// Makes the totals of no frames.
    pub fn new(alloc: Global) -> AllTotals
        ensures { result.totals.entries ≡ [] }
    {
        AllTotals {
            totals: BTreeMap::new(alloc),
        }
    }

    /// Returns the totals of a thread so far.
    fn totals_under(&self, thread: &ThreadInfo) -> ThreadTotals
        ensures { result ≡ unwrap_or
            (map.get (by_key self.now.totals.entries) (key_of thread.now)) no_totals }
    {
        match self.totals.get(thread) {
            Some(totals) => *totals,
            None => ThreadTotals::none(),
        }
    }

    /// Adds a thread's stream of one more frame. Fails only with `Memory`.
    fn add_stream(&mut self, thread: &ThreadInfo, info: &StreamInfo) -> Result<()>
        ensures ok { OnOk result (
            by_key self.new.totals.entries
            ≡ with_stream (by_key self.old.totals.entries) (key_of thread.now, facts_of info.now)) }
        ensures err { OnErr result (self.new.totals.entries ≡ self.old.totals.entries) }
        ensures memory { IsOkUnless result Error.Memory }
    {
        let totals = self.totals_under(thread).with(info);
        self.totals.insert(thread.clone()?, totals)?;
        Ok(())
    }

    /// Adds the streams of one more frame to the totals of their threads, thread after thread. A frame that is added twice
    /// counts twice.
    ///
    /// Fails only with `Memory`. Then the streams of the frame's first threads are added, and those of the others aren't.
    pub fn add(&mut self, frame: &UnpackedFrameData) -> Result<()>
        ensures ok { OnOk result (
            by_key self.new.totals.entries
            ≡ with_frame (by_key self.old.totals.entries) (streams_held frame.now)) }
        ensures err { OnErr result (
            HasSome (by_key self.old.totals.entries) (streams_held frame.now)
            (by_key self.new.totals.entries)) }
        ensures memory { IsOkUnless result Error.Memory }
    {
        'streams: for (thread, info) in frame.thread_streams.iter() {
            self.add_stream(thread, info)?;
        }
        Ok(())
    }
}
