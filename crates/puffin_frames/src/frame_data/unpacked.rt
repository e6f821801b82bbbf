ghost use Rattle.std.specs.Prelude.{◌≡◌, ◌^◌, ◌<◌, ◌-ℤ◌, ◌≤ℤ◌, FitsSigned, IsOkUnless};
ghost use Rattle.std.specs.Int.{w64};
ghost use Rattle.std.specs.Coded.{Coded-set, coded_option};
ghost use Rattle.puffin_frames.specs.Frame.Streams.{shared_streams, streams_code};
ghost use Rattle.puffin_frames.specs.Frame.Holding.{AreReadAgain};

use crate::frame_data::meta::FrameMeta;
use crate::frame_data::thread_streams::{ThreadStreams, share_streams, streams_copy};
use puffin_data::data::{StreamInfo, is_valid_range};
use puffin_data::{Error, FrameIndex, NanoSecond, Result};
use puffin_threads::thread_profiler::ThreadInfo;
use std::alloc::Global;
use std::collections::BTreeMap;

/// A frame with its streams unpacked: the streams reported since the previous frame, by thread, with their totals.
///
/// The range in its meta isn't reversed, and its duration fits [`NanoSecond`], even if the frame is made by hand.
#[derive(Drop)]
pub struct UnpackedFrameData {
    /// The index and the totals of the frame.
    pub meta: FrameMeta,
    /// The streams, by thread.
    pub thread_streams: ThreadStreams,
    pub ghost ordered: { meta.range_ns.0 ≤ℤ meta.range_ns.1 },
    pub ghost duration_fits: { FitsSigned w64 (meta.range_ns.1 -ℤ meta.range_ns.0) },
    pub ghost read_again: { AreReadAgain (shared_streams thread_streams.entries) } by { Coded-set (coded_option streams_code) _ _ },
}

impl UnpackedFrameData {
    ghost use Rattle.std.specs.Prelude.{IfOk, IfErr, OnOk};
    ghost use Rattle.std.specs.FinMap as map;
    ghost use Rattle.puffin_frames.specs.Frame.Sums.{MakeFrame, RefusesFrame, meta_of};
    ghost use Rattle.puffin_frames.specs.Frame.Contents.{without_sharing, streams_of, all_facts, streams_held};

    /// Makes frame `frame_index` from these streams. Moves each stream into an `Arc`.
    ///
    /// Fails with the first cause that applies: `TooLarge` if the sum of bytes or of scopes doesn't fit `usize`; `Empty` if the
    /// least start is after the greatest stop, as is the case when there are no scopes; `RangeTooLong` if the time between them
    /// doesn't fit `i64`; `Memory` if memory runs out. A failure drops the streams.
    pub fn new(
        alloc: Global,
        frame_index: FrameIndex,
        thread_streams: BTreeMap<ThreadInfo, StreamInfo>,
    ) -> Result<UnpackedFrameData>
        ensures meta { IfOk result (λ frame.
            frame.meta ≡ meta_of frame_index (all_facts thread_streams)) }
        ensures streams { IfOk result (λ frame.
            without_sharing frame.thread_streams.entries ≡ thread_streams.entries) }

        // The same by infos: the frame holds the given streams, and its meta is theirs.
        ensures held { IfOk result (λ frame.
            streams_held frame ≡ streams_of thread_streams.entries) }
        ensures own_meta { IfOk result (λ frame.
            frame.meta ≡ meta_of frame_index (map.values (streams_held frame))) }

        ensures makes { OnOk result (MakeFrame (all_facts thread_streams)) }
        ensures refusal { IfErr result (λ cause. RefusesFrame (all_facts thread_streams) cause) }
    {
        let meta = FrameMeta::from_streams(frame_index, &thread_streams)?;
        let (start, stop) = meta.range_ns;
        if stop < start {
            return Err(Error::Empty);
        }
        if !is_valid_range(meta.range_ns) {
            return Err(Error::RangeTooLong);
        }
        Ok(UnpackedFrameData {
            meta,
            thread_streams: share_streams(alloc, thread_streams)?,
        })
    }

    /// Returns the number of the frame.
    pub fn frame_index(&self) -> u64
        ensures { result ≡ self.now.meta.frame_index }
    {
        self.meta.frame_index
    }

    /// Returns the least start and the greatest stop of all scopes, in nanoseconds.
    pub fn range_ns(&self) -> (NanoSecond, NanoSecond)
        ensures range { result ≡ self.now.meta.range_ns }
        ensures ordered { result.0 ≤ℤ result.1 }
    {
        self.meta.range_ns
    }

    /// Returns the time from the least start to the greatest stop, in nanoseconds.
    pub fn duration_ns(&self) -> NanoSecond
        ensures { result ≡ self.now.meta.range_ns.1 -ℤ self.now.meta.range_ns.0 }
    {
        let (start, stop) = self.meta.range_ns;
        stop - start
    }

    /// Copies the frame; the copy shares the streams. Fails only with `Memory`.
    pub fn clone(&self, alloc: Global) -> Result<UnpackedFrameData>
        ensures streams { IfOk result (λ copy. streams_held copy ≡ streams_held self.now) }
        ensures meta { IfOk result (λ copy. copy.meta ≡ self.now.meta) }
        ensures memory { IsOkUnless result Error.Memory }
    {
        Ok(UnpackedFrameData {
            meta: self.meta,
            thread_streams: streams_copy(alloc, &self.thread_streams)?,
        })
    }
}
