ghost use Rattle.std.specs.Prelude.{◌≡◌, [], ◌+◌, ◌≤◌, ◌<◌, ◌^◌, ◌⊎◌, ◌↔◌, length, IfOk, IfErr, IfSome, IfNone};
ghost use Rattle.std.specs.Int.{int_min, int_max};
ghost use Rattle.puffin_data.specs.declared.error.Error.{Error};
ghost use Rattle.std.specs.Map.{keys_of};
ghost use Rattle.std.specs.List.Sorted.{IsStrictlySortedBy};
ghost use Rattle.puffin_threads.specs.Thread.ThreadKey.{thread_cmp};
ghost use Rattle.puffin_frames.specs.Frame.Contents.{all_facts};
ghost use Rattle.puffin_frames.specs.Frame.Sums.{meta_of, TotalsFit};
ghost use Rattle.puffin_data.specs.Honesty.{facts_of_ref};

use puffin_data::data::{StreamInfo, StreamInfoRef};
use puffin_data::{Error, FrameIndex, NanoSecond, Result};
use puffin_threads::thread_profiler::ThreadInfo;
use std::collections::BTreeMap;

/// The index and the totals of a frame. A `FrameMeta` made by hand may hold any numbers.
#[derive(Clone, Copy, Debug)]
pub struct FrameMeta {
    /// The number of the frame.
    pub frame_index: FrameIndex,
    /// The least start and the greatest stop of all scopes, in nanoseconds.
    pub range_ns: (NanoSecond, NanoSecond),
    /// The size of the unpacked streams, in bytes.
    pub num_bytes: usize,
    /// The number of scopes in the streams.
    pub num_scopes: usize,
}

impl FrameMeta {
    /// Makes the meta of an empty frame: all counts are 0, and the range is `(i64::MAX, i64::MIN)`.
    pub fn empty(frame_index: FrameIndex) -> FrameMeta
        ensures { result ≡ meta_of frame_index [] }
    {
        FrameMeta {
            frame_index,
            range_ns: (NanoSecond::MAX, NanoSecond::MIN),
            num_bytes: 0,
            num_scopes: 0,
        }
    }

    /// Adds one stream to the totals. Returns `None` if a sum doesn't fit `usize`.
    pub fn joined(self, info: &StreamInfoRef) -> Option<FrameMeta>
        ensures frame_index { IfSome result (λ meta. meta.frame_index ≡ self.frame_index) }
        ensures num_bytes { IfSome result (λ meta.
            meta.num_bytes ≡ self.num_bytes + length (facts_of_ref info.now).bytes) }
        ensures num_scopes { IfSome result (λ meta.
            meta.num_scopes ≡ self.num_scopes + info.now.num_scopes) }
        ensures start { IfSome result (λ meta.
            meta.range_ns.0 ≡ int_min self.range_ns.0 info.now.range_ns.0) }
        ensures stop { IfSome result (λ meta.
            meta.range_ns.1 ≡ int_max self.range_ns.1 info.now.range_ns.1) }

        // It is made exactly if both sums fit.
        ensures fit { IfSome result (λ meta.
            (meta.num_bytes < 2 ^ 64) × (meta.num_scopes < 2 ^ 64)) }
        ensures none { IfNone result (
            (2 ^ 64 ≤ self.num_bytes + length (facts_of_ref info.now).bytes)
            ⊎ (2 ^ 64 ≤ self.num_scopes + info.now.num_scopes)) }
    {
        let num_bytes = self.num_bytes.checked_add(info.stream.len())?;
        let num_scopes = self.num_scopes.checked_add(info.num_scopes)?;
        let (start, stop) = self.range_ns;
        Some(FrameMeta {
            frame_index: self.frame_index,
            range_ns: (start.min(info.range_ns.0), stop.max(info.range_ns.1)),
            num_bytes,
            num_scopes,
        })
    }

    /// Makes the meta of a frame with these streams. Allocates nothing. Fails with `TooLarge` if a sum doesn't fit `usize`.
    pub(crate) fn from_streams(
        frame_index: FrameIndex,
        streams: &BTreeMap<ThreadInfo, StreamInfo>,
    ) -> Result<FrameMeta>
        ensures ok { IfOk result (λ meta. meta ≡ meta_of frame_index (all_facts streams.now)) }
        ensures sorted { IsStrictlySortedBy thread_cmp (keys_of streams.now.entries) }
        ensures totals { IfOk result (λ _. TotalsFit (all_facts streams.now)) }
        ensures err { IfErr result (λ cause.
            (cause ≡ Error.TooLarge) × ¬ TotalsFit (all_facts streams.now)) }
    {
        let mut meta = FrameMeta::empty(frame_index);
        for info in streams.values() {
            let Some(more) = meta.joined(&info.as_stream_into_ref()) else {
                return Err(Error::TooLarge);
            };
            meta = more;
        }
        Ok(meta)
    }
}
