//! Adding frames to full views.

use crate::merges::main_thread;
use crate::scopes::{TEXT, end, nest};
use crate::timing::{Mode, print};
use puffin::frame_data::FrameData;
use puffin::profile_view::FrameView;
use puffin_data::Result;
use puffin_data::data::{ScopeId, Stream, StreamInfo};
use std::alloc::Global;
use std::collections::BTreeMap;
use std::rt::Clock;
use std::sync::Arc;
use std::time::Instant;

/// How many frames are added to a full view.
const FRAMES: u32 = 1_000;
/// How often frames are added to a view.
const ROUNDS: u32 = 10;
/// The limits of a new view: recent frames, and slowest ones.
const USUAL: (u32, u32) = (1_000, 256);
/// Ten times as many.
const LARGE: (u32, u32) = (10_000, 2_560);

/// A kind of work that adds frames to a full view.
#[derive(Clone, Copy)]
pub struct ViewWork {
    /// The name under which the time is printed.
    pub name: &'static str,
    /// How many recent frames the view keeps, and how many of the slowest.
    pub limits: (u32, u32),
    /// Whether the view packs the newest frame.
    pub packs: bool,
    /// Whether each frame takes longer than those before it, and so is among the slowest. Otherwise each is shorter.
    pub rises: bool,
}

impl ViewWork {
    /// Returns the same work, on a small view if it is counted.
    pub fn sized(self, mode: Mode) -> ViewWork {
        ViewWork {
            limits: (mode.pick(20, self.limits.0), mode.pick(5, self.limits.1)),
            ..self
        }
    }

    /// Returns how many nanoseconds more than a microsecond the frame with this index takes.
    fn extra_ns(&self, index: u32) -> u32 {
        if self.rises { index } else { u32::MAX - index }
    }

    /// Makes the scopes of the frame with this index: eight, nested in one more.
    fn info(&self, alloc: Global, index: u32) -> Result<StreamInfo> {
        let start = 1_000_000 * i64::from(index);
        let mut stream = Stream::new(alloc);
        if let Some(id) = ScopeId::new(1) {
            let offset = stream.begin_scope_at(start, id, TEXT)?;
            let _now = nest(&mut stream, id, TEXT, start)?;
            let stop = start + 1_000 + i64::from(self.extra_ns(index));
            end(&mut stream, offset, stop)?;
        }
        StreamInfo::parse(alloc, stream)
    }

    /// Makes the frame with this index, of nine scopes.
    fn frame(&self, alloc: Global, index: u32) -> Result<Arc<FrameData>> {
        let mut streams = BTreeMap::new(alloc);
        let _before = streams.insert(main_thread(alloc)?, self.info(alloc, index)?)?;
        let frame = FrameData::new(alloc, u64::from(index), streams, Vec::new(alloc), false)?;
        Ok(Arc::new(alloc, frame)?)
    }

    /// Returns the index of the first frame that is added to the full view.
    fn first(&self) -> u32 {
        self.limits.0.saturating_add(self.limits.1)
    }

    /// Makes a view, and adds as many frames as it can hold.
    fn full(&self, alloc: Global) -> Result<FrameView> {
        let mut view = FrameView::new(alloc);
        view.set_max_recent(self.limits.0 as usize);
        view.set_max_slow(self.limits.1 as usize);
        view.set_pack_frames(self.packs);
        for index in 0..self.first() {
            view.add_frame(self.frame(alloc, index)?)?;
        }
        Ok(view)
    }

    /// Makes the frames that are added to the full view.
    fn frames(&self, alloc: Global) -> Result<Vec<Arc<FrameData>>> {
        let mut frames = Vec::with_capacity(alloc, FRAMES as usize)?;
        for index in 0..FRAMES {
            frames.push(self.frame(alloc, self.first().saturating_add(index))?)?;
        }
        Ok(frames)
    }
}

/// Every kind of work that adds frames to a full view.
pub static VIEW_WORK: [ViewWork; 8] = [
    ViewWork {
        name: "add_shorter",
        limits: USUAL,
        packs: false,
        rises: false,
    },
    ViewWork {
        name: "add_shorter_10",
        limits: LARGE,
        packs: false,
        rises: false,
    },
    ViewWork {
        name: "add_longer",
        limits: USUAL,
        packs: false,
        rises: true,
    },
    ViewWork {
        name: "add_longer_10",
        limits: LARGE,
        packs: false,
        rises: true,
    },
    ViewWork {
        name: "add_shorter_packed",
        limits: USUAL,
        packs: true,
        rises: false,
    },
    ViewWork {
        name: "add_shorter_packed_10",
        limits: LARGE,
        packs: true,
        rises: false,
    },
    ViewWork {
        name: "add_longer_packed",
        limits: USUAL,
        packs: true,
        rises: true,
    },
    ViewWork {
        name: "add_longer_packed_10",
        limits: LARGE,
        packs: true,
        rises: true,
    },
];

/// Adds frames to a view, and returns how many.
#[inline(never)]
fn added(view: &mut FrameView, frames: Vec<Arc<FrameData>>) -> Result<usize> {
    let count = frames.len();
    for frame in frames {
        view.add_frame(frame)?;
    }
    Ok(count)
}

/// Adds frames to a view. Returns the nanoseconds that this takes, and the number of frames.
fn timed(
    rt: &impl Clock,
    view: &mut FrameView,
    frames: Vec<Arc<FrameData>>,
) -> anyhow::Result<(u128, usize)> {
    let begun = Instant::now(rt)?;
    let count = added(view, frames)?;
    Ok((begun.elapsed(rt)?.as_nanos(), count))
}

/// Fills a view, and adds frames to it. Returns the nanoseconds that this takes, and the number of frames.
fn round<R: AllocGlobal + Clock>(rt: &R, work: &ViewWork) -> anyhow::Result<(u128, usize)> {
    let mut view = work.full(rt.alloc())?;
    timed(rt, &mut view, work.frames(rt.alloc())?)
}

/// Counts or times frames that are added to a full view; the unit is a frame.
pub fn run_view<R: AllocGlobal + Clock + Print>(
    rt: &R,
    mode: Mode,
    work: &ViewWork,
) -> anyhow::Result<()> {
    let mut best = u128::MAX;
    let mut count = 0;
    for _ in 0..mode.pick(1, ROUNDS) {
        let (time, added) = round(rt, work)?;
        best = best.min(time);
        count = added;
    }
    print(rt, mode, work.name, best, count)
}
