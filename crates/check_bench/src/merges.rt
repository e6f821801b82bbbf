//! Merging the scopes of frames.

use crate::scopes::{TEXT, end};
use crate::timing::{Mode, Work};
use puffin::frame_data::UnpackedFrameData;
use puffin::merge::merge_scopes_for_thread;
use puffin::scope_details::ScopeCollection;
use puffin::thread_profiler::ThreadInfo;
use puffin_data::Result;
use puffin_data::data::{Form, ScopeId, Stream, StreamInfo};
use std::alloc::Global;
use std::collections::BTreeMap;
use std::sync::Arc;

/// How many top-level scopes a frame has.
const TOPS: u32 = 10;

/// A kind of work on frames of one thread, with ten top-level scopes each.
#[derive(Clone, Copy)]
pub struct MergeWork {
    /// The name under which the time is printed.
    pub name: &'static str,
    /// The form of the streams.
    pub form: Form,
    /// How many frames there are.
    pub frames: u32,
    /// How many children each top-level scope has.
    pub children: u32,
    /// Whether the children are in another order in each frame.
    pub shuffled: bool,
    /// How often the work is run.
    pub rounds: u32,
}

impl MergeWork {
    /// Returns the same work, on few scopes if it is counted.
    pub fn sized(self, mode: Mode) -> MergeWork {
        MergeWork {
            frames: mode.pick(2, self.frames),
            children: mode.pick(9, self.children),
            ..self
        }
    }

    /// Makes the stream of one frame, beginning at `start`. The ids of children are `step` apart.
    fn stream(&self, alloc: Global, start: i64, step: u32) -> Result<Stream> {
        let mut stream = Stream::with_form(alloc, self.form);
        let mut now = start;
        for top in 1..=TOPS {
            if let Some(id) = ScopeId::new(top) {
                let offset = stream.begin_scope_at(now, id, TEXT)?;
                now = leaves(&mut stream, self.children, step, now)?;
                end(&mut stream, offset, now)?;
            }
        }
        Ok(stream)
    }

    /// Makes the frame with this index.
    fn frame(&self, alloc: Global, index: u32) -> Result<Arc<UnpackedFrameData>> {
        let step = if self.shuffled { index } else { 0 };
        let start = 10_000_000 * i64::from(index);
        let stream = self.stream(alloc, start, step.wrapping_add(1))?;
        let mut streams = BTreeMap::new(alloc);
        let _before = streams.insert(main_thread(alloc)?, StreamInfo::parse(alloc, stream)?)?;
        let frame = UnpackedFrameData::new(alloc, u64::from(index), streams)?;
        Ok(Arc::new(alloc, frame)?)
    }

    /// Makes all frames.
    fn frames(&self, alloc: Global) -> Result<Vec<Arc<UnpackedFrameData>>> {
        let mut frames = Vec::new(alloc);
        for index in 0..self.frames {
            frames.push(self.frame(alloc, index)?)?;
        }
        Ok(frames)
    }
}

/// Every kind of work: 1,000, 10,000 and 100,000 scopes a frame, 1,000 in the long form, and 10,000 in another order in each
/// frame. Those are a prime number for each top-level scope, so that each child has an id of its own.
pub static MERGE_WORK: [MergeWork; 5] = [
    MergeWork {
        name: "merge_wide",
        form: Form::Short,
        frames: 200,
        children: 99,
        shuffled: false,
        rounds: 40,
    },
    MergeWork {
        name: "merge_wide_10",
        form: Form::Short,
        frames: 200,
        children: 999,
        shuffled: false,
        rounds: 8,
    },
    MergeWork {
        name: "merge_wide_100",
        form: Form::Short,
        frames: 20,
        children: 9_999,
        shuffled: false,
        rounds: 8,
    },
    MergeWork {
        name: "merge_long",
        form: Form::Long,
        frames: 200,
        children: 99,
        shuffled: false,
        rounds: 40,
    },
    MergeWork {
        name: "merge_shuffled",
        form: Form::Short,
        frames: 200,
        children: 997,
        shuffled: true,
        rounds: 8,
    },
];

/// Makes the info of the thread that all frames have.
pub fn main_thread(alloc: Global) -> Result<ThreadInfo> {
    Ok(ThreadInfo {
        start_time_ns: Some(0),
        name: String::from_str(alloc, "main")?,
    })
}

/// Writes scopes one after the other, each with its own id, `step` after the one before, or at the beginning again. Returns the
/// time after them.
fn leaves(stream: &mut Stream, count: u32, step: u32, mut now: i64) -> Result<i64> {
    for number in 0..count {
        let place = number.wrapping_mul(step).checked_rem(count);
        if let Some(id) = ScopeId::new(place.unwrap_or(0).wrapping_add(1)) {
            let offset = stream.begin_scope_at(now, id, TEXT)?;
            now = now.wrapping_add(1);
            end(stream, offset, now)?;
        }
    }
    Ok(now)
}

/// Merges the scopes of frames of one thread.
#[derive(Drop)]
pub struct Merging {
    alloc: Global,
    collection: ScopeCollection,
    frames: Vec<Arc<UnpackedFrameData>>,
    thread: ThreadInfo,
}

impl Merging {
    /// Makes all frames.
    pub fn new(alloc: Global, work: &MergeWork) -> Result<Merging> {
        Ok(Merging {
            alloc,
            collection: ScopeCollection::new(alloc),
            frames: work.frames(alloc)?,
            thread: main_thread(alloc)?,
        })
    }
}

impl Work for Merging {
    /// The units are the scopes that were merged.
    fn run(&mut self) -> anyhow::Result<usize> {
        let mut scopes: usize = 0;
        for top in &merge_scopes_for_thread(
            self.alloc,
            &self.collection,
            &self.frames,
            &self.thread,
        )? {
            scopes = scopes.saturating_add(top.num_pieces);
            for child in &top.children {
                scopes = scopes.saturating_add(child.num_pieces);
            }
        }
        Ok(scopes)
    }
}
