//! Random files of frames.

use crate::checks::written;
use crate::random::Random;
use crate::streams::forest;
use puffin_data::data::{ScopeId, StreamInfo};
use puffin_data::{Error, Result};
use puffin_frames::frame_data::FrameData;
use puffin_threads::scope_details::ScopeDetails;
use puffin_threads::thread_profiler::ThreadInfo;
use puffin_view::profile_view::FrameView;
use std::alloc::Global;
use std::borrow::CowStr;
use std::collections::BTreeMap;
use std::sync::Arc;

/// The names of threads.
const NAMES: [&str; 3] = ["main", "größe", ""];

/// Makes the info of a thread that may be in random files.
pub(crate) fn thread(alloc: Global, name: &str) -> Result<ThreadInfo> {
    Ok(ThreadInfo {
        start_time_ns: Some(5),
        name: String::from_str(alloc, name)?,
    })
}

/// Makes random streams of up to three threads.
fn streams(alloc: Global, random: &mut Random) -> Result<BTreeMap<ThreadInfo, StreamInfo>> {
    let mut streams = BTreeMap::new(alloc);
    for _ in 0..random.below(4) {
        let name = random.one_of(&NAMES, "main");
        let stream = forest(alloc, random, 12, 5)?;
        let _before = streams.insert(thread(alloc, name)?, StreamInfo::parse(alloc, stream)?)?;
    }
    Ok(streams)
}

/// Makes the details of up to two scopes, some of them without an id.
fn details(alloc: Global, random: &mut Random) -> Result<Vec<Arc<ScopeDetails>>> {
    let mut all = Vec::new(alloc);
    for number in 0..random.below(3) as u32 {
        let id = match ScopeId::new(number + 1) {
            Some(id) if random.below(8) > 0 => Some(id),
            _ => None,
        };
        let named = ScopeDetails::from_scope_name(CowStr::Borrowed("a scope"));
        let details = match id {
            Some(id) => named.with_scope_id(id),
            None => named,
        };
        match Arc::new(alloc, details) {
            Ok(details) => all.push(details)?,
            Err(_) => return Err(Error::Memory),
        }
    }
    Ok(all)
}

/// Makes a random frame.
fn frame(alloc: Global, random: &mut Random, index: u64) -> Result<Arc<FrameData>> {
    let streams = streams(alloc, random)?;
    let details = details(alloc, random)?;
    let frame = FrameData::new(alloc, index, streams, details, random.below(2) == 0)?;
    match Arc::new(alloc, frame) {
        Ok(frame) => Ok(frame),
        Err(_) => Err(Error::Memory),
    }
}

/// Adds random frames to a view. It refuses a frame that has details without an id, and a frame without scopes can't be made.
fn fill(alloc: Global, random: &mut Random, view: &mut FrameView, frames: u64) -> Result<()> {
    for index in 0..frames {
        match frame(alloc, random, index) {
            Ok(frame) => {
                let _taken = view.add_frame(frame);
            }
            Err(Error::Empty) => {}
            Err(cause) => return Err(cause),
        }
    }
    Ok(())
}

/// Makes a random file of at most `frames` frames.
pub(crate) fn file(alloc: Global, random: &mut Random, frames: u64) -> Result<Vec<u8>> {
    let mut view = FrameView::new(alloc);
    fill(alloc, random, &mut view, frames)?;
    match written(alloc, &view) {
        Ok(bytes) => Ok(bytes),
        Err(_) => Err(Error::Memory),
    }
}
