//! Frames that are packed, written, read and unpacked.

use crate::again;
use crate::refusal::only;
use puffin_data::FileError;
use puffin_data::data::{Buffered, Counted, ScopeId, Stream, StreamInfo};
use puffin_frames::frame_data::FrameData;
use puffin_threads::scope_details::ScopeDetails;
use puffin_threads::thread_profiler::ThreadInfo;
use std::alloc::Global;
use std::borrow::CowStr;
use std::collections::BTreeMap;
use std::sync::Arc;

/// Writes one scope within another.
fn nest(stream: &mut Stream, id: ScopeId, start: i64, stop: i64) -> puffin_data::Result<()> {
    let outer = stream.begin_scope_at(start, id, "outer")?;
    let inner = stream.begin_scope_at(start, id, "")?;
    stream.end_scope(inner, start)?;
    stream.end_scope(outer, stop)
}

/// Makes the stream of one scope within another, with one allocation.
fn stream(alloc: Global, start: i64, length: u32) -> Option<Stream> {
    let id = ScopeId::new(7)?;
    let mut stream = Stream::new(alloc);
    again!(stream.reserve(100))?;
    nest(
        &mut stream,
        id,
        start,
        start.saturating_add(i64::from(length)),
    )
    .ok()?;
    Some(stream)
}

/// Makes the info of a thread.
pub(crate) fn thread(alloc: Global, start: i64, name: &str) -> Option<ThreadInfo> {
    Some(ThreadInfo {
        start_time_ns: Some(start),
        name: again!(String::from_str(alloc, name))?,
    })
}

/// Makes the details of one scope.
fn details(alloc: Global) -> Option<Vec<Arc<ScopeDetails>>> {
    let name = again!(String::from_str(alloc, "named"))?;
    let details = ScopeDetails::from_scope_name(CowStr::Owned(name))
        .with_line_nr(7)
        .with_scope_id(ScopeId::new(3)?);
    only(alloc, Arc::new(alloc, details).ok()?)
}

/// Makes the streams of two threads, of this length.
fn streams(alloc: Global, length: u32) -> Option<BTreeMap<ThreadInfo, StreamInfo>> {
    let mut streams = BTreeMap::new(alloc);
    for (name, start) in &[("main", 100), ("other", 150)] {
        let info = StreamInfo::parse(alloc, stream(alloc, *start, length)?).ok()?;
        streams.insert(thread(alloc, *start, name)?, info).ok()?;
    }
    Some(streams)
}

/// Tries once to make a frame.
fn frame_once(alloc: Global, index: u64, length: u32) -> Option<FrameData> {
    let streams = streams(alloc, length)?;
    FrameData::new(alloc, index, streams, details(alloc)?, false).ok()
}

/// Makes a frame of two threads with this index and length, which lists one scope.
pub(crate) fn frame(alloc: Global, index: u64, length: u32) -> Option<FrameData> {
    match frame_once(alloc, index, length) {
        Some(made) => Some(made),
        None => frame_once(alloc, index, length),
    }
}

/// Returns the packet of a frame.
fn packet(alloc: Global, frame: &FrameData) -> Result<Vec<u8>, FileError> {
    let mut bytes = Vec::new(alloc);
    let mut drain = Counted::new(&mut bytes);
    frame.write_into(None, &mut drain)?;
    Ok(bytes)
}

/// Reads the first frame of some bytes.
fn read(alloc: Global, bytes: &[u8]) -> Result<Option<FrameData>, FileError> {
    let mut source = Buffered::new(bytes);
    FrameData::read_next(alloc, &mut source)
}

/// Writes a frame, and prints the number of its bytes and a sum over them. Returns the bytes.
fn write(rt: &HostRuntime, held: &str, frame: &FrameData) -> Option<Vec<u8>> {
    let bytes = again!(packet(rt.alloc(), frame))?;
    let mut sum: u64 = 0;
    for byte in &bytes {
        sum = sum.wrapping_mul(31).wrapping_add(u64::from(*byte));
    }
    let len = bytes.len();
    println!(rt; "{held} bytes {len} sum {sum}").ok()?;
    Some(bytes)
}

/// Writes a frame, and drops the bytes.
fn show(rt: &HostRuntime, held: &str, frame: &FrameData) -> Option<()> {
    let _bytes = write(rt, held, frame)?;
    Some(())
}

/// Writes a copy of a frame.
fn copy(rt: &HostRuntime, made: &FrameData) -> Option<()> {
    let copy = again!(made.clone())?;
    show(rt, "copy", &copy)
}

/// Writes a packed copy of a frame.
fn packed_copy(rt: &HostRuntime, made: &FrameData) -> Option<()> {
    let copy = again!(made.packed_copy())?;
    show(rt, "packed copy", &copy)
}

/// Writes a frame that is held unpacked, and copies of it; then packs and writes it. Returns the last bytes.
fn packed(rt: &HostRuntime, made: &mut FrameData) -> Option<Vec<u8>> {
    show(rt, "unpacked", made)?;
    copy(rt, made)?;
    packed_copy(rt, made)?;
    again!(made.pack())?;
    write(rt, "packed", made)
}

/// Writes a frame that was read: held packed, and then held both ways.
fn both_ways(rt: &HostRuntime, made: &mut FrameData) -> Option<()> {
    show(rt, "read", made)?;
    let threads = again!(made.unpacked())?.thread_streams.len();
    show(rt, "both ways", made)?;
    println!(rt; "threads {threads}").ok()
}

/// Writes a frame that is held unpacked and then packed. Returns the last bytes.
fn written(rt: &HostRuntime) -> Option<Vec<u8>> {
    let mut made = frame(rt.alloc(), 4, 0)?;
    packed(rt, &mut made)
}

/// Writes a frame in each state in which it may be held.
pub(crate) fn run(rt: &HostRuntime) -> Option<()> {
    let bytes = written(rt)?;
    let mut made = again!(read(rt.alloc(), &bytes))??;
    both_ways(rt, &mut made)
}
