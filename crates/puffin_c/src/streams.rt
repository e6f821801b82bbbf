//! Lists the streams of a frame in a file, by thread.

ghost use Rattle.std.specs.Prelude.{◌≡◌, ◌⊎◌, ◌++◌, ◌∷◌, [], Some, Ok, Err, OnOk, OnErr, IfOk, IfErr, length};
ghost use Rattle.std.specs.FinMap as map;
ghost use Rattle.puffin_data.specs.declared.error.Error.TheVariants as error;
ghost use Rattle.puffin_data.specs.declared.file_error.FileError.{FileError};
ghost use Rattle.puffin_data.specs.declared.file_error.FileError.TheVariants as file_error;
ghost use Rattle.puffin_data.specs.Honesty.{facts_of};
ghost use Rattle.puffin_threads.specs.Thread.ThreadKey.{key_of};
ghost use Rattle.puffin_frames.specs.Frame.Contents.{packet_fields, streams_held, streams_in_fields};
ghost use Rattle.puffin_c.specs.declared.fault.Fault.TheVariants as fault;
ghost use Rattle.puffin_c.specs.Faults.{Returns, file_fault};
ghost use Rattle.puffin_c.specs.Lists.{stream_row, stream_bytes, stream_rows, streams_bytes, IsFrom, IsFrameAt, LacksFrame, TellsStreams, ListsStreams};

use crate::fault::{Fault, answer_code};
use crate::frame::PuffinFrame;
use crate::lists::give;
use crate::memory_source::MemorySource;
use puffin_data::data::{Form, StreamInfo};
use puffin_data::{Error, FileError};
use puffin_frames::frame_data::{FrameData, UnpackedFrameData};
use puffin_threads::thread_profiler::ThreadInfo;
use puffin_view::profile_view::{next_frame, read_magic};
use std::alloc::{AllocError, Global};

/// A thread's scopes in a frame.
#[repr(C)]
#[derive(Clone, Copy)]
pub struct PuffinStream {
    /// When the thread's first scope began, in nanoseconds; 0 if that isn't known.
    pub start_ns: i64,
    /// The number of scopes.
    pub scopes: u64,
    /// The greatest nesting depth.
    pub depth: u64,
    /// Where the thread's name begins in the bytes of all streams.
    pub name_at: u64,
    /// The size of the name in bytes.
    pub name_size: u64,
    /// Where the stream begins in the bytes of all streams.
    pub stream_at: u64,
    /// The size of the stream in bytes.
    pub stream_size: u64,
    /// Whether it is known when the thread's first scope began.
    pub has_start: bool,
    /// Whether the stream has long texts.
    pub long_texts: bool,
}

/// Where a program gets a frame of a file, with its streams.
#[repr(C)]
pub struct PuffinStreamList<'a> {
    /// The streams, as many as there is room for.
    pub rows: &'a mut [PuffinStream],
    /// The bytes of names and streams, as many as there is room for.
    pub bytes: &'a mut [u8],
    /// The number of streams.
    pub num_rows: u64,
    /// The number of bytes of all names and streams.
    pub num_bytes: u64,
    /// The offset at which the frame ends.
    pub next: u64,
    /// Describes the frame.
    pub frame: PuffinFrame,
}

/// The streams of a frame so far, and their bytes: for each the name of its thread, and then its own.
#[derive(Drop)]
struct StreamList {
    rows: Vec<PuffinStream>,
    bytes: Vec<u8>,
}

impl StreamList {
    /// Appends a thread's stream.
    fn push(&mut self, thread: &ThreadInfo, info: &StreamInfo) -> Result<(), AllocError>
        ensures rows { OnOk result (self.new.rows.items
            ≡ self.old.rows.items
            ++ stream_row (length self.old.bytes.items) (key_of thread.now, facts_of info.now)
            ∷ []) }
        ensures bytes { OnOk result (self.new.bytes.items
            ≡ self.old.bytes.items ++ stream_bytes (key_of thread.now, facts_of info.now)) }
    {
        let name_at = self.bytes.len() as u64;
        let name = thread.name.as_bytes();
        let stream = info.stream.bytes();
        self.bytes.extend_from_slice(name)?;
        let stream_at = self.bytes.len() as u64;
        self.bytes.extend_from_slice(stream)?;
        self.rows.push(PuffinStream {
            start_ns: thread.start_time_ns.unwrap_or(0),
            scopes: info.num_scopes as u64,
            depth: info.depth as u64,
            name_at,
            name_size: name.len() as u64,
            stream_at,
            stream_size: stream.len() as u64,
            has_start: thread.start_time_ns.is_some(),
            long_texts: info.stream.form() == Form::Long,
        })?;
        Ok(())
    }
}

/// Lists the streams of a frame.
fn list_of(alloc: Global, frame: &UnpackedFrameData) -> Result<StreamList, AllocError>
    ensures rows { IfOk result (λ list.
        list.rows.items ≡ stream_rows 0 (map.entries (streams_held frame.now))) }
    ensures bytes { IfOk result (λ list.
        list.bytes.items ≡ streams_bytes (map.entries (streams_held frame.now))) }
{
    let mut list = StreamList {
        rows: Vec::new(alloc),
        bytes: Vec::new(alloc),
    };
    'streams: for (thread, info) in frame.thread_streams.iter() {
        list.push(thread, info)?;
    }
    Ok(list)
}

/// Returns a source that is at an offset of a file, or after its four letters if the offset is 0. Fails with `InvalidOffset` if
/// the offset is past the file's end, and with `NoMagic`.
fn source_at(file: &[u8], offset: u64) -> Result<MemorySource<'_>, Fault>
    ensures ok { IfOk result (λ source. IsFrom file.now offset source.unread.now) }
    ensures err { IfErr result (LacksFrame file.now offset) }
{
    if offset > file.len() as u64 {
        return Err(Fault::Refused(Error::InvalidOffset));
    }
    let mut source = MemorySource::new(&file[offset as usize..]);
    if offset == 0 {
        read_magic(&mut source)?;
    }
    Ok(source)
}

/// Reads the frame at an offset of a file, and sets `next` to where it ends. Returns `None` at the file's end.
fn read_frame(
    alloc: Global,
    file: &[u8],
    offset: u64,
    next: &mut u64,
) -> Result<Option<FrameData>, Fault>
    ensures ok { IfOk result (IsFrameAt file.now offset next.new) }
    ensures err { IfErr result (LacksFrame file.now offset) }
    ensures unchanged { OnErr result (next.new ≡ next.old) }
{
    let mut source = source_at(file, offset)?;
    let frame = next_frame(alloc, &mut source)?;
    *next = source.offset_in(file);
    Ok(frame)
}

/// Describes a frame, and lists its streams. Fails with `Compressed` or `BadStreams` if they can't be unpacked, and with `Memory`.
#[tactic(auto, using(puffin_view::proofs::lemmas::FrameStreams::not_decided))]
fn describe(alloc: Global, frame: FrameData, list: &mut PuffinStreamList<'_>) -> Result<(), Fault>
    ensures ok { OnOk result (TellsStreams (Some frame) list.old list.new) }
    ensures err { IfErr result (λ f.
        (f ≡ fault.Refused error.Memory)
        ⊎ ((e : FileError) × (streams_in_fields (packet_fields frame) ≡ Err e)
        × (f ≡ file_fault e))) }
    ensures unchanged { OnErr result (list.new ≡ list.old) }
{
    let mut frame = frame;
    let data = frame.unpacked()?;
    let made = list_of(alloc, &data)?;
    (list.num_rows, list.num_bytes) = give(&made.rows, &made.bytes, list.rows, list.bytes);
    list.frame = PuffinFrame::of(*frame.meta());
    Ok(())
}

/// Reads the frame at an offset, describes it, and lists its streams. At the file's end it tells that there is none.
fn list_streams(
    alloc: Global,
    file: &[u8],
    offset: u64,
    list: &mut PuffinStreamList<'_>,
) -> Result<(), Fault>
    ensures { ListsStreams file.now offset list.old list.new result }
{
    let mut end = 0;
    match read_frame(alloc, file, offset, &mut end)? {
        Some(data) => {
            describe(alloc, data, list)?;
            list.next = end;
            Ok(())
        }
        None => {
            list.frame.is_some = false;
            (list.num_rows, list.num_bytes, list.next) = (0, 0, end);
            Ok(())
        }
    }
}

/// Reads the frame at an offset of a file of any origin, fills in `list.frame`, and sets `list.next` to the offset at which the frame
/// ends and the next one begins. The first frame is at offset 0. Lists the frame's streams by thread, ordered by start and name,
/// and the name of each thread, followed by its stream: copies as many streams and bytes as fit to the front of those of `list`,
/// and sets its numbers to how many there are. At the file's end it sets `list.frame.is_some` to `false`, and the numbers to 0.
///
/// Fails with `InvalidOffset` if `offset` is greater than the file's length; with the frame's fault; with `Compressed` or
/// `BadStreams` if its streams can't be unpacked; or with `Memory`. Nothing changes then.
#[tactic(auto, using(crate::proofs::Causes::streams_named))]
#[unsafe(no_mangle)]
pub extern "C" fn puffin_frame_streams(
    alloc: Global,
    file: &[u8],
    offset: u64,
    list: &mut PuffinStreamList<'_>,
) -> u32
    ensures { Returns result (ListsStreams file.now offset list.old list.new) }
{
    let answer = list_streams(alloc, file, offset, list);
    answer_code(answer)
}
