//! Lists the threads of a file.

ghost use Rattle.std.specs.Prelude.{◌≡◌, ◌⊎◌, ◌++◌, ◌∷◌, [], Ok, Err, OnOk, IfOk, IfErr, IsOkUnless, unwrap_or, length};
ghost use Rattle.std.specs.FinMap as map;
ghost use Rattle.puffin_data.specs.declared.error.Error.TheVariants as error;
ghost use Rattle.puffin_data.specs.declared.file_error.FileError.{FileError};
ghost use Rattle.puffin_data.specs.Honesty.{facts_of};
ghost use Rattle.puffin_threads.specs.Thread.ThreadKey.{by_key, key_of};
ghost use Rattle.puffin_frames.specs.Frame.Contents.{packet_fields, streams_held, streams_in_fields};
ghost use Rattle.puffin_frames.specs.Frame.Streams.{Streams};
ghost use Rattle.puffin_c.specs.declared.fault.Fault.TheVariants as fault;
ghost use Rattle.puffin_c.specs.Faults.{Returns, file_fault};
ghost use Rattle.puffin_c.specs.Threads.{no_totals, totals_with, with_stream, with_frame, thread_row, thread_rows, thread_names, HasTotals, LacksTotals, ListsThreads};

use crate::fault::{Fault, answer_code};
use crate::lists::give;
use crate::memory_source::MemorySource;
use puffin_data::data::StreamInfo;
use puffin_data::{Error, FileError, Result as Answer};
use puffin_frames::frame_data::{FrameData, UnpackedFrameData};
use puffin_threads::thread_profiler::ThreadInfo;
use puffin_view::profile_view::{next_frame, read_magic};
use std::alloc::{AllocError, Global};
use std::collections::BTreeMap;

/// What the frames of a file have of one thread. A sum that doesn't fit is the greatest number.
#[repr(C)]
#[derive(Clone, Copy)]
pub struct PuffinFileThread {
    /// When the thread's first scope began, in nanoseconds; 0 if that isn't known.
    pub start_ns: i64,
    /// The number of frames that the thread has a stream in.
    pub frames: u64,
    /// The number of scopes in all frames.
    pub scopes: u64,
    /// Where the thread's name begins in the bytes of all names.
    pub name_at: u64,
    /// The size of the name in bytes.
    pub name_size: u64,
    /// Whether it is known when the thread's first scope began.
    pub has_start: bool,
}

/// Where a program gets the threads of a file.
#[repr(C)]
pub struct PuffinFileThreadList<'a> {
    /// The threads, as many as there is room for.
    pub rows: &'a mut [PuffinFileThread],
    /// The bytes of their names, as many as there is room for.
    pub bytes: &'a mut [u8],
    /// The number of threads.
    pub num_rows: u64,
    /// The number of bytes of all names.
    pub num_bytes: u64,
}

/// The numbers of a thread's frames and scopes.
#[derive(Clone, Copy)]
pub struct ThreadTotals {
    /// The number of frames that the thread has a stream in.
    pub frames: u64,
    /// The number of scopes in all frames.
    pub scopes: u64,
}

impl ThreadTotals {
    /// Returns the totals of a thread without frames.
    fn none() -> ThreadTotals
        ensures { result ≡ no_totals }
    {
        ThreadTotals {
            frames: 0,
            scopes: 0,
        }
    }

    /// Adds the stream of one more frame.
    fn with(self, info: &StreamInfo) -> ThreadTotals
        ensures { result ≡ totals_with self (facts_of info.now) }
    {
        ThreadTotals {
            frames: self.frames.saturating_add(1),
            scopes: self.scopes.saturating_add(info.num_scopes as u64),
        }
    }
}

/// The totals of all threads.
#[derive(Drop)]
struct Threads {
    totals: BTreeMap<ThreadInfo, ThreadTotals>,
}

impl Threads {
    /// Returns the totals of a thread so far.
    fn totals_under(&self, thread: &ThreadInfo) -> ThreadTotals
        ensures { result ≡ unwrap_or
            (map.get (by_key self.now.totals.entries) (key_of thread.now)) no_totals }
    {
        match self.totals.get(thread) {
            Some(totals) => *totals,
            None => ThreadTotals::none(),
        }
    }

    /// Adds a thread's stream of one more frame. Fails only with `Memory`.
    fn add_stream(&mut self, thread: &ThreadInfo, info: &StreamInfo) -> Answer<()>
        ensures ok { OnOk result (
            by_key self.new.totals.entries
            ≡ with_stream (by_key self.old.totals.entries) (key_of thread.now, facts_of info.now)) }
        ensures memory { IsOkUnless result error.Memory }
    {
        let totals = self.totals_under(thread).with(info);
        self.totals.insert(thread.clone()?, totals)?;
        Ok(())
    }

    /// Adds all streams of a frame. Fails only with `Memory`.
    fn add(&mut self, frame: &UnpackedFrameData) -> Answer<()>
        ensures ok { OnOk result (
            by_key self.new.totals.entries
            ≡ with_frame (by_key self.old.totals.entries) (streams_held frame.now)) }
        ensures memory { IsOkUnless result error.Memory }
    {
        'streams: for (thread, info) in frame.thread_streams.iter() {
            self.add_stream(thread, info)?;
        }
        Ok(())
    }

    /// Adds a frame that was read. Fails with `Compressed` or `BadStreams` if it can't be unpacked, and with `Memory`.
    #[tactic(auto, using(puffin_view::proofs::lemmas::FrameStreams::not_decided))]
    fn add_packed(&mut self, frame: FrameData) -> Result<(), Fault>
        ensures ok { OnOk result (
            (streams : Streams) × (streams_in_fields (packet_fields frame) ≡ Ok streams)
            × (by_key self.new.totals.entries
            ≡ with_frame (by_key self.old.totals.entries) streams)) }
        ensures err { IfErr result (λ f.
            (f ≡ fault.Refused error.Memory)
            ⊎ ((e : FileError) × (streams_in_fields (packet_fields frame) ≡ Err e)
            × (f ≡ file_fault e))) }
    {
        let mut frame = frame;
        let data = frame.unpacked()?;
        self.add(&data)?;
        Ok(())
    }
}

/// Reads a file, and returns the totals of its threads.
fn totals_in(alloc: Global, file: &[u8]) -> Result<Threads, Fault>
    ensures ok { IfOk result (λ threads. HasTotals file.now (by_key threads.totals.entries)) }
    ensures err { IfErr result (LacksTotals file.now) }
{
    let mut threads = Threads {
        totals: BTreeMap::new(alloc),
    };
    let mut source = MemorySource::new(file);
    read_magic(&mut source)?;
    'frames: for _ in 0..u64::MAX {
        let Some(frame) = next_frame(alloc, &mut source)? else {
            return Ok(threads);
        };
        threads.add_packed(frame)?;
    }
    // Not reached: a file has fewer frames than bytes.
    Err(Fault::from(FileError::Truncated))
}

/// The threads so far, and their names.
#[derive(Drop)]
struct ThreadList {
    rows: Vec<PuffinFileThread>,
    names: Vec<u8>,
}

impl ThreadList {
    /// Appends a thread.
    fn push(&mut self, thread: &ThreadInfo, totals: &ThreadTotals) -> Result<(), AllocError>
        ensures rows { OnOk result (self.new.rows.items
            ≡ self.old.rows.items
            ++ thread_row (length self.old.names.items) (key_of thread.now, totals.now)
            ∷ []) }
        ensures names { OnOk result (
            self.new.names.items ≡ self.old.names.items ++ (key_of thread.now).name) }
    {
        let name_at = self.names.len() as u64;
        let name = thread.name.as_bytes();
        self.names.extend_from_slice(name)?;
        self.rows.push(PuffinFileThread {
            start_ns: thread.start_time_ns.unwrap_or(0),
            frames: totals.frames,
            scopes: totals.scopes,
            name_at,
            name_size: name.len() as u64,
            has_start: thread.start_time_ns.is_some(),
        })?;
        Ok(())
    }
}

/// Lists all threads.
fn list_of(alloc: Global, threads: &Threads) -> Result<ThreadList, AllocError>
    ensures rows { IfOk result (λ list.
        list.rows.items ≡ thread_rows 0 (map.entries (by_key threads.now.totals.entries))) }
    ensures names { IfOk result (λ list.
        list.names.items ≡ thread_names (map.entries (by_key threads.now.totals.entries))) }
{
    let mut list = ThreadList {
        rows: Vec::new(alloc),
        names: Vec::new(alloc),
    };
    'threads: for (thread, totals) in threads.totals.iter() {
        list.push(thread, totals)?;
    }
    Ok(list)
}

/// Lists the threads of a file.
fn list_threads(
    alloc: Global,
    file: &[u8],
    list: &mut PuffinFileThreadList<'_>,
) -> Result<(), Fault>
    ensures { ListsThreads file.now list.old list.new result }
{
    let totals = totals_in(alloc, file)?;
    let made = list_of(alloc, &totals)?;
    (list.num_rows, list.num_bytes) = give(&made.rows, &made.names, list.rows, list.bytes);
    Ok(())
}

/// Lists the threads of a file of any origin, ordered by start and name, with how many frames and scopes each has, and their names,
/// one behind the other. Copies as many threads and bytes of names as fit to the front of those of `list`, and sets its numbers to
/// how many there are.
///
/// Fails with the first fault in the file; with `Compressed` or `BadStreams` if the streams of a frame can't be unpacked; or with
/// `Memory`. Nothing changes then.
#[tactic(auto, using(crate::proofs::Causes::threads_named))]
#[unsafe(no_mangle)]
pub extern "C" fn puffin_file_threads(
    alloc: Global,
    file: &[u8],
    list: &mut PuffinFileThreadList<'_>,
) -> u32
    ensures { Returns result (ListsThreads file.now list.old list.new) }
{
    let answer = list_threads(alloc, file, list);
    answer_code(answer)
}
