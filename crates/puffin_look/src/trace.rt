//! Writes a file as a trace that other tools draw.

ghost use Rattle.std.specs.Prelude.{◌≡◌, None, codes, IsOkUnless, ◌++◌, ◌+◌, ◌⊎◌, OnOk, IfOk, IfErr};
ghost use Rattle.std.specs.FinMap as map;
ghost use Rattle.puffin_data.specs.declared.error.Error.{Error};
ghost use Rattle.puffin_data.specs.Honesty.{facts_of};
ghost use Rattle.puffin_data.specs.Walk.{IsFault};
ghost use Rattle.puffin_data.specs.Device.{CanFail, TookNothing};
ghost use Rattle.puffin_threads.specs.Thread.ThreadKey.{by_key, key_of};
ghost use Rattle.puffin_look.specs.Printed.{IsPrinted, IsStopped};
ghost use Rattle.puffin_look.specs.Trees.{all_streams};
ghost use Rattle.puffin_look.specs.Wanted.{RefusesUnread};
ghost use Rattle.puffin_look.specs.ThreadLines.{start_text};
ghost use Rattle.puffin_look.specs.Trace.{frame_event, thread_event, number_of, trace_head, IsTrace};
ghost use Rattle.puffin_look.specs.inner.Tracings.{numbers_of, NumbersThread, AddsThread, AddsStream};

use crate::events::Events;
use crate::listing::{Listing, list_behind};
use crate::overview::Overview;
use crate::quoting::{push_member, push_micros, since};
use crate::text::{push_count, push_moment};
use crate::threads::{fails_outside, push_start};
use crate::wanted::Indices;
use puffin_data::data::{Drain, Source, StreamInfo, write_all};
use puffin_data::{FileError, NanoSecond, Result as Answer};
use puffin_frames::frame_data::{FrameMeta, UnpackedFrameData};
use puffin_threads::thread_profiler::ThreadInfo;
use puffin_view::profile_view::read_magic;
use std::alloc::{AllocError, Global};
use std::collections::BTreeMap;

/// What comes before the events.
const TRACE_BEGIN: &[u8] = b"{\"displayTimeUnit\":\"ns\",\"traceEvents\":[\n";

/// The first event, which names the process.
const PROCESS_EVENT: &[u8] =
    b"{\"ph\":\"M\",\"pid\":1,\"name\":\"process_name\",\"args\":{\"name\":\"puffin\"}}";

/// Appends a frame's event.
fn push_frame(text: &mut Vec<u8>, origin: NanoSecond, meta: &FrameMeta) -> Result<(), AllocError>
    ensures { OnOk result (
        text.new.items ≡ text.old.items ++ frame_event origin meta.now) }
{
    let (start, stop) = meta.range_ns;
    push_micros(
        text,
        b",\n{\"ph\":\"i\",\"s\":\"p\",\"pid\":1,\"tid\":0,\"ts\":",
        since(origin, start),
    )?;
    push_count(text, b",\"name\":\"frame ", meta.frame_index)?;
    push_moment(text, b"\",\"args\":{\"start\":\"", start)?;
    push_moment(text, b"\",\"stop\":\"", stop)?;
    text.extend_from_slice(b"\"}}")
}

/// Appends a thread's start behind its label.
fn push_start_member(text: &mut Vec<u8>, thread: &ThreadInfo) -> Result<(), AllocError>
    ensures { OnOk result (text.new.items
        ≡ text.old.items ++ (codes ",\"start\":\"" ++ start_text (key_of thread.now).start)) }
{
    text.extend_from_slice(b",\"start\":\"")?;
    push_start(text, thread)
}

/// Appends the event that names a thread.
fn push_thread_event(text: &mut Vec<u8>, tid: u64, thread: &ThreadInfo) -> Result<(), AllocError>
    ensures { OnOk result (
        text.new.items ≡ text.old.items ++ thread_event tid (key_of thread.now)) }
{
    push_count(text, b",\n{\"ph\":\"M\",\"pid\":1,\"tid\":", tid)?;
    push_member(
        text,
        b",\"name\":\"thread_name\",\"args\":{\"name\":",
        thread.name.as_str(),
    )?;
    push_start_member(text, thread)?;
    text.extend_from_slice(b"\"}}")
}

/// The trace so far.
#[derive(Drop)]
struct Trace<'o> {
    events: Events<'o>,
    /// The numbers of the threads that were met.
    numbers: BTreeMap<ThreadInfo, u64>,
}

impl<'o> Trace<'o> {
    /// Returns the number of a thread, if it was met.
    fn number_under(&self, thread: &ThreadInfo) -> Option<u64>
        ensures { result ≡ map.get (by_key self.now.numbers.entries) (key_of thread.now) }
    {
        self.numbers.get(thread).copied()
    }

    /// Numbers a thread that is met for the first time, and appends its event. Fails only with `Memory`.
    fn add_thread(&mut self, thread: &ThreadInfo) -> Answer<u64>
        requires { map.get (by_key self.old.numbers.entries) (key_of thread.now) ≡ None }
        ensures ok { IfOk result (λ tid.
            (tid ≡ map.len (by_key self.old.numbers.entries) + 1)
            × NumbersThread self.old self.new (key_of thread.now) tid) }
        ensures memory { IsOkUnless result Error.Memory }
    {
        let tid = self.numbers.len() as u64 + 1;
        push_thread_event(&mut self.events.text, tid, thread)?;
        self.numbers.insert(thread.clone()?, tid)?;
        Ok(tid)
    }

    /// Returns the number of a thread. Appends the thread's event if it is met for the first time.
    fn number(&mut self, thread: &ThreadInfo) -> Answer<u64>
        ensures ok { IfOk result (λ tid.
            (tid ≡ number_of (by_key self.old.numbers.entries) (key_of thread.now))
            × AddsThread self.old self.new (key_of thread.now)) }
        ensures memory { IsOkUnless result Error.Memory }
    {
        match self.number_under(thread) {
            Some(tid) => Ok(tid),
            None => self.add_thread(thread),
        }
    }

    /// Appends the events of a thread's stream.
    fn add_stream(&mut self, thread: &ThreadInfo, info: &StreamInfo) -> Answer<()>
        ensures ok { OnOk result (
            AddsStream self.old self.new (key_of thread.now) (facts_of info.now)) }
        ensures err { IfErr result (λ e.
            (e ≡ Error.Memory) ⊎ IsFault (facts_of info.now).form (facts_of info.now).bytes e) }
    {
        self.events.tid = self.number(thread)?;
        self.events.add_stream(info)
    }
}

impl<'o> Listing for Trace<'o> {
    ghost use Rattle.puffin_look.specs.inner.Tracings.{TakesTrace, RefusesFrame, trace_none, trace_more};

    ghost text = { λ v. v.events.text.items };

    ghost takes = { TakesTrace };

    ghost refuses = { RefusesFrame };

    ghost takes_none = { trace_none };

    ghost takes_more = { trace_more };

    fn add(&mut self, frame: &UnpackedFrameData) -> Answer<()> {
        let origin = self.events.overview.start;
        push_frame(&mut self.events.text, origin, &frame.meta)?;
        'streams: for (thread, info) in frame.thread_streams.iter() {
            self.add_stream(thread, info)?;
        }
        Ok(())
    }

    fn pending(&self) -> &[u8] {
        &self.events.text
    }

    fn clear(&mut self) {
        self.events.text.clear();
    }
}

/// Returns the trace of no frames.
fn no_trace(alloc: Global, overview: &Overview) -> Result<Trace<'_>, AllocError>
    ensures text { IfOk result (λ trace. trace.events.text.items ≡ trace_head) }
    ensures none { IfOk result (λ trace. numbers_of trace ≡ map.empty) }
    ensures overview { IfOk result (λ trace. trace.events.overview.now ≡ overview.now) }
{
    let mut text = Vec::new(alloc);
    text.extend_from_slice(TRACE_BEGIN)?;
    text.extend_from_slice(PROCESS_EVENT)?;
    Ok(Trace {
        events: Events {
            text,
            overview,
            tid: 0,
        },
        numbers: BTreeMap::new(alloc),
    })
}

/// Writes the scopes of a file, of the frames with these indices or of all, as a trace in the Trace Event Format, which viewers
/// of traces open: a JSON object with an array of events, one a line, as `docs/FORMAT.md` lists them. Each frame is written as
/// soon as it was read. Names are by the details of the [overview](crate::read_overview), and times count from its start; what is
/// before that is at 0.
///
/// Fails with the first fault of the file, as [`FrameReader::next`](puffin_view::profile_view::FrameReader::next) does, with
/// `Compressed` or `BadStreams` for a frame that can't be unpacked, or with `Refused` for one with a stream whose bytes aren't
/// scopes. The trace of the frames before it is then written, or nothing if the file has no letters. Fails with `Memory`, or with
/// `Io` if a read or a write fails, and then a prefix of the trace of some first frames is written.
pub fn print_trace<S: Source, D: Drain>(
    alloc: Global,
    overview: &Overview,
    source: &mut S,
    drain: &mut D,
    indices: Option<Indices>,
) -> Result<(), FileError>
    requires source { CanFail S.failures source.old }
    requires drain { CanFail D.failures drain.old }
    ensures ok { OnOk result (
        IsPrinted (IsTrace overview.now indices) (S.remaining source.old) (S.remaining source.new)
        (D.contents drain.old) (D.contents drain.new)) }
    ensures err { IfErr result (λ e.
        IsStopped (IsTrace overview.now indices) (RefusesUnread indices all_streams)
        (S.remaining source.old) (S.remaining source.new) (D.contents drain.old)
        (D.contents drain.new) e) }
    // `Io` means that the reader or the writer failed in this call, or that the writer took no bytes.
    ensures io { (result ≡ Err FileError.Io) → (S.failures source.new ≡ S.failures source.old + 1)
        ⊎ ((D.failures drain.new ≡ D.failures drain.old + 1) ⊎ TookNothing D.takes drain.new) }
    ensures failures { OnOk result (
        (S.failures source.new ≡ S.failures source.old)
        × (D.failures drain.new ≡ D.failures drain.old)) }
{
    let mut trace = no_trace(alloc, overview)?;
    read_magic(source)?;
    let answer = list_behind(alloc, source, drain, indices, &mut trace);
    if fails_outside(&answer) {
        return answer;
    }
    write_all(drain, b"\n]}\n")?;
    answer
}
