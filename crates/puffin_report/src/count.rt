//! Counts a stream, and prints the counts.
ghost use Rattle.std.specs.Prelude.{◌≡◌, ◌+◌, ◌-ℤ◌, List, ℕ, IfOk, IfErr, OnOk, OnErr, MatchResult, ◌⊎◌, IsOkUnless};
ghost use Rattle.std.specs.String.{string_bytes};
ghost use Rattle.puffin_data.specs.Forest.{Forest};
ghost use Rattle.puffin_data.specs.Honesty.{IsHonest};
ghost use Rattle.puffin_data.specs.Device.{CanFail, IsOutside, TookNothing};
ghost use Rattle.puffin_report.specs.Lines.{count_line, measures_line, sums_text, range_text, meta_line, none_line, outcome_line, frame_of_forest, refusal_of};
ghost use Rattle.puffin_report.specs.Count.{ReadsAll, IsCounted, IsCutShort};

use puffin_data::data::{Drain, Source, Stream, StreamInfo, read_to_end, write_all};
use puffin_data::{Error, FileError, NanoSecond};
use puffin_frames::frame_data::{FrameIndex, UnpackedFrameData};
use puffin_threads::thread_profiler::ThreadInfo;
use std::alloc::{AllocError, Global};
use std::collections::BTreeMap;

/// Returns the line of these measures.
fn measures_line(
    alloc: Global,
    scopes: usize,
    depth: usize,
    start: NanoSecond,
    stop: NanoSecond,
) -> Result<String, AllocError>
    ensures { IfOk result (λ line. string_bytes line ≡ measures_line scopes depth start stop) }
{
    format!(in alloc; "scopes {scopes} depth {depth} range {start} {stop}\n")
}

/// Returns the line of the measures of an honest info.
fn line_of(alloc: Global, info: &StreamInfo) -> Result<String, AllocError>
    ensures { IfOk result (λ line.
        (forest : Forest) → IsHonest info.now forest → string_bytes line ≡ count_line forest) }
{
    if info.num_scopes == 0 {
        return String::from_str(alloc, "scopes 0 depth 0 range empty\n");
    }
    let (start, stop) = info.range_ns;
    measures_line(alloc, info.num_scopes, info.depth, start, stop)
}

/// Returns the first half of a frame's line: its index, bytes and scopes.
fn sums_text(
    alloc: Global,
    index: FrameIndex,
    bytes: usize,
    scopes: usize,
) -> Result<String, AllocError>
    ensures { IfOk result (λ text. string_bytes text ≡ sums_text index bytes scopes) }
{
    format!(in alloc; "frame {index} bytes {bytes} scopes {scopes}")
}

/// Returns the second half of a frame's line: its range and duration.
fn range_text(
    alloc: Global,
    start: NanoSecond,
    stop: NanoSecond,
    duration: NanoSecond,
) -> Result<String, AllocError>
    ensures { IfOk result (λ text. string_bytes text ≡ range_text start stop duration) }
{
    format!(in alloc; " range {start} {stop} duration {duration}\n")
}

/// Returns a frame's line.
fn meta_line(alloc: Global, frame: &UnpackedFrameData) -> Result<String, AllocError>
    ensures { IfOk result (λ line. string_bytes line ≡ meta_line frame.now.meta) }
{
    let meta = &frame.meta;
    let (start, stop) = frame.range_ns();
    let range = range_text(alloc, start, stop, frame.duration_ns())?;
    let mut line = sums_text(alloc, meta.frame_index, meta.num_bytes, meta.num_scopes)?;
    line.push_str(range.as_str())?;
    Ok(line)
}

/// Returns the line of a frame that was refused with this cause.
fn none_line(alloc: Global, cause: Error) -> Result<String, AllocError>
    ensures { IfOk result (λ line. string_bytes line ≡ none_line cause) }
{
    format!(in alloc; "frame none {cause}\n")
}

/// Makes frame 0 with an honest info as its one stream.
fn frame_of(alloc: Global, info: StreamInfo) -> Result<UnpackedFrameData, Error>
    ensures { (forest : Forest) → IsHonest info forest →
        MatchResult result
        (λ frame. frame_of_forest info.stream.form forest ≡ Ok frame.meta)
        (λ e. (e ≡ Error.Memory) ⊎ (frame_of_forest info.stream.form forest ≡ Err e)) }
{
    let thread = ThreadInfo {
        start_time_ns: None,
        name: String::from_str(alloc, "stdin")?,
    };
    let mut streams = BTreeMap::new(alloc);
    streams.insert(thread, info)?;
    UnpackedFrameData::new(alloc, 0, streams)
}

/// Returns the line of the frame of an honest info, and the cause if the frame is refused, unless the cause is `Empty`.
fn frame_line(alloc: Global, info: StreamInfo) -> Result<(String, Option<Error>), FileError>
    ensures ok { IfOk result (λ line_and_cause.
        (forest : Forest) → IsHonest info forest →
        (string_bytes line_and_cause.0 ≡ outcome_line (frame_of_forest info.stream.form forest))
        × (line_and_cause.1 ≡ refusal_of (frame_of_forest info.stream.form forest))) }
    ensures err { IsOkUnless result FileError.Memory }
{
    match frame_of(alloc, info) {
        Ok(frame) => Ok((meta_line(alloc, &frame)?, None)),
        Err(Error::Memory) => Err(FileError::Memory),
        Err(Error::Empty) => Ok((none_line(alloc, Error::Empty)?, None)),
        Err(cause) => Ok((none_line(alloc, cause)?, Some(cause))),
    }
}

/// Reads a stream of the short form to its end, and writes two lines, as `docs/FORMAT.md` lists them. The first has the number
/// of scopes in the stream, their depth, and their range in nanoseconds. The second has the number of bytes, the number of
/// scopes, the range and the duration of a frame 0 that has only this stream, from a thread `stdin` without a start; or the
/// cause if there can't be such a frame.
///
/// Returns `None` on success, and also if there is no frame because the stream has no scopes. Returns the cause if the frame is
/// refused for any other reason, with both lines written, or if the bytes aren't scopes, with nothing written.
///
/// Fails with `Memory`, and then writes nothing; or with `Io` if the reader or the writer fails. The lines are made before any
/// of them is written; if the writer fails, a prefix of them may be written. If the call fails, how far it read is
/// unspecified.
///
/// ```
/// let mut input = Counted::new(rt.stdin());
/// let mut output = Counted::new(rt.stdout());
/// let cause = count_stream(alloc, &mut input, &mut output)?;
/// ```
pub fn count_stream<S: Source, D: Drain>(
    alloc: Global,
    source: &mut S,
    drain: &mut D,
) -> Result<Option<Error>, FileError>
    requires source { CanFail S.failures source.old }
    requires drain { CanFail D.failures drain.old }
    ensures counted { IfOk result (λ answer.
        (bytes : List ℕ)
        × ReadsAll (S.remaining source.old) (S.remaining source.new) bytes
        × IsCounted bytes (D.contents drain.old) (D.contents drain.new) answer) }
    ensures fails { IfErr result IsOutside }
    ensures written { OnErr result (
        IsCutShort (S.remaining source.old) (S.remaining source.new) (D.contents drain.old)
        (D.contents drain.new)) }
    // `Io` means that the reader or the writer failed in this call, or that the writer took no bytes.
    ensures io { (result ≡ Err FileError.Io) → (S.failures source.new ≡ S.failures source.old + 1)
        ⊎ ((D.failures drain.new ≡ D.failures drain.old + 1) ⊎ TookNothing D.takes drain.new) }
    ensures failures { OnOk result (
        (S.failures source.new ≡ S.failures source.old)
        × (D.failures drain.new ≡ D.failures drain.old)) }
{
    let bytes = read_to_end(alloc, source)?;
    let info = match StreamInfo::parse(alloc, Stream::from(bytes)) {
        Ok(info) => info,
        Err(Error::Memory) => return Err(FileError::Memory),
        Err(cause) => return Ok(Some(cause)),
    };
    let mut lines = line_of(alloc, &info)?;
    let (frame, refusal) = frame_line(alloc, info)?;
    lines.push_str(frame.as_str())?;
    write_all(drain, lines.as_bytes())?;
    Ok(refusal)
}
