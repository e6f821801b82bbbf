//! The lines that are printed for replies.

ghost use Rattle.std.specs.Prelude.{◌≡◌, IfOk, Some, option_map};
ghost use Rattle.std.specs.String.{string_bytes};
ghost use Rattle.puffin_frames.specs.Frame.Contents.{frame_meta};
ghost use Rattle.puffin_replay.specs.Program.ReplyLines.{frame_text, duration_text, thread_count, taken_line, refused_line, kept_line, reply_line, reply_lines};

use puffin_data::{Error, NanoSecond};
use puffin_frames::frame_data::{FrameData, FrameIndex};
use puffin_session::Reply;
use puffin_threads::thread_profiler::Closed;
use std::alloc::{AllocError, Global};

/// Formats the first half of a frame's line.
fn frame_text(
    alloc: Global,
    index: FrameIndex,
    threads: usize,
    scopes: usize,
) -> Result<String, AllocError>
    ensures { IfOk result (λ text. string_bytes text ≡ frame_text index threads scopes) }
{
    format!(in alloc; "frame {index} threads {threads} scopes {scopes}")
}

/// Formats the second half of a frame's line.
fn duration_text(alloc: Global, bytes: usize, duration: NanoSecond) -> Result<String, AllocError>
    ensures { IfOk result (λ text. string_bytes text ≡ duration_text bytes duration) }
{
    format!(in alloc; " bytes {bytes} duration {duration}\n")
}

/// Returns the number of threads that a frame has streams of.
fn thread_count(frame: &FrameData) -> usize
    ensures { result ≡ thread_count frame.now }
{
    match frame.as_unpacked() {
        Some(unpacked) => unpacked.thread_streams.len(),
        None => 0,
    }
}

/// Formats the line of a frame that was taken.
fn taken_line(alloc: Global, frame: &FrameData) -> Result<String, AllocError>
    ensures { IfOk result (λ line.
        string_bytes line ≡ taken_line (thread_count frame.now) (frame_meta frame.now)) }
{
    let meta = frame.meta();
    let duration = duration_text(alloc, meta.num_bytes, frame.duration_ns())?;
    let mut line = frame_text(
        alloc,
        meta.frame_index,
        thread_count(frame),
        meta.num_scopes,
    )?;
    line.push_str(duration.as_str())?;
    Ok(line)
}

/// Formats the line of a command that was refused.
fn refused_line(alloc: Global, number: u64, cause: Error) -> Result<String, AllocError>
    ensures { IfOk result (λ line. string_bytes line ≡ refused_line number cause) }
{
    format!(in alloc; "refused {number} {cause}\n")
}

/// Formats the line of a report that was refused.
fn kept_line(alloc: Global, number: u64, cause: Error) -> Result<String, AllocError>
    ensures { IfOk result (λ line. string_bytes line ≡ kept_line number cause) }
{
    format!(in alloc; "kept {number} {cause}\n")
}

/// Formats the output for script line `number`, or returns `None` if the reply has none.
pub(crate) fn reply_line(
    alloc: Global,
    number: u64,
    reply: &Reply,
) -> Result<Option<String>, AllocError>
    ensures { IfOk result (λ line. option_map string_bytes line ≡ reply_line number reply.now) }
{
    let line = match reply {
        Reply::Frame(emitted) => match &emitted.frame {
            Some(frame) => taken_line(alloc, frame)?,
            None => String::from_str(alloc, "frame none\n")?,
        },
        Reply::Refused(cause) => refused_line(alloc, number, *cause)?,
        Reply::Ended(Closed::Kept(cause)) => kept_line(alloc, number, *cause)?,
        _ => return Ok(None),
    };
    Ok(Some(line))
}

/// Formats the output for the replies to the commands of these script lines.
pub(crate) fn reply_lines(
    alloc: Global,
    numbers: &[u64],
    replies: &[Reply],
) -> Result<String, AllocError>
    ensures { IfOk result (λ lines. string_bytes lines ≡ reply_lines numbers.now replies.now) }
{
    let mut lines = String::new(alloc);
    for (number, reply) in numbers.iter().zip(replies) {
        if let Some(line) = reply_line(alloc, *number, reply)? {
            lines.push_str(line.as_str())?;
        }
    }
    Ok(lines)
}
