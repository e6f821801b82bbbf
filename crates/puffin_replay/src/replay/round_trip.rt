//! Recording into memory, and reading the recording back: the whole promise in one contract.

ghost use Rattle.std.specs.Prelude.{◌≡◌, ◌⊎◌, true, map, option_map, Some, IfOk, IfErr};
ghost use Rattle.std.specs.List.{Any, list_any};
ghost use Rattle.std.specs.String.{string_bytes};
ghost use Rattle.puffin_data.specs.declared.error.Error.{Error};
ghost use Rattle.puffin_data.specs.declared.file_error.FileError.{FileError};
ghost use Rattle.puffin_frames.specs.Packet.Writing.{HasLongPart};
ghost use Rattle.puffin_view.specs.View.{View, empty_view};
ghost use Rattle.puffin_view.specs.View.Known.{view_of, lacks_ids};
ghost use Rattle.puffin_view.specs.View.File.{fields_in};
ghost use Rattle.puffin_replay.specs.Promise.{IsReadOf, KeepsRun, KeepsPromise, IsUnread, IsUnreadAnew};
ghost use Rattle.puffin_replay.specs.inner.InMemory.{IsFileOf, IsReadFault};

use crate::replay::recording::{Unread, run_into};
use puffin_data::FileError;
use puffin_data::data::{Buffered, Counted, Form};
use puffin_session::{Command, Reply, Session};
use puffin_view::profile_view::FrameView;
use std::alloc::Global;

/// Which frames a view keeps, and whether it packs them.
#[derive(Clone, Copy, Debug, PartialEq, Eq)]
pub struct Limits {
    /// The number of recent frames kept.
    pub max_recent: usize,
    /// The number of slowest frames kept.
    pub max_slow: usize,
    /// Whether the newest frame is packed before another is added.
    pub packs: bool,
}

/// A recording that was read back.
#[derive(Drop)]
pub struct Recording {
    /// The reply to each command, in order.
    pub replies: Vec<Reply>,
    /// The view read from the file.
    pub view: FrameView,
}

/// Converts the error of a call that reads or writes memory: `Io` becomes `Memory`.
fn in_memory(fault: FileError) -> FileError
    ensures io { fault ≡ FileError.Io → result ≡ FileError.Memory }
    ensures other { (fault ≡ FileError.Io → ⊥) → result ≡ fault }
{
    match fault {
        FileError::Io => FileError::Memory,
        fault => fault,
    }
}

/// Makes an empty view with these limits.
fn limited_view(alloc: Global, limits: Limits) -> FrameView
    ensures frames { view_of result ≡ record empty_view {
      max_recent = limits.max_recent;
      max_slow = limits.max_slow;
      packs = limits.packs;
    } }
{
    let mut view = FrameView::new(alloc);
    view.set_max_recent(limits.max_recent);
    view.set_max_slow(limits.max_slow);
    view.set_pack_frames(limits.packs);
    view
}

/// Reads the file of a view. Fails with `Memory`, or with `Refused(MissingId)` if details have no id.
fn read_file(alloc: Global, bytes: &[u8]) -> Result<FrameView, FileError>
    ensures ok { IfOk result (λ read.
        (view : View) → IsFileOf bytes.now view → IsReadOf (fields_in view) read) }
    ensures fault { IfErr result (λ e.
        (view : View) → IsFileOf bytes.now view → IsReadFault (fields_in view) e) }
{
    match FrameView::read(alloc, &mut Buffered::new(bytes)) {
        Ok(view) => Ok(view),
        Err(fault) => Err(in_memory(fault)),
    }
}

/// Writes the file of a view into memory, and reads it into another view.
fn written_and_read(alloc: Global, view: &FrameView) -> Result<FrameView, FileError>
    ensures ok { IfOk result (λ read. IsReadOf (fields_in (view_of view.now)) read) }
    ensures fault { IfErr result (λ e.
        IsReadFault (fields_in (view_of view.now)) e
        ⊎ ((e ≡ FileError.PartTooLong) × Any HasLongPart (fields_in (view_of view.now)))) }
{
    let mut file = Counted::new(Vec::new(alloc));
    match view.write(&mut file) {
        Ok(()) => read_file(alloc, file.into_inner().as_slice()),
        Err(fault) => Err(in_memory(fault)),
    }
}

/// Runs commands in a session, adds each emitted frame to a view, in order, writes the view's file into memory, and reads that
/// into another view. Returns one reply for each command, and the view that was read.
///
/// The session may have done anything before, and the view may have taken any frames. Each emitted frame has, under each
/// thread's start and name, exactly the scopes reported there since the previous emitted frame, whether that is from this call
/// or an earlier one. The view that was read has exactly the frames that the first view has afterwards, and the details that
/// they list. It keeps up to `usize::MAX` recent frames and 256 slow ones, like any view from [`FrameView::read`].
///
/// Fails with `Memory`, with `PartTooLong` if a part of a packet has `2^32` bytes or more, and with `Refused(MissingId)` if
/// details of a frame that the view held before have no id. The error has the replies if the commands were run.
///
/// ```
/// let recorded = record_session_and_read(alloc, &mut session, &commands, &mut view);
/// let recording = recorded.map_err(|unread| unread.fault)?;
/// ```
pub fn record_session_and_read(
    alloc: Global,
    session: &mut Session,
    commands: &[Command],
    view: &mut FrameView,
) -> Result<Recording, Unread>
    ensures promise { IfOk result (λ recording.
        KeepsRun session.old session.new commands.now view.old view.new recording.replies.items
        recording.view) }
    ensures refusal { IfErr result (λ e.
        IsUnread session.old session.new commands.now view.old view.new e.fault
        (option_map (λ rs. rs.items) e.replies)) }
{
    let replies = run_into(session, commands, view)?;
    match written_and_read(alloc, view) {
        Ok(view) => Ok(Recording { replies, view }),
        Err(fault) => Err(Unread {
            fault,
            replies: Some(replies),
        }),
    }
}

/// Calls [`record_session_and_read`] with these commands, with a new session whose threads have these names and forms, and with
/// a new view that has these limits.
///
/// So exactly the last and the slowest of the emitted frames are read back. Each of them has, under each thread's start and
/// name, exactly the scopes reported there since the emitted frame before it.
///
/// Fails with `Memory`, and with `PartTooLong` if a part of a packet has `2^32` bytes or more. The error has the replies if the
/// commands were run.
///
/// ```
/// let recorded = record_and_read(alloc, threads, &commands, limits);
/// let recording = recorded.map_err(|unread| unread.fault)?;
/// ```
pub fn record_and_read(
    alloc: Global,
    threads: Vec<(String, Form)>,
    commands: &[Command],
    limits: Limits,
) -> Result<Recording, Unread>
    ensures promise { IfOk result (λ recording.
        KeepsPromise (map (λ t. (string_bytes t.0, t.1)) threads.items) commands.now
        limits.max_recent limits.max_slow recording.replies.items recording.view) }
    ensures refusal { IfErr result (λ e.
        IsUnreadAnew (map (λ t. (string_bytes t.0, t.1)) threads.items) commands.now
        limits.max_recent limits.max_slow e.fault (option_map (λ rs. rs.items) e.replies)) }
{
    let mut view = limited_view(alloc, limits);
    match Session::with_forms(alloc, threads) {
        Ok(mut session) => record_session_and_read(alloc, &mut session, commands, &mut view),
        Err(_) => Err(Unread {
            fault: FileError::Memory,
            replies: None,
        }),
    }
}
