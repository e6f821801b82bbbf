//! Recording the frames that a session emits.

ghost use Rattle.std.specs.Prelude.{◌≡◌, ◌⊎◌, ◌+◌, [], All, map, option_map, IfOk, IfErr, OnOk, get_or};
ghost use Rattle.std.specs.List.{Any};
ghost use Rattle.std.specs.String.{string_bytes};
ghost use Rattle.puffin_data.specs.declared.data.form.Form.TheVariants.{Short};
ghost use Rattle.puffin_data.specs.Device.{CanFail, TookNothing};
ghost use Rattle.puffin_frames.specs.Packet.Writing.{HasLongPart};
ghost use Rattle.puffin_view.specs.View.{Took};
ghost use Rattle.puffin_view.specs.View.Known.{view_of};
ghost use Rattle.puffin_view.specs.View.File.{fields_in};
ghost use Rattle.puffin_session.specs.Session.{SessionState};
ghost use Rattle.puffin_session.specs.Session.Runs.{HasIds};
ghost use Rattle.puffin_replay.specs.Script.{threads_said};
ghost use Rattle.puffin_replay.specs.Program.EmittedFrames.{frame_in, emitted_by, frames_emitted, Takes, TakesSome, TookAlso};
ghost use Rattle.puffin_replay.specs.Program.Recording.{session_named, IsTaken, IsRecorded, IsBroken};
ghost use Rattle.puffin_replay.specs.Program.ScriptRun.{loose_view, IsReplayed, IsUnfinished};
ghost use Rattle.puffin_replay.specs.Promise.{IsNotRun, IsNotTaken};

use crate::replay::reply_line::reply_lines;
use crate::replay::script::Script;
use puffin_data::data::{Drain, Form, write_all};
use puffin_data::{Error, FileError, Result as Answer};
use puffin_frames::frame_data::FrameData;
use puffin_session::{Command, Reply, Session};
use puffin_view::profile_view::FrameView;
use std::alloc::{AllocError, Global};
use std::sync::Arc;

/// Why a recording couldn't be made or read back.
#[derive(Drop)]
pub struct Unread {
    /// The error.
    pub fault: FileError,
    /// The reply to each command, in order, or `None` if the commands weren't run.
    pub replies: Option<Vec<Reply>>,
}

/// Returns the frame in a reply, if any.
fn emitted_by(reply: &Reply) -> Option<&Arc<FrameData>>
    ensures { frame_in (option_map (λ frame. frame.now) result) ≡ emitted_by reply.now }
{
    match reply {
        Reply::Frame(emitted) => emitted.frame.as_ref(),
        _ => None,
    }
}

/// Adds each frame of the replies to a view, in order. Fails only with `Memory`.
fn add_frames(view: &mut FrameView, replies: &[Reply]) -> Answer<()>
    requires { All HasIds replies.now }
    ensures ok { OnOk result (Takes (frames_emitted replies.now) view.old view.new) }
    ensures took { OnOk result (
        TookAlso (frames_emitted replies.now) (view_of view.old) (view_of view.new)) }
    ensures refusal { IfErr result (λ e.
        (e ≡ Error.Memory) × TakesSome (frames_emitted replies.now) view.old view.new) }
{
    for reply in replies {
        if let Some(frame) = emitted_by(reply) {
            view.add_frame(frame.clone()?)?;
        }
    }
    Ok(())
}

/// Runs commands in a session, and adds each emitted frame to a view, in order. Returns one reply for each command.
///
/// Fails only with `Memory`. The session has then run all of the commands or none, and the view may have taken the first few
/// of the frames.
pub(crate) fn run_into(
    session: &mut Session,
    commands: &[Command],
    view: &mut FrameView,
) -> Result<Vec<Reply>, Unread>
    ensures taken { IfOk result (λ replies.
        IsTaken session.old session.new commands.now replies.items view.old view.new) }
    ensures refusal { IfErr result (λ e.
        IsNotRun session.old session.new commands.now view.old view.new e.fault
        (option_map (λ rs. rs.items) e.replies)
        ⊎ IsNotTaken session.old session.new commands.now view.old view.new e.fault
        (option_map (λ rs. rs.items) e.replies)) }
    ensures memory { IfErr result (λ e. e.fault ≡ FileError.Memory) }
{
    let replies = match session.run(commands) {
        Ok(replies) => replies,
        Err(_) => {
            return Err(Unread {
                fault: FileError::Memory,
                replies: None,
            });
        }
    };
    match add_frames(view, &replies) {
        Ok(()) => Ok(replies),
        Err(_) => Err(Unread {
            fault: FileError::Memory,
            replies: Some(replies),
        }),
    }
}

/// Runs commands in a session, adds each emitted frame to a view, in order, and writes the view's file. Returns one reply for
/// each command.
///
/// Fails with `Memory`, and with `PartTooLong` or `Io` in the same cases as [`FrameView::write`]. The session has then run all
/// of the commands or none, and the view may have taken the first few of the frames. Nothing is written before the view has
/// taken all of them.
///
/// ```
/// let mut drain = Counted::new(file);
/// let replies = record_session(&mut session, &commands, &mut view, &mut drain)?;
/// ```
pub fn record_session<D: Drain>(
    session: &mut Session,
    commands: &[Command],
    view: &mut FrameView,
    drain: &mut D,
) -> Result<Vec<Reply>, FileError>
    requires { CanFail D.failures drain.old }
    // The commands were run, each emitted frame has what was due, the view took these frames, and its file was written.
    ensures recorded { IfOk result (λ replies.
        IsRecorded session.old session.new commands.now replies.items view.old view.new
        (D.contents drain.old) (D.contents drain.new)) }
    ensures failures { OnOk result (D.failures drain.new ≡ D.failures drain.old) }

    // Nothing was run; or the view didn't take all of the frames; or only a prefix of its file was written.
    ensures broken { IfErr result (λ e.
        IsBroken session.old session.new commands.now view.old view.new (D.contents drain.old)
        (D.contents drain.new) e) }
    // The writer failed in this call, or took no byte.
    ensures io { (result ≡ Err FileError.Io) →
        (D.failures drain.new ≡ D.failures drain.old + 1) ⊎ TookNothing D.takes drain.new }
    ensures too_long { (result ≡ Err FileError.PartTooLong) →
        Any HasLongPart (fields_in (view_of view.new)) }
{
    let replies = match run_into(session, commands, view) {
        Ok(replies) => replies,
        Err(unread) => return Err(unread.fault),
    };
    view.write(drain)?;
    Ok(replies)
}

/// Runs commands in a new session whose threads have these names and the short form. Adds each emitted frame to a view, in
/// order, and writes the view's file, as [`record_session`] does. Returns one reply for each command.
///
/// Fails with `Memory`, and with `PartTooLong` or `Io` in the same cases as [`FrameView::write`]. The view may then have taken
/// the first few of the frames. Nothing is written before the view has taken all of them.
///
/// ```
/// let mut drain = Counted::new(file);
/// let replies = record(alloc, names, &commands, &mut view, &mut drain)?;
/// ```
pub fn record<D: Drain>(
    alloc: Global,
    names: Vec<String>,
    commands: &[Command],
    view: &mut FrameView,
    drain: &mut D,
) -> Result<Vec<Reply>, FileError>
    requires { CanFail D.failures drain.old }
    // The commands were run, each emitted frame has what was due, the view took these frames, and its file was written.
    ensures recorded { IfOk result (λ replies.
        (end : SessionState)
        × IsRecorded (session_named names.items) end commands.now replies.items view.old view.new
        (D.contents drain.old) (D.contents drain.new)) }
    ensures failures { OnOk result (D.failures drain.new ≡ D.failures drain.old) }

    // Nothing was run; or the view didn't take all of the frames; or only a prefix of its file was written.
    ensures broken { IfErr result (λ e.
        (end : SessionState)
        × IsBroken (session_named names.items) end commands.now view.old view.new
        (D.contents drain.old) (D.contents drain.new) e) }
    // The writer failed in this call, or took no byte.
    ensures io { (result ≡ Err FileError.Io) →
        (D.failures drain.new ≡ D.failures drain.old + 1) ⊎ TookNothing D.takes drain.new }
    ensures too_long { (result ≡ Err FileError.PartTooLong) →
        Any HasLongPart (fields_in (view_of view.new)) }
{
    let mut session = Session::new(alloc, names)?;
    record_session(&mut session, commands, view, drain)
}

/// Makes an empty view that packs no frames. Its frames stay as the replies have them, and are packed when they are written.
fn loose_view(alloc: Global) -> FrameView
    ensures frames { view_of result ≡ loose_view }
    ensures took { Took [] (view_of result) }
{
    let mut view = FrameView::new(alloc);
    view.set_pack_frames(false);
    view
}

/// Returns the form at this place, or the short one if there is none.
fn form_at(forms: &[Form], index: usize) -> Form
    ensures { result ≡ get_or forms.now index Short }
{
    match forms.get(index) {
        Some(form) => *form,
        None => Form::Short,
    }
}

/// Returns the names and the forms of a script's threads.
fn threads_of(alloc: Global, script: &Script) -> Result<Vec<(String, Form)>, AllocError>
    ensures { IfOk result (λ threads.
        map (λ t. (string_bytes t.0, t.1)) threads.items ≡ threads_said script.now) }
{
    let mut threads = Vec::new(alloc);
    'names: for (index, name) in script.names.iter().enumerate() {
        threads.push((name.clone()?, form_at(&script.forms, index)))?;
    }
    Ok(threads)
}

/// Runs a script in a new session, and adds each frame of the run to a new view. Writes the view's file to `out`. Then writes
/// a line to `lines` for each reply that has one. `docs/FORMAT.md` lists these lines.
///
/// Fails as [`record`] does, before any line is written; or with `Memory` or `Io` if the lines can't be written.
///
/// ```
/// let script = read_script(alloc, &mut source)?;
/// run_script(alloc, &script, &mut out, &mut lines)?;
/// ```
pub fn run_script<D: Drain, E: Drain>(
    alloc: Global,
    script: &Script,
    out: &mut D,
    lines: &mut E,
) -> Result<(), FileError>
    requires out { CanFail D.failures out.old }
    requires lines { CanFail E.failures lines.old }
    ensures ok { OnOk result (
        IsReplayed script.now (D.contents out.old) (D.contents out.new) (E.contents lines.old)
        (E.contents lines.new)) }
    ensures fails { IfErr result (λ e.
        IsUnfinished script.now (D.contents out.old) (D.contents out.new) (E.contents lines.old)
        (E.contents lines.new) e) }
    // One of the writers failed in this call, or took no byte.
    ensures io { (result ≡ Err FileError.Io) →
        ((D.failures out.new ≡ D.failures out.old + 1) ⊎ TookNothing D.takes out.new)
        ⊎ ((E.failures lines.new ≡ E.failures lines.old + 1) ⊎ TookNothing E.takes lines.new) }
    ensures failures { OnOk result (
        (D.failures out.new ≡ D.failures out.old)
        × (E.failures lines.new ≡ E.failures lines.old)) }
{
    let threads = threads_of(alloc, script)?;
    let mut session = Session::with_forms(alloc, threads)?;
    let mut view = loose_view(alloc);
    let replies = record_session(&mut session, &script.commands, &mut view, out)?;
    let text = reply_lines(alloc, &script.lines, &replies)?;
    write_all(lines, text.as_bytes())
}
