//! Files of views.

ghost use Rattle.std.specs.Prelude.{◌≡◌, ◌⊎◌, ◌+◌, Some, IsTrue, IfErr, OnOk, option_map};
ghost use Rattle.std.specs.List.{AllByRecursion, Any};
ghost use Rattle.std.specs.Io.KnownBytes.{Appends};
ghost use Rattle.puffin_data.specs.declared.error.Error.{Error};
ghost use Rattle.puffin_data.specs.declared.file_error.FileError.{FileError};
ghost use Rattle.puffin_data.specs.Device.{CanFail, TookNothing, WritesBeginning, failures_after};
ghost use Rattle.puffin_frames.specs.Packet.Grammar.{IsPacked};
ghost use Rattle.puffin_frames.specs.Packet.Writing.{HasLongPart};
ghost use Rattle.puffin_view.specs.View.ViewedFrames.{fields_of};
ghost use Rattle.puffin_view.specs.View.FrameOf.{frame_of};
ghost use Rattle.puffin_view.specs.View.Known.{view_of, collection_of, lacks_ids};
ghost use Rattle.puffin_view.specs.View.Adding.{Adds};
ghost use Rattle.puffin_view.specs.View.File.{file_of, fields_in, first_with, WritesFile, file_at, ReadsView};

use crate::profile_view::frame_file::{read_magic, write_magic};
use crate::profile_view::frame_view::FrameView;
use puffin_data::FileError;
use puffin_data::data::{Drain, Source};
use puffin_frames::frame_data::FrameData;
use puffin_threads::scope_details::ScopeCollection;
use std::alloc::Global;
use std::sync::Arc;

/// Adds a frame that was read from a file to a view. Fails with `Refused(MissingId)` if some of the frame's details have no id,
/// and with `Memory`.
fn add_read(alloc: Global, view: &mut FrameView, frame: FrameData) -> Result<(), FileError>
    ensures ok { OnOk result (Adds (frame_of frame) view.old view.new) }
    ensures missing { IfErr result (λ e.
        e ≡ FileError.Refused Error.MissingId →
        IsTrue (lacks_ids (fields_of (frame_of frame)))) }
    ensures cause { IfErr result (λ e.
        (e ≡ FileError.Refused Error.MissingId) ⊎ (e ≡ FileError.Memory)) }
{
    let frame = Arc::new(alloc, frame)?;
    Ok(view.add_frame(frame)?)
}

impl FrameView {
    /// Writes a file: `PUF0`, then a packet for each recent or slow frame, in ascending order of index. Each packet contains
    /// the details that are new in its frame (`scope_delta`).
    ///
    /// Fails with `PartTooLong` if a part of a packet has `2^32` bytes or more, with `Memory`, or with `Io` if a write fails or
    /// takes none of the bytes that are left. A prefix of the file has then been written.
    ///
    /// ```
    /// view.write(&mut Counted::new(File::create(&rt, "frames.puffin")?))?;
    /// ```
    pub fn write<D: Drain>(&self, drain: &mut D) -> Result<(), FileError>
        requires { CanFail D.failures drain.old }
        ensures ok { OnOk result (
            Appends (D.contents drain.old) (D.contents drain.new) (
            file_of (fields_in (view_of self.now)))) }
        // What is written can be read again.
        ensures packed { OnOk result (AllByRecursion IsPacked (fields_in (view_of self.now))) }

        // What a refusal leaves, and its causes.
        ensures begun { IfErr result (λ e.
            WritesBeginning (D.contents drain.old) (D.contents drain.new) (
            file_of (fields_in (view_of self.now)))) }
        ensures io { IfErr result (λ e.
            e ≡ FileError.Io →
            (D.failures drain.new ≡ D.failures drain.old + 1) ⊎ TookNothing D.takes drain.new) }
        ensures too_long { IfErr result (λ e.
            e ≡ FileError.PartTooLong → Any HasLongPart (fields_in (view_of self.now))) }
        ensures cause { IfErr result (λ e.
            (e ≡ FileError.PartTooLong) ⊎ (e ≡ FileError.Memory) ⊎ (e ≡ FileError.Io)) }
        ensures failures { OnOk result (D.failures drain.new ≡ D.failures drain.old) }
    {
        self.write_frames(None, drain)
    }

    /// Writes a file as [`FrameView::write`] does, but its first packet has the details of every scope that the view knows
    /// ([`FrameView::scope_collection`]), in ascending order of id, in place of its frame's own. So the file has the names of
    /// all its scopes, even if the view doesn't hold the frames any more that listed them. Without frames, it has no details.
    ///
    /// Fails in the same cases as [`FrameView::write`], and leaves the same.
    pub fn write_with_details<D: Drain>(&self, drain: &mut D) -> Result<(), FileError>
        requires { CanFail D.failures drain.old }
        ensures written { WritesFile D.contents D.failures D.takes drain.old drain.new (
            first_with (Some (collection_of self.now)) (fields_in (view_of self.now))) result }
    {
        self.write_frames(Some(self.scope_collection()), drain)
    }

    /// Writes the file of the view's frames, the first with these details in place of its own, if any are given.
    fn write_frames<D: Drain>(
        &self,
        scopes: Option<&ScopeCollection>,
        drain: &mut D,
    ) -> Result<(), FileError>
        requires { CanFail D.failures drain.old }
        ensures written { WritesFile D.contents D.failures D.takes drain.old drain.new (
            first_with (option_map (λ known. known.now) scopes.entry) (
            fields_in (view_of self.now))) result }
    {
        // The details for the first packet; taken once, so that the other packets have their own.
        let mut first = scopes;
        write_magic(drain)?;
        'frames: for frame in self.all_uniq() {
            frame.write_into(first.take(), drain)?;
        }
        Ok(())
    }

    /// Reads a file, and adds its frames, in order, to a new view. The view keeps up to `usize::MAX` recent and 256 slow
    /// frames, and packing is on. The file ends at four zeros, or where fewer than four bytes are left; nothing after the zeros
    /// is read.
    ///
    /// Fails with the first error that applies: `NoMagic` if the first four bytes aren't `PUF0`, or there are fewer; `Io` if a
    /// read fails; any other error of [`FrameData::read_next`] at a frame; `Refused(MissingId)` if some of a frame's details
    /// have no id; `Truncated` if there are `2^64 - 1` frames before the end. How far the source was read is then unspecified.
    ///
    /// ```
    /// let view = FrameView::read(alloc, &mut Counted::new(File::open(&rt, "frames.puffin")?))?;
    /// ```
    pub fn read<S: Source>(alloc: Global, source: &mut S) -> Result<FrameView, FileError>
        requires { CanFail S.failures source.old }
        ensures file { ReadsView file_at (S.remaining source.old) (S.remaining source.new) result }
        ensures failures { S.failures source.new ≡ failures_after (S.failures source.old) result }
    {
        read_magic(source)?;
        let mut view = FrameView::new(alloc);
        view.set_max_recent(usize::MAX);
        'packets: for _ in 0..u64::MAX {
            let Some(frame) = FrameData::read_next(alloc, source)? else {
                return Ok(view);
            };
            add_read(alloc, &mut view, frame)?;
        }
        Err(FileError::Truncated)
    }
}
