//! Files of frames, one frame at a time.

ghost use Rattle.std.specs.Prelude.{◌≡◌, ◌≢◌, ◌⊎◌, ◌+◌, ◌-◌, ◌^◌, ◌<◌, ◌++◌, ◌∷◌, [], List, ℕ, IsFalse, IsTrue, Option, None, length, Err, Ok, IfOk, IfErr, IfSome, IfNone, OnOk, OnErr, IsOkUnless};
ghost use Rattle.std.specs.Io.KnownBytes.{Appends, Consumes};
ghost use Rattle.puffin_data.specs.declared.file_error.FileError.{FileError};
ghost use Rattle.puffin_data.specs.Device.{CanFail, TookNothing, WritesBeginning, failures_after, is_io};
ghost use Rattle.puffin_frames.specs.Packet.Stored.{PacketFields, Stored};
ghost use Rattle.puffin_frames.specs.Packet.Next.{stored_of, IsFresh};
ghost use Rattle.puffin_frames.specs.Packet.Grammar.{IsPacked, packet};
ghost use Rattle.puffin_frames.specs.Packet.Writing.{HasLongPart, WritesPacket};
ghost use Rattle.puffin_frames.specs.Frame.Contents.{packet_fields, frame_details};
ghost use Rattle.puffin_threads.specs.Details.Collection.{no_details, with_all_details, LearnsSome};
ghost use Rattle.puffin_data.specs.declared.error.Error.{Error};
ghost use Rattle.puffin_view.specs.View.Known.{lacks_ids};
ghost use Rattle.puffin_view.specs.View.File.{magic, begins_file, file_at, TookFrames, FailsToRead};
ghost use Rattle.puffin_view.specs.View.FrameFile.{GivesNext, HasGiven, HoldsFile, HoldsBegun, HoldsSoFar, written_after, fields_if};

use puffin_data::data::{Drain, Source, read_up_to, write_all};
use puffin_data::{Error, FileError};
use puffin_frames::frame_data::FrameData;
use puffin_threads::scope_details::{ScopeCollection, any_lacks_id};
use std::alloc::Global;
use std::mem;

/// Returns whether these letters begin a file.
fn is_magic(letters: [u8; 4]) -> bool
    ensures { result ≡ begins_file letters }
{
    letters[0] == b'P' && letters[1] == b'U' && letters[2] == b'F' && letters[3] == b'0'
}

/// Reads the four letters that a file begins with, `PUF0`, from a borrowed source. Fails like [`FrameReader::new`].
pub fn read_magic<S: Source>(source: &mut S) -> Result<(), FileError>
    requires { CanFail S.failures source.old }
    ensures begun { OnOk result (
        HasGiven (S.remaining source.old) (S.remaining source.new) []) }
    ensures err { IfErr result (λ e.
        FailsToRead file_at (S.remaining source.old) (S.remaining source.new) e) }
    ensures cause { IfErr result (λ e. (e ≡ FileError.NoMagic) ⊎ (e ≡ FileError.Io)) }
    ensures failures { S.failures source.new ≡ failures_after (S.failures source.old) result }
{
    let mut letters = [0; 4];
    if read_up_to(source, &mut letters)? < 4 {
        return Err(FileError::NoMagic);
    }
    if is_magic(letters) {
        Ok(())
    } else {
        Err(FileError::NoMagic)
    }
}

/// Reads the next frame, and checks that all of its details have ids.
fn checked_frame<S: Source>(alloc: Global, source: &mut S) -> Result<Option<FrameData>, FileError>
    requires { CanFail S.failures source.old }
    ensures next { GivesNext (S.remaining source.old) (S.remaining source.new) result }
    ensures ids { IfOk result (λ next. IfSome next (λ frame.
        IsFalse (lacks_ids (packet_fields frame)))) }
    ensures fresh { IfOk result (λ next. IfSome next IsFresh) }
    ensures failures { S.failures source.new ≡ failures_after (S.failures source.old) result }
{
    let Some(frame) = FrameData::read_next(alloc, source)? else {
        return Ok(None);
    };
    if any_lacks_id(&frame.scope_delta) {
        return Err(FileError::Refused(Error::MissingId));
    }
    Ok(Some(frame))
}

/// Reads the next frame from a borrowed source, after [`read_magic`]. Returns and fails like [`FrameReader::next`], except that
/// a call after the end or a fault reads on.
pub fn next_frame<S: Source>(alloc: Global, source: &mut S) -> Result<Option<FrameData>, FileError>
    requires { CanFail S.failures source.old }
    ensures given { IfOk result (λ next. IfSome next (λ frame.
        (old : Option (List ℕ)) (frames : List Stored) →
        HasGiven old (S.remaining source.old) frames →
        HasGiven old (S.remaining source.new) (frames ++ stored_of frame ∷ []))) }
    ensures end { IfOk result (λ next. IfNone next (
        (old : Option (List ℕ)) (frames : List Stored) →
        HasGiven old (S.remaining source.old) frames → length frames < 2 ^ 64 - 1 →
        TookFrames file_at old (S.remaining source.new) frames)) }
    ensures fault { IfErr result (λ e. (old : Option (List ℕ)) (frames : List Stored) →
        HasGiven old (S.remaining source.old) frames → length frames < 2 ^ 64 - 1 →
        FailsToRead file_at old (S.remaining source.new) e) }
    // The same for this call alone.
    ensures next { GivesNext (S.remaining source.old) (S.remaining source.new) result }
    ensures ids { IfOk result (λ next. IfSome next (λ frame.
        IsFalse (lacks_ids (packet_fields frame)))) }
    ensures fresh { IfOk result (λ next. IfSome next IsFresh) }
    ensures failures { S.failures source.new ≡ failures_after (S.failures source.old) result }
{
    checked_frame(alloc, source)
}

/// Writes the letters that a file begins with.
pub(super) fn write_magic<D: Drain>(drain: &mut D) -> Result<(), FileError>
    requires { CanFail D.failures drain.old }
    ensures ok { OnOk result (Appends (D.contents drain.old) (D.contents drain.new) magic) }
    ensures err { IfErr result (λ e.
        (e ≡ FileError.Io)
        × WritesBeginning (D.contents drain.old) (D.contents drain.new) magic
        × ((D.failures drain.new ≡ D.failures drain.old + 1) ⊎ TookNothing D.takes drain.new)) }
    ensures failures { OnOk result (D.failures drain.new ≡ D.failures drain.old) }
{
    write_all(drain, b"PUF0")
}

/// Reads a file one frame at a time, using memory for one frame only.
///
/// ```
/// let mut reader = FrameReader::new(alloc, Counted::new(File::open(&rt, "frames.puffin")?))?;
/// while let Some(frame) = reader.next()? {
///     println!(rt; "{}", frame.frame_index())?;
/// }
/// ```
///
/// If a call fails, the fault is in the frame after those that [`FrameReader::num_frames`] counts, and before the byte at which
/// the source stands, which [`FrameReader::into_source`] returns: what is left of a slice, or a file's position.
#[derive(Drop)]
pub struct FrameReader<S: Source> {
    alloc: Global,
    source: S,
    /// True after the end or a fault.
    is_done: bool,
    /// How many frames were returned.
    num_frames: u64,
    ghost countable: { IsFalse is_done → CanFail S.failures source },
}

impl<S: Source> FrameReader<S> {
    ghost use Rattle.puffin_view.specs.View.FrameDevices.{source_of, is_done_of, num_frames_of, ends_reading, frames_after};

    /// Makes a reader, and reads the four letters that a file begins with.
    ///
    /// Fails with `NoMagic` if the first four bytes aren't `PUF0`, or there are fewer, and with `Io` if a read fails. `source`
    /// is then dropped; how far it was read is unspecified.
    pub fn new(alloc: Global, source: S) -> Result<FrameReader<S>, FileError>
    where
        S: Drop,
        requires { CanFail S.failures source }
        ensures begun { IfOk result (λ reader.
            HasGiven (S.remaining source) (S.remaining (source_of reader)) []) }
        // what a failure left of the source that was dropped
        ensures err { IfErr result (λ e.
            (dropped : S)
            × FailsToRead file_at (S.remaining source) (S.remaining dropped) e
            × (S.failures dropped ≡ failures_after (S.failures source) result)) }
        ensures cause { IfErr result (λ e. (e ≡ FileError.NoMagic) ⊎ (e ≡ FileError.Io)) }
        ensures failures { IfOk result (λ reader.
            S.failures (source_of reader) ≡ S.failures source) }
        ensures not_done { IfOk result (λ reader. IsFalse (is_done_of reader)) }
        ensures none { IfOk result (λ reader. num_frames_of reader ≡ 0) }
    {
        let mut source = source;
        read_magic(&mut source)?;
        Ok(FrameReader {
            alloc,
            source,
            is_done: false,
            num_frames: 0,
        })
    }

    /// Returns the next frame, or `None` at the end: at four zeros, or where fewer than four bytes are left.
    ///
    /// Fails like [`FrameData::read_next`], and with `Refused(MissingId)` if some of the frame's details have no id. How far
    /// the source was read is then unspecified. After the end or a fault, each call returns `None` and reads nothing.
    pub fn next(&mut self) -> Result<Option<FrameData>, FileError>
        // If the reader had given the frames of a file up to here, it has now given this one too.
        ensures given { IfOk result (λ next. IfSome next (λ frame.
            (old : Option (List ℕ)) (frames : List Stored) →
            HasGiven old (S.remaining (source_of self.old)) frames →
            HasGiven old (S.remaining (source_of self.new)) (frames ++ stored_of frame ∷ []))) }
        // At the end these are all frames of the file, as when it is read at once.
        ensures end { IfOk result (λ next. IfNone next (
            IsFalse (is_done_of self.old) →
            (old : Option (List ℕ)) (frames : List Stored) →
            HasGiven old (S.remaining (source_of self.old)) frames →
            length frames < 2 ^ 64 - 1 →
            TookFrames file_at old (S.remaining (source_of self.new)) frames)) }
        // It fails as it would if the file were read at once.
        ensures fault { IfErr result (λ e. (old : Option (List ℕ)) (frames : List Stored) →
            HasGiven old (S.remaining (source_of self.old)) frames →
            length frames < 2 ^ 64 - 1 →
            FailsToRead file_at old (S.remaining (source_of self.new)) e) }
        // It goes on after a frame, and only then.
        ensures goes_on { is_done_of self.new ≡ ends_reading result }
        ensures done { IsTrue (is_done_of self.old) →
            (result ≡ Ok None) × (self.new ≡ self.old) }
        ensures counted { num_frames_of self.new ≡ frames_after result (num_frames_of self.old) }

        // The same for this call alone.
        ensures next { IsFalse (is_done_of self.old) → GivesNext
            (S.remaining (source_of self.old)) (S.remaining (source_of self.new)) result }
        ensures ids { IfOk result (λ next. IfSome next (λ frame.
            IsFalse (lacks_ids (packet_fields frame)))) }
        ensures fresh { IfOk result (λ next. IfSome next IsFresh) }
        ensures failures { S.failures (source_of self.new)
            ≡ failures_after (S.failures (source_of self.old)) result }
    {
        if self.is_done {
            return Ok(None);
        }
        let next = next_frame(self.alloc, &mut self.source);
        if let Ok(Some(_)) = next {
            self.num_frames = self.num_frames.saturating_add(1);
        } else {
            self.is_done = true;
        }
        next
    }

    /// Returns how many frames [`FrameReader::next`] has returned. After a fault, this is the number of the frame that has it,
    /// counted from 0.
    pub fn num_frames(&self) -> u64
        ensures { result ≡ num_frames_of self.now }
    {
        self.num_frames
    }

    /// Returns the source, positioned after what was read from it. After a fault, the fault is in the bytes before that.
    pub fn into_source(self) -> S
        ensures { result ≡ source_of self }
    {
        self.source
    }
}

/// Writes a frame as one packet, with these details in place of its own, if it is the first of its file.
fn write_packet<D: Drain>(
    frame: &FrameData,
    scopes: &ScopeCollection,
    is_first: bool,
    drain: &mut D,
) -> Result<(), FileError>
    requires { CanFail D.failures drain.old }
    ensures written { WritesPacket D.contents D.failures D.takes drain.old drain.new
        (packet (fields_if is_first scopes.now frame.now))
        (HasLongPart (fields_if is_first scopes.now frame.now)) result }
    ensures packed { OnOk result (IsPacked (fields_if is_first scopes.now frame.now)) }
{
    if is_first {
        frame.write_into(Some(scopes), drain)
    } else {
        frame.write_into(None, drain)
    }
}

/// Writes a file one frame at a time. The first packet of a file has the details of all frames that were written so far, also
/// to earlier files, so each file has the names of its scopes.
///
/// ```
/// let mut writer = FrameWriter::new(alloc, Counted::new(File::create(&rt, "frames.puffin")?))?;
/// writer.write(&frame)?;
/// ```
#[derive(Drop)]
pub struct FrameWriter<D: Drain> {
    drain: D,
    /// True after `Io`: a prefix of a packet may have been written, and nothing after it would be read.
    is_broken: bool,
    /// True until the file has a packet.
    is_first: bool,
    /// The details of all frames that were written.
    scopes: ScopeCollection,
    ghost countable: { IsFalse is_broken → CanFail D.failures drain },
}

impl<D: Drain> FrameWriter<D> {
    ghost use Rattle.puffin_view.specs.View.FrameDevices.{drain_of, is_broken_of, is_first_of, is_first_after, scopes_of, next_fields, BeginsFile};

    /// Makes a writer, and writes the four letters that a file begins with.
    ///
    /// Fails only with `Io`, if a write fails or takes none of the bytes that are left. `drain` is then dropped, with a prefix
    /// of the letters written to it.
    pub fn new(alloc: Global, drain: D) -> Result<FrameWriter<D>, FileError>
    where
        D: Drop,
        requires { CanFail D.failures drain }
        ensures begun { IfOk result (BeginsFile drain) }
        ensures none { IfOk result (λ writer. scopes_of writer ≡ no_details) }
        // what a failure left of the drain that was dropped
        ensures err { IfErr result (λ e.
            (dropped : D)
            × WritesBeginning (D.contents drain) (D.contents dropped) magic
            × ((D.failures dropped ≡ D.failures drain + 1) ⊎ TookNothing D.takes dropped)) }
        ensures cause { IsOkUnless result FileError.Io }
    {
        let mut drain = drain;
        write_magic(&mut drain)?;
        Ok(FrameWriter {
            drain,
            is_broken: false,
            is_first: true,
            scopes: ScopeCollection::new(alloc),
        })
    }

    /// Begins the next file, on another drain, and returns the drain of the last one. The next packet has the details of all
    /// frames written so far. A writer that was broken goes on.
    ///
    /// Fails as [`FrameWriter::new`] does; the writer doesn't change then.
    pub fn next_file(&mut self, drain: D) -> Result<D, FileError>
    where
        D: Drop,
        requires { CanFail D.failures drain }
        ensures begun { OnOk result (BeginsFile drain self.new) }
        ensures last { IfOk result (λ last. last ≡ drain_of self.old) }
        ensures scopes { scopes_of self.new ≡ scopes_of self.old }
        ensures err { IfErr result (λ e.
            (dropped : D)
            × WritesBeginning (D.contents drain) (D.contents dropped) magic
            × ((D.failures dropped ≡ D.failures drain + 1) ⊎ TookNothing D.takes dropped)) }
        ensures unchanged { OnErr result (self.new ≡ self.old) }
        ensures cause { IsOkUnless result FileError.Io }
    {
        let mut drain = drain;
        write_magic(&mut drain)?;
        let last = mem::replace(&mut self.drain, drain);
        self.is_broken = false;
        self.is_first = true;
        Ok(last)
    }

    /// Appends a frame as one packet. It has the details of the frame's own `scope_delta` or, if it is the first of its file,
    /// those of all frames written so far and of this one, in ascending order of id.
    ///
    /// Fails with `Refused(MissingId)` if some of the frame's details have no id, since no reader would take them; and like
    /// [`FrameData::write_into`]. After `Io`, a prefix of the packet has been written, and each further call fails with `Io`
    /// and writes nothing, since nothing after a cut packet would ever be read; [`FrameWriter::next_file`] ends that. After any
    /// other error nothing has been written; after `PartTooLong` and `Memory`, some of the frame's details may be known.
    pub fn write(&mut self, frame: &FrameData) -> Result<(), FileError>
        // After each call the device holds the frames written so far, followed by nothing or, if the writer is broken, by a
        // prefix of one packet.
        ensures so_far { (old : Option (List ℕ)) (cs : List PacketFields) →
            HoldsSoFar (is_broken_of self.old) old (D.contents (drain_of self.old)) cs →
            HoldsSoFar (is_broken_of self.new) old (D.contents (drain_of self.new))
            (written_after result cs (next_fields self.old frame.now)) }
        ensures breaks { is_broken_of self.new ≡ is_io result }
        ensures broken { IsTrue (is_broken_of self.old) →
            (result ≡ Err FileError.Io) × (self.new ≡ self.old) }
        ensures written { OnOk result ((old : Option (List ℕ)) (cs : List PacketFields) →
            HoldsFile old (D.contents (drain_of self.old)) cs →
            HoldsFile old (D.contents (drain_of self.new))
            (cs ++ next_fields self.old frame.now ∷ [])) }
        ensures begun { IfErr result (λ e. (old : Option (List ℕ)) (cs : List PacketFields) →
            HoldsFile old (D.contents (drain_of self.old)) cs →
            HoldsBegun old (D.contents (drain_of self.new)) cs
            (next_fields self.old frame.now)) }
        ensures unchanged { IfErr result (λ e. e ≢ FileError.Io →
            drain_of self.new ≡ drain_of self.old) }
        // What is written can be read again.
        ensures packed { OnOk result (IsPacked (next_fields self.old frame.now)) }
        ensures ids { OnOk result (IsFalse (lacks_ids (packet_fields frame.now))) }
        ensures missing { IfErr result (λ e. e ≡ FileError.Refused Error.MissingId →
            IsTrue (lacks_ids (packet_fields frame.now))
            × (scopes_of self.new ≡ scopes_of self.old)) }
        // What the next packet will have.
        ensures first { is_first_of self.new ≡ is_first_after result (is_first_of self.old) }
        ensures scopes { OnOk result (scopes_of self.new
            ≡ with_all_details (scopes_of self.old) (frame_details frame.now)) }
        ensures some { OnErr result (
            LearnsSome (scopes_of self.old) (frame_details frame.now) (scopes_of self.new)) }

        // The same for this call alone.
        ensures packet { IsFalse (is_broken_of self.old) →
            IsFalse (lacks_ids (packet_fields frame.now)) →
            WritesPacket D.contents D.failures D.takes (drain_of self.old) (drain_of self.new)
            (packet (next_fields self.old frame.now))
            (HasLongPart (next_fields self.old frame.now)) result }
    {
        if self.is_broken {
            return Err(FileError::Io);
        }
        self.scopes.insert_all(&frame.scope_delta)?;
        let written = write_packet(frame, &self.scopes, self.is_first, &mut self.drain);
        self.is_broken = matches!(written, Err(FileError::Io));
        self.is_first = self.is_first && written.is_err();
        written
    }

    /// Borrows the drain, for example to ask why a write failed.
    pub fn drain(&self) -> &D
        ensures { result.now ≡ drain_of self.now }
    {
        &self.drain
    }

    /// Returns the drain. It contains the four letters that the file begins with, a packet for each frame written and, if a
    /// write failed with `Io`, a prefix of one more packet.
    pub fn into_drain(self) -> D
        ensures { result ≡ drain_of self }
    {
        self.drain
    }
}
