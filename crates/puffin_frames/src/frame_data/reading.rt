//! Reading frames from any reader.

ghost use Rattle.std.specs.Prelude.{◌≡◌, ◌+◌, ◌<◌, ◌≤◌, ◌-ℤ◌, ◌≤ℤ◌, FitsSigned, Some, None, true, is_some, IfOk, IfSome, IsOkUnless};
ghost use Rattle.std.specs.Int.{w64};
ghost use Rattle.puffin_data.specs.declared.file_error.FileError.{FileError};
ghost use Rattle.puffin_data.specs.Device.{CanFail, FromDevice, failures_after};
ghost use Rattle.puffin_data.specs.Value.Decoding.{whole};
ghost use Rattle.puffin_frames.specs.Packet.Structs.{details_at};
ghost use Rattle.puffin_threads.specs.Details.{shared_details};
ghost use Rattle.puffin_frames.specs.Frame.Contents.{holding_of, packet_fields};
ghost use Rattle.puffin_frames.specs.Packet.Tries.{DecidedInMemory};
ghost use Rattle.puffin_frames.specs.inner.Stopping.{GivesHeaderOrEnds};
ghost use Rattle.puffin_frames.specs.Packet.Letters.{is_packet};
ghost use Rattle.puffin_frames.specs.Packet.Parts.{meta_from, meta_part_at, kind_from, kind_at, details_from, details_part_at, streams_part_at, legacy_from, legacy_part_at};
ghost use Rattle.puffin_frames.specs.Packet.Versions.{packet_at, version_at, stored_after};
ghost use Rattle.puffin_frames.specs.Packet.Grammar.{TookStored};
ghost use Rattle.puffin_frames.specs.Packet.Next.{legacy_of, stored_of, IsFresh, ReadsNext};

use crate::frame_data::decode::{Stop, details_in, legacy_in, meta_in};
use crate::frame_data::frame::FrameData;
use crate::frame_data::held::{Held, PackedStreams};
use crate::frame_data::kind::Kind;
use crate::frame_data::meta::FrameMeta;
use crate::frame_data::unpacked::UnpackedFrameData;
use crate::frame_data::version::Version;
use byteorder::{ByteOrder, LittleEndian};
use puffin_data::FileError;
use puffin_data::data::{
    Source, is_valid_range, read_byte, read_counted_part, read_length, read_part, read_up_to,
};
use puffin_threads::scope_details::ScopeDetails;
use std::alloc::Global;
use std::sync::Arc;

/// Decodes a meta. Fails with `BadMeta` unless all of the bytes are its layout, and with `BadRange` if its range is reversed or too
/// long.
fn parse_meta(bytes: &[u8]) -> Result<FrameMeta, FileError>
    ensures decided { result ≡ meta_from bytes.now }
    ensures ordered { IfOk result (λ meta. meta.range_ns.0 ≤ℤ meta.range_ns.1) }
    ensures duration_fits { IfOk result (λ meta.
        FitsSigned w64 (meta.range_ns.1 -ℤ meta.range_ns.0)) }
{
    match meta_in(bytes) {
        None => Err(FileError::BadMeta),
        Some(meta) => {
            if is_valid_range(meta.range_ns) {
                Ok(meta)
            } else {
                Err(FileError::BadRange)
            }
        }
    }
}

/// Reads the meta part of a packet.
fn read_meta_part<S: Source>(alloc: Global, source: &mut S) -> Result<FrameMeta, FileError>
    requires { CanFail S.failures source.old }
    ensures part { FromDevice (λ meta. meta) (S.remaining source.old) (S.remaining source.new)
        result meta_part_at }
    ensures ordered { IfOk result (λ meta. meta.range_ns.0 ≤ℤ meta.range_ns.1) }
    ensures duration_fits { IfOk result (λ meta.
        FitsSigned w64 (meta.range_ns.1 -ℤ meta.range_ns.0)) }
    ensures failures { S.failures source.new ≡ failures_after (S.failures source.old) result }
{
    let bytes = read_counted_part(alloc, source)?;
    let meta = parse_meta(&bytes)?;
    Ok(meta)
}

/// Returns the kind that packets store as this byte. Fails with `UnknownKind` if there is none.
fn parse_kind(byte: u8) -> Result<Kind, FileError>
    ensures { result ≡ kind_from byte }
{
    match Kind::from_byte(byte) {
        Some(kind) => Ok(kind),
        None => Err(FileError::UnknownKind(byte)),
    }
}

/// Reads the kind of the packed streams. A packet that doesn't store it has streams that were compressed by zstd.
fn read_kind<S: Source>(source: &mut S, version: Version) -> Result<Kind, FileError>
    requires { CanFail S.failures source.old }
    ensures part { FromDevice (λ kind. kind) (S.remaining source.old) (S.remaining source.new)
        result (kind_at version) }
    ensures failures { S.failures source.new ≡ failures_after (S.failures source.old) result }
{
    if !version.has_kind() {
        return Ok(Kind::Zstd);
    }
    let byte = read_byte(source)?;
    parse_kind(byte)
}

/// Reads the packed streams: their length, their kind and their bytes.
fn read_streams_part<S: Source>(
    alloc: Global,
    source: &mut S,
    version: Version,
) -> Result<(Kind, Vec<u8>), FileError>
    requires { CanFail S.failures source.old }
    ensures part { FromDevice (λ streams. (streams.0, streams.1.items)) (S.remaining source.old)
        (S.remaining source.new) result (streams_part_at version) }
    ensures failures { S.failures source.new ≡ failures_after (S.failures source.old) result }
{
    let len = read_length(source)?;
    let kind = read_kind(source, version)?;
    let streams = read_part(alloc, source, len)?;
    Ok((kind, streams))
}

/// Decodes a list of scope details. Fails with `BadScopes` unless all of the bytes are its layout, and with `Memory`.
fn parse_details(alloc: Global, bytes: &[u8]) -> Result<Vec<Arc<ScopeDetails>>, FileError>
    ensures { DecidedInMemory (λ details. shared_details details.items) result (
        details_from (whole details_at bytes.now)) }
{
    match details_in(alloc, bytes) {
        Ok(all) => Ok(all),
        Err(Stop::Memory) => Err(FileError::Memory),
        Err(Stop::NoLayout) => Err(FileError::BadScopes),
    }
}

/// Reads the scope details. Returns an empty list for an older packet, which has no such part.
fn read_details_part<S: Source>(
    alloc: Global,
    source: &mut S,
    version: Version,
) -> Result<Vec<Arc<ScopeDetails>>, FileError>
    requires { CanFail S.failures source.old }
    ensures part { FromDevice (λ details. shared_details details.items) (S.remaining source.old)
        (S.remaining source.new) result (details_part_at version) }
    ensures failures { S.failures source.new ≡ failures_after (S.failures source.old) result }
{
    if !version.has_details() {
        return Ok(Vec::new(alloc));
    }
    let part = read_counted_part(alloc, source)?;
    parse_details(alloc, &part)
}

/// Reads the parts of a packet of this version, whose letters have been read already.
fn read_packed<S: Source>(
    alloc: Global,
    source: &mut S,
    version: Version,
) -> Result<FrameData, FileError>
    requires { CanFail S.failures source.old }
    ensures part { FromDevice packet_fields (S.remaining source.old) (S.remaining source.new) result
        (packet_at version) }
    ensures packed { IfOk result (λ frame. is_some (holding_of frame).packed ≡ true) }
    ensures fresh { IfOk result IsFresh }
    ensures failures { S.failures source.new ≡ failures_after (S.failures source.old) result }
{
    let meta = read_meta_part(alloc, source)?;
    let (kind, bytes) = read_streams_part(alloc, source, version)?;
    let scope_delta = read_details_part(alloc, source, version)?;
    Ok(FrameData {
        scope_delta,
        full_delta: false,
        meta,
        held: Held::Packed(PackedStreams::new(version.text_form(), kind, bytes)),
    })
}

/// Reads the rest of a packet that begins with `PFD` and this letter. Fails with `Legacy` or `Newer` if such packets can't be
/// read.
fn read_version<S: Source>(
    alloc: Global,
    source: &mut S,
    letter: u8,
) -> Result<FrameData, FileError>
    requires { CanFail S.failures source.old }
    ensures part { FromDevice packet_fields (S.remaining source.old) (S.remaining source.new) result
        (version_at letter) }
    ensures packed { IfOk result (λ frame. is_some (holding_of frame).packed ≡ true) }
    ensures fresh { IfOk result IsFresh }
    ensures failures { S.failures source.new ≡ failures_after (S.failures source.old) result }
{
    match Version::from_letter(letter) {
        Some(version) => read_packed(alloc, source, version),
        None => {
            if letter == b'0' || letter == b'1' {
                Err(FileError::Legacy)
            } else {
                Err(FileError::Newer)
            }
        }
    }
}

/// Decodes a legacy frame. Fails with `BadStreams` unless all of the bytes are its layout, with `BadRange` if its range is reversed
/// or too long, and with `Memory`.
fn parse_legacy(alloc: Global, bytes: &[u8]) -> Result<FrameData, FileError>
    ensures decided { DecidedInMemory legacy_of result (legacy_from bytes.now) }
    ensures unpacked { IfOk result (λ frame. (holding_of frame).packed ≡ None) }
    ensures fresh { IfOk result IsFresh }
{
    let (meta, thread_streams) = match legacy_in(alloc, bytes) {
        Ok(frame) => frame,
        Err(Stop::Memory) => return Err(FileError::Memory),
        Err(Stop::NoLayout) => return Err(FileError::BadStreams),
    };
    if !is_valid_range(meta.range_ns) {
        return Err(FileError::BadRange);
    }
    let unpacked = UnpackedFrameData {
        meta,
        thread_streams,
    };
    Ok(FrameData::from_unpacked(unpacked, Vec::new(alloc), false))
}

/// Reads a legacy frame of `len` bytes.
fn read_legacy_part<S: Source>(
    alloc: Global,
    source: &mut S,
    len: usize,
) -> Result<FrameData, FileError>
    requires { CanFail S.failures source.old }
    ensures part { FromDevice legacy_of (S.remaining source.old) (S.remaining source.new) result
        (legacy_part_at len) }
    ensures unpacked { IfOk result (λ frame. (holding_of frame).packed ≡ None) }
    ensures fresh { IfOk result IsFresh }
    ensures failures { S.failures source.new ≡ failures_after (S.failures source.old) result }
{
    let part = read_part(alloc, source, len)?;
    parse_legacy(alloc, &part)
}

/// Reads a header, the four bytes before a frame. Returns `None` at the end: if fewer are left, or they are zeros.
fn read_header<S: Source>(source: &mut S) -> Result<Option<[u8; 4]>, FileError>
    requires { CanFail S.failures source.old }
    ensures header { IfOk result (λ header.
        GivesHeaderOrEnds (S.remaining source.old) (S.remaining source.new) header) }
    ensures io { IsOkUnless result FileError.Io }
    ensures failures { S.failures source.new ≡ failures_after (S.failures source.old) result }
{
    let mut header = [0; 4];
    if read_up_to(source, &mut header)? < 4 {
        return Ok(None);
    }
    if LittleEndian::read_u32(&header) == 0 {
        return Ok(None);
    }
    Ok(Some(header))
}

/// Returns whether a header begins a packet. Otherwise it is the length of a legacy frame.
fn is_packet_header(header: [u8; 4]) -> bool
    ensures { result ≡ is_packet header }
{
    header[0] == b'P' && header[1] == b'F' && header[2] == b'D'
}

/// Reads the frame that follows a header: the rest of a packet, or a legacy frame of the length that the header gives.
fn read_stored<S: Source>(
    alloc: Global,
    source: &mut S,
    header: [u8; 4],
) -> Result<FrameData, FileError>
    requires { CanFail S.failures source.old }
    ensures part { FromDevice (λ frame. Some (stored_of frame)) (S.remaining source.old)
        (S.remaining source.new) result (stored_after header) }
    ensures fresh { IfOk result IsFresh }
    ensures failures { S.failures source.new ≡ failures_after (S.failures source.old) result }
{
    if is_packet_header(header) {
        read_version(alloc, source, header[3])
    } else {
        let len = LittleEndian::read_u32(&header) as usize;
        read_legacy_part(alloc, source, len)
    }
}

impl FrameData {
    /// Reads the next frame, in any version that is still read; `docs/FORMAT.md` lists them. Returns `None` at the end: if fewer
    /// than four bytes are left, or the next four are zeros.
    ///
    /// The frame of a packet is held packed only. A legacy frame, which has a length but no `PFD`, is held unpacked only. The
    /// frame's range isn't reversed, and its duration fits `i64`; `full_delta` is false.
    ///
    /// Fails with the first fault in the bytes: `Legacy` or `Newer` if packets of this version aren't read; `Truncated` if the
    /// bytes end within the frame; `BadMeta`, `BadRange`, `UnknownKind` or `BadScopes` if that part isn't valid; `BadStreams`
    /// if the bytes of a legacy frame aren't valid (the streams of a packet are checked when they are unpacked). At any step it
    /// fails with `Io` if a read fails, and may fail with `Memory`. After an error, how far the source was read is unspecified.
    ///
    /// Scope details are checked before memory for them is allocated, so invalid ones take no memory beyond their bytes.
    ///
    /// ```
    /// let mut source = Counted::new(bytes);
    /// let frame = FrameData::read_next(alloc, &mut source)?;
    /// ```
    pub fn read_next<S: Source>(
        alloc: Global,
        source: &mut S,
    ) -> Result<Option<FrameData>, FileError>
        requires { CanFail S.failures source.old }
        ensures next { ReadsNext (S.remaining source.old) (S.remaining source.new) result }
        // What was read is the frame's packet, or its legacy frame.
        ensures took { IfOk result (λ next. IfSome next (λ frame.
            TookStored (S.remaining source.old) (S.remaining source.new) (stored_of frame))) }
        ensures fresh { IfOk result (λ next. IfSome next IsFresh) }
        ensures failures { S.failures source.new ≡ failures_after (S.failures source.old) result }
    {
        let Some(header) = read_header(source)? else {
            return Ok(None);
        };
        let frame = read_stored(alloc, source, header)?;
        Ok(Some(frame))
    }
}
