//! Writing frames to any writer.

ghost use Rattle.std.specs.Prelude.{◌≡◌, ◌+◌, ◌++◌, ◌^◌, ◌<◌, ◌≤◌, ◌⊎◌, Some, None, IfOk, IfErr, OnOk, OnErr, option_map, length, IsOkUnless};
ghost use Rattle.std.specs.Io.KnownBytes.{Appends};
ghost use Rattle.puffin_data.specs.declared.file_error.FileError.{FileError};
ghost use Rattle.puffin_data.specs.Device.{CanFail, TookNothing, WritesBeginning};
ghost use Rattle.std.specs.FinMap.{values};
ghost use Rattle.puffin_threads.specs.Details.{shared_details};
ghost use Rattle.puffin_frames.specs.declared.frame_data.kind.Kind.{Kind};
ghost use Rattle.puffin_frames.specs.Packet.Structs.{meta_layout, IsMeta, details_layout, AreDetails};
ghost use Rattle.puffin_frames.specs.Frame.Contents.{frame_details, shared_streams};
ghost use Rattle.puffin_frames.specs.Frame.Holding.{plainly_packed};
ghost use Rattle.puffin_frames.specs.Packet.Grammar.{packet_head, packet_with, packet, IsPacked};
ghost use Rattle.puffin_frames.specs.Packet.Writing.{details_or, fields_with, HasLongPart, WritesPacket};

use crate::frame_data::encode::{META_SIZE, put_details, put_details_by_id, put_meta};
use crate::frame_data::frame::FrameData;
use crate::frame_data::held::{Held, PackedStreams};
use crate::frame_data::kind::Kind;
use crate::frame_data::meta::FrameMeta;
use crate::frame_data::thread_streams::ThreadStreams;
use crate::frame_data::version::Version;
use puffin_data::FileError;
use puffin_data::data::{Drain, Form, write_all};
use puffin_threads::scope_details::{ScopeCollection, ScopeDetails};
use std::alloc::Global;
use std::sync::Arc;

/// The number of bytes before a packet's streams, not counting the meta: the letters, two lengths and the kind.
const PACKET_HEAD_SIZE: usize = 13;

/// Writes two pieces, one after the other.
fn write_both<D: Drain>(drain: &mut D, first: &[u8], second: &[u8]) -> Result<(), FileError>
    requires { CanFail D.failures drain.old }
    ensures ok { OnOk result (
        Appends (D.contents drain.old) (D.contents drain.new) (first.now ++ second.now)) }
    ensures err { OnErr result (
        WritesBeginning (D.contents drain.old) (D.contents drain.new) (
        first.now ++ second.now)) }
    ensures io { IfErr result (λ cause.
        (cause ≡ FileError.Io)
        × ((D.failures drain.new ≡ D.failures drain.old + 1) ⊎ TookNothing D.takes drain.new)) }
    ensures failures { OnOk result (D.failures drain.new ≡ D.failures drain.old) }
{
    write_all(drain, first)?;
    write_all(drain, second)
}

/// Encodes a meta. Fails only with `Memory`.
fn meta_part(alloc: Global, meta: FrameMeta) -> Result<Vec<u8>, FileError>
    ensures ok { IfOk result (λ bytes. bytes.items ≡ meta_layout meta) }
    ensures short { length (meta_layout meta) < 2 ^ 32 }
    ensures fits { IsMeta meta }
    ensures memory { IsOkUnless result FileError.Memory }
{
    let mut bytes = Vec::with_capacity(alloc, META_SIZE)?;
    put_meta(&mut bytes, &meta)?;
    Ok(bytes)
}

/// Encodes the front of a packet: its letters, its meta part, and the length and the kind of its streams. Fails only with
/// `Memory`.
#[tactic(auto, unfolding(crate::specs::Packet::Grammar::packet_head))]
fn head(
    alloc: Global,
    form: Form,
    meta: &FrameMeta,
    kind: Kind,
    len: u32,
) -> Result<Vec<u8>, FileError>
    ensures ok { IfOk result (λ bytes. bytes.items ≡ packet_head form meta.now kind len) }
    ensures fits { IsMeta meta.now }
    ensures memory { IsOkUnless result FileError.Memory }
{
    let part = meta_part(alloc, *meta)?;
    let mut bytes = Vec::with_capacity(alloc, PACKET_HEAD_SIZE + part.len())?;
    bytes.extend_from_slice(Version::for_form(form).letters())?;
    bytes.extend_from_slice(&(part.len() as u32).to_le_bytes())?;
    bytes.extend_from_slice(&part)?;
    bytes.extend_from_slice(&len.to_le_bytes())?;
    bytes.push(kind.to_byte())?;
    Ok(bytes)
}

/// Writes the packet of a frame whose streams are packed.
fn write_packed<D: Drain>(
    alloc: Global,
    meta: &FrameMeta,
    streams: &PackedStreams,
    details: &[u8],
    drain: &mut D,
) -> Result<(), FileError>
    requires { CanFail D.failures drain.old }
    ensures written { WritesPacket D.contents D.failures D.takes drain.old drain.new
        (packet_with streams.now.form meta.now streams.now.kind streams.now.bytes.items
        details.now)
        ((2 ^ 32 ≤ length streams.now.bytes.items) ⊎ (2 ^ 32 ≤ length details.now)) result }
    ensures short { OnOk result (
        (length streams.now.bytes.items < 2 ^ 32) × (length details.now < 2 ^ 32)) }
    ensures fits { OnOk result (IsMeta meta.now) }
{
    if streams.bytes.len() > u32::MAX as usize || details.len() > u32::MAX as usize {
        return Err(FileError::PartTooLong);
    }
    let len = streams.bytes.len() as u32;
    let head = head(alloc, streams.form, meta, streams.kind, len)?;
    write_both(drain, &head, &streams.bytes)?;
    write_both(drain, &(details.len() as u32).to_le_bytes(), details)
}

/// Writes the packet of a frame that is held unpacked.
fn write_unpacked<D: Drain>(
    alloc: Global,
    meta: &FrameMeta,
    streams: &ThreadStreams,
    details: &[u8],
    drain: &mut D,
) -> Result<(), FileError>
    requires { CanFail D.failures drain.old }
    ensures written { WritesPacket D.contents D.failures D.takes drain.old drain.new
        (packet_with (plainly_packed (shared_streams streams.now.entries)).form meta.now
        Kind.Uncompressed (plainly_packed (shared_streams streams.now.entries)).bytes details.now)
        ((2 ^ 32 ≤ length (plainly_packed (shared_streams streams.now.entries)).bytes)
        ⊎ (2 ^ 32 ≤ length details.now)) result }
    ensures short { OnOk result (
        (length (plainly_packed (shared_streams streams.now.entries)).bytes < 2 ^ 32)
        × (length details.now < 2 ^ 32)) }
    ensures fits { OnOk result (IsMeta meta.now) }
{
    let packed = PackedStreams::of(alloc, streams)?;
    write_packed(alloc, meta, &packed, details, drain)
}

/// Encodes a list of details. Fails only with `Memory`.
fn delta_part(alloc: Global, details: &[Arc<ScopeDetails>]) -> Result<Vec<u8>, FileError>
    ensures ok { IfOk result (λ bytes. bytes.items ≡ details_layout (shared_details details.now)) }
    ensures fit { OnOk result (AreDetails (shared_details details.now)) }
    ensures memory { IsOkUnless result FileError.Memory }
{
    let mut bytes = Vec::new(alloc);
    put_details(&mut bytes, details)?;
    Ok(bytes)
}

/// Encodes the details of a collection as a list, in ascending order of id. Fails only with `Memory`.
fn collection_part(alloc: Global, scopes: &ScopeCollection) -> Result<Vec<u8>, FileError>
    ensures ok { IfOk result (λ bytes. bytes.items ≡ details_layout (values scopes.now.by_id)) }
    ensures fit { OnOk result (AreDetails (values scopes.now.by_id)) }
    ensures memory { IsOkUnless result FileError.Memory }
{
    let mut bytes = Vec::new(alloc);
    put_details_by_id(&mut bytes, scopes.scopes_by_id())?;
    Ok(bytes)
}

impl FrameData {
    /// Encodes the details of the collection if one is given, otherwise the frame's own. Fails only with `Memory`.
    fn details_part(&self, scopes: Option<&ScopeCollection>) -> Result<Vec<u8>, FileError>
        ensures ok { IfOk result (λ bytes.
            bytes.items ≡ details_layout (
            details_or (frame_details self.now) (
            option_map (λ given. given.now) scopes.entry))) }
        ensures fit { OnOk result (
            AreDetails (
            details_or (frame_details self.now) (option_map (λ given. given.now) scopes.entry))) }
        ensures memory { IsOkUnless result FileError.Memory }
    {
        let alloc = *self.scope_delta.allocator();
        match scopes {
            Some(scopes) => collection_part(alloc, scopes),
            None => delta_part(alloc, &self.scope_delta),
        }
    }

    /// Writes the frame as one packet in the format that `docs/FORMAT.md` describes: `PFD4`, or `PFDL` if a stream is of the
    /// long form. The packet has the details of `scopes` in ascending order of id or, if `scopes` is `None`, the frame's own.
    /// Streams that are packed are written as they are.
    ///
    /// Fails with `PartTooLong` if a part has `2^32` bytes or more, with `Memory`, or with `Io` if a write fails or takes none
    /// of the bytes that are left. After `Io` a prefix of the packet has been written; after any other error, nothing.
    ///
    /// ```
    /// let mut drain = Counted::new(Vec::new(alloc));
    /// frame.write_into(None, &mut drain)?;
    /// ```
    pub fn write_into<D: Drain>(
        &self,
        scopes: Option<&ScopeCollection>,
        drain: &mut D,
    ) -> Result<(), FileError>
        requires { CanFail D.failures drain.old }
        ensures written { WritesPacket D.contents D.failures D.takes drain.old drain.new
            (packet (fields_with self.now (option_map (λ given. given.now) scopes.entry)))
            (HasLongPart (fields_with self.now (option_map (λ given. given.now) scopes.entry)))
            result }
        // A packet that is written can be read again.
        ensures packed { OnOk result (
            IsPacked (fields_with self.now (option_map (λ given. given.now) scopes.entry))) }
    {
        let alloc = *self.scope_delta.allocator();
        let details = self.details_part(scopes)?;
        let meta = &self.meta;
        match &self.held {
            Held::Own(frame) => write_unpacked(alloc, meta, &frame.thread_streams, &details, drain),
            Held::Shared(frame) => write_unpacked(
                alloc,
                meta,
                &frame.thread_streams,
                &details,
                drain,
            ),
            Held::Packed(packed) => write_packed(alloc, meta, packed, &details, drain),
            Held::Both(both) => write_packed(alloc, meta, &both.packed, &details, drain),
        }
    }
}
