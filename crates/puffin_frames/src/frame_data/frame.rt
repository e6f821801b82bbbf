ghost use Rattle.std.specs.Prelude.{◌≡◌, ◌-ℤ◌, ◌≤ℤ◌, FitsSigned, IfOk, IsOkUnless};
ghost use Rattle.std.specs.Int.{w64};
ghost use Rattle.puffin_data.specs.declared.error.Error.{Error};
ghost use Rattle.puffin_frames.specs.Frame.Variants.{HasMeta, HasMeta-prop};
ghost use Rattle.puffin_threads.specs.Details.{shared_details};

use crate::frame_data::held::Held;
use crate::frame_data::meta::FrameMeta;
use crate::frame_data::packing_info::PackingInfo;
use crate::frame_data::unpacked::UnpackedFrameData;
use puffin_data::data::StreamInfo;
use puffin_data::{Error, FileError, FrameIndex, NanoSecond, Result};
use puffin_threads::scope_details::ScopeDetails;
use puffin_threads::thread_profiler::ThreadInfo;
use std::alloc::Global;
use std::collections::BTreeMap;
use std::mem;
use std::sync::Arc;

/// A frame, with the details of the scopes that are new in it. It holds its streams unpacked, packed (as their bytes in a
/// packet), or both ways.
///
/// ```
/// frame.pack()?;
/// frame.write_into(None, &mut drain)?;
/// ```
#[derive(Drop)]
pub struct FrameData {
    /// The details of the scopes that are new in this frame. If `full_delta` is set, also those of all scopes known before.
    pub scope_delta: Vec<Arc<ScopeDetails>>,
    /// Whether `scope_delta` also has the details of all scopes known before.
    pub full_delta: bool,
    /// The index and the totals, which stay the same however the streams are held.
    pub(crate) meta: FrameMeta,
    /// The streams.
    pub(crate) held: Held,
    ghost ordered: { meta.range_ns.0 ≤ℤ meta.range_ns.1 },
    ghost duration_fits: { FitsSigned w64 (meta.range_ns.1 -ℤ meta.range_ns.0) },
    ghost same_meta: { HasMeta held meta } by { HasMeta-prop held meta },
}

/// Copies a list of details; the copy shares them. Fails only with `Memory`.
fn shared_copy(details: &Vec<Arc<ScopeDetails>>) -> Result<Vec<Arc<ScopeDetails>>>
    ensures ok { IfOk result (λ copy.
        shared_details copy.items ≡ shared_details details.now.items) }
    ensures memory { IsOkUnless result Error.Memory }
{
    let mut copy = Vec::new(*details.allocator());
    'details: for one in details {
        copy.push(Arc::try_clone(one)?)?;
    }
    Ok(copy)
}

impl FrameData {
    ghost use Rattle.std.specs.Prelude.{IfErr, IfSome, Some, None, ◌+◌, ◌-◌, ◌^◌, min, length, is_some, Err, OnOk, OnErr, IsTrue};
    ghost use Rattle.std.specs.Option.{option_map, unwrap_or};
    ghost use Rattle.std.specs.FinMap as map;
    ghost use Rattle.std.specs.Arc.{arc_value};
    ghost use Rattle.puffin_data.specs.declared.file_error.FileError.{FileError};
    ghost use Rattle.puffin_frames.specs.Frame.Sums.{MakeFrame, meta_of, RefusesFrame};
    ghost use Rattle.puffin_frames.specs.Frame.Contents.{streams_of, all_facts, streams_held, holding_of, frame_streams, frame_meta, is_alone, Streams, packet_fields, streams_in_fields};
    ghost use Rattle.puffin_frames.specs.Frame.Holding.{as_packed, as_unpacked, HoldsStreams};
    ghost use Rattle.puffin_frames.specs.Packet.Tries.{DecidedInMemory};

    /// Makes frame `frame_index` from these streams. Fails as [`UnpackedFrameData::new`] does, and then drops the streams and
    /// the details.
    ///
    /// ```
    /// let frame = FrameData::new(alloc, 7, streams, Vec::new(alloc), false)?;
    /// ```
    pub fn new(
        alloc: Global,
        frame_index: FrameIndex,
        thread_streams: BTreeMap<ThreadInfo, StreamInfo>,
        scope_delta: Vec<Arc<ScopeDetails>>,
        full_delta: bool,
    ) -> Result<FrameData>
        ensures delta { IfOk result (λ frame.
            (frame.scope_delta ≡ scope_delta) × (frame.full_delta ≡ full_delta)) }
        ensures streams { IfOk result (λ frame.
            holding_of frame
            ≡ record { packed = None; unpacked = Some (streams_of thread_streams.entries) }) }
        ensures alone { IfOk result (λ frame. IsTrue (is_alone frame)) }
        ensures meta { IfOk result (λ frame.
            frame_meta frame
            ≡ meta_of frame_index (map.values (streams_of thread_streams.entries))) }
        ensures makes { OnOk result (MakeFrame (all_facts thread_streams)) }
        ensures refusal { IfErr result (λ cause. RefusesFrame (all_facts thread_streams) cause) }
    {
        let unpacked = UnpackedFrameData::new(alloc, frame_index, thread_streams)?;
        Ok(FrameData::from_unpacked(unpacked, scope_delta, full_delta))
    }

    /// Makes a frame that holds this data unpacked, with these details. Allocates nothing.
    pub fn from_unpacked(
        unpacked: UnpackedFrameData,
        scope_delta: Vec<Arc<ScopeDetails>>,
        full_delta: bool,
    ) -> FrameData
        ensures delta { (result.scope_delta ≡ scope_delta) × (result.full_delta ≡ full_delta) }
        ensures held { holding_of result
            ≡ record { packed = None; unpacked = Some (streams_held unpacked) } }
        ensures alone { IsTrue (is_alone result) }
        ensures meta { frame_meta result ≡ unpacked.meta }
    {
        FrameData {
            scope_delta,
            full_delta,
            meta: unpacked.meta,
            held: Held::Own(unpacked),
        }
    }

    /// Returns the unpacked data, and drops the details. The frame must be held as [`FrameData::from_unpacked`] makes it:
    /// unpacked only, with data that [`FrameData::unpacked`] hasn't shared. Allocates nothing.
    pub fn into_unpacked(self) -> UnpackedFrameData
        requires { IsTrue (is_alone self) }
        ensures streams { Some (streams_held result) ≡ frame_streams self }
        ensures meta { result.meta ≡ frame_meta self }
    {
        let FrameData { held, .. } = self;
        match held {
            Held::Own(unpacked) => unpacked,
            _ => unreachable!(),
        }
    }

    /// Returns the unpacked data, or `None` if the frame is only held packed.
    pub fn as_unpacked(&self) -> Option<&UnpackedFrameData>
        ensures streams { option_map (λ unpacked. streams_held unpacked.now) result
            ≡ (holding_of self.now).unpacked }
        ensures meta { IfSome result (λ unpacked. unpacked.now.meta ≡ frame_meta self.now) }
    {
        match &self.held {
            Held::Own(unpacked) => Some(unpacked),
            Held::Shared(unpacked) => Some(unpacked),
            Held::Packed(_) => None,
            Held::Both(both) => Some(&both.unpacked),
        }
    }

    /// Returns the index and the totals of the frame.
    pub fn meta(&self) -> &FrameMeta
        ensures { result.now ≡ frame_meta self.now }
    {
        &self.meta
    }

    /// Returns the number of the frame.
    pub fn frame_index(&self) -> FrameIndex
        ensures { result ≡ (frame_meta self.now).frame_index }
    {
        self.meta.frame_index
    }

    /// Returns the least start and the greatest stop of all scopes, in nanoseconds.
    pub fn range_ns(&self) -> (NanoSecond, NanoSecond)
        ensures range { result ≡ (frame_meta self.now).range_ns }
        ensures ordered { result.0 ≤ℤ result.1 }
    {
        self.meta.range_ns
    }

    /// Returns the time from the least start to the greatest stop, in nanoseconds.
    pub fn duration_ns(&self) -> NanoSecond
        ensures { result ≡ (frame_meta self.now).range_ns.1 -ℤ (frame_meta self.now).range_ns.0 }
    {
        let (start, stop) = self.meta.range_ns;
        stop - start
    }

    /// Copies the frame; the copy is held in the same ways. It shares the details and any unpacked streams. Fails only with
    /// `Memory`.
    pub fn clone(&self) -> Result<FrameData>
        ensures held { IfOk result (λ copy. holding_of copy ≡ holding_of self.now) }
        ensures fields { IfOk result (λ copy. packet_fields copy ≡ packet_fields self.now) }
        ensures full_delta { IfOk result (λ copy. copy.full_delta ≡ self.now.full_delta) }
        ensures memory { IsOkUnless result Error.Memory }
    {
        let alloc = *self.scope_delta.allocator();
        Ok(FrameData {
            scope_delta: shared_copy(&self.scope_delta)?,
            full_delta: self.full_delta,
            meta: self.meta,
            held: self.held.clone(alloc)?,
        })
    }

    /// Packs the streams and drops the unpacked ones. Streams that are packed already aren't packed again.
    ///
    /// Fails only with `Memory`; nothing changes then.
    pub fn pack(&mut self) -> Result<()>
        ensures ok { OnOk result (holding_of self.new ≡ as_packed (holding_of self.old)) }
        ensures streams { frame_streams self.new ≡ frame_streams self.old }
        ensures fields { packet_fields self.new ≡ packet_fields self.old }
        ensures full_delta { self.new.full_delta ≡ self.old.full_delta }
        ensures err { OnErr result (self.new ≡ self.old) }
        ensures memory { IsOkUnless result Error.Memory }
    {
        let alloc = *self.scope_delta.allocator();
        let held = mem::replace(&mut self.held, Held::nothing(alloc));
        let (held, answer) = held.pack(alloc);
        self.held = held;
        answer
    }

    /// Copies the frame; the copy is held packed only. Fails only with `Memory`.
    pub fn packed_copy(&self) -> Result<FrameData>
        ensures held { IfOk result (λ copy. holding_of copy ≡ as_packed (holding_of self.now)) }
        ensures streams { IfOk result (λ copy. frame_streams copy ≡ frame_streams self.now) }
        ensures fields { IfOk result (λ copy. packet_fields copy ≡ packet_fields self.now) }
        ensures full_delta { IfOk result (λ copy. copy.full_delta ≡ self.now.full_delta) }
        ensures memory { IsOkUnless result Error.Memory }
    {
        let alloc = *self.scope_delta.allocator();
        Ok(FrameData {
            scope_delta: shared_copy(&self.scope_delta)?,
            full_delta: self.full_delta,
            meta: self.meta,
            held: Held::Packed(self.held.packed_copy(alloc)?),
        })
    }

    /// Returns the unpacked data. A frame that was held packed only is then held both ways.
    ///
    /// Fails with `Compressed` if the packed streams are compressed, with `BadStreams` if their bytes aren't a
    /// layout of streams, and with `Memory`; the frame is then held as before.
    pub fn unpacked(&mut self) -> std::result::Result<Arc<UnpackedFrameData>, FileError>
        ensures unpacked { DecidedInMemory (λ frame. streams_held (arc_value frame)) result (
            streams_in_fields (packet_fields self.old)) }
        // Unpacking gives the streams whose layout the packed bytes are.
        ensures layout { IfOk result (λ frame.
            IfSome (holding_of self.old).packed (λ packed.
            HoldsStreams packed (streams_held (arc_value frame)))) }
        ensures no_layout { result ≡ Err FileError.BadStreams →
            IfSome (holding_of self.old).packed (λ packed.
            (streams : Streams) → HoldsStreams packed streams → ⊥) }
        ensures meta { IfOk result (λ frame. (arc_value frame).meta ≡ frame_meta self.old) }

        // Only how the frame is held changes.
        ensures ok { OnOk result (holding_of self.new ≡ as_unpacked (holding_of self.old)) }
        ensures streams { frame_streams self.new ≡ frame_streams self.old }
        ensures fields { packet_fields self.new ≡ packet_fields self.old }
        ensures full_delta { self.new.full_delta ≡ self.old.full_delta }
        ensures err { OnErr result (holding_of self.new ≡ holding_of self.old) }
    {
        let alloc = *self.scope_delta.allocator();
        let held = mem::replace(&mut self.held, Held::nothing(alloc));
        let (held, answer) = held.unpack(alloc, self.meta);
        self.held = held;
        answer
    }

    /// Returns the size of the packed streams in bytes, or `None` if the frame isn't held packed.
    pub fn packed_size(&self) -> Option<usize>
        ensures { result ≡ option_map (λ packed. length packed.bytes) (holding_of self.now).packed }
    {
        match &self.held {
            Held::Own(_) | Held::Shared(_) => None,
            Held::Packed(packed) => Some(packed.bytes.len()),
            Held::Both(both) => Some(both.packed.bytes.len()),
        }
    }

    /// Returns the size of the streams in bytes, as given in the meta, or `None` if the frame isn't held unpacked.
    pub fn unpacked_size(&self) -> Option<usize>
        ensures { result
            ≡ option_map (λ _. (frame_meta self.now).num_bytes) (holding_of self.now).unpacked }
    {
        Some(self.as_unpacked()?.meta.num_bytes)
    }

    /// Returns the number of bytes that the streams take: the sum of [`FrameData::packed_size`] and
    /// [`FrameData::unpacked_size`], where `None` counts as 0, or `usize::MAX` if the sum is greater.
    pub fn bytes_of_ram_used(&self) -> usize
        ensures { result ≡ min
            (unwrap_or
            (option_map (λ _. (frame_meta self.now).num_bytes)
            (holding_of self.now).unpacked)
            0
            + unwrap_or (option_map (λ packed. length packed.bytes) (holding_of self.now).packed) 0)
            (2 ^ 64 - 1) }
    {
        let unpacked_size = self.unpacked_size().unwrap_or(0);
        unpacked_size.saturating_add(self.packed_size().unwrap_or(0))
    }

    /// Returns the unpacked and the packed size.
    pub fn packing_info(&self) -> PackingInfo
        ensures unpacked_size { result.unpacked_size
            ≡ option_map (λ _. (frame_meta self.now).num_bytes) (holding_of self.now).unpacked }
        ensures packed_size { result.packed_size
            ≡ option_map (λ packed. length packed.bytes) (holding_of self.now).packed }
    {
        PackingInfo {
            unpacked_size: self.unpacked_size(),
            packed_size: self.packed_size(),
        }
    }

    /// Returns whether the frame is held packed.
    pub fn has_packed(&self) -> bool
        ensures { result ≡ is_some (holding_of self.now).packed }
    {
        self.packed_size().is_some()
    }

    /// Returns whether the frame is held unpacked.
    pub fn has_unpacked(&self) -> bool
        ensures { result ≡ is_some (holding_of self.now).unpacked }
    {
        self.as_unpacked().is_some()
    }
}
