//! The ways to hold a frame's streams, and the changes from one to another.

ghost use Rattle.std.specs.Prelude.{◌≡◌, Some, IsOkUnless};
ghost use Rattle.std.specs.Arc.{arc_value};
ghost use Rattle.std.specs.Coded.{Coded-set, coded_option};
ghost use Rattle.puffin_data.specs.Value.Layout.{IsBytes};
ghost use Rattle.puffin_frames.specs.Frame.Streams.{streams_code};
ghost use Rattle.puffin_frames.specs.Frame.Unpacked.{streams_held};
ghost use Rattle.puffin_frames.specs.Frame.Holding.{streams_in};

use crate::frame_data::decode::{self, Stop};
use crate::frame_data::encode::{packed_form, put_streams, streams_size};
use crate::frame_data::kind::Kind;
use crate::frame_data::meta::FrameMeta;
use crate::frame_data::thread_streams::ThreadStreams;
use crate::frame_data::unpacked::UnpackedFrameData;
use puffin_data::data::Form;
use puffin_data::{FileError, Result};
use std::alloc::Global;
use std::sync::Arc;

/// The streams of a frame, packed.
///
/// Uncompressed streams are laid out as in packets of one form: the short form if all streams are short, otherwise the long
/// form, in which each stream's form comes before it.
#[derive(Drop)]
pub(crate) struct PackedStreams {
    /// The form of their packet.
    pub(crate) form: Form,
    /// How they are compressed.
    pub(crate) kind: Kind,
    /// Their bytes in that packet.
    pub(crate) bytes: Vec<u8>,
    ghost are_bytes: { IsBytes bytes.items },
}

/// A frame that was packed and is held unpacked too.
#[derive(Drop)]
pub(crate) struct BothWays {
    /// The unpacked data, shared with those who asked for it.
    pub(crate) unpacked: Arc<UnpackedFrameData>,
    /// The same streams, packed.
    pub(crate) packed: PackedStreams,
    ghost same: { streams_in (record {
      form = packed.form;
      kind = packed.kind;
      bytes = packed.bytes.items;
    })
        ≡ Some (streams_held (arc_value unpacked)) } by { Coded-set (coded_option streams_code) _ _ },
}

/// The ways to hold a frame.
#[derive(Drop)]
pub(crate) enum Held {
    /// Unpacked, in this frame alone.
    Own(UnpackedFrameData),
    /// Unpacked, and shared with those who asked for it.
    Shared(Arc<UnpackedFrameData>),
    /// Packed only.
    Packed(PackedStreams),
    /// Packed and unpacked.
    Both(BothWays),
}

impl PackedStreams {
    ghost use Rattle.std.specs.Prelude.{IfOk, IfErr};
    ghost use Rattle.puffin_frames.specs.Frame.Holding.{plainly_packed, unpacking};
    ghost use Rattle.puffin_data.specs.declared.error.Error.{Error};
    ghost use Rattle.puffin_frames.specs.Frame.Streams.{shared_streams};
    ghost use Rattle.puffin_frames.specs.Frame.Contents.{packed_as};
    ghost use Rattle.puffin_frames.specs.Frame.Sums.{IsRange};
    ghost use Rattle.puffin_frames.specs.Packet.Tries.{DecidedInMemory};

    /// Makes packed streams from their bytes. Allocates nothing.
    pub(crate) fn new(form: Form, kind: Kind, bytes: Vec<u8>) -> PackedStreams
        ensures { packed_as result ≡ record { form = form; kind = kind; bytes = bytes.items } }
    {
        PackedStreams { form, kind, bytes }
    }

    /// Packs streams, uncompressed. Fails only with `Memory`.
    pub(crate) fn of(alloc: Global, streams: &ThreadStreams) -> Result<PackedStreams>
        ensures ok { IfOk result (λ packed.
            packed_as packed ≡ plainly_packed (shared_streams streams.now.entries)) }
        ensures content { IfOk result (λ packed.
            streams_in (packed_as packed) ≡ Some (shared_streams streams.now.entries)) }
        ensures memory { IsOkUnless result Error.Memory }
    {
        let form = packed_form(streams);
        let mut bytes = Vec::with_capacity(alloc, streams_size(streams))?;
        put_streams(&mut bytes, form, streams)?;
        Ok(PackedStreams::new(form, Kind::Uncompressed, bytes))
    }

    /// Copies the packed streams. Fails only with `Memory`.
    fn clone(&self) -> Result<PackedStreams>
        ensures ok { IfOk result (λ copy. packed_as copy ≡ packed_as self.now) }
        ensures memory { IsOkUnless result Error.Memory }
    {
        let bytes = Vec::from_slice(*self.bytes.allocator(), self.bytes.as_slice())?;
        Ok(PackedStreams::new(self.form, self.kind, bytes))
    }

    /// Unpacks the streams. Fails with `Compressed` if they are compressed, with `BadStreams` if the bytes aren't a layout of
    /// streams, and with `Memory`.
    fn unpack(&self, alloc: Global) -> std::result::Result<ThreadStreams, FileError>
        ensures { DecidedInMemory (λ streams. shared_streams streams.entries) result (
            unpacking (packed_as self.now)) }
    {
        if !self.kind.is_uncompressed() {
            return Err(FileError::Compressed(self.kind.to_byte()));
        }
        match decode::streams_in(alloc, self.form, &self.bytes) {
            Ok(streams) => Ok(streams),
            Err(Stop::Memory) => Err(FileError::Memory),
            Err(Stop::NoLayout) => Err(FileError::BadStreams),
        }
    }

    /// Unpacks the streams of a frame with this meta. Fails as [`PackedStreams::unpack`] does, and with `Memory`.
    fn unpacked_frame(
        &self,
        alloc: Global,
        meta: FrameMeta,
    ) -> std::result::Result<Arc<UnpackedFrameData>, FileError>
        requires { IsRange meta.range_ns }
        ensures ok { DecidedInMemory (λ frame. streams_held (arc_value frame)) result (
            unpacking (packed_as self.now)) }
        ensures meta { IfOk result (λ frame. (arc_value frame).meta ≡ meta) }
    {
        let thread_streams = self.unpack(alloc)?;
        let frame = UnpackedFrameData {
            meta,
            thread_streams,
        };
        Ok(Arc::new(alloc, frame)?)
    }
}

impl Held {
    ghost use Rattle.std.specs.Prelude.{None, IfOk, IfErr, OnOk, OnErr};
    ghost use Rattle.puffin_frames.specs.Frame.Holding.{unpacking, unpacked_from, packing_of, holding_streams, as_packed, as_unpacked};
    ghost use Rattle.puffin_data.specs.declared.error.Error.{Error};
    ghost use Rattle.puffin_data.specs.declared.file_error.FileError.{FileError};
    ghost use Rattle.puffin_frames.specs.Frame.Contents.{packed_as, held_as, held_meta, HasMeta};
    ghost use Rattle.puffin_frames.specs.Frame.Sums.{IsRange};
    ghost use Rattle.puffin_frames.specs.Packet.Tries.{DecidedInMemory};

    /// Makes a placeholder for `mem::replace`. Allocates nothing.
    pub(crate) fn nothing(alloc: Global) -> Held {
        Held::Packed(PackedStreams::new(Form::Short, Kind::Uncompressed, Vec::new(alloc)))
    }

    /// Packs the frame's streams, or copies those that are packed already. Fails only with `Memory`.
    pub(crate) fn packed_copy(&self, alloc: Global) -> Result<PackedStreams>
        ensures ok { IfOk result (λ copy. packed_as copy ≡ packing_of (held_as self.now)) }
        ensures streams { IfOk result (λ copy.
            streams_in (packed_as copy) ≡ holding_streams (held_as self.now)) }
        ensures memory { IsOkUnless result Error.Memory }
    {
        match self {
            Held::Own(frame) => PackedStreams::of(alloc, &frame.thread_streams),
            Held::Shared(frame) => PackedStreams::of(alloc, &frame.thread_streams),
            Held::Packed(packed) => packed.clone(),
            Held::Both(both) => both.packed.clone(),
        }
    }

    /// Packs the frame, and drops what is unpacked. Fails only with `Memory`; the frame is then returned as it was.
    pub(crate) fn pack(self, alloc: Global) -> (Held, Result<()>)
        ensures ok { OnOk result.1 (held_as result.0 ≡ as_packed (held_as self)) }
        ensures packing { packing_of (held_as result.0) ≡ packing_of (held_as self) }
        ensures streams { holding_streams (held_as result.0) ≡ holding_streams (held_as self) }
        ensures err { OnErr result.1 (result.0 ≡ self) }
        ensures meta { OnOk result.1 (held_meta result.0 ≡ None) }
        ensures memory { IfErr result.1 (λ cause. cause ≡ Error.Memory) }
    {
        match self {
            Held::Packed(packed) => (Held::Packed(packed), Ok(())),
            Held::Both(both) => (Held::Packed(both.packed), Ok(())),
            unpacked => match unpacked.packed_copy(alloc) {
                Ok(packed) => (Held::Packed(packed), Ok(())),
                Err(cause) => (unpacked, Err(cause)),
            },
        }
    }

    /// Unpacks the frame, whose meta this is, keeps what is packed, and returns its unpacked data. If it fails, the returned
    /// frame is held as before.
    pub(crate) fn unpack(
        self,
        alloc: Global,
        meta: FrameMeta,
    ) -> (Held, std::result::Result<Arc<UnpackedFrameData>, FileError>)
        requires range { IsRange meta.range_ns }
        requires meta { HasMeta self meta }
        ensures ok { OnOk result.1 (held_as result.0 ≡ as_unpacked (held_as self)) }
        ensures packing { packing_of (held_as result.0) ≡ packing_of (held_as self) }
        ensures streams { holding_streams (held_as result.0) ≡ holding_streams (held_as self) }
        ensures err { OnErr result.1 (held_as result.0 ≡ held_as self) }
        ensures meta { HasMeta result.0 meta }

        // The answer.
        ensures unpacked { DecidedInMemory (λ frame. streams_held (arc_value frame)) result.1
            (unpacked_from (held_as self)) }
        ensures unpacked_meta { IfOk result.1 (λ frame. (arc_value frame).meta ≡ meta) }
    {
        match self {
            Held::Own(frame) => Held::share(alloc, frame),
            Held::Shared(frame) => {
                let same = Held::lend(&frame);
                (Held::Shared(frame), same)
            }
            Held::Packed(packed) => Held::unpack_too(alloc, meta, packed),
            Held::Both(both) => {
                let same = Held::lend(&both.unpacked);
                (Held::Both(both), same)
            }
        }
    }

    /// Copies the frame; the copy shares unpacked streams. Fails only with `Memory`.
    pub(crate) fn clone(&self, alloc: Global) -> Result<Held>
        ensures ok { IfOk result (λ copy. held_as copy ≡ held_as self.now) }
        ensures meta { IfOk result (λ copy. held_meta copy ≡ held_meta self.now) }
        ensures memory { IsOkUnless result Error.Memory }
    {
        Ok(match self {
            Held::Own(frame) => Held::Own(frame.clone(alloc)?),
            Held::Shared(frame) => Held::Shared(Arc::try_clone(frame)?),
            Held::Packed(packed) => Held::Packed(packed.clone()?),
            Held::Both(both) => Held::Both(both.clone()?),
        })
    }

    /// Returns another `Arc` of the same unpacked data. Fails only with `Memory`.
    fn lend(
        frame: &Arc<UnpackedFrameData>,
    ) -> std::result::Result<Arc<UnpackedFrameData>, FileError>
        ensures ok { IfOk result (λ same. arc_value same ≡ arc_value frame.now) }
        ensures memory { IsOkUnless result FileError.Memory }
    {
        Ok(Arc::try_clone(frame)?)
    }

    /// Moves unpacked data into an `Arc`, and returns a clone of it. Fails only with `Memory`; the frame then holds the same
    /// data.
    fn share(
        alloc: Global,
        frame: UnpackedFrameData,
    ) -> (Held, std::result::Result<Arc<UnpackedFrameData>, FileError>)
        ensures held { held_as result.0
            ≡ record { packed = None; unpacked = Some (streams_held frame) } }
        ensures meta { held_meta result.0 ≡ Some frame.meta }
        ensures ok { IfOk result.1 (λ same. arc_value same ≡ frame) }
        ensures memory { IfErr result.1 (λ cause. cause ≡ FileError.Memory) }
    {
        match Arc::new(alloc, frame) {
            Ok(shared) => {
                let same = Held::lend(&shared);
                (Held::Shared(shared), same)
            }
            Err(refused) => (Held::Own(refused.value), Err(FileError::Memory)),
        }
    }

    /// Unpacks packed streams of a frame with this meta, keeps what is packed, and returns the unpacked data. If it fails,
    /// nothing is unpacked.
    fn unpack_too(
        alloc: Global,
        meta: FrameMeta,
        packed: PackedStreams,
    ) -> (Held, std::result::Result<Arc<UnpackedFrameData>, FileError>)
        requires { IsRange meta.range_ns }
        ensures ok { IfOk result.1 (λ frame.
            held_as result.0 ≡ record {
              packed = Some (packed_as packed);
              unpacked = Some (streams_held (arc_value frame));
            }) }
        ensures err { OnErr result.1 (
            held_as result.0 ≡ record { packed = Some (packed_as packed); unpacked = None }) }
        ensures meta { HasMeta result.0 meta }
        ensures unpacked { DecidedInMemory (λ frame. streams_held (arc_value frame)) result.1 (
            unpacking (packed_as packed)) }
        ensures unpacked_meta { IfOk result.1 (λ frame. (arc_value frame).meta ≡ meta) }
    {
        let unpacked = match packed.unpacked_frame(alloc, meta) {
            Ok(unpacked) => unpacked,
            Err(cause) => return (Held::Packed(packed), Err(cause)),
        };
        match Held::lend(&unpacked) {
            Ok(same) => (Held::Both(BothWays { unpacked, packed }), Ok(same)),
            Err(cause) => (Held::Packed(packed), Err(cause)),
        }
    }
}

impl BothWays {
    ghost use Rattle.std.specs.Prelude.{IfOk, IfErr};
    ghost use Rattle.puffin_data.specs.declared.error.Error.{Error};
    ghost use Rattle.puffin_frames.specs.Frame.Contents.{packed_as};

    /// Copies the frame; the copy shares the unpacked data. Fails only with `Memory`.
    fn clone(&self) -> Result<BothWays>
        ensures packed { IfOk result (λ copy. packed_as copy.packed ≡ packed_as self.now.packed) }
        ensures unpacked { IfOk result (λ copy.
            arc_value copy.unpacked ≡ arc_value self.now.unpacked) }
        ensures memory { IsOkUnless result Error.Memory }
    {
        let packed = self.packed.clone()?;
        let unpacked = Arc::try_clone(&self.unpacked)?;
        Ok(BothWays { unpacked, packed })
    }
}
