//! Laws of frames and packets. Each is the contract of a function that does nothing; a proof of another crate cites it by
//! calling the function.

ghost use Rattle.std.specs.Prelude.{List, ℕ, ◌≡◌, ◌↔◌, ◌++◌, Some, Ok};
ghost use Rattle.std.specs.FinMap as map;
ghost use Rattle.puffin_data.specs.declared.data.form.Form.{Form};
ghost use Rattle.puffin_data.specs.Value.Layout.{IsBytes, NoneBeginsAnother, ReadsLayouts};
ghost use Rattle.puffin_frames.specs.Packet.Structs.{meta_layout, IsMeta, meta_at, key_layout, IsThreadKey, key_at, facts_layout, AreStreamFacts, facts_at, streams_layout, AreStreams, streams_at, details_layout, AreDetails, details_at, legacy_layout, IsLegacy, legacy_at};
ghost use Rattle.puffin_frames.specs.Frame.Streams.{Streams};
ghost use Rattle.puffin_frames.specs.declared.frame_data.frame.FrameData.{FrameData};
ghost use Rattle.puffin_frames.specs.Frame.Contents.{holding_of, frame_streams};
ghost use Rattle.puffin_frames.specs.Frame.Holding.{HaveLayout, AreReadAgain, Packing, HoldsStreams, streams_in, Holding, IsHolding, holding_streams, packing_of, as_packed, as_unpacked};
ghost use Rattle.puffin_frames.specs.Packet.Stored.{PacketFields, Stored, packed};
ghost use Rattle.puffin_frames.specs.Packet.Front.{next_at};
ghost use Rattle.puffin_frames.specs.Packet.Grammar.{packet, IsPacked, Stores};

/// No value's layout is a prefix of the layout of another value of the same type, in packets of the same form.
pub fn no_layout_begins_another()
    ensures metas { NoneBeginsAnother IsMeta meta_layout }
    ensures threads { NoneBeginsAnother IsThreadKey key_layout }
    ensures infos { (packed : Form) →
        NoneBeginsAnother (AreStreamFacts packed) (facts_layout packed) }
    ensures streams { (packed : Form) →
        NoneBeginsAnother (AreStreams packed) (streams_layout packed) }
    ensures details { NoneBeginsAnother AreDetails details_layout }
    ensures legacy { NoneBeginsAnother IsLegacy legacy_layout }
{}

/// A value is read from the front of bytes exactly when they begin with its layout.
pub fn only_layouts_are_read()
    ensures metas { ReadsLayouts IsMeta meta_layout meta_at }
    ensures threads { ReadsLayouts IsThreadKey key_layout key_at }
    ensures infos { (packed : Form) →
        ReadsLayouts (AreStreamFacts packed) (facts_layout packed) (facts_at packed) }
    ensures streams { (packed : Form) →
        ReadsLayouts (AreStreams packed) (streams_layout packed) (streams_at packed) }
    ensures details { ReadsLayouts AreDetails details_layout details_at }
    ensures legacy { ReadsLayouts IsLegacy legacy_layout legacy_at }
{}

/// Reading from the front of some bytes gives a frame exactly when they begin with bytes that store that frame: a packet as
/// this crate writes it (`PFD4` or `PFDL`), a packet of an older version, or a legacy frame.
pub fn only_packets_are_read()
    ensures { (bytes rest : List ℕ) (stored : Stored) → IsBytes bytes →
        (next_at bytes ≡ Ok (Some stored, rest))
        ↔ ((front : List ℕ) × Stores front stored × (bytes ≡ front ++ rest)) }
{}

/// Reading packed bytes gives streams exactly when the bytes are uncompressed and are the layout of those streams.
pub fn packed_contents()
    ensures { (packing : Packing) (streams : Streams) → IsBytes packing.bytes →
        (streams_in packing ≡ Some streams) ↔ HoldsStreams packing streams }
{}

/// Reading a written packet returns what was stored, whatever bytes follow it. No `PFD4` or `PFDL` packet is a prefix of
/// another such packet.
pub fn written_is_read()
    ensures again { (fields : PacketFields) (rest : List ℕ) → IsPacked fields →
        next_at (packet fields ++ rest) ≡ Ok (Some (packed fields), rest) }
    ensures alone { NoneBeginsAnother IsPacked packet }
{}

/// Streams that have a layout are read from it unchanged. The empty map of streams has a layout.
pub fn streams_with_a_layout()
    ensures again { (streams : Streams) → HaveLayout streams → AreReadAgain streams }
    ensures none { HaveLayout map.empty }
{}

/// The streams of any frame, once they are packed, are read back unchanged, whether the frame holds them unpacked, packed, or
/// both ways.
pub fn each_frame_is_read_again()
    ensures holds { (frame : FrameData) → IsHolding (holding_of frame) }
    ensures again { (frame : FrameData) →
        streams_in (packing_of (holding_of frame)) ≡ frame_streams frame }
{}

/// Packing and unpacking don't change a frame's streams. Packing a second time changes nothing.
pub fn packing_keeps()
    ensures packs { (holding : Holding) → IsHolding holding →
        holding_streams (as_packed holding) ≡ holding_streams holding }
    ensures unpacks { (holding : Holding) →
        holding_streams (as_unpacked holding) ≡ holding_streams holding }
    ensures twice { (holding : Holding) → as_packed (as_packed holding) ≡ as_packed holding }
{}
