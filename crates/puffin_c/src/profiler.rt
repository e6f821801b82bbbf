//! A collector of the scopes of all threads, with a view of the frames.

ghost use Rattle.std.specs.Prelude.{◌≡◌, ◌⊎◌, Some, length, false, OnOk, OnErr, IfOk, IfErr, IfSome, IsOkUnless};
ghost use Rattle.std.specs.Arc.{arc_value};
ghost use Rattle.std.specs.List.{Any, list_any};
ghost use Rattle.std.specs.Option.{option_map};
ghost use Rattle.puffin_data.specs.declared.error.Error.TheVariants as error;
ghost use Rattle.puffin_data.specs.declared.file_error.FileError.TheVariants as file;
ghost use Rattle.puffin_threads.specs.Details.{lacks_id, details_of, with_id};
ghost use Rattle.puffin_frames.specs.declared.frame_data.frame.FrameData.{FrameData};
ghost use Rattle.puffin_frames.specs.Frame.Contents.{frame_details, packet_fields};
ghost use Rattle.puffin_frames.specs.Packet.Grammar.{packet};
ghost use Rattle.puffin_frames.specs.Packet.Writing.{HasLongPart};

use crate::shared_ids::SharedIds;
use crate::unread::{Piece, Pieces, Unread};
use puffin_collector::Collector;
use puffin_data::data::{Counted, ScopeId};
use puffin_data::{FileError, Result as Answer};
use puffin_frames::frame_data::{FrameData, FrameMeta};
use puffin_threads::scope_details::ScopeDetails;
use puffin_view::profile_view::FrameView;
use std::alloc::Global;
use std::sync::Arc;

/// A frame that waits to be added to the view. All of its details have ids.
#[derive(Drop)]
pub(crate) struct Waiting {
    pub(crate) frame: Arc<FrameData>,
    ghost ids: { list_any lacks_id (frame_details (arc_value frame)) ≡ false },
}

/// Returns the packet of a frame. Fails with `PartTooLong`, or if memory runs out.
fn packet_of(alloc: Global, frame: &FrameData) -> Result<Vec<u8>, FileError>
    ensures ok { IfOk result (λ bytes. bytes.items ≡ packet (packet_fields frame.now)) }
    ensures err { IfErr result (λ e.
        ((e ≡ file.PartTooLong) × HasLongPart (packet_fields frame.now))
        ⊎ (e ≡ file.Memory)
        ⊎ (e ≡ file.Io)) }
{
    let mut packet = Counted::new(Vec::new(alloc));
    match frame.write_into(None, &mut packet) {
        Ok(()) => Ok(packet.into_inner()),
        Err(fault) => Err(fault),
    }
}

/// Collects scopes for the next frame, and keeps a view of the frames so far. Also holds a frame that the view had no
/// memory for, and the bytes that the program hasn't read yet.
#[derive(Drop)]
pub(crate) struct Profiler {
    pub(crate) collector: Collector,
    pub(crate) view: FrameView,
    pub(crate) shared: SharedIds,
    pub(crate) waiting: Option<Waiting>,
    pub(crate) unread: Pieces,
}

impl Profiler {
    ghost use Rattle.puffin_c.specs.Naming.{after_naming, IsUnregistered};
    ghost use Rattle.puffin_c.specs.Profiling.{with_collected, waiting_frame, IsNew, IsCollected, IsTaken, IsLeft, view_fields, view_file, newest_packet, HasLongNewest, bytes_of, HasLong, with_unread, with_limits, without_view};

    /// Makes a profiler without scopes or frames.
    pub(crate) fn new(alloc: Global, shared: SharedIds) -> Profiler
        ensures { IsNew result }
    {
        Profiler {
            collector: Collector::new(alloc, 0),
            view: FrameView::new(alloc),
            shared,
            waiting: None,
            unread: Pieces {
                file: Unread::nothing(alloc),
                packet: Unread::nothing(alloc),
            },
        }
    }

    /// Registers a scope with these details under a newly drawn id. The next frame lists it, with all that were registered before.
    ///
    /// Fails with `IdsExhausted`, and changes nothing then; or with `Memory`, and a later frame may list the scope then.
    pub(crate) fn register(&mut self, alloc: Global, details: ScopeDetails) -> Answer<ScopeId>
        ensures ok { IfOk result (λ id. self.new
            ≡ with_collected self.old
            (after_naming self.old.collector (with_id (details_of details) id))) }
        ensures err { IfErr result (IsUnregistered self.old (details_of details) self.new) }
    {
        let id = self.shared.ids.draw()?;
        let details = Arc::new(alloc, details.with_scope_id(id))?;
        self.collector.learn(&[details])?;
        self.collector.emit_scope_snapshot();
        Ok(id)
    }

    /// Collects the next frame into `waiting`. Does nothing if a frame is waiting there already.
    fn collect(&mut self) -> Answer<()>
        ensures ok { OnOk result (IsCollected self.old self.new) }
        ensures err { IfErr result (IsLeft self.old self.new) }
    {
        if self.waiting.is_some() {
            return Ok(());
        }
        if let Some(frame) = self.collector.collect_frame()? {
            let waiting = Waiting { frame };
            self.waiting = Some(waiting);
        }
        Ok(())
    }

    /// Returns another reference to the waiting frame. Fails only with `Memory`.
    fn waiting(&self) -> Answer<Option<Arc<FrameData>>>
        ensures ok { IfOk result (λ copy. option_map arc_value copy ≡ waiting_frame self.now) }
        ensures ids { IfOk result (λ copy. IfSome copy (λ frame.
            list_any lacks_id (frame_details (arc_value frame)) ≡ false)) }
        ensures err { OnErr result (
            (frame : FrameData) × (waiting_frame self.now ≡ Some frame)) }
        ensures memory { IsOkUnless result error.Memory }
    {
        match &self.waiting {
            Some(waiting) => Ok(Some(waiting.frame.clone()?)),
            None => Ok(None),
        }
    }

    /// Adds the next frame to the view, and returns its meta. The next frame is the waiting one or, if none is waiting, one
    /// made of everything pending. Returns `None` if no frame is waiting and no scope is pending.
    ///
    /// Fails with `IndexExhausted` or `Memory`. Nothing is lost then: either everything stays pending, or the frame waits.
    pub(crate) fn take_frame(&mut self) -> Answer<Option<FrameMeta>>
        ensures ok { IfOk result (IsTaken self.old self.new) }
        ensures err { IfErr result (IsLeft self.old self.new) }
    {
        self.collect()?;
        let Some(frame) = self.waiting()? else {
            return Ok(None);
        };
        let meta = *frame.meta();
        self.view.add_frame(frame)?;
        self.waiting = None;
        Ok(Some(meta))
    }

    /// Returns the view's file, which has all details that the view knows. Fails with `PartTooLong`, or if memory runs out.
    pub(crate) fn file(&self, alloc: Global) -> Result<Vec<u8>, FileError>
        ensures ok { IfOk result (λ written. written.items ≡ view_file self.now) }
        ensures err { IfErr result (λ e.
            ((e ≡ file.PartTooLong) × Any HasLongPart (view_fields self.now))
            ⊎ (e ≡ file.Memory)
            ⊎ (e ≡ file.Io)) }
    {
        let mut file = Counted::new(Vec::new(alloc));
        match self.view.write_with_details(&mut file) {
            Ok(()) => Ok(file.into_inner()),
            Err(fault) => Err(fault),
        }
    }

    /// Returns the packet of the view's newest frame, or no bytes if the view has no recent frame. Fails like
    /// [`Profiler::file`].
    fn packet(&self, alloc: Global) -> Result<Vec<u8>, FileError>
        ensures ok { IfOk result (λ written. written.items ≡ newest_packet self.now) }
        ensures err { IfErr result (λ e.
            ((e ≡ file.PartTooLong) × HasLongNewest self.now)
            ⊎ (e ≡ file.Memory)
            ⊎ (e ≡ file.Io)) }
    {
        match self.view.latest_frame() {
            Some(frame) => packet_of(alloc, frame),
            None => Ok(Vec::new(alloc)),
        }
    }

    /// Returns the view's file, or the packet of its newest frame. Fails with `PartTooLong`, or if memory runs out.
    fn bytes(&self, alloc: Global, piece: Piece) -> Result<Vec<u8>, FileError>
        ensures ok { IfOk result (λ written. written.items ≡ bytes_of piece self.now) }
        ensures err { IfErr result (λ e.
            ((e ≡ file.PartTooLong) × HasLong piece self.now)
            ⊎ (e ≡ file.Memory)
            ⊎ (e ≡ file.Io)) }
    {
        match piece {
            Piece::File => self.file(alloc),
            Piece::Packet => self.packet(alloc),
        }
    }

    /// Makes the view's file, or the packet of its newest frame, to be read from its beginning, and returns its size in bytes.
    /// Fails like [`Profiler::bytes`]; nothing changes then.
    pub(crate) fn begin(&mut self, alloc: Global, piece: Piece) -> Result<usize, FileError>
        ensures size { IfOk result (λ size. size ≡ length (bytes_of piece self.old)) }
        ensures made { OnOk result (
            self.new ≡ with_unread piece self.old (bytes_of piece self.old)) }
        ensures unchanged { OnErr result (self.new ≡ self.old) }
        ensures err { IfErr result (λ e.
            ((e ≡ file.PartTooLong) × HasLong piece self.old)
            ⊎ (e ≡ file.Memory)
            ⊎ (e ≡ file.Io)) }
    {
        match self.bytes(alloc, piece) {
            Ok(bytes) => {
                let size = bytes.len();
                self.unread.put(piece, bytes);
                Ok(size)
            }
            Err(fault) => Err(fault),
        }
    }

    /// Sets how many recent and how many slow frames the view keeps at most.
    pub(crate) fn set_limits(&mut self, recent: usize, slow: usize)
        ensures { self.new ≡ with_limits self.old recent slow }
    {
        self.view.set_max_recent(recent);
        self.view.set_max_slow(slow);
    }

    /// Drops the view's frames, and keeps its settings.
    pub(crate) fn clear_view(&mut self, alloc: Global)
        ensures { self.new ≡ without_view self.old }
    {
        let mut view = FrameView::new(alloc);
        view.set_max_recent(self.view.max_recent());
        view.set_max_slow(self.view.max_slow());
        view.set_pack_frames(self.view.pack_frames());
        self.view = view;
    }
}
