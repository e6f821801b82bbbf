ghost use Rattle.std.specs.Prelude.{◌≡◌, ◌<◌, ◌⊎◌, ◌↔◌, true, OnOk, OnErr, IfOk, IfErr, IsOkUnless, IsTrue};
ghost use Rattle.std.specs.Arc.{arc_value};
ghost use Rattle.std.specs.List.{list_any};
ghost use Rattle.std.specs.FinMap as map;
ghost use Rattle.puffin_threads.specs.Details.{details_of, details_seen, shared_details, lacks_id};
ghost use Rattle.puffin_frames.specs.Frame.Sums.{total_scopes};
ghost use Rattle.puffin_collector.specs.Collector.State.{nothing_collected, after_learning, after_wanting};
ghost use Rattle.puffin_collector.specs.Collector.Registering.{Adds, AddsSome, AddsOne, IsAddingRefusal};
ghost use Rattle.puffin_collector.specs.Collector.Collecting.{CollectsFrame, CountsScopes, KnowsSome};
ghost use Rattle.puffin_collector.specs.inner.HandingOut.{HoldsPending, after_handing_out};

use crate::delta::scope_delta;
use crate::totals::Totals;
use puffin_data::data::ScopeId;
use puffin_data::{Error, Result};
use puffin_frames::frame_data::{
    FrameData, FrameIndex, FrameMeta, ThreadStreams, UnpackedFrameData,
};
use puffin_threads::scope_details::{ScopeCollection, ScopeDetails, ScopeIds};
use std::alloc::Global;
use std::collections::BTreeMap;
use std::marker::Model;
use std::mem;
use std::sync::Arc;

mod reporting;

/// Collects what threads report, and hands it out in frames. It has no sinks.
///
/// ```
/// let mut collector = Collector::new(alloc, 0);
/// thread.end_scope(scope, &mut collector)?;
/// let frame = collector.collect_frame()?;
/// ```
#[derive(Drop)]
pub struct Collector {
    alloc: Global,
    pending: ThreadStreams,
    // The meta of a frame of all that is pending.
    meta: FrameMeta,
    reported: u64,
    emitted: u64,
    collection: ScopeCollection,
    new_details: Vec<Arc<ScopeDetails>>,
    wants_all: bool,
    // How many bytes may be pending after a report, unless nothing was pending before it.
    max_pending: usize,
}

impl Model for Collector {
    ghost use Rattle.puffin_collector.specs.Collector.State.{Collected, collected_code};

    ghost Value = { Collected };

    ghost coded = { collected_code };

    ghost use Rattle.puffin_frames.specs.Frame.Contents.{shared_streams};
    ghost use Rattle.puffin_threads.specs.Details.{shared_details, AllHaveIds};
    ghost use Rattle.puffin_collector.specs.Collector.Collecting.{IsTallied};

    ghost view = { λ fields.
        record {
          index = fields.meta.frame_index;
          reported = fields.reported;
          emitted = fields.emitted;
          streams = shared_streams fields.pending.entries;
          collection = fields.collection;
          new_details = shared_details fields.new_details.items;
          wants_all = fields.wants_all;
        } };

    ghost invariant = { λ fields.
        IsTallied (shared_streams fields.pending.entries) fields.meta fields.reported fields.emitted
        × AllHaveIds (shared_details fields.new_details.items) };
}

impl Collector {
    /// Makes a collector without scopes, whose frame index starts at this number.
    #[tactic(auto, using(puffin_frames::proofs::lemmas::Measured::no_values, puffin_frames::proofs::lemmas::Honest::none_is_honest, puffin_frames::proofs::lemmas::LayoutsKept::none_laid_out,))]
    pub fn new(alloc: Global, frame_index: FrameIndex) -> Collector
        ensures { result ≡ nothing_collected frame_index }
    {
        Collector {
            alloc,
            pending: BTreeMap::new(alloc),
            meta: FrameMeta::empty(frame_index),
            reported: 0,
            emitted: 0,
            collection: ScopeCollection::new(alloc),
            new_details: Vec::new(alloc),
            wants_all: false,
            max_pending: usize::MAX,
        }
    }

    /// Sets how many bytes of scopes may be pending, of all threads together. [`Collector::report`] fails with `Memory` where
    /// there would be more, as if the machine had no more, and changes nothing. While nothing is pending, a report is taken
    /// whatever its size: otherwise what a thread holds could exceed the limit by itself, and would never be taken. What is
    /// pending stays. At first there is no such limit.
    pub fn set_max_pending(&mut self, bytes: usize)
        ensures { self.new ≡ self.old }
    {
        self.max_pending = bytes;
    }

    /// Registers the caller's own scopes by name, and returns an id for each. A known name keeps its id. Details with a new
    /// name get a newly drawn id, which replaces any id in them; they are known at once, and the next frame lists them.
    ///
    /// Fails with `IdsExhausted` or `Memory`. The first few scopes may then be registered, and an id may be used up.
    pub fn register_user_scopes(
        &mut self,
        ids: &ScopeIds,
        details: &[ScopeDetails],
    ) -> Result<Vec<ScopeId>>
        ensures ok { IfOk result (λ scope_ids.
            Adds self.old (details_seen details.now) scope_ids.items self.new) }
        ensures err { IfErr result (λ e. AddsSome self.old (details_seen details.now) e self.new) }
    {
        let mut scope_ids = Vec::with_capacity(self.alloc, details.len())?;
        for details in details {
            let id = self.register_user_scope(ids, details)?;
            scope_ids.push_reserved(id);
        }
        Ok(scope_ids)
    }

    /// Registers one scope, as [`Collector::register_user_scopes`] does, and returns its id. If it fails, nothing changes, but an id
    /// may be used up.
    fn register_user_scope(&mut self, ids: &ScopeIds, details: &ScopeDetails) -> Result<ScopeId>
        ensures ok { IfOk result (λ id. AddsOne self.old (details_of details.now) id self.new) }
        ensures err { OnErr result (self.new ≡ self.old) }
        ensures cause { IfErr result (
            IsAddingRefusal self.old.collection (details_of details.now)) }
    {
        if let Some(id) = self.collection.fetch_by_name(details.name().as_str()) {
            return Ok(*id);
        }
        // The room is made first, so that no step can fail once the collection knows the scope.
        self.new_details.reserve(1)?;
        let id = ids.draw()?;
        let details = Arc::new(self.alloc, details.clone()?.with_scope_id(id))?;
        let _kept = self.collection.insert(details.clone()?)?;
        self.new_details.push_reserved(details);
        Ok(id)
    }

    /// Makes the next frame list every known scope, and not only the new ones. Allocates nothing.
    pub fn emit_scope_snapshot(&mut self)
        ensures { self.new ≡ after_wanting self.old }
    {
        self.wants_all = true;
    }

    /// Adds details from another source, such as a frame that was made elsewhere, to the known ones. The next frame doesn't
    /// list them as new.
    ///
    /// Fails with `MissingId` exactly when some of them have no id, and then changes nothing. Otherwise fails only with
    /// `Memory`; the first few may be known afterwards.
    pub fn learn(&mut self, details: &[Arc<ScopeDetails>]) -> Result<()>
        ensures ok { OnOk result (
            self.new ≡ after_learning self.old (shared_details details.now)) }
        ensures missing { (result ≡ Err Error.MissingId)
            ↔ IsTrue (list_any lacks_id (shared_details details.now)) }
        ensures unchanged { (result ≡ Err Error.MissingId) → self.new ≡ self.old }
        ensures err { OnErr result (
            KnowsSome self.old (shared_details details.now) self.new) }
        ensures cause { IfErr result (λ e. (e ≡ Error.MissingId) ⊎ (e ≡ Error.Memory)) }
    {
        self.collection.insert_all(details)
    }

    /// Moves everything that is pending into one frame and returns it. Returns `None` if no scope is pending. Raises the index in
    /// both cases.
    ///
    /// The frame lists the details registered since the last frame, in order, and then, if a snapshot was requested, all details
    /// known before. With `None`, the new details and the request are kept for the next frame.
    ///
    /// Fails with `IndexExhausted` if the index can't rise, even if no scope is pending; nothing changes then. Otherwise fails
    /// only with `Memory`; nothing changes then, except that the first few of the new details, or all of them, may be known.
    #[tactic(auto, using(puffin_frames::proofs::lemmas::Honest::no_scopes_there,))]
    pub fn collect_frame(&mut self) -> Result<Option<Arc<FrameData>>>
        ensures { CollectsFrame (λ frame. frame) self.old result self.new }
    {
        let Some(next) = self.meta.frame_index.checked_add(1) else {
            return Err(Error::IndexExhausted);
        };
        if self.meta.num_scopes == 0 {
            self.meta.frame_index = next;
            return Ok(None);
        }
        let delta = scope_delta(
            self.alloc,
            &self.new_details,
            &self.collection,
            self.wants_all,
        )?;
        // The frame has its list already, so what becomes known here isn't listed twice.
        self.collection.insert_all(&self.new_details)?;
        let frame = self.hand_out(next, delta)?;
        Ok(Some(frame))
    }

    /// Moves all that is pending into a frame that lists the details of `delta`, and returns it. A scope must be pending. The next
    /// frame then has the index `next`, no new details, and no request for a snapshot. Fails only with `Memory`; nothing changes
    /// then.
    #[tactic(auto, using(puffin_frames::proofs::lemmas::Measured::no_values, puffin_frames::proofs::lemmas::Honest::none_is_honest, puffin_frames::proofs::lemmas::Honest::ordered, puffin_frames::proofs::lemmas::LayoutsKept::none_laid_out, puffin_frames::proofs::lemmas::PackedAgain::read_again,))]
    fn hand_out(
        &mut self,
        next: FrameIndex,
        delta: Vec<Arc<ScopeDetails>>,
    ) -> Result<Arc<FrameData>>
        requires { 0 < total_scopes (map.values self.old.streams) }
        ensures frame { IfOk result (λ frame.
            HoldsPending self.old (shared_details delta.items) (arc_value frame)) }
        ensures ok { OnOk result (self.new ≡ after_handing_out self.old next) }
        ensures err { OnErr result (self.new ≡ self.old) }
        ensures memory { IsOkUnless result Error.Memory }
    {
        // The streams are taken out, because the frame has to own them before it is known that there is memory for it.
        let thread_streams = mem::replace(&mut self.pending, BTreeMap::new(self.alloc));
        let unpacked = UnpackedFrameData {
            meta: self.meta,
            thread_streams,
        };
        let frame = FrameData::from_unpacked(unpacked, delta, self.wants_all);
        match Arc::new(self.alloc, frame) {
            Ok(frame) => {
                self.meta = FrameMeta::empty(next);
                self.emitted = self.reported;
                self.new_details.clear();
                self.wants_all = false;
                Ok(frame)
            }
            Err(refused) => {
                // The frame comes back with the refusal, so its streams are pending again.
                self.pending = refused.value.into_unpacked().thread_streams;
                Err(Error::Memory)
            }
        }
    }

    /// Returns how many scopes were reported, are pending, and were handed out. Allocates nothing.
    pub fn totals(&self) -> Totals
        ensures { CountsScopes self.now result }
    {
        Totals {
            reported: self.reported,
            pending: self.meta.num_scopes as u64,
            emitted: self.emitted,
        }
    }
}
