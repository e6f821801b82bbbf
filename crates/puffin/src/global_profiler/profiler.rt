//! A profiler that threads report to.
//!
//! The clause `requires boxed_sinks { ⊤ }` asks nothing; the head of the module above says why it is there.
ghost use Rattle.std.specs.Prelude.{◌≡◌, ◌↔◌, [], OnOk, OnErr, IfErr, ⊤, IsTrue};
ghost use Rattle.std.specs.List.{list_any};
ghost use Rattle.std.specs.Arc.{arc_value};
ghost use Rattle.puffin_data.specs.Honesty.{IsHonestReport, facts_of_ref};
ghost use Rattle.puffin_threads.specs.Thread.ThreadKey.{key_of};
ghost use Rattle.puffin_threads.specs.Details.{details_seen, shared_details, lacks_id};
ghost use Rattle.puffin_collector.specs.Collector.State.{AcceptsReport, RefusesReport, after_learning, after_wanting};
ghost use Rattle.puffin_collector.specs.Collector.Collecting.{CollectsFrame, CountsScopes, KnowsSome};
ghost use Rattle.puffin.specs.Profiler.Calls.{TakesReport, RegistersScopes, HandsOutFrame, AddsFrame, AddsSink, RemovesSink};
ghost use Rattle.puffin.specs.Profiler.{collected_of, sinks_of, SameSinks, IsNewProfiler};
ghost use Rattle.puffin.specs.SharedCauses.{IsDetailsCause};

use crate::global_profiler::sink::{FrameSink, FrameSinkId, Sink};
use crate::global_profiler::sinks::Sinks;
use puffin_collector::{Collector, Emitted, Totals};
use puffin_data::data::{ScopeId, StreamInfoRef};
use puffin_data::{Error, Result};
use puffin_frames::frame_data::{FrameData, FrameIndex};
use puffin_threads::scope_details::{ScopeDetails, ScopeIds};
use puffin_threads::thread_profiler::{Reporter, ThreadInfo};
use std::alloc::Global;
use std::sync::{Arc, Wait};

/// Collects what threads report, and hands it out in frames, to the caller and to its sinks.
///
/// ```
/// let mut profiler = GlobalProfiler::new(alloc);
/// thread.end_scope(scope, &mut profiler)?;
/// let frame = profiler.new_frame(&rt)?.frame;
/// ```
#[derive(Drop)]
pub struct GlobalProfiler {
    collector: Collector,
    sinks: Sinks,
}

impl GlobalProfiler {
    /// Makes a profiler without scopes and without sinks. Its frame index starts at 0.
    pub fn new(alloc: Global) -> GlobalProfiler
        ensures { IsNewProfiler 0 result }
    {
        GlobalProfiler::with_frame_index(alloc, 0)
    }

    /// Makes a profiler whose frame index starts at this number. No frame has an index above `2^64 - 2`.
    pub fn with_frame_index(alloc: Global, frame_index: FrameIndex) -> GlobalProfiler
        ensures { IsNewProfiler frame_index result }
    {
        GlobalProfiler {
            collector: Collector::new(alloc, frame_index),
            sinks: Sinks::new(alloc),
        }
    }

    /// Sets how many bytes of scopes may wait for the next frame, as [`Collector::set_max_pending`] does. Reports above it are
    /// refused with `Memory`, unless nothing waits. At first there is no such limit.
    pub fn set_max_pending(&mut self, bytes: usize)
        requires boxed_sinks { ⊤ }
        ensures collected { collected_of self.new ≡ collected_of self.old }
        ensures sinks { SameSinks self.old self.new }
    {
        self.collector.set_max_pending(bytes);
    }

    /// Appends a thread's scopes to the pending ones, and `details` to the new details that the next frame lists, as
    /// [`Collector::report`] does. Fails in the same cases.
    #[inline(always)]
    pub fn report(
        &mut self,
        info: ThreadInfo,
        details: &[ScopeDetails],
        times: &StreamInfoRef,
    ) -> Result<()>
        requires { IsHonestReport times.now }
        ensures { TakesReport self.old (key_of info) (details_seen details.now)
            (facts_of_ref times.now) result self.new }
    {
        self.collector.report(info, details, times)
    }

    /// Appends the caller's own scopes to the pending ones, as [`Collector::report_user_scopes`] does. Fails in the same cases.
    pub fn report_user_scopes(&mut self, info: ThreadInfo, times: &StreamInfoRef) -> Result<()>
        requires { IsHonestReport times.now }
        ensures { TakesReport self.old (key_of info) [] (facts_of_ref times.now) result self.new }
    {
        self.collector.report_user_scopes(info, times)
    }

    /// Registers the caller's own scopes by name, and returns an id for each, as [`Collector::register_user_scopes`] does.
    /// Fails in the same cases.
    pub fn register_user_scopes(
        &mut self,
        ids: &ScopeIds,
        details: &[ScopeDetails],
    ) -> Result<Vec<ScopeId>>
        requires boxed_sinks { ⊤ }
        ensures { RegistersScopes (λ scope_ids. scope_ids.items) self.old
            (details_seen details.now) result self.new }
    {
        self.collector.register_user_scopes(ids, details)
    }

    /// Makes the next frame list every known scope, and not only the new ones. Allocates nothing.
    pub fn emit_scope_snapshot(&mut self)
        requires boxed_sinks { ⊤ }
        ensures wants { collected_of self.new ≡ after_wanting (collected_of self.old) }
        ensures sinks { SameSinks self.old self.new }
    {
        self.collector.emit_scope_snapshot();
    }

    /// Adds scopes to the known ones, and makes the next frame list every known scope. Scopes that are known already aren't
    /// listed twice. For the places of a program, pass [`Scopes::details`](crate::light::Scopes::details).
    ///
    /// Fails with `MissingId` exactly when some of them have no id, and then changes nothing. Otherwise fails only with
    /// `Memory`; the first few may have become known then.
    ///
    /// ```
    /// let mut profiler = GlobalProfiler::new(alloc);
    /// profiler.add_scopes(scopes.details())?;
    /// ```
    pub fn add_scopes(&mut self, details: &[Arc<ScopeDetails>]) -> Result<()>
        requires boxed_sinks { ⊤ }
        ensures ok { OnOk result (collected_of self.new
            ≡ after_wanting (after_learning (collected_of self.old) (shared_details details.now))) }
        ensures missing { (result ≡ Err Error.MissingId)
            ↔ IsTrue (list_any lacks_id (shared_details details.now)) }
        ensures unchanged { (result ≡ Err Error.MissingId) →
            collected_of self.new ≡ collected_of self.old }
        ensures err { OnErr result (
            KnowsSome (collected_of self.old) (shared_details details.now)
            (collected_of self.new)) }
        ensures cause { IfErr result IsDetailsCause }
        ensures sinks { SameSinks self.old self.new }
    {
        self.collector.learn(details)?;
        self.collector.emit_scope_snapshot();
        Ok(())
    }

    /// Hands out one frame with everything that is pending, as [`Collector::collect_frame`] does, and calls no sink. Fails in
    /// the same cases.
    ///
    /// ```
    /// if let Some(frame) = profiler.collect_frame()? {
    ///     view.add_frame(frame)?;
    /// }
    /// ```
    pub fn collect_frame(&mut self) -> Result<Option<Arc<FrameData>>>
        requires boxed_sinks { ⊤ }
        ensures collected { CollectsFrame (λ frame. frame) (collected_of self.old) result
            (collected_of self.new) }
        ensures sinks { SameSinks self.old self.new }
    {
        self.collector.collect_frame()
    }

    /// Hands out a frame as [`GlobalProfiler::collect_frame`] does, and also hands it to each sink, in ascending order of the
    /// sinks' numbers. The caller and the sinks share the frame. Waits for the lock of each sink that is a view. The result's
    /// `refused` is the number of sinks that didn't take the frame: they refused it, or weren't called because the frame's
    /// `Arc` couldn't be cloned.
    ///
    /// Fails as [`Collector::collect_frame`] does, before any sink is called.
    pub fn new_frame<R: Wait>(&mut self, rt: &R) -> Result<Emitted>
        requires boxed_sinks { ⊤ }
        ensures { HandsOutFrame (λ boxed. (FrameSink-box boxed).accepts) self.old result self.new }
    {
        let Some(frame) = self.collector.collect_frame()? else {
            return Ok(Emitted {
                frame: None,
                refused: 0,
            });
        };
        let refused = self.sinks.hand_on(rt, &frame);
        Ok(Emitted {
            frame: Some(frame),
            refused,
        })
    }

    /// Takes in a frame that was made elsewhere: adds its scope details to those already known, then hands the frame to each
    /// sink. Returns how many sinks didn't take it, counted as [`GlobalProfiler::new_frame`] does. The frame's scopes aren't
    /// added to the profiler's totals.
    ///
    /// Fails with `MissingId` exactly when some of its details have no id, and then changes nothing. Otherwise fails only with
    /// `Memory`, and then the first few of its details may have become known. If it fails, no sink is called.
    pub fn add_frame<R: Wait>(&mut self, rt: &R, frame: Arc<FrameData>) -> Result<usize>
        requires boxed_sinks { ⊤ }
        ensures { AddsFrame (λ boxed. (FrameSink-box boxed).accepts) self.old (arc_value frame)
            result self.new }
    {
        self.collector.learn(&frame.scope_delta)?;
        Ok(self.sinks.hand_on(rt, &frame))
    }

    /// Adds a sink, and returns its number. The sink gets the frames of all later calls of [`GlobalProfiler::new_frame`] and
    /// [`GlobalProfiler::add_frame`].
    ///
    /// Fails with `SinkIdsExhausted` if no number is left, and otherwise only with `Memory`. If it fails, returns the sink with
    /// the error, and changes nothing.
    ///
    /// ```
    /// let Ok(id) = profiler.add_sink(Sink::View(view)) else { return Err(Error::Memory) };
    /// ```
    pub fn add_sink(&mut self, sink: Sink) -> std::result::Result<FrameSinkId, (Error, Sink)>
        requires boxed_sinks { ⊤ }
        ensures { AddsSink self.old sink result self.new }
    {
        self.sinks.add(sink)
    }

    /// Removes the sink with this number and returns it, or returns `None` if there is none. The other sinks keep their
    /// numbers, and the removed sink's number isn't used again. Allocates nothing.
    pub fn remove_sink(&mut self, id: FrameSinkId) -> Option<Sink>
        requires boxed_sinks { ⊤ }
        ensures { RemovesSink self.old id result self.new }
    {
        self.sinks.remove(id)
    }

    /// Returns how many scopes were reported, are pending, and were handed out. Allocates nothing.
    pub fn totals(&self) -> Totals
        ensures { CountsScopes (collected_of self.now) result }
    {
        self.collector.totals()
    }
}

impl Reporter for GlobalProfiler {
    ghost use Rattle.std.specs.Prelude.{◌≡◌};
    ghost use Rattle.puffin_collector.specs.Collector.State.{AcceptsReport, RefusesReport};
    ghost use Rattle.puffin.specs.Profiler.{collected_of, sinks_of};

    ghost accepts = { λ old key details report new.
        AcceptsReport (collected_of old) key details report (collected_of new)
        × (sinks_of new ≡ sinks_of old) };

    ghost refuses = { λ old key details report error new.
        RefusesReport (collected_of old) key details report error (collected_of new)
        × (sinks_of new ≡ sinks_of old) };

    fn report(
        &mut self,
        info: ThreadInfo,
        details: &[ScopeDetails],
        times: &StreamInfoRef,
    ) -> Result<()> {
        GlobalProfiler::report(self, info, details, times)
    }
}
