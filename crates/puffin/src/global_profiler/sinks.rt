//! The sinks of a profiler.
ghost use Rattle.std.specs.Prelude.{◌≡◌, ◌+◌, ◌-◌, ◌<◌, ◌⊎◌, [], ◌^◌, length, slice_get, Some, IfOk, IfErr, IfSome, IfNone};
ghost use Rattle.std.specs.Arc.{arc_value};
ghost use Rattle.puffin.specs.Sinks.Handing.{HandsOn};
ghost use Rattle.puffin.specs.Sinks.{PutsIn, TakesOut, HasNone};
ghost use Rattle.puffin.specs.inner.Numbers.{AreNumbered};

use crate::global_profiler::handing::hand_all;
use crate::global_profiler::sink::{FrameSink, FrameSinkId, Sink};
use puffin_data::Error;
use puffin_frames::frame_data::FrameData;
use std::alloc::Global;
use std::sync::{Arc, Wait};

/// A sink with its number.
#[derive(Drop)]
pub(crate) struct SinkEntry {
    pub(crate) id: u64,
    pub(crate) sink: Sink,
}

/// The sinks of a profiler, sorted by number. All their numbers are below the next one.
#[derive(Drop)]
pub(crate) struct Sinks {
    pub(crate) entries: Vec<SinkEntry>,
    pub(crate) next: u64,
    ghost rising: { AreNumbered entries.items next },
}

impl Sinks {
    /// Makes a list without sinks. The first sink will have the number 1.
    pub(crate) fn new(alloc: Global) -> Sinks
        ensures entries { result.entries.items ≡ [] }
        ensures next { result.next ≡ 1 }
    {
        Sinks {
            entries: Vec::new(alloc),
            next: 1,
        }
    }

    /// Adds a sink under the next number, and returns that number. Fails with `SinkIdsExhausted` or `Memory`, and then returns
    /// the sink and changes nothing.
    pub(crate) fn add(&mut self, sink: Sink) -> std::result::Result<FrameSinkId, (Error, Sink)>
        ensures ok { IfOk result (λ id.
            (id ≡ self.old.next)
            × (self.new.next ≡ self.old.next + 1)
            × PutsIn self.old.next sink self.old.entries.items self.new.entries.items) }
        ensures err { IfErr result (λ refused.
            (refused.1 ≡ sink)
            × (self.new.entries.items ≡ self.old.entries.items)
            × (self.new.next ≡ self.old.next)) }
        ensures cause { IfErr result (λ refused.
            ((refused.0 ≡ Error.SinkIdsExhausted) × (self.old.next ≡ 2 ^ 64 - 1))
            ⊎ ((refused.0 ≡ Error.Memory) × (self.old.next < 2 ^ 64 - 1))) }
    {
        let id = self.next;
        let Some(next) = id.checked_add(1) else {
            return Err((Error::SinkIdsExhausted, sink));
        };
        match self.entries.push(SinkEntry { id, sink }) {
            Ok(()) => {
                self.next = next;
                Ok(FrameSinkId::new(id))
            }
            Err(refused) => {
                let SinkEntry { id: _, sink } = refused.value;
                Err((Error::Memory, sink))
            }
        }
    }

    /// Removes the sink with this number and returns it, or returns `None` if there is none.
    pub(crate) fn remove(&mut self, id: FrameSinkId) -> Option<Sink>
        ensures some { IfSome result (λ sink.
            TakesOut id sink self.old.entries.items self.new.entries.items) }
        ensures none { IfNone result (
            HasNone id self.old.entries.items
            × (self.new.entries.items ≡ self.old.entries.items)) }
        ensures next { self.new.next ≡ self.old.next }
    {
        let Some(at) = place_of(&self.entries, id) else {
            return None;
        };
        let SinkEntry { id: _, sink } = self.entries.remove(at);
        Some(sink)
    }

    /// Hands a frame to each sink, in ascending order of number. Returns how many sinks didn't take it.
    pub(crate) fn hand_on<R: Wait>(&mut self, rt: &R, frame: &Arc<FrameData>) -> usize
        ensures handed { HandsOn (λ boxed. (FrameSink-box boxed).accepts) (arc_value frame.now)
            self.old.entries.items result self.new.entries.items }
        ensures next { self.new.next ≡ self.old.next }
    {
        hand_all(rt, &mut self.entries, frame)
    }
}

/// Returns the position of the sink with this number.
fn place_of(entries: &[SinkEntry], id: FrameSinkId) -> Option<usize>
    ensures some { IfSome result (λ place.
        (entry : _) × (slice_get entries.now place ≡ Some entry) × (entry.id ≡ id)
        × (place < length entries.now)) }
    ensures none { IfNone result (HasNone id entries.now) }
{
    for at in 0..entries.len() {
        if entries[at].id == id.get() {
            return Some(at);
        }
    }
    None
}
