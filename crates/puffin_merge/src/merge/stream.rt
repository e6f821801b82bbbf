//! Adds the scopes of a stream to the table, as a visitor of the stream's walk.

ghost use Rattle.std.specs.Prelude.{◌≡◌, ◌<◌, ◌≤◌, ◌^◌, ◌⊎◌, ◌-ℤ◌, List, [], length, if◌then◌else◌, Ok, Err, IfOk, IfErr};
ghost use Rattle.puffin_data.specs.Walk.Visitor.{TakesAll, StopsEarly};
ghost use Rattle.puffin_threads.specs.Thread.ThreadKey.{key_of};
ghost use Rattle.puffin_merge.specs.Merge.Occurrences.{Occurrence};
ghost use Rattle.puffin_merge.specs.Merge.FrameBytes.{form_of, bytes_of, most_tries_of};
ghost use Rattle.puffin_merge.specs.Merge.Scopes.{frame_bytes};
ghost use Rattle.puffin_merge.specs.inner.Merging.{TakesScopes, RefusesScope};
ghost use Rattle.puffin_merge.specs.inner.Tables.{IsTableOf};
ghost use Rattle.puffin_merge.specs.inner.Origins.{IsOrigin, fits_i64};

use crate::merge::table::{KeyRef, NodeNumber, Table};
use puffin_data::data::{RawScope, Visitor, text_of, walk_with};
use puffin_data::{Error, NanoSecond, Result};
use puffin_frames::frame_data::UnpackedFrameData;
use puffin_threads::thread_profiler::ThreadInfo;
use std::alloc::Global;

/// The greatest nesting depth that is merged.
const GREATEST_DEPTH: usize = 1024;

/// What the walk keeps for an open scope.
#[derive(Clone, Copy, Debug)]
pub(crate) struct OpenScope {
    /// The scope's node.
    pub node: NodeNumber,
    /// The scope's nesting depth; 1 for a top-level scope.
    pub depth: usize,
    /// The time from which the starts of the scopes within it are measured.
    pub origin: i128,
}

impl OpenScope {
    /// Makes what the walk keeps outside all scopes: the root as their parent, at depth 0.
    pub(crate) fn outside(origin: i128) -> OpenScope
        ensures { result ≡ record { node = record { number = 0 }; depth = 0; origin = origin } }
    {
        OpenScope {
            node: NodeNumber { number: 0 },
            depth: 0,
            origin,
        }
    }
}

/// The visitor that adds each scope of a stream to the table.
#[derive(Drop)]
pub(crate) struct Merging {
    pub table: Table,
    /// The time from which the starts of top-level scopes in the current stream are measured.
    pub origin: i128,
}

impl Merging {
    /// Makes a visitor with an empty table.
    pub(crate) fn new(alloc: Global) -> Merging
        ensures { IsTableOf [] result.table }
    {
        Merging {
            table: Table::new(alloc),
            origin: 0,
        }
    }
}

/// Measures a start from an origin. Fails with `TooLarge` if the result doesn't fit `i64`.
fn own_start(start: NanoSecond, origin: i128) -> Result<NanoSecond>
    requires { IsOrigin origin }
    ensures { result
        ≡ (if fits_i64 (start -ℤ origin) then Ok (start -ℤ origin) else Err Error.TooLarge) }
{
    match NanoSecond::try_from(start as i128 - origin) {
        Ok(own_start) => Ok(own_start),
        Err(_) => Err(Error::TooLarge),
    }
}

impl<'s> Visitor<'s> for Merging {
    ghost use Rattle.puffin_merge.specs.inner.Merging.{TakesScopes, RefusesScope, StandsFor};
    ghost use Rattle.puffin_merge.specs.inner.Merging as steps;

    type Within = OpenScope;

    ghost takes = { TakesScopes };

    ghost refuses = { RefusesScope };

    ghost stands_for = { StandsFor };

    ghost takes_none = { steps.takes_none };

    ghost takes_more = { steps.takes_more };

    ghost still_stands = { steps.still_stands };

    /// Adds the scope to its node below the parent's, and returns what the walk keeps for it.
    fn enter(&mut self, within: OpenScope, scope: &RawScope<'s>) -> Result<OpenScope> {
        if within.depth >= GREATEST_DEPTH {
            return Err(Error::TooDeep);
        }
        let alloc = *self.table.nodes.allocator();
        let own_start = own_start(scope.start, within.origin)?;
        let key = KeyRef {
            parent: within.node,
            id: scope.id,
            text: text_of(scope.text),
        };
        let node = self
            .table
            .add(alloc, key, own_start, scope.stop.abs_diff(scope.start))?;
        Ok(OpenScope {
            node,
            depth: within.depth + 1,
            origin: scope.start as i128,
        })
    }
}

/// Returns the time from which the starts of a frame's top-level scopes are measured, as if its range began when the first
/// frame's did.
fn origin_of(frame: &UnpackedFrameData, first: NanoSecond) -> i128
    ensures origin { result ≡ frame.now.meta.range_ns.0 -ℤ first }
    ensures is { IsOrigin result }
{
    frame.meta.range_ns.0 as i128 - first as i128
}

/// Adds the scopes of a frame's stream to the table, if the frame has a stream for this thread. Top-level starts are measured
/// as if the frame's range began at `first`. Sets `tries` to the number of bytes `(` at which the walk tried to read a scope.
pub(crate) fn read_frame(
    alloc: Global,
    merging: &mut Merging,
    frame: &UnpackedFrameData,
    first: NanoSecond,
    info: &ThreadInfo,
    tries: &mut u64,
) -> Result<()>
    requires { (all : List Occurrence) × IsTableOf all merging.old.table }
    ensures ok { IfOk result (λ _.
        TakesAll (form_of (frame_bytes (key_of info.now) frame.now)) TakesScopes
        (record merging.old { origin = frame.now.meta.range_ns.0 -ℤ first })
        merging.new (bytes_of (frame_bytes (key_of info.now) frame.now)) tries.new) }
    ensures err { IfErr result (λ e.
        (e ≡ Error.Memory)
        ⊎ StopsEarly (form_of (frame_bytes (key_of info.now) frame.now)) TakesScopes
        RefusesScope
        (record merging.old { origin = frame.now.meta.range_ns.0 -ℤ first })
        merging.new (bytes_of (frame_bytes (key_of info.now) frame.now)) tries.new e) }
    ensures few { tries.new ≤ most_tries_of (frame_bytes (key_of info.now) frame.now) }
    ensures short { length (bytes_of (frame_bytes (key_of info.now) frame.now)) < 2 ^ 63 }
{
    *tries = 0;
    merging.origin = origin_of(frame, first);
    let outside = OpenScope::outside(merging.origin);
    match frame.thread_streams.get(info) {
        None => Ok(()),
        Some(times) => walk_with(
            alloc,
            times.stream.form(),
            times.stream.bytes(),
            merging,
            outside,
            tries,
        ),
    }
}
