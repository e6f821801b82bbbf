//! Laws of a profiler's sinks. Each is the contract of a function that does nothing; a proof in another crate cites it by
//! calling the function.

ghost use Rattle.std.specs.Prelude.{◌≡◌, ◌==◌};
ghost use Rattle.std.specs.Hash as fed;
ghost use Rattle.puffin.specs.declared.global_profiler.sink.FrameSinkId.{FrameSinkId};

use crate::global_profiler::sink::FrameSinkId;
use std::hash::Hash;

/// Two sink ids are equal exactly when their numbers are, and an id hashes as its number does.
pub fn sink_ids()
    ensures equality { (a b : FrameSinkId) →
        ⟦<FrameSinkId as PartialEq>⟧.eq a b ≡ (a == b) }
    ensures hash { (a : FrameSinkId) →
        ⟦<FrameSinkId as Hash>⟧.hash_input a ≡ fed.u64 a }
{}
