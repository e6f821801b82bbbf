//! Merging the scopes of many frames by their paths of ids and texts.

ghost use Rattle.std.specs.Prelude.{◌≡◌, ◌≤◌, ◌⊎◌, length, IfOk, IfErr};
ghost use Rattle.puffin_threads.specs.Thread.ThreadKey.{key_of};
ghost use Rattle.puffin_merge.specs.Merge.Occurrences.{occurrences};
ghost use Rattle.puffin_merge.specs.Merge.FrameBytes.{most_tries};
ghost use Rattle.puffin_merge.specs.Merge.Refusals.{IsMergeRefusal, IsRefusalAfter, AreMerged, ReadsFew};
ghost use Rattle.puffin_merge.specs.Merge.Scopes.{frames_bytes, forest_in};

pub mod laws;
mod merger;
mod scope;
mod starts;
mod stream;
mod table;
mod tree;

pub use merger::Merger;
use puffin_data::{Error, Result};
use puffin_frames::frame_data::UnpackedFrameData;
use puffin_threads::scope_details::ScopeCollection;
use puffin_threads::thread_profiler::ThreadInfo;
pub use scope::MergeScope;
use std::alloc::Global;
use std::sync::Arc;

/// Merges the scopes of the thread `info` over all frames, by their paths of ids and texts. Returns no scopes if there are no
/// frames.
///
/// A nested scope's start is measured from its parent's start. A top-level scope's start is measured as if every frame began
/// when the first frame did. Siblings are ordered by the least start of their pieces, then by id, then by the bytes of their
/// texts. Each sibling starts at the greatest of three times: that least start, 0, and the end of the sibling before it. A
/// merged scope's end is its start plus its duration per frame.
///
/// Fails with the first of these, in the order of the frames and of the scopes in their streams: a fault of a stream
/// (`PrematureEnd`, `InvalidStream` or `ScopeNeverEnded`); `TooDeep` at a scope nested in 1,024 others; `TooLarge` if a
/// measured start, the number of scopes with the same path, or their total duration doesn't fit. Once all frames are merged, it
/// fails with `TooLarge` if an end doesn't fit `i64`. It may fail with `Memory` at any step.
///
/// The collection isn't read: a scope's details affect neither the merge nor its order. The merged scopes own their texts.
///
/// ```
/// let merged = merge_scopes_for_thread(alloc, view.scope_collection(), &frames, &info)?;
/// ```
pub fn merge_scopes_for_thread<'s>(
    alloc: Global,
    collection: &ScopeCollection,
    frames: &'s [Arc<UnpackedFrameData>],
    info: &ThreadInfo,
) -> Result<Vec<MergeScope<'s>>>
    // What it returns is the frames' merge.
    ensures merged { IfOk result (λ merged.
        AreMerged (frames_bytes (key_of info.now) frames.now) (forest_in merged.items)) }
    // Unless memory runs out, its error is the frames' refusal.
    ensures refused { IfErr result (λ e.
        (e ≡ Error.Memory) ⊎ IsMergeRefusal (frames_bytes (key_of info.now) frames.now) e) }
{
    let mut tries = 0;
    merge_scopes_counted(alloc, collection, frames, info, &mut tries)
}

/// Merges like [`merge_scopes_for_thread`]. Sets `tries` to the number of bytes `(`, in all frames together, at which it tried
/// to read a scope. If it fails, `tries` counts those up to the refusal.
pub fn merge_scopes_counted<'s>(
    alloc: Global,
    _collection: &ScopeCollection,
    frames: &'s [Arc<UnpackedFrameData>],
    info: &ThreadInfo,
    tries: &mut u128,
) -> Result<Vec<MergeScope<'s>>>
    // What it returns is the frames' merge, with one try for each scope.
    ensures merged { IfOk result (λ merged.
        (merge : AreMerged (frames_bytes (key_of info.now) frames.now) (forest_in merged.items))
        × (tries.new ≡ length (occurrences merge.scopes))) }
    // Unless memory runs out, its error is the frames' refusal, after exactly these tries.
    ensures refused { IfErr result (λ e. (e ≡ Error.Memory)
        ⊎ IsRefusalAfter (frames_bytes (key_of info.now) frames.now) tries.new e) }
    // No frame is read after one that is refused.
    ensures read { ReadsFew (frames_bytes (key_of info.now) frames.now) tries.new }
    ensures few { tries.new ≤ most_tries (frames_bytes (key_of info.now) frames.now) }
{
    *tries = 0;
    let mut merger = Merger::new(alloc, info);
    for frame in frames {
        let mut made = 0;
        // The tries count also if the frame is refused, so they are added before the error is returned.
        let added = merger.add_counted(frame, &mut made);
        *tries += made as u128;
        added?;
    }
    merger.finish()
}
