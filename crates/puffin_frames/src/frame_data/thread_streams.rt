ghost use Rattle.std.specs.Prelude.{◌≡◌, ◌⊎◌, ◌↔◌, ◌+◌, ◌^◌, ◌<◌, ◌≤◌, IfOk, IfErr, OnOk, OnErr, length, IsOkUnless, IsTrue};
ghost use Rattle.std.specs.Arc.{arc_value};
ghost use Rattle.std.specs.BTreeMap.{insert_entry};
ghost use Rattle.std.specs.Map.{keys_of};
ghost use Rattle.std.specs.List.Sorted.{IsStrictlySortedBy};
ghost use Rattle.puffin_data.specs.Forest.{empty};
ghost use Rattle.puffin_data.specs.Honesty.{IsHonest, facts_of, facts_of_ref, joined_facts, AreUnlike};
ghost use Rattle.puffin_data.specs.declared.data.form.Form.{Form};
ghost use Rattle.puffin_data.specs.declared.error.Error.{Error};
ghost use Rattle.puffin_frames.specs.Frame.Contents.{without_sharing, shared_streams, stream_under, no_scopes, reported_to};
ghost use Rattle.puffin_frames.specs.Frame.Holding.{HaveLayout, AreReadAgain};
ghost use Rattle.puffin_frames.specs.Packet.Structs.{IsThreadKey, AreCounts};
ghost use Rattle.puffin_frames.specs.inner.Pairs.{pairs_of};
ghost use Rattle.puffin_threads.specs.Thread.ThreadKey.{key_of, thread_cmp};

use crate::frame_data::encode::{counts_fit, thread_fits};
use puffin_data::data::{StreamInfo, StreamInfoRef};
use puffin_data::{Error, Result};
use puffin_threads::thread_profiler::ThreadInfo;
use std::alloc::Global;
use std::collections::BTreeMap;
use std::sync::Arc;

/// The room, in bytes, that a thread's first report gets if it is small: more small reports usually follow soon.
const FIRST_ROOM: usize = 256;

/// Streams with their counts, by thread.
pub type ThreadStreams = BTreeMap<ThreadInfo, Arc<StreamInfo>>;

/// Moves each stream into an `Arc`. Fails only with `Memory`.
pub(crate) fn share_streams(
    alloc: Global,
    streams: BTreeMap<ThreadInfo, StreamInfo>,
) -> Result<ThreadStreams>
    ensures ok { IfOk result (λ shared. without_sharing shared.entries ≡ streams.entries) }
    ensures read_again { IfOk result (λ shared. AreReadAgain (shared_streams shared.entries)) }
    ensures err { IsOkUnless result Error.Memory }
{
    let mut shared = BTreeMap::new(alloc);
    for (thread, info) in streams {
        // Both calls do nothing; their contracts tell the prover the ranges of the numbers.
        thread_fits(&thread);
        counts_fit(&info);
        let _before = shared.insert(thread, Arc::new(alloc, info)?)?;
    }
    let _count = shared.len();
    Ok(shared)
}

/// Copies a map of streams; the copy shares them. Fails only with `Memory`.
pub(crate) fn streams_copy(alloc: Global, streams: &ThreadStreams) -> Result<ThreadStreams>
    ensures ok { IfOk result (λ copy. pairs_of copy.entries ≡ pairs_of streams.now.entries) }
    ensures memory { IsOkUnless result Error.Memory }
{
    let mut copy = BTreeMap::new(alloc);
    'streams: for (thread, info) in streams.iter() {
        let _before = copy.insert(thread.clone()?, Arc::try_clone(info)?)?;
    }
    Ok(copy)
}

/// Appends an info's scopes to a shared info. Other owners of that info don't see the change.
///
/// Fails with the first cause that applies: `UnlikeForms` if both have bytes and their forms differ; `TooLarge` if the number
/// of scopes doesn't fit `usize`; or `Memory`. The info is then as before.
fn extend_shared(alloc: Global, shared: &mut Arc<StreamInfo>, times: &StreamInfoRef) -> Result<()>
    ensures ok { OnOk result (
        facts_of (arc_value shared.new)
        ≡ joined_facts (facts_of (arc_value shared.old)) (facts_of_ref times.now)) }
    ensures counts { OnOk result (AreCounts (facts_of (arc_value shared.new))) }
    ensures unlike { (result ≡ Err Error.UnlikeForms)
        ↔ AreUnlike (facts_of (arc_value shared.old)) (facts_of_ref times.now) }
    ensures too_large { (result ≡ Err Error.TooLarge)
        ↔ ((¬ AreUnlike (facts_of (arc_value shared.old)) (facts_of_ref times.now))
        × (2 ^ 64 ≤ (arc_value shared.old).num_scopes + times.now.num_scopes)) }
    ensures err { OnErr result (
        facts_of (arc_value shared.new) ≡ facts_of (arc_value shared.old)) }
    ensures cause { IfErr result (λ cause.
        (cause ≡ Error.UnlikeForms) ⊎ (cause ≡ Error.TooLarge) ⊎ (cause ≡ Error.Memory)) }
{
    if let Some(alone) = Arc::get_mut(shared) {
        alone.extend(times)?;
        counts_fit(alone);
        return Ok(());
    }
    *shared = extend_copy(alloc, shared, times)?;
    Ok(())
}

/// Copies an info and appends another's scopes to the copy. Fails as [`StreamInfo::extend`] does.
#[cold]
#[inline(never)]
fn extend_copy(alloc: Global, info: &StreamInfo, times: &StreamInfoRef) -> Result<Arc<StreamInfo>>
    ensures ok { IfOk result (λ copy.
        facts_of (arc_value copy)
        ≡ joined_facts (facts_of info.now) (facts_of_ref times.now)) }
    ensures counts { IfOk result (λ copy. AreCounts (facts_of (arc_value copy))) }
    ensures unlike { (result ≡ Err Error.UnlikeForms)
        ↔ AreUnlike (facts_of info.now) (facts_of_ref times.now) }
    ensures too_large { (result ≡ Err Error.TooLarge)
        ↔ ((¬ AreUnlike (facts_of info.now) (facts_of_ref times.now))
        × (2 ^ 64 ≤ info.now.num_scopes + times.now.num_scopes)) }
    ensures cause { IfErr result (λ cause.
        (cause ≡ Error.UnlikeForms) ⊎ (cause ≡ Error.TooLarge) ⊎ (cause ≡ Error.Memory)) }
{
    if info.is_unlike(times) {
        return Err(Error::UnlikeForms);
    }
    if info.num_scopes.checked_add(times.num_scopes).is_none() {
        return Err(Error::TooLarge);
    }
    let mut copy = info.clone()?;
    copy.extend(times)?;
    counts_fit(&copy);
    Ok(Arc::new(alloc, copy)?)
}

/// Returns whether `times` and the stream under the thread `info` both have bytes and their forms differ. Allocates nothing.
pub fn are_unlike(streams: &ThreadStreams, info: &ThreadInfo, times: &StreamInfoRef) -> bool
    ensures { IsTrue result
        ↔ AreUnlike (stream_under (shared_streams streams.now.entries) (key_of info.now))
        (facts_of_ref times.now) }
{
    match streams.get(info) {
        Some(shared) => shared.is_unlike(times),
        None => false,
    }
}

/// Makes an empty info that is about to take this many bytes. If they are few, makes room for more, provided there is memory.
fn fresh_info(alloc: Global, bytes: usize) -> StreamInfo
    ensures honest { IsHonest result empty }
    ensures form { result.stream.form ≡ Form.Short }
{
    let mut fresh = StreamInfo::new(alloc);
    if bytes < FIRST_ROOM {
        // Without the room it is only slower.
        let _reserved = fresh.stream.reserve(FIRST_ROOM);
    }
    fresh
}

/// Does nothing. The contract states what the type guarantees: a number fits `usize`.
fn fits(number: usize)
    ensures { number < 2 ^ 64 }
{}

/// Makes the info of a thread's first scopes. Fails only with `Memory`.
#[cold]
#[inline(never)]
fn first_info(alloc: Global, times: &StreamInfoRef) -> Result<Arc<StreamInfo>>
    ensures ok { IfOk result (λ info.
        facts_of (arc_value info) ≡ joined_facts no_scopes (facts_of_ref times.now)) }
    ensures counts { IfOk result (λ info. AreCounts (facts_of (arc_value info))) }
    ensures err { IsOkUnless result Error.Memory }
    ensures fits { times.now.num_scopes < 2 ^ 64 }
{
    fits(times.num_scopes);
    let mut fresh = fresh_info(alloc, times.stream.len());
    fresh.extend(times)?;
    counts_fit(&fresh);
    Ok(Arc::new(alloc, fresh)?)
}

/// Inserts a thread's first scopes into the map. Fails only with `Memory`; nothing changes then.
#[cold]
#[inline(never)]
fn insert_first(streams: &mut ThreadStreams, info: ThreadInfo, first: Arc<StreamInfo>) -> Result<()>
    ensures ok { OnOk result (
        streams.new.entries ≡ insert_entry thread_cmp streams.old.entries info first) }
    ensures thread { IsThreadKey (key_of info) }
    ensures count { OnOk result (length streams.new.entries < 2 ^ 64) }
    ensures sorted { IsStrictlySortedBy thread_cmp (keys_of streams.new.entries) }
    ensures err { OnErr result (streams.new.entries ≡ streams.old.entries) }
    ensures memory { IsOkUnless result Error.Memory }
{
    thread_fits(&info);
    let _before = streams.insert(info, first)?;
    let _count = streams.len();
    Ok(())
}

/// Appends the scopes of `times` to those that the map has under the thread `info`. Other owners of a stream in the map keep
/// the scopes they had.
///
/// Fails with the first cause that applies: `UnlikeForms` if `times` and the stream under that thread both have bytes and their
/// forms differ; `TooLarge` if the number of scopes under that thread doesn't fit `usize`; or `Memory`. The scopes under each
/// thread are then as before.
///
/// ```
/// let mut streams = BTreeMap::new(alloc);
/// report_to(alloc, &mut streams, thread, &info.as_stream_into_ref())?;
/// ```
#[inline(always)]
pub fn report_to(
    alloc: Global,
    streams: &mut ThreadStreams,
    info: ThreadInfo,
    times: &StreamInfoRef,
) -> Result<()>
    ensures ok { OnOk result (
        shared_streams streams.new.entries
        ≡ reported_to (shared_streams streams.old.entries) (key_of info) (
        facts_of_ref times.now)) }
    ensures layout { OnOk result (
        HaveLayout (shared_streams streams.old.entries) →
        HaveLayout (shared_streams streams.new.entries)) }
    ensures unlike { (result ≡ Err Error.UnlikeForms)
        ↔ AreUnlike (stream_under (shared_streams streams.old.entries) (key_of info))
        (facts_of_ref times.now) }
    ensures too_large { (result ≡ Err Error.TooLarge)
        ↔ ((¬ AreUnlike (stream_under (shared_streams streams.old.entries) (key_of info))
        (facts_of_ref times.now))
        × (2 ^ 64 ≤ (stream_under (shared_streams streams.old.entries) (key_of info)).num_scopes
        + times.now.num_scopes)) }
    ensures err { OnErr result (
        shared_streams streams.new.entries ≡ shared_streams streams.old.entries) }
    ensures cause { IfErr result (λ cause.
        (cause ≡ Error.UnlikeForms) ⊎ (cause ≡ Error.TooLarge) ⊎ (cause ≡ Error.Memory)) }
{
    if let Some(shared) = streams.get_mut(&info) {
        return extend_shared(alloc, shared, times);
    }
    let first = first_info(alloc, times)?;
    insert_first(streams, info, first)
}
