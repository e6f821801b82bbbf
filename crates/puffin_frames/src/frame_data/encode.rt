//! Encoding the parts of a packet. Each call appends to a vector, and fails only with `Memory`.

ghost use Rattle.std.specs.Prelude.{◌≡◌, ◌++◌, ◌^◌, ◌<◌, List, OnOk, OnErr, IfOk, map, length, IsOkUnless};
ghost use Rattle.std.specs.Map.{keys_of, values_of};
ghost use Rattle.std.specs.Ordering.{nat_cmp};
ghost use Rattle.std.specs.List.Sorted.{IsStrictlySortedBy};
ghost use Rattle.std.specs.Arc.{arc_value};
ghost use Rattle.std.specs.Option.{option_map};
ghost use Rattle.std.specs.Cow.{cow_str_bytes};
ghost use Rattle.puffin_data.specs.declared.error.Error.{Error};
ghost use Rattle.puffin_data.specs.Honesty.{facts_of};
ghost use Rattle.puffin_data.specs.Value.Layout.{optional, number, block, signed, IsBlock, IsText, IfAny};
ghost use Rattle.puffin_threads.specs.Thread.ThreadKey.{key_of, thread_cmp};
ghost use Rattle.puffin_threads.specs.Details.{details_of, shared_details};
ghost use Rattle.puffin_frames.specs.inner.Pairs.{pairs_of};
ghost use Rattle.puffin_frames.specs.Packet.Structs.{meta_layout, IsMeta, key_layout, IsThreadKey, form_layout, form_of_all, facts_layout, AreCounts, streams_layout, AreStreams, detail_layout, IsDetail, details_layout, AreDetails, IsId};

use crate::frame_data::meta::FrameMeta;
use crate::frame_data::thread_streams::ThreadStreams;
use puffin_data::Result;
use puffin_data::data::{Form, ScopeId, StreamInfo};
use puffin_data::wire::{put_bytes, put_i64, put_text, put_u8, put_u32, put_u64};
use puffin_threads::scope_details::ScopeDetails;
use puffin_threads::thread_profiler::ThreadInfo;
use std::borrow::CowStr;
use std::collections::BTreeMap;
use std::sync::Arc;

/// The most bytes that a number takes.
const NUMBER_SIZE: usize = 9;

/// The most bytes that a thread and the info of its scopes take, not counting the name and the stream.
const ENTRY_SIZE: usize = 7 * NUMBER_SIZE + 2;

/// The most bytes that a meta takes.
pub(crate) const META_SIZE: usize = 5 * NUMBER_SIZE;

/// Appends a frame's meta.
pub(crate) fn put_meta(out: &mut Vec<u8>, meta: &FrameMeta) -> Result<()>
    ensures ok { OnOk result (out.new.items ≡ out.old.items ++ meta_layout meta.now) }
    ensures fits { IsMeta meta.now }
    ensures memory { IsOkUnless result Error.Memory }
{
    // Copied as a whole, so that the prover knows the ranges of its numbers.
    let meta = *meta;
    let (start, stop) = meta.range_ns;
    put_u64(out, meta.frame_index)?;
    put_i64(out, start)?;
    put_i64(out, stop)?;
    put_u64(out, meta.num_bytes as u64)?;
    put_u64(out, meta.num_scopes as u64)
}

/// Returns a text unchanged. The contract states what its type guarantees: it is UTF-8 and shorter than `2^64` bytes.
fn text_of(text: &str) -> &str
    ensures same { result.now ≡ text.now }
    ensures text { IsText text.now }
{
    text
}

/// Returns bytes unchanged. The contract states what their type guarantees: they are fewer than `2^64`.
fn block_of(bytes: &[u8]) -> &[u8]
    ensures same { result.now ≡ bytes.now }
    ensures block { IsBlock bytes.now }
{
    bytes
}

/// Appends a thread's info.
fn put_thread(out: &mut Vec<u8>, thread: &ThreadInfo) -> Result<()>
    ensures ok { OnOk result (out.new.items ≡ out.old.items ++ key_layout (key_of thread.now)) }
    ensures fits { IsThreadKey (key_of thread.now) }
    ensures memory { IsOkUnless result Error.Memory }
{
    let name = text_of(&thread.name);
    match thread.start_time_ns {
        None => put_u8(out, 0)?,
        Some(start) => {
            put_u8(out, 1)?;
            put_i64(out, start)?;
        }
    }
    put_text(out, name)
}

/// Appends a stream's form in a packet of the long form, and nothing in one of the short form.
fn put_form(out: &mut Vec<u8>, packed: Form, form: Form) -> Result<()>
    ensures ok { OnOk result (out.new.items ≡ out.old.items ++ form_layout packed form) }
    ensures memory { IsOkUnless result Error.Memory }
{
    match packed {
        Form::Short => Ok(()),
        Form::Long => match form {
            Form::Short => put_u8(out, 0),
            Form::Long => put_u8(out, 1),
        },
    }
}

/// Appends the info of a thread's scopes in a packet of form `packed`, with its stream as one block.
fn put_facts(out: &mut Vec<u8>, packed: Form, info: &StreamInfo) -> Result<()>
    ensures ok { OnOk result (
        out.new.items ≡ out.old.items ++ facts_layout packed (facts_of info.now)) }
    ensures fits { AreCounts (facts_of info.now) }
    ensures memory { IsOkUnless result Error.Memory }
{
    // Everything is read before anything is written, so that the prover knows the ranges of the numbers.
    let stream = block_of(info.stream.bytes());
    let num_scopes = info.num_scopes as u64;
    let depth = info.depth as u64;
    let (start, stop) = info.range_ns;
    put_form(out, packed, info.stream.form())?;
    put_bytes(out, stream)?;
    put_u64(out, num_scopes)?;
    put_u64(out, depth)?;
    put_i64(out, start)?;
    put_i64(out, stop)
}

/// Returns the most bytes that the layout of streams takes, or `usize::MAX` if that doesn't fit.
pub(crate) fn streams_size(streams: &ThreadStreams) -> usize {
    let mut size = NUMBER_SIZE;
    'streams: for (thread, info) in streams {
        size = size
            .saturating_add(ENTRY_SIZE)
            .saturating_add(thread.name.len())
            .saturating_add(info.stream.len());
    }
    size
}

/// Returns the form of the packets that store these streams: long if some stream is.
pub(crate) fn packed_form(streams: &ThreadStreams) -> Form
    ensures { result ≡ form_of_all (pairs_of streams.now.entries) }
{
    'streams: for (_thread, info) in streams {
        if info.stream.form() == Form::Long {
            return Form::Long;
        }
    }
    Form::Short
}

/// Appends the streams and their threads in a packet of form `packed`, which must be that of [`packed_form`].
pub(crate) fn put_streams(out: &mut Vec<u8>, packed: Form, streams: &ThreadStreams) -> Result<()>
    requires { packed ≡ form_of_all (pairs_of streams.now.entries) }
    ensures ok { OnOk result (
        out.new.items ≡ out.old.items ++ streams_layout packed (pairs_of streams.now.entries)) }
    ensures fit { OnOk result (AreStreams packed (pairs_of streams.now.entries)) }
    ensures sorted { IsStrictlySortedBy thread_cmp (keys_of streams.now.entries) }
    ensures memory { IsOkUnless result Error.Memory }
{
    put_u64(out, streams.len() as u64)?;
    'streams: for (thread, info) in streams {
        put_thread(out, thread)?;
        put_facts(out, packed, info)?;
    }
    Ok(())
}

/// Does nothing. The contract states what the types guarantee: the numbers of a thread's info are in range.
pub(crate) fn thread_fits(thread: &ThreadInfo)
    ensures { IsThreadKey (key_of thread.now) }
{
    let _name = text_of(&thread.name);
    match thread.start_time_ns {
        None => {}
        Some(start) => {
            let _start = start;
        }
    }
}

/// Does nothing. The contract states what the types guarantee: the counts of an info are in range.
pub(crate) fn counts_fit(info: &StreamInfo)
    ensures { AreCounts (facts_of info.now) }
{
    let _stream = block_of(info.stream.bytes());
    let _num_scopes = info.num_scopes;
    let _depth = info.depth;
    let (_start, _stop) = info.range_ns;
}

/// Appends a name, or a mark that it is missing.
fn put_name(out: &mut Vec<u8>, name: &Option<CowStr<'static>>) -> Result<()>
    ensures ok { OnOk result (
        out.new.items ≡ out.old.items ++ optional block (option_map cow_str_bytes name.now)) }
    ensures fits { IfAny IsText (option_map cow_str_bytes name.now) }
    ensures memory { IsOkUnless result Error.Memory }
{
    match name {
        None => put_u8(out, 0),
        Some(name) => {
            let name = text_of(name.as_str());
            put_u8(out, 1)?;
            put_text(out, name)
        }
    }
}

/// Appends an id, or a mark that it is missing.
fn put_id(out: &mut Vec<u8>, id: Option<ScopeId>) -> Result<()>
    ensures ok { OnOk result (out.new.items ≡ out.old.items ++ optional number id) }
    ensures fits { IfAny IsId id }
    ensures memory { IsOkUnless result Error.Memory }
{
    match id {
        None => put_u8(out, 0),
        Some(id) => {
            // Read first, so that the prover knows its range.
            let number = id.get();
            put_u8(out, 1)?;
            put_u32(out, number)
        }
    }
}

/// Appends the details of one scope.
fn put_detail(out: &mut Vec<u8>, details: &ScopeDetails) -> Result<()>
    ensures ok { OnOk result (
        out.new.items ≡ out.old.items ++ detail_layout (details_of details.now)) }
    ensures fits { OnOk result (IsDetail (details_of details.now)) }
    ensures memory { IsOkUnless result Error.Memory }
{
    let function_name = text_of(details.function_name.as_str());
    let file_path = text_of(details.file_path.as_str());
    put_id(out, details.scope_id())?;
    put_name(out, &details.scope_name)?;
    put_text(out, function_name)?;
    put_text(out, file_path)?;
    put_u32(out, details.line_nr)
}

/// Appends a list of details.
pub(crate) fn put_details(out: &mut Vec<u8>, details: &[Arc<ScopeDetails>]) -> Result<()>
    ensures ok { OnOk result (
        out.new.items ≡ out.old.items ++ details_layout (shared_details details.now)) }
    ensures fit { OnOk result (AreDetails (shared_details details.now)) }
    ensures memory { IsOkUnless result Error.Memory }
{
    put_u64(out, details.len() as u64)?;
    'details: for one in details {
        put_detail(out, one)?;
    }
    Ok(())
}

/// Appends the details of a map as a list, in ascending order of id.
pub(crate) fn put_details_by_id(
    out: &mut Vec<u8>,
    details: &BTreeMap<ScopeId, Arc<ScopeDetails>>,
) -> Result<()>
    ensures ok { OnOk result (
        out.new.items
        ≡ out.old.items ++ details_layout (shared_details (values_of details.now.entries))) }
    ensures fit { OnOk result (AreDetails (shared_details (values_of details.now.entries))) }
    ensures sorted { IsStrictlySortedBy nat_cmp (keys_of details.now.entries) }
    ensures memory { IsOkUnless result Error.Memory }
{
    put_u64(out, details.len() as u64)?;
    'details: for one in details.values() {
        put_detail(out, one)?;
    }
    Ok(())
}
