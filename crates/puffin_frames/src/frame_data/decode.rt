//! Decoding the parts of a packet: `read_` functions read at a cursor, and `_in` functions decode bytes that are one value alone.

ghost use Rattle.std.specs.Prelude.{◌≡◌, ◌-◌, ℕ, ◌∷◌, ◌++◌, [], List, Option, Err, is_some, string_bytes, true, false, IfOk, IsTrue};
ghost use Rattle.std.specs.Option.{option_map};
ghost use Rattle.std.specs.Cow.{cow_str_bytes};
ghost use Rattle.std.specs.FinMap.{is_sorted};
ghost use Rattle.puffin_data.specs.Honesty.{StreamFacts, facts_of};
ghost use Rattle.puffin_data.specs.Value.Decoding.{whole, optional_at, signed_at, text_at, times_at};
ghost use Rattle.puffin_frames.specs.inner.Stopping.{DecodesOrStops, Reads, ReadsOrStops, Skips, legacy_from_parts};
ghost use Rattle.puffin_frames.specs.declared.frame_data.decode.Stop.TheVariants.{Memory};
ghost use Rattle.puffin_threads.specs.Thread.ThreadKey.{ThreadKey, key_of, key_cmp};
ghost use Rattle.puffin_threads.specs.Details.{details_of, shared_details};
ghost use Rattle.puffin_frames.specs.inner.Pairs.{pairs_of, only_sorted};
ghost use Rattle.puffin_frames.specs.Packet.Structs.{meta_at, key_at, form_in_at, facts_at, stream_at, streams_at, id_at, detail_at, details_at, legacy_at};

use crate::frame_data::encode::packed_form;
use crate::frame_data::meta::FrameMeta;
use crate::frame_data::thread_streams::ThreadStreams;
use puffin_data::NanoSecond;
use puffin_data::data::{Form, ScopeId, Stream, StreamInfo};
use puffin_data::wire::Cursor;
use puffin_threads::scope_details::ScopeDetails;
use puffin_threads::thread_profiler::ThreadInfo;
use std::alloc::{AllocError, AllocFailed, Global};
use std::borrow::CowStr;
use std::collections::BTreeMap;
use std::sync::Arc;

/// Why a part can't be decoded.
#[derive(Clone, Copy, Debug)]
pub(crate) enum Stop {
    /// An allocation failed.
    Memory,
    /// The bytes aren't a layout of the value.
    NoLayout,
}

impl From<AllocError> for Stop {
    ghost from_gives = { λ _ e. e ≡ Memory };

    fn from(_e: AllocError) -> Stop {
        Stop::Memory
    }
}

impl<T: Drop> From<AllocFailed<T>> for Stop {
    ghost from_gives = { λ _ e. e ≡ Memory };

    fn from(_e: AllocFailed<T>) -> Stop {
        Stop::Memory
    }
}

/// Reads a meta. Returns `None` if the bytes don't begin with its layout.
#[tactic(auto, unfolding(crate::specs::Packet::Structs::meta_at))]
fn read_meta(cursor: &mut Cursor) -> Option<FrameMeta>
    ensures { Reads result cursor.new (meta_at cursor.old) }
{
    let frame_index = cursor.u64()?;
    let start = cursor.i64()?;
    let stop = cursor.i64()?;
    let num_bytes = cursor.u64()? as usize;
    let num_scopes = cursor.u64()? as usize;
    Some(FrameMeta {
        frame_index,
        range_ns: (start, stop),
        num_bytes,
        num_scopes,
    })
}

/// Decodes a meta. Returns `None` unless all of the bytes are its layout.
pub(crate) fn meta_in(bytes: &[u8]) -> Option<FrameMeta>
    ensures { result ≡ whole meta_at bytes.now }
{
    let mut cursor = Cursor::new(bytes);
    let meta = read_meta(&mut cursor)?;
    if cursor.rest() == 0 { Some(meta) } else { None }
}

/// Reads a text, and copies it.
fn read_string(alloc: Global, cursor: &mut Cursor) -> Result<String, Stop>
    ensures { ReadsOrStops (λ text. string_bytes text) result cursor.new (text_at cursor.old) }
{
    let text = cursor.text().ok_or(Stop::NoLayout)?;
    Ok(String::from_str(alloc, text)?)
}

/// Reads a thread's start, which may be missing.
fn read_start(cursor: &mut Cursor) -> Result<Option<NanoSecond>, Stop>
    ensures { ReadsOrStops (λ start. start) result cursor.new (optional_at signed_at cursor.old) }
{
    let given = cursor.flag().ok_or(Stop::NoLayout)?;
    if !given {
        return Ok(None);
    }
    let start = cursor.i64().ok_or(Stop::NoLayout)?;
    Ok(Some(start))
}

/// Reads a thread's info: its start, and then its name.
#[tactic(auto, unfolding(crate::specs::Packet::Structs::key_at))]
fn read_thread(alloc: Global, cursor: &mut Cursor) -> Result<ThreadInfo, Stop>
    ensures { ReadsOrStops key_of result cursor.new (key_at cursor.old) }
{
    let start_time_ns = read_start(cursor)?;
    let name = read_string(alloc, cursor)?;
    Ok(ThreadInfo {
        start_time_ns,
        name,
    })
}

/// Reads the form of a stream in a packet of form `packed`: a packet of the short form doesn't store it.
fn read_form(cursor: &mut Cursor, packed: Form) -> Option<Form>
    ensures { Reads result cursor.new (form_in_at packed cursor.old) }
{
    match packed {
        Form::Short => Some(Form::Short),
        Form::Long => {
            let is_long = cursor.flag()?;
            Some(if is_long { Form::Long } else { Form::Short })
        }
    }
}

/// Reads the info of a thread's scopes in a packet of form `packed`. Copies the stream as one block.
#[tactic(auto, unfolding(crate::specs::Packet::Structs::facts_at))]
fn read_facts(alloc: Global, cursor: &mut Cursor, packed: Form) -> Result<StreamInfo, Stop>
    ensures { ReadsOrStops facts_of result cursor.new (facts_at packed cursor.old) }
{
    let form = read_form(cursor, packed).ok_or(Stop::NoLayout)?;
    let bytes = cursor.bytes().ok_or(Stop::NoLayout)?;
    let num_scopes = cursor.u64().ok_or(Stop::NoLayout)? as usize;
    let depth = cursor.u64().ok_or(Stop::NoLayout)? as usize;
    let start = cursor.i64().ok_or(Stop::NoLayout)?;
    let stop = cursor.i64().ok_or(Stop::NoLayout)?;
    Ok(StreamInfo {
        stream: Stream::from_bytes(Vec::from_slice(alloc, bytes)?, form),
        num_scopes,
        depth,
        range_ns: (start, stop),
    })
}

/// Returns whether a thread is ordered after all threads of the map.
fn comes_last(streams: &ThreadStreams, thread: &ThreadInfo) -> bool
    ensures yes { (info : StreamFacts) → is_sorted key_cmp (pairs_of streams.now.entries) ≡ true →
        IsTrue result →
        is_sorted key_cmp (pairs_of streams.now.entries ++ (key_of thread.now, info) ∷ []) ≡ true }
    ensures no { (info : StreamFacts) (rest : List (ThreadKey × StreamFacts)) → result ≡ false →
        is_sorted key_cmp (pairs_of streams.now.entries ++ (key_of thread.now, info) ∷ rest)
        ≡ false }
{
    match streams.last_key_value() {
        None => true,
        Some((last, _)) => last.cmp(thread).is_lt(),
    }
}

/// Reads a thread and the info of its scopes in a packet of form `packed`.
fn read_stream(
    alloc: Global,
    cursor: &mut Cursor,
    packed: Form,
) -> Result<(ThreadInfo, StreamInfo), Stop>
    ensures { ReadsOrStops (λ entry. (key_of entry.0, facts_of entry.1)) result cursor.new (
        stream_at packed cursor.old) }
{
    let thread = read_thread(alloc, cursor)?;
    let info = read_facts(alloc, cursor, packed)?;
    Ok((thread, info))
}

/// Reads `count` streams. Stops at a thread that isn't ordered after those before it.
fn read_counted_streams(
    alloc: Global,
    cursor: &mut Cursor,
    packed: Form,
    count: u64,
) -> Result<ThreadStreams, Stop>
    ensures given { ReadsOrStops (λ streams. pairs_of streams.entries) result cursor.new (
        only_sorted (times_at (stream_at packed) count cursor.old)) }
    ensures sorted { IfOk result (λ streams. is_sorted key_cmp (pairs_of streams.entries) ≡ true) }
{
    let mut streams = BTreeMap::new(alloc);
    'streams: for _ in 0..count {
        let (thread, info) = read_stream(alloc, cursor, packed)?;
        if !comes_last(&streams, &thread) {
            return Err(Stop::NoLayout);
        }
        let _before = streams.insert(thread, Arc::new(alloc, info)?)?;
    }
    Ok(streams)
}

/// Reads streams in a packet of form `packed`. In a packet of the long form at least one stream must be long.
#[tactic(auto, unfolding(crate::specs::Packet::Structs::streams_at))]
fn read_streams(alloc: Global, cursor: &mut Cursor, packed: Form) -> Result<ThreadStreams, Stop>
    ensures given { ReadsOrStops (λ streams. pairs_of streams.entries) result cursor.new (
        streams_at packed cursor.old) }
    ensures sorted { IfOk result (λ streams. is_sorted key_cmp (pairs_of streams.entries) ≡ true) }
{
    let count = cursor.u64().ok_or(Stop::NoLayout)?;
    let streams = read_counted_streams(alloc, cursor, packed, count)?;
    match packed {
        Form::Short => Ok(streams),
        Form::Long => match packed_form(&streams) {
            Form::Short => Err(Stop::NoLayout),
            Form::Long => Ok(streams),
        },
    }
}

/// Decodes streams of a packet of form `packed`. All of the bytes must be their layout.
pub(crate) fn streams_in(alloc: Global, packed: Form, bytes: &[u8]) -> Result<ThreadStreams, Stop>
    ensures given { DecodesOrStops (λ streams. pairs_of streams.entries) result
        (whole (streams_at packed) bytes.now) }
    ensures sorted { IfOk result (λ streams. is_sorted key_cmp (pairs_of streams.entries) ≡ true) }
{
    let mut cursor = Cursor::new(bytes);
    let streams = read_streams(alloc, &mut cursor, packed)?;
    if cursor.rest() == 0 {
        Ok(streams)
    } else {
        Err(Stop::NoLayout)
    }
}

/// Reads a scope's id, which may be missing. Returns `None` if the bytes don't begin with its layout.
fn read_id(cursor: &mut Cursor) -> Option<Option<ScopeId>>
    ensures { Reads result cursor.new (optional_at id_at cursor.old) }
{
    if !cursor.flag()? {
        return Some(None);
    }
    let id = ScopeId::new(cursor.u32()?)?;
    Some(Some(id))
}

/// Reads a scope's name, which may be missing, and copies it.
fn read_name(alloc: Global, cursor: &mut Cursor) -> Result<Option<CowStr<'static>>, Stop>
    ensures { ReadsOrStops (λ name. option_map cow_str_bytes name) result cursor.new (
        optional_at text_at cursor.old) }
{
    let given = cursor.flag().ok_or(Stop::NoLayout)?;
    if !given {
        return Ok(None);
    }
    let name = read_string(alloc, cursor)?;
    Ok(Some(CowStr::Owned(name)))
}

/// Reads the details of one scope.
#[tactic(auto, unfolding(crate::specs::Packet::Structs::detail_at))]
fn read_detail(alloc: Global, cursor: &mut Cursor) -> Result<ScopeDetails, Stop>
    ensures { ReadsOrStops details_of result cursor.new (detail_at cursor.old) }
{
    let scope_id = read_id(cursor).ok_or(Stop::NoLayout)?;
    let scope_name = read_name(alloc, cursor)?;
    let function_name = read_string(alloc, cursor)?;
    let file_path = read_string(alloc, cursor)?;
    let line_nr = cursor.u32().ok_or(Stop::NoLayout)?;
    let named = match scope_name {
        Some(name) => ScopeDetails::from_scope_name(name),
        None => ScopeDetails::default(),
    };
    let details = named
        .with_function_name(CowStr::Owned(function_name))
        .with_file(CowStr::Owned(file_path))
        .with_line_nr(line_nr);
    Ok(match scope_id {
        Some(id) => details.with_scope_id(id),
        None => details,
    })
}

/// Reads the details of `count` scopes.
fn read_counted_details(
    alloc: Global,
    cursor: &mut Cursor,
    count: u64,
) -> Result<Vec<Arc<ScopeDetails>>, Stop>
    ensures { ReadsOrStops (λ details. shared_details details.items) result cursor.new (
        times_at detail_at count cursor.old) }
{
    let mut all = Vec::new(alloc);
    'details: for _ in 0..count {
        let details = read_detail(alloc, cursor)?;
        all.push(Arc::new(alloc, details)?)?;
    }
    Ok(all)
}

/// Reads a list of scope details: their number, and then each of them.
#[tactic(auto, unfolding(crate::specs::Packet::Structs::details_at))]
fn read_details(alloc: Global, cursor: &mut Cursor) -> Result<Vec<Arc<ScopeDetails>>, Stop>
    ensures { ReadsOrStops (λ details. shared_details details.items) result cursor.new (
        details_at cursor.old) }
{
    let count = cursor.u64().ok_or(Stop::NoLayout)?;
    read_counted_details(alloc, cursor, count)
}

/// Skips a scope's name, which may be missing. Like everything that skips here, allocates nothing.
fn pass_name(cursor: &mut Cursor) -> Option<()>
    ensures { Skips result cursor.new (optional_at text_at cursor.old) }
{
    if cursor.flag()? {
        cursor.text()?;
    }
    Some(())
}

/// Skips the details of one scope.
#[tactic(auto, unfolding(crate::specs::Packet::Structs::detail_at))]
fn pass_detail(cursor: &mut Cursor) -> Option<()>
    ensures { Skips result cursor.new (detail_at cursor.old) }
{
    read_id(cursor)?;
    pass_name(cursor)?;
    cursor.text()?;
    cursor.text()?;
    cursor.u32()?;
    Some(())
}

/// Skips the details of `count` scopes.
fn pass_details(cursor: &mut Cursor, count: u64) -> Option<()>
    ensures { Skips result cursor.new (times_at detail_at count cursor.old) }
{
    'details: for _ in 0..count {
        pass_detail(cursor)?;
    }
    Some(())
}

/// Returns whether all of the bytes are the layout of a list of scope details.
#[tactic(auto, unfolding(crate::specs::Packet::Structs::details_at))]
fn are_details(bytes: &[u8]) -> bool
    ensures { result ≡ is_some (whole details_at bytes.now) }
{
    let mut cursor = Cursor::new(bytes);
    let Some(count) = cursor.u64() else {
        return false;
    };
    pass_details(&mut cursor, count).is_some() && cursor.rest() == 0
}

/// Decodes a list of scope details. All of the bytes must be its layout; other bytes are refused before any memory is taken.
pub(crate) fn details_in(alloc: Global, bytes: &[u8]) -> Result<Vec<Arc<ScopeDetails>>, Stop>
    ensures given { DecodesOrStops (λ details. shared_details details.items) result
        (whole details_at bytes.now) }
    ensures memory { result ≡ Err Memory → is_some (whole details_at bytes.now) ≡ true }
{
    if !are_details(bytes) {
        return Err(Stop::NoLayout);
    }
    read_details(alloc, &mut Cursor::new(bytes))
}

/// Reads the meta and the streams of a legacy frame. The streams come right after the number of the frame.
#[tactic(auto, unfolding(crate::specs::Packet::Structs::legacy_at))]
fn read_legacy(alloc: Global, cursor: &mut Cursor) -> Result<(FrameMeta, ThreadStreams), Stop>
    ensures given { ReadsOrStops legacy_from_parts result cursor.new (legacy_at cursor.old) }
    ensures sorted { IfOk result (λ frame. is_sorted key_cmp (pairs_of frame.1.entries) ≡ true) }
{
    let frame_index = cursor.u64().ok_or(Stop::NoLayout)?;
    let streams = read_streams(alloc, cursor, Form::Short)?;
    let start = cursor.i64().ok_or(Stop::NoLayout)?;
    let stop = cursor.i64().ok_or(Stop::NoLayout)?;
    let num_bytes = cursor.u64().ok_or(Stop::NoLayout)? as usize;
    let num_scopes = cursor.u64().ok_or(Stop::NoLayout)? as usize;
    let meta = FrameMeta {
        frame_index,
        range_ns: (start, stop),
        num_bytes,
        num_scopes,
    };
    Ok((meta, streams))
}

/// Decodes the meta and the streams of a legacy frame. All of the bytes must be their layout.
pub(crate) fn legacy_in(alloc: Global, bytes: &[u8]) -> Result<(FrameMeta, ThreadStreams), Stop>
    ensures given { DecodesOrStops legacy_from_parts result (whole legacy_at bytes.now) }
    ensures sorted { IfOk result (λ frame. is_sorted key_cmp (pairs_of frame.1.entries) ≡ true) }
{
    let mut cursor = Cursor::new(bytes);
    let frame = read_legacy(alloc, &mut cursor)?;
    if cursor.rest() == 0 {
        Ok(frame)
    } else {
        Err(Stop::NoLayout)
    }
}
