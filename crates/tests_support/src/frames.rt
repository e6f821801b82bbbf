//! The frame of [`PACKET`](crate::samples::PACKET), with its thread and its stream.

ghost use Rattle.std.specs.Prelude.{◌≡◌, ◌⊎◌, ◌↔◌, ◌∷◌, [], false, Some, IfOk, IfErr, IsTrue, map, option_map, IsOkUnless};
ghost use Rattle.puffin_data.specs.declared.error.Error.{Error};
ghost use Rattle.puffin_data.specs.declared.file_error.FileError.{FileError};
ghost use Rattle.puffin_data.specs.Honesty.{facts_of};
ghost use Rattle.puffin_threads.specs.Thread.ThreadKey.{key_of};
ghost use Rattle.puffin_frames.specs.Frame.Contents.{frame_meta, holding_of};
ghost use Rattle.puffin_frames.specs.Packet.Grammar.{packet};
ghost use Rattle.puffin_frames.specs.Packet.Writing.{fields_with, HasLongPart};
ghost use Rattle.tests_support.specs.Packet.{packet_key, packet_facts, packet_holding, scopes_listed};

use crate::samples::ONE_SCOPE;
use crate::threads::thread_info;
use puffin_data::data::{Counted, Form, Stream, StreamInfo};
use puffin_data::{FileError, FrameIndex, Result};
use puffin_frames::frame_data::FrameData;
use puffin_threads::scope_details::ScopeCollection;
use puffin_threads::thread_profiler::ThreadInfo;
use std::alloc::Global;
use std::collections::BTreeMap;

/// Makes the thread of [`PACKET`](crate::samples::PACKET): `main`, whose first scope began at 100. Fails only with `Memory`.
pub fn packet_thread(alloc: Global) -> Result<ThreadInfo>
    ensures ok { IfOk result (λ info. key_of info ≡ packet_key) }
    ensures memory { IsOkUnless result Error.Memory }
{
    thread_info(alloc, Some(100), "main")
}

/// Makes the info of [`ONE_SCOPE`] in this form. Its bytes are the same in both forms. Fails only with `Memory`.
pub fn packet_info(alloc: Global, form: Form) -> Result<StreamInfo>
    ensures ok { IfOk result (λ info. facts_of info ≡ packet_facts form) }
    ensures memory { IsOkUnless result Error.Memory }
{
    let bytes = Vec::from_slice(alloc, &ONE_SCOPE)?;
    StreamInfo::parse(alloc, Stream::from_bytes(bytes, form))
}

/// Makes a map with one stream. Fails only with `Memory`.
pub fn one_stream(
    alloc: Global,
    thread: ThreadInfo,
    info: StreamInfo,
) -> Result<BTreeMap<ThreadInfo, StreamInfo>>
    ensures ok { IfOk result (λ streams. streams.entries ≡ (thread, info) ∷ []) }
    ensures memory { IsOkUnless result Error.Memory }
{
    let mut streams = BTreeMap::new(alloc);
    let _none = streams.insert(thread, info)?;
    Ok(streams)
}

/// Makes frame `frame_index` of the packet's thread and scope, without details. Fails only with `Memory`.
pub fn packet_frame(alloc: Global, frame_index: FrameIndex) -> Result<FrameData>
    ensures index { IfOk result (λ frame. (frame_meta frame).frame_index ≡ frame_index) }
    ensures streams { IfOk result (λ frame. holding_of frame ≡ packet_holding) }
    ensures details { IfOk result (λ frame.
        (frame.scope_delta.items ≡ []) × (frame.full_delta ≡ false)) }
    ensures memory { IsOkUnless result Error.Memory }
{
    let streams = one_stream(
        alloc,
        packet_thread(alloc)?,
        packet_info(alloc, Form::Short)?,
    )?;
    FrameData::new(alloc, frame_index, streams, Vec::new(alloc), false)
}

/// Writes a frame into memory, with the details of `scopes` or, if that is `None`, the frame's own. Fails like
/// [`FrameData::write_into`].
pub fn written(
    alloc: Global,
    frame: &FrameData,
    scopes: Option<&ScopeCollection>,
) -> std::result::Result<Vec<u8>, FileError>
    ensures ok { IfOk result (λ bytes.
        bytes.items ≡ packet (fields_with frame.now (option_map (λ c. c.now) scopes.entry))) }
    ensures cause { IfErr result (λ e.
        (e ≡ FileError.Io)
        ⊎ (e ≡ FileError.Memory)
        ⊎ ((e ≡ FileError.PartTooLong)
        × HasLongPart (fields_with frame.now (option_map (λ c. c.now) scopes.entry)))) }
{
    let mut file = Counted::new(Vec::new(alloc));
    frame.write_into(scopes, &mut file)?;
    Ok(file.into_inner())
}

/// Returns whether a frame lists exactly these scopes, given by id and name, in this order.
pub fn lists(frame: &FrameData, scopes: &[(u32, &str)]) -> bool
    ensures { IsTrue result
        ↔ (scopes_listed frame.now ≡ map (λ s. (Some s.0, s.1.now)) scopes.now) }
{
    frame.scope_delta.len() == scopes.len()
        && frame.scope_delta.iter().zip(scopes).all(|(details, (number, name))| {
            details.name().as_str() == *name
                && details.scope_id().is_some_and(|id| id.get() == *number)
        })
}
