//! Registers places in the code with a profiler, so that files contain their names.

ghost use Rattle.std.specs.Prelude.{◌≡◌, ℕ, true, Contains, None, OnOk, IfOk, IfErr};
ghost use Rattle.std.specs.FinMap as map;
ghost use Rattle.puffin_threads.specs.Details.{Details, details_of, with_id};
ghost use Rattle.puffin_frames.specs.declared.frame_data.frame.FrameData.{FrameData};
ghost use Rattle.puffin_frames.specs.Frame.Contents.{frame_details};
ghost use Rattle.puffin_collector.specs.Collector.State.{Collected};
ghost use Rattle.puffin_collector.specs.Collector.Collecting.{HoldsAll};
ghost use Rattle.puffin_c.specs.Faults.{Returns};
ghost use Rattle.puffin_c.specs.Handles.{profiler_in};
ghost use Rattle.puffin_c.specs.Naming.{AreTexts, AreNoTexts, place_texts, place_details, after_naming, Registers, RegistersPlace};

use crate::fault::{Fault, answer_code};
use crate::handles::PuffinProfiler;
use crate::texts::{new_string, text};
use puffin_threads::scope_details::ScopeDetails;
use std::alloc::Global;
use std::borrow::CowStr;

/// A place in the code.
#[repr(C)]
#[derive(Clone, Copy)]
pub struct PuffinPlace<'a> {
    /// A name of its own, or no text if the place is a function.
    pub name: &'a [u8],
    /// The name of the function that it is in.
    pub function: &'a [u8],
    /// The path of the file.
    pub file: &'a [u8],
    /// The line, or 0 if it is unknown.
    pub line: u32,
}

impl<'a> PuffinPlace<'a> {
    /// Returns the details of the place. Fails with the first of `NotText` and `Memory` that applies.
    fn details(&self, alloc: Global) -> Result<ScopeDetails, Fault>
        ensures ok { IfOk result (λ d. details_of d ≡ place_details self.now) }
        ensures texts { OnOk result (AreTexts (place_texts self.now)) }
        ensures err { IfErr result (AreNoTexts (place_texts self.now)) }
    {
        let name = text(self.name)?;
        let function = text(self.function)?;
        let file = text(self.file)?;
        let mut details = ScopeDetails::default()
            .with_function_name(CowStr::Owned(new_string(alloc, function)?))
            .with_file(CowStr::Owned(new_string(alloc, file)?))
            .with_line_nr(self.line);
        if !name.is_empty() {
            details.scope_name = Some(CowStr::Owned(new_string(alloc, name)?));
        }
        Ok(details)
    }
}

/// Registers a scope with these details with an open profiler.
fn register(
    alloc: Global,
    profiler: &mut PuffinProfiler,
    details: ScopeDetails,
    id: &mut u32,
) -> Result<(), Fault>
    requires { profiler.old.is_open ≡ true }
    ensures { Registers (profiler_in profiler.old) (details_of details) (profiler_in profiler.new)
        id.old id.new result }
{
    let mut whole = profiler.take(alloc);
    let answer = whole.register(alloc, details);
    profiler.put(whole);
    *id = answer?.get();
    Ok(())
}

/// Registers a place's details with an open profiler.
fn register_place(
    alloc: Global,
    profiler: &mut PuffinProfiler,
    place: &PuffinPlace<'_>,
    id: &mut u32,
) -> Result<(), Fault>
    ensures { RegistersPlace (profiler_in profiler.old) place.now (profiler_in profiler.new) id.old
        id.new result }
{
    if !profiler.is_open {
        return Err(Fault::NotOpen);
    }
    let details = place.details(alloc)?;
    register(alloc, profiler, details, id)
}

/// Registers a place, where any thread may begin scopes, and sets `id` to its id, which [`puffin_begin`] takes. The next frame lists
/// the place, with all others that are registered.
///
/// Fails with `NotOpen`; otherwise with `NotText` if a text isn't UTF-8; otherwise with `IdsExhausted` or `Memory`. Nothing
/// changes then, except that an id may be used up, and that a later frame may list the place under it.
///
/// [`puffin_begin`]: crate::thread::puffin_begin
#[unsafe(no_mangle)]
pub extern "C" fn puffin_register(
    alloc: Global,
    profiler: &mut PuffinProfiler,
    place: &PuffinPlace<'_>,
    id: &mut u32,
) -> u32
    ensures { Returns result (RegistersPlace (profiler_in profiler.old) place.now
        (profiler_in profiler.new) id.old id.new) }
{
    let answer = register_place(alloc, profiler, place, id);
    answer_code(answer)
}

/// A law: the next frame lists a place that was registered under a new id, with its details.
pub fn registered_is_listed()
    ensures { (c : Collected) (d : Details) (id : ℕ) (frame : FrameData) →
        map.get c.collection.by_id id ≡ None →
        HoldsAll (after_naming c (with_id d id)) frame →
        Contains (frame_details frame) (with_id d id) }
{}
