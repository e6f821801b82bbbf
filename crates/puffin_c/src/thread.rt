//! Records the scopes of one thread.

ghost use Rattle.std.specs.Prelude.{◌≡◌, ◌≢◌, Some, is_some, true, OnOk, OnErr, IfErr};
ghost use Rattle.puffin_c.specs.declared.fault.Fault.TheVariants as fault;
ghost use Rattle.puffin_c.specs.Faults.{Returns};
ghost use Rattle.puffin_c.specs.Handles.{ids_in, thread_in, scopes_on};
ghost use Rattle.puffin_c.specs.Counting.{form_given};
ghost use Rattle.puffin_c.specs.Recording.{Opens, Closes, no_scope, Skips, BeginsIf, Ends, Discards, Keeps};

use crate::fault::{Fault, answer_code};
use crate::handles::{PuffinIds, PuffinThread};
use crate::raw_box::RawBox;
use crate::recorder::Recorder;
use crate::slot::Slot;
use crate::stream::form_of;
use crate::texts::{new_string, text};
use puffin_data::Error;
use puffin_data::data::{Form, ScopeId};
use std::alloc::Global;
use std::mem;

/// Opens a handle with a profiler for a new thread, whose scopes are on.
fn open(
    alloc: Global,
    thread: &mut PuffinThread,
    ids: &mut PuffinIds,
    name: &[u8],
    form: Form,
) -> Result<(), Fault>
    ensures opens { Opens (thread_in thread.old) (is_some (ids_in ids.old)) name.now form
        (thread_in thread.new) result }
    ensures on { OnOk result (scopes_on thread.new ≡ true) }
    ensures same_switch { OnErr result (scopes_on thread.new ≡ scopes_on thread.old) }
    ensures same_ids { ids_in ids.new ≡ ids_in ids.old }
{
    if thread.is_open {
        return Err(Fault::IsOpen);
    }
    if !ids.is_open {
        return Err(Fault::NotOpen);
    }
    let name = text(name)?;
    let name = new_string(alloc, name)?;
    match Box::new(alloc, Recorder::new(alloc, name, form)) {
        Ok(held) => {
            thread.put(held, true);
            Ok(())
        }
        Err(_) => Err(Fault::Refused(Error::Memory)),
    }
}

/// Opens a handle with a profiler for a thread with this name, which reports to profilers that were opened with `ids`. The texts
/// of its scopes are cut at a character boundary to at most 127 bytes, or 16,383 if `long_texts` is set.
///
/// Fails with the first of these that applies: `IsOpen`; `NotOpen` if `ids` isn't open; `NotText` if the name isn't UTF-8;
/// `Memory`. Nothing changes then.
#[unsafe(no_mangle)]
pub extern "C" fn puffin_thread_open(
    alloc: Global,
    thread: &mut PuffinThread,
    ids: &mut PuffinIds,
    name: &[u8],
    long_texts: bool,
) -> u32
    ensures opens { Returns result (λ answer.
        Opens (thread_in thread.old) (is_some (ids_in ids.old)) name.now (form_given long_texts)
        (thread_in thread.new) answer
        × OnOk answer (scopes_on thread.new ≡ true)
        × OnErr answer (scopes_on thread.new ≡ scopes_on thread.old)) }
    ensures same_ids { ids_in ids.new ≡ ids_in ids.old }
{
    let answer = open(alloc, thread, ids, name, form_of(long_texts));
    answer_code(answer)
}

/// Closes a handle.
fn close(alloc: Global, thread: &mut PuffinThread) -> Result<(), Fault>
    ensures { Closes (thread_in thread.old) (thread_in thread.new) result }
{
    if !thread.is_open {
        return Err(Fault::NotOpen);
    }
    drop(thread.take(alloc));
    Ok(())
}

/// Closes a handle, and drops the scopes that weren't reported.
///
/// Fails with `NotOpen`.
#[unsafe(no_mangle)]
pub extern "C" fn puffin_thread_close(alloc: Global, thread: &mut PuffinThread) -> u32
    ensures { Returns result (Closes (thread_in thread.old) (thread_in thread.new)) }
{
    let answer = close(alloc, thread);
    answer_code(answer)
}

/// Gives up an open thread's waiting scopes, and tells how many there were.
fn discard(alloc: Global, thread: &mut PuffinThread, scopes: &mut u64) -> Result<(), Fault>
    ensures discards { Discards (thread_in thread.old) (thread_in thread.new) scopes.old scopes.new
        result }
    ensures same_switch { scopes_on thread.new ≡ scopes_on thread.old }
{
    if !thread.is_open {
        return Err(Fault::NotOpen);
    }
    let is_on = thread.is_on;
    let mut recorder = thread.take(alloc);
    let answer = recorder.discard();
    thread.put(recorder, is_on);
    *scopes = answer? as u64;
    Ok(())
}

/// Gives up a thread's waiting scopes, for example those of a report that is refused again and again, and sets `scopes` to how
/// many there were.
///
/// Fails with `NotOpen`, or with `ScopesOpen` while a scope is open. Nothing changes then.
#[unsafe(no_mangle)]
pub extern "C" fn puffin_thread_discard(
    alloc: Global,
    thread: &mut PuffinThread,
    scopes: &mut u64,
) -> u32
    ensures discards { Returns result (Discards (thread_in thread.old) (thread_in thread.new)
        scopes.old scopes.new) }
    ensures same_switch { scopes_on thread.new ≡ scopes_on thread.old }
{
    let answer = discard(alloc, thread, scopes);
    answer_code(answer)
}

/// Turns an open thread's scopes on or off.
fn switch(thread: &mut PuffinThread, is_on: bool) -> Result<(), Fault>
    ensures keeps { Keeps (thread_in thread.old) (thread_in thread.new) result }
    ensures on { OnOk result (scopes_on thread.new ≡ is_on) }
    ensures err { OnErr result (scopes_on thread.new ≡ scopes_on thread.old) }
{
    if !thread.is_open {
        return Err(Fault::NotOpen);
    }
    thread.is_on = is_on;
    Ok(())
}

/// Turns a thread's scopes on or off. They are on when the handle is opened. While they are off, [`puffin_begin`] begins no scope
/// and sets `scope` to 0, and [`puffin_end`] takes 0 and does nothing. A scope that is open already is ended as usual.
///
/// Fails with `NotOpen`. Nothing changes then.
#[unsafe(no_mangle)]
pub extern "C" fn puffin_set_scopes_on(thread: &mut PuffinThread, is_on: bool) -> u32
    ensures { Returns result (λ answer.
        Keeps (thread_in thread.old) (thread_in thread.new) answer
        × OnOk answer (scopes_on thread.new ≡ is_on)
        × OnErr answer (scopes_on thread.new ≡ scopes_on thread.old)) }
{
    let answer = switch(thread, is_on);
    answer_code(answer)
}

/// Limits the bytes of an open thread's scopes.
fn limit(alloc: Global, thread: &mut PuffinThread, bytes: u64) -> Result<(), Fault>
    ensures keeps { Keeps (thread_in thread.old) (thread_in thread.new) result }
    ensures same_switch { scopes_on thread.new ≡ scopes_on thread.old }
{
    if !thread.is_open {
        return Err(Fault::NotOpen);
    }
    let is_on = thread.is_on;
    let mut recorder = thread.take(alloc);
    recorder.set_max_bytes(bytes as usize);
    thread.put(recorder, is_on);
    Ok(())
}

/// Sets how many bytes of scopes a thread may hold, open ones and closed ones that no report took. A scope takes 31 bytes and its
/// text; [`puffin_begin`] asks for 31 bytes and the longest text, and fails with `Memory` where that is more than is left. At first
/// there is no such limit.
///
/// Fails with `NotOpen`. Allocates nothing.
#[unsafe(no_mangle)]
pub extern "C" fn puffin_set_max_bytes(alloc: Global, thread: &mut PuffinThread, bytes: u64) -> u32
    ensures keeps { Returns result (Keeps (thread_in thread.old) (thread_in thread.new)) }
    ensures same_switch { scopes_on thread.new ≡ scopes_on thread.old }
{
    let answer = limit(alloc, thread, bytes);
    answer_code(answer)
}

/// The offset that stands for no scope.
const NO_SCOPE: u64 = 0;

/// Begins no scope, because scopes are off.
#[cold]
#[inline(never)]
fn skip(thread: &PuffinThread, scope: &mut u64) -> Result<(), Fault>
    ensures { Skips (thread_in thread.now) (thread_in thread.now) scope.old scope.new result }
{
    if !thread.is_open {
        return Err(Fault::NotOpen);
    }
    *scope = NO_SCOPE;
    Ok(())
}

/// Begins a scope, if scopes are on.
#[inline(always)]
fn begin(
    alloc: Global,
    thread: &mut PuffinThread,
    now_ns: i64,
    id: u32,
    bytes: &[u8],
    scope: &mut u64,
) -> Result<(), Fault>
    ensures begins { BeginsIf (scopes_on thread.old) (thread_in thread.old) now_ns id bytes.now
        (thread_in thread.new) scope.old scope.new result }
    ensures same_switch { scopes_on thread.new ≡ scopes_on thread.old }
{
    if !thread.is_on {
        return skip(thread, scope);
    }
    let Some(id) = ScopeId::new(id) else {
        return Err(Fault::NoId);
    };
    let text = text(bytes)?;
    let slot = mem::replace(&mut thread.slot, Slot::empty(alloc));
    let mut recorder = slot.into_thread().restore();
    let answer = recorder.begin(now_ns, id, text);
    thread.slot = Slot::of_thread(RawBox::take(recorder));
    *scope = answer? as u64;
    Ok(())
}

/// Begins a scope with this id and the text `bytes` at this time, and sets `scope` to its offset, which [`puffin_end`] takes. A
/// negative time counts as 0, and a time before the thread's last one counts as the last one. Begins nothing and sets `scope` to
/// 0 if scopes are off, whatever the id and the text are.
///
/// Fails with the first of `NotOpen`, `NoId`, `NotText` and `Memory` that applies. Nothing changes then.
#[unsafe(no_mangle)]
pub extern "C" fn puffin_begin(
    alloc: Global,
    thread: &mut PuffinThread,
    now_ns: i64,
    id: u32,
    bytes: &[u8],
    scope: &mut u64,
) -> u32
    ensures begins { Returns result (BeginsIf (scopes_on thread.old) (thread_in thread.old) now_ns
        id bytes.now (thread_in thread.new) scope.old scope.new) }
    ensures same_switch { scopes_on thread.new ≡ scopes_on thread.old }
{
    let answer = begin(alloc, thread, now_ns, id, bytes, scope);
    answer_code(answer)
}

/// Returns the outcome of an end that was refused with this error: none, if the offset is that of no scope.
#[inline(always)]
fn refused_end(scope: u64, cause: Error) -> Result<(), Fault>
    ensures ok { OnOk result (scope ≡ no_scope) }
    ensures err { IfErr result (λ f. (f ≡ fault.Refused cause) × (scope ≢ no_scope)) }
{
    if scope == NO_SCOPE {
        return Ok(());
    }
    Err(Fault::Refused(cause))
}

/// Ends the scope at this offset, if it is that of a scope.
#[inline(always)]
fn end(alloc: Global, thread: &mut PuffinThread, now_ns: i64, scope: u64) -> Result<(), Fault>
    ensures ends { Ends (thread_in thread.old) now_ns scope (thread_in thread.new) result }
    ensures same_switch { scopes_on thread.new ≡ scopes_on thread.old }
{
    if !thread.is_open {
        return Err(Fault::NotOpen);
    }
    let slot = mem::replace(&mut thread.slot, Slot::empty(alloc));
    let mut recorder = slot.into_thread().restore();
    let answer = recorder.end(now_ns, scope as usize);
    thread.slot = Slot::of_thread(RawBox::take(recorder));
    match answer {
        Ok(()) => Ok(()),
        Err(cause) => refused_end(scope, cause),
    }
}

/// Ends this scope, which must be the innermost open one, at this time. The scope then waits for the next [`puffin_report`]. Does
/// nothing if `scope` is 0.
///
/// Fails with `NotOpen` or `MismatchedEnd`. Nothing changes then.
///
/// [`puffin_report`]: crate::profiling::puffin_report
#[unsafe(no_mangle)]
pub extern "C" fn puffin_end(
    alloc: Global,
    thread: &mut PuffinThread,
    now_ns: i64,
    scope: u64,
) -> u32
    ensures ends { Returns result (Ends (thread_in thread.old) now_ns scope
        (thread_in thread.new)) }
    ensures same_switch { scopes_on thread.new ≡ scopes_on thread.old }
{
    let answer = end(alloc, thread, now_ns, scope);
    answer_code(answer)
}
