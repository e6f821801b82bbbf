//! Ids that threads and profilers share.

ghost use Rattle.std.specs.Prelude.{◌≡◌, ◌⊎◌, None, is_some, true, IfErr, OnOk, IsOkUnless};
ghost use Rattle.puffin_data.specs.declared.error.Error.TheVariants as error;
ghost use Rattle.puffin_c.specs.declared.fault.Fault.TheVariants as fault;
ghost use Rattle.puffin_c.specs.Faults.{Returns};
ghost use Rattle.puffin_c.specs.Handles.{ids_in};
ghost use Rattle.puffin_c.specs.Recording.{OpensIds, Closes};

use crate::fault::{Fault, answer_code};
use crate::handles::PuffinIds;
use crate::shared_ids::SharedIds;
use puffin_data::Error;
use puffin_threads::scope_details::ScopeIds;
use std::alloc::Global;
use std::sync::Arc;

impl PuffinIds {
    /// Returns another reference to the ids. Fails with `NotOpen` or `Memory`.
    pub(crate) fn share(&mut self, alloc: Global) -> Result<SharedIds, Fault>
        ensures same { ids_in self.new ≡ ids_in self.old }
        ensures ok { OnOk result (is_some (ids_in self.old) ≡ true) }
        ensures err { IfErr result (λ f.
            ((f ≡ fault.NotOpen) × (ids_in self.old ≡ None))
            ⊎ ((f ≡ fault.Refused error.Memory) × (is_some (ids_in self.old) ≡ true))) }
    {
        if !self.is_open {
            return Err(Fault::NotOpen);
        }
        let held = self.take(alloc);
        let copy: Result<_, _> = held.ids.clone();
        self.put(held);
        match copy {
            Ok(ids) => Ok(SharedIds { ids }),
            Err(_) => Err(Fault::Refused(Error::Memory)),
        }
    }
}

/// Makes a set of ids. Fails only with `Memory`.
fn new_ids(alloc: Global) -> Result<Box<SharedIds>, Fault>
    ensures { IsOkUnless result (fault.Refused error.Memory) }
{
    let Ok(ids) = Arc::new(alloc, ScopeIds::new()) else {
        return Err(Fault::Refused(Error::Memory));
    };
    match Box::new(alloc, SharedIds { ids }) {
        Ok(held) => Ok(held),
        Err(_) => Err(Fault::Refused(Error::Memory)),
    }
}

/// Opens a handle with a new set of ids.
fn open(alloc: Global, ids: &mut PuffinIds) -> Result<(), Fault>
    ensures { OpensIds (ids_in ids.old) (ids_in ids.new) result }
{
    if ids.is_open {
        return Err(Fault::IsOpen);
    }
    let held = new_ids(alloc)?;
    ids.put(held);
    Ok(())
}

/// Opens a handle with a new set of ids.
///
/// Fails with the first of `IsOpen` and `Memory` that applies. Nothing changes then.
#[unsafe(no_mangle)]
pub extern "C" fn puffin_ids_open(alloc: Global, ids: &mut PuffinIds) -> u32
    ensures { Returns result (OpensIds (ids_in ids.old) (ids_in ids.new)) }
{
    let answer = open(alloc, ids);
    answer_code(answer)
}

/// Closes a handle.
fn close(alloc: Global, ids: &mut PuffinIds) -> Result<(), Fault>
    ensures { Closes (ids_in ids.old) (ids_in ids.new) result }
{
    if !ids.is_open {
        return Err(Fault::NotOpen);
    }
    drop(ids.take(alloc));
    Ok(())
}

/// Closes a handle. Threads and profilers that were opened with it keep the ids.
///
/// Fails with `NotOpen`.
#[unsafe(no_mangle)]
pub extern "C" fn puffin_ids_close(alloc: Global, ids: &mut PuffinIds) -> u32
    ensures { Returns result (Closes (ids_in ids.old) (ids_in ids.new)) }
{
    let answer = close(alloc, ids);
    answer_code(answer)
}
