//! Details of scopes: copies of them, and the list of them in a frame.

ghost use Rattle.std.specs.Prelude.{◌≡◌, ◌++◌, ◌↔◌, OnOk, IfOk, All, IsTrue, IsSome, IsOkUnless};
ghost use Rattle.puffin_threads.specs.Details.{details_of, details_seen, shared_details, AllHaveIds};
ghost use Rattle.puffin_threads.specs.Details.Collection.{KeepsOwnIds};
ghost use Rattle.puffin_collector.specs.Collector.State.{all_details, delta_of};

use puffin_data::{Error, Result};
use puffin_threads::scope_details::{ScopeCollection, ScopeDetails};
use std::alloc::Global;
use std::sync::Arc;

/// Returns whether all of these details have ids.
pub(crate) fn all_have_ids(details: &[ScopeDetails]) -> bool
    ensures { IsTrue result ↔ All (λ one. IsSome (details_of one).id) details.now }
{
    details.iter().all(|details| details.scope_id().is_some())
}

/// Copies details, each into an `Arc` of its own. Fails only with `Memory`.
pub(crate) fn copy_details(
    alloc: Global,
    details: &[ScopeDetails],
) -> Result<Vec<Arc<ScopeDetails>>>
    ensures ok { IfOk result (λ copies. shared_details copies.items ≡ details_seen details.now) }
    ensures err { IsOkUnless result Error.Memory }
{
    let mut copies = Vec::with_capacity(alloc, details.len())?;
    for details in details {
        copies.push(Arc::new(alloc, details.clone()?)?)?;
    }
    Ok(copies)
}

/// Makes a frame's list of details: the new ones, and then, if a snapshot was requested, all details of a collection. Fails
/// only with `Memory`.
pub(crate) fn scope_delta(
    alloc: Global,
    new_details: &[Arc<ScopeDetails>],
    collection: &ScopeCollection,
    wants_all: bool,
) -> Result<Vec<Arc<ScopeDetails>>>
    requires { AllHaveIds (shared_details new_details.now) }
    ensures ok { IfOk result (λ delta.
        shared_details delta.items
        ≡ delta_of collection.now (shared_details new_details.now) wants_all) }
    ensures ids { IfOk result (λ delta. AllHaveIds (shared_details delta.items)) }
    ensures err { IsOkUnless result Error.Memory }
{
    let mut delta = Vec::with_capacity(alloc, new_details.len())?;
    for details in new_details {
        delta.push(details.clone()?)?;
    }
    if wants_all {
        append_all(&mut delta, collection)?;
    }
    Ok(delta)
}

/// Appends all details of a collection, sorted by id. Fails only with `Memory`; some may be appended then.
fn append_all(delta: &mut Vec<Arc<ScopeDetails>>, collection: &ScopeCollection) -> Result<()>
    ensures ok { OnOk result (
        shared_details delta.new.items
        ≡ shared_details delta.old.items ++ all_details collection.now) }
    // The collection keeps details only under their own ids, so each of them has one.
    ensures own { KeepsOwnIds collection.now }
    ensures err { IsOkUnless result Error.Memory }
{
    for details in collection.scopes_by_id().values() {
        delta.push(details.clone()?)?;
    }
    Ok(())
}
