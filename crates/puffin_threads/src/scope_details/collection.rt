ghost use Rattle.std.specs.Prelude.{◌≡◌, ◌↔◌, ◌⊎◌, Some, None, IfOk, IfErr, OnOk, OnErr, option_map, option_copied, IsOkUnless, IsTrue};
ghost use Rattle.std.specs.List.{list_any};
ghost use Rattle.std.specs.Arc.{arc_value};
ghost use Rattle.std.specs.FinMap as map;
ghost use Rattle.puffin_data.specs.declared.error.Error.{Error};
ghost use Rattle.puffin_threads.specs.Details.{details_of, shared_details, lacks_id};
ghost use Rattle.puffin_threads.specs.Details.Collection.{no_details, with_details, with_all_details, LearnsSome, kept_for, KeepsOwnIds, by_ids, by_names};

use crate::scope_details::details::{ScopeDetails, any_lacks_id};
use puffin_data::data::ScopeId;
use puffin_data::{Error, Result};
use std::alloc::Global;
use std::collections::BTreeMap;
use std::marker::Model;
use std::sync::Arc;

/// Maps ids to the details of scopes, and names to ids. If details are inserted under an id more than once, the first are kept;
/// if ids are inserted under a name more than once, the last is kept.
#[derive(Drop)]
pub struct ScopeCollection {
    by_id: BTreeMap<ScopeId, Arc<ScopeDetails>>,
    by_name: BTreeMap<String, ScopeId>,
    alloc: Global,
}

impl Model for ScopeCollection {
    ghost use Rattle.puffin_threads.specs.Details.Collection.{Collection, collection_code};

    ghost Value = { Collection };

    ghost coded = { collection_code };

    ghost use Rattle.puffin_threads.specs.inner.HeldCollection.{collection_in, IsCollection};

    ghost view = { collection_in };

    ghost invariant = { IsCollection };
}

/// Sets the id of a name. Allocates only if the name is new. Fails only with `Memory`, and then changes nothing.
fn put_name(
    alloc: Global,
    by_name: &mut BTreeMap<String, ScopeId>,
    name: &str,
    id: ScopeId,
) -> Result<()>
    ensures ok { OnOk result (
        by_names by_name.new.entries ≡ map.insert (by_names by_name.old.entries) name.now id) }
    ensures err { OnErr result (by_names by_name.new.entries ≡ by_names by_name.old.entries) }
    ensures memory { IsOkUnless result Error.Memory }
{
    if let Some(kept) = by_name.get_mut(name) {
        *kept = id;
        return Ok(());
    }
    let _none = by_name.insert(String::from_str(alloc, name)?, id)?;
    Ok(())
}

impl ScopeCollection {
    /// Makes an empty collection.
    pub fn new(alloc: Global) -> ScopeCollection
        ensures { result ≡ no_details }
    {
        ScopeCollection {
            by_id: BTreeMap::new(alloc),
            by_name: BTreeMap::new(alloc),
            alloc,
        }
    }

    /// Returns the first details that were inserted under an id.
    pub fn fetch_by_id(&self, id: &ScopeId) -> Option<&Arc<ScopeDetails>>
        ensures { option_map (λ found. details_of (arc_value found)) (option_copied result)
            ≡ map.get self.now.by_id id.now }
    {
        self.by_id.get(id)
    }

    /// Returns the last id that was inserted under a name.
    pub fn fetch_by_name(&self, name: &str) -> Option<&ScopeId>
        ensures { option_copied result ≡ map.get self.now.by_name name.now }
    {
        self.by_name.get(name)
    }

    /// Inserts details under their id, and the id under their [`ScopeDetails::name`]. Returns the details kept under the id,
    /// which are the first ones inserted.
    ///
    /// Fails with `MissingId` if the details have no id, otherwise only with `Memory`. A failure changes nothing.
    ///
    /// ```
    /// let details = ScopeDetails::from_scope_name(CowStr::Borrowed("part")).with_scope_id(id);
    /// let kept = scopes.insert(Arc::new(alloc, details)?)?;
    /// ```
    pub fn insert(&mut self, details: Arc<ScopeDetails>) -> Result<Arc<ScopeDetails>>
        ensures ok { OnOk result (
            self.new ≡ with_details self.old (details_of (arc_value details))) }
        ensures kept { IfOk result (λ kept.
            kept_for self.new (details_of (arc_value details))
            ≡ Some (details_of (arc_value kept))) }
        ensures missing { (result ≡ Err Error.MissingId)
            ↔ ((details_of (arc_value details)).id ≡ None) }
        ensures err { OnErr result (self.new ≡ self.old) }
        ensures cause { IfErr result (λ cause.
            (cause ≡ Error.MissingId) ⊎ (cause ≡ Error.Memory)) }
    {
        let Some(id) = details.scope_id() else {
            return Err(Error::MissingId);
        };
        if let Some(kept) = self.by_id.get(&id) {
            let kept = Arc::try_clone(kept)?;
            put_name(self.alloc, &mut self.by_name, details.name().as_str(), id)?;
            return Ok(kept);
        }
        let kept = Arc::try_clone(&details)?;
        let _none = self.by_id.insert(id, details)?;
        if let Err(e) = put_name(self.alloc, &mut self.by_name, kept.name().as_str(), id) {
            let _undone = self.by_id.remove(&id);
            return Err(e);
        }
        Ok(kept)
    }

    /// Inserts these details one after the other, like [`ScopeCollection::insert`].
    ///
    /// Fails with `MissingId` if any of them has no id, and then changes nothing. Otherwise fails only with `Memory`; the first
    /// few may have been inserted by then.
    pub fn insert_all(&mut self, details: &[Arc<ScopeDetails>]) -> Result<()>
        ensures ok { OnOk result (
            self.new ≡ with_all_details self.old (shared_details details.now)) }
        ensures missing { (result ≡ Err Error.MissingId)
            ↔ IsTrue (list_any lacks_id (shared_details details.now)) }
        ensures unchanged { (result ≡ Err Error.MissingId) → self.new ≡ self.old }
        ensures err { OnErr result (LearnsSome self.old (shared_details details.now) self.new) }
        ensures cause { IfErr result (λ cause.
            (cause ≡ Error.MissingId) ⊎ (cause ≡ Error.Memory)) }
    {
        if any_lacks_id(details) {
            return Err(Error::MissingId);
        }
        for details in details {
            let _kept = self.insert(details.clone()?)?;
        }
        Ok(())
    }

    /// Returns the ids by name.
    pub fn scopes_by_name(&self) -> &BTreeMap<String, ScopeId>
        ensures { by_names result.now.entries ≡ self.now.by_name }
    {
        &self.by_name
    }

    /// Returns the details by id.
    pub fn scopes_by_id(&self) -> &BTreeMap<ScopeId, Arc<ScopeDetails>>
        ensures details { by_ids result.now.entries ≡ self.now.by_id }
        ensures own { KeepsOwnIds self.now }
    {
        &self.by_id
    }

    /// Copies the collection; the copy shares the details. Fails only with `Memory`.
    pub fn clone(&self) -> Result<ScopeCollection>
        ensures ok { IfOk result (λ copy. copy ≡ self.now) }
        ensures err { IsOkUnless result Error.Memory }
    {
        Ok(ScopeCollection {
            by_id: self.by_id.clone()?,
            by_name: self.by_name.clone()?,
            alloc: self.alloc,
        })
    }
}
