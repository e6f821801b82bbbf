//! The names of scopes, by the details of a file.

ghost use Rattle.std.specs.Prelude.{◌≡◌, ◌++◌, ◌<◌, codes, IfOk};
ghost use Rattle.std.specs.String.{string_bytes};
ghost use Rattle.std.specs.Fmt.{decimal};
ghost use Rattle.std.specs.FinMap as map;
ghost use Rattle.puffin_look.specs.inner.Events.{details_in};

use puffin_data::data::ScopeId;
use puffin_threads::scope_details::{ScopeCollection, ScopeDetails};
use std::alloc::{AllocError, Global};
use std::sync::Arc;

/// Returns the details under an id, if there are any.
pub(crate) fn details_under(known: &ScopeCollection, id: u32) -> Option<&Arc<ScopeDetails>>
    requires { 0 < id }
    ensures { details_in result ≡ map.get known.now.by_id id }
{
    known.fetch_by_id(&ScopeId::new(id)?)
}

/// Returns the name of a scope without details: a `#` and its id.
pub(crate) fn number_name(alloc: Global, id: u32) -> Result<String, AllocError>
    ensures { IfOk result (λ name. string_bytes name ≡ codes "#" ++ decimal id) }
{
    format!(in alloc; "#{id}")
}
