use puffin_threads::scope_details::ScopeIds;
use std::sync::Arc;

/// Draws ids for all threads and profilers that were opened with it.
#[derive(Drop)]
pub(crate) struct SharedIds {
    pub(crate) ids: Arc<ScopeIds>,
}
