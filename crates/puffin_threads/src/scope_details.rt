//! The details of scopes: their ids, names and places in the code.

mod collection;
mod details;
mod ids;
pub mod laws;
mod scope_type;

pub use collection::{ScopeCollection, any_lacks_id};
pub use details::ScopeDetails;
pub use ids::ScopeIds;
pub use scope_type::ScopeType;
