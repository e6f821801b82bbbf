//! Merges one thread's scopes over many frames: scopes with the same path of ids and texts become one, with their totals.
//!
//! | to | call |
//! |---|---|
//! | merge one thread's scopes over frames | [`merge::merge_scopes_for_thread`] |
//! | also get how many scopes the walks tried to read | [`merge::merge_scopes_counted`] |
//! | add frames one at a time | [`merge::Merger`] |
//! | get scopes that borrow nothing from the frames | [`merge::MergeScope::into_owned`] |
//! | cite a law about definitions in a proof | [`merge::laws`] |
#![tactic(auto)]

pub mod merge;
