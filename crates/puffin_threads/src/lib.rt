//! Profilers of single threads, which record the threads' scopes, and the details of scopes.
//!
//! | to | call |
//! |---|---|
//! | record the scopes of one thread | [`thread_profiler::ThreadProfiler::new`] with a clock, then `begin_scope` and `end_scope` with a [`thread_profiler::Reporter`] |
//! | record texts of up to 16,383 bytes | [`thread_profiler::ThreadProfiler::with_form`] |
//! | give a scope its function, file and line | [`thread_profiler::ThreadProfiler::register_function_scope`], `register_named_scope` |
//! | report closed scopes that are still waiting, or give them up | [`thread_profiler::ThreadProfiler::report_closed`], `discard_closed` |
//! | look up scopes by id and by name | [`scope_details::ScopeCollection`] |
//! | draw ids | [`scope_details::ScopeIds::draw`] |
#![tactic(auto)]

pub mod laws;
pub mod scope_details;
pub mod thread_profiler;
