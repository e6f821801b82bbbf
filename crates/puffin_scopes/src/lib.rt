//! Scopes as a program's own code makes them: guards that end their scope when they are dropped, places in the code that each
//! keep an id, the switch of all scopes, and short names of functions and files. The macros that use them are in `puffin`.
//!
//! | to | call |
//! |---|---|
//! | turn all scopes on and off | [`Switch::set_scopes_on`] |
//! | keep the id of a place in the code | [`Site::new`], kept beside the other places and shared by `&` |
//! | make a guard by hand | [`ProfilerScope::open`], [`ProfilerScope::new`] |
//! | use the thread's profiler while a guard borrows it | [`ProfilerScope::profiler`] |
//! | end a guard's scope and see whether it was reported | [`ProfilerScope::end`] |
//! | cite a law about guards in a proof | [`laws`] |
//! | shorten a name | [`utils::clean_function_name`], [`utils::short_file_name`] |
#![tactic(auto)]

pub mod guard_state;
pub mod laws;
pub mod profiler_scope;
pub mod site;
pub mod switch;
pub mod utils;

pub use guard_state::GuardState;
pub use profiler_scope::ProfilerScope;
pub use site::Site;
pub use switch::Switch;
