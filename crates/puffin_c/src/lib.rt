//! The C interface, for C, C++ and Rust programs. Each function is exported under its own name, and declared in
//! `puffin.h`.
//!
//! A call returns 0 for success, or the number of a [`fault::Fault`].
#![tactic(auto)]

pub mod count;
pub mod fault;
pub mod fault_name;
pub mod file;
pub mod frame;
pub mod handles;
mod held;
pub mod ids;
mod lists;
mod memory_source;
pub mod merge;
pub mod merged;
pub mod naming;
mod profiler;
pub mod profiling;
mod raw_box;
mod recorder;
pub mod scopes;
mod shared_ids;
pub mod slot;
pub mod stream;
pub mod streams;
mod texts;
pub mod thread;
pub mod thread_name;
pub mod threads;
mod unread;
pub mod user_scopes;
pub mod version;
pub mod view;
pub mod view_file;
