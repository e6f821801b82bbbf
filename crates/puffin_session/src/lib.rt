//! Threads that share one profiler, driven by lists of commands. The contract of [`Session::run`] is the main promise: nothing
//! is lost, doubled or changed, and each frame spells what was due.
//!
//! | to | call |
//! |---|---|
//! | drive threads and their profiler by commands | [`Session::new`], or [`Session::with_forms`] if some threads have long texts; [`Session::run`] |
//! | state what a thread does | [`Command`] |
//! | see the outcome | [`Reply`] |
#![tactic(auto)]

mod command;
mod profiled;
mod session;

pub use command::{Command, Reply};
pub use session::Session;
