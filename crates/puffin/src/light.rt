//! Profiling in a few lines: a thread with its clock and reporter, places with their names, and programs whose threads are
//! started and joined for you, with their counts settled at the end.
//!
//! | to | call |
//! |---|---|
//! | name the places where scopes begin | [`Scopes::new`] and the macro `place`; a program keeps its [`Place`]s in a struct |
//! | profile one thread | [`Thread::start`], then [`Records::scope`] or the macro `profile` |
//! | open a scope within another | [`Guard::scope`] |
//! | see whether a scope began | [`Guard::state`], [`Thread::num_refused`] |
//! | give a scope a text | [`Records::scope_with`], [`Guard::scope_with`] |
//! | turn all scopes off and on | [`Scopes::set_on`] |
//! | take a frame of one thread | [`Thread::new_frame`] |
//! | write frames to a file | [`save`] |
//! | write each frame as it comes, to files that replace each other | [`Rotation`] |
//! | profile several threads that work in rounds, with a frame for each round | [`Rounds`], [`run_rounds`] |
//! | profile several threads, and take frames when you choose | [`Program`], [`run_threads`] |
//! | take frames until all threads have ended | [`Frames::take_until_ended`], [`Frames::wait`] |
//! | profile a server or a pool, each of whose jobs has a name of its own | [`Pool`], [`run_pool`] |
//! | name the leader of several threads, limit what their scopes may take, or set what their view keeps | [`Settings`] |

pub mod files;
pub mod laws;
pub mod outcome;
pub mod pool;
pub mod program;
mod ready;
pub mod rotation;
pub mod rounds;
pub mod scopes;
mod shares;
mod started;
pub mod thread;

pub use files::{SaveCause, SaveError, save};
pub use outcome::{Failed, Outcome, Settings, ThreadCounts};
pub use pool::{Pool, run_pool};
pub use program::{Frames, Program, run_threads};
pub use rotation::{Rotation, RotationLimits};
pub use rounds::{Rounds, run_rounds};
pub use scopes::{Guard, GuardState, Place, Records, Scopes, ThreadScopes};
pub use thread::Thread;
