//! A profiler that collects what threads report and hands it out in frames, views that keep frames, and totals of scopes over
//! frames. The modules of the crates below are re-exported under their own names, so a program needs only this crate.
//!
//! | to | call |
//! |---|---|
//! | profile a program in a few lines | [`light`] |
//! | record one thread's scopes | [`thread_profiler::ThreadProfiler::new`]; `with_form` for texts of up to 16,383 bytes |
//! | collect what threads report | [`global_profiler::GlobalProfiler::new`]; pass it as the [`thread_profiler::Reporter`] to `end_scope` |
//! | take a frame | [`global_profiler::GlobalProfiler::new_frame`] |
//! | also hand each frame to sinks | [`global_profiler::GlobalProfiler::add_sink`], [`global_profiler::FrameSink`] |
//! | share a profiler among threads | [`global_profiler::SharedProfiler::open`]; a [`global_profiler::SharedReporter`] for each thread |
//! | keep a view of a shared profiler's frames | [`global_profiler::GlobalFrameView::attach`] |
//! | check that no scope is missing, across all threads | [`global_profiler::SharedProfiler::settle`] |
//! | register and report the caller's own scopes | [`global_profiler::GlobalProfiler::register_user_scopes`], `report_user_scopes` |
//! | make the next frame list every known scope | [`global_profiler::GlobalProfiler::emit_scope_snapshot`] |
//! | check that no scope is missing | [`global_profiler::GlobalProfiler::totals`] |
//! | keep the last and the slowest frames | [`profile_view::FrameView::add_frame`]; its listings and `stats` |
//! | write those to a `.puffin` file, or read one | [`profile_view::FrameView::write`], [`profile_view::FrameView::read`] |
//! | select the slowest of any frames | [`profile_view::select_slowest`] |
//! | add up one thread's scopes over frames | [`merge::merge_scopes_for_thread`] |
//! | the same, one frame at a time | [`merge::Merger`] |
//! | make a scope for a function, or for a part of it | the macros `profile_function`, `profile_scope` and four similar ones; [`ProfilerScope`] by hand |
//! | turn those scopes on and off | [`Switch::set_scopes_on`] |
//! | keep the id of a place in the code | [`Site::new`] |
//! | shorten the name of a function or of a file | [`utils::clean_function_name`], [`utils::short_file_name`] |
#![tactic(auto)]

pub mod global_profiler;
pub mod light;
mod macros;

pub use puffin_data::{Error, FileError, FrameIndex, NanoSecond, Result, data, wire};
pub use puffin_frames::frame_data;
pub use puffin_merge::merge;
pub use puffin_scopes::{ProfilerScope, Site, Switch, utils};
pub use puffin_threads::{scope_details, thread_profiler};
pub use puffin_view::profile_view;
