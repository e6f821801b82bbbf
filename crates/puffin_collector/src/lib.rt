//! Collects what threads report, until a frame hands it out.
//!
//! | to | call |
//! |---|---|
//! | collect what threads report | [`Collector::new`]; pass it to each `end_scope` as the `Reporter` |
//! | take a frame | [`Collector::collect_frame`] |
//! | register and report the caller's own scopes | [`Collector::register_user_scopes`], [`Collector::report_user_scopes`] |
//! | make the next frame list every known scope | [`Collector::emit_scope_snapshot`] |
//! | check that no scope is missing | [`Collector::totals`] |
#![tactic(auto)]

mod collector;
mod delta;
mod emitted;
mod totals;

pub use collector::Collector;
pub use emitted::Emitted;
pub use totals::Totals;
