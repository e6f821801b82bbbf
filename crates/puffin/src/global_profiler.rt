//! A profiler that collects what threads report and hands it out in frames, to the caller and to sinks; and the same profiler
//! behind a lock, for several threads.
//!
//! **The clause `requires boxed_sinks { ⊤ }`** always holds, so it asks nothing of a caller. It is there for the checker: if a
//! function over a type with boxed sinks had no `requires`, calls from other crates would count as making a box and be
//! refused.

mod booked;
mod event;
mod global_frame_view;
mod handing;
pub mod laws;
mod leaving;
mod profiler;
mod share;
mod shared_profiler;
mod shared_reporter;
mod sink;
mod sinks;

pub use booked::{Booked, Settled};
pub use event::Event;
pub use global_frame_view::GlobalFrameView;
pub use history::{History, NewLog};
pub use profiler::GlobalProfiler;
pub use puffin_collector::{Collector, Emitted, Totals};
pub use share::Share;
pub use shared_profiler::SharedProfiler;
pub use shared_reporter::SharedReporter;
pub use sink::{FrameSink, FrameSinkId, Sink};
