//! Profilers of single threads, their clocks, and the receivers of what they record.

mod any_thread;
mod clock;
pub mod laws;
mod profiler;
mod reporter;
mod supply;
mod thread_info;
mod thread_state;

pub use any_thread::AnyThread;
pub use clock::{NsSource, ScriptClock, SystemClock};
pub use profiler::ThreadProfiler;
pub use reporter::{Closed, Reporter};
pub use thread_info::ThreadInfo;
