//! Counts streams and reports on files of frames, in human-readable lines, over any reader and writer.
//!
//! | to | call |
//! |---|---|
//! | count a stream | [`count_stream`] |
//! | sum up a file for one thread | [`summarize`] |
//! | print that summary | [`print_report`] |
//! | cite a law about summaries in a proof | [`laws`] |
#![tactic(auto)]

mod count;
pub mod laws;
mod report;
mod summary;
mod summing;

pub use count::count_stream;
pub use report::print_report;
pub use summary::{Summary, summarize};
