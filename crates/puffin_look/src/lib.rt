//! Shows what is in a file of frames: its threads and its frames. Reads one frame at a time.
//!
//! A tree, a trace and folded stacks have names from all frames of the file: [`read_overview`] reads them first.
//!
//! | to | call |
//! |---|---|
//! | list the threads of a file, or find one by its name | [`print_threads`], [`threads_named`] |
//! | list its frames, or the slowest of them | [`print_frames`], [`print_slowest`] |
//! | show what takes the most time in the slowest frames | [`print_slow_frames`] |
//! | print a frame as a tree | [`print_frame`] |
//! | write a trace for other tools | [`print_trace`] |
//! | write the folded stacks for them | [`print_folded`] |
//! | list the scopes by name, with their times | [`read_top`], [`Top::sort_by`], [`print_top`] |
//! | compare the scopes of two files by name | [`compare`], [`Diff::sort`], [`Diff::grows_above`], [`print_diff`] |
//! | write a page for a browser | [`choose_frames`], [`print_page_data`] |
#![tactic(auto)]

mod columns;
mod diff;
mod diff_table;
mod escapes;
mod events;
mod folded;
mod frame_tree;
mod frames;
mod heavy;
mod histogram;
pub mod laws;
mod lines;
mod listing;
mod names;
mod objects;
mod overview;
mod page;
mod page_choice;
mod page_rows;
mod quoting;
mod readable;
mod rows;
mod slow_frames;
mod slowest;
mod stacks;
mod tallies;
mod task;
mod text;
mod thread_names;
mod threads;
mod top;
mod top_table;
mod trace;
mod tree;
mod wanted;

pub use diff::{Diff, DiffRow, PerFrame, compare};
pub use diff_table::print_diff;
pub use folded::print_folded;
pub use frame_tree::print_frame;
pub use frames::print_frames;
pub use lines::Form;
pub use overview::{Overview, read_overview};
pub use page::{PageFrames, print_page_data};
pub use page_choice::{PageLimits, choose_frames};
pub use slow_frames::print_slow_frames;
pub use slowest::print_slowest;
pub use task::{Options, View, order_of, range, read_words, take_options};
pub use thread_names::threads_named;
pub use threads::print_threads;
pub use top::{By, Top, TopRow, read_top};
pub use top_table::print_top;
pub use trace::print_trace;
pub use wanted::{Indices, Wanted};
