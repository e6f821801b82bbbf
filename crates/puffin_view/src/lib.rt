//! Views, which keep the last and the slowest of the frames that are added to them, and files of their frames.
//!
//! | to | call |
//! |---|---|
//! | keep the last and the slowest frames | [`profile_view::FrameView::add_frame`] |
//! | iterate over the frames that are kept | [`profile_view::FrameView::recent_frames`], `slowest_frames_chronological`, `all_uniq`, `latest_frame`, `latest_frames` |
//! | count them and their bytes | [`profile_view::FrameView::stats`] |
//! | write them to a `.puffin` file, and read one | [`profile_view::FrameView::write`], [`profile_view::FrameView::read`] |
//! | read a file one frame at a time, or what a crash left of it | [`profile_view::FrameReader`]; from a borrowed source [`profile_view::read_magic`], [`profile_view::next_frame`] |
//! | write a file one frame at a time | [`profile_view::FrameWriter`] |
//! | select the slowest of any frames | [`profile_view::select_slowest`] |
//! | count what frames have of each thread | [`thread_totals::AllTotals::add`] |
//! | cite a law about definitions in a proof | [`profile_view::laws`] |
#![tactic(auto)]

pub mod profile_view;
pub mod thread_totals;
