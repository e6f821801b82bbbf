//! Sessions of commands, and the program's tasks as functions over any reader and writer. What [`replay::Session::run`] promises
//! of frames, [`replay::record_session_and_read`] promises of what is read back from a file.
//!
//! | to | call |
//! |---|---|
//! | drive threads and their profiler by commands | [`replay::Session::new`], [`replay::Session::run`] |
//! | run commands into a file | [`replay::record`], or [`replay::record_session`] in an existing session |
//! | run commands, and read their frames back | [`replay::record_and_read`], or [`replay::record_session_and_read`] in an existing session and view |
//! | read a script, and run it into a file and lines | [`replay::read_script`], [`replay::run_script`] |
//! | sum up a file for one thread, and print the summary | [`replay::summarize`], [`replay::print_report`] |
//! | count a stream | [`replay::count_stream`] |
//! | parse the program's arguments, and print its faults | [`replay::read_words`], [`replay::finish`] |
#![tactic(auto)]

pub mod replay;
