//! The program's arguments, its tasks, and its faults.

mod fault;
mod recording;
mod reply_line;
mod round_trip;
mod script;
mod statement;
mod task;

pub use fault::{ToolFault, finish};
pub use puffin_report::{Summary, count_stream, laws, print_report, summarize};
pub use puffin_session::{Command, Reply, Session};
pub use recording::{Unread, record, record_session, run_script};
pub use round_trip::{Limits, Recording, record_and_read, record_session_and_read};
pub use script::{Script, read_script};
pub use task::{Task, read_words};
