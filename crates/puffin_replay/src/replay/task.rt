//! The tasks of the program, and its arguments.

ghost use Rattle.std.specs.Prelude.{◌≡◌, option_map, map, IfOk, IfErr};
ghost use Rattle.std.specs.String.{string_bytes};
ghost use Rattle.puffin_replay.specs.Program.Arguments.{signed_moment_in, start_in, thread_of_word, report_by, request_of, request_in, HasPaths};

use puffin_data::{Error, NanoSecond, Result};
use puffin_threads::thread_profiler::ThreadInfo;

/// A task of the program.
#[derive(Debug, Drop, PartialEq, Eq)]
pub enum Task {
    /// Counts the stream on standard input.
    Count,
    /// Runs the script at the first path, and writes its frames to a file at the second.
    Replay(String, String),
    /// Prints the report of the file at a path for a thread.
    Report(String, ThreadInfo),
}

/// Parses a time, in nanoseconds, which may be negative.
fn parse_signed_time(word: &str) -> Option<NanoSecond>
    ensures { result ≡ signed_moment_in word.now }
{
    if word.starts_with('+') {
        return None;
    }
    word.parse::<i64>().ok()
}

/// Parses the start of a thread: a time, or `-` for none.
fn parse_start(word: &str) -> Option<Option<NanoSecond>>
    ensures { result ≡ start_in word.now }
{
    if word == "-" {
        return Some(None);
    }
    Some(Some(parse_signed_time(word)?))
}

/// Parses `START:NAME`. Returns `None` for any other word.
fn thread_of(word: &str) -> Option<(Option<NanoSecond>, &str)>
    ensures { option_map (λ t. record { start = t.0; name = t.1.now }) result
        ≡ thread_of_word word.now }
{
    let (before, name) = word.split_once(':')?;
    Some((parse_start(before)?, name))
}

/// Makes the task that prints the report of a file for the thread in `word`. Returns `None` if `word` isn't `START:NAME`.
fn report_of(file: &String, word: &str) -> Result<Option<Task>>
    ensures task { IfOk result (λ task.
        option_map request_of task ≡ report_by (string_bytes file.now) word.now) }
    ensures memory { IfErr result (λ e.
        (e ≡ Error.Memory) × HasPaths (report_by (string_bytes file.now) word.now)) }
{
    let Some((start_time_ns, name)) = thread_of(word) else {
        return Ok(None);
    };
    let name = String::from_str(*file.allocator(), name)?;
    let thread = ThreadInfo {
        start_time_ns,
        name,
    };
    Ok(Some(Task::Report(file.clone()?, thread)))
}

/// Parses the program's arguments. Returns `None` if they aren't a task. Fails only with `Memory`, and only for a task with
/// paths.
pub fn read_words(words: &[String]) -> Result<Option<Task>>
    ensures task { IfOk result (λ task.
        option_map request_of task ≡ request_in (map string_bytes words.now)) }
    ensures memory { IfErr result (λ e.
        (e ≡ Error.Memory) × HasPaths (request_in (map string_bytes words.now))) }
{
    match words {
        [word] if word.as_str() == "count" => Ok(Some(Task::Count)),
        [word, script, out] if word.as_str() == "replay" => {
            Ok(Some(Task::Replay(script.clone()?, out.clone()?)))
        }
        [word, file, thread] if word.as_str() == "report" => report_of(file, thread.as_str()),
        _ => Ok(None),
    }
}
