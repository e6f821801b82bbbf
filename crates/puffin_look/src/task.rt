//! The program's arguments.

ghost use Rattle.std.specs.Prelude.{◌≡◌, ◌<◌, length, Some, option_map, map, IfSome};
ghost use Rattle.std.specs.String.{string_bytes};
ghost use Rattle.puffin_look.specs.Arguments.{list_in, threaded_in, detailed_in, request_in, wish_of, request_of, behind_dot, from_to, range_in, frames_in, order_in};

use crate::lines::Form;
use crate::top::By;
use crate::wanted::Indices;
use puffin_data::{FrameIndex, parse_number};

/// What the program shows of a file.
#[derive(Clone, Copy, Debug, PartialEq, Eq)]
pub enum View<'w> {
    /// A line for each thread.
    Threads,
    /// A line for each frame with one of these indices, or for each frame.
    Frames(Option<Indices>),
    /// The lines of so many of the slowest frames.
    Slowest(usize),
    /// The frame with this index, with all threads or those that this word names.
    Frame(FrameIndex, Option<&'w str>),
    /// A trace.
    Trace,
    /// The folded stacks of all threads, or of those that this word names.
    Folded(Option<&'w str>),
    /// The scopes by name, of all threads or of those that this word names.
    Top(Option<&'w str>),
    /// The scopes by name beside those of the file at this path, of all threads or of those that this word names.
    Diff(&'w str, Option<&'w str>),
    /// What takes the most time in so many of the slowest frames.
    SlowFrames(usize),
    /// A page, which is written at this path.
    Page(&'w str),
}

/// How many frames are shown by default.
const SLOW_FRAMES: usize = 5;

/// Returns what is behind a point.
fn behind_dot(word: &str) -> Option<&str>
    ensures { option_map (λ t. t.now) result ≡ behind_dot word.now }
{
    word.strip_prefix('.')
}

/// Returns the indices from the first on and below the end, if there is one.
fn from_to(first: u64, end: u64) -> Option<Indices>
    ensures { result ≡ from_to (Some first) (Some end) }
{
    if first < end {
        Some(Indices {
            first,
            last: end - 1,
        })
    } else {
        None
    }
}

/// Parses `A..B`: the indices from `A` on and below `B`. There has to be one.
pub fn range(word: &str) -> Option<Indices>
    ensures { result ≡ range_in word.now }
{
    let (first, rest) = word.split_once('.')?;
    from_to(parse_number(first)?, parse_number(behind_dot(rest)?)?)
}

/// Parses what follows the path behind `frames`: how many of the slowest frames are listed, or which ones.
fn frames_of<'w>(more: &str) -> Option<View<'w>>
    ensures { option_map wish_of result ≡ frames_in more.now }
{
    match parse_number(more) {
        Some(limit) => Some(View::Slowest(limit as usize)),
        None => Some(View::Frames(Some(range(more)?))),
    }
}

/// Parses a word that is followed by the path alone.
fn list_of<'w>(word: &str) -> Option<View<'w>>
    ensures { option_map wish_of result ≡ list_in word.now }
{
    match word {
        "threads" => Some(View::Threads),
        "frames" => Some(View::Frames(None)),
        "trace" => Some(View::Trace),
        "folded" => Some(View::Folded(None)),
        "top" => Some(View::Top(None)),
        "slowest" => Some(View::SlowFrames(SLOW_FRAMES)),
        _ => None,
    }
}

/// Parses a word that is followed by the path and one more word.
fn detailed_of<'w>(word: &str, more: &'w str) -> Option<View<'w>>
    ensures { option_map wish_of result ≡ detailed_in word.now more.now }
{
    match word {
        "frames" => frames_of(more),
        "folded" => Some(View::Folded(Some(more))),
        "top" => Some(View::Top(Some(more))),
        "slowest" => Some(View::SlowFrames(parse_number(more)? as usize)),
        "view" => Some(View::Page(more)),
        word => threaded_of(word, more, None),
    }
}

/// Parses a word that is followed by the path, an index or another path, and perhaps a thread.
fn threaded_of<'w>(word: &str, more: &'w str, thread: Option<&'w str>) -> Option<View<'w>>
    ensures { option_map wish_of result
        ≡ threaded_in word.now more.now (option_map (λ t. t.now) thread.entry) }
{
    match word {
        "frame" => Some(View::Frame(parse_number(more)?, thread)),
        "diff" => Some(View::Diff(more, thread)),
        _ => None,
    }
}

/// Parses the program's arguments: what is shown, and the path of a file. Returns `None` if they are anything else.
pub fn read_words(words: &[String]) -> Option<(View<'_>, &str)>
    ensures { option_map request_of result ≡ request_in (map string_bytes words.now) }
{
    match words {
        [word, path] => Some((list_of(word.as_str())?, path.as_str())),
        [word, path, more] => Some((detailed_of(word.as_str(), more.as_str())?, path.as_str())),
        [word, path, more, thread] => Some((
            threaded_of(word.as_str(), more.as_str(), Some(thread.as_str()))?,
            path.as_str(),
        )),
        _ => None,
    }
}

/// Parses the name of an order.
pub fn order_of(word: &str) -> Option<By>
    ensures { result ≡ order_in word.now }
{
    match word {
        "own" => Some(By::Own),
        "total" => Some(By::Total),
        "calls" => Some(By::Calls),
        "max" => Some(By::Greatest),
        _ => None,
    }
}

/// The options among the program's arguments.
#[derive(Clone, Copy, Debug, PartialEq, Eq)]
pub struct Options {
    /// The indices of the frames that count, or `None` for all frames.
    pub frames: Option<Indices>,
    pub order: Option<By>,
    /// The number of rows, at most.
    pub limit: Option<usize>,
    /// Whether texts are kept apart.
    pub texts: bool,
    /// The percentage by which times may grow.
    pub fail_above: Option<u64>,
    pub form: Form,
}

impl Options {
    /// Returns whether a view takes all of them that are there.
    pub fn are_taken_by(self, view: View<'_>) -> bool {
        let (has_frames, has_limit, is_of_top, is_of_diff) = match view {
            View::Top(_) => (true, true, true, false),
            View::Diff(..) => (true, true, false, true),
            View::Trace | View::Folded(_) | View::SlowFrames(_) | View::Page(_) => (
                true, false, false, false,
            ),
            _ => (false, false, false, false),
        };
        let has_rows = !matches!(
            view,
            View::Frame(..) | View::Trace | View::Folded(_) | View::Page(_)
        );
        (has_frames || self.frames.is_none())
            && (has_limit || self.limit.is_none())
            && (is_of_top || self.order.is_none() && !self.texts)
            && (is_of_diff || self.fail_above.is_none())
            && (has_rows || self.form == Form::Table)
    }
}

/// Parses a percentage, such as `10%`.
fn percentage(word: &str) -> Option<u64> {
    parse_number(word.strip_suffix('%')?)
}

/// Returns the place of the first such word, if that is behind the path.
fn place_of(words: &[String], name: &str) -> Option<usize>
    ensures { IfSome result (λ place. place < length words.now) }
{
    let place = words.iter().position(|word| word.as_str() == name)?;
    if place < 2 {
        return None;
    }
    Some(place)
}

/// Removes the first such word. Returns whether there was one.
fn take_flag(words: &mut Vec<String>, name: &str) -> bool {
    match place_of(words, name) {
        Some(place) => {
            words.remove(place);
            true
        }
        None => false,
    }
}

/// Removes the first such word and the word behind it, and returns the latter.
fn take_value(words: &mut Vec<String>, name: &str) -> Option<String> {
    let place = place_of(words, name)?;
    if place + 1 < words.len() {
        words.remove(place);
        Some(words.remove(place))
    } else {
        None
    }
}

/// Removes the option `--json`. Returns the form that is asked for.
fn take_form(words: &mut Vec<String>) -> Form {
    if take_flag(words, "--json") {
        Form::Json
    } else {
        Form::Table
    }
}

/// Removes the options from behind the first two of the program's arguments. Returns `None` if another of those words begins with
/// `--`, or if an option is there twice, or if its value is missing or isn't allowed.
pub fn take_options(words: &mut Vec<String>) -> Option<Options> {
    let frames = match take_value(words, "--frames") {
        Some(word) => Some(range(word.as_str())?),
        None => None,
    };
    let order = match take_value(words, "--by") {
        Some(word) => Some(order_of(word.as_str())?),
        None => None,
    };
    let limit = match take_value(words, "--limit") {
        Some(word) => Some(parse_number(word.as_str())? as usize),
        None => None,
    };
    let fail_above = match take_value(words, "--fail-above") {
        Some(word) => Some(percentage(word.as_str())?),
        None => None,
    };
    let texts = take_flag(words, "--texts");
    let form = take_form(words);
    if words
        .iter()
        .skip(2)
        .any(|word| word.as_str().starts_with("--"))
    {
        return None;
    }
    Some(Options {
        frames,
        order,
        limit,
        texts,
        fail_above,
        form,
    })
}
