//! Parsing a line of a script. The words borrow from the line.

ghost use Rattle.std.specs.Prelude.{◌≡◌, List, ℕ, [], ◌∷◌, Some, None, option_map, MatchOption};
ghost use Rattle.puffin_replay.specs.inner.ScriptReading.{meaning_of, words_left};
ghost use Rattle.puffin_replay.specs.Script.Statements.{line_meaning, words_in, joined_words, moment_in, id_of, line_of, name_in, long_of, begin_of, end_of, registration_of, function_of, scope_of, user_of};

use puffin_data::data::ScopeId;
use puffin_data::{NanoSecond, parse_number};

/// The meaning of one line.
#[derive(Clone, Copy, Debug, PartialEq, Eq)]
pub(crate) enum Statement<'l> {
    /// Makes the form of a thread long.
    Long {
        thread: &'l str,
    },
    /// Begins a scope.
    Begin {
        thread: &'l str,
        at: NanoSecond,
        id: ScopeId,
        text: &'l str,
    },
    /// Ends the innermost open scope of a thread.
    End {
        thread: &'l str,
        at: NanoSecond,
    },
    /// Registers a scope's details with a thread. A function's details have no name.
    Register {
        thread: &'l str,
        name: Option<&'l str>,
        function: &'l str,
        file: &'l str,
        line: u32,
    },
    /// Registers one of the caller's own scopes by its name.
    RegisterUser {
        name: &'l str,
    },
    /// Makes the next frame list every known scope.
    Snapshot,
    /// Takes a frame.
    NewFrame,
}

/// The remaining words of a line, separated by single blanks.
#[derive(Clone, Copy)]
struct Words<'l> {
    left: Option<&'l str>,
}

impl<'l> Words<'l> {
    /// Returns the next word, which may be empty.
    fn next(&mut self) -> Option<&'l str>
        ensures { MatchOption result (words_left self.old ≡ []) (λ word.
            words_left self.old ≡ word.now ∷ words_left self.new) }
    {
        let left = self.left?;
        match left.split_once(' ') {
            Some((word, behind)) => {
                self.left = Some(behind);
                Some(word)
            }
            None => {
                self.left = None;
                Some(left)
            }
        }
    }

    /// Returns the rest of the line, unchanged.
    fn rest(self) -> &'l str
        ensures { result.now ≡ joined_words (words_left self.entry) }
    {
        match self.left {
            Some(text) => text,
            None => "",
        }
    }

    /// Returns `None` if a word is left.
    fn end(self) -> Option<()>
        ensures { MatchOption result
            ((word : List ℕ) × (words : List (List ℕ)) × (words_left self.entry ≡ word ∷ words))
            (λ _. words_left self.entry ≡ []) }
    {
        match self.left {
            Some(_) => None,
            None => Some(()),
        }
    }
}

/// Parses a time, in nanoseconds.
fn parse_time(word: &str) -> Option<NanoSecond>
    ensures { result ≡ moment_in word.now }
{
    i64::try_from(parse_number(word)?).ok()
}

/// Parses a scope's id.
fn parse_id(word: &str) -> Option<ScopeId>
    ensures { result ≡ id_of word.now }
{
    ScopeId::new(parse_line_number(word)?)
}

/// Parses the number of a line of code.
fn parse_line_number(word: &str) -> Option<u32>
    ensures { result ≡ line_of word.now }
{
    u32::try_from(parse_number(word)?).ok()
}

/// Returns the word unless it is empty.
fn parse_name(word: &str) -> Option<&str>
    ensures { option_map (λ name. name.now) result ≡ name_in word.now }
{
    if word.is_empty() { None } else { Some(word) }
}

/// Parses what follows `begin`: `THREAD TIME ID`, and a text if there is one, which is the rest of the line.
fn parse_begin<'l>(mut words: Words<'l>) -> Option<Statement<'l>>
    ensures { option_map meaning_of result ≡ begin_of (words_left words.entry) }
{
    let thread = parse_name(words.next()?)?;
    let at = parse_time(words.next()?)?;
    let id = parse_id(words.next()?)?;
    let text = words.rest();
    Some(Statement::Begin {
        thread,
        at,
        id,
        text,
    })
}

/// Parses what follows `end`: `THREAD TIME`.
fn parse_end<'l>(mut words: Words<'l>) -> Option<Statement<'l>>
    ensures { option_map meaning_of result ≡ end_of (words_left words.entry) }
{
    let thread = parse_name(words.next()?)?;
    let at = parse_time(words.next()?)?;
    words.end()?;
    Some(Statement::End { thread, at })
}

/// Parses the rest of a line of `function` or `scope`: `FUNCTION FILE LINE`. A scope has a name of its own.
fn parse_details<'l>(
    thread: &'l str,
    name: Option<&'l str>,
    mut words: Words<'l>,
) -> Option<Statement<'l>>
    ensures { option_map meaning_of result
        ≡ registration_of thread.now (option_map (λ n. n.now) name.entry) (
        words_left words.entry) }
{
    let function = parse_name(words.next()?)?;
    let file = parse_name(words.next()?)?;
    let line = parse_line_number(words.next()?)?;
    words.end()?;
    Some(Statement::Register {
        thread,
        name,
        function,
        file,
        line,
    })
}

/// Parses what follows `function`: `THREAD FUNCTION FILE LINE`.
fn parse_function<'l>(mut words: Words<'l>) -> Option<Statement<'l>>
    ensures { option_map meaning_of result ≡ function_of (words_left words.entry) }
{
    let thread = parse_name(words.next()?)?;
    parse_details(thread, None, words)
}

/// Parses what follows `scope`: `THREAD NAME FUNCTION FILE LINE`.
fn parse_scope<'l>(mut words: Words<'l>) -> Option<Statement<'l>>
    ensures { option_map meaning_of result ≡ scope_of (words_left words.entry) }
{
    let thread = parse_name(words.next()?)?;
    let name = parse_name(words.next()?)?;
    parse_details(thread, Some(name), words)
}

/// Parses what follows `long`: `THREAD`.
fn parse_long<'l>(mut words: Words<'l>) -> Option<Statement<'l>>
    ensures { option_map meaning_of result ≡ long_of (words_left words.entry) }
{
    let thread = parse_name(words.next()?)?;
    words.end()?;
    Some(Statement::Long { thread })
}

/// Parses what follows `user`: `NAME`.
fn parse_user<'l>(mut words: Words<'l>) -> Option<Statement<'l>>
    ensures { option_map meaning_of result ≡ user_of (words_left words.entry) }
{
    let name = parse_name(words.next()?)?;
    words.end()?;
    Some(Statement::RegisterUser { name })
}

/// Parses a line by its first word. Returns `None` if it isn't valid.
pub(crate) fn parse_statement(line: &str) -> Option<Statement<'_>>
    ensures { option_map meaning_of result ≡ line_meaning (words_in line.now) }
{
    let mut words = Words { left: Some(line) };
    match words.next()? {
        "begin" => parse_begin(words),
        "end" => parse_end(words),
        "function" => parse_function(words),
        "scope" => parse_scope(words),
        "user" => parse_user(words),
        "snapshot" => words.end().map(|()| Statement::Snapshot),
        "frame" => words.end().map(|()| Statement::NewFrame),
        "long" => parse_long(words),
        _ => None,
    }
}
