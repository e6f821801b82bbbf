//! Reading a script.

ghost use Rattle.std.specs.Prelude.{◌≡◌, ◌+◌, ◌^◌, ◌<◌, ◌⊎◌, List, ℕ, [], ◌∷◌, ◌++◌, Ok, Some, option_map, length, map, position, MatchOption, MatchResult, IfOk, IfErr, OnOk, slice_get};
ghost use Rattle.std.specs.String.{string_bytes};
ghost use Rattle.puffin_data.specs.Device.{CanFail};
ghost use Rattle.puffin_report.specs.Count.{ReadsAll};
ghost use Rattle.puffin_replay.specs.Script.Statements.{Meaning, begins, ends, registers, registers_user};
ghost use Rattle.puffin_replay.specs.inner.ScriptReading.{meaning_of, lines_left, names_in, IsNumbered, Follows, IsReading};
ghost use Rattle.puffin_replay.specs.Script.{is_line_feed, is_skipped, told_by, with_name, with_form, is_late, command_said, IsScript, IsLineFault};

use crate::replay::fault::ToolFault;
use crate::replay::statement::{Statement, parse_statement};
use puffin_data::data::{Form, ScopeId, Source, read_to_end};
use puffin_data::{FileError, NanoSecond};
use puffin_session::Command;
use std::alloc::{AllocError, Global};
use std::collections::BTreeMap;

/// A script's threads and commands.
#[derive(Drop)]
pub struct Script {
    /// The names of the threads, in the order in which the script first names them.
    pub names: Vec<String>,
    /// The form of each thread, in the order of `names`: long if the first line that names the thread is a `long` statement, and
    /// otherwise short.
    pub forms: Vec<Form>,
    /// The commands, in order. A thread's number is the index of its name in `names`.
    pub commands: Vec<Command>,
    /// The line number of each command, counted from 1 over all lines.
    pub lines: Vec<u64>,
}

/// The threads that a script has named so far.
#[derive(Drop)]
struct Threads<'s> {
    names: Vec<String>,
    forms: Vec<Form>,
    numbers: BTreeMap<&'s str, usize>,
    alloc: Global,
}

impl<'s> Threads<'s> {
    /// Makes the threads of a script of which nothing was read.
    fn new(alloc: Global) -> Threads<'s>
        ensures none { names_in result ≡ [] }
        ensures no_forms { result.forms.items ≡ [] }
        ensures numbered { IsNumbered result }
    {
        Threads {
            names: Vec::new(alloc),
            forms: Vec::new(alloc),
            numbers: BTreeMap::new(alloc),
            alloc,
        }
    }

    /// Returns the number of this name. A new name gets the next number, and its thread has this form.
    fn number(&mut self, name: &'s str, form: Form) -> Result<usize, AllocError>
        ensures { IfOk result (λ number.
            IsNumbered self.old →
            IsNumbered self.new
            × (names_in self.new ≡ with_name (names_in self.old) name.now)
            × (self.new.forms.items
            ≡ with_form (names_in self.old) self.old.forms.items (Some name.now) form)
            × (slice_get (names_in self.new) number ≡ Some name.now)) }
    {
        if let Some(number) = self.numbers.get(name) {
            return Ok(*number);
        }
        let number = self.names.len();
        self.names.push(String::from_str(self.alloc, name)?)?;
        self.forms.push(form)?;
        self.numbers.insert(name, number)?;
        Ok(number)
    }

    /// Returns whether a statement is `long` for a thread that an earlier line has named.
    fn is_late(&self, statement: &Statement<'s>) -> bool
        ensures { IsNumbered self.now →
            result ≡ is_late (names_in self.now) (meaning_of statement.now) }
    {
        match statement {
            Statement::Long { thread } => self.numbers.get(*thread).is_some(),
            _ => false,
        }
    }

    /// Makes the command of a statement, or `None` if it only sets a thread's form.
    fn command(&mut self, statement: &Statement<'s>) -> Result<Option<Command>, AllocError>
        ensures { IfOk result (λ command.
            IsNumbered self.old →
            Follows self.old self.new command (meaning_of statement.now)) }
    {
        Ok(Some(match statement {
            Statement::Long { thread } => {
                let _number = self.number(*thread, Form::Long)?;
                return Ok(None);
            }
            Statement::Begin {
                thread,
                at,
                id,
                text,
            } => self.begin(*thread, *at, *id, *text)?,
            Statement::End { thread, at } => self.end(*thread, *at)?,
            Statement::Register {
                thread,
                name,
                function,
                file,
                line,
            } => self.register(*thread, *name, *function, *file, *line)?,
            Statement::RegisterUser { name } => register_user(self.alloc, *name)?,
            Statement::Snapshot => Command::Snapshot,
            Statement::NewFrame => Command::NewFrame,
        }))
    }

    /// Makes the command that begins a scope.
    fn begin(
        &mut self,
        thread: &'s str,
        at: NanoSecond,
        id: ScopeId,
        text: &'s str,
    ) -> Result<Command, AllocError>
        ensures { IfOk result (λ command.
            IsNumbered self.old →
            Follows self.old self.new (Some command) (begins thread.now at id text.now)) }
    {
        Ok(Command::Begin {
            thread: self.number(thread, Form::Short)?,
            at,
            id,
            text: String::from_str(self.alloc, text)?,
        })
    }

    /// Makes the command that ends the innermost open scope of a thread.
    fn end(&mut self, thread: &'s str, at: NanoSecond) -> Result<Command, AllocError>
        ensures { IfOk result (λ command.
            IsNumbered self.old →
            Follows self.old self.new (Some command) (ends thread.now at)) }
    {
        Ok(Command::End {
            thread: self.number(thread, Form::Short)?,
            at,
            back: 0,
        })
    }

    /// Makes the command that registers a scope's details with a thread.
    fn register(
        &mut self,
        thread: &'s str,
        name: Option<&'s str>,
        function: &'s str,
        file: &'s str,
        line: u32,
    ) -> Result<Command, AllocError>
        ensures { IfOk result (λ command.
            IsNumbered self.old →
            Follows self.old self.new (Some command)
            (registers thread.now (option_map (λ n. n.now) name.entry)
            function.now file.now line)) }
    {
        let alloc = self.alloc;
        Ok(Command::Register {
            thread: self.number(thread, Form::Short)?,
            name: match name {
                Some(name) => Some(String::from_str(alloc, name)?),
                None => None,
            },
            function: String::from_str(alloc, function)?,
            file: String::from_str(alloc, file)?,
            line,
        })
    }
}

/// Makes the command that registers one of the caller's own scopes by its name.
fn register_user(alloc: Global, name: &str) -> Result<Command, AllocError>
    ensures { IfOk result (λ command. (names : List (List ℕ)) →
        command_said names command ≡ Some (registers_user name.now)) }
{
    let mut names = Vec::new(alloc);
    names.push(String::from_str(alloc, name)?)?;
    Ok(Command::RegisterUser { names })
}

/// The rest of a script, line by line. The lines don't include their line feeds.
#[derive(Clone, Copy)]
struct Lines<'s> {
    left: Option<&'s [u8]>,
}

/// Returns the offset of the first line feed, if there is one.
fn line_end(bytes: &[u8]) -> Option<usize>
    ensures { result ≡ position is_line_feed bytes.now }
{
    bytes.iter().position(|byte| *byte == b'\n')
}

impl<'s> Lines<'s> {
    /// Returns the next line, which may be empty.
    fn next(&mut self) -> Option<&'s [u8]>
        ensures { MatchOption result (lines_left self.old ≡ []) (λ line.
            lines_left self.old ≡ line.now ∷ lines_left self.new) }
    {
        let left = self.left?;
        match line_end(left) {
            Some(at) => {
                self.left = Some(&left[at + 1..]);
                Some(&left[..at])
            }
            None => {
                self.left = None;
                Some(left)
            }
        }
    }
}

/// Returns whether a line is empty or begins with `#`.
fn is_skipped(line: &[u8]) -> bool
    ensures { result ≡ is_skipped line.now }
{
    match line {
        [] => true,
        [first, ..] => *first == b'#',
    }
}

/// Parses a line. Returns `None` if it is skipped. Fails with its number if it is invalid.
fn parse_line(number: u64, line: &[u8]) -> Result<Option<Statement<'_>>, ToolFault>
    ensures { MatchResult result
        (λ statement. told_by number line.now ≡ Ok (option_map meaning_of statement))
        (λ fault. (fault ≡ ToolFault.Line number) × (told_by number line.now ≡ Err number)) }
{
    let Ok(text) = str::from_utf8(line) else {
        return Err(ToolFault::Line(number));
    };
    if is_skipped(line) {
        return Ok(None);
    }
    match parse_statement(text) {
        Some(statement) => Ok(Some(statement)),
        None => Err(ToolFault::Line(number)),
    }
}

/// A script that is being read.
#[derive(Drop)]
struct Reading<'s> {
    threads: Threads<'s>,
    commands: Vec<Command>,
    lines: Vec<u64>,
}

impl<'s> Reading<'s> {
    /// Makes a script of which nothing was read.
    fn new(alloc: Global) -> Reading<'s>
        ensures { IsReading result [] }
    {
        Reading {
            threads: Threads::new(alloc),
            commands: Vec::new(alloc),
            lines: Vec::new(alloc),
        }
    }

    /// Returns the threads and the commands that were read.
    fn into_script(self) -> Script
        ensures names { map string_bytes result.names.items ≡ names_in self.entry.threads }
        ensures forms { result.forms ≡ self.entry.threads.forms }
        ensures commands { result.commands ≡ self.entry.commands }
        ensures lines { result.lines ≡ self.entry.lines }
    {
        let Reading {
            threads,
            commands,
            lines,
        } = self;
        Script {
            names: threads.names,
            forms: threads.forms,
            commands,
            lines,
        }
    }

    /// Appends the command of this line, if it has one.
    fn push(&mut self, number: u64, statement: &Statement<'s>) -> Result<(), AllocError>
        ensures { OnOk result (
            (before : List (ℕ × Meaning)) → IsReading self.old before →
            IsReading self.new (before ++ (number, meaning_of statement.now) ∷ [])) }
    {
        if let Some(command) = self.threads.command(statement)? {
            self.commands.push(command)?;
            self.lines.push(number)?;
        }
        Ok(())
    }
}

/// Parses a script.
fn script_of(alloc: Global, bytes: &[u8]) -> Result<Script, ToolFault>
    requires { length bytes.now < 2 ^ 63 }
    ensures ok { IfOk result (IsScript bytes.now) }
    ensures err { IfErr result (λ fault.
        IsLineFault bytes.now fault ⊎ (fault ≡ ToolFault.File FileError.Memory)) }
{
    let mut reading = Reading::new(alloc);
    let mut number: u64 = 0;
    let mut lines = Lines { left: Some(bytes) };
    'lines: while let Some(line) = lines.next() {
        number += 1;
        // The kit's borrow checker doesn't cover `?` here.
        let statement = match parse_line(number, line) {
            Ok(statement) => statement,
            Err(fault) => return Err(fault),
        };
        if let Some(statement) = &statement {
            if reading.threads.is_late(statement) {
                return Err(ToolFault::Line(number));
            }
            reading.push(number, statement)?;
        }
    }
    Ok(reading.into_script())
}

/// Reads a script to its end. `docs/FORMAT.md` lists the commands. Each line is a command, except for lines that are empty or
/// begin with `#`, and for `long THREAD`, which makes the thread's form long and must be the first line that names it.
///
/// Fails with `Io` if the reader fails, or with `Memory`; how far it read is then unspecified. Once the whole script is read,
/// fails with `Line` and the number of the first line that isn't UTF-8 or isn't valid at its place.
///
/// ```
/// let script = read_script(alloc, &mut Counted::new(b"begin main 100 1\nend main 200\nframe\n".as_slice()))?;
/// ```
pub fn read_script<S: Source>(alloc: Global, source: &mut S) -> Result<Script, ToolFault>
    requires { CanFail S.failures source.old }
    ensures script { IfOk result (λ script.
        (bytes : List ℕ)
        × ReadsAll (S.remaining source.old) (S.remaining source.new) bytes
        × IsScript bytes script) }
    // The number is that of the first invalid line.
    ensures fails { IfErr result (λ fault.
        ((bytes : List ℕ)
        × ReadsAll (S.remaining source.old) (S.remaining source.new) bytes
        × IsLineFault bytes fault)
        ⊎ ((fault ≡ ToolFault.File FileError.Memory) ⊎ (fault ≡ ToolFault.File FileError.Io))) }
    // The reader failed in this call.
    ensures io { (result ≡ Err (ToolFault.File FileError.Io)) →
        S.failures source.new ≡ S.failures source.old + 1 }
{
    let bytes = read_to_end(alloc, source)?;
    script_of(alloc, bytes.as_slice())
}
