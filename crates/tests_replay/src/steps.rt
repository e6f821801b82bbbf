//! What is done with a session, as plain values: tests list it, and compare the replies or what is recorded.

use puffin_data::data::Form;
use puffin_data::{NanoSecond, Result};
use puffin_replay::replay::{Command, Reply, Session};
use std::alloc::{AllocGlobal, Global};
use std::process::Abort;
use tests_support::streams::{id, stream_of};
use tests_support::threads::thread_info;

/// A command.
#[derive(Clone, Copy)]
pub(crate) enum Step {
    /// A thread begins a scope, at a time, with an id and a text.
    Begin(usize, NanoSecond, u32, &'static str),
    /// A thread ends its innermost scope, at a time.
    End(usize, NanoSecond),
    /// A thread ends the scope around its innermost one, at a time.
    EndOuter(usize, NanoSecond),
    /// A thread registers a function, or a scope in it.
    Register(usize, Option<&'static str>, &'static str),
    /// Scopes of the user's own are registered by their names.
    RegisterUser(&'static [&'static str]),
    /// These bytes are reported under a name.
    Report(&'static str, &'static [u8]),
    Snapshot,
    NewFrame,
}

fn text(alloc: Global, text: &str) -> Result<String> {
    Ok(String::from_str(alloc, text)?)
}

pub(crate) fn texts(alloc: Global, texts: &[&str]) -> Result<Vec<String>> {
    let mut owned = Vec::new(alloc);
    for one in texts {
        owned.push(text(alloc, one)?)?;
    }
    Ok(owned)
}

fn begin(alloc: Global, thread: usize, at: NanoSecond, number: u32, name: &str) -> Result<Command> {
    let id = id(number)?;
    let text = text(alloc, name)?;
    Ok(Command::Begin {
        thread,
        at,
        id,
        text,
    })
}

fn register(alloc: Global, thread: usize, name: Option<&str>, function: &str) -> Result<Command> {
    let name = match name {
        Some(name) => Some(text(alloc, name)?),
        None => None,
    };
    Ok(Command::Register {
        thread,
        name,
        function: text(alloc, function)?,
        file: text(alloc, "b.rs")?,
        line: 7,
    })
}

fn report(alloc: Global, name: &str, bytes: &[u8]) -> Result<Command> {
    let info = thread_info(alloc, None, name)?;
    let stream = stream_of(alloc, bytes)?;
    Ok(Command::ReportUser { info, stream })
}

fn end(thread: usize, at: NanoSecond, back: usize) -> Command {
    Command::End { thread, at, back }
}

fn command(alloc: Global, step: Step) -> Result<Command> {
    match step {
        Step::Begin(thread, at, id, name) => begin(alloc, thread, at, id, name),
        Step::End(thread, at) => Ok(end(thread, at, 0)),
        Step::EndOuter(thread, at) => Ok(end(thread, at, 1)),
        Step::Register(thread, name, function) => register(alloc, thread, name, function),
        Step::RegisterUser(names) => Ok(Command::RegisterUser {
            names: texts(alloc, names)?,
        }),
        Step::Report(name, bytes) => report(alloc, name, bytes),
        Step::Snapshot => Ok(Command::Snapshot),
        Step::NewFrame => Ok(Command::NewFrame),
    }
}

pub(crate) fn commands(alloc: Global, steps: &[Step]) -> Result<Vec<Command>> {
    let mut commands = Vec::new(alloc);
    for step in steps {
        commands.push(command(alloc, *step)?)?;
    }
    Ok(commands)
}

/// A session of short threads with these names.
pub(crate) fn session(alloc: Global, names: &[&str]) -> Result<Session> {
    Session::new(alloc, texts(alloc, names)?)
}

/// Threads with these names and forms, as a session or a recording takes them.
pub(crate) fn threads(
    rt: &(impl AllocGlobal + Abort),
    threads: &[(&str, Form)],
) -> Vec<(String, Form)> {
    let mut owned = Vec::new(rt.alloc());
    for (name, form) in threads {
        let name = String::from_str(rt.alloc(), name).expect(rt, "memory");
        owned.push((name, *form)).expect(rt, "memory");
    }
    owned
}

/// What a session replies to these commands.
pub(crate) fn replies_of(
    alloc: Global,
    session: &mut Session,
    steps: &[Step],
) -> Result<Vec<Reply>> {
    let commands = commands(alloc, steps)?;
    session.run(&commands)
}

/// What a new session of short threads with these names replies.
pub(crate) fn replies(alloc: Global, names: &[&str], steps: &[Step]) -> Result<Vec<Reply>> {
    replies_of(alloc, &mut session(alloc, names)?, steps)
}

/// What a new session of two threads named `t` replies, the first of which is short and the second long.
pub(crate) fn replies_in_two_forms(rt: &(impl AllocGlobal + Abort), steps: &[Step]) -> Vec<Reply> {
    let threads = threads(rt, &[("t", Form::Short), ("t", Form::Long)]);
    let mut session = Session::with_forms(rt.alloc(), threads).expect(rt, "a session");
    replies_of(rt.alloc(), &mut session, steps).expect(rt, "replies")
}
