use crate::equal::equal;
use puffin_data::FileError;
use puffin_data::data::{Counted, Form, Source};
use puffin_replay::replay::{Command, Script, ToolFault, read_script};
use std::alloc::AllocGlobal;
use std::io;
use std::process::Abort;

fn script(rt: &impl AllocGlobal, bytes: &[u8]) -> Result<Script, ToolFault> {
    let mut source = Counted::new(bytes);
    read_script(rt.alloc(), &mut source)
}

/// This line of a script is refused.
fn refuses(rt: &(impl AllocGlobal + Abort), bytes: &[u8], line: u64) {
    equal(rt, script(rt, bytes).err(), Some(ToolFault::Line(line)));
}

/// The scope that a command begins: its thread, its time, its number and its text.
fn begun(command: Option<&Command>) -> Option<(usize, i64, u32, &str)> {
    match command {
        Some(
            Command::Begin {
                thread,
                at,
                id,
                text,
            },
        ) => Some((*thread, *at, id.get(), text.as_str())),
        _ => None,
    }
}

fn is_end(command: Option<&Command>, number: usize, time: i64) -> bool {
    match command {
        Some(Command::End { thread, at, back }) => *thread == number && *at == time && *back == 0,
        _ => false,
    }
}

/// The thread of details that a command registers, the scope's name if there is one, and the function, its file and line.
fn registered(command: Option<&Command>) -> Option<(usize, Option<&str>, (&str, &str, u32))> {
    match command {
        Some(
            Command::Register {
                thread,
                name,
                function,
                file,
                line,
            },
        ) => Some((
            *thread,
            name.as_deref(),
            (function.as_str(), file.as_str(), *line),
        )),
        _ => None,
    }
}

fn is_user(command: Option<&Command>, scope: &str) -> bool {
    let Some(Command::RegisterUser { names }) = command else {
        return false;
    };
    match names.as_slice() {
        [name] => name.as_str() == scope,
        _ => false,
    }
}

/// A line of each form, blank lines and a note.
const FORMS: &str =
    "begin main 100 1\n# a note\n\nbegin main 0200 4294967295 a  text \nbegin main 9223372036854775807 007 \nend other 300\nfunction main load a.rs 0\nscope other part load a.rs 4294967295\nuser u\nsnapshot\nframe";

/// The first commands of that script begin and end scopes.
fn has_scopes(rt: &impl Abort, commands: &[Command]) {
    equal(rt, begun(commands.get(0)), Some((0, 100, 1, "")));
    equal(
        rt,
        begun(commands.get(1)),
        Some((0, 200, 4294967295, "a  text ")),
    );
    equal(rt, begun(commands.get(2)), Some((0, i64::MAX, 7, "")));
    equal(rt, is_end(commands.get(3), 1, 300), true);
}

/// The next ones register details.
fn has_details(rt: &impl Abort, commands: &[Command]) {
    equal(
        rt,
        registered(commands.get(4)),
        Some((0, None, ("load", "a.rs", 0))),
    );
    let code = ("load", "a.rs", 4294967295);
    equal(
        rt,
        registered(commands.get(5)),
        Some((1, Some("part"), code)),
    );
    equal(rt, is_user(commands.get(6), "u"), true);
}

/// The last ones are a snapshot and a frame.
fn has_frames(rt: &impl Abort, commands: &[Command]) {
    equal(rt, commands.len(), 9);
    equal(rt, matches!(commands.get(7), Some(Command::Snapshot)), true);
    equal(rt, matches!(commands.get(8), Some(Command::NewFrame)), true);
}

/// These are two texts.
fn are_two(texts: &[String], one: &str, other: &str) -> bool {
    match texts {
        [first, second] => first.as_str() == one && second.as_str() == other,
        _ => false,
    }
}

#[test]
fn each_form_of_line_is_a_command(rt: HostRuntime) {
    let script = script(&rt, FORMS.as_bytes()).expect(&rt, "a script");
    has_scopes(&rt, &script.commands);
    has_details(&rt, &script.commands);
    has_frames(&rt, &script.commands);
    let lines = [1, 4, 5, 6, 7, 8, 9, 10, 11];
    equal(&rt, script.lines.as_slice(), lines.as_slice());
    equal(&rt, are_two(&script.names, "main", "other"), true);
}

/// The first of the commands end scopes of these threads at these times.
fn are_ends(rt: &impl Abort, commands: &[Command], ends: &[(usize, i64)]) {
    for (place, (number, time)) in ends.iter().enumerate() {
        equal(rt, is_end(commands.get(place), *number, *time), true);
    }
}

/// The ends of three threads, and a function of a fourth.
fn are_of_four(rt: &impl Abort, commands: &[Command]) {
    are_ends(rt, commands, &[(0, 1), (1, 1), (2, 1), (1, 2), (0, 2)]);
    equal(
        rt,
        registered(commands.get(5)),
        Some((3, None, ("f", "g", 1))),
    );
}

#[test]
fn threads_are_numbered_as_they_appear(rt: HostRuntime) {
    let text = "end c 1\nend a 1\nend b 1\nend a 2\nend c 2\nfunction d f g 1\n";
    let script = script(&rt, text.as_bytes()).expect(&rt, "a script");
    are_of_four(&rt, &script.commands);
    equal(&rt, script.names.len(), 4);
}

/// Lines that are no commands.
const NO_COMMANDS: [&str; 37] = [
    "begin main 5 0",
    "begin main 5 4294967296",
    "begin main 9223372036854775808 1",
    "begin main 18446744073709551616 1",
    "begin main -1 1",
    "begin main +1 1",
    "begin main 1 +1",
    "begin main 1x 1",
    "begin main 1",
    "begin main",
    "begin",
    "begin  main 1 1",
    "begin main  1 1",
    "begin main 1  1",
    " end main 1",
    "end main 1 ",
    "end main 1 2",
    "end main",
    "end main 1\r",
    "end  1",
    "End main 1",
    "function main f a.rs 4294967296",
    "function main f a.rs -1",
    "function main f a.rs",
    "function main f  7",
    "function main f a.rs 7 8",
    "scope main part f a.rs",
    "scope main  f a.rs 7",
    "user",
    "user ",
    "user a b",
    "snapshot ",
    "frame 1",
    "frame\r",
    "frames",
    " ",
    " # no note",
];

#[test]
fn other_lines_are_refused(rt: HostRuntime) {
    for line in &NO_COMMANDS {
        refuses(&rt, line.as_bytes(), 1);
    }
}

#[test]
fn a_long_line_gives_a_thread_its_form(rt: HostRuntime) {
    let long = script(&rt, b"long b\nbegin a 1 1\nbegin b 2 1\nlong c").expect(&rt, "a script");
    let forms = [Form::Long, Form::Short, Form::Long];
    equal(&rt, long.forms.as_slice(), forms.as_slice());
    equal(&rt, long.lines.as_slice(), [2, 3].as_slice());
}

/// A reader that fails at once.
#[derive(Drop)]
struct Broken {
    faults: u64,
}

impl Source for Broken {
    ghost failures = { λ s. s.faults };

    fn read(&mut self, _buf: &mut [u8]) -> io::Result<usize> {
        self.faults += 1;
        Err(io::Error::from(io::ErrorKind::Other))
    }

    fn faults(&self) -> u64 {
        self.faults
    }
}

#[test]
fn a_reader_that_fails_is_told(rt: HostRuntime) {
    let mut broken = Broken { faults: 0 };
    let answer = read_script(rt.alloc(), &mut broken).err();
    equal(&rt, answer, Some(ToolFault::File(FileError::Io)));
}
