//! Runs of scripts, as tests of scripts, recordings and reports make them.

use crate::count::{NEVER, device};
use crate::equal::equal;
use puffin_data::FileError;
use puffin_data::data::Counted;
use puffin_replay::replay::{Script, read_script, run_script};
use std::alloc::AllocGlobal;
use std::process::Abort;

/// What a run returns, and the file and the lines that it writes.
#[derive(Drop)]
pub(crate) struct Written {
    pub(crate) answer: Result<(), FileError>,
    pub(crate) file: Vec<u8>,
    pub(crate) lines: Vec<u8>,
}

/// Runs a script. The writers of the file and of the lines take pieces of these lengths, and
/// their calls of these numbers fail.
pub(crate) fn run(
    rt: &impl AllocGlobal,
    script: &Script,
    (file_piece, file_fails_at): (usize, u64),
    (lines_piece, lines_fails_at): (usize, u64),
) -> Written {
    let mut file = device(rt, b"", file_piece, file_fails_at);
    let mut lines = device(rt, b"", lines_piece, lines_fails_at);
    let answer = run_script(rt.alloc(), script, &mut file, &mut lines);
    Written {
        answer,
        file: file.written,
        lines: lines.written,
    }
}

/// The run of the script with this text, whose lines are taken in pieces of this length.
pub(crate) fn run_of_text(
    rt: &(impl AllocGlobal + Abort),
    text: &[u8],
    lines_piece: usize,
) -> Written {
    let script = read_script(rt.alloc(), &mut Counted::new(text)).expect(rt, "a script");
    let run = run(rt, &script, (1000, NEVER), (lines_piece, NEVER));
    equal(rt, run.answer, Ok(()));
    run
}
