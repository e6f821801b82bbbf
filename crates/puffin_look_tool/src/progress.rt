//! Shows on a terminal how much of a file is read.

use std::cell::Cell;
use std::fs::{File, metadata};
use std::io;
use std::io::{IsTerminal, Read, Seek, SeekFrom, Stdout, Write};
use std::time::Instant;

/// For how many milliseconds nothing is shown.
const QUIET: u128 = 500;

/// What hides a percentage.
const BLANKS: &str = "                  \r";

/// What standard error shows, if it is a terminal, of how much of a file is read.
#[derive(Drop)]
pub(crate) struct Progress {
    rt: HostRuntime,
    /// When the program began, or `None` if nothing more is shown.
    begun: Cell<Option<Instant>>,
    /// The percentage that is shown.
    shown: Cell<Option<u64>>,
    /// Whether standard output is a file, so that what is written there doesn't meet what is shown.
    is_apart: bool,
}

impl Progress {
    /// Shows nothing yet.
    pub(crate) fn new(rt: &HostRuntime) -> Progress {
        let is_shown = rt.stderr().is_terminal();
        Progress {
            rt: *rt,
            begun: Cell::new(if is_shown {
                Instant::now(rt).ok()
            } else {
                None
            }),
            shown: Cell::new(None),
            is_apart: is_shown && metadata(rt, "/dev/stdout").is_ok_and(|it| it.is_file()),
        }
    }

    /// Shows how much of a file of this length is read, if that takes long. Of a file of length 0, such as a pipe, it shows nothing.
    fn show(&self, read: u64, len: u64) {
        let Some(begun) = self.begun.get() else {
            return;
        };
        let Some(percent) = read.min(len).saturating_mul(100).checked_div(len) else {
            return;
        };
        let is_long = begun
            .elapsed(&self.rt)
            .is_ok_and(|it| it.as_millis() >= QUIET);
        if is_long && self.shown.get() != Some(percent) {
            // (there is nobody to tell that standard error failed)
            let _ = eprint!(self.rt; "puffin-look: {percent} %\r");
            self.shown.set(Some(percent));
        }
    }

    /// Hides what is shown.
    pub(crate) fn hide(&self) {
        if self.shown.take().is_some() {
            let _ = eprint!(self.rt; "{BLANKS}");
        }
    }

    /// Hides what is shown, and shows nothing more, unless standard output is a file.
    fn make_room(&self) {
        if !self.is_apart {
            self.hide();
            self.begun.set(None);
        }
    }
}

/// A file of which it is shown how much is read.
#[derive(Drop)]
pub(crate) struct Watched<'f> {
    pub(crate) file: &'f File,
    pub(crate) progress: &'f Progress,
    /// How many bytes were read or skipped.
    pub(crate) read: u64,
    /// The file's length.
    pub(crate) len: u64,
}

impl<'f> Read for Watched<'f> {
    fn read(&mut self, buf: &mut [u8]) -> io::Result<usize> {
        let count = self.file.read(buf)?;
        self.read = self.read.saturating_add(count as u64);
        if count == 0 {
            self.progress.hide();
        } else {
            self.progress.show(self.read, self.len);
        }
        Ok(count)
    }
}

impl<'f> Seek for Watched<'f> {
    fn seek(&mut self, to: SeekFrom) -> io::Result<u64> {
        self.read = self.file.seek(to)?;
        Ok(self.read)
    }
}

/// Standard output, which takes the place of what is shown.
#[derive(Drop)]
pub(crate) struct Output<'p> {
    out: Stdout,
    progress: &'p Progress,
}

impl<'p> Output<'p> {
    pub(crate) fn new(rt: &HostRuntime, progress: &'p Progress) -> Output<'p> {
        Output {
            out: rt.stdout(),
            progress,
        }
    }
}

impl<'p> Write for Output<'p> {
    fn write(&mut self, buf: &[u8]) -> io::Result<usize> {
        self.progress.make_room();
        self.out.write(buf)
    }

    fn flush(&mut self) -> io::Result<()> {
        self.out.flush()
    }
}
