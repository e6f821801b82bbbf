//! Recordings in files that replace each other.

use crate::frame_data::FrameData;
use crate::global_profiler::Emitted;
use crate::light::files::{SaveCause, SaveError, cause_of, no_memory};
use crate::profile_view::FrameWriter;
use puffin_data::data::Counted;
use puffin_data::{Result, parse_number};
use std::fs::{File, OpenFile};
use std::io::ErrorKind;
use std::rt::Files;
use std::{fs, io, mem, result};

/// When a [`Rotation`] begins its next file, and how many files it keeps.
///
/// ```
/// RotationLimits { max_files: 5, ..RotationLimits::default() }
/// ```
#[derive(Clone, Copy, Debug, PartialEq, Eq)]
pub struct RotationLimits {
    /// The number of frames of a file. A file has at least one.
    pub max_frames: usize,
    /// The number of bytes with which a file is full. Its last frame may exceed it. `u64::MAX` is no limit.
    pub max_bytes: u64,
    /// The number of files that are kept, among them the one that is written. At least one is kept. Files with lower numbers are
    /// removed, also those of an earlier recording.
    pub max_files: u64,
}

impl Default for RotationLimits {
    ghost use Rattle.std.specs.Prelude.{◌≡◌, ◌-◌, ◌^◌};

    ghost is_default = { λ limits.
        (limits.max_frames ≡ 2 ^ 64 - 1)
        × (limits.max_bytes ≡ 100000000)
        × (limits.max_files ≡ 10) };

    /// Files of 100 MB, of which ten are kept.
    fn default() -> RotationLimits {
        RotationLimits {
            max_frames: usize::MAX,
            max_bytes: 100_000_000,
            max_files: 10,
        }
    }
}

/// Writes frames to the files `PREFIX0.puffin`, `PREFIX1.puffin` and so on, so that a recording may go on for days. When a file
/// is full, the next one begins, and the oldest are removed if there are too many. Each file has the names of all its scopes. No
/// other recording may have a prefix that is this one and digits: its files would count as this one's.
///
/// ```
/// let mut files = Rotation::new(rt, "frames/", RotationLimits::default())?;
/// files.write(&frame);
/// files.finish()?;
/// ```
///
/// No contract states what the files hold, since contracts can't express that; tests read them again.
#[derive(Drop)]
pub struct Rotation<R> {
    rt: R,
    prefix: String,
    limits: RotationLimits,
    /// The number of the next file.
    next: u64,
    /// The number of frames of the file that is written.
    frames: usize,
    /// The name of the file that is written or, after a failure, of the one that failed.
    path: String,
    writer: Option<FrameWriter<Counted<File>>>,
    failure: Option<SaveCause>,
}

/// Returns the number in the name of a file that begins so, if it is the name of a file of a rotation.
fn number_in(name: &str, start: &str) -> Option<u64> {
    parse_number(name.strip_prefix(start)?.strip_suffix(".puffin")?)
}

/// Returns the numbers of all files with this prefix.
fn numbers<R: Files + AllocGlobal + Copy + Drop>(rt: &R, prefix: &str) -> io::Result<Vec<u64>> {
    let (folder, start) = match prefix.rsplit_once('/') {
        Some(("", start)) => ("/", start),
        Some((folder, start)) => (folder, start),
        None => (".", prefix),
    };
    let mut numbers = Vec::new(rt.alloc());
    for entry in fs::read_dir(rt, folder)? {
        match entry {
            Ok(entry) => {
                if let Some(number) = number_in(entry.file_name(), start) {
                    numbers.push(number)?;
                }
            }
            // Another program's file, whose name isn't UTF-8.
            Err(e) if e.kind() == ErrorKind::InvalidFilename => {}
            Err(e) => return Err(e),
        }
    }
    Ok(numbers)
}

impl<R: Files<File = File> + AllocGlobal + Copy + Drop> Rotation<R> {
    /// Prepares to write files with this prefix, which may begin with folders: they have to exist. The numbers go on from those
    /// of the files that are there. The first file begins with the first frame.
    ///
    /// Fails if the folder can't be read or memory runs out.
    pub fn new<'p>(
        rt: R,
        prefix: &'p str,
        limits: RotationLimits,
    ) -> result::Result<Rotation<R>, SaveError<'p>> {
        match Rotation::prepare(rt, prefix, limits) {
            Ok(rotation) => Ok(rotation),
            Err(cause) => Err(SaveError {
                path: prefix,
                cause,
            }),
        }
    }

    /// Does what [`Rotation::new`] does, and returns the cause without a name.
    fn prepare(
        rt: R,
        prefix: &str,
        limits: RotationLimits,
    ) -> result::Result<Rotation<R>, SaveCause> {
        let last = numbers(&rt, prefix)?.iter().copied().max();
        Ok(Rotation {
            rt,
            prefix: String::from_str(rt.alloc(), prefix).map_err(|_| no_memory())?,
            limits,
            next: last.map_or(0, |number| number.saturating_add(1)),
            frames: 0,
            path: String::new(rt.alloc()),
            writer: None,
            failure: None,
        })
    }

    /// Writes a frame, to the next file if the one that is written is full. Returns whether it was written. After a failure
    /// nothing is written any more, and [`Rotation::finish`] tells what failed.
    pub fn write(&mut self, frame: &FrameData) -> bool {
        if self.failure.is_none() {
            self.failure = self.write_frame(frame).err();
        }
        self.failure.is_none()
    }

    /// Writes the frame that a leader took, if it took one. Returns false after a failure, so that it may be what
    /// [`Rounds::goes_on`](crate::light::Rounds::goes_on) returns.
    pub fn write_taken(&mut self, taken: &Result<Emitted>) -> bool {
        match taken {
            Ok(
                Emitted {
                    frame: Some(frame),
                    ..
                },
            ) => self.write(frame),
            _ => self.failure.is_none(),
        }
    }

    /// Waits until the system has stored the file that is written, and returns the failure that ended the recording, with the
    /// name of the file, if there was one.
    pub fn finish(&mut self) -> result::Result<(), SaveError<'_>> {
        if self.failure.is_none() && self.writer.is_some() {
            self.failure = self.sync(self.path.as_str()).err();
        }
        match self.failure {
            Some(cause) => Err(SaveError {
                path: self.path.as_str(),
                cause,
            }),
            None => Ok(()),
        }
    }

    /// Waits until the system has stored a file.
    fn sync(&self, path: &str) -> result::Result<(), SaveCause> {
        Ok(File::open(&self.rt, path)?.sync_all()?)
    }

    /// Returns whether the next frame needs another file.
    fn is_full(&self) -> result::Result<bool, SaveCause> {
        if self.writer.is_none() || self.frames >= self.limits.max_frames.max(1) {
            return Ok(true);
        }
        if self.limits.max_bytes == u64::MAX {
            return Ok(false);
        }
        let found = fs::metadata(&self.rt, self.path.as_str())?;
        Ok(found.len() >= self.limits.max_bytes)
    }

    /// Writes a frame, and returns the cause of a failure.
    fn write_frame(&mut self, frame: &FrameData) -> result::Result<(), SaveCause> {
        if self.is_full()? {
            self.begin_file()?;
            self.remove_oldest()?;
        }
        let Some(writer) = &mut self.writer else {
            return Ok(());
        };
        match writer.write(frame) {
            Ok(()) => {
                self.frames = self.frames.saturating_add(1);
                Ok(())
            }
            Err(fault) => Err(cause_of(fault, writer.drain().last_error())),
        }
    }

    /// Returns the name of the file with this number.
    fn file_name(&self, number: u64) -> result::Result<String, SaveCause> {
        format!(in self.rt.alloc(); "{}{number}.puffin", self.prefix).map_err(|_| no_memory())
    }

    /// Stores the file that was written, and begins the next.
    fn begin_file(&mut self) -> result::Result<(), SaveCause> {
        if self.writer.is_some() {
            self.sync(self.path.as_str())?;
        }
        self.path = self.file_name(self.next)?;
        let file = Counted::new(File::create_new(&self.rt, self.path.as_str())?);
        match &mut self.writer {
            Some(writer) => {
                let _last = writer.next_file(file)?;
            }
            None => self.writer = Some(FrameWriter::new(self.rt.alloc(), file)?),
        }
        self.next = self.next.saturating_add(1);
        self.frames = 0;
        Ok(())
    }

    /// Removes the files with the lowest numbers, if there are too many.
    fn remove_oldest(&mut self) -> result::Result<(), SaveCause> {
        let first = self.next.saturating_sub(self.limits.max_files.max(1));
        for number in numbers(&self.rt, self.prefix.as_str())? {
            if number < first {
                self.remove(number)?;
            }
        }
        Ok(())
    }

    /// Removes the file with this number, if it is there.
    fn remove(&mut self, number: u64) -> result::Result<(), SaveCause> {
        let name = self.file_name(number)?;
        match fs::remove_file(&self.rt, name.as_str()) {
            Err(e) if e.kind() != ErrorKind::NotFound => {
                self.path = name;
                Err(SaveCause::System(e))
            }
            _ => Ok(()),
        }
    }
}
