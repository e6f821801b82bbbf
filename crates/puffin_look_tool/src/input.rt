//! Reads a file, more than once.

ghost use Rattle.std.specs.Prelude.{◌<◌, ◌^◌, ◌-◌, IfOk};
ghost use Rattle.puffin_data.specs.Device.Counting.{failed_calls, failed_reads};

use crate::faults::{Cause, LookFault, fault_of};
use crate::progress::{Output, Progress, Watched};
use crate::skimmed::Skimmed;
use puffin_data::data::{Buffered, Counted};
use puffin_look::{Indices, Overview, Wanted, read_overview, threads_named};
use puffin_threads::thread_profiler::ThreadInfo;
use std::fs::File;
use std::io::{BufReader, Seek, SeekFrom};

/// How many bytes of a file are read ahead.
const READ_AHEAD: usize = 65_536;

/// A file that is read ahead, so that small packets take few system calls.
pub(crate) type Reader<'f> = Buffered<BufReader<Watched<'f>>>;

/// An open file.
#[derive(Drop)]
pub(crate) struct Input<'w> {
    pub(crate) path: &'w str,
    file: File,
    len: u64,
    progress: &'w Progress,
}

impl<'w> Input<'w> {
    /// Opens the file at a path.
    pub(crate) fn open(
        rt: &HostRuntime,
        progress: &'w Progress,
        path: &'w str,
    ) -> Result<Input<'w>, LookFault<'w>> {
        let file = match File::open(rt, path) {
            Ok(file) => file,
            Err(error) => return Err(LookFault::At(path, Cause::System(error))),
        };
        let len = match file.metadata() {
            Ok(metadata) => metadata.len(),
            Err(error) => return Err(LookFault::At(path, Cause::System(error))),
        };
        Ok(Input {
            path,
            file,
            len,
            progress,
        })
    }

    /// Opens the file at another path.
    pub(crate) fn beside(
        &self,
        rt: &HostRuntime,
        path: &'w str,
    ) -> Result<Input<'w>, LookFault<'w>> {
        Input::open(rt, self.progress, path)
    }

    /// Returns standard output, on which what it has is printed.
    pub(crate) fn output(&self, rt: &HostRuntime) -> Counted<Output<'w>>
        ensures { failed_calls result < 2 ^ 64 - 1 }
    {
        Counted::new(Output::new(rt, self.progress))
    }

    /// Watches it from where it stands.
    fn watched(&self) -> Watched<'_> {
        self.progress.hide();
        Watched {
            file: &self.file,
            progress: self.progress,
            read: 0,
            len: self.len,
        }
    }

    /// Reads it from where it stands.
    pub(crate) fn reader(&self, rt: &HostRuntime) -> Result<Reader<'_>, LookFault<'w>>
        ensures { IfOk result (λ reader. failed_reads reader < 2 ^ 64 - 1) }
    {
        match BufReader::with_capacity(rt.alloc(), READ_AHEAD, self.watched()) {
            Ok(reader) => Ok(Buffered::new(reader)),
            Err(error) => Err(LookFault::At(self.path, Cause::System(error))),
        }
    }

    /// Reads it from where it stands, without its packed streams.
    pub(crate) fn skimmed(&self, rt: &HostRuntime) -> Result<Skimmed<'_>, LookFault<'w>>
        ensures { IfOk result (λ skimmed. skimmed.faults < 2 ^ 64 - 1) }
    {
        match Skimmed::new(rt.alloc(), self.watched()) {
            Ok(source) => Ok(source),
            Err(error) => Err(LookFault::At(self.path, Cause::System(error))),
        }
    }

    /// Goes back to its first byte.
    pub(crate) fn rewind(&self) -> Result<(), LookFault<'w>> {
        let mut file = &self.file;
        match file.seek(SeekFrom::Start(0)) {
            Ok(_) => Ok(()),
            Err(_) => Err(LookFault::At(self.path, Cause::ReadOnce)),
        }
    }

    /// Returns the threads that a word names. The file is then read again.
    fn threads(&self, rt: &HostRuntime, word: &'w str) -> Result<Vec<ThreadInfo>, LookFault<'w>> {
        self.rewind()?;
        let mut source = self.reader(rt)?;
        let found = match threads_named(rt.alloc(), &mut source, word) {
            Ok(found) => found,
            Err(error) => return Err(fault_of(self.path, error, source.last_error(), None)),
        };
        self.rewind()?;
        if found.is_empty() {
            return Err(LookFault::At(self.path, Cause::NoThread(word)));
        }
        Ok(found)
    }

    /// Returns the frames with these indices, and of them the threads that the word names, if there is one.
    pub(crate) fn wanted(
        &self,
        rt: &HostRuntime,
        frames: Option<Indices>,
        word: Option<&'w str>,
    ) -> Result<Wanted, LookFault<'w>> {
        let threads = match word {
            Some(word) => Some(self.threads(rt, word)?),
            None => None,
        };
        Ok(Wanted { frames, threads })
    }

    /// Reads what all its frames say together. The file is then read again.
    pub(crate) fn overview(&self, rt: &HostRuntime) -> Result<Overview, LookFault<'w>> {
        self.rewind()?;
        let mut source = self.skimmed(rt)?;
        let overview = match read_overview(rt.alloc(), &mut source) {
            Ok(overview) => overview,
            Err(error) => return Err(fault_of(self.path, error, source.last_error(), None)),
        };
        self.rewind()?;
        Ok(overview)
    }
}
