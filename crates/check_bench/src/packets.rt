//! Writing frames as packets, and reading them.

use crate::merges::main_thread;
use crate::scopes::nest;
use crate::timing::Work;
use anyhow::Context;
use puffin::frame_data::FrameData;
use puffin::profile_view::FrameView;
use puffin_data::data::{Buffered, Counted, Drain, ScopeId, Source, Stream, StreamInfo};
use puffin_data::{FileError, Result};
use std::alloc::Global;
use std::collections::BTreeMap;
use std::sync::Arc;

/// The greatest number of frames in a file.
pub const FRAMES: u32 = 1_000;
/// How many nests of eight scopes a frame has. Its stream has about 35 kB.
const NESTS: usize = 106;
/// The text of each scope, of 10 bytes.
const TEXT: &str = "mesh-7.obj";

/// Makes the stream of one frame, beginning at `start`.
fn stream(alloc: Global, start: i64) -> Result<Stream> {
    let mut stream = Stream::new(alloc);
    let mut now = start;
    if let Some(id) = ScopeId::new(1) {
        for _ in 0..NESTS {
            now = nest(&mut stream, id, TEXT, now)?;
        }
    }
    Ok(stream)
}

/// Makes a frame of one thread.
fn frame(alloc: Global, index: u32) -> Result<FrameData> {
    let info = StreamInfo::parse(alloc, stream(alloc, 10_000 * i64::from(index))?)?;
    let mut streams = BTreeMap::new(alloc);
    let _before = streams.insert(main_thread(alloc)?, info)?;
    FrameData::new(alloc, u64::from(index), streams, Vec::new(alloc), false)
}

/// Makes `count` frames.
fn add_frames(alloc: Global, count: u32, frames: &mut Vec<FrameData>) -> Result<()> {
    for index in 0..count {
        frames.push(frame(alloc, index)?)?;
    }
    Ok(())
}

/// Makes packed copies of frames.
fn add_packed(frames: &[FrameData], packed: &mut Vec<FrameData>) -> Result<()> {
    for frame in frames {
        packed.push(frame.packed_copy()?)?;
    }
    Ok(())
}

/// A kind of work with the frames of a file.
#[derive(Clone, Copy)]
pub enum FileWork {
    /// Packs frames while writing them.
    Write,
    /// Writes packed frames.
    WritePacked,
    /// Only copies the bytes of a file: a lower bound for writing packed frames.
    Copy,
    /// Reads frames.
    Read,
    /// Reads frames and unpacks them.
    ReadUnpacked,
    /// Writes the file of a view of packed frames.
    ViewWrite,
    /// Reads a view from its file.
    ViewRead,
}

impl FileWork {
    /// Every kind of work.
    pub const ALL: [FileWork; 7] = [
        FileWork::Write,
        FileWork::WritePacked,
        FileWork::Copy,
        FileWork::Read,
        FileWork::ReadUnpacked,
        FileWork::ViewWrite,
        FileWork::ViewRead,
    ];

    /// Returns the name under which the time is printed.
    pub fn name(self) -> &'static str {
        match self {
            FileWork::Write => "write",
            FileWork::WritePacked => "write_packed",
            FileWork::Copy => "copy",
            FileWork::Read => "read",
            FileWork::ReadUnpacked => "read_unpacked",
            FileWork::ViewWrite => "view_write",
            FileWork::ViewRead => "view_read",
        }
    }
}

/// Frames, packed copies of them, a view, the bytes of their files, and room for a copy of a file.
#[derive(Drop)]
pub struct Files {
    alloc: Global,
    /// The work that is done next.
    pub work: FileWork,
    frames: Vec<FrameData>,
    packed: Vec<FrameData>,
    /// The packets that were written last.
    file: Vec<u8>,
    copy: Vec<u8>,
    view: FrameView,
    view_file: Vec<u8>,
}

impl Files {
    /// Makes `count` frames, and files of them.
    pub fn new(alloc: Global, count: u32) -> std::result::Result<Files, FileError> {
        let mut files = Files {
            alloc,
            work: FileWork::Write,
            frames: Vec::new(alloc),
            packed: Vec::new(alloc),
            file: Vec::new(alloc),
            copy: Vec::new(alloc),
            view: FrameView::new(alloc),
            view_file: Vec::new(alloc),
        };
        files.fill(count)?;
        Ok(files)
    }

    /// Makes `count` frames, and adds copies of them to the view, which is empty.
    fn fill(&mut self, count: u32) -> std::result::Result<(), FileError> {
        add_frames(self.alloc, count, &mut self.frames)?;
        add_packed(&self.frames, &mut self.packed)?;
        let _count = written(&self.frames, &mut self.file)?;
        add_to_view(self.alloc, &self.packed, &mut self.view)?;
        let _count = view_written(&self.view, &mut self.view_file)?;
        Ok(())
    }

    /// Does the work, and returns the number of frames it was done on.
    fn done(&mut self) -> std::result::Result<usize, FileError> {
        match self.work {
            FileWork::Write => written(&self.frames, &mut self.file),
            FileWork::WritePacked => written(&self.packed, &mut self.file),
            FileWork::Copy => {
                copied(&self.file, &mut self.copy)?;
                Ok(self.frames.len())
            }
            FileWork::Read => Ok(read(self.alloc, &self.file)?.len()),
            FileWork::ReadUnpacked => read_unpacked(self.alloc, &self.file),
            FileWork::ViewWrite => view_written(&self.view, &mut self.view_file),
            FileWork::ViewRead => view_read(self.alloc, &self.view_file),
        }
    }
}

impl Work for Files {
    fn run(&mut self) -> anyhow::Result<usize> {
        self.done().ok().context("a file")
    }
}

/// Writes frames into memory that is reused, and returns how many.
#[inline(never)]
fn written(frames: &[FrameData], file: &mut Vec<u8>) -> std::result::Result<usize, FileError> {
    file.clear();
    let mut drain = Counted::new(file);
    for frame in frames {
        if drain.faults() == 0 {
            frame.write_into(None, &mut drain)?;
        }
    }
    Ok(frames.len())
}

/// Copies a file into memory that is reused, in pieces of about one packet each if the file has [`FRAMES`] frames.
#[inline(never)]
fn copied(file: &[u8], copy: &mut Vec<u8>) -> std::result::Result<(), FileError> {
    copy.clear();
    for piece in file.chunks(file.len() / FRAMES as usize + 1) {
        copy.extend_from_slice(piece)?;
    }
    Ok(())
}

/// Reads the frames of a file.
#[inline(never)]
fn read(alloc: Global, file: &[u8]) -> std::result::Result<Vec<FrameData>, FileError> {
    let mut source = Buffered::new(file);
    let mut frames = Vec::new(alloc);
    for _ in 0..FRAMES {
        if source.faults() == 0
            && let Some(frame) = FrameData::read_next(alloc, &mut source)?
        {
            frames.push(frame)?;
        }
    }
    Ok(frames)
}

/// Reads and unpacks the frames of a file, and returns how many.
#[inline(never)]
fn read_unpacked(alloc: Global, file: &[u8]) -> std::result::Result<usize, FileError> {
    let mut frames = read(alloc, file)?;
    for frame in frames.iter_mut() {
        let _unpacked = frame.unpacked()?;
    }
    Ok(frames.len())
}

/// Adds copies of these frames to a view.
fn add_to_view(alloc: Global, frames: &[FrameData], view: &mut FrameView) -> Result<()> {
    for frame in frames {
        view.add_frame(Arc::new(alloc, frame.clone()?)?)?;
    }
    Ok(())
}

/// Writes the file of a view into memory that is reused, and returns how many frames the view holds.
#[inline(never)]
fn view_written(view: &FrameView, file: &mut Vec<u8>) -> std::result::Result<usize, FileError> {
    file.clear();
    view.write(&mut Counted::new(file))?;
    Ok(view.stats().frames())
}

/// Reads a view, and returns how many frames it holds.
#[inline(never)]
fn view_read(alloc: Global, file: &[u8]) -> std::result::Result<usize, FileError> {
    let view = FrameView::read(alloc, &mut Buffered::new(file))?;
    Ok(view.stats().frames())
}
