//! Writes each frame to a file as it comes, so the recording survives if the program is stopped in the middle.
//!
//! `record FILE FRAMES` writes that many frames of one thread. `rotate FOLDER FRAMES EVERY KEPT` writes that many frames of two
//! threads, to a new file in the folder after every EVERY frames, and keeps the last KEPT files, among them the one that is being written.
//! Each file can be read without the others. `read FILE` counts the frames of such a file, their scopes, and the names that they
//! list, up to the last complete frame.
#![tactic(auto)]

use anyhow::{Context, Result};
use puffin::data::Counted;
use puffin::global_profiler::{Emitted, GlobalProfiler};
use puffin::light::{
    Frames, Place, Records, Rotation, RotationLimits, Rounds, Scopes, Settings, Thread, run_rounds,
};
use puffin::profile_view::{FrameReader, FrameWriter};
use puffin::{FileError, place, profile};
use std::fs::File;
use std::rt::{Clock, Files};
use std::sync::{Mutex, Wait};
use std::{env, io};

/// Counts the frames of a file, their scopes and the names that they list, up to the end of the file or the beginning of a
/// truncated packet.
fn read<R: AllocGlobal + Files + Print>(rt: &R, path: &str) -> Result<()> {
    let mut reader = FrameReader::new(rt.alloc(), Counted::new(File::open(rt, path)?))?;
    let (mut frames, mut scopes, mut names) = (0_usize, 0_usize, 0_usize);
    for _ in 0..u64::MAX {
        match reader.next() {
            Ok(Some(frame)) => {
                frames = frames.saturating_add(1);
                scopes = scopes.saturating_add(frame.meta().num_scopes);
                names = names.saturating_add(frame.scope_delta.len());
            }
            Ok(None) | Err(FileError::Truncated) => break,
            Err(fault) => return Err(fault.into()),
        }
    }
    println!(rt; "frames {frames} scopes {scopes} names {names}")?;
    Ok(())
}

/// Returns an argument of the program, counted from 1.
fn argument(rt: &HostRuntime, number: usize) -> Result<String> {
    env::args(rt)?.nth(number).context("a word is missing")
}

/// The places of the program.
#[derive(Drop)]
struct Places {
    update: Place,
    physics: Place,
}

impl Places {
    fn new(scopes: &mut Scopes) -> Result<Places> {
        Ok(Places {
            update: place!(scopes, "update")?,
            physics: place!(scopes, "update", "physics")?,
        })
    }

    /// Makes a scope with a child.
    fn update<T: Records>(&self, thread: &mut T) {
        profile!(whole, thread, self.update);
        profile!(_physics, whole, self.physics);
    }
}

/// Writes the frames of one thread to a file.
fn record<R: AllocGlobal + Clock + Files + Print + Wait + Copy>(
    rt: R,
    path: &str,
    frames: usize,
) -> Result<()> {
    let mut scopes = Scopes::new(rt.alloc())?;
    let places = Places::new(&mut scopes)?;
    let mut writer = FrameWriter::new(rt.alloc(), Counted::new(File::create(&rt, path)?))?;
    let mut thread = Thread::start(rt, "main", GlobalProfiler::new(rt.alloc()), &scopes)?;
    for _ in 0..frames {
        places.update(&mut thread);
        if let Some(frame) = thread.new_frame(&rt)?.frame {
            writer.write(&frame)?;
        }
    }
    read(&rt, path)
}

/// A program in rounds, whose leader writes each round's frame.
#[derive(Drop)]
struct Game {
    places: Places,
    files: Mutex<Rotation<HostRuntime>>,
}

impl Rounds for Game {
    type State = ();

    fn state<R: Wait>(&self, _rt: &R, _number: usize) -> io::Result<()> {
        Ok(())
    }

    fn part<R: Wait, T: Records>(
        &self,
        _rt: &R,
        _number: usize,
        _round: usize,
        _state: &mut (),
        thread: &mut T,
    ) -> io::Result<()> {
        self.places.update(thread);
        Ok(())
    }

    /// Writes the round's frame. The rounds end where a frame can't be written.
    fn goes_on<R: Wait, F: Frames>(
        &self,
        rt: &R,
        _round: usize,
        taken: &puffin::Result<Emitted>,
        _frames: &F,
    ) -> bool {
        self.files.lock(rt).write_taken(taken)
    }
}

fn main(rt: HostRuntime) -> Result<()> {
    let word = argument(&rt, 1)?;
    let path = argument(&rt, 2)?;
    if word.as_str() == "read" {
        return read(&rt, path.as_str());
    }
    let frames = argument(&rt, 3)?.parse()?;
    if word.as_str() == "record" {
        return record(rt, path.as_str(), frames);
    }
    let limits = RotationLimits {
        max_frames: argument(&rt, 4)?.parse()?,
        max_files: argument(&rt, 5)?.parse()?,
        ..RotationLimits::default()
    };
    let folder = format!(in rt.alloc(); "{path}/")?;
    let mut scopes = Scopes::new(rt.alloc())?;
    let game = Game {
        places: Places::new(&mut scopes)?,
        files: Mutex::new(Rotation::new(rt, folder.as_str(), limits)?),
    };
    let outcome = run_rounds(
        rt,
        &["left", "right"],
        &scopes,
        &Settings::default(),
        frames,
        &game,
    )?;
    game.files.lock(&rt).finish()?;
    println!(rt;
        "frames {} scopes {}",
        outcome.frames, outcome.settled.handed
    )?;
    Ok(())
}
