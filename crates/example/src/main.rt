//! Four threads draw a picture, and record their work in scopes. A frame is taken after each round and written to a file at
//! once, so the recording survives if the program is stopped in the middle. The leader records how long each frame takes to
//! write, which is in the next frame. The first argument names the file.
#![tactic(auto)]

mod picture;

use anyhow::{Context, Result};
use picture::Picture;
use puffin::data::Counted;
use puffin::light::{Frames, Place, Program, Records, Scopes, Settings, run_threads};
use puffin::profile_view::{FrameView, FrameWriter};
use puffin::{place, profile};
use std::fs::File;
use std::sync::atomic::Ordering;
use std::sync::{Barrier, Mutex, Wait};
use std::{env, io};

const ROUNDS: usize = 12;

/// The picture, the place of the leader's scopes, the barrier where all meet twice in each round, and the writer of the frames.
#[derive(Drop)]
struct Studio {
    picture: Picture,
    write: Place,
    meeting: Barrier,
    writer: Mutex<FrameWriter<Counted<File>>>,
}

impl Program for Studio {
    fn work<R: Wait, T: Records>(&self, rt: &R, number: usize, thread: &mut T) -> io::Result<()> {
        for _ in 0..ROUNDS {
            self.meeting.wait(rt);
            self.picture.draw(number, thread);
            self.meeting.wait(rt);
        }
        Ok(())
    }

    /// Writes each frame as it comes. A frame that can't be written is missing from the file, but is still in the view.
    fn lead<R: Wait, T: Records, F: Frames>(&self, rt: &R, thread: &mut T, frames: &mut F) {
        for _ in 0..ROUNDS {
            self.meeting.wait(rt);
            self.meeting.wait(rt);
            if let Ok(emitted) = frames.new_frame()
                && let Some(frame) = emitted.frame
            {
                profile!(_write, thread, self.write);
                let _written = self.writer.lock(rt).write(&frame);
            }
        }
    }
}

/// Prints the counts of a view's frames and, on standard error, the command that reports on each thread.
fn print(rt: &HostRuntime, out: &str, view: &FrameView, handed: u64) -> Result<()> {
    let (mut frames, mut scopes) = (0_usize, 0_usize);
    for frame in view.recent_frames() {
        frames = frames.saturating_add(1);
        scopes = scopes.saturating_add(frame.meta().num_scopes);
    }
    let last = view.latest_frame().and_then(|frame| frame.as_unpacked());
    let streams = &last.context("a frame")?.thread_streams;
    let threads = streams.len();
    println!(rt; "frames {frames} threads {threads} scopes {scopes} handed out {handed}")?;
    for thread in streams.keys() {
        let start = thread.start_time_ns.unwrap_or(0);
        eprintln!(rt; "./puffin-tool report {out} {start}:{}", thread.name)?;
    }
    Ok(())
}

fn main(rt: HostRuntime) -> Result<()> {
    let out = env::args(&rt)?.nth(1).context("no file's name")?;
    let names = ["painter-0", "painter-1", "painter-2", "painter-3"];
    let mut scopes = Scopes::new(rt.alloc())?;
    let studio = Studio {
        picture: Picture::new(&mut scopes)?,
        write: place!(scopes, "write")?,
        meeting: Barrier::new(names.len() + 1),
        writer: Mutex::new(FrameWriter::new(
            rt.alloc(),
            Counted::new(File::create(&rt, out.as_str())?),
        )?),
    };
    let outcome = run_threads(rt, &names, &scopes, &Settings::default(), &studio)?;
    println!(rt; "steps {}", studio.picture.steps.load(Ordering::Relaxed))?;
    let view = outcome.view.lock(&rt);
    print(&rt, out.as_str(), &view, outcome.settled.handed)
}
