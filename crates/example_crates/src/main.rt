//! A program of two crates: it profiles itself, and the library that it calls profiles itself too.
#![tactic(auto)]

use example_bodies::step;
use puffin::frame_data::FrameData;
use puffin::global_profiler::GlobalProfiler;
use puffin::light::{Place, Records, Scopes, Thread};
use puffin::{place, profile};

/// The places of the program, and those of the library.
#[derive(Drop)]
struct Places {
    update: Place,
    bodies: example_bodies::Places,
}

/// Does one turn of the program, with a step of the library in it. Returns how many bodies are on the ground.
fn update<T: Records>(thread: &mut T, places: &Places, heights: &mut [u32]) -> usize {
    profile!(whole, thread, places.update);
    step(whole.thread(), &places.bodies, heights)
}

/// Prints the scopes that a frame lists, each with its crate.
fn print(rt: &HostRuntime, frame: &FrameData) -> anyhow::Result<()> {
    for details in frame.scope_delta.iter() {
        println!(rt;
            "{} of {}",
            details.name().as_str(),
            details.file_path.as_str()
        )?;
    }
    Ok(())
}

fn main(rt: HostRuntime) -> anyhow::Result<()> {
    let mut scopes = Scopes::new(rt.alloc())?;
    let places = Places {
        update: place!(scopes, "update")?,
        bodies: example_bodies::Places::register(&mut scopes)?,
    };
    let mut thread = Thread::start(rt, "main", GlobalProfiler::new(rt.alloc()), &scopes)?;
    let mut heights = [1, 2, 3];
    let fallen = update(&mut thread, &places, &mut heights);
    if let Some(frame) = thread.new_frame(&rt)?.frame {
        print(&rt, &frame)?;
        println!(rt; "fallen {fallen} scopes {}", frame.meta().num_scopes)?;
    }
    Ok(())
}
