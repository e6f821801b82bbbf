//! Profiles one thread for three frames, and writes them to a file.
#![tactic(auto)]

use puffin::global_profiler::GlobalProfiler;
use puffin::light::{Records, Scopes, Thread, save};
use puffin::profile_view::FrameView;
use puffin::{place, profile};

fn main(rt: HostRuntime) -> anyhow::Result<()> {
    let mut scopes = Scopes::new(rt.alloc())?;
    let update = place!(scopes, "update")?;
    let physics = place!(scopes, "update", "physics")?;
    let mut thread = Thread::start(rt, "main", GlobalProfiler::new(rt.alloc()), &scopes)?;
    let mut view = FrameView::new(rt.alloc());
    for _ in 0..3 {
        {
            profile!(whole, thread, update);
            profile!(_physics, whole, physics, "all bodies");
        }
        if let Some(frame) = thread.new_frame(&rt)?.frame {
            let (index, scopes) = (frame.frame_index(), frame.meta().num_scopes);
            println!(rt; "frame {index} scopes {scopes}")?;
            view.add_frame(frame)?;
        }
    }
    Ok(save(&rt, "frames.puffin", &view)?)
}
