//! What the frames of turns hold, byte by byte.

use crate::{first_frame, frames, registered, steps};
use puffin::frame_data::FrameData;
use puffin::global_profiler::GlobalProfiler;
use puffin::light::Thread;
use puffin::thread_profiler::{ScriptClock, ThreadProfiler};
use std::process::Abort;
use std::sync::Arc;
use std::test::Fail;
use tests_support::frames::lists;

type Tested = std::result::Result<(), Fail>;

/// The scope of a turn, and in it that of physics, both at the time 5.
const TURN: [u8; 72] = [
    b'(', 1, 0, 0, 0, 5, 0, 0, 0, 0, 0, 0, 0, 0, 41, 0, 0, 0, 0, 0, 0, 0, b'(', 2, 0, 0, 0, 5, 0,
    0, 0, 0, 0, 0, 0, 10, b'a', b'l', b'l', b' ', b'b', b'o', b'd', b'i', b'e', b's', 0, 0, 0, 0,
    0, 0, 0, 0, b')', 5, 0, 0, 0, 0, 0, 0, 0, b')', 5, 0, 0, 0, 0, 0, 0, 0,
];

/// Checks that a frame holds just one turn of the thread `main`, at the time 5.
fn shows_a_turn<R: Abort>(rt: &R, frame: Option<&Arc<FrameData>>) -> Tested {
    let Some(unpacked) = frame.and_then(|frame| frame.as_unpacked()) else {
        return Err(Fail::new("no frame"));
    };
    assert!(rt; unpacked.thread_streams.len() == 1);
    for (thread, info) in &unpacked.thread_streams {
        assert!(rt; thread.name.as_str() == "main");
        assert!(rt; info.stream.bytes() == TURN.as_slice());
    }
    Ok(())
}

/// Whether a frame lists the two places under their ids.
fn lists_both(frame: Option<&Arc<FrameData>>) -> bool {
    frame.is_some_and(|frame| lists(frame, &[(1, "update"), (2, "physics")]))
}

#[test]
fn one_frame_shows_one_turn(rt: HostRuntime) -> Tested {
    let name = String::from_str(rt.alloc(), "main")?;
    let (frame, waiting) = first_frame(&rt, name, ScriptClock::new(5))?;
    assert!(rt; waiting == 0);
    assert!(rt; lists_both(frame.as_ref()));
    shows_a_turn(&rt, frame.as_ref())
}

#[test]
fn three_frames_show_three_turns(rt: HostRuntime) -> Tested {
    let name = String::from_str(rt.alloc(), "main")?;
    let (frames, waiting) = frames(&rt, name, ScriptClock::new(5), 3)?;
    assert!(rt; waiting == 0 && frames.len() == 3);
    for frame in &frames {
        shows_a_turn(&rt, frame.as_ref())?;
    }
    Ok(())
}

#[test]
fn each_step_is_a_scope(rt: HostRuntime) -> Tested {
    let name = String::from_str(rt.alloc(), "main")?;
    let (scopes, places) = registered(rt.alloc())?;
    let recorder = ThreadProfiler::new(rt.alloc(), name, ScriptClock::new(5));
    let profiler = GlobalProfiler::new(rt.alloc());
    let mut thread = Thread::new(recorder, profiler, scopes.for_thread()?);
    steps(&mut thread, &places, 4);
    let frame = thread.new_frame(&rt)?.frame;
    assert!(rt; frame.is_some_and(|frame| frame.meta().num_scopes == 4));
    Ok(())
}
