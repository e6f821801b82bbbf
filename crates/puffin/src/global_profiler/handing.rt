//! Hands a frame to the sinks of a profiler.
ghost use Rattle.std.specs.Prelude.{◌≡◌, ◌≤◌};
ghost use Rattle.std.specs.Arc.{arc_value};
ghost use Rattle.puffin.specs.Sinks.Handing.{Answers, HandedTo, HandsOn, refusal};

use crate::global_profiler::sink::{FrameSink, Sink};
use crate::global_profiler::sinks::SinkEntry;
use puffin_data::Result;
use puffin_frames::frame_data::FrameData;
use puffin_view::profile_view::FrameView;
use std::sync::{Arc, Mutex, Wait};

/// The result of handing a frame to one sink.
#[derive(Clone, Copy, Debug, PartialEq, Eq)]
pub enum Outcome {
    /// The sink took the frame.
    Accepted,
    /// The sink refused the frame.
    Refused,
    /// The frame's `Arc` couldn't be cloned, so the sink wasn't called.
    NoCopy,
}

impl Outcome {
    /// Returns the outcome for what the sink returned.
    fn from_result(taken: Result<()>) -> Outcome {
        match taken {
            Ok(()) => Outcome::Accepted,
            Err(_) => Outcome::Refused,
        }
    }

    /// Returns 1 if the outcome counts as a refusal, else 0.
    fn refusals(self) -> usize
        ensures which { result ≡ refusal self }
        ensures one { result ≤ 1 }
    {
        match self {
            Outcome::Accepted => 0,
            Outcome::Refused | Outcome::NoCopy => 1,
        }
    }
}

/// Hands a frame to each of these sinks, in order. Returns how many sinks didn't take it.
pub(crate) fn hand_all<R: Wait>(rt: &R, sinks: &mut [SinkEntry], frame: &Arc<FrameData>) -> usize
    ensures { HandsOn (λ boxed. (FrameSink-box boxed).accepts) (arc_value frame.now) sinks.old
        result sinks.new }
{
    let mut refused = 0;
    for entry in sinks.iter_mut() {
        let outcome = hand(rt, &mut entry.sink, frame);
        refused += outcome.refusals();
    }
    refused
}

/// Hands a frame to one sink, which shares it.
fn hand<R: Wait>(rt: &R, sink: &mut Sink, frame: &Arc<FrameData>) -> Outcome
    ensures { HandedTo (λ boxed. (FrameSink-box boxed).accepts) (arc_value frame.now) sink.old
        result sink.new }
{
    let Ok(copy) = Arc::try_clone(frame) else {
        return Outcome::NoCopy;
    };
    match sink {
        Sink::View(view) => Outcome::from_result(hand_to_view(rt, view, copy)),
        Sink::Boxed(boxed) => match hand_to_box(boxed, copy) {
            Ok(()) => Outcome::Accepted,
            Err(_) => Outcome::Refused,
        },
    }
}

/// Hands a frame to a boxed sink.
fn hand_to_box(sink: &mut Box<dyn FrameSink + Send>, frame: Arc<FrameData>) -> Result<()>
    ensures { Answers (λ boxed. (FrameSink-box boxed).accepts) sink.old (arc_value frame) result
        sink.new }
{
    sink.accept(frame)
}

/// Waits for the lock of a view, and adds a frame to it.
fn hand_to_view<R: Wait>(
    rt: &R,
    view: &Arc<Mutex<FrameView>>,
    frame: Arc<FrameData>,
) -> Result<()> {
    view.lock(rt).add_frame(frame)
}
