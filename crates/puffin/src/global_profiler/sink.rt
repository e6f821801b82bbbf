//! Sinks, which get the frames of a profiler.
ghost use Rattle.std.specs.Arc.{arc_value};

use puffin_data::{Error, Result};
use puffin_frames::frame_data::FrameData;
use puffin_view::profile_view::FrameView;
use std::marker::Model;
use std::sync::{Arc, Mutex};

/// Takes the frames of a profiler.
pub trait FrameSink: Drop {
    ghost use Rattle.std.specs.Prelude.{Result};
    ghost use Rattle.puffin_data.specs.declared.error.Error.{Error};
    ghost use Rattle.puffin_frames.specs.declared.frame_data.frame.FrameData.{FrameData};

    /// What `accept` may do, as a relation between a state, a frame, a result and the state afterwards.
    ghost accepts: { Self → FrameData → Result (Unit {0}) Error → Self → Type 0 };

    /// Takes a frame, which it shares with other sinks. May fail with any error; the profiler counts that, and goes on.
    fn accept(&mut self, frame: Arc<FrameData>) -> Result<()>
        ensures { accepts self.old (arc_value frame) result self.new };
}

/// A sink of a profiler: a shared view, or any other sink.
#[derive(Drop)]
pub enum Sink {
    /// A view behind a lock, which is taken for each frame.
    View(Arc<Mutex<FrameView>>),
    /// Any sink, in a box.
    Boxed(Box<dyn FrameSink + Send>),
}

/// The number of a sink, which the profiler gives it. A profiler's first sink has the number 1, and no number is used twice.
#[derive(Clone, Copy, Debug, PartialEq, Eq, Hash)]
pub struct FrameSinkId {
    number: u64,
}

impl Model for FrameSinkId {
    ghost use Rattle.std.specs.Prelude.{ℕ, ◌<◌, ◌^◌};

    ghost Value = { ℕ };

    ghost view = { λ id. id.number };

    ghost invariant = { λ id. id.number < 2 ^ 64 };

    ghost inverse = { λ n. record { number = n } };
}

impl FrameSinkId {
    ghost use Rattle.std.specs.Prelude.{◌≡◌};

    /// Makes the id with this number.
    pub(crate) fn new(number: u64) -> FrameSinkId
        ensures { result ≡ number }
    {
        FrameSinkId { number }
    }

    /// Returns the number.
    pub fn get(&self) -> u64
        ensures { result ≡ self.now }
    {
        self.number
    }
}
