//! What the history of a shared profiler consists of, and how calls add to it.
use history::Adds;
use puffin_data::data::StreamInfoRef;
use puffin_frames::frame_data::FrameData;
use puffin_threads::thread_profiler::ThreadInfo;
use std::marker::Model;
use std::snapshot::Snapshot;
use std::sync::Arc;

/// An entry of a history: a report, a frame, or a mark of a share, such as its return. There are no values of it when a program runs.
pub struct Event {
    made: bool,
}

impl Model for Event {
    ghost use Rattle.puffin.specs.Happenings.{Happening, marked, left, happening_code};

    ghost Value = { Happening };

    ghost coded = { happening_code };

    ghost view = { λ event. marked left };
}

/// A report, as an entry speaks of it.
#[derive(Drop)]
pub(crate) struct Report<'a> {
    pub(crate) info: Snapshot<ThreadInfo>,
    pub(crate) times: &'a StreamInfoRef<'a>,
}

/// Adds a report.
pub(crate) struct Reports;

impl<'a> Adds<Report<'a>, Event> for Reports {
    ghost use Rattle.puffin_data.specs.Honesty.{facts_of_ref};
    ghost use Rattle.puffin_threads.specs.Thread.ThreadKey.{key_of};
    ghost use Rattle.puffin.specs.Happenings.{reported};

    ghost entry = { λ report. reported (key_of report.info.value) (facts_of_ref report.times.now) };
}

/// Adds a frame.
pub(crate) struct Frames;

impl Adds<Arc<FrameData>, Event> for Frames {
    ghost use Rattle.std.specs.Arc.{arc_value};
    ghost use Rattle.puffin.specs.Happenings.{framed};
    ghost use Rattle.puffin.specs.Members.{unpacked_in};

    ghost entry = { λ frame. framed (unpacked_in (arc_value frame)) };
}

/// Adds the return of a share.
pub(crate) struct Returns;

impl Adds<(), Event> for Returns {
    ghost use Rattle.puffin.specs.Happenings.{marked, left};

    ghost entry = { λ nothing. marked left };
}

/// Adds that a thread arrived at the end of a round.
pub(crate) struct Arrives;

impl Adds<(), Event> for Arrives {
    ghost use Rattle.puffin.specs.Happenings.{marked, arrived};

    ghost entry = { λ nothing. marked arrived };
}

/// Adds that a round was released.
pub(crate) struct Releases;

impl Adds<(), Event> for Releases {
    ghost use Rattle.puffin.specs.Happenings.{marked, released};

    ghost entry = { λ nothing. marked released };
}

/// Adds that a share saw threads arrived so many times.
pub(crate) struct SeesArrived;

impl Adds<u64, Event> for SeesArrived {
    ghost use Rattle.puffin.specs.Happenings.{marked, saw_arrived};

    ghost entry = { λ number. marked (saw_arrived number) };
}

/// Adds that a share saw so many rounds released.
pub(crate) struct SeesReleased;

impl Adds<u64, Event> for SeesReleased {
    ghost use Rattle.puffin.specs.Happenings.{marked, saw_released};

    ghost entry = { λ number. marked (saw_released number) };
}
