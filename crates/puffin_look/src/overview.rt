//! Reads what all frames of a file say together.

ghost use Rattle.std.specs.Prelude.{◌≡◌, false, IfOk, IfErr, OnOk, IsOkUnless};
ghost use Rattle.puffin_data.specs.declared.error.Error.{Error};
ghost use Rattle.puffin_data.specs.Device.{CanFail, IsOutside, failures_after};
ghost use Rattle.puffin_frames.specs.Frame.Contents.{packet_fields};
ghost use Rattle.puffin_view.specs.View.Known.{lacks_ids};
ghost use Rattle.puffin_look.specs.FirstReading.{no_overview, with_fields, IsOverview};
ghost use Rattle.puffin_look.specs.inner.FirstReadings.{ReadsFrames};

use crate::threads::fails_outside;
use puffin_data::data::Source;
use puffin_data::{FileError, NanoSecond, Result as Answer};
use puffin_frames::frame_data::FrameData;
use puffin_threads::scope_details::ScopeCollection;
use puffin_view::profile_view::{next_frame, read_magic};
use std::alloc::Global;

/// What all frames of a file say together.
#[derive(Drop)]
pub struct Overview {
    /// The details of the scopes, from all frames. Under each id the first details count.
    pub details: ScopeCollection,
    /// When the first frame began: the least start of a frame's range, or `i64::MAX` if there is no frame.
    pub start: NanoSecond,
}

impl Overview {
    /// Returns the overview of no frames.
    fn new(alloc: Global) -> Overview
        ensures { result ≡ no_overview }
    {
        Overview {
            details: ScopeCollection::new(alloc),
            start: NanoSecond::MAX,
        }
    }

    /// Adds what a frame says. Fails only with `Memory`.
    fn add(&mut self, frame: &FrameData) -> Answer<()>
        requires ids { lacks_ids (packet_fields frame.now) ≡ false }
        ensures ok { OnOk result (self.new ≡ with_fields self.old (packet_fields frame.now)) }
        ensures memory { IsOkUnless result Error.Memory }
    {
        self.details.insert_all(&frame.scope_delta)?;
        self.start = self.start.min(frame.range_ns().0);
        Ok(())
    }
}

/// Adds all frames of a file. Fails with the first fault of the file, with `Io`, or with `Memory`.
fn add_frames<S: Source>(
    alloc: Global,
    source: &mut S,
    overview: &mut Overview,
) -> Result<(), FileError>
    requires source { CanFail S.failures source.old }
    requires none { overview.old ≡ no_overview }
    ensures read { ReadsFrames (S.remaining source.old) (S.remaining source.new) overview.new
        result }
    ensures failures { S.failures source.new ≡ failures_after (S.failures source.old) result }
{
    read_magic(source)?;
    'frames: for _ in 0..u64::MAX {
        let Some(frame) = next_frame(alloc, source)? else {
            return Ok(());
        };
        overview.add(&frame)?;
    }
    // The loop has returned, unless the file has more frames than any that is accepted.
    Err(FileError::Truncated)
}

/// Reads what all frames of a file say together, before the file is printed: [`print_frame`](crate::print_frame),
/// [`print_trace`](crate::print_trace) and [`print_folded`](crate::print_folded) take it, and read the file again. No stream is
/// unpacked.
///
/// A file with a fault has the frames before it; printing it fails with the fault then. Fails only with `Io`, if a read fails, or
/// with `Memory`.
///
/// ```
/// let overview = read_overview(alloc, &mut Buffered::new(bytes))?;
/// print_trace(alloc, &overview, &mut Buffered::new(bytes), &mut out)?;
/// ```
pub fn read_overview<S: Source>(alloc: Global, source: &mut S) -> Result<Overview, FileError>
    requires { CanFail S.failures source.old }
    ensures ok { IfOk result (λ overview.
        IsOverview (S.remaining source.old) (S.remaining source.new) overview) }
    ensures outside { IfErr result IsOutside }
    ensures failures { S.failures source.new ≡ failures_after (S.failures source.old) result }
{
    let mut overview = Overview::new(alloc);
    let answer = add_frames(alloc, source, &mut overview);
    if fails_outside(&answer) {
        answer?;
    }
    Ok(overview)
}
