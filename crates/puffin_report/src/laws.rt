//! Laws of recordings and reports, as contracts of functions that do nothing. A proof in another crate cites a law by
//! calling its function.

ghost use Rattle.std.specs.Prelude.{ℕ, List, ◌≡◌, ◌<◌, ◌-◌, ◌^◌, Option, Some, Ok, length};
ghost use Rattle.std.specs.List.{AllByRecursion};
ghost use Rattle.puffin_data.specs.declared.file_error.FileError.{FileError};
ghost use Rattle.puffin_data.specs.Device.{IsOutside};
ghost use Rattle.puffin_frames.specs.declared.frame_data.frame.FrameData.{FrameData};
ghost use Rattle.puffin_threads.specs.Thread.ThreadKey.{ThreadKey};
ghost use Rattle.puffin_frames.specs.Frame.Contents.{Streams, holding_of, frame_streams, packet_fields, streams_in_fields};
ghost use Rattle.puffin_frames.specs.Frame.Holding.{as_packed};
ghost use Rattle.puffin_frames.specs.Packet.Stored.{Stored};
ghost use Rattle.puffin_frames.specs.Packet.Grammar.{IsPacked};
ghost use Rattle.puffin_view.specs.View.{View};
ghost use Rattle.puffin_view.specs.View.File.{file_of, fields_in, file_at, TookFrames};
ghost use Rattle.puffin_report.specs.declared.summary.Summary.{Summary};
ghost use Rattle.puffin_report.specs.Summary.{NoneLacksIds, details_said, SumsUp, IsSummary, IsHindered, FailsToSumUp};
ghost use Rattle.puffin_report.specs.ReportLines.{report_lines};

use puffin_frames::frame_data::laws::each_frame_is_read_again;
use puffin_merge::merge::laws::one_outcome;
use puffin_view::profile_view::laws::what_was_written_is_read;

/// If a reader has the file of a view and nothing after it, the file's summary is that of exactly the frames that were written,
/// with the details that they list. If all these details have ids, and neither the reader fails nor memory runs out, then
/// summing up fails only because a frame can't be unpacked or the frames can't be merged.
pub fn what_was_recorded_is_summed_up()
    ensures summary { (info : ThreadKey) (view : View) (new : Option (List ℕ))
        (stored : List Stored) (summary : Summary) →
        AllByRecursion IsPacked (fields_in view) → length (fields_in view) < 2 ^ 64 - 1 →
        TookFrames file_at (Some (file_of (fields_in view))) new stored →
        IsSummary info stored summary →
        SumsUp info (fields_in view) (details_said (fields_in view)) summary }
    ensures fault { (info : ThreadKey) (view : View) (new : Option (List ℕ)) (e : FileError) →
        AllByRecursion IsPacked (fields_in view) → length (fields_in view) < 2 ^ 64 - 1 →
        NoneLacksIds (fields_in view) → FailsToSumUp info (Some (file_of (fields_in view))) new e →
        ¬ IsOutside e → IsHindered info (fields_in view) e }
    // A packed copy of a frame is unpacked to what the copy holds, which is what the frame holds.
    ensures copied { (frame copy : FrameData) (streams : Streams) →
        holding_of copy ≡ as_packed (holding_of frame) → frame_streams copy ≡ Some streams →
        streams_in_fields (packet_fields frame) ≡ Ok streams }
    ensures unpacked { (frame : FrameData) (streams : Streams) →
        frame_streams frame ≡ Some streams → streams_in_fields (packet_fields frame) ≡ Ok streams }
{
    // This law follows from these two.
    what_was_written_is_read();
    each_frame_is_read_again();
}

/// For one thread info, all summaries of the same frames are printed as the same lines.
pub fn one_report()
    ensures { (info : ThreadKey) (stored : List Stored) (one another : Summary) →
        IsSummary info stored one → IsSummary info stored another →
        report_lines one ≡ report_lines another }
{
    // This law follows from the law that frames have only one merge.
    one_outcome();
}
