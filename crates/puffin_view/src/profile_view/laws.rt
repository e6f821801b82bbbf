//! Laws of views and their files, as contracts of functions that do nothing. A proof in another crate cites a law by calling
//! its function.

ghost use Rattle.std.specs.Prelude.{ℕ, Bool, List, ◌≡◌, ◌↔◌, ◌<◌, ◌<ℤ◌, ◌≤◌, IsFalse, Option, Some, None, [], ◌∷◌, ◌++◌, ◌-◌, ◌^◌, IsTrue, Ok, Err, length, map, drop, nat_lt, if◌then◌else◌};
ghost use Rattle.std.specs.List.{AllPairs, AllByRecursion, list_any};
ghost use Rattle.std.specs.declared.cmp.Ordering.TheVariants.{Less, Equal};
ghost use Rattle.std.specs.Ordering.{eq_by_cmp};
ghost use Rattle.std.specs.Cmp.{IsTotalOrder};
ghost use Rattle.puffin_threads.specs.Details.Collection.{Collection};
ghost use Rattle.puffin_frames.specs.Packet.Stored.{PacketFields, Stored, packed};
ghost use Rattle.puffin_view.specs.declared.profile_view.slow_rank.SlowRank.{SlowRank};
ghost use Rattle.puffin_view.specs.View.Ranking.{AreFirst};
ghost use Rattle.puffin_view.specs.View.ViewedFrames.{Frame, fields_of, duration, frame_index, by_duration, is_slower, slowest, rising_end};
ghost use Rattle.puffin_view.specs.View.FrameRanks.{rank_of, rank_cmp};
ghost use Rattle.puffin_view.specs.declared.profile_view.select.ByIndex.{ByIndex};
ghost use Rattle.puffin_view.specs.View.Selection.{Rank, older_cmp, rank_by_index};
ghost use Rattle.puffin_data.specs.declared.error.Error.{Error};
ghost use Rattle.puffin_data.specs.declared.file_error.FileError.{FileError};
ghost use Rattle.puffin_data.specs.Device.{IsOutside};
ghost use Rattle.puffin_data.specs.Value.Layout.{IsBytes};
ghost use Rattle.puffin_frames.specs.Packet.Front.{is_end};
ghost use Rattle.puffin_frames.specs.Packet.Grammar.{IsPacked};
ghost use Rattle.puffin_view.specs.declared.profile_view.frame_view.FrameView.{FrameView};
ghost use Rattle.puffin_view.specs.View.{View, after_all, last_index, rises_behind};
ghost use Rattle.puffin_view.specs.View.Known.{view_of, lacks_ids};
ghost use Rattle.puffin_view.specs.View.Grammar.{fields_stored, IsFile};
ghost use Rattle.puffin_view.specs.View.FrameFile.{GivesNext, HasGiven, IsCut};
ghost use Rattle.puffin_view.specs.View.File.{file_of, first_with, without_details, fields_held, fields_in, frame_stored, read_view, file_at, TookFrames, FailsToRead, ReadsView};

use crate::profile_view::select::ByIndex;
use crate::profile_view::slow_rank::SlowRank;
use puffin_frames::frame_data::laws::{only_packets_are_read, written_is_read};

/// The slowest frames of a list, up to some number, are the first ones when the list is sorted by duration, longest first, then
/// by index. They are listed in that order.
pub fn slowest_first()
    ensures first { (number : ℕ) (frames : List PacketFields) →
        AreFirst is_slower number frames (slowest number frames) }
    ensures in_order { (number : ℕ) (frames : List PacketFields) →
        AllPairs (λ frame later. IsFalse (is_slower later frame)) (slowest number frames) }
{}

/// Frames are ordered by duration, longest first, then by index. The order is total, and two frames tie exactly when they have
/// the same duration and the same index.
pub fn order_by_duration()
    ensures longer_first { (frame other : PacketFields) → duration other <ℤ duration frame →
        by_duration frame other ≡ Less }
    ensures then_by_index { (frame other : PacketFields) → duration frame ≡ duration other →
        frame_index frame < frame_index other →
        by_duration frame other ≡ Less }
    ensures ties { (frame other : PacketFields) →
        by_duration frame other ≡ Equal
        ↔ ((duration frame ≡ duration other) × (frame_index frame ≡ frame_index other)) }
    ensures total { IsTotalOrder by_duration }
{}

/// The result of [`select_slowest`](crate::profile_view::select_slowest) is sorted by index, then by place in the list. This
/// order is total, and the equality and order of `ByIndex`, the type that is sorted, agree with it.
pub fn order_by_index()
    ensures lower_first { (rank other : Rank) → rank.index < other.index →
        older_cmp rank other ≡ Less }
    ensures then_by_place { (rank other : Rank) → rank.index ≡ other.index →
        rank.place < other.place →
        older_cmp rank other ≡ Less }
    ensures total { IsTotalOrder older_cmp }
    ensures order { (place other : ByIndex) → ⟦<ByIndex as Ord>⟧.cmp place other
        ≡ older_cmp (rank_by_index place) (rank_by_index other) }
    ensures equality { (place other : ByIndex) → ⟦<ByIndex as PartialEq>⟧.eq place other
        ≡ eq_by_cmp older_cmp (rank_by_index place) (rank_by_index other) }
    ensures one { (place other : ByIndex) →
        older_cmp (rank_by_index place) (rank_by_index other) ≡ Equal → place ≡ other }
{}

/// A view compares frames by their ranks. A rank is a frame's duration and index. Ranks are ordered as [`order_by_duration`]
/// orders their frames, and two ranks compare as equal exactly when they are the same.
pub fn ranks_by_duration()
    ensures order { (frame other : Frame) →
        ⟦<SlowRank as Ord>⟧.cmp (rank_of frame) (rank_of other)
        ≡ by_duration (fields_of frame) (fields_of other) }
    ensures equality { (rank other : SlowRank) →
        ⟦<SlowRank as PartialEq>⟧.eq rank other ≡ eq_by_cmp rank_cmp rank other }
    ensures one { (rank other : SlowRank) → rank_cmp rank other ≡ Equal → rank ≡ other }
{}

/// After taking frames, a view holds only frames that it held before or took, and its file has only frames that it holds. Both
/// are stated for any test of frames: if no frame held before or taken passes it, no frame held afterwards does; and if no
/// frame held passes it, no frame in the file does.
pub fn views_hold_what_they_took()
    ensures held { (test : PacketFields → Bool) (view : View) (taken : List Frame) →
        IsFalse (list_any test (fields_held view)) →
        IsFalse (list_any test (map fields_of taken)) →
        IsFalse (list_any test (fields_held (after_all view taken))) }
    ensures listed { (test : PacketFields → Bool) (view : View) →
        IsFalse (list_any test (fields_held view)) → IsFalse (list_any test (fields_in view)) }
{}

/// A written file of fewer than `2^64 - 1` frames, followed by an end (four zero bytes, or fewer than four bytes), is read as
/// exactly its frames, or refused with `MissingId` if some of their details have no id. Different lists of frames are never
/// written as the same bytes.
pub fn written_files_are_read()
    ensures again { (frames : List PacketFields) (end : List ℕ) → AllByRecursion IsPacked frames →
        length frames < 2 ^ 64 - 1 → IsTrue (is_end end) → IsFalse (list_any lacks_ids frames) →
        file_at (file_of frames ++ end) ≡ Ok (map packed frames, drop 4 end) }
    ensures missing { (frames : List PacketFields) (end : List ℕ) →
        AllByRecursion IsPacked frames →
        length frames < 2 ^ 64 - 1 → IsTrue (is_end end) → IsTrue (list_any lacks_ids frames) →
        file_at (file_of frames ++ end) ≡ Err (FileError.Refused Error.MissingId) }
    ensures one_list { (frames others : List PacketFields) → AllByRecursion IsPacked frames →
        AllByRecursion IsPacked others → file_of frames ≡ file_of others → frames ≡ others }
{
    // For the proof alone: a law of packets.
    written_is_read();
}

/// A file whose first packet has the details of a collection, as [`FrameView::write_with_details`] writes it, differs from one
/// without them in these details alone.
///
/// [`FrameView::write_with_details`]: crate::profile_view::FrameView::write_with_details
pub fn details_change_nothing_else()
    ensures { (scopes : Option Collection) (frames : List PacketFields) →
        map without_details (first_with scopes frames) ≡ map without_details frames }
{}

/// A file of frames is `PUF0`, a packet for each frame, in order, and an end as in [`written_files_are_read`]. The packets may
/// be of any version that is read. Bytes are read as frames exactly when they are a file of these frames, all details of the
/// frames have ids, and there are fewer than `2^64 - 1` frames. If only ids are missing, the file is refused with `MissingId`.
pub fn only_files_are_read()
    ensures read { (bytes : List ℕ) (frames : List Stored) (after : List ℕ) → IsBytes bytes →
        (file_at bytes ≡ Ok (frames, after))
        ↔ (IsFile bytes frames after × (length frames < 2 ^ 64 - 1)
        × IsFalse (list_any lacks_ids (fields_stored frames))) }
    ensures missing { (bytes : List ℕ) (frames : List Stored) (after : List ℕ) → IsBytes bytes →
        IsFile bytes frames after → length frames < 2 ^ 64 - 1 →
        IsTrue (list_any lacks_ids (fields_stored frames)) →
        file_at bytes ≡ Err (FileError.Refused Error.MissingId) }
{
    // For the proof alone: a law of packets.
    only_packets_are_read();
}

/// A file with `2^64 - 1` frames or more before its end is refused with `Truncated`, whatever follows the first `2^64 - 1`.
pub fn files_have_an_end()
    ensures { (old new : Option (List ℕ)) (frames : List Stored) →
        HasGiven old new frames → length frames ≡ 2 ^ 64 - 1 →
        FailsToRead file_at old new FileError.Truncated }
{}

/// A written file with nothing after it is read as exactly the frames that were written. If a view wrote the file, they are, in
/// order, the recent frames of the view that [`FrameView::read`](crate::profile_view::FrameView::read) returns. Unless the
/// reader fails or memory runs out, reading fails only if some details of the frames have no id.
pub fn what_was_written_is_read()
    ensures frames { (written : List PacketFields) (new : Option (List ℕ)) (read : List Stored) →
        AllByRecursion IsPacked written → length written < 2 ^ 64 - 1 →
        TookFrames file_at (Some (file_of written)) new read → read ≡ map packed written }
    ensures fault { (written : List PacketFields) (new : Option (List ℕ)) (fault : FileError) →
        AllByRecursion IsPacked written → length written < 2 ^ 64 - 1 →
        FailsToRead file_at (Some (file_of written)) new fault → ¬ IsOutside fault →
        (fault ≡ FileError.Refused Error.MissingId) × IsTrue (list_any lacks_ids written) }
    ensures view { (writer : View) (new : Option (List ℕ)) (view : FrameView) →
        AllByRecursion IsPacked (fields_in writer) → length (fields_in writer) < 2 ^ 64 - 1 →
        ReadsView file_at (Some (file_of (fields_in writer))) new (Ok view) →
        map fields_of (view_of view).recent ≡ fields_in writer }
    // The view that takes these frames holds no others.
    ensures all { (writer : View) → length (fields_in writer) < 2 ^ 64 - 1 →
        fields_in (after_all read_view (map frame_stored (map packed (fields_in writer))))
        ≡ fields_in writer }
{
    // For the proof alone: a law of packets.
    written_is_read();
}

/// A view that reads fewer than `2^64 - 1` frames keeps exactly the longest run at their end in which each index is above the
/// one before. One more frame joins the frames kept if its index is above the last index, and otherwise replaces them all.
pub fn reading_keeps_what_rises()
    ensures kept { (taken : List Frame) → length taken < 2 ^ 64 - 1 →
        fields_in (after_all read_view taken) ≡ rising_end (map fields_of taken) }
    ensures goes_on { (taken : List PacketFields) (next : PacketFields) →
        IsTrue (rises_behind (last_index taken) next) →
        rising_end (taken ++ next ∷ []) ≡ rising_end taken ++ next ∷ [] }
    ensures begins_anew { (taken : List PacketFields) (next : PacketFields) →
        IsFalse (rises_behind (last_index taken) next) →
        rising_end (taken ++ next ∷ []) ≡ next ∷ [] }
{}

/// If a written file is cut anywhere after `PUF0`, as by a crash, what is left is the file of its first frames, perhaps
/// followed by some bytes of the next packet. If all details of the frames have ids, reading it one frame at a time gives
/// exactly these frames, in order, and then the end if fewer than four bytes of the next packet are left, or else `Truncated`.
/// No frame is changed, and none is given that wasn't written.
pub fn cut_files_give_whole_frames()
    // what is left of a file
    ensures cut { (written : List PacketFields) (bytes lost : List ℕ) →
        file_of written ≡ bytes ++ lost → 4 ≤ length bytes →
        (whole : List PacketFields) × IsCut written bytes whole }
    // what a call that reads it at once returns
    ensures file { (written : List PacketFields) (bytes : List ℕ) (whole : List PacketFields)
        (cut : IsCut written bytes whole) → AllByRecursion IsPacked written →
        length written < 2 ^ 64 - 1 → IsFalse (list_any lacks_ids written) →
        file_at bytes
        ≡ (if nat_lt (length cut.left) 4 then Ok (map packed whole, [])
        else Err FileError.Truncated) }
    // what a reader has given so far: the first of these frames
    ensures given { (written : List PacketFields) (bytes : List ℕ) (whole : List PacketFields) →
        IsCut written bytes whole → AllByRecursion IsPacked written →
        IsFalse (list_any lacks_ids written) →
        (new : Option (List ℕ)) (frames : List Stored) → HasGiven (Some bytes) new frames →
        (given more : List PacketFields) × (whole ≡ given ++ more) × (frames ≡ map packed given) }
    // all of them, once it is at the end or fails with a fault of the bytes
    ensures end { (written : List PacketFields) (bytes : List ℕ) (whole : List PacketFields) →
        IsCut written bytes whole → AllByRecursion IsPacked written →
        IsFalse (list_any lacks_ids written) →
        (mid new : Option (List ℕ)) (frames : List Stored) → HasGiven (Some bytes) mid frames →
        GivesNext mid new (Ok None) → frames ≡ map packed whole }
    ensures fault { (written : List PacketFields) (bytes : List ℕ) (whole : List PacketFields) →
        IsCut written bytes whole → AllByRecursion IsPacked written →
        IsFalse (list_any lacks_ids written) →
        (mid new : Option (List ℕ)) (frames : List Stored) (fault : FileError) →
        HasGiven (Some bytes) mid frames → GivesNext mid new (Err fault) → ¬ IsOutside fault →
        (fault ≡ FileError.Truncated) × (frames ≡ map packed whole) }
{
    // For the proof alone: a law of packets.
    written_is_read();
}
