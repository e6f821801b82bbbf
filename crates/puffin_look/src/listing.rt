//! Reads a file one frame at a time, and prints each frame.

ghost use Rattle.std.specs.Prelude.{◌≡◌, ◌⊎◌, ◌+◌, ◌++◌, ◌∷◌, [], List, ℕ, Option, true, ◌≢◌, Err, IfErr, OnOk};
ghost use Rattle.puffin_data.specs.declared.error.Error.{Error};
ghost use Rattle.puffin_data.specs.Device.{CanFail, TookNothing};
ghost use Rattle.puffin_view.specs.View.FrameFile.{HasGiven};
ghost use Rattle.puffin_frames.specs.Frame.Contents.{packet_fields};
ghost use Rattle.puffin_look.specs.OpenFrame.{OpenFrame, open_of, opened_fields};
ghost use Rattle.puffin_look.specs.Wanted.{is_within, frames_within};
ghost use Rattle.puffin_look.specs.inner.Listings.{AddsFrame, FailsToAdd, ListsAll, StopsBehind, StopsListing};

use crate::wanted::{Indices, is_within};
use puffin_data::data::{Drain, Source, write_all};
use puffin_data::{Error, FileError, Result as Answer};
use puffin_frames::frame_data::{FrameData, UnpackedFrameData};
use puffin_view::profile_view::{next_frame, read_magic};
use std::alloc::Global;

/// Makes the text of frames, one after the other.
pub(crate) trait Listing {
    ghost use Rattle.puffin_data.specs.declared.error.Error.{Error};

    /// The text that is still to be written.
    ghost text: { Self → List ℕ };

    /// Whether these frames, in order, have this text and lead from the first state to the second.
    ghost takes: { Self → List OpenFrame → List ℕ → Self → Type 0 };

    /// Whether this frame is refused with this error in this state.
    ghost refuses: { Self → OpenFrame → Error → Type 0 };

    /// Appends the text of the next frame.
    fn add(&mut self, frame: &UnpackedFrameData) -> Answer<()>
        ensures ok { OnOk result (
            (more : List ℕ)
            × (text self.new ≡ text self.old ++ more)
            × takes self.old (open_of frame.now ∷ []) more self.new) }
        ensures err { IfErr result (λ e.
            (e ≡ Error.Memory) ⊎ refuses self.old (open_of frame.now) e) };

    /// Returns the text that is still to be written.
    fn pending(&self) -> &[u8]
        ensures { result.now ≡ text self.now };

    /// Forgets that text, which was written.
    fn clear(&mut self)
        ensures text { text self.new ≡ [] }
        ensures same { takes self.old [] [] self.new };

    /// Taking no frame changes nothing.
    ghost takes_none: { (v : Self) → takes v [] [] v };

    /// Taking some frames and then others counts as taking both, joined.
    ghost takes_more: { (u v w : Self) (xs ys : List OpenFrame) (s t : List ℕ) →
        takes u xs s v → takes v ys t w → takes u (xs ++ ys) (s ++ t) w };
}

/// Adds a frame to a listing, if its index is one of these.
fn add_wanted<L: Listing>(
    listing: &mut L,
    frame: &UnpackedFrameData,
    indices: Option<Indices>,
) -> Answer<()>
    ensures ok { OnOk result (
        (more : List ℕ)
        × (L.text listing.new ≡ L.text listing.old ++ more)
        × L.takes listing.old (frames_within indices (open_of frame.now ∷ [])) more listing.new) }
    ensures err { IfErr result (λ e.
        (e ≡ Error.Memory)
        ⊎ ((is_within indices frame.now.meta.frame_index ≡ true)
        × L.refuses listing.old (open_of frame.now) e)) }
{
    if is_within(indices, frame.meta.frame_index) {
        listing.add(frame)
    } else {
        Ok(())
    }
}

/// Adds a frame that was read to a listing, unpacked, if its index is one of these.
///
/// Fails with `Compressed` or `BadStreams` if it can't be unpacked, with `Refused` if the listing refuses it, and with `Memory`.
#[tactic(auto, using(puffin_view::proofs::lemmas::FrameStreams::not_decided))]
fn add_frame<L: Listing>(
    listing: &mut L,
    frame: FrameData,
    indices: Option<Indices>,
) -> Result<(), FileError>
    ensures ok { OnOk result (
        AddsFrame L.text L.takes indices listing.old listing.new
        (opened_fields (packet_fields frame))) }
    ensures err { IfErr result (λ e.
        FailsToAdd L.refuses indices listing.old listing.new
        (opened_fields (packet_fields frame)) e) }
    ensures cause { IfErr result (λ e. e ≢ FileError.Io) }
{
    let mut frame = frame;
    let unpacked = frame.unpacked()?;
    Ok(add_wanted(listing, &unpacked, indices)?)
}

/// Prints the frames with these indices of a file whose letters were read, each as soon as it was read. What is pending at the
/// beginning is written in front of them.
pub(crate) fn list_behind<S: Source, D: Drain, L: Listing>(
    alloc: Global,
    source: &mut S,
    drain: &mut D,
    indices: Option<Indices>,
    listing: &mut L,
) -> Result<(), FileError>
    requires source { CanFail S.failures source.old }
    requires drain { CanFail D.failures drain.old }
    ensures ok { OnOk result ((unread : Option (List ℕ)) →
        HasGiven unread (S.remaining source.old) [] →
        ListsAll L.text L.takes indices listing.old listing.new unread (S.remaining source.new)
        (D.contents drain.old) (D.contents drain.new)) }
    ensures err { IfErr result (λ e. (unread : Option (List ℕ)) →
        HasGiven unread (S.remaining source.old) [] →
        StopsBehind L.text L.takes L.refuses indices listing.old listing.new unread
        (S.remaining source.new) (D.contents drain.old) (D.contents drain.new) e) }
    // `Io` means that the reader or the writer failed in this call, or that the writer took no bytes.
    ensures io { (result ≡ Err FileError.Io) → (S.failures source.new ≡ S.failures source.old + 1)
        ⊎ ((D.failures drain.new ≡ D.failures drain.old + 1) ⊎ TookNothing D.takes drain.new) }
    ensures failures { OnOk result (
        (S.failures source.new ≡ S.failures source.old)
        × (D.failures drain.new ≡ D.failures drain.old)) }
    ensures drained { result ≢ Err FileError.Io → D.failures drain.new ≡ D.failures drain.old }
{
    write_all(drain, listing.pending())?;
    listing.clear();
    'frames: for _ in 0..u64::MAX {
        let Some(frame) = next_frame(alloc, source)? else {
            return Ok(());
        };
        add_frame(listing, frame, indices)?;
        write_all(drain, listing.pending())?;
        listing.clear();
    }
    // The loop has returned, unless the file has more frames than any that is accepted.
    Err(FileError::Truncated)
}

/// Prints the frames of a file with these indices, as [`list_behind`] does, once the file's letters were read.
pub(crate) fn list_frames<S: Source, D: Drain, L: Listing>(
    alloc: Global,
    source: &mut S,
    drain: &mut D,
    indices: Option<Indices>,
    listing: &mut L,
) -> Result<(), FileError>
    requires source { CanFail S.failures source.old }
    requires drain { CanFail D.failures drain.old }
    ensures ok { OnOk result (
        ListsAll L.text L.takes indices listing.old listing.new (S.remaining source.old)
        (S.remaining source.new) (D.contents drain.old) (D.contents drain.new)) }
    ensures err { IfErr result (λ e.
        StopsListing L.text L.takes L.refuses indices listing.old listing.new
        (S.remaining source.old) (S.remaining source.new) (D.contents drain.old)
        (D.contents drain.new) e) }
    ensures io { (result ≡ Err FileError.Io) → (S.failures source.new ≡ S.failures source.old + 1)
        ⊎ ((D.failures drain.new ≡ D.failures drain.old + 1) ⊎ TookNothing D.takes drain.new) }
    ensures failures { OnOk result (
        (S.failures source.new ≡ S.failures source.old)
        × (D.failures drain.new ≡ D.failures drain.old)) }
    ensures drained { result ≢ Err FileError.Io → D.failures drain.new ≡ D.failures drain.old }
{
    read_magic(source)?;
    list_behind(alloc, source, drain, indices, listing)
}
