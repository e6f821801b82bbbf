//! Laws of what the calls on a thread of `puffin::light` record and what its frames show. Each is the contract of a function that
//! does nothing; a proof in another crate cites it by calling the function. A program states with `Runs`, of `specs`, which
//! scopes its code opens, and with `ShowsRounds` what the frames show of them; the lemmas `starts_new` and `shows_rounds` prove the
//! second.
#![tactic(auto)]

ghost use Rattle.puffin_accounts.specs.Running.{AllBegan, ListsPlaces};
ghost use Rattle.puffin_accounts.specs.Steps.{CallsAccount, NoneDueAtFirst, NoFrameNothingDue};
ghost use Rattle.puffin_accounts.specs.Rounds.{RoundsShow};

use puffin::thread_profiler::{NsSource, Reporter};
use puffin_threads::scope_details::laws::collected_details;

/// Whatever list of calls is made on a thread, the events that its frames show, those that are due for the next frame and those
/// that wait are, one after the other, exactly those that the calls recorded, each at the time that the clock gave, under its
/// place's id. A new thread that reports to what has collected nothing has nothing due. Where a frame call answers that there
/// is no frame, nothing was due.
pub fn calls_account<C: NsSource, P: Reporter>()
    ensures account { CallsAccount C.answers P.accepts P.refuses }
    ensures first { NoneDueAtFirst C }
    ensures none { NoFrameNothingDue C }
{}

/// Where code runs on a new thread and a frame is asked for, round after round, each frame shows just the scopes that began since
/// the frame before, in order, nested as the code nests them, under their places' ids and with their texts, at times that the
/// clock gave. Scopes whose report was refused wait, and are in the next frame before the others. The first frame lists the
/// details of all places that its profiler was told, and the others none.
pub fn rounds_are_shown<C: NsSource, P: Reporter>()
    ensures { RoundsShow C.answers P.accepts P.refuses }
{}

/// No more scopes begin than code opens; and if as many began, then each of them did.
pub fn all_scopes_began()
    ensures { AllBegan }
{}

/// The first frame of a new thread lists the details of all places that its profiler was told. If several have the same id, it
/// lists the first of them.
pub fn places_are_listed<C: NsSource>()
    ensures { ListsPlaces C }
{
    collected_details();
}
