//! Code that is profiled, with proofs of which scopes it opens and what its frames show.
#![tactic(auto)]

ghost use Rattle.std.specs.Prelude.{◌≡◌, ◌+◌, ◌∷◌, [], IfOk, map, vec_len};
ghost use Rattle.std.specs.String.{string_bytes};
ghost use Rattle.puffin.specs.Places.{details_in};
ghost use Rattle.puffin_accounts.specs.Running.{Runs, at_first, repeated};
ghost use Rattle.puffin_accounts.specs.Rounds.{Lists, ShowsRounds};
ghost use Rattle.example_proved.specs.Turn.{
  physics_code,
  turn_code,
  turn_round,
  script_answers,
  the_places,
  the_details,
  update_details,
  physics_details,
};

use puffin::frame_data::FrameData;
use puffin::global_profiler::GlobalProfiler;
use puffin::light::{Place, Records, Scopes, Thread};
use puffin::thread_profiler::{ScriptClock, ThreadProfiler};
use puffin::{place, profile};
use puffin_accounts::places_are_listed;
use puffin_data::Result;
use std::alloc::Global;
use std::sync::{Arc, Wait};

#[cfg(test)]
mod tests;

/// The places where scopes begin.
#[derive(Drop)]
pub struct Places {
    update: Place,
    physics: Place,
}

/// Opens the scope of a turn, and within it that of physics.
pub fn turn<T: Records>(thread: &mut T, places: &Places)
    ensures { Runs T.begins T.ends (turn_code places.now) thread.old thread.new }
{
    profile!(whole, thread, places.update);
    profile!(_physics, whole, places.physics, "all bodies");
}

/// Opens the scope of physics.
pub fn physics<T: Records>(thread: &mut T, places: &Places)
    ensures { Runs T.begins T.ends (physics_code places.now) thread.old thread.new }
{
    profile!(_physics, thread, places.physics, "all bodies");
}

/// The same as [`turn`], with the inner scope in a function of its own.
pub fn turn_by_call<T: Records>(thread: &mut T, places: &Places)
    ensures { Runs T.begins T.ends (turn_code places.now) thread.old thread.new }
{
    profile!(whole, thread, places.update);
    physics(whole.thread(), places);
}

/// Opens the scope of physics this many times, one after the other.
pub fn steps<T: Records>(thread: &mut T, places: &Places, n: usize)
    ensures { Runs T.begins T.ends (repeated n (physics_code places.now)) thread.old thread.new }
{
    for step in 0..n {
        physics(thread, places);
    }
}

/// Returns twice this number. The contract is one that the function had before it was profiled.
pub fn twice<T: Records>(thread: &mut T, places: &Places, n: u32) -> u64
    ensures { result ≡ n + n }
{
    profile!(_physics, thread, places.physics);
    u64::from(n) + u64::from(n)
}

/// Registers the places.
fn registered(alloc: Global) -> Result<(Scopes, Places)>
    ensures scopes { IfOk result (λ registered. details_in registered.0 ≡ the_details) }
    ensures places { IfOk result (λ registered. registered.1 ≡ the_places) }
{
    let mut scopes = Scopes::new(alloc)?;
    let places = Places {
        update: place!(scopes, "update")?,
        physics: place!(scopes, "update", "physics")?,
    };
    Ok((scopes, places))
}

/// Takes the frame of one turn of a new thread. Returns it, and how many scopes wait for a report.
pub fn first_frame(
    rt: &(impl Wait + AllocGlobal),
    name: String,
    clock: ScriptClock,
) -> Result<(Option<Arc<FrameData>>, usize)>
    ensures shown { IfOk result (λ taken. ShowsRounds script_answers
        (at_first (string_bytes name) clock the_details) (turn_round taken.0 ∷ []) taken.1) }
    ensures update { IfOk result (λ taken. Lists taken.0 update_details) }
    ensures physics { IfOk result (λ taken. Lists taken.0 physics_details) }
{
    places_are_listed::<ScriptClock>(); // for the proof: what the frame lists
    let alloc = rt.alloc();
    let (scopes, places) = registered(alloc)?;
    let mut profiler = GlobalProfiler::new(alloc);
    profiler.add_scopes(scopes.details())?;
    let recorder = ThreadProfiler::new(alloc, name, clock);
    let mut thread = Thread::new(recorder, profiler, scopes.for_thread()?);
    turn(&mut thread, &places);
    let frame = thread.new_frame(rt)?.frame;
    Ok((frame, thread.num_closed()))
}

/// Takes a frame after each of so many turns of a new thread. Returns them, and how many scopes wait for a report.
pub fn frames(
    rt: &(impl Wait + AllocGlobal),
    name: String,
    clock: ScriptClock,
    turns: usize,
) -> Result<(Vec<Option<Arc<FrameData>>>, usize)>
    ensures number { IfOk result (λ taken. vec_len taken.0 ≡ turns) }
    ensures shown { IfOk result (λ taken. ShowsRounds script_answers
        (at_first (string_bytes name) clock the_details) (map turn_round taken.0.items) taken.1) }
{
    let alloc = rt.alloc();
    let (scopes, places) = registered(alloc)?;
    let mut profiler = GlobalProfiler::new(alloc);
    profiler.add_scopes(scopes.details())?;
    let recorder = ThreadProfiler::new(alloc, name, clock);
    let mut thread = Thread::new(recorder, profiler, scopes.for_thread()?);
    let mut frames = Vec::new(alloc);
    for round in 0..turns {
        turn(&mut thread, &places);
        frames.push(thread.new_frame(rt)?.frame)?;
    }
    Ok((frames, thread.num_closed()))
}
