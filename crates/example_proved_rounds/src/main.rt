//! Four threads work in rounds, with a proof of what the frames show of each.
#![tactic(auto)]

ghost use Rattle.std.specs.Prelude.{◌≡◌, IfOk, None, length};
ghost use Rattle.puffin.specs.Places.{details_in};
ghost use Rattle.example_proved_rounds.specs.Game.{pace_of, ShowsGame};

use puffin::light::{Outcome, Place, Records, Rounds, Scopes, Settings, run_rounds};
use puffin::{place, profile};
use std::io;
use std::rt::Clock;
use std::sync::Wait;
use std::thread::Threads;

/// The places where scopes begin.
#[derive(Drop)]
pub struct Game {
    turn: Place,
    step: Place,
}

/// Returns the text of a step: whether the numbers of its thread and of its round are both even or both odd.
fn pace(number: usize, round: usize) -> &'static str
    ensures { result.now ≡ pace_of number round }
{
    if number % 2 == round % 2 {
        "alike"
    } else {
        "apart"
    }
}

impl Rounds for Game {
    type State = ();

    ghost use Rattle.std.specs.Prelude.{◌≡◌, true};
    ghost use Rattle.example_proved_rounds.specs.Game.{part_code};

    ghost states = { λ game. true };

    ghost runs = { λ game number round code. code ≡ part_code game number round };

    fn state<R: Wait>(&self, _rt: &R, _number: usize) -> io::Result<()> {
        Ok(())
    }

    fn part<R: Wait, T: Records>(
        &self,
        _rt: &R,
        number: usize,
        round: usize,
        _state: &mut (),
        thread: &mut T,
    ) -> io::Result<()> {
        profile!(whole, thread, self.turn);
        profile!(_step, whole, self.step, pace(number, round));
        Ok(())
    }
}

/// Plays ten rounds.
fn play<R: AllocGlobal + Threads + Wait + Clock + Copy + Send + Sync>(
    rt: R,
    scopes: &Scopes,
    game: &Game,
) -> io::Result<Outcome>
    ensures { IfOk result (λ outcome. outcome.failed ≡ None
        → ShowsGame (length (details_in scopes.now)) game.now outcome) }
{
    let names = ["north", "east", "south", "west"];
    run_rounds(rt, &names, scopes, &Settings::default(), 10, game)
}

fn main(rt: HostRuntime) -> anyhow::Result<()> {
    let mut scopes = Scopes::new(rt.alloc())?;
    let game = Game {
        turn: place!(scopes, "turn")?,
        step: place!(scopes, "turn", "step")?,
    };
    let outcome = play(rt, &scopes, &game)?;
    for counts in &outcome.threads {
        println!(rt;
            "reported {} unreported {}",
            counts.reported, counts.unreported
        )?;
    }
    println!(rt;
        "frames {} scopes {}",
        outcome.frames, outcome.settled.handed
    )?;
    Ok(())
}
