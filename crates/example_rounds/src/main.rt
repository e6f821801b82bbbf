//! Four threads work in rounds; a frame is taken after each round.
#![tactic(auto)]

use puffin::light::{Place, Records, Rounds, Scopes, Settings, run_rounds, save};
use puffin::{place, profile};
use std::io;
use std::sync::Wait;

#[derive(Drop)]
struct Game {
    update: Place,
    physics: Place,
}

impl Rounds for Game {
    type State = ();

    fn state<R: Wait>(&self, _rt: &R, _number: usize) -> io::Result<()> {
        Ok(())
    }

    fn part<R: Wait, T: Records>(
        &self,
        _rt: &R,
        _number: usize,
        _round: usize,
        _state: &mut (),
        thread: &mut T,
    ) -> io::Result<()> {
        profile!(whole, thread, self.update);
        profile!(_physics, whole, self.physics, "all bodies");
        Ok(())
    }
}

fn main(rt: HostRuntime) -> anyhow::Result<()> {
    let mut scopes = Scopes::new(rt.alloc())?;
    let game = Game {
        update: place!(scopes, "update")?,
        physics: place!(scopes, "update", "physics")?,
    };
    let names = ["north", "east", "south", "west"];
    let outcome = run_rounds(rt, &names, &scopes, &Settings::default(), 10, &game)?;
    let handed = outcome.settled.handed;
    println!(rt; "scopes handed out {handed}")?;
    Ok(save(&rt, "frames.puffin", &outcome.view.lock(&rt))?)
}
