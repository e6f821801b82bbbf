//! A library that profiles itself. A program registers the library's places beside its own, and passes the thread that records.
#![tactic(auto)]

use puffin::light::{Place, Records, Scopes};
use puffin::{Result, place, profile};

/// The places of this library's scopes, one line each.
#[derive(Drop)]
pub struct Places {
    step: Place,
    collide: Place,
}

impl Places {
    /// Registers the library's places. Call it once, before the program's threads start.
    ///
    /// Fails as [`Scopes::function`] does.
    pub fn register(scopes: &mut Scopes) -> Result<Places> {
        Ok(Places {
            step: place!(scopes, "step")?,
            collide: place!(scopes, "step", "collide")?,
        })
    }
}

/// Moves each of these heights down by one, and counts those that reach the ground, in scopes of the library's own.
pub fn step(thread: &mut impl Records, places: &Places, heights: &mut [u32]) -> usize {
    profile!(whole, thread, places.step);
    for height in heights.iter_mut() {
        *height = height.saturating_sub(1);
    }
    profile!(_collide, whole, places.collide);
    heights.iter().filter(|height| **height == 0).count()
}
