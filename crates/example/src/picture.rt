//! A picture in rows: the number of steps that each point of a plane takes until it is far from 0.

use anyhow::Result;
use puffin::light::{Place, Records, Scopes};
use puffin::{place, profile};
use std::sync::atomic::{AtomicU64, Ordering};

/// Shared by all threads: the steps so far, and the places of the scopes.
#[derive(Drop)]
pub struct Picture {
    pub steps: AtomicU64,
    draw: Place,
    row: Place,
}

impl Picture {
    /// Makes a picture that isn't begun yet, and registers its places.
    pub fn new(scopes: &mut Scopes) -> Result<Picture> {
        Ok(Picture {
            steps: AtomicU64::new(0),
            draw: place!(scopes, "draw")?,
            row: place!(scopes, "draw", "row")?,
        })
    }

    /// Draws the four rows of thread `number`, which are the same in each round.
    pub fn draw<T: Records>(&self, number: usize, thread: &mut T) {
        profile!(whole, thread, self.draw);
        let first = u32::try_from(number).unwrap_or(0).saturating_mul(4);
        for y in first..first.saturating_add(4) {
            profile!(_row, whole, self.row);
            let mut sum: u64 = 0;
            for x in -96..96 {
                sum = sum.wrapping_add(steps(i64::from(x) * 96, i64::from(y) * 96 - 768));
            }
            self.steps.fetch_add(sum, Ordering::Relaxed);
        }
    }
}

/// Returns how many steps a point takes, at most 500. The coordinates are in units of 1/4,096.
fn steps(x: i64, y: i64) -> u64 {
    let (mut a, mut b) = (0_i64, 0_i64);
    for step in 0..500 {
        let (aa, bb) = (a.wrapping_mul(a) / 4096, b.wrapping_mul(b) / 4096);
        if aa.wrapping_add(bb) > 4 * 4096 {
            return step;
        }
        b = (a.wrapping_mul(b) / 2048).wrapping_add(y);
        a = aa.wrapping_sub(bb).wrapping_add(x);
    }
    500
}
