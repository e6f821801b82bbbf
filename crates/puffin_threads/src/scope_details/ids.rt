ghost use Rattle.std.specs.Prelude.{IsOkUnless};
ghost use Rattle.puffin_data.specs.declared.error.Error.{Error};

use puffin_data::data::ScopeId;
use puffin_data::{Error, Result};
use std::sync::atomic::{AtomicU64, Ordering};

/// Draws scope ids from a counter, one after the other, for any number of threads.
///
/// Ids have 32 bits and the counter has 64: after the id `2^32 - 1` each draw fails until the counter has wrapped around to 1.
#[derive(Drop)]
pub struct ScopeIds {
    next: AtomicU64,
}

impl ScopeIds {
    /// Makes a counter whose first id is 1.
    pub fn new() -> ScopeIds {
        ScopeIds::starting_at(1)
    }

    /// Makes a counter whose first number is `first`.
    pub fn starting_at(first: u64) -> ScopeIds {
        ScopeIds {
            next: AtomicU64::new(first),
        }
    }

    /// Draws the next number as an id. Allocates nothing. Ids don't repeat until the counter wraps around; this is tested, not
    /// proved.
    ///
    /// Fails only with `IdsExhausted`, if the number is 0 or doesn't fit `u32`. The number is used up even then.
    ///
    /// ```
    /// let ids = ScopeIds::new();
    /// let id = ids.draw()?;
    /// ```
    pub fn draw(&self) -> Result<ScopeId>
        ensures { IsOkUnless result Error.IdsExhausted }
    {
        let number = self.next.fetch_add(1, Ordering::Relaxed);
        u32::try_from(number)
            .ok()
            .and_then(ScopeId::new)
            .ok_or(Error::IdsExhausted)
    }
}

impl Default for ScopeIds {
    /// Makes a counter whose first id is 1.
    fn default() -> ScopeIds {
        ScopeIds::new()
    }
}
