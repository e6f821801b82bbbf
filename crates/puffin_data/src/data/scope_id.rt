ghost use Rattle.std.specs.Prelude.{◌≡◌, ℕ, ◌<◌, ◌^◌, SomeIff};

use std::marker::Model;

/// Identifies a scope's details. Its number is from 1 to `2^32 - 1`.
#[derive(Clone, Copy, Debug, PartialEq, Eq, PartialOrd, Ord, Hash)]
pub struct ScopeId {
    number: u32,
}

impl Model for ScopeId {
    ghost Value = { ℕ };

    ghost view = { λ id. id.number };

    ghost invariant = { λ id. (0 < id.number) × (id.number < 2 ^ 32) };

    ghost inverse = { λ number. record { number = number } };
}

impl ScopeId {
    /// Makes an id from a number. Returns `None` for 0.
    pub fn new(number: u32) -> Option<ScopeId>
        ensures { SomeIff result (0 < number) number }
    {
        if number == 0 {
            None
        } else {
            Some(ScopeId { number })
        }
    }

    /// Returns the number.
    pub fn get(&self) -> u32
        ensures number { result ≡ self.now }
        ensures positive { 0 < result }
    {
        self.number
    }
}
