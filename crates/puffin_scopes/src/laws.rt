//! Laws of guards. Each is the contract of a function that does nothing; a proof in another crate cites it by calling the
//! function.

ghost use Rattle.std.specs.Prelude.{◌≡◌, ◌==◌, ℕ, true, false};
ghost use Rattle.puffin_data.specs.declared.error.Error.{Error};
ghost use Rattle.puffin_scopes.specs.declared.guard_state.GuardState.{GuardState};
ghost use Rattle.puffin_scopes.specs.declared.guard_state.GuardState.TheVariants.{On, Off, Refused};

use crate::guard_state::GuardState;
use puffin_data::Error;

/// Two states are equal exactly if both scopes began at the same offset, both are off, or both were refused with the same
/// error.
pub fn guard_states()
    ensures begun { (offset other : ℕ) →
        ⟦<GuardState as PartialEq>⟧.eq (On offset) (On other) ≡ (offset == other) }
    ensures off { ⟦<GuardState as PartialEq>⟧.eq Off Off ≡ true }
    ensures refused { (cause other : Error) →
        ⟦<GuardState as PartialEq>⟧.eq (Refused cause) (Refused other)
        ≡ ⟦<Error as PartialEq>⟧.eq cause other }
    ensures unlike { (offset : ℕ) (cause : Error) →
        (⟦<GuardState as PartialEq>⟧.eq (On offset) Off ≡ false)
        × (⟦<GuardState as PartialEq>⟧.eq (On offset) (Refused cause) ≡ false)
        × (⟦<GuardState as PartialEq>⟧.eq Off (On offset) ≡ false)
        × (⟦<GuardState as PartialEq>⟧.eq Off (Refused cause) ≡ false)
        × (⟦<GuardState as PartialEq>⟧.eq (Refused cause) (On offset) ≡ false)
        × (⟦<GuardState as PartialEq>⟧.eq (Refused cause) Off ≡ false) }
{}
