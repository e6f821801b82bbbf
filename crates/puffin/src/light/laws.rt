//! Laws of the scopes of a thread. Each is the contract of a function that does nothing; a proof in another crate cites it by
//! calling the function. The laws of guards' states are here too.

ghost use Rattle.puffin.specs.Ended.{CountsEnds};

use crate::thread_profiler::{NsSource, Reporter};
pub use puffin_scopes::laws::guard_states;

/// Each scope that ends is counted once: it raises the number of scopes that were reported and of those that wait by one,
/// whether it is reported, its report is refused, or others are open. No other call of a thread changes that number.
pub fn ended_scopes_are_counted<C: NsSource, P: Reporter>()
    ensures { CountsEnds C.answers P.accepts P.refuses }
{}
