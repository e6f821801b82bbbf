//! The receivers of closed scopes.

ghost use Rattle.std.specs.Prelude.{OnOk, IfErr};
ghost use Rattle.puffin_data.specs.Honesty.{IsHonestReport, facts_of_ref};
ghost use Rattle.puffin_threads.specs.Details.{details_seen};
ghost use Rattle.puffin_threads.specs.Thread.ThreadKey.{key_of};

use crate::scope_details::ScopeDetails;
use crate::thread_profiler::thread_info::ThreadInfo;
use puffin_data::data::StreamInfoRef;
use puffin_data::{Error, Result};

/// Receives the scopes that threads have closed.
pub trait Reporter {
    ghost use Rattle.puffin_data.specs.declared.error.Error.{Error};
    ghost use Rattle.puffin_data.specs.Honesty.{StreamFacts};
    ghost use Rattle.puffin_threads.specs.Thread.ThreadKey.{ThreadKey};
    ghost use Rattle.puffin_threads.specs.Details.{Details};
    ghost use Rattle.std.specs.Prelude.{List};

    /// Whether a report under this info, of these details and scopes, may be accepted in the first state and end in the second.
    ghost accepts: { Self → ThreadKey → List Details → StreamFacts → Self → Type 0 };

    /// Whether such a report may be refused with this error.
    ghost refuses: { Self → ThreadKey → List Details → StreamFacts → Error → Self → Type 0 };

    /// Receives a thread's closed scopes, and the details registered since its last accepted report. `times` must be honest:
    /// its counts must be those of its bytes. After an error the thread keeps the scopes and details for its next report.
    fn report(
        &mut self,
        info: ThreadInfo,
        details: &[ScopeDetails],
        times: &StreamInfoRef,
    ) -> Result<()>
        requires { IsHonestReport times.now }
        ensures ok { OnOk result (
            accepts self.old (key_of info) (details_seen details.now) (facts_of_ref times.now)
            self.new) }
        ensures err { IfErr result (λ cause.
            refuses self.old (key_of info) (details_seen details.now) (facts_of_ref times.now)
            cause self.new) };
}

/// The outcome of ending a scope.
#[derive(Clone, Copy, Debug, PartialEq, Eq)]
pub enum Closed {
    /// Other scopes of the thread are still open.
    Inner,
    /// It was the last open scope, and the report of all closed scopes was accepted.
    Reported,
    /// It was the last open scope, and the report was refused with this error. The scopes wait for the next report.
    Kept(Error),
}
