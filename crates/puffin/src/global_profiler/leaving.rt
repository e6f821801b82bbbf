//! Giving all shares back: their counts are merged, and each leaves the history with a last entry.
ghost use Rattle.std.specs.Prelude.{◌≡◌, ◌+◌, ◌<◌, ◌++◌, ◌∷◌, [], vec_len};
ghost use Rattle.std.specs.List.{count_by};
ghost use Rattle.history.specs.Entries.{entries_by, HasAuthors};
ghost use Rattle.puffin.specs.Happenings.{marked, left, is_left};
ghost use Rattle.puffin.specs.Members.{all_reported, all_handed};
ghost use Rattle.puffin.specs.Leaving.{accounts_of, last_entries, AreAuthors};

use crate::global_profiler::event::{Event, Returns};
use crate::global_profiler::share::Share;
use history::{History, Log};
use std::sync::ledger;
use std::sync::ledger::Ledger;

/// Merges one share into others. Its last entry tells that what happened through it is what the log has under its number.
fn leave<L: Ledger + History, M: Ledger>(
    log: &mut Log<Event, L>,
    reported: &mut ledger::Share<L>,
    handed: &mut ledger::Share<M>,
    share: Share<L, M>,
)
    ensures log { (log.new.authors ≡ log.old.authors)
        × (log.new.entries ≡ log.old.entries ++ (share.number, marked left) ∷ []) }
    ensures own { share.own ≡ entries_by share.number log.old.entries }
    ensures stays { count_by is_left share.own ≡ 0 }
    ensures authors { (share.number < log.old.authors)
        × HasAuthors log.old.authors log.old.entries }
    ensures reported { (reported.new.parts ≡ reported.old.parts + 1)
        × (reported.new.amount ≡ reported.old.amount + share.counts.reported) }
    ensures handed { (handed.new.parts ≡ handed.old.parts + 1)
        × (handed.new.amount ≡ handed.old.amount + share.counts.handed) }
{
    let Share {
        reported: more_reported,
        handed: more_handed,
        mut author,
    } = share;
    log.add::<(), Returns>(&mut author, &());
    reported.merge(more_reported);
    handed.merge(more_handed);
}

/// Returns shares of no parts, to merge others into.
fn no_parts<L: Ledger + History, M: Ledger>(
    share: &mut Share<L, M>,
) -> (ledger::Share<L>, ledger::Share<M>)
    ensures reported { (result.0.parts ≡ 0) × (result.0.amount ≡ 0) }
    ensures handed { (result.1.parts ≡ 0) × (result.1.amount ≡ 0) }
    ensures same { share.new ≡ share.old }
{
    (share.reported.empty(), share.handed.empty())
}

/// Merges all shares into one of each ledger, in order: these, and then the last. Each was an author of the log as it was before.
pub(crate) fn leave_all<L: Ledger + History, M: Ledger>(
    log: &mut Log<Event, L>,
    shares: Vec<Share<L, M>>,
    mut last: Share<L, M>,
) -> (ledger::Share<L>, ledger::Share<M>)
    ensures log { (log.new.authors ≡ log.old.authors)
        × (log.new.entries
        ≡ log.old.entries ++ last_entries (accounts_of (shares.items ++ last ∷ []))) }
    ensures authors { AreAuthors log.old.authors (accounts_of (shares.items ++ last ∷ []))
        log.old.entries }
    ensures has { HasAuthors log.old.authors log.old.entries }
    ensures reported { (result.0.parts ≡ vec_len shares + 1)
        × (result.0.amount ≡ all_reported (shares.items ++ last ∷ [])) }
    ensures handed { (result.1.parts ≡ vec_len shares + 1)
        × (result.1.amount ≡ all_handed (shares.items ++ last ∷ [])) }
{
    let (mut reported, mut handed) = no_parts(&mut last);
    for share in shares {
        leave(log, &mut reported, &mut handed, share);
    }
    leave(log, &mut reported, &mut handed, last);
    (reported, handed)
}
