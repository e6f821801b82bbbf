//! Shares of a shared profiler: what each counts, and what it knows of the history.
ghost use Rattle.std.specs.Prelude.{◌≡◌, ◌<◌, [], vec_len, All, IfOk, IsOkUnless};
ghost use Rattle.puffin_data.specs.declared.error.Error.{Error};
ghost use Rattle.puffin.specs.Members.{IsNewMember};

use crate::global_profiler::event::Event;
use history::{Author, History, Log};
use puffin_data::Result;
use std::alloc::Global;
use std::marker::{Model, PhantomData};
use std::sync::ledger;
use std::sync::ledger::Ledger;

/// One share of a shared profiler. It counts the scopes reported through it, and those in the frames handed out to it. Contracts
/// also see what happened through it: each accepted report and each frame, in order; no byte of it exists when a program runs.
/// `L` and `M` are the profiler's two ledgers, and `L` is also its history, so the share can't be used with another profiler.
#[derive(Drop)]
pub struct Share<L: Ledger + History, M: Ledger> {
    pub(crate) reported: ledger::Share<L>,
    pub(crate) handed: ledger::Share<M>,
    pub(crate) author: Author<Event, L>,
}

impl<L: Ledger + History, M: Ledger> Model for Share<L, M> {
    ghost use Rattle.std.specs.Prelude.{◌≡◌};
    ghost use Rattle.std.specs.List.{count_by};
    ghost use Rattle.puffin.specs.Happenings.{is_left};
    ghost use Rattle.puffin.specs.Members.{Member, member_code};

    ghost Value = { Member };

    ghost coded = { member_code };

    ghost view = { λ s.
        record {
          counts = record { reported = s.reported.amount; handed = s.handed.amount };
          number = s.author.number;
          own = s.author.own;
          seen = s.author.seen;
        } };

    ghost invariant = { λ s.
        (s.reported.parts ≡ 1)
        × (s.handed.parts ≡ 1)
        × (count_by is_left s.author.own ≡ 0) };
}

impl<L: Ledger + History, M: Ledger> Share<L, M> {
    /// Splits two ledgers that count nothing into `n` shares, each with an author of a log without entries. Fails with `Memory`.
    pub(crate) fn split(
        alloc: Global,
        n: usize,
        mut reported: ledger::Share<L>,
        mut handed: ledger::Share<M>,
        log: &mut Log<Event, L>,
    ) -> Result<Vec<Share<L, M>>>
        requires reported { (reported.parts ≡ n) × (reported.amount ≡ 0) }
        requires handed { (handed.parts ≡ n) × (handed.amount ≡ 0) }
        requires log { (log.old.authors ≡ 0) × (log.old.entries ≡ []) }
        ensures shares { IfOk result (λ shares.
            (vec_len shares ≡ n) × All IsNewMember shares.items) }
        ensures log { IfOk result (λ shares.
            (log.new.authors ≡ n) × (log.new.entries ≡ [])) }
        ensures err { IsOkUnless result Error.Memory }
    {
        let mut shares = Vec::with_capacity(alloc, n)?;
        for _i in 0..n {
            shares.push_reserved(Share {
                reported: reported.split_off(1, 0),
                handed: handed.split_off(1, 0),
                author: log.author(),
            });
        }
        Ok(shares)
    }
}

/// The number of parts that both ledgers have.
#[derive(Drop)]
pub(crate) struct Parts<L: Ledger, M: Ledger> {
    n: u64,
    of: PhantomData<(L, M)>,
}

impl<L: Ledger, M: Ledger> Model for Parts<L, M> {
    ghost use Rattle.std.specs.Prelude.{◌≡◌, ◌<◌, ℕ};

    ghost Value = { ℕ };

    ghost view = { λ p. p.n };

    ghost invariant = { λ p. (0 < p.n) × (p.n ≡ L.parts) × (p.n ≡ M.parts) };
}

impl<L: Ledger, M: Ledger> Parts<L, M> {
    /// Keeps this number of parts, which must be that of both ledgers.
    pub(crate) fn new(n: u64) -> Parts<L, M>
        requires { (0 < n) × (n ≡ L.parts) × (n ≡ M.parts) }
        ensures { result ≡ n }
    {
        Parts { n, of: PhantomData }
    }

    /// Returns the number of parts.
    pub(crate) fn n(&self) -> u64
        ensures number { result ≡ self.now }
        ensures some { 0 < result }
        ensures reported { result ≡ L.parts }
        ensures handed { result ≡ M.parts }
    {
        self.n
    }
}
