//! Laws of the infos of threads. Each is the contract of a function that does nothing; a proof of another crate cites it by
//! calling the function.

ghost use Rattle.std.specs.Prelude.{ℤ, ◌≡◌, ◌<ℤ◌, IsTrue};
ghost use Rattle.std.specs.declared.cmp.Ordering.TheVariants.{Less};
ghost use Rattle.std.specs.Ordering.{nat_cmp};
ghost use Rattle.std.specs.Cmp.{IsTotalOrder};
ghost use Rattle.std.specs.Cmp.Lexicographic.{slice_cmp};
ghost use Rattle.std.specs.FinMap as map;
ghost use Rattle.puffin_threads.specs.declared.thread_profiler.thread_info.ThreadInfo.{ThreadInfo};
ghost use Rattle.puffin_threads.specs.Thread.ThreadKey.{ThreadKey, key_of, key_cmp, has_same_key};

use crate::thread_profiler::ThreadInfo;
use std::hash::Hash;

/// Thread infos are compared by their keys. Equality, order and hash agree.
pub fn threads_by_key()
    ensures order { (a b : ThreadInfo) →
        ⟦<ThreadInfo as Ord>⟧.cmp a b ≡ key_cmp (key_of a) (key_of b) }
    ensures partial_order { (a b : ThreadInfo) →
        ⟦<ThreadInfo as PartialOrd>⟧.partial_cmp a b ≡ Some (key_cmp (key_of a) (key_of b)) }
    ensures equality { (a b : ThreadInfo) →
        ⟦<ThreadInfo as PartialEq>⟧.eq a b ≡ has_same_key (key_of a) (key_of b) }
    ensures hash { (a b : ThreadInfo) → key_of a ≡ key_of b →
        ⟦<ThreadInfo as Hash>⟧.hash_input a ≡ ⟦<ThreadInfo as Hash>⟧.hash_input b }
{}

/// Thread keys are ordered by start, then by the bytes of the name; a missing start comes first. The order is total, and only
/// equal keys compare as equal.
pub fn order_of_keys()
    ensures none_first { (a b : ThreadKey) → a.start ≡ None → (t : ℤ) → b.start ≡ Some t →
        key_cmp a b ≡ Less }
    ensures earlier_first { (a b : ThreadKey) (t u : ℤ) → a.start ≡ Some t → b.start ≡ Some u →
        t <ℤ u →
        key_cmp a b ≡ Less }
    ensures then_by_name { (a b : ThreadKey) → a.start ≡ b.start →
        key_cmp a b ≡ slice_cmp nat_cmp a.name b.name }
    ensures total { IsTotalOrder key_cmp }
    ensures one { map.IsAntisymmetric key_cmp }
    ensures same { (a b : ThreadKey) → IsTrue (has_same_key a b) → a ≡ b }
{}
