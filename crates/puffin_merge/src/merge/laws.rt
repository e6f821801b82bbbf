//! Laws of merging. Each is the contract of a function that does nothing; a proof in another crate cites it by calling the
//! function.

ghost use Rattle.std.specs.Prelude.{◌≡◌, ◌↔◌, IsTrue, ℕ, pos, List, [], ◌∷◌, ◌++◌, IsPermutation};
ghost use Rattle.std.specs.declared.sync.Arc.{Arc};
ghost use Rattle.std.specs.declared.alloc.Global.{Global};
ghost use Rattle.puffin_data.specs.declared.error.Error.{Error};
ghost use Rattle.puffin_frames.specs.declared.frame_data.unpacked.UnpackedFrameData.{UnpackedFrameData};
ghost use Rattle.puffin_threads.specs.Thread.ThreadKey.{ThreadKey};
ghost use Rattle.puffin_merge.specs.Merge.Occurrences.{FrameScopes, occurrences};
ghost use Rattle.puffin_merge.specs.Merge.Tree.{MergedForest};
ghost use Rattle.puffin_merge.specs.Merge.Starts.{Sibling, IsLeastFeasible, earliest_starts};
ghost use Rattle.puffin_merge.specs.Merge.{IsMerge};
ghost use Rattle.puffin_merge.specs.Merge.FrameBytes.{FrameBytes};
ghost use Rattle.puffin_merge.specs.Merge.Refusals.{IsMergeRefusal, AreMerged};
ghost use Rattle.puffin_merge.specs.Merge.Scopes.{frames_bytes, forest_in};
ghost use Rattle.puffin_merge.specs.declared.merge.scope.MergeScope.{MergeScope};

use crate::merge::scope::MergeScope;

/// Starts of siblings are feasible if none is below the least start of the sibling's pieces, below 0, or below the end of the
/// sibling before it. If each sibling in turn starts as early as this allows, their starts are the least feasible ones.
pub fn earliest_starts()
    ensures { (siblings : List Sibling) →
        IsLeastFeasible siblings (earliest_starts (pos 0) siblings) }
{}

/// If some frames can be merged, their merge is the same in any order that keeps the first frame first. Merging them in such an
/// order returns that merge or fails with `Memory`.
pub fn frames_in_any_order()
    ensures frames { (info : ThreadKey) (first : Arc UnpackedFrameData Global)
        (others again : List (Arc UnpackedFrameData Global)) → IsPermutation others again →
        (forest : MergedForest) → AreMerged (frames_bytes info (first ∷ others)) forest
        → AreMerged (frames_bytes info (first ∷ again)) forest }
    ensures scopes { (first : FrameScopes) (others again : List FrameScopes) →
        IsPermutation others again → (frames : ℕ) (forest : MergedForest) →
        IsMerge (occurrences (first ∷ others)) frames forest →
        IsMerge (occurrences (first ∷ again)) frames forest }
{}

/// Frames have at most one merge, and frames that have one have no refusal.
pub fn one_outcome()
    ensures merged { (frames : List FrameBytes) (forest other : MergedForest) →
        AreMerged frames forest → AreMerged frames other → forest ≡ other }
    ensures refused { (frames : List FrameBytes) (forest : MergedForest) (refusal : Error) →
        AreMerged frames forest → IsMergeRefusal frames refusal → ⊥ }
{
    // This law follows from these laws of spellings and walks.
    puffin_data::laws::one_forest();
    puffin_data::laws::no_fault_in_a_spelling();
    puffin_data::laws::scopes_of_a_walk();
}

/// If a merged scope in a list is replaced by one that contracts see as the same, contracts see the list as the same too.
pub fn same_scopes()
    ensures { (before after : List MergeScope) (scope other : MergeScope) →
        forest_in (scope ∷ []) ≡ forest_in (other ∷ []) →
        forest_in (before ++ (scope ∷ after)) ≡ forest_in (before ++ (other ∷ after)) }
{}

/// Merged scopes are equal exactly when contracts see them as the same, with all their children. Whether their texts are
/// borrowed or owned makes no difference.
pub fn equal_scopes<'s>()
    ensures { (scope other : MergeScope) →
        IsTrue (⟦<MergeScope<'s> as PartialEq>⟧.eq scope other)
        ↔ (forest_in (scope ∷ []) ≡ forest_in (other ∷ [])) }
{}
