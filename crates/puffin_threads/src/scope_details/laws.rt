//! Laws of scope details and their collections. Each is the contract of a function that does nothing; a proof of another crate
//! cites it by calling the function.

ghost use Rattle.std.specs.Prelude.{ℕ, List, Some, None, ◌≡◌, [], ◌<◌, IsTrue, String, string_cmp};
ghost use Rattle.std.specs.declared.cmp.Ordering.TheVariants.{Less, Equal};
ghost use Rattle.std.specs.declared.alloc.Global.{Global};
ghost use Rattle.std.specs.declared.sync.Arc.{Arc};
ghost use Rattle.std.specs.Ordering.{nat_cmp, eq_by_cmp};
ghost use Rattle.std.specs.Cmp.{IsTotalOrder};
ghost use Rattle.std.specs.Map.{keys_of};
ghost use Rattle.std.specs.List.Sorted.{IsStrictlySortedBy};
ghost use Rattle.std.specs.FinMap as map;
ghost use Rattle.std.specs.Hash as fed;
ghost use Rattle.puffin_data.specs.declared.data.scope_id.ScopeId.{ScopeId};
ghost use Rattle.puffin_threads.specs.declared.scope_details.details.ScopeDetails.{ScopeDetails};
ghost use Rattle.puffin_threads.specs.declared.scope_details.scope_type.ScopeType.{ScopeType};
ghost use Rattle.puffin_threads.specs.Details.{Details, details_of, details_cmp, texts_cmp, same_details};
ghost use Rattle.puffin_threads.specs.Details.Kind.{type_cmp, type_place};
ghost use Rattle.puffin_threads.specs.Details.Collection.{Collection, with_details, with_all_details, no_details, first_with_id, last_id_of, KeepsOwnIds, by_ids, by_names, ids_seen, names_seen};

use crate::scope_details::{ScopeDetails, ScopeType};
use puffin_data::data::ScopeId;
use std::hash::Hash;

/// Details are compared by what contracts see of them. Equality, order and hash agree.
pub fn details_by_contents()
    ensures order { (a b : ScopeDetails) →
        ⟦<ScopeDetails as Ord>⟧.cmp a b ≡ details_cmp (details_of a) (details_of b) }
    ensures partial_order { (a b : ScopeDetails) →
        ⟦<ScopeDetails as PartialOrd>⟧.partial_cmp a b
        ≡ Some (details_cmp (details_of a) (details_of b)) }
    ensures equality { (a b : ScopeDetails) →
        ⟦<ScopeDetails as PartialEq>⟧.eq a b ≡ same_details (details_of a) (details_of b) }
    ensures hash { (a b : ScopeDetails) → details_of a ≡ details_of b →
        ⟦<ScopeDetails as Hash>⟧.hash_input a ≡ ⟦<ScopeDetails as Hash>⟧.hash_input b }
{}

/// Details are ordered by id, then by scope name, function, file and line; a missing id or scope name comes first. The order is
/// total, and only equal details compare as equal.
pub fn order_of_details()
    ensures no_id_first { (a b : Details) → a.id ≡ None → (i : ℕ) → b.id ≡ Some i →
        details_cmp a b ≡ Less }
    ensures lesser_id_first { (a b : Details) (i j : ℕ) → a.id ≡ Some i → b.id ≡ Some j → i < j →
        details_cmp a b ≡ Less }
    ensures then_by_texts { (a b : Details) → a.id ≡ b.id → details_cmp a b ≡ texts_cmp a b }
    ensures total { IsTotalOrder details_cmp }
    ensures one { map.IsAntisymmetric details_cmp }
    ensures same { (a b : Details) → IsTrue (same_details a b) → a ≡ b }
{}

/// Functions come before named scopes in the order of scope types; ids are ordered by number. Equality, order and hash agree.
pub fn types_and_ids()
    ensures types { (a b : ScopeType) → ⟦<ScopeType as Ord>⟧.cmp a b ≡ type_cmp a b }
    ensures partial_types { (a b : ScopeType) →
        ⟦<ScopeType as PartialOrd>⟧.partial_cmp a b ≡ Some (type_cmp a b) }
    ensures same_types { (a b : ScopeType) →
        ⟦<ScopeType as PartialEq>⟧.eq a b ≡ eq_by_cmp type_cmp a b }
    ensures one_type { (a b : ScopeType) → type_cmp a b ≡ Equal → a ≡ b }
    ensures ids { (a b : ScopeId) → ⟦<ScopeId as Ord>⟧.cmp a b ≡ nat_cmp a b }
    ensures partial_ids { (a b : ScopeId) →
        ⟦<ScopeId as PartialOrd>⟧.partial_cmp a b ≡ Some (nat_cmp a b) }
    ensures same_ids { (a b : ScopeId) → ⟦<ScopeId as PartialEq>⟧.eq a b ≡ eq_by_cmp nat_cmp a b }
    // A type is hashed as its place in the order, and an id as its number.
    ensures type_hashes { (a : ScopeType) →
        ⟦<ScopeType as Hash>⟧.hash_input a ≡ fed.usize (type_place a) }
    ensures id_hashes { (a : ScopeId) → ⟦<ScopeId as Hash>⟧.hash_input a ≡ fed.u32 a }
{}

/// A collection made from a list of details maps each id to the first details with that id, and each name to the last id that
/// was inserted with that name. The details in it are under their own ids.
pub fn collected_details()
    ensures first { (details : List Details) (id : ℕ) →
        map.get (with_all_details no_details details).by_id id ≡ first_with_id id details }
    ensures last { (details : List Details) (name : List ℕ) →
        map.get (with_all_details no_details details).by_name name ≡ last_id_of name details }
    ensures own { (collection : Collection) (details : Details) →
        KeepsOwnIds collection → KeepsOwnIds (with_details collection details) }
    ensures own_none { KeepsOwnIds no_details }
    ensures none { (map.values no_details.by_id ≡ []) × (map.values no_details.by_name ≡ []) }
{}

/// If the entries of a collection's maps are sorted by key, the maps that contracts see have exactly these entries, in the form
/// that `ids_seen` and `names_seen` give.
pub fn entries_of_collections()
    ensures ids { (entries : List (ℕ × Arc ScopeDetails Global)) →
        IsStrictlySortedBy nat_cmp (keys_of entries) →
        map.entries (by_ids entries) ≡ ids_seen entries }
    ensures names { (entries : List (String Global × ℕ)) →
        IsStrictlySortedBy string_cmp (keys_of entries) →
        map.entries (by_names entries) ≡ names_seen entries }
{}
