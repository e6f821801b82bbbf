//! Lists of merged scopes.

ghost use Rattle.std.specs.Prelude.{◌≤◌, ◌∷◌, [], length, OnOk, IfOk};
ghost use Rattle.puffin_merge.specs.Merge.Scopes.{forest_in};
ghost use Rattle.puffin_merge.specs.Merge.Tree.{MergedForest};
ghost use Rattle.puffin_c.specs.Merges.{nodes_from, AppendsNodes, IsListOf, GetsMerged};

use crate::lists::give;
use puffin_merge::merge::MergeScope;
use std::alloc::{AllocError, Global};

/// A scope merged from all scopes of a thread with the same path of ids and texts; these scopes are its pieces.
#[repr(C)]
#[derive(Clone, Copy)]
pub struct PuffinMerged {
    /// The start in nanoseconds, measured from the start of the merged scope around it.
    pub start_ns: i64,
    /// The total duration of all pieces, in nanoseconds.
    pub total_ns: i64,
    /// The total duration divided by the number of frames, rounded down.
    pub per_frame_ns: i64,
    /// The duration of the longest piece, in nanoseconds.
    pub max_ns: i64,
    /// The number of pieces.
    pub pieces: u64,
    /// The number of merged scopes that it is nested in.
    pub depth: u64,
    /// Where its text begins in the bytes of all texts.
    pub text_at: u64,
    /// The size of its text in bytes.
    pub text_size: u64,
    /// Identifies the pieces' details.
    pub id: u32,
}

/// Where a program gets merged scopes.
#[repr(C)]
pub struct PuffinMergedList<'a> {
    /// The merged scopes, as many as there is room for.
    pub rows: &'a mut [PuffinMerged],
    /// The bytes of their texts, as many as there is room for.
    pub bytes: &'a mut [u8],
    /// The number of merged scopes.
    pub num_rows: u64,
    /// The number of bytes of all texts.
    pub num_bytes: u64,
}

/// The merged scopes so far, each before its children, and their texts.
#[derive(Drop)]
pub(crate) struct MergedList {
    rows: Vec<PuffinMerged>,
    texts: Vec<u8>,
}

impl MergedList {
    /// Appends a merged scope at this depth, and then those in it.
    fn append(&mut self, depth: u64, scope: &MergeScope) -> Result<(), AllocError>
        requires { depth ≤ length self.old.rows.items }
        ensures { OnOk result (
            AppendsNodes self.old (nodes_from depth (forest_in (scope.now ∷ []))) self.new) }
    {
        let text = scope.text.as_str().as_bytes();
        let row = PuffinMerged {
            start_ns: scope.relative_start_ns,
            total_ns: scope.total_duration_ns,
            per_frame_ns: scope.duration_per_frame_ns,
            max_ns: scope.max_duration_ns,
            pieces: scope.num_pieces as u64,
            depth,
            text_at: self.texts.len() as u64,
            text_size: text.len() as u64,
            id: scope.id.get(),
        };
        self.texts.extend_from_slice(text)?;
        self.rows.push(row)?;
        for child in &scope.children {
            self.append(depth + 1, child)?;
        }
        Ok(())
    }

    /// Gives the list to a program.
    pub(crate) fn give(&self, list: &mut PuffinMergedList<'_>)
        ensures { (f : MergedForest) → IsListOf f self.now → GetsMerged f list.old list.new }
    {
        (list.num_rows, list.num_bytes) = give(&self.rows, &self.texts, list.rows, list.bytes);
    }
}

/// Lists merged scopes.
pub(crate) fn list_of(alloc: Global, scopes: &[MergeScope]) -> Result<MergedList, AllocError>
    ensures { IfOk result (IsListOf (forest_in scopes.now)) }
{
    let mut list = MergedList {
        rows: Vec::new(alloc),
        texts: Vec::new(alloc),
    };
    for scope in scopes {
        list.append(0, scope)?;
    }
    Ok(list)
}
