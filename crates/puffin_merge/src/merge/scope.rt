//! Merged scopes.

ghost use Rattle.std.specs.Prelude.{◌≡◌, [], ◌∷◌, IfOk, IsOkUnless};
ghost use Rattle.puffin_merge.specs.Merge.Scopes.{forest_in};

use puffin_data::data::ScopeId;
use puffin_data::{Error, NanoSecond, Result};
use std::alloc::Global;
use std::borrow::CowStr;

/// A scope merged from all scopes with the same path of ids and texts; these scopes are its pieces.
#[derive(Debug, PartialEq, Drop)]
pub struct MergeScope<'s> {
    /// The start, in nanoseconds, measured from the parent's start. That of a top-level scope is measured as if every frame
    /// began when the first did.
    pub relative_start_ns: NanoSecond,
    /// The total duration of all pieces, in nanoseconds.
    pub total_duration_ns: NanoSecond,
    /// The total duration divided by the number of frames, rounded down.
    pub duration_per_frame_ns: NanoSecond,
    /// The duration of the longest piece, in nanoseconds.
    pub max_duration_ns: NanoSecond,
    /// The number of pieces.
    pub num_pieces: usize,
    /// Identifies the pieces' details.
    pub id: ScopeId,
    /// The pieces' text.
    pub text: CowStr<'s>,
    /// The merged scopes directly within the pieces.
    pub children: Vec<MergeScope<'s>>,
}

impl<'s> MergeScope<'s> {
    /// Copies all borrowed texts, including those of the children. Fails only with `Memory`.
    pub fn into_owned(self, alloc: Global) -> Result<MergeScope<'static>>
        ensures same { IfOk result (λ owned. forest_in (owned ∷ []) ≡ forest_in (self.entry ∷ [])) }
        ensures memory { IsOkUnless result Error.Memory }
    {
        let MergeScope {
            relative_start_ns,
            total_duration_ns,
            duration_per_frame_ns,
            max_duration_ns,
            num_pieces,
            id,
            text,
            children,
        } = self;
        let text = CowStr::Owned(text.into_owned(alloc)?);
        let mut owned = Vec::with_capacity(alloc, children.len())?;
        for child in children {
            owned.push(child.into_owned(alloc)?)?;
        }
        Ok(MergeScope {
            relative_start_ns,
            total_duration_ns,
            duration_per_frame_ns,
            max_duration_ns,
            num_pieces,
            id,
            text,
            children: owned,
        })
    }

    /// Copies the scope and its children; borrowed texts stay borrowed. Fails only with `Memory`.
    pub fn clone(&self) -> Result<MergeScope<'s>>
        ensures same { IfOk result (λ copy. forest_in (copy ∷ []) ≡ forest_in (self.now ∷ [])) }
        ensures memory { IsOkUnless result Error.Memory }
    {
        let mut children = Vec::with_capacity(*self.children.allocator(), self.children.len())?;
        for child in &self.children {
            children.push(child.clone()?)?;
        }
        Ok(MergeScope {
            relative_start_ns: self.relative_start_ns,
            total_duration_ns: self.total_duration_ns,
            duration_per_frame_ns: self.duration_per_frame_ns,
            max_duration_ns: self.max_duration_ns,
            num_pieces: self.num_pieces,
            id: self.id,
            text: self.text.clone()?,
            children,
        })
    }
}
