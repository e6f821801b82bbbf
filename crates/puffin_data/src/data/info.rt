ghost use Rattle.std.specs.Prelude.{◌≡◌, ◌+◌, ◌≤◌, ◌<◌, ◌^◌, ◌↔◌, ◌⊎◌, length, IfOk, IfErr, IsOk, OnOk, OnErr, MatchResult, IsOkUnless, IsTrue};
ghost use Rattle.std.specs.Int.{int_min, int_max};
ghost use Rattle.puffin_data.specs.Forest.{Forest, empty, append};
ghost use Rattle.puffin_data.specs.Forest.Spelling.{Spells};
ghost use Rattle.puffin_data.specs.Walk.{IsFault};
ghost use Rattle.puffin_data.specs.Honesty.{IsHonest, IsHonestRef, facts_of, facts_of_ref, joined_facts, joined_form, AreUnlike};

use crate::data::form::Form;
use crate::data::reader::Reader;
use crate::data::stream::Stream;
use crate::data::walk::Walk;
use crate::error::{Error, NanoSecond, Result};
use std::alloc::Global;

/// A stream with the counts of its scopes. An info is honest for a forest if its bytes spell that forest and its other fields
/// are the forest's measures. [`StreamInfo::parse`] returns honest infos; one made by hand may hold any numbers.
///
/// ```
/// let mut info = StreamInfo::parse(alloc, Stream::from_bytes(bytes, Form::Short))?;
/// info.extend(&other.as_stream_into_ref())?;
/// ```
#[derive(Drop)]
pub struct StreamInfo {
    /// The scopes as bytes.
    pub stream: Stream,
    /// The number of scopes.
    pub num_scopes: usize,
    /// The greatest nesting depth; a top-level scope has depth 1.
    pub depth: usize,
    /// The least start and the greatest stop of all scopes, in nanoseconds, or `(i64::MAX, i64::MIN)` if there are none.
    pub range_ns: (NanoSecond, NanoSecond),
}

/// A [`StreamInfo`] that borrows its bytes.
#[derive(Clone, Copy)]
pub struct StreamInfoRef<'a> {
    /// How the lengths of the texts are encoded.
    pub form: Form,
    /// The scopes as bytes.
    pub stream: &'a [u8],
    /// The number of scopes.
    pub num_scopes: usize,
    /// The greatest nesting depth; a top-level scope has depth 1.
    pub depth: usize,
    /// The least start and the greatest stop of all scopes, in nanoseconds, or `(i64::MAX, i64::MIN)` if there are none.
    pub range_ns: (NanoSecond, NanoSecond),
}

/// Joins two ranges: returns the lesser start and the greater stop.
pub fn joined_range(
    a: (NanoSecond, NanoSecond),
    b: (NanoSecond, NanoSecond),
) -> (NanoSecond, NanoSecond)
    ensures start { result.0 ≡ int_min a.0 b.0 }
    ensures stop { result.1 ≡ int_max a.1 b.1 }
{
    (a.0.min(b.0), a.1.max(b.1))
}

impl StreamInfo {
    /// Makes an info without scopes, in [`Form::Short`].
    pub fn new(alloc: Global) -> StreamInfo
        ensures honest { IsHonest result empty }
        ensures form { result.stream.form ≡ Form.Short }
    {
        StreamInfo::with_form(alloc, Form::Short)
    }

    /// Makes an info without scopes, in this form.
    pub fn with_form(alloc: Global, form: Form) -> StreamInfo
        ensures honest { IsHonest result empty }
        ensures form { result.stream.form ≡ form }
    {
        let walk = Walk::empty();
        StreamInfo {
            stream: Stream::with_form(alloc, form),
            num_scopes: walk.num_scopes,
            depth: walk.depth,
            range_ns: walk.range_ns,
        }
    }

    /// Walks a stream and counts its scopes. All of its bytes have to be a forest of scopes in the stream's form. Fails as
    /// [`Reader::walk`](crate::data::Reader::walk) does, and then drops the stream.
    pub fn parse(alloc: Global, stream: Stream) -> Result<StreamInfo>
        ensures same { IfOk result (λ info. info.stream ≡ stream) }
        ensures honest { IfOk result (λ info. (forest : Forest) × IsHonest info forest) }
        // Every forest is counted, unless memory runs out.
        ensures only { (forest : Forest) → Spells stream.form stream.bytes forest →
            MatchResult result (λ info. IsHonest info forest) (λ cause. cause ≡ Error.Memory) }
        ensures fault { IfErr result (λ cause.
            (cause ≡ Error.Memory) ⊎ IsFault stream.form stream.bytes cause) }
    {
        let mut tries = 0;
        let walk = Reader::walk(alloc, &stream, &mut tries)?;
        Ok(StreamInfo {
            stream,
            num_scopes: walk.num_scopes,
            depth: walk.depth,
            range_ns: walk.range_ns,
        })
    }

    /// Removes all scopes. The stream keeps its memory and its form.
    pub fn clear(&mut self)
        ensures honest { IsHonest self.new empty }
        ensures form { self.new.stream.form ≡ self.old.stream.form }
        ensures room { self.new.stream.room ≡ self.old.stream.room + length self.old.stream.bytes }
    {
        let walk = Walk::empty();
        self.stream.clear();
        self.num_scopes = walk.num_scopes;
        self.depth = walk.depth;
        self.range_ns = walk.range_ns;
    }

    /// Returns whether both infos have bytes and their forms differ. Such infos can't be joined.
    pub fn is_unlike(&self, other: &StreamInfoRef) -> bool
        ensures { IsTrue result ↔ AreUnlike (facts_of self.now) (facts_of_ref other.now) }
    {
        !self.stream.is_empty() && !other.stream.is_empty() && self.stream.form() != other.form
    }

    /// Returns the form that both have when joined: the other's if this info has no bytes, else its own.
    fn form_with(&self, other: &StreamInfoRef) -> Form
        ensures { result ≡ joined_form (facts_of self.now) (facts_of_ref other.now) }
    {
        if self.stream.is_empty() {
            other.form
        } else {
            self.stream.form()
        }
    }

    /// Appends the scopes of another info. If this info has no bytes, it takes the other's form.
    ///
    /// Fails with `UnlikeForms` if both have bytes and their forms differ, or else with `TooLarge` if the sum of their
    /// `num_scopes` doesn't fit `usize`. Otherwise fails only with `Memory`, and only if the other's bytes don't fit the
    /// stream's room. If they fit, the call uses no more room than they take. If the call fails, at most the room changes.
    #[inline(always)]
    pub fn extend(&mut self, other: &StreamInfoRef) -> Result<()>
        ensures ok { OnOk result (
            facts_of self.new ≡ joined_facts (facts_of self.old) (facts_of_ref other.now)) }
        // An honest info extended by an honest info is honest.
        ensures honest { OnOk result (
            (first second : Forest) → IsHonest self.old first → IsHonestRef other.now second →
            IsHonest self.new (append first second)) }

        // When it is refused, and that a refusal changes nothing but the room.
        ensures unlike { (result ≡ Err Error.UnlikeForms)
            ↔ AreUnlike (facts_of self.old) (facts_of_ref other.now) }
        ensures too_large { (result ≡ Err Error.TooLarge)
            ↔ ((¬ AreUnlike (facts_of self.old) (facts_of_ref other.now))
            × (2 ^ 64 ≤ self.old.num_scopes + other.now.num_scopes)) }
        ensures err { OnErr result (facts_of self.new ≡ facts_of self.old) }
        ensures cause { IfErr result (λ cause.
            (cause ≡ Error.UnlikeForms) ⊎ (cause ≡ Error.TooLarge) ⊎ (cause ≡ Error.Memory)) }

        // Bytes that fit the room are appended without an allocation.
        ensures succeeds { ¬ AreUnlike (facts_of self.old) (facts_of_ref other.now) →
            self.old.num_scopes + other.now.num_scopes < 2 ^ 64 →
            length other.now.stream.now ≤ self.old.stream.room → IsOk result }
        ensures room { self.old.stream.room ≤ self.new.stream.room + length other.now.stream.now }
    {
        if self.is_unlike(other) {
            return Err(Error::UnlikeForms);
        }
        // What can be refused comes first, so that a refusal leaves the fields as they are.
        let form = self.form_with(other);
        let Some(num_scopes) = self.num_scopes.checked_add(other.num_scopes) else {
            return Err(Error::TooLarge);
        };
        self.stream.append(other.stream)?;
        self.stream.set_form(form);
        self.num_scopes = num_scopes;
        self.depth = self.depth.max(other.depth);
        self.range_ns = joined_range(self.range_ns, other.range_ns);
        Ok(())
    }

    /// Copies the info. Fails only with `Memory`.
    pub fn clone(&self) -> Result<StreamInfo>
        ensures ok { IfOk result (λ info. facts_of info ≡ facts_of self.now) }
        ensures err { IsOkUnless result Error.Memory }
    {
        Ok(StreamInfo {
            stream: self.stream.clone()?,
            num_scopes: self.num_scopes,
            depth: self.depth,
            range_ns: self.range_ns,
        })
    }

    /// Borrows the info.
    pub fn as_stream_into_ref(&self) -> StreamInfoRef<'_>
        ensures { facts_of_ref result ≡ facts_of self.now }
    {
        StreamInfoRef {
            form: self.stream.form(),
            stream: self.stream.bytes(),
            num_scopes: self.num_scopes,
            depth: self.depth,
            range_ns: self.range_ns,
        }
    }
}
