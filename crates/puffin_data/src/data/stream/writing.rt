//! Writing scopes, each in two steps: when it begins and when it ends.

ghost use Rattle.std.specs.Prelude.{◌≡◌, ◌+◌, ◌-◌, ◌≤◌, ◌++◌, length, drop, IfOk, OnOk, OnErr, IsOk, ◌^◌, ◌∷◌, IsOkUnless};
ghost use Rattle.byteorder.specs.Endian.{little_number};
ghost use Rattle.puffin_data.specs.Forest.Spelling.{begin_bytes, head_size};
ghost use Rattle.puffin_data.specs.Forest.Open.{ended_bytes};
ghost use Rattle.puffin_data.specs.Stream.{BeginsScope};
ghost use Rattle.puffin_data.specs.Text.{cut_text};
ghost use Rattle.puffin_data.specs.Text.Lengths.{text_limit, length_layout};
ghost use Rattle.puffin_data.specs.inner.Groups.{second_byte};
ghost use Rattle.puffin_data.specs.inner.Beginnings.{Begins};

use crate::data::form::{ONE_GROUP, length_groups};
use crate::data::scope::{END_SIZE, FRONT_SIZE, size_at};
use crate::data::scope_id::ScopeId;
use crate::data::spelling::{back, copy_text, front, size_word};
use crate::data::stream::Stream;
use crate::error::{Error, NanoSecond, Result};

impl Stream {
    /// Appends the beginning of a scope, with a placeholder for the size of its children. Returns the offset of that
    /// placeholder, which [`Stream::end_scope`] takes, and the start. The text is cut to what the form stores (127 or 16,383
    /// bytes), at a character boundary.
    ///
    /// Reads the start from the clock `now_ns` once, after making room. Fails only with `Memory`; then nothing is appended and
    /// the clock isn't read. Never fails if the beginning fits the room.
    #[inline(always)]
    pub fn begin_scope<F: Fn() -> NanoSecond + Drop>(
        &mut self,
        now_ns: F,
        id: ScopeId,
        text: &str,
    ) -> Result<(usize, NanoSecond)>
        requires { F.IsAlwaysCallable now_ns }
        ensures begun { BeginsScope self.old self.new id text.now result }
        ensures clock { IfOk result (λ begun. F.post now_ns begun.1) }
    {
        let mut now_ns = now_ns;
        self.begin_scope_by(&mut now_ns, id, text)
    }

    /// Appends the beginning of a scope as [`Stream::begin_scope`] does, with a clock that may change when it is read. If the
    /// call fails, the clock doesn't change.
    #[inline(always)]
    pub fn begin_scope_by<F: FnMut() -> NanoSecond>(
        &mut self,
        now_ns: &mut F,
        id: ScopeId,
        text: &str,
    ) -> Result<(usize, NanoSecond)>
        requires { F.IsAlwaysCallable now_ns.old }
        ensures begun { BeginsScope self.old self.new id text.now result }
        ensures clock { IfOk result (λ begun. F.step now_ns.old begun.1 now_ns.new) }
        ensures unasked { OnErr result (now_ns.new ≡ now_ns.old) }
    {
        let size = self.form().begin_size(text);
        self.reserve(size)?;
        let start = now_ns();
        Ok((self.begin_within(start, id, text, u64::MAX), start))
    }

    /// Appends the beginning of a scope as [`Stream::begin_scope`] does, but with a given start. Returns the offset of the
    /// placeholder for the size of the scope's children.
    #[inline(always)]
    pub fn begin_scope_at(&mut self, start: NanoSecond, id: ScopeId, text: &str) -> Result<usize>
        // What is appended and returned, and what a refusal leaves.
        ensures begun { OnOk result (
            self.new.bytes
            ≡ self.old.bytes
            ++ begin_bytes self.old.form id start (cut_text self.old.form text.now)
            (2 ^ 64 - 1)) }
        ensures offset { IfOk result (λ offset. offset + 8 ≡ length self.new.bytes) }
        ensures err { OnErr result (self.new.bytes ≡ self.old.bytes) }
        ensures form { self.new.form ≡ self.old.form }

        // When it is refused, and how much room it uses.
        ensures memory { IsOkUnless result Error.Memory }
        ensures succeeds { head_size self.old.form (cut_text self.old.form text.now)
            ≤ self.old.room → IsOk result }
        ensures room { self.old.room
            ≤ self.new.room + head_size self.old.form (cut_text self.old.form text.now) }
    {
        self.reserve(self.form().begin_size(text))?;
        Ok(self.begin_within(start, id, text, u64::MAX))
    }

    /// Appends the beginning of a scope as [`Stream::begin_scope_at`] does, with this number as the placeholder. The beginning
    /// must fit the room, so the call neither allocates nor fails.
    #[inline(always)]
    pub fn begin_within(&mut self, start: NanoSecond, id: ScopeId, text: &str, size: u64) -> usize
        requires { head_size self.old.form (cut_text self.old.form text.now) ≤ self.old.room }
        ensures begun { self.new.bytes
            ≡ self.old.bytes
            ++ begin_bytes self.old.form id start (cut_text self.old.form text.now) size }
        ensures offset { result + 8 ≡ length self.new.bytes }
        ensures form { self.new.form ≡ self.old.form }
        ensures room { self.old.room
            ≤ self.new.room + head_size self.old.form (cut_text self.old.form text.now) }
    {
        // Both forms encode a text of this length alike.
        if text.len() <= ONE_GROUP {
            return self.write_begin(start, id, text, size, text.len() as u8, None);
        }
        self.begin_longer_within(start, id, text, size)
    }

    /// Like [`Stream::begin_within`], for a text that may have to be cut and whose length may take two bytes. It is out of line,
    /// so that a scope with a short text needs few registers.
    #[inline(never)]
    fn begin_longer_within(
        &mut self,
        start: NanoSecond,
        id: ScopeId,
        text: &str,
        size: u64,
    ) -> usize
        requires { head_size self.old.form (cut_text self.old.form text.now) ≤ self.old.room }
        ensures { Begins self.old self.new id start (cut_text self.old.form text.now) size result }
    {
        let kept = self.form().cut(text);
        let (group, second) = length_groups(self.form(), kept.len());
        self.write_begin(start, id, kept, size, group, second)
    }

    /// Appends the beginning of a scope, which must fit the room, with all of this text. `group` and `second` must encode the
    /// text's length. Returns the offset of the placeholder.
    #[inline(always)]
    fn write_begin(
        &mut self,
        start: NanoSecond,
        id: ScopeId,
        text: &str,
        size: u64,
        group: u8,
        second: Option<u8>,
    ) -> usize
        requires enough { head_size self.old.form text.now ≤ self.old.room }
        requires short { length text.now ≤ text_limit self.old.form }
        requires layout { length_layout self.old.form (length text.now)
            ≡ group ∷ second_byte second }
        ensures { Begins self.old self.new id start text.now size result }
    {
        let len = self.len;
        let text = text.as_bytes();
        let room = &mut self.block[len..];
        // The front takes 14 bytes: the last two of the 16 are overwritten by what follows.
        room[..16].copy_from_slice(&front(id.get(), start, group));
        let mut place = FRONT_SIZE + 1;
        if let Some(byte) = second {
            room[place] = byte;
            place += 1;
        }
        if !text.is_empty() {
            copy_text(&mut room[place..place + text.len()], text);
            place += text.len();
        }
        room[place..place + 8].copy_from_slice(&size_word(size));
        self.len = len + place + 8;
        len + place
    }

    /// Ends the scope whose size placeholder is at `offset`: overwrites the placeholder with the number of bytes after it, and
    /// appends the scope's end with this stop, in nanoseconds. There must be eight bytes at `offset`.
    ///
    /// Fails only with `Memory`, and then changes nothing. Never fails if the room is at least 9 bytes.
    #[inline]
    pub fn end_scope(&mut self, offset: usize, stop_ns: NanoSecond) -> Result<()>
        requires { offset + 8 ≤ length self.old.bytes }
        ensures ended { OnOk result (self.new.bytes ≡ ended_bytes self.old.bytes offset stop_ns) }
        ensures err { OnErr result (self.new.bytes ≡ self.old.bytes) }
        ensures form { self.new.form ≡ self.old.form }

        // When it is refused, and how much room it uses.
        ensures memory { IsOkUnless result Error.Memory }
        ensures succeeds { END_SIZE ≤ self.old.room → IsOk result }
        ensures room { self.old.room ≤ self.new.room + END_SIZE }
    {
        self.reserve(END_SIZE)?;
        self.end_within(offset, stop_ns);
        Ok(())
    }

    /// Ends a scope as [`Stream::end_scope`] does, and returns the placeholder. The end must fit the room, so the call neither
    /// allocates nor fails.
    #[inline(always)]
    pub fn end_within(&mut self, offset: usize, stop_ns: NanoSecond) -> u64
        requires inside { offset + 8 ≤ length self.old.bytes }
        requires room { END_SIZE ≤ self.old.room }
        ensures size { result ≡ little_number 8 (drop offset self.old.bytes) }
        ensures ended { self.new.bytes ≡ ended_bytes self.old.bytes offset stop_ns }
        ensures form { self.new.form ≡ self.old.form }
        ensures room { self.old.room ≤ self.new.room + END_SIZE }
    {
        let len = self.len;
        let block = &mut self.block[..];
        // The placeholder is read before it is overwritten.
        let size = size_at(block, offset);
        block[offset..offset + 8].copy_from_slice(&size_word((len - (offset + 8)) as u64));
        block[len..len + END_SIZE].copy_from_slice(&back(stop_ns));
        self.len = len + END_SIZE;
        size
    }
}
