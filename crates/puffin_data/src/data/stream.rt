ghost use Rattle.std.specs.Prelude.{◌≡◌, ◌==◌, ◌+◌, ◌-◌, ◌<◌, ◌≤◌, [], ◌++◌, length, take, IfOk, OnOk, OnErr, IsOk, IsOkUnless};
ghost use Rattle.puffin_data.specs.Stream.{StreamState};

mod writing;

use crate::data::form::Form;
use crate::error::{Error, Result};
use std::alloc::Global;
use std::marker::Model;

/// The scopes of one thread as bytes, in the format that `docs/FORMAT.md` describes. A stream may hold any bytes: only a walk
/// shows whether they are scopes.
///
/// Contracts see the form of its texts, its bytes, and its room: how many bytes can be appended without an allocation.
///
/// ```
/// let mut stream = Stream::new(alloc);
/// let offset = stream.begin_scope_at(100, id, "data")?;
/// stream.end_scope(offset, 300)?;
/// ```
#[derive(Drop)]
pub struct Stream {
    form: Form,
    // The bytes, followed by the room. The room is initialized, so that bytes are appended by overwriting it.
    block: Vec<u8>,
    len: usize,
    // How long the block may become by a call that makes it longer.
    max_bytes: usize,
}

impl Model for Stream {
    ghost Value = { StreamState };

    ghost view = { λ stream.
        record {
          form = stream.form;
          bytes = take stream.len stream.block.items;
          room = length stream.block.items - stream.len;
        } };

    ghost invariant = { λ stream. stream.len ≤ length stream.block.items };
}

impl Stream {
    /// Makes an empty stream in the short form.
    pub fn new(alloc: Global) -> Stream
        ensures bytes { result.bytes ≡ [] }
        ensures form { result.form ≡ Form.Short }
    {
        Stream::with_form(alloc, Form::Short)
    }

    /// Makes an empty stream in this form.
    pub fn with_form(alloc: Global, form: Form) -> Stream
        ensures bytes { result.bytes ≡ [] }
        ensures form { result.form ≡ form }
    {
        Stream {
            form,
            block: Vec::new(alloc),
            len: 0,
            max_bytes: usize::MAX,
        }
    }

    /// Makes a stream from these bytes, in this form. Takes over the vector without copying it, and doesn't check the bytes.
    pub fn from_bytes(bytes: Vec<u8>, form: Form) -> Stream
        ensures bytes { result.bytes ≡ bytes.items }
        ensures form { result.form ≡ form }
    {
        let len = bytes.len();
        Stream {
            form,
            block: bytes,
            len,
            max_bytes: usize::MAX,
        }
    }

    /// Returns how the lengths of the texts are encoded.
    #[inline]
    pub fn form(&self) -> Form
        ensures { result ≡ self.now.form }
    {
        self.form
    }

    /// Changes the form, but not the bytes.
    #[inline]
    pub(crate) fn set_form(&mut self, form: Form)
        ensures form { self.new.form ≡ form }
        ensures bytes { self.new.bytes ≡ self.old.bytes }
        ensures room { self.new.room ≡ self.old.room }
    {
        self.form = form;
    }

    /// Returns whether there are no bytes.
    pub fn is_empty(&self) -> bool
        ensures { result ≡ (length self.now.bytes == 0) }
    {
        self.len == 0
    }

    /// Returns the number of bytes.
    pub fn len(&self) -> usize
        ensures { result ≡ length self.now.bytes }
    {
        self.len
    }

    /// Returns the bytes.
    pub fn bytes(&self) -> &[u8]
        ensures { result.now ≡ self.now.bytes }
    {
        &self.block[..self.len]
    }

    /// Removes all bytes. Keeps the memory and the form.
    pub fn clear(&mut self)
        ensures bytes { self.new.bytes ≡ [] }
        ensures form { self.new.form ≡ self.old.form }
        ensures room { self.new.room ≡ self.old.room + length self.old.bytes }
    {
        self.len = 0;
    }

    /// Returns how many bytes can be appended without an allocation.
    #[inline]
    pub fn room(&self) -> usize
        ensures { result ≡ self.now.room }
    {
        self.block.len() - self.len
    }

    /// Sets how many bytes the stream may hold, with the room that its calls ask for. A call that needs more fails with `Memory`,
    /// as if the machine had no more. Bytes and room that are there already stay. At first there is no such limit.
    pub fn set_max_bytes(&mut self, bytes: usize)
        ensures { self.new ≡ self.old }
    {
        self.max_bytes = bytes;
    }

    /// Makes room for at least this many more bytes. Fails only with `Memory`, and never if there is enough room already. The
    /// bytes don't change, even if it fails.
    #[inline]
    pub fn reserve(&mut self, bytes: usize) -> Result<()>
        ensures ok { OnOk result (bytes ≤ self.new.room) }
        ensures bytes { self.new.bytes ≡ self.old.bytes }
        ensures form { self.new.form ≡ self.old.form }
        ensures room { self.old.room ≤ self.new.room }
        ensures memory { IsOkUnless result Error.Memory }
        ensures succeeds { bytes ≤ self.old.room → IsOk result }
    {
        let room = self.room();
        if bytes <= room {
            return Ok(());
        }
        self.grow(bytes - room)
    }

    /// Makes the room larger by at least this many bytes. Fails only with `Memory`. It is out of line, as it is rare that room is
    /// missing.
    #[cold]
    #[inline(never)]
    fn grow(&mut self, more: usize) -> Result<()>
        ensures ok { OnOk result (self.old.room + more ≤ self.new.room) }
        ensures bytes { self.new.bytes ≡ self.old.bytes }
        ensures form { self.new.form ≡ self.old.form }
        ensures room { self.old.room ≤ self.new.room }
        ensures memory { IsOkUnless result Error.Memory }
    {
        let Some(needed) = self.block.len().checked_add(more) else {
            return Err(Error::Memory);
        };
        if self.max_bytes < needed {
            return Err(Error::Memory);
        }
        self.block.reserve(more)?;
        // All of the memory that was given becomes room, up to the limit.
        let whole = self.block.capacity().min(self.max_bytes);
        self.block.resize(whole, 0)?;
        Ok(())
    }

    /// Copies the bytes and the form. Fails only with `Memory`.
    pub fn clone(&self) -> Result<Stream>
        ensures ok { IfOk result (λ stream. stream.bytes ≡ self.now.bytes) }
        ensures form { IfOk result (λ stream. stream.form ≡ self.now.form) }
        ensures err { IsOkUnless result Error.Memory }
    {
        let block = Vec::from_slice(*self.block.allocator(), self.bytes())?;
        let len = block.len();
        Ok(Stream {
            form: self.form,
            block,
            len,
            max_bytes: self.max_bytes,
        })
    }

    /// Appends bytes. Fails only with `Memory`, and then appends nothing. Never fails if the bytes fit the room.
    pub(crate) fn append(&mut self, bytes: &[u8]) -> Result<()>
        ensures ok { OnOk result (self.new.bytes ≡ self.old.bytes ++ bytes.now) }
        ensures err { OnErr result (self.new.bytes ≡ self.old.bytes) }
        ensures form { self.new.form ≡ self.old.form }
        ensures memory { IsOkUnless result Error.Memory }
        ensures succeeds { length bytes.now ≤ self.old.room → IsOk result }
        ensures room { self.old.room ≤ self.new.room + length bytes.now }
    {
        if bytes.len() <= self.room() {
            self.put(bytes);
            return Ok(());
        }
        self.lengthen(bytes)
    }

    /// Appends bytes that don't fit the room, and leaves no room after them. Fails only with `Memory`, and then appends nothing.
    #[inline]
    fn lengthen(&mut self, bytes: &[u8]) -> Result<()>
        requires { self.old.room < length bytes.now }
        ensures ok { OnOk result (self.new.bytes ≡ self.old.bytes ++ bytes.now) }
        ensures err { OnErr result (self.new.bytes ≡ self.old.bytes) }
        ensures form { self.new.form ≡ self.old.form }
        ensures memory { IsOkUnless result Error.Memory }
    {
        if self.max_bytes.saturating_sub(self.len) < bytes.len() {
            return Err(Error::Memory);
        }
        // The bytes take the place of the room.
        self.block.truncate(self.len);
        self.block.extend_from_slice(bytes)?;
        self.len = self.block.len();
        Ok(())
    }

    /// Appends bytes, which must fit the room.
    #[inline]
    pub(crate) fn put(&mut self, bytes: &[u8])
        requires { length bytes.now ≤ self.old.room }
        ensures bytes { self.new.bytes ≡ self.old.bytes ++ bytes.now }
        ensures form { self.new.form ≡ self.old.form }
        ensures room { self.old.room ≤ self.new.room + length bytes.now }
    {
        if bytes.is_empty() {
            return;
        }
        let end = self.len + bytes.len();
        self.block[self.len..end].copy_from_slice(bytes);
        self.len = end;
    }
}

impl From<Vec<u8>> for Stream {
    ghost use Rattle.puffin_data.specs.declared.data.form.Form.{Form};

    // Takes over the vector without copying it, in the short form.
    ghost from_gives = { λ bytes stream.
        (stream.bytes ≡ bytes.items) × (stream.form ≡ Form.Short) };

    fn from(bytes: Vec<u8>) -> Stream {
        Stream::from_bytes(bytes, Form::Short)
    }
}
