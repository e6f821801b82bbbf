//! Scopes that are begun and ended in a stream.

use crate::timing::Work;
use puffin_data::Result;
use puffin_data::data::{Form, Reader, ScopeId, Stream};
use std::alloc::Global;

/// How many nests of scopes a run makes.
pub const NESTS: usize = 512;
/// The nesting depth of a nest.
pub const DEPTH: usize = 8;
/// How many scopes a run makes.
pub const SCOPES: usize = NESTS * DEPTH;

/// A text of 12 bytes.
pub const TEXT: &str = "image-12.png";
/// A text of 200 bytes, which the short form cuts.
const LONG_TEXT: &str = "a text of two hundred bytes, as a path or a query may have it: \
    assets/textures/environment/forest/autumn/ground/leaves-and-needles-with-stones-12-diffuse.png?\
    size=4096&mips=all&format=bc7&repeat=xy&zz";

/// A kind of work with scopes in a stream.
pub struct ScopeWork {
    /// The name under which the time of writing is printed.
    pub name: &'static str,
    /// The name under which the time of counting is printed.
    pub counted: &'static str,
    /// Whether the scopes are nested, and not one after the other.
    pub nested: bool,
    /// The form of the stream.
    pub form: Form,
    /// The text of each scope.
    pub text: &'static str,
}

/// Every kind of work with scopes in a stream.
pub static SCOPE_WORK: [ScopeWork; 7] = [
    ScopeWork {
        name: "scope_empty",
        counted: "count_scope_empty",
        nested: true,
        form: Form::Short,
        text: "",
    },
    ScopeWork {
        name: "scope_text12",
        counted: "count_scope_text12",
        nested: true,
        form: Form::Short,
        text: TEXT,
    },
    ScopeWork {
        name: "flat_empty",
        counted: "count_flat_empty",
        nested: false,
        form: Form::Short,
        text: "",
    },
    ScopeWork {
        name: "flat_text12",
        counted: "count_flat_text12",
        nested: false,
        form: Form::Short,
        text: TEXT,
    },
    ScopeWork {
        name: "long_text12",
        counted: "count_long_text12",
        nested: true,
        form: Form::Long,
        text: TEXT,
    },
    ScopeWork {
        name: "long_text200",
        counted: "count_long_text200",
        nested: true,
        form: Form::Long,
        text: LONG_TEXT,
    },
    ScopeWork {
        name: "long_flat_text200",
        counted: "count_long_flat_text200",
        nested: false,
        form: Form::Long,
        text: LONG_TEXT,
    },
];

/// Ends the scope at this offset, if it lies within the stream.
#[inline]
pub fn end(stream: &mut Stream, offset: usize, stop: i64) -> Result<()> {
    if stream.len() < 8 || offset > stream.len() - 8 {
        return Ok(());
    }
    stream.end_scope(offset, stop)
}

/// Writes a nest of scopes. Returns the time after them.
#[inline(never)]
pub fn nest(stream: &mut Stream, id: ScopeId, text: &str, mut now: i64) -> Result<i64> {
    let mut offsets = [0; DEPTH];
    for offset in offsets.iter_mut() {
        now = now.wrapping_add(1);
        let at = now;
        (*offset, _) = stream.begin_scope(|| at, id, text)?;
    }
    for offset in offsets.iter().rev() {
        now = now.wrapping_add(1);
        end(stream, *offset, now)?;
    }
    Ok(now)
}

/// Writes scopes one after the other. Returns the time after them.
#[inline(never)]
fn row(stream: &mut Stream, id: ScopeId, text: &str, mut now: i64) -> Result<i64> {
    for _ in 0..DEPTH {
        now = now.wrapping_add(1);
        let at = now;
        let (offset, _) = stream.begin_scope(|| at, id, text)?;
        now = now.wrapping_add(1);
        end(stream, offset, now)?;
    }
    Ok(now)
}

/// Writes the scopes of one kind of work into a stream, and returns their number.
#[inline(never)]
fn written(stream: &mut Stream, work: &ScopeWork) -> Result<usize> {
    let mut now = 0;
    if let Some(id) = ScopeId::new(1) {
        for _ in 0..NESTS {
            now = if work.nested {
                nest(stream, id, work.text, now)?
            } else {
                row(stream, id, work.text, now)?
            };
        }
    }
    Ok(SCOPES)
}

/// Makes the stream of one kind of work.
pub fn stream_of(alloc: Global, work: &ScopeWork) -> Result<Stream> {
    let mut stream = Stream::with_form(alloc, work.form);
    let _scopes = written(&mut stream, work)?;
    Ok(stream)
}

/// Counts the scopes of a stream with a walk.
#[inline(never)]
fn counted(alloc: Global, stream: &Stream) -> Result<usize> {
    let (scopes, _depth) = Reader::count_scope_and_depth(alloc, stream)?;
    Ok(scopes)
}

/// Writes scopes into a stream whose memory is reused.
#[derive(Drop)]
pub struct Writing {
    pub stream: Stream,
    pub work: &'static ScopeWork,
}

impl Work for Writing {
    fn run(&mut self) -> anyhow::Result<usize> {
        self.stream.clear();
        Ok(written(&mut self.stream, self.work)?)
    }
}

/// Counts the scopes of a stream.
#[derive(Drop)]
pub struct Counting {
    pub alloc: Global,
    pub stream: Stream,
}

impl Work for Counting {
    fn run(&mut self) -> anyhow::Result<usize> {
        Ok(counted(self.alloc, &self.stream)?)
    }
}
