//! Places in the code, each with the id of its scope.

use crate::utils::{clean_function_name, short_file_name};
use puffin_data::Result;
use puffin_data::data::ScopeId;
use puffin_threads::scope_details::ScopeIds;
use puffin_threads::thread_profiler::{NsSource, ThreadProfiler};
use std::alloc::Global;
use std::borrow::CowStr;
use std::sync::atomic::{AtomicIn, Ordering, Rule};

/// The rule of an atomic word that is 0 or an id, which is below 2^32.
struct IdOrZero;

impl Rule for IdOrZero {
    ghost use Rattle.std.specs.Prelude.{◌<◌, ◌^◌};

    ghost invariant = { λ word. word < 2 ^ 32 };
}

/// A place in the code that makes a scope. It keeps the id drawn at its first use, so later uses don't register its scope
/// again. Any number of threads may share it.
///
/// A program keeps its sites in a struct, one field for each, beside its `Switch` and its `ScopeIds`.
///
/// ```
/// let site = Site::new("src/draw.rs", 7);
/// let id = site.function_id(&mut thread, &ids, "draw")?;
/// ```
#[derive(Drop)]
pub struct Site {
    file: &'static str,
    line: u32,
    // 0 until the first use.
    id: AtomicIn<IdOrZero>,
}

impl Site {
    ghost use Rattle.std.specs.Prelude.{◌≡◌, ℕ, OnOk, OnErr, IfOk, IfErr, IsOkUnless};
    ghost use Rattle.std.specs.Cow.{cow_str_bytes};
    ghost use Rattle.puffin_data.specs.declared.error.Error.{Error};
    ghost use Rattle.puffin_threads.specs.Thread.ThreadProfiler.{thread_of, clock_of};
    ghost use Rattle.puffin_scopes.specs.Names.Files.{short_file};
    ghost use Rattle.puffin_scopes.specs.Names.Functions.{clean};
    ghost use Rattle.puffin_threads.specs.Details.{IsAddingCause};
    ghost use Rattle.puffin_scopes.specs.Sites.{IsKnownOrNew, function_details, named_details, site_place};

    /// Makes a place that has no id yet. `file` is the path of a source file or of a module. Pass 0 if the line is unknown.
    pub fn new(file: &'static str, line: u32) -> Site
        ensures { site_place result ≡ (file.now, line) }
    {
        Site {
            file,
            line,
            id: AtomicIn::new(0),
        }
    }

    /// Returns the id of the place, or `None` if none was drawn yet. Takes one atomic load.
    #[inline]
    pub fn id(&self) -> Option<ScopeId> {
        let word = self.id.load(Ordering::SeqCst);
        ScopeId::new(word as u32)
    }

    /// Returns the id of this place, whose scope is a whole function. The first call draws the id and registers the function
    /// with the thread, under the short names of function and file. If two threads make the first call at the same time, both
    /// register an id, and both calls return the one that was kept first; the other id stays unused.
    ///
    /// Fails with `IdsExhausted` or `Memory`; then nothing is registered, but an id may be used up.
    #[inline]
    pub fn function_id<C: NsSource>(
        &self,
        profiler: &mut ThreadProfiler<C>,
        ids: &ScopeIds,
        function: &str,
    ) -> Result<ScopeId>
        ensures registered { OnOk result (IsKnownOrNew (function_details self.now function.now)
            (thread_of profiler.old) (thread_of profiler.new)) }
        ensures clock { clock_of profiler.new ≡ clock_of profiler.old }
        ensures unchanged { OnErr result (profiler.new ≡ profiler.old) }
        ensures cause { IfErr result IsAddingCause }
    {
        if let Some(id) = self.id() {
            return Ok(id);
        }
        let (function, file) = self.short_names(profiler.allocator(), function)?;
        let id = profiler.register_function_scope(ids, function, file, self.line)?;
        Ok(self.keep(id))
    }

    /// Returns the id of this place, whose scope is a part of a function and has a name of its own. The first call registers
    /// that name too. Otherwise the same as [`Site::function_id`].
    #[inline]
    pub fn named_id<C: NsSource>(
        &self,
        profiler: &mut ThreadProfiler<C>,
        ids: &ScopeIds,
        function: &str,
        name: CowStr<'static>,
    ) -> Result<ScopeId>
        ensures registered { OnOk result (IsKnownOrNew
            (named_details self.now function.now (cow_str_bytes name.entry))
            (thread_of profiler.old) (thread_of profiler.new)) }
        ensures clock { clock_of profiler.new ≡ clock_of profiler.old }
        ensures unchanged { OnErr result (profiler.new ≡ profiler.old) }
        ensures cause { IfErr result IsAddingCause }
    {
        if let Some(id) = self.id() {
            return Ok(id);
        }
        let (function, file) = self.short_names(profiler.allocator(), function)?;
        let id = profiler.register_named_scope(ids, name, function, file, self.line)?;
        Ok(self.keep(id))
    }

    /// Returns the short name of a function, and that of the place's file. Fails only with `Memory`.
    #[cold]
    fn short_names(
        &self,
        alloc: Global,
        function: &str,
    ) -> Result<(CowStr<'static>, CowStr<'static>)>
        ensures names { IfOk result (λ names.
            (cow_str_bytes names.0 ≡ clean function.now)
            × (cow_str_bytes names.1 ≡ short_file self.now.file.now)) }
        ensures memory { IsOkUnless result Error.Memory }
    {
        let function = clean_function_name(alloc, function)?;
        let file = short_file_name(alloc, self.file)?;
        Ok((CowStr::Owned(function), CowStr::Owned(file)))
    }

    /// Keeps the id, unless another thread kept one first, and returns the one that is kept.
    #[cold]
    fn keep(&self, id: ScopeId) -> ScopeId {
        let word = u64::from(id.get());
        match self
            .id
            .compare_exchange(0, word, Ordering::SeqCst, Ordering::SeqCst)
        {
            Ok(_) => id,
            Err(kept) => ScopeId::new(kept as u32).unwrap(),
        }
    }
}
