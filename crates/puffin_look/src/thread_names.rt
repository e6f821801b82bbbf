//! Finds the threads of a file that a word names.

ghost use Rattle.std.specs.Prelude.{◌≡◌, ◌+◌, ◌++◌, take, codes, map, filter, OnOk, IfOk, IfErr, IsOkUnless, Err};
ghost use Rattle.std.specs.FinMap as tree;
ghost use Rattle.puffin_data.specs.declared.error.Error.{Error};
ghost use Rattle.puffin_data.specs.Device.{CanFail, IsOutside};
ghost use Rattle.puffin_threads.specs.Thread.ThreadKey.{by_key, key_of};
ghost use Rattle.puffin_look.specs.ThreadNames.{is_named, threads_named, AreNamed};

use crate::listing::list_frames;
use crate::threads::{fails_outside, push_thread};
use puffin_data::data::{Drain, Source};
use puffin_data::{FileError, Result as Answer};
use puffin_threads::thread_profiler::ThreadInfo;
use puffin_view::thread_totals::AllTotals;
use std::alloc::{AllocError, Global};
use std::io;

/// A writer to which nothing is written.
#[derive(Drop)]
pub(crate) struct Nowhere;

impl Drain for Nowhere {
    ghost use Rattle.std.specs.Prelude.{length};

    ghost failures = { λ _. 0 };

    ghost takes = { λ _ bytes count _. count ≡ length bytes };

    fn write(&mut self, buf: &[u8]) -> io::Result<usize> {
        Ok(buf.len())
    }

    fn faults(&self) -> u64 {
        0
    }
}

/// How a word names a thread.
#[derive(Clone, Copy, Debug, PartialEq, Eq)]
pub(crate) enum Naming {
    /// By the text that is listed.
    Text,
    /// By the name alone.
    Name,
    /// By a beginning of the name and a `*`.
    Beginning,
}

/// Appends so many bytes of a thread's name, or all if it has fewer, and a `*`.
fn push_beginning(text: &mut Vec<u8>, count: usize, thread: &ThreadInfo) -> Result<(), AllocError>
    ensures { OnOk result (
        text.new.items ≡ text.old.items ++ (take count (key_of thread.now).name ++ codes "*")) }
{
    let name = thread.name.as_bytes();
    text.extend_from_slice(&name[..count.min(name.len())])?;
    text.extend_from_slice(b"*")
}

/// Returns whether a word names a thread in this way.
fn is_named(
    alloc: Global,
    naming: Naming,
    word: &str,
    thread: &ThreadInfo,
) -> Result<bool, AllocError>
    ensures { IfOk result (λ is. is ≡ is_named naming word.now (key_of thread.now)) }
{
    match naming {
        Naming::Text => {
            let mut text = Vec::new(alloc);
            push_thread(&mut text, thread)?;
            Ok(text.as_slice() == word.as_bytes())
        }
        Naming::Name => Ok(thread.name.as_str() == word),
        Naming::Beginning => {
            let mut text = Vec::new(alloc);
            push_beginning(&mut text, word.len().saturating_sub(1), thread)?;
            Ok(text.as_slice() == word.as_bytes())
        }
    }
}

/// Returns the threads that a word names in this way. Fails only with `Memory`.
fn threads_with(
    alloc: Global,
    naming: Naming,
    word: &str,
    threads: &AllTotals,
) -> Answer<Vec<ThreadInfo>>
    ensures ok { IfOk result (λ found. map key_of found.items
        ≡ filter (is_named naming word.now) (
        map (λ e. e.0) (tree.entries (by_key threads.now.totals.entries)))) }
    ensures memory { IsOkUnless result Error.Memory }
{
    let mut found = Vec::new(alloc);
    'threads: for (thread, _totals) in threads.totals.iter() {
        if is_named(alloc, naming, word, thread)? {
            found.push(thread.clone()?)?;
        }
    }
    Ok(found)
}

/// Returns the threads that a word names in the first way in which it names one. Fails only with `Memory`.
fn threads_under(alloc: Global, word: &str, threads: &AllTotals) -> Answer<Vec<ThreadInfo>>
    ensures ok { IfOk result (λ found. map key_of found.items
        ≡ threads_named word.now (
        map (λ e. e.0) (tree.entries (by_key threads.now.totals.entries)))) }
    ensures memory { IsOkUnless result Error.Memory }
{
    let listed = threads_with(alloc, Naming::Text, word, threads)?;
    if !listed.is_empty() {
        return Ok(listed);
    }
    let named = threads_with(alloc, Naming::Name, word, threads)?;
    if !named.is_empty() {
        return Ok(named);
    }
    threads_with(alloc, Naming::Beginning, word, threads)
}

/// Returns the threads of a file that a word names: the one that [`print_threads`](crate::print_threads) lists by this text, or
/// if there is none, all with this name, or if there is none and the word ends in `*`, all whose names begin with what is before
/// that. They are in the order of the threads.
///
/// A file with a fault has the threads of the frames before it. Fails only with `Io`, if a read fails, or with `Memory`.
pub fn threads_named<S: Source>(
    alloc: Global,
    source: &mut S,
    word: &str,
) -> Result<Vec<ThreadInfo>, FileError>
    requires { CanFail S.failures source.old }
    ensures named { IfOk result (λ found.
        AreNamed word.now (S.remaining source.old) (S.remaining source.new)
        (map key_of found.items)) }
    ensures outside { IfErr result IsOutside }
    ensures io { (result ≡ Err FileError.Io) → S.failures source.new ≡ S.failures source.old + 1 }
{
    let mut threads = AllTotals::new(alloc);
    let answer = list_frames(alloc, source, &mut Nowhere, None, &mut threads);
    if fails_outside(&answer) {
        answer?;
    }
    Ok(threads_under(alloc, word, &threads)?)
}
