//! Short names of files.

ghost use Rattle.std.specs.Prelude.{◌≡◌, ◌<◌, map, length, IfSome, IfOk, string_bytes, IsOkUnless};
ghost use Rattle.std.specs.List.{join_with_byte};
ghost use Rattle.puffin_data.specs.declared.error.Error.{Error};
ghost use Rattle.puffin_scopes.specs.Names.Files.{short_file, parts_of, kept_parts, last_src};

use puffin_data::{Error, Result};
use std::alloc::Global;

/// Shortens a path to the folder of its crate and the file: `crates/name/src/module/file.rs` becomes `name/…/file.rs`.
/// Backslashes count as slashes. Fails only with `Memory`.
pub fn short_file_name(alloc: Global, path: &str) -> Result<String>
    ensures ok { IfOk result (λ name. string_bytes name ≡ short_file path.now) }
    ensures err { IsOkUnless result Error.Memory }
{
    if !path.contains('\\') {
        return shorten_path(alloc, path);
    }
    let path = path.replace(alloc, '\\', "/")?;
    shorten_path(alloc, &path)
}

/// Shortens a path without backslashes. Fails only with `Memory`.
fn shorten_path(alloc: Global, path: &str) -> Result<String>
    // The byte of a slash is 47.
    ensures ok { IfOk result (λ name. string_bytes name
        ≡ join_with_byte 47 (kept_parts (parts_of path.now))) }
    ensures err { IsOkUnless result Error.Memory }
{
    let parts = split_path(alloc, path)?;
    if parts.len() <= 2 {
        return Ok(String::from_str(alloc, path)?);
    }
    join_kept(alloc, &parts)
}

/// Splits a path at its slashes. Fails only with `Memory`.
fn split_path(alloc: Global, path: &str) -> Result<Vec<&str>>
    ensures ok { IfOk result (λ parts.
        map (λ part. part.now) parts.items ≡ parts_of path.now) }
    ensures err { IsOkUnless result Error.Memory }
{
    let mut parts = Vec::with_capacity(alloc, 16)?;
    for part in path.split('/') {
        parts.push(part)?;
    }
    Ok(parts)
}

/// Returns the index of the last part that is `src`, or `None` if there is no such part.
fn last_src(parts: &[&str]) -> Option<usize>
    ensures place { result ≡ last_src (map (λ part. part.now) parts.now) }
    ensures below { IfSome result (λ place. place < length parts.now) }
{
    let mut last = None;
    for i in 0..parts.len() {
        if parts[i] == "src" {
            last = Some(i);
        }
    }
    last
}

/// Joins the parts that are kept of a path with at least three parts: the folder of its crate, the file, and the part between them,
/// or `…` for several. Fails only with `Memory`.
fn join_kept(alloc: Global, parts: &[&str]) -> Result<String>
    requires { 2 < length parts.now }
    ensures ok { IfOk result (λ name. string_bytes name
        ≡ join_with_byte 47 (kept_parts (map (λ part. part.now) parts.now))) }
    ensures err { IsOkUnless result Error.Memory }
{
    let last = parts.len() - 1;
    let file = parts[last];
    let folder = parts[last - 1];
    let Some(src) = last_src(parts) else {
        return Ok(format!(in alloc; "{folder}/{file}")?);
    };
    // The folder of the crate holds `src`; a path that begins with `src` doesn't show it.
    let crate_index = src.saturating_sub(1);
    let name = parts[crate_index];
    if crate_index + 2 == last {
        Ok(format!(in alloc; "{name}/{folder}/{file}")?)
    } else if file == "lib.rs" {
        // Many files are called that, so the folder tells which one it is.
        Ok(format!(in alloc; "{name}/…/{folder}/{file}")?)
    } else {
        Ok(format!(in alloc; "{name}/…/{file}")?)
    }
}
