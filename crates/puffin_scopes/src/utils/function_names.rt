//! Short names of functions.

ghost use Rattle.std.specs.Prelude.{◌≡◌, IfOk, string_bytes, IsOkUnless};
ghost use Rattle.puffin_data.specs.declared.error.Error.{Error};
ghost use Rattle.puffin_scopes.specs.Names.Functions.{clean, shorten, last_segment, two_segments};

use puffin_data::{Error, Result};
use std::alloc::Global;

/// Returns the short name of a function, given the name of a function `f` nested in it: removes the `::f` and closures before
/// it, and shortens the rest. If the name doesn't end in `::f`, returns it unchanged. Fails only with `Memory`.
pub fn clean_function_name(alloc: Global, name: &str) -> Result<String>
    ensures ok { IfOk result (λ short. string_bytes short ≡ clean name.now) }
    ensures err { IsOkUnless result Error.Memory }
{
    match name.strip_suffix("::f") {
        Some(outer) => {
            shorten_rust_function_name(alloc, outer.trim_end_matches("::{{closure}}"))
        }
        None => Ok(String::from_str(alloc, name)?),
    }
}

/// Shortens a function's name to its last two segments: `a::b::c` becomes `b::c`. The name of a trait's method only loses the paths
/// of type and trait: `<a::T as b::U>::f` becomes `<T as U>::f`. Fails only with `Memory`.
pub fn shorten_rust_function_name(alloc: Global, name: &str) -> Result<String>
    ensures ok { IfOk result (λ short. string_bytes short ≡ shorten name.now) }
    ensures err { IsOkUnless result Error.Memory }
{
    // A method of a trait is named `<type as trait>::method`; any other name has no ` as ` with a `>` after it.
    let Some((front, back)) = name.rsplit_once(" as ") else {
        return last_two_segments(alloc, name);
    };
    let Some((trait_name, rest)) = back.rsplit_once(">") else {
        return last_two_segments(alloc, name);
    };
    let concrete = match front.rsplit_once("<") {
        Some((_, concrete)) => concrete,
        None => name,
    };
    let concrete = last_segment(concrete);
    let trait_name = last_segment(trait_name);
    Ok(format!(in alloc; "<{concrete} as {trait_name}>{rest}")?)
}

/// Returns what follows the last `::`, or the whole text if there is none.
fn last_segment(text: &str) -> &str
    ensures { result.now ≡ last_segment text.now }
{
    match text.rsplit_once("::") {
        Some((_, last)) => last,
        None => text,
    }
}

/// Returns the last two segments between `::`, or the whole name if it has fewer than three. Fails only with `Memory`.
fn last_two_segments(alloc: Global, name: &str) -> Result<String>
    ensures ok { IfOk result (λ short. string_bytes short ≡ two_segments name.now) }
    ensures err { IsOkUnless result Error.Memory }
{
    if let Some((front, last)) = name.rsplit_once("::")
        && let Some((_, before)) = front.rsplit_once("::")
    {
        return Ok(format!(in alloc; "{before}::{last}")?);
    }
    Ok(String::from_str(alloc, name)?)
}
