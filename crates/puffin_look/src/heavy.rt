//! Lists the path of scopes that takes the most time.

ghost use Rattle.std.specs.Prelude.{◌≡◌, ◌++◌, take, drop, length, codes, option_map, IfOk, OnOk};
ghost use Rattle.std.specs.List.{list_any};
ghost use Rattle.std.specs.Str.{bytes_eq};
ghost use Rattle.puffin_look.specs.Heavy.{is_separator, is_directly_below, is_more, heavier, heaviest, is_followed, shown_name, step_line, step_lines};
ghost use Rattle.puffin_look.specs.inner.Stacks.{rows_in};
ghost use Rattle.puffin_look.specs.Forms.{joined};
ghost use Rattle.puffin_look.specs.inner.Heavies.{step_of};
ghost use Rattle.puffin_look.specs.inner.Lining.{Adds};

use crate::columns::push_indent;
use crate::lines::{Form, Lines};
use crate::rows::{Value, add_row};
use crate::stacks::Times;
use indexmap::IndexMap;
use std::alloc::{AllocError, Global};

/// A path, and the durations of its scopes together.
#[derive(Drop)]
pub(crate) struct Step {
    pub path: Vec<u8>,
    pub time: u64,
}

/// Returns what is behind so many bytes of a path.
fn behind(path: &[u8], count: usize) -> &[u8]
    ensures { result.now ≡ drop count path.now }
{
    if count <= path.len() {
        &path[count..]
    } else {
        &[]
    }
}

/// Returns whether a path begins with this text.
fn begins_with(front: &[u8], path: &[u8]) -> bool
    ensures { result ≡ bytes_eq (take (length front.now) path.now) front.now }
{
    &path[..front.len().min(path.len())] == front
}

/// Returns whether there is a `;` among these bytes.
fn has_separator(bytes: &[u8]) -> bool
    ensures { result ≡ list_any is_separator bytes.now }
{
    bytes.iter().any(|&byte| byte == b';')
}

/// Returns whether a path is one name behind this text, which ends with a `;` unless it is empty.
fn is_directly_below(front: &[u8], path: &[u8]) -> bool
    ensures { result ≡ is_directly_below front.now path.now }
{
    begins_with(front, path) && !has_separator(behind(path, front.len()))
}

/// Returns whether a time is more than that of a step, if there is one.
fn is_more(best: &Option<Step>, time: u64) -> bool
    ensures { result ≡ is_more (option_map step_of best.now) time }
{
    match best {
        Some(step) => step.time < time,
        None => true,
    }
}

/// Returns a path instead of the best one so far, if it is directly below this text and takes more time.
fn heavier(
    alloc: Global,
    front: &[u8],
    best: Option<Step>,
    path: &[u8],
    times: Times,
) -> Result<Option<Step>, AllocError>
    ensures { IfOk result (λ step. option_map step_of step
        ≡ heavier front.now (option_map step_of best) (path.now, times)) }
{
    if is_directly_below(front, path) && is_more(&best, times.whole) {
        Ok(Some(Step {
            path: Vec::from_slice(alloc, path)?,
            time: times.whole,
        }))
    } else {
        Ok(best)
    }
}

/// Returns the path directly below this text that takes the most time, and of equal ones the first.
fn heaviest(
    alloc: Global,
    rows: &IndexMap<Vec<u8>, Times>,
    front: &[u8],
) -> Result<Option<Step>, AllocError>
    ensures { IfOk result (λ step.
        option_map step_of step ≡ heaviest front.now (rows_in rows.now.entries)) }
{
    let mut best = None;
    'rows: for (path, times) in rows.iter() {
        best = heavier(alloc, front, best, path, *times)?;
    }
    Ok(best)
}

/// Returns whether a path is followed to a scope: at the top level always, and else if it takes half of the time of the scope
/// around it.
fn is_followed(level: usize, time: u64, outer: u64) -> bool
    ensures { result ≡ is_followed level time outer }
{
    level == 0 || outer.saturating_sub(time) <= time
}

/// Returns the name that is shown of a scope within so many others.
fn name_of(alloc: Global, form: Form, level: usize, name: &[u8]) -> Result<Vec<u8>, AllocError>
    ensures { IfOk result (λ shown. shown.items ≡ shown_name form level name.now) }
{
    let mut shown = Vec::new(alloc);
    match form {
        Form::Table => push_indent(&mut shown, level)?,
        Form::Json => (),
    }
    shown.extend_from_slice(name)?;
    Ok(shown)
}

/// Adds a scope of the path that is within so many others.
fn push_step(
    form: Form,
    lines: &mut Lines,
    level: usize,
    front: usize,
    step: &Step,
    outer: u64,
) -> Result<(), AllocError>
    ensures { OnOk result (
        Adds lines.old lines.new (step_line form level front (step_of step.now) outer)) }
{
    let alloc = *lines.text.allocator();
    let name = name_of(alloc, form, level, behind(&step.path, front))?;
    let cells = [
        ("time", Value::Time(Some(step.time))),
        ("share", Value::Share(step.time, outer)),
    ];
    add_row(lines, form, &cells, Some(("name", &name)))
}

/// Adds the path that takes the most time at each level, a line for each of its scopes: their durations together, their share of
/// those around them, and their name. Below the top level it ends where no scope directly within has half of that.
pub(crate) fn push_steps(
    alloc: Global,
    form: Form,
    lines: &mut Lines,
    rows: &IndexMap<Vec<u8>, Times>,
    whole: u64,
) -> Result<(), AllocError>
    ensures { OnOk result (lines.new.text.items ≡ lines.old.text.items
        ++ joined lines.old.separator.now lines.old.has_any
        (step_lines form (length rows.now.entries) (rows_in rows.now.entries) 0 (codes "") whole)) }
{
    let mut front = Vec::new(alloc);
    let mut outer = whole;
    for level in 0..rows.len() {
        let Some(step) = heaviest(alloc, rows, &front)? else {
            return Ok(());
        };
        if !is_followed(level, step.time, outer) {
            return Ok(());
        }
        push_step(form, lines, level, front.len(), &step, outer)?;
        outer = step.time;
        front = step.path;
        front.extend_from_slice(b";")?;
    }
    Ok(())
}
