//! Prints the report of a file of frames.

ghost use Rattle.std.specs.Prelude.{◌≡◌, ◌++◌, ◌+◌, ◌^◌, ◌<◌, ◌⊎◌, [], ◌∷◌, OnOk, IfOk, IfErr};
ghost use Rattle.std.specs.String.{string_bytes};
ghost use Rattle.puffin_data.specs.Device.{CanFail, TookNothing};
ghost use Rattle.puffin_threads.specs.Thread.ThreadKey.{key_of};
ghost use Rattle.puffin_merge.specs.Merge.Scopes.{forest_in};
ghost use Rattle.puffin_report.specs.ReportLines.{indent, scope_name, text_part, pieces_text, greatest_text, scope_lines, frames_line, report_lines};
ghost use Rattle.puffin_report.specs.Report.{IsReported, IsUnreported};

use crate::summary::{Summary, summarize};
use puffin_data::data::{Drain, ScopeId, Source, write_all};
use puffin_data::{FileError, NanoSecond};
use puffin_merge::merge::MergeScope;
use puffin_threads::scope_details::ScopeCollection;
use puffin_threads::thread_profiler::ThreadInfo;
use std::alloc::{AllocError, Global};

/// Returns the first line, which has the number of frames.
fn frames_line(alloc: Global, frames: usize) -> Result<String, AllocError>
    ensures { IfOk result (λ line. string_bytes line ≡ frames_line frames) }
{
    format!(in alloc; "frames {frames}\n")
}

/// Appends two blanks for each level.
fn push_indent(lines: &mut String, level: usize) -> Result<(), AllocError>
    ensures text { OnOk result (
        string_bytes lines.new ≡ string_bytes lines.old ++ indent level) }
    // This many blanks fit into memory, so the next level fits `usize`.
    ensures level { OnOk result (level < 2 ^ 63) }
{
    for _ in 0..level {
        lines.push_str("  ")?;
    }
    Ok(())
}

/// Appends the name of the scope with this id, or `#` and the id if it has no details.
fn push_name(
    alloc: Global,
    lines: &mut String,
    known: &ScopeCollection,
    id: ScopeId,
) -> Result<(), AllocError>
    ensures { OnOk result (
        string_bytes lines.new ≡ string_bytes lines.old ++ scope_name known.now id) }
{
    match known.fetch_by_id(&id) {
        Some(details) => lines.push_str(details.name().as_str()),
        None => {
            let number = id.get();
            lines.push_str(format!(in alloc; "#{number}")?.as_str())
        }
    }
}

/// Appends a text in parentheses, unless it is empty.
fn push_text(lines: &mut String, text: &str) -> Result<(), AllocError>
    ensures { OnOk result (
        string_bytes lines.new ≡ string_bytes lines.old ++ text_part text.now) }
{
    if text.is_empty() {
        return Ok(());
    }
    lines.push_str(" (")?;
    lines.push_str(text)?;
    lines.push_str(")")
}

/// Returns the first half of a merged scope's numbers.
fn pieces_text(
    alloc: Global,
    pieces: usize,
    total: NanoSecond,
    per_frame: NanoSecond,
) -> Result<String, AllocError>
    ensures { IfOk result (λ text. string_bytes text ≡ pieces_text pieces total per_frame) }
{
    format!(in alloc; " pieces {pieces} total {total} per_frame {per_frame}")
}

/// Returns the second half of a merged scope's numbers.
fn greatest_text(
    alloc: Global,
    greatest: NanoSecond,
    start: NanoSecond,
) -> Result<String, AllocError>
    ensures { IfOk result (λ text. string_bytes text ≡ greatest_text greatest start) }
{
    format!(in alloc; " max {greatest} start {start}\n")
}

/// Appends the line of a merged scope at this level, and then the lines of its children, one level deeper.
fn push_scope(
    alloc: Global,
    lines: &mut String,
    known: &ScopeCollection,
    level: usize,
    scope: &MergeScope,
) -> Result<(), AllocError>
    ensures { OnOk result (string_bytes lines.new
        ≡ string_bytes lines.old ++ scope_lines known.now level (forest_in (scope.now ∷ []))) }
{
    push_indent(lines, level)?;
    push_name(alloc, lines, known, scope.id)?;
    push_text(lines, scope.text.as_str())?;
    let pieces = pieces_text(
        alloc,
        scope.num_pieces,
        scope.total_duration_ns,
        scope.duration_per_frame_ns,
    )?;
    lines.push_str(pieces.as_str())?;
    let greatest = greatest_text(alloc, scope.max_duration_ns, scope.relative_start_ns)?;
    lines.push_str(greatest.as_str())?;
    for child in &scope.children {
        push_scope(alloc, lines, known, level + 1, child)?;
    }
    Ok(())
}

/// Returns the lines of a summary.
fn report_lines(alloc: Global, summary: &Summary) -> Result<String, AllocError>
    ensures { IfOk result (λ lines. string_bytes lines ≡ report_lines summary.now) }
{
    let mut lines = frames_line(alloc, summary.frames)?;
    for scope in &summary.merged {
        push_scope(alloc, &mut lines, &summary.scopes, 0, scope)?;
    }
    Ok(lines)
}

/// Sums up a file as [`summarize`] does, and writes the summary as the lines that `docs/FORMAT.md` lists: the number of frames,
/// and then a line for each merged scope of the thread. The children of a scope come after it, indented by two more blanks.
/// Times are in nanoseconds.
///
/// Fails as [`summarize`] does, or with `Memory`, and then writes nothing; or with `Io` if the writer fails. The lines are made
/// before any of them is written; if the writer fails, a prefix of them may be written. If the call fails, how far it read
/// is unspecified.
///
/// ```
/// let mut file = Counted::new(File::open(&rt, "frames.puffin")?);
/// let mut lines = Counted::new(rt.stdout());
/// print_report(alloc, &mut file, &thread, &mut lines)?;
/// ```
pub fn print_report<S: Source, D: Drain>(
    alloc: Global,
    source: &mut S,
    thread: &ThreadInfo,
    drain: &mut D,
) -> Result<(), FileError>
    requires source { CanFail S.failures source.old }
    requires drain { CanFail D.failures drain.old }
    ensures ok { OnOk result (
        IsReported (key_of thread.now) (S.remaining source.old) (S.remaining source.new)
        (D.contents drain.old) (D.contents drain.new)) }
    ensures err { IfErr result (λ e.
        IsUnreported (key_of thread.now) (S.remaining source.old) (S.remaining source.new)
        (D.contents drain.old) (D.contents drain.new) e) }
    // `Io` means that the reader or the writer failed in this call, or that the writer took no bytes.
    ensures io { (result ≡ Err FileError.Io) → (S.failures source.new ≡ S.failures source.old + 1)
        ⊎ ((D.failures drain.new ≡ D.failures drain.old + 1) ⊎ TookNothing D.takes drain.new) }
    ensures failures { OnOk result (
        (S.failures source.new ≡ S.failures source.old)
        × (D.failures drain.new ≡ D.failures drain.old)) }
{
    let summary = summarize(alloc, source, thread)?;
    let lines = report_lines(alloc, &summary)?;
    write_all(drain, lines.as_bytes())
}
