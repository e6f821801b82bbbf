//! Writing a view to a file.

ghost use Rattle.puffin.specs.declared.light.files.SaveCause.TheVariants.{System, View};
ghost use Rattle.std.specs.Prelude.{◌≡◌};

use crate::profile_view::FrameView;
use puffin_data::FileError;
use puffin_data::data::Counted;
use std::alloc::Global;
use std::fs::{File, OpenFile};
use std::io::{ErrorKind, Write};
use std::rt::Files;
use std::{fmt, fs, io, result};

/// Why a view wasn't saved. It displays as the name of the file, a colon and the cause.
#[derive(Clone, Copy, Debug)]
pub struct SaveError<'p> {
    /// The name of the file that was to be written.
    pub path: &'p str,
    /// The cause.
    pub cause: SaveCause,
}

/// What stopped a view from being saved.
#[derive(Clone, Copy, Debug)]
pub enum SaveCause {
    /// The system failed to create, write, sync or rename a file, with this error.
    System(io::Error),
    /// The view can't be written: memory ran out, or a part of a packet is too long.
    View(FileError),
}

impl From<io::Error> for SaveCause {
    ghost from_gives = { λ e cause. cause ≡ System e };

    fn from(e: io::Error) -> SaveCause {
        SaveCause::System(e)
    }
}

impl From<FileError> for SaveCause {
    ghost from_gives = { λ fault cause. cause ≡ View fault };

    fn from(fault: FileError) -> SaveCause {
        SaveCause::View(fault)
    }
}

impl fmt::Display for SaveCause {
    fn fmt<W: fmt::Write>(&self, f: &mut fmt::Formatter<W>) -> fmt::Result {
        match self {
            SaveCause::System(e) => e.fmt(f),
            SaveCause::View(fault) => fault.fmt(f),
        }
    }
}

impl fmt::Display for SaveError<'_> {
    fn fmt<W: fmt::Write>(&self, f: &mut fmt::Formatter<W>) -> fmt::Result {
        f.write_str(self.path)?;
        f.write_str(": ")?;
        self.cause.fmt(f)
    }
}

impl std::error::Error for SaveError<'_> {}

/// The cause of a write that failed so, where the system may have given an error.
pub(crate) fn cause_of(fault: FileError, error: Option<io::Error>) -> SaveCause {
    match (fault, error) {
        (FileError::Io, Some(e)) => SaveCause::System(e),
        (fault, _) => SaveCause::View(fault),
    }
}

/// The cause where memory ran out.
pub(crate) fn no_memory() -> SaveCause {
    SaveCause::View(FileError::Memory)
}

/// Writes the frames of a view to a file, with all details that the view knows. Returns the file.
fn write_to<F: Write + Drop>(file: F, view: &FrameView) -> result::Result<F, SaveCause> {
    let mut out = Counted::new(file);
    match view.write_with_details(&mut out) {
        Ok(()) => Ok(out.into_inner()),
        Err(fault) => Err(cause_of(fault, out.last_error())),
    }
}

/// The greatest number of bytes of a file's name.
const MAX_NAME: usize = 255;

/// The number of names that are tried for a part.
const MAX_TRIES: usize = 1_000;

/// Returns the name of a part beside this file. It is cut where it would be too long.
fn part_name(alloc: Global, path: &str, number: usize) -> result::Result<String, SaveCause> {
    let ending = if number == 0 {
        String::from_str(alloc, ".part")
    } else {
        format!(in alloc; ".part{number}")
    };
    let ending = ending.map_err(|_| no_memory())?;
    let start = path.rfind('/').map_or(0, |at| at.saturating_add(1));
    let longest = start.saturating_add(MAX_NAME.saturating_sub(ending.len()));
    let kept = &path[..path.floor_char_boundary(longest)];
    format!(in alloc; "{kept}{ending}").map_err(|_| no_memory())
}

/// Creates a file beside this one, under a name that isn't taken.
fn create_part<R: Files + AllocGlobal>(
    rt: &R,
    path: &str,
) -> result::Result<(String, R::File), SaveCause> {
    for number in 0..MAX_TRIES {
        let name = part_name(rt.alloc(), path, number)?;
        match File::create_new(rt, name.as_str()) {
            Ok(file) => return Ok((name, file)),
            Err(e) if e.kind() == ErrorKind::AlreadyExists => {}
            Err(e) => return Err(SaveCause::System(e)),
        }
    }
    Err(SaveCause::System(io::Error::from(ErrorKind::AlreadyExists)))
}

/// Writes the frames of a view to a part, waits until the system has stored it, and renames it to `path`.
fn replace<R: Files>(
    rt: &R,
    path: &str,
    part: &str,
    file: R::File,
    view: &FrameView,
) -> result::Result<(), SaveCause> {
    if let Ok(old) = fs::metadata(rt, path) {
        file.set_permissions(old.permissions())?;
    }
    write_to(file, view)?.sync_all()?;
    Ok(fs::rename(rt, part, path)?)
}

/// Returns whether this name is taken by something other than a plain file, for example a device or a link.
fn is_no_file(rt: &impl Files, path: &str) -> bool {
    match fs::symlink_metadata(rt, path) {
        Ok(found) => !found.is_file(),
        Err(_) => false,
    }
}

/// Does what [`save`] does, and returns the cause without the file's name.
fn save_file<R: Files + AllocGlobal>(
    rt: &R,
    path: &str,
    view: &FrameView,
) -> result::Result<(), SaveCause> {
    if is_no_file(rt, path) {
        let _file = write_to(File::create(rt, path)?, view)?;
        return Ok(());
    }
    let (part, file) = create_part(rt, path)?;
    let replaced = replace(rt, path, part.as_str(), file, view);
    if replaced.is_err() {
        let _removed = fs::remove_file(rt, part.as_str());
    }
    replaced
}

/// Writes the frames of a view to a file with this name, as [`FrameView::write_with_details`] does: the file has the names of
/// all its scopes. They are first written to a second file, with `.part` added to the name, or `.part1` and so on if that is
/// taken; a name that is too long is cut before it. Once the system has stored that file, it replaces the old one, whose
/// permissions it has. So after a crash or a loss of power, a file that was there has its old frames or the new ones, and no
/// part of either. A device, a pipe or a link is written to directly, and isn't waited for.
///
/// Fails with the system's error if a file can't be created, written, stored or renamed; with `Memory` if the second file's
/// name can't be allocated; or as [`FrameView::write`] does. If it fails, an old plain file is unchanged, and the second one is
/// removed.
///
/// No contract states what the file holds afterwards, since contracts can't express that; tests read the file again.
///
/// ```
/// save(&rt, "frames.puffin", &view)?;
/// ```
pub fn save<'p, R: Files + AllocGlobal>(
    rt: &R,
    path: &'p str,
    view: &FrameView,
) -> result::Result<(), SaveError<'p>> {
    match save_file(rt, path, view) {
        Ok(()) => Ok(()),
        Err(cause) => Err(SaveError { path, cause }),
    }
}
