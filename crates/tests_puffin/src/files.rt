//! Files that `light` writes.

use crate::equal::equal;
use puffin::data::Counted;
use puffin::light::{Rotation, RotationLimits, SaveCause, SaveError, save};
use puffin::profile_view::{FrameReader, FrameView};
use std::fs::{File, Files};
use std::process::Abort;
use std::{fs, io};
use tests_support::samples::FILE;

/// Reads a file of frames.
fn read_view(rt: &(impl Files + AllocGlobal + Abort), name: &str) -> FrameView {
    let file = File::open(rt, name).expect(rt, "a file");
    FrameView::read(rt.alloc(), &mut Counted::new(file)).expect(rt, "a view")
}

/// The details of a packet: one scope, with an id.
const DETAILS: [u8; 12] = *b"\x08\0\0\0\x01\x01\x07\0\x01f\0\0";

/// Two frames, of which the first lists a scope.
fn two_frames(rt: &(impl AllocGlobal + Abort)) -> FrameView {
    let mut bytes = Vec::new(rt.alloc());
    for part in &[&FILE[..74], &DETAILS, &FILE[79..]] {
        bytes.extend_from_slice(part).expect(rt, "memory");
    }
    FrameView::read(rt.alloc(), &mut Counted::new(bytes.as_slice())).expect(rt, "a view")
}

/// A view of the second of them, which knows the scope of the first.
fn last_of_two(rt: &(impl AllocGlobal + Abort)) -> FrameView {
    let mut view = FrameView::new(rt.alloc());
    view.set_max_recent(1);
    view.set_max_slow(0);
    for frame in two_frames(rt).recent_frames() {
        let frame = frame.clone().expect(rt, "memory");
        view.add_frame(frame).expect(rt, "a frame");
    }
    view
}

#[test]
fn a_saved_file_has_its_names(rt: HostRuntime) {
    let name = "names.puffin";
    save(&rt, name, &last_of_two(&rt)).expect(&rt, "a saved view");
    let found = read_view(&rt, name);
    equal(&rt, found.stats().frames(), 1);
    equal(&rt, found.scope_collection().scopes_by_id().len(), 1);
    fs::remove_file(&rt, name).expect(&rt, "a file");
}

#[test]
fn a_saved_file_keeps_its_permissions_and_what_stands_beside_it(rt: HostRuntime) {
    let name = "kept.puffin";
    fs::write(&rt, name, "old").expect(&rt, "a file");
    fs::write(&rt, "kept.puffin.part", "mine").expect(&rt, "a file");
    let mut readonly = fs::metadata(&rt, name).expect(&rt, "a file").permissions();
    readonly.set_readonly(true);
    fs::set_permissions(&rt, name, readonly).expect(&rt, "permissions");
    save(&rt, name, &FrameView::new(rt.alloc())).expect(&rt, "a saved view");
    let saved = fs::metadata(&rt, name).expect(&rt, "a file");
    equal(
        &rt,
        (saved.len(), saved.permissions().readonly()),
        (4, true),
    );
    let beside = fs::read_to_string(&rt, "kept.puffin.part").expect(&rt, "a file");
    equal(&rt, beside.as_str() == "mine", true);
    fs::remove_file(&rt, name).expect(&rt, "a file");
    fs::remove_file(&rt, "kept.puffin.part").expect(&rt, "a file");
}

#[test]
fn the_longest_name_is_saved(rt: HostRuntime) {
    let mut name = String::new(rt.alloc());
    for _ in 0..255 {
        name.push('n').expect(&rt, "memory");
    }
    save(&rt, name.as_str(), &FrameView::new(rt.alloc())).expect(&rt, "a saved view");
    fs::remove_file(&rt, name.as_str()).expect(&rt, "a file");
}

/// Writes so many frames to the files of a rotation, the first of which lists a scope. Returns how it ended.
fn rotate<R: AllocGlobal + Files<File = File> + Abort + Copy + Drop>(
    rt: R,
    prefix: &str,
    frames: usize,
    max_files: u64,
) -> Option<io::ErrorKind> {
    let view = two_frames(&rt);
    let limits = RotationLimits {
        max_frames: 2,
        max_files,
        ..RotationLimits::default()
    };
    let mut files = Rotation::new(rt, prefix, limits).expect(&rt, "a folder");
    for number in 0..frames {
        let frame = view
            .recent_frames()
            .nth(number.min(1))
            .expect(&rt, "a frame");
        if !files.write(frame) {
            break;
        }
    }
    refusal(files.finish())
}

/// Returns the kind of the system's error that refused to write.
fn refusal(saved: std::result::Result<(), SaveError<'_>>) -> Option<io::ErrorKind> {
    match saved.err()?.cause {
        SaveCause::System(e) => Some(e.kind()),
        SaveCause::View(_) => None,
    }
}

/// How many frames a file has, and how many names they list, or `None` if there is none.
fn holds(rt: &(impl Files + AllocGlobal + Abort), name: &str) -> Option<(usize, usize)> {
    let file = File::open(rt, name).ok()?;
    let mut reader = FrameReader::new(rt.alloc(), Counted::new(file)).expect(rt, "a file");
    let (mut frames, mut names) = (0_usize, 0_usize);
    for _ in 0..10 {
        let Some(frame) = reader.next().expect(rt, "a frame") else {
            break;
        };
        frames = frames.saturating_add(1);
        names = names.saturating_add(frame.scope_delta.len());
    }
    Some((frames, names))
}

#[test]
fn files_replace_each_other_and_go_on(rt: HostRuntime) {
    fs::create_dir(&rt, "rotation").expect(&rt, "a folder");
    equal(&rt, rotate(rt, "rotation/r", 5, 2), None);
    equal(&rt, holds(&rt, "rotation/r0.puffin"), None);
    equal(&rt, holds(&rt, "rotation/r1.puffin"), Some((2, 1)));
    equal(&rt, holds(&rt, "rotation/r2.puffin"), Some((1, 1)));
    equal(&rt, rotate(rt, "rotation/r", 1, 2), None);
    equal(&rt, holds(&rt, "rotation/r1.puffin"), None);
    equal(&rt, holds(&rt, "rotation/r2.puffin"), Some((1, 1)));
    equal(&rt, holds(&rt, "rotation/r3.puffin"), Some((1, 1)));
    fs::remove_dir_all(&rt, "rotation").expect(&rt, "a folder");
}

#[test]
fn a_file_that_cannot_be_removed_ends_a_rotation(rt: HostRuntime) {
    fs::create_dir(&rt, "kept").expect(&rt, "a folder");
    fs::create_dir(&rt, "kept/0.puffin").expect(&rt, "a folder");
    equal(&rt, rotate(rt, "kept/", 2, 2), None);
    equal(&rt, rotate(rt, "kept/", 2, 2).is_some(), true);
    fs::remove_dir_all(&rt, "kept").expect(&rt, "a folder");
}

#[test]
fn fewer_files_are_kept_than_before(rt: HostRuntime) {
    fs::create_dir(&rt, "fewer").expect(&rt, "a folder");
    equal(&rt, rotate(rt, "fewer/", 9, 9), None);
    equal(&rt, rotate(rt, "fewer/", 1, 2), None);
    for name in &["fewer/0.puffin", "fewer/2.puffin", "fewer/3.puffin"] {
        equal(&rt, holds(&rt, name), None);
    }
    equal(&rt, holds(&rt, "fewer/4.puffin"), Some((1, 1)));
    equal(&rt, holds(&rt, "fewer/5.puffin"), Some((1, 1)));
    fs::remove_dir_all(&rt, "fewer").expect(&rt, "a folder");
}
