use crate::equal::equal;
use puffin_data::data::Counted;
use puffin_data::{Error, FileError, NanoSecond};
use puffin_replay::replay::{Summary, summarize};
use std::alloc::{AllocError, AllocGlobal};
use std::process::Abort;
use tests_support::samples::{FILE, ONE_FRAME};
use tests_support::threads::thread_info;

/// A file summed up for the thread `main` that started then.
fn summed(
    rt: &(impl AllocGlobal + Abort),
    file: &[u8],
    start: Option<NanoSecond>,
) -> Result<Summary, FileError> {
    let thread = thread_info(rt.alloc(), start, "main").expect(rt, "memory");
    summarize(rt.alloc(), &mut Counted::new(file), &thread)
}

/// The scope `data` of id 1, from 100 to 300, is all that was merged of the one frame.
fn has_data_alone(rt: &impl Abort, summary: &Summary) {
    equal(rt, (summary.frames, summary.merged.len()), (1, 1));
    equal(rt, summary.scopes.scopes_by_id().len(), 0);
    for scope in &summary.merged {
        equal(rt, (scope.id.get(), scope.text.as_str()), (1, "data"));
        equal(
            rt,
            (scope.relative_start_ns, scope.total_duration_ns),
            (100, 200),
        );
        equal(
            rt,
            (scope.duration_per_frame_ns, scope.max_duration_ns),
            (200, 200),
        );
        equal(rt, (scope.num_pieces, scope.children.len()), (1, 0));
    }
}

#[test]
fn a_thread_s_scopes_are_merged(rt: HostRuntime) {
    has_data_alone(
        &rt,
        &summed(&rt, &FILE[..ONE_FRAME], Some(100)).expect(&rt, "a summary"),
    );
}

#[test]
fn another_thread_has_no_scopes(rt: HostRuntime) {
    let summary = summed(&rt, &FILE[..ONE_FRAME], None).expect(&rt, "a summary");
    equal(&rt, (summary.frames, summary.merged.len()), (1, 0));
}

/// A file isn't summed up, for this cause.
fn refuses(rt: &(impl AllocGlobal + Abort), file: &[u8], cause: FileError) {
    equal(rt, summed(rt, file, Some(100)).err(), Some(cause));
}

/// The file of one frame with these bytes at these places.
fn changed(changes: &[(usize, u8)]) -> [u8; ONE_FRAME] {
    let mut file = [0; ONE_FRAME];
    file.copy_from_slice(&FILE[..ONE_FRAME]);
    for &(place, byte) in changes {
        if let Some(changed) = file.get_mut(place) {
            *changed = byte;
        }
    }
    file
}

/// Nor is the file where one of its bytes is another.
fn refuses_byte(rt: &(impl AllocGlobal + Abort), place: usize, byte: u8, cause: FileError) {
    refuses(rt, &changed(&[(place, byte)]), cause);
}

#[test]
fn what_is_not_unpacked_or_merged_is_refused(rt: HostRuntime) {
    refuses_byte(&rt, 0, 0, FileError::NoMagic);
    refuses_byte(&rt, 23, 2, FileError::Compressed(2));
    refuses_byte(&rt, 24, 2, FileError::BadStreams);
    refuses_byte(&rt, 33, 0, FileError::Refused(Error::InvalidStream));
    refuses(&rt, &FILE[..78], FileError::Truncated);
}

/// The frame's index is 1, so it comes after the first of [`FILE`].
const LATER: (usize, u8) = (12, 1);

/// The frame's streams are packed by zstd, which isn't unpacked here.
const ZSTD: (usize, u8) = (23, 2);

/// The frame's stream doesn't begin with a scope.
const NO_SCOPE: (usize, u8) = (33, 0);

/// The file of two frames, each the first of [`FILE`] with some bytes changed, without so many of the last bytes.
fn two_frames(
    rt: &impl AllocGlobal,
    first: &[(usize, u8)],
    second: &[(usize, u8)],
    cut: usize,
) -> Result<Vec<u8>, AllocError> {
    let mut file = Vec::new(rt.alloc());
    file.extend_from_slice(&changed(first))?;
    file.extend_from_slice(&changed(second)[4..])?;
    file.truncate(file.len().saturating_sub(cut));
    Ok(file)
}

/// Where the first of two frames isn't kept, the file is summed up as if it were not there.
fn forgets_the_first(
    rt: &(impl AllocGlobal + Abort),
    first: &[(usize, u8)],
    second: &[(usize, u8)],
) {
    let file = two_frames(rt, first, second, 0).expect(rt, "memory");
    has_data_alone(rt, &summed(rt, &file, Some(100)).expect(rt, "a summary"));
}

#[test]
fn a_frame_whose_index_does_not_rise_begins_anew(rt: HostRuntime) {
    forgets_the_first(&rt, &[ZSTD], &[]);
    forgets_the_first(&rt, &[NO_SCOPE], &[]);
    forgets_the_first(&rt, &[LATER, ZSTD], &[]);
    forgets_the_first(&rt, &[LATER], &[LATER]);
}

/// Two frames aren't summed up, for this cause.
fn refuses_two(
    rt: &(impl AllocGlobal + Abort),
    first: &[(usize, u8)],
    second: &[(usize, u8)],
    cut: usize,
    cause: FileError,
) {
    refuses(
        rt,
        &two_frames(rt, first, second, cut).expect(rt, "memory"),
        cause,
    );
}

#[test]
fn the_file_s_fault_comes_before_that_of_a_frame(rt: HostRuntime) {
    refuses_two(&rt, &[ZSTD], &[LATER], 1, FileError::Truncated);
    refuses_two(&rt, &[NO_SCOPE], &[LATER], 1, FileError::Truncated);
}

#[test]
fn a_frame_that_is_not_unpacked_comes_before_the_merge(rt: HostRuntime) {
    let invalid = FileError::Refused(Error::InvalidStream);
    refuses_two(&rt, &[ZSTD], &[LATER], 0, FileError::Compressed(2));
    refuses_two(
        &rt,
        &[NO_SCOPE],
        &[LATER, ZSTD],
        0,
        FileError::Compressed(2),
    );
    refuses_two(
        &rt,
        &[ZSTD],
        &[LATER, NO_SCOPE],
        0,
        FileError::Compressed(2),
    );
    refuses_two(&rt, &[NO_SCOPE], &[LATER], 0, invalid);
}
