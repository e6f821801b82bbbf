use crate::equal::equal;
use puffin_data::FileError;
use puffin_data::data::Counted;
use puffin_look::{
    By, Diff, Form, Indices, Overview, Top, Wanted, compare, print_diff, print_folded, print_frame,
    print_frames, print_slow_frames, print_slowest, print_threads, print_top, print_trace,
    read_overview, read_top, threads_named,
};
use puffin_threads::thread_profiler::ThreadInfo;
use std::alloc::AllocGlobal;
use std::process::Abort;
use tests_support::samples::{FILE, ONE_FRAME};

/// What a call returned, and what it wrote.
type Printed = (Result<(), FileError>, Vec<u8>);

/// Lists the slowest frames of a file.
fn slowest_of(rt: &impl AllocGlobal, file: &[u8], limit: usize, form: Form) -> Printed {
    let mut out = Counted::new(Vec::new(rt.alloc()));
    let answer = print_slowest(rt.alloc(), &mut Counted::new(file), &mut out, limit, form);
    (answer, out.into_inner())
}

/// Whether a thread was printed.
type Found = Result<bool, FileError>;

/// The table of the two frames of [`FILE`].
const FRAMES: &[u8] =
    b"         frame       threads        scopes                      start    duration\n\
\x20            0             1             1                        100      200 ns\n\
\x20            1             1             1                        400        1 ns\n";

/// The same in JSON.
const FRAMES_JSON: &[u8] =
    b"[{\"frame\":0,\"threads\":1,\"scopes\":1,\"start\":100,\"duration\":200},\n\
{\"frame\":1,\"threads\":1,\"scopes\":1,\"start\":400,\"duration\":1}]\n";

/// The trace of [`FILE`].
const TRACE: &[u8] = b"{\"displayTimeUnit\":\"ns\",\"traceEvents\":[\n\
{\"ph\":\"M\",\"pid\":1,\"name\":\"process_name\",\"args\":{\"name\":\"puffin\"}},\n\
{\"ph\":\"i\",\"s\":\"p\",\"pid\":1,\"tid\":0,\"ts\":0.000,\"name\":\"frame 0\",\"args\":{\"start\":\"100\",\"stop\":\"300\"}},\n\
{\"ph\":\"M\",\"pid\":1,\"tid\":1,\"name\":\"thread_name\",\"args\":{\"name\":\"main\",\"start\":\"100\"}},\n\
{\"ph\":\"X\",\"pid\":1,\"tid\":1,\"ts\":0.000,\"dur\":0.200,\"name\":\"#1\",\"args\":{\"text\":\"data\"}},\n\
{\"ph\":\"i\",\"s\":\"p\",\"pid\":1,\"tid\":0,\"ts\":0.300,\"name\":\"frame 1\",\"args\":{\"start\":\"400\",\"stop\":\"401\"}},\n\
{\"ph\":\"X\",\"pid\":1,\"tid\":1,\"ts\":0.300,\"dur\":0.001,\"name\":\"#1\",\"args\":{\"text\":\"a\"}}\n\
]}\n";

/// Where the events of the second frame begin.
const SECOND_FRAME: usize = 377;

/// The table of [`FILE`].
const TABLE: &[u8] =
    b"         calls       total         own       least      median         p95         p99    greatest   share  name\n\
\x20            2      201 ns      201 ns        1 ns        1 ns      200 ns      200 ns      200 ns  100.0%  #1\n";

/// The same in JSON.
const ROWS: &[u8] =
    b"[{\"calls\":2,\"total\":201,\"own\":201,\"least\":1,\"median\":1,\"p95\":200,\"p99\":200,\"greatest\":200,\"share\":100.0,\"name\":\"#1\"}]\n";

/// The table with texts kept apart, those that take the most time first.
const TEXTS: &[u8] =
    b"         calls       total         own       least      median         p95         p99    greatest   share  name\n\
\x20            1      200 ns      200 ns      200 ns      200 ns      200 ns      200 ns      200 ns   99.5%  #1 (data)\n\
\x20            1        1 ns        1 ns        1 ns        1 ns        1 ns        1 ns        1 ns    0.4%  #1 (a)\n";

/// What [`FILE`] has in each frame, beside its first frame.
const CHANGES: &[u8] =
    b"     old_own     new_own   own_change   own_growth   old_total   new_total total_change total_growth     old_calls     new_calls  name\n\
\x20     200 ns      100 ns      -100 ns       -50.0%      200 ns      100 ns      -100 ns       -50.0%          1.00          1.00  #1\n";

/// The same in JSON.
const CHANGES_JSON: &[u8] =
    b"[{\"old_own\":200,\"new_own\":100,\"own_change\":-100,\"own_growth\":-50.0,\"old_total\":200,\"new_total\":100,\"total_change\":-100,\"total_growth\":-50.0,\"old_calls\":1.00,\"new_calls\":1.00,\"name\":\"#1\"}]\n";

/// Where the lines of the two frames begin.
const FIRST_LINE: usize = 82;

const SECOND_LINE: usize = 164;

/// Where the first frame's object ends.
const SECOND_OBJECT: usize = 62;

/// The table of the thread of [`FILE`], and that of its first frame.
const THREADS: &[u8] =
    b"        frames        scopes         bytes                      start    duration  thread\n\
\x20            2             2            67                        100      301 ns  100:main\n";

const FIRST_THREADS: &[u8] =
    b"        frames        scopes         bytes                      start    duration  thread\n\
\x20            1             1            35                        100      200 ns  100:main\n";

/// Lists the threads of a file.
fn threads_of(rt: &impl AllocGlobal, file: &[u8], form: Form) -> Printed {
    let mut out = Counted::new(Vec::new(rt.alloc()));
    let answer = print_threads(rt.alloc(), &mut Counted::new(file), &mut out, form);
    (answer, out.into_inner())
}

/// Lists some frames of a file.
fn frames_of(rt: &impl AllocGlobal, file: &[u8], indices: Option<Indices>, form: Form) -> Printed {
    let mut out = Counted::new(Vec::new(rt.alloc()));
    let answer = print_frames(rt.alloc(), &mut Counted::new(file), &mut out, indices, form);
    (answer, out.into_inner())
}

/// Returns what is wanted: some frames, and all threads or one.
fn wanted_of<R: AllocGlobal + Abort>(
    rt: &R,
    frames: Option<Indices>,
    thread: Option<ThreadInfo>,
) -> Wanted {
    let mut threads = Vec::new(rt.alloc());
    let Some(thread) = thread else {
        return Wanted {
            frames,
            threads: None,
        };
    };
    threads.push(thread).expect(rt, "memory");
    Wanted {
        frames,
        threads: Some(threads),
    }
}

/// Returns what the frames of a file say together.
fn overview_of<R: AllocGlobal + Abort>(rt: &R, file: &[u8]) -> Overview {
    read_overview(rt.alloc(), &mut Counted::new(file)).expect(rt, "an overview")
}

/// Prints the frame of [`FILE`] with an index.
fn frame_of<R: AllocGlobal + Abort>(
    rt: &R,
    index: u64,
    thread: Option<ThreadInfo>,
) -> (Found, Vec<u8>) {
    let mut out = Counted::new(Vec::new(rt.alloc()));
    let answer = print_frame(
        rt.alloc(),
        &overview_of(rt, &FILE),
        &mut Counted::new(&FILE[..]),
        &mut out,
        &wanted_of(rt, Some(Indices::only(index)), thread),
    );
    (answer, out.into_inner())
}

/// Writes a file as a trace.
fn trace_of<R: AllocGlobal + Abort>(rt: &R, file: &[u8]) -> Printed {
    let mut out = Counted::new(Vec::new(rt.alloc()));
    let answer = print_trace(
        rt.alloc(),
        &overview_of(rt, file),
        &mut Counted::new(file),
        &mut out,
        None,
    );
    (answer, out.into_inner())
}

/// Writes the folded stacks of a file.
fn folded_of<R: AllocGlobal + Abort>(
    rt: &R,
    file: &[u8],
    thread: Option<ThreadInfo>,
) -> (Found, Vec<u8>) {
    let mut out = Counted::new(Vec::new(rt.alloc()));
    let answer = print_folded(
        rt.alloc(),
        &overview_of(rt, file),
        &mut Counted::new(file),
        &mut out,
        &wanted_of(rt, None, thread),
    );
    (answer, out.into_inner())
}

/// Returns the scopes of a file by name.
fn top_of<R: AllocGlobal + Abort>(rt: &R, file: &[u8], texts: bool) -> Result<Top, FileError> {
    let overview = overview_of(rt, file);
    let wanted = wanted_of(rt, None, None);
    read_top(
        rt.alloc(),
        &overview,
        &mut Counted::new(file),
        &wanted,
        texts,
    )
}

/// Prints rows.
fn text_of<R: AllocGlobal + Abort>(rt: &R, top: &Top, form: Form) -> Vec<u8> {
    let mut out = Counted::new(Vec::new(rt.alloc()));
    print_top(rt.alloc(), &mut out, top, form).expect(rt, "a list");
    out.into_inner()
}

/// Prints what two files have.
fn changes_of<R: AllocGlobal + Abort>(rt: &R, diff: &Diff, form: Form) -> Vec<u8> {
    let mut out = Counted::new(Vec::new(rt.alloc()));
    print_diff(rt.alloc(), &mut out, diff, form).expect(rt, "a list");
    out.into_inner()
}

/// Returns the scopes of the first frame of [`FILE`].
fn first_top<R: AllocGlobal + Abort>(rt: &R) -> Top {
    top_of(rt, &FILE[..ONE_FRAME], false).expect(rt, "a frame")
}

/// Shows what takes the most time in the slowest frames of a file.
fn slow_frames_of<R: AllocGlobal + Abort>(
    rt: &R,
    file: &[u8],
    limit: usize,
    form: Form,
) -> Printed {
    let mut out = Counted::new(Vec::new(rt.alloc()));
    let answer = print_slow_frames(
        rt.alloc(),
        &overview_of(rt, file),
        &mut Counted::new(file),
        &mut out,
        &wanted_of(rt, None, None),
        limit,
        form,
    );
    (answer, out.into_inner())
}

/// Returns the info of a thread named `main`.
fn main_thread<R: AllocGlobal + Abort>(rt: &R, start: Option<i64>) -> ThreadInfo {
    ThreadInfo {
        start_time_ns: start,
        name: String::from_str(rt.alloc(), "main").expect(rt, "a name"),
    }
}

/// Returns the threads of [`FILE`] that a word names.
fn named<R: AllocGlobal + Abort>(rt: &R, word: &str) -> Vec<ThreadInfo> {
    threads_named(rt.alloc(), &mut Counted::new(&FILE[..]), word).expect(rt, "a file")
}

/// Returns these bytes, one behind the other.
fn joined<R: AllocGlobal + Abort>(rt: &R, first: &[u8], last: &[u8]) -> Vec<u8> {
    let mut bytes = Vec::new(rt.alloc());
    bytes.extend_from_slice(first).expect(rt, "memory");
    bytes.extend_from_slice(last).expect(rt, "memory");
    bytes
}

/// Checks what was printed.
fn prints(rt: &impl Abort, printed: &Printed, answer: Result<(), FileError>, lines: &[u8]) {
    equal(rt, printed.0, answer);
    equal(rt, printed.1.as_slice(), lines);
}

#[test]
fn a_thread_is_listed_with_the_sums_of_its_frames(rt: HostRuntime) {
    let printed = threads_of(&rt, &FILE, Form::Table);
    prints(&rt, &printed, Ok(()), THREADS);
    let object =
        b"[{\"frames\":2,\"scopes\":2,\"bytes\":67,\"start\":100,\"duration\":301,\"thread\":\"100:main\"}]\n";
    prints(&rt, &threads_of(&rt, &FILE, Form::Json), Ok(()), object);
}

#[test]
fn each_frame_is_listed(rt: HostRuntime) {
    let printed = frames_of(&rt, &FILE, None, Form::Table);
    prints(&rt, &printed, Ok(()), FRAMES);
    let printed = frames_of(&rt, &FILE, None, Form::Json);
    prints(&rt, &printed, Ok(()), FRAMES_JSON);
}

#[test]
fn the_slowest_frames_come_first(rt: HostRuntime) {
    let printed = slowest_of(&rt, &FILE, 3, Form::Json);
    prints(&rt, &printed, Ok(()), FRAMES_JSON);
    let first = &FRAMES[..SECOND_LINE];
    let printed = slowest_of(&rt, &FILE, 1, Form::Table);
    prints(&rt, &printed, Ok(()), first);
}

#[test]
fn what_stands_before_a_fault_is_listed(rt: HostRuntime) {
    let cut = &FILE[..ONE_FRAME + 20];
    let truncated = Err(FileError::Truncated);
    let printed = frames_of(&rt, cut, None, Form::Table);
    prints(&rt, &printed, truncated, &FRAMES[..SECOND_LINE]);
    let closed = joined(&rt, &FRAMES_JSON[..SECOND_OBJECT], b"]\n");
    let printed = frames_of(&rt, cut, None, Form::Json);
    prints(&rt, &printed, truncated, closed.as_slice());
    let printed = threads_of(&rt, cut, Form::Table);
    prints(&rt, &printed, truncated, FIRST_THREADS);
}

#[test]
fn a_name_that_the_last_frame_lists_is_known_in_all(rt: HostRuntime) {
    let details = b"\x0c\0\0\0\x01\x01\x01\x01\x04late\0\0\0";
    let file = joined(&rt, &FILE[..FILE.len() - 5], details);
    let folded = folded_of(&rt, file.as_slice(), None);
    equal(&rt, folded.1.as_slice(), b"late 201\n");
}

#[test]
fn a_frame_is_a_tree(rt: HostRuntime) {
    let thread = main_thread(&rt, Some(100));
    let printed = frame_of(&rt, 1, Some(thread));
    equal(&rt, printed.0, Ok(true));
    let lines =
        b"frame 1 range 400 401 duration 1 ns\n       start    duration   share  thread 100:main\n\
        \x20       0 ns        1 ns  100.0%  #1 (a)\n";
    equal(&rt, printed.1.as_slice(), lines);
    equal(&rt, frame_of(&rt, 2, None).0, Ok(false));
    let other = main_thread(&rt, None);
    equal(&rt, frame_of(&rt, 1, Some(other)).0, Ok(false));
}

#[test]
fn a_trace_has_each_frame_thread_and_scope(rt: HostRuntime) {
    prints(&rt, &trace_of(&rt, &FILE), Ok(()), TRACE);
    let truncated = Err(FileError::Truncated);
    let cut = trace_of(&rt, &FILE[..ONE_FRAME + 20]);
    let closed = joined(&rt, &TRACE[..SECOND_FRAME], b"\n]}\n");
    prints(&rt, &cut, truncated, closed.as_slice());
}

#[test]
fn a_path_has_its_own_time_in_all_frames(rt: HostRuntime) {
    let thread = main_thread(&rt, Some(100));
    let printed = folded_of(&rt, &FILE, Some(thread));
    equal(&rt, printed.0, Ok(true));
    equal(&rt, printed.1.as_slice(), b"#1 201\n");
    let other = main_thread(&rt, None);
    equal(&rt, folded_of(&rt, &FILE, Some(other)).0, Ok(false));
    let cut = folded_of(&rt, &FILE[..ONE_FRAME + 20], None);
    equal(&rt, cut.0, Err(FileError::Truncated));
    equal(&rt, cut.1.len(), 0);
}

#[test]
fn a_name_has_the_times_of_its_scopes(rt: HostRuntime) {
    let mut top = top_of(&rt, &FILE, false).expect(&rt, "a file");
    equal(&rt, (top.whole, top.frames), (201, 2));
    equal(&rt, text_of(&rt, &top, Form::Table).as_slice(), TABLE);
    equal(&rt, text_of(&rt, &top, Form::Json).as_slice(), ROWS);
    top.sort_by(By::Calls, 0).expect(&rt, "memory");
    equal(&rt, top.rows.len(), 0);
    let cut = top_of(&rt, &FILE[..ONE_FRAME + 20], false);
    equal(&rt, cut.err(), Some(FileError::Truncated));
}

#[test]
fn a_slow_frame_has_its_heaviest_path(rt: HostRuntime) {
    let lines = b"frame 0: 200 ns, scopes 1\n      200 ns  100.0%  #1\n";
    let printed = slow_frames_of(&rt, &FILE, 1, Form::Table);
    prints(&rt, &printed, Ok(()), lines);
    let object =
        b"[{\"frame\":0,\"duration\":200,\"scopes\":1,\"path\":[{\"time\":200,\"share\":100.0,\"name\":\"#1\"}]}]\n";
    let printed = slow_frames_of(&rt, &FILE, 1, Form::Json);
    prints(&rt, &printed, Ok(()), object);
    let cut = slow_frames_of(&rt, &FILE[..ONE_FRAME + 20], 1, Form::Json);
    prints(&rt, &cut, Err(FileError::Truncated), b"");
}

#[test]
fn texts_are_kept_apart(rt: HostRuntime) {
    let mut top = top_of(&rt, &FILE, true).expect(&rt, "a file");
    top.sort_by(By::Own, 9).expect(&rt, "memory");
    equal(&rt, text_of(&rt, &top, Form::Table).as_slice(), TEXTS);
}

#[test]
fn a_name_has_what_it_takes_in_each_frame_of_two_files(rt: HostRuntime) {
    let new = top_of(&rt, &FILE, false).expect(&rt, "a file");
    let mut diff = compare(rt.alloc(), &first_top(&rt), &new).expect(&rt, "memory");
    diff.sort(9).expect(&rt, "memory");
    let table = changes_of(&rt, &diff, Form::Table);
    equal(&rt, table.as_slice(), CHANGES);
    let json = changes_of(&rt, &diff, Form::Json);
    equal(&rt, json.as_slice(), CHANGES_JSON);
    equal(&rt, diff.grows_above(0), false);
    let back = compare(rt.alloc(), &new, &first_top(&rt)).expect(&rt, "memory");
    equal(
        &rt,
        (back.grows_above(99), back.grows_above(100)),
        (true, false),
    );
}

#[test]
fn names_that_one_file_has_are_compared_with_nothing(rt: HostRuntime) {
    let new = top_of(&rt, &FILE, true).expect(&rt, "a file");
    let mut diff = compare(rt.alloc(), &first_top(&rt), &new).expect(&rt, "memory");
    equal(&rt, diff.rows.len(), 3);
    let owns = |place: usize| match diff.rows.get(place) {
        Some(row) => (row.old.map(|part| part.own), row.new.map(|part| part.own)),
        None => (None, None),
    };
    equal(&rt, owns(0), (Some(200), None));
    equal(&rt, owns(1), (None, Some(100)));
    equal(&rt, owns(2), (None, Some(0)));
    equal(&rt, diff.grows_above(1_000_000), true);
    diff.sort(1).expect(&rt, "memory");
    equal(&rt, diff.rows.len(), 1);
}

#[test]
fn frames_are_chosen_by_their_indices(rt: HostRuntime) {
    let second = Some(Indices::only(1));
    let printed = frames_of(&rt, &FILE, second, Form::Table);
    let lines = joined(&rt, &FRAMES[..FIRST_LINE], &FRAMES[SECOND_LINE..]);
    prints(&rt, &printed, Ok(()), lines.as_slice());
}

#[test]
fn a_thread_is_found_by_its_text_or_its_name(rt: HostRuntime) {
    let thread = main_thread(&rt, Some(100));
    for word in &["100:main", "main", "ma*"] {
        let found = named(&rt, word);
        equal(&rt, found.len(), 1);
        equal(&rt, found.first(), Some(&thread));
    }
    equal(&rt, named(&rt, "-:main").len(), 0);
    equal(&rt, named(&rt, "an*").len(), 0);
}
