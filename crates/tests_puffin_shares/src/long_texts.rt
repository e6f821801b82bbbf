//! A thread with long texts behind the lock: what is handed out has its form, and its texts whole.

ghost use Rattle.std.specs.Prelude.{◌≡◌, IfOk};
ghost use Rattle.puffin_data.specs.Forest.{Forest};
ghost use Rattle.puffin_data.specs.Honesty.{IsHonest};

use crate::equal::equal;
use crate::shares;
use crate::shares::{next_frame, opened};
use puffin::data::{Form, Reader, Scope, ScopeId, Stream, StreamInfo};
use puffin::frame_data::FrameData;
use puffin::global_profiler::{Event, GlobalProfiler, History, NewLog, Share, SharedProfiler};
use std::alloc::Global;
use std::marker::Brand;
use std::process::Abort;
use std::sync::Wait;
use std::sync::ledger::{Blank, Ledger};
use tests_support::streams::id;
use tests_support::threads::thread_info;

/// A text of 128 bytes, one more than the short form keeps.
const TEXT: &str = "0123456789abcdef0123456789abcdef0123456789abcdef0123456789abcdef\
    0123456789abcdef0123456789abcdef0123456789abcdef0123456789abcdef";

/// One scope of the caller's own, in a stream of long texts.
fn own_scope(alloc: Global, id: ScopeId) -> puffin::Result<StreamInfo>
    ensures { IfOk result (λ info. (f : Forest) × IsHonest info f) }
{
    let mut stream = Stream::with_form(alloc, Form::Long);
    let scope = stream.begin_scope_at(100, id, "own")?;
    stream.end_scope(scope, 250)?;
    StreamInfo::parse(alloc, stream)
}

/// Whether scopes have just these texts, in their order.
fn have_texts(scopes: &[Scope<'_>], texts: &[&str]) -> bool {
    let mut rest = texts.iter();
    for scope in scopes {
        if rest.next() != Some(&scope.rec.text) {
            return false;
        }
    }
    rest.next().is_none()
}

/// Whether a frame has under a name a stream of long texts, whose top scopes have just these.
fn has_long(alloc: Global, frame: &FrameData, name: &str, texts: &[&str]) -> puffin::Result<bool> {
    let Some(unpacked) = frame.as_unpacked() else {
        return Ok(false);
    };
    for (thread, info) in &unpacked.thread_streams {
        if thread.name.as_str() == name {
            let scopes = Reader::from_start(&info.stream).read_top_scopes(alloc)?;
            return Ok(info.stream.form() == Form::Long && have_texts(&scopes, texts));
        }
    }
    Ok(false)
}

/// Reports a scope of the caller's own.
fn user_scope<L: Ledger + History, M: Ledger, R: Wait + Abort>(
    rt: &R,
    alloc: Global,
    profiler: &SharedProfiler<L, M>,
    share: &mut Share<L, M>,
) {
    let id = id(1).expect(rt, "an id");
    let own = own_scope(alloc, id).expect(rt, "a scope");
    let user = thread_info(alloc, None, "user").expect(rt, "memory");
    profiler
        .report_user_scopes(rt, share, user, &own.as_stream_into_ref())
        .expect(rt, "a report");
}

/// A frame of these three scopes.
fn handed_out<R: Abort>(rt: &R, alloc: Global, frame: &FrameData) {
    equal(rt, frame.meta().num_scopes, 3);
    assert!(rt; has_long(alloc, frame, "main", &["load", TEXT]).expect(rt, "scopes"));
    assert!(rt; has_long(alloc, frame, "user", &["own"]).expect(rt, "scopes"));
}

/// A thread's two scopes, one with a text that both forms write in one way, and one of the caller's own, in one frame.
fn in_one_frame<L: Ledger + History, M: Ledger, R: Wait + Abort + Copy + Drop>(
    rt: R,
    alloc: Global,
    profiler: &SharedProfiler<L, M>,
    share: Share<L, M>,
) {
    let id = id(1).expect(&rt, "an id");
    let texts = ["load", TEXT];
    let mut share = shares::reported(rt, alloc, profiler, share, Form::Long, id, &texts);
    user_scope(&rt, alloc, profiler, &mut share);
    let frame = next_frame(&rt, profiler, &mut share);
    handed_out(&rt, alloc, &frame);
}

/// The same of a new profiler.
fn reported<L: Ledger + History, M: Ledger, R: Wait + Abort + Copy + Drop>(
    rt: R,
    alloc: Global,
    reported: Blank,
    handed: Blank,
    log: NewLog<Event>,
)
    requires reported { (reported.name ≡ L.name)
        × (reported.parts ≡ L.parts)
        × (reported.parts ≡ 1) }
    requires handed { (handed.name ≡ M.name) × (handed.parts ≡ M.parts) × (handed.parts ≡ 1) }
    requires log { log.name ≡ L.history }
{
    let none = GlobalProfiler::new(alloc);
    let (profiler, share, _) = opened::<L, M>(&rt, alloc, none, 1, reported, handed, log);
    in_one_frame(rt, alloc, &profiler, share);
}

#[test]
fn long_texts_are_handed_out_whole(rt: HostRuntime) {
    reported::<Brand, Brand, HostRuntime>(
        rt,
        rt.alloc(),
        Blank::new(1),
        Blank::new(1),
        NewLog::new(),
    );
}
