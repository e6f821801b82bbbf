use crate::equal::equal;
use crate::program::{counts, main_thread, next_frame};
use puffin::data::ScopeId;
use puffin::frame_data::FrameData;
use puffin::global_profiler::GlobalProfiler;
use puffin::scope_details::ScopeIds;
use puffin::thread_profiler::{ScriptClock, ThreadProfiler};
use puffin::{Error, ProfilerScope, Result, Site};
use std::alloc::Global;
use std::borrow::CowStr;
use std::process::Abort;
use std::sync::{Arc, Barrier, Wait};
use std::thread;

/// A scope's name, its function, its file and its line.
type Place<'d> = (&'d str, &'d str, &'d str, u32);

/// The place of the only scope of which a frame tells, and its id.
fn only_place<'f>(frame: &'f FrameData) -> Option<(Place<'f>, Option<ScopeId>)> {
    let [details] = frame.scope_delta.as_slice() else {
        return None;
    };
    let place = (
        details.name().as_str(),
        details.function_name.as_str(),
        details.file_path.as_str(),
        details.line_nr,
    );
    Some((place, details.scope_id()))
}

/// The frame of one scope with this id.
fn frame_of(
    rt: &impl Abort,
    thread: &mut ThreadProfiler<ScriptClock>,
    profiler: &mut GlobalProfiler,
    id: ScopeId,
) -> Arc<FrameData> {
    let guard = ProfilerScope::new(thread, id, "").expect(rt, "memory");
    let _closed = guard.end(profiler).expect(rt, "a scope");
    next_frame(rt, profiler)
}

/// Checks that the frame of one scope with this id lists this place alone.
fn is_of_place(
    rt: &impl Abort,
    thread: &mut ThreadProfiler<ScriptClock>,
    profiler: &mut GlobalProfiler,
    id: ScopeId,
    place: Place<'_>,
) {
    let frame = frame_of(rt, thread, profiler, id);
    equal(rt, counts(&frame), (1, 31, 1));
    // (no call takes these texts by value)
    assert_eq!(rt; only_place(&frame), Some((place, Some(id))));
}

/// Both calls for a place return the first id.
fn registered_once(
    rt: &impl Abort,
    thread: &mut ThreadProfiler<ScriptClock>,
    site: &Site,
) -> ScopeId {
    let ids = ScopeIds::new();
    let first = site
        .function_id(thread, &ids, "shop::basket::add::f")
        .expect(rt, "an id");
    let again = site
        .function_id(thread, &ids, "shop::basket::add::f")
        .expect(rt, "an id");
    equal(rt, (first.get(), again.get()), (1, 1));
    equal(rt, ids.draw().expect(rt, "an id").get(), 2);
    first
}

#[test]
fn a_place_is_registered_once(rt: HostRuntime) {
    let mut profiler = GlobalProfiler::new(rt.alloc());
    let mut thread = main_thread(rt.alloc()).expect(&rt, "memory");
    let site = Site::new("crates/shop/src/basket/add.rs", 7);
    let first = registered_once(&rt, &mut thread, &site);
    let place = ("basket::add", "basket::add", "shop/…/add.rs", 7);
    is_of_place(&rt, &mut thread, &mut profiler, first, place);
}

/// Both calls for a place return the first id, as its name isn't read again.
fn named_once(rt: &impl Abort, thread: &mut ThreadProfiler<ScriptClock>, site: &Site) -> ScopeId {
    let ids = ScopeIds::new();
    let first = site
        .named_id(thread, &ids, "add", CowStr::Borrowed("sum"))
        .expect(rt, "an id");
    let other = CowStr::Borrowed("unread");
    equal(rt, site.named_id(thread, &ids, "add", other), Ok(first));
    first
}

#[test]
fn a_scope_with_a_name(rt: HostRuntime) {
    let mut profiler = GlobalProfiler::new(rt.alloc());
    let mut thread = main_thread(rt.alloc()).expect(&rt, "memory");
    let first = named_once(&rt, &mut thread, &Site::new("src/add.rs", 9));
    let place = ("sum", "add", "src/add.rs", 9);
    is_of_place(&rt, &mut thread, &mut profiler, first, place);
}

#[test]
fn places_have_ids_of_their_own(rt: HostRuntime) {
    let mut thread = main_thread(rt.alloc()).expect(&rt, "memory");
    let ids = ScopeIds::new();
    let (one, other) = (Site::new("a.rs", 1), Site::new("a.rs", 1));
    let first = one.function_id(&mut thread, &ids, "f").expect(&rt, "an id");
    assert!(rt;
        other
            .function_id(&mut thread, &ids, "f")
            .expect(&rt, "an id")
            != first
    );
}

#[test]
fn a_refused_place_is_fresh_still(rt: HostRuntime) {
    let mut thread = main_thread(rt.alloc()).expect(&rt, "memory");
    let site = Site::new("a.rs", 1);
    let none = ScopeIds::starting_at(4_294_967_296);
    let refused = site.function_id(&mut thread, &none, "f");
    equal(&rt, refused.err(), Some(Error::IdsExhausted));
    let ids = ScopeIds::starting_at(5);
    equal(
        &rt,
        site.function_id(&mut thread, &ids, "f")
            .expect(&rt, "an id")
            .get(),
        5,
    );
}

/// The id that a thread of its own has of a place, once all threads have come.
fn id_at_once(
    rt: &impl Wait,
    alloc: Global,
    all: &Barrier,
    site: &Site,
    ids: &ScopeIds,
) -> Result<u32> {
    let mut thread = main_thread(alloc)?;
    all.wait(rt);
    Ok(site.function_id(&mut thread, ids, "f")?.get())
}

#[test]
fn two_threads_at_a_fresh_place_use_one_id(rt: HostRuntime) {
    let alloc = rt.alloc();
    for _ in 0..100 {
        let site = Site::new("a.rs", 7);
        let ids = ScopeIds::new();
        let all = Barrier::new(2);
        let (one, other) = thread::join(
            &rt,
            || id_at_once(&rt, alloc, &all, &site, &ids),
            || id_at_once(&rt, alloc, &all, &site, &ids),
        );
        equal(&rt, one.expect(&rt, "an id"), other.expect(&rt, "an id"));
    }
}
