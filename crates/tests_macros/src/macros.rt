use crate::equal::equal;
use crate::program::{Scopes, counted, counts, main_thread, next_frame};
use puffin::global_profiler::GlobalProfiler;
use puffin::scope_details::ScopeIds;
use puffin::thread_profiler::{Closed, NsSource, ScriptClock, ThreadProfiler};
use puffin::{
    Error, Result, profile_function, profile_function_if, profile_scope, profile_scope_custom,
    profile_scope_custom_if, profile_scope_if,
};
use std::borrow::CowStr;
use std::cell::Cell;
use std::process::Abort;

type Thread = ThreadProfiler<ScriptClock>;

/// Two places under a condition, with the switch on or off. How often the condition was evaluated.
fn evaluated(
    rt: &impl Abort,
    thread: &mut Thread,
    scopes: &Scopes,
    profiler: &mut GlobalProfiler,
    on: bool,
) -> Result<u32> {
    let (ids, asked) = (&scopes.ids, Cell::new(0));
    scopes.switch.set_scopes_on(on);
    profile_scope_if!(
        guard,
        counted(&asked),
        thread,
        scopes.switch,
        ids,
        scopes.here,
        "f",
        "part"
    );
    equal(rt, guard.offset().is_some(), on);
    equal(rt, guard.end(profiler)?.is_some(), on);
    profile_function_if!(
        whole,
        counted(&asked),
        thread,
        scopes.switch,
        ids,
        scopes.there,
        "f"
    );
    equal(rt, whole.end(profiler)?.is_some(), on);
    Ok(asked.get())
}

#[test]
fn a_condition_is_evaluated_while_the_switch_is_on(rt: HostRuntime) {
    let mut thread = main_thread(rt.alloc()).expect(&rt, "memory");
    let mut profiler = GlobalProfiler::new(rt.alloc());
    let scopes = Scopes::on();
    for (on, times) in &[(false, 0), (true, 2)] {
        let asked = evaluated(&rt, &mut thread, &scopes, &mut profiler, *on);
        equal(&rt, asked, Ok(*times));
    }
    equal(&rt, profiler.totals().pending, 2);
}

/// A function's scope under a condition that fails.
fn failed(rt: &impl Abort, thread: &mut Thread, scopes: &Scopes) {
    profile_function_if!(
        whole,
        false,
        thread,
        scopes.switch,
        &scopes.ids,
        scopes.here,
        "f",
        "text"
    );
    equal(rt, whole.offset(), None);
    equal(rt, whole.refusal(), None);
    equal(rt, scopes.ids.draw().expect(rt, "an id").get(), 1);
}

#[test]
fn a_condition_that_fails_leaves_the_guard_off(rt: HostRuntime) {
    failed(
        &rt,
        &mut main_thread(rt.alloc()).expect(&rt, "memory"),
        &Scopes::on(),
    );
}

#[test]
fn a_switch_is_off_at_first(rt: HostRuntime) {
    let switch = puffin::Switch::new();
    assert!(rt; !switch.are_scopes_on());
    switch.set_scopes_on(true);
    assert!(rt; switch.are_scopes_on());
    switch.set_scopes_on(false);
    assert!(rt; !switch.are_scopes_on());
}

/// One scope in another, as expressions and in the forms with and without a text.
fn nested<C: NsSource>(
    thread: &mut ThreadProfiler<C>,
    scopes: &Scopes,
    name: String,
    deep: bool,
) -> usize {
    let (switch, ids) = (&scopes.switch, &scopes.ids);
    profile_scope!(
        outer,
        thread,
        switch,
        ids,
        scopes.here,
        "f",
        "outer",
        "text"
    );
    let depth = {
        let _inner = profile_scope_custom!(outer.profiler(), switch, ids, scopes.there, "f", name);
        0
    };
    let other = CowStr::Borrowed("other");
    let mut last = profile_scope_custom_if!(
        deep,
        outer.profiler(),
        switch,
        ids,
        scopes.there,
        "f",
        other,
        "more",
    );
    depth + last.profiler().depth()
}

/// Makes the nest in a frame of its own. Returns the frame's numbers of scopes, bytes and listed scopes.
fn nest_in_frame(
    rt: &impl Abort,
    thread: &mut Thread,
    scopes: &Scopes,
    profiler: &mut GlobalProfiler,
    name: String,
    deep: bool,
) -> (usize, usize, usize) {
    equal(
        rt,
        nested(thread, scopes, name, deep),
        1 + usize::from(deep),
    );
    equal(rt, thread.report_closed(profiler), Ok(true));
    counts(&*next_frame(rt, profiler))
}

#[test]
fn scopes_as_expressions(rt: HostRuntime) {
    let mut thread = main_thread(rt.alloc()).expect(&rt, "memory");
    let mut profiler = GlobalProfiler::new(rt.alloc());
    let scopes = Scopes::on();
    for (deep, expected) in &[(true, (3, 101, 2)), (false, (2, 66, 0))] {
        let name = String::from_str(rt.alloc(), "inner").expect(&rt, "memory");
        let counts = nest_in_frame(&rt, &mut thread, &scopes, &mut profiler, name, *deep);
        equal(&rt, counts, *expected);
    }
}

/// A function's scope whose place has no id.
fn refused(rt: &impl Abort, thread: &mut Thread, scopes: &Scopes, profiler: &mut GlobalProfiler) {
    let none = ScopeIds::starting_at(4_294_967_296);
    profile_function!(guard, thread, scopes.switch, &none, scopes.here, "f");
    equal(rt, guard.refusal(), Some(Error::IdsExhausted));
    equal(rt, guard.offset(), None);
    equal(rt, guard.end(profiler), Ok(None));
}

#[test]
fn a_refusal_is_told(rt: HostRuntime) {
    let mut thread = main_thread(rt.alloc()).expect(&rt, "memory");
    let mut profiler = GlobalProfiler::new(rt.alloc());
    refused(&rt, &mut thread, &Scopes::on(), &mut profiler);
}

/// A function's scope and one in it, beside names of the caller's own that the macros use within.
fn beside_names(
    rt: &impl Abort,
    thread: &mut Thread,
    scopes: &Scopes,
    global: &mut GlobalProfiler,
) {
    let (profiler, id) = ("text", "more");
    profile_function!(
        guard,
        thread,
        scopes.switch,
        &scopes.ids,
        scopes.here,
        "f",
        profiler
    );
    {
        let outer = guard.profiler();
        profile_scope!(
            guard,
            outer,
            scopes.switch,
            &scopes.ids,
            scopes.there,
            "f",
            "part",
            id
        );
        equal(rt, guard.end(global), Ok(Some(Closed::Inner)));
    }
    equal(rt, guard.end(global), Ok(Some(Closed::Reported)));
}

#[test]
fn names_of_the_caller_s_own_are_not_taken(rt: HostRuntime) {
    let mut thread = main_thread(rt.alloc()).expect(&rt, "memory");
    let mut global = GlobalProfiler::new(rt.alloc());
    beside_names(&rt, &mut thread, &Scopes::on(), &mut global);
    equal(&rt, counts(&*next_frame(&rt, &mut global)), (2, 70, 2));
}
