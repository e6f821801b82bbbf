use crate::equal::equal;
use puffin_data::data::ScopeId;
use puffin_data::{Error, Result};
use puffin_threads::scope_details::{ScopeCollection, ScopeDetails, ScopeIds, ScopeType};
use std::alloc::Global;
use std::borrow::CowStr;
use std::process::Abort;
use std::sync::Arc;
use std::thread;
use tests_support::streams::id;
use tests_support::threads::named;

/// A function at a line of `b.rs`.
fn function(line_nr: u32) -> ScopeDetails {
    ScopeDetails::default()
        .with_function_name(CowStr::Borrowed("f"))
        .with_file(CowStr::Borrowed("b.rs"))
        .with_line_nr(line_nr)
}

#[test]
fn a_file_and_its_line(rt: HostRuntime) {
    equal(
        &rt,
        function(7)
            .location(rt.alloc())
            .expect(&rt, "a text")
            .as_str(),
        "b.rs:7",
    );
    equal(
        &rt,
        function(0)
            .location(rt.alloc())
            .expect(&rt, "a text")
            .as_str(),
        "b.rs",
    );
}

/// What details say of the kind of scope, its name, and its id.
fn facts<'d>(details: &'d ScopeDetails) -> (ScopeType, &'d str, Option<ScopeId>) {
    (
        details.scope_type(),
        details.name().as_str(),
        details.scope_id(),
    )
}

#[test]
fn kinds_of_scopes(rt: HostRuntime) {
    equal(&rt, ScopeType::Function.type_str(), "function scope");
    equal(&rt, ScopeType::Named.type_str(), "named");
    assert!(rt; ScopeType::Function < ScopeType::Named);
}

#[test]
fn a_function_and_a_scope_in_it(rt: HostRuntime) {
    let whole = function(7);
    equal(&rt, facts(&whole), (ScopeType::Function, "f", None));
    let name = String::from_str(rt.alloc(), "part").expect(&rt, "memory");
    let part = ScopeDetails::from_scope_name(CowStr::Owned(name))
        .with_function_name(CowStr::Borrowed("f"))
        .with_scope_id(id(3).expect(&rt, "an id"));
    equal(
        &rt,
        facts(&part),
        (ScopeType::Named, "part", Some(id(3).expect(&rt, "an id"))),
    );
    equal(
        &rt,
        (
            part.function_name.as_str(),
            part.file_path.as_str(),
            part.line_nr,
        ),
        ("f", "", 0),
    );
}

/// Whether the first stands before the second, and isn't equal to it.
fn is_before(first: &ScopeDetails, second: &ScopeDetails) -> bool {
    first < second && first != second
}

/// Details without an id stand before those with one, and before those with a name.
fn are_in_order(rt: &impl Abort, first: ScopeId, second: ScopeId) {
    let without = function(7);
    let with = function(7).with_scope_id(first);
    let next = function(0).with_scope_id(second);
    let name = ScopeDetails::from_scope_name(CowStr::Borrowed("a"));
    equal(rt, is_before(&function(0), &without), true);
    equal(rt, is_before(&without, &with), true);
    equal(rt, is_before(&with, &next), true);
    equal(rt, is_before(&without, &name), true);
}

/// Details are those of their copy.
fn has_copy(rt: &impl Abort, details: ScopeDetails) {
    let copy = details.clone().expect(rt, "memory");
    equal(rt, details, copy);
}

#[test]
fn details_in_order(rt: HostRuntime) {
    let (first, second) = (id(1).expect(&rt, "an id"), id(2).expect(&rt, "an id"));
    are_in_order(&rt, first, second);
    has_copy(&rt, function(7));
    has_copy(&rt, function(7).with_scope_id(first));
}

/// Inserts a named scope, after which the details that are kept have its number and a name that is expected.
fn is_inserted(
    rt: &impl Abort,
    scopes: &mut ScopeCollection,
    alloc: Global,
    scope: (u32, &'static str),
    expected: &str,
) {
    let kept = scopes
        .insert(named(alloc, scope.0, scope.1).expect(rt, "details"))
        .expect(rt, "an id");
    equal(
        rt,
        (kept.name().as_str(), kept.scope_id()),
        (expected, ScopeId::new(scope.0)),
    );
}

/// The name that a collection has under an id.
fn name_of<'s>(scopes: &'s ScopeCollection, number: u32) -> Option<&'s str> {
    let id = ScopeId::new(number)?;
    Some(scopes.fetch_by_id(&id)?.name().as_str())
}

/// The number that a collection has under a name.
fn number_of(scopes: &ScopeCollection, name: &str) -> Option<u32> {
    Some(scopes.fetch_by_name(name)?.get())
}

/// How many details a collection has by id and by name.
fn sizes(scopes: &ScopeCollection) -> (usize, usize) {
    (scopes.scopes_by_id().len(), scopes.scopes_by_name().len())
}

#[test]
fn first_by_id_and_last_by_name(rt: HostRuntime) {
    let mut scopes = ScopeCollection::new(rt.alloc());
    equal(&rt, name_of(&scopes, 1), None);
    for scope in &[(1, "a"), (1, "b"), (2, "a")] {
        is_inserted(&rt, &mut scopes, rt.alloc(), *scope, "a");
    }
    equal(&rt, name_of(&scopes, 1), Some("a"));
    for (name, number) in &[("a", Some(2)), ("b", Some(1)), ("c", None)] {
        equal(&rt, number_of(&scopes, name), *number);
    }
    equal(&rt, sizes(&scopes), (2, 2));
}

#[test]
fn details_without_an_id_are_refused(rt: HostRuntime) {
    let mut scopes = ScopeCollection::new(rt.alloc());
    let details = Arc::new(rt.alloc(), function(7)).expect(&rt, "memory");
    equal(&rt, scopes.insert(details).err(), Some(Error::MissingId));
    equal(&rt, sizes(&scopes), (0, 0));
}

/// Named scopes with these numbers.
fn all_named(alloc: Global, scopes: &[(u32, &'static str)]) -> Result<Vec<Arc<ScopeDetails>>> {
    let mut details = Vec::new(alloc);
    for (number, name) in scopes {
        details.push(named(alloc, *number, *name)?)?;
    }
    Ok(details)
}

#[test]
fn details_are_inserted_in_order(rt: HostRuntime) {
    let details = all_named(rt.alloc(), &[(1, "a"), (1, "b"), (2, "a")]).expect(&rt, "details");
    let mut scopes = ScopeCollection::new(rt.alloc());
    scopes.insert_all(&details).expect(&rt, "ids");
    equal(
        &rt,
        (name_of(&scopes, 1), number_of(&scopes, "a")),
        (Some("a"), Some(2)),
    );
    equal(&rt, sizes(&scopes), (2, 2));
}

#[test]
fn of_details_without_an_id_none_are_inserted(rt: HostRuntime) {
    let mut details = all_named(rt.alloc(), &[(3, "c")]).expect(&rt, "details");
    details
        .push(Arc::new(rt.alloc(), function(7)).expect(&rt, "memory"))
        .expect(&rt, "memory");
    let mut scopes = ScopeCollection::new(rt.alloc());
    is_inserted(&rt, &mut scopes, rt.alloc(), (1, "a"), "a");
    equal(
        &rt,
        scopes.insert_all(&details).err(),
        Some(Error::MissingId),
    );
    equal(&rt, sizes(&scopes), (1, 1));
}

#[test]
fn a_copy_of_a_collection(rt: HostRuntime) {
    let mut scopes = ScopeCollection::new(rt.alloc());
    is_inserted(&rt, &mut scopes, rt.alloc(), (1, "a"), "a");
    let copy = scopes.clone().expect(&rt, "memory");
    is_inserted(&rt, &mut scopes, rt.alloc(), (2, "a"), "a");
    equal(&rt, sizes(&copy).0, 1);
    equal(
        &rt,
        (number_of(&copy, "a"), number_of(&scopes, "a")),
        (Some(1), Some(2)),
    );
}

#[test]
fn ids_rise_from_1(rt: HostRuntime) {
    let ids = ScopeIds::new();
    equal(
        &rt,
        (
            ids.draw().expect(&rt, "an id").get(),
            ids.draw().expect(&rt, "an id").get(),
        ),
        (1, 2),
    );
    equal(
        &rt,
        ScopeIds::default().draw().expect(&rt, "an id").get(),
        1,
    );
}

#[test]
fn the_last_id(rt: HostRuntime) {
    let ids = ScopeIds::starting_at(4294967295);
    equal(&rt, ids.draw().expect(&rt, "an id").get(), 4294967295);
    equal(&rt, ids.draw().err(), Some(Error::IdsExhausted));
    equal(&rt, ids.draw().err(), Some(Error::IdsExhausted));
}

#[test]
fn the_number_0_is_no_id(rt: HostRuntime) {
    let ids = ScopeIds::starting_at(0);
    equal(&rt, ids.draw().err(), Some(Error::IdsExhausted));
    equal(&rt, ids.draw().expect(&rt, "an id").get(), 1);
}

/// The sum of so many ids, or `None` where one isn't above the one before it.
fn sum_of_rising(ids: &ScopeIds, draws: u32) -> Option<u64> {
    let mut sum = 0_u64;
    let mut last = 0;
    for _ in 0..draws {
        let number = ids.draw().ok()?.get();
        if number <= last {
            return None;
        }
        last = number;
        sum = sum.checked_add(u64::from(number))?;
    }
    Some(sum)
}

/// The sums of what both threads drew are those of 1 to 2,000 only where each number was drawn once.
#[test]
fn two_threads_draw_different_ids(rt: HostRuntime) {
    let ids = ScopeIds::new();
    let (mine, theirs) = thread::join(
        &rt,
        || sum_of_rising(&ids, 1000),
        || sum_of_rising(&ids, 1000),
    );
    equal(
        &rt,
        mine.zip(theirs)
            .map(|(mine, theirs)| mine.checked_add(theirs)),
        Some(Some(2_001_000)),
    );
    equal(&rt, ids.draw().expect(&rt, "an id").get(), 2001);
}
