use crate::equal::equal;
use puffin::utils::{clean_function_name, short_file_name, shorten_rust_function_name};

#[test]
fn names_of_functions_that_ask_for_their_name(rt: HostRuntime) {
    let rows = [
        ("", ""),
        ("foo::f", "foo"),
        ("foo::bar::f", "foo::bar"),
        ("foo::bar::baz::f", "bar::baz"),
        ("a::b::c::{{closure}}::{{closure}}::f", "b::c"),
        (
            "some::GenericThing<_, _>::function_name::f",
            "GenericThing<_, _>::function_name",
        ),
        (
            "<some::ConcreteType as some::bloody::Trait>::function_name::f",
            "<ConcreteType as Trait>::function_name",
        ),
        ("user scope", "user scope"),
    ];
    for (name, expected) in rows {
        let short = clean_function_name(rt.alloc(), name).expect(&rt, "memory");
        equal(&rt, short.as_str(), expected);
    }
}

#[test]
fn names_of_functions(rt: HostRuntime) {
    let rows = [
        ("foo::bar::baz::function_name", "baz::function_name"),
        (
            "<some::ConcreteType as some::Trait>::function_name",
            "<ConcreteType as Trait>::function_name",
        ),
    ];
    for (name, expected) in rows {
        let short = shorten_rust_function_name(rt.alloc(), name).expect(&rt, "memory");
        equal(&rt, short.as_str(), expected);
    }
}

#[test]
fn names_of_files(rt: HostRuntime) {
    let rows = [
        ("", ""),
        ("foo.rs", "foo.rs"),
        (
            "/Users/emilk/.cargo/registry/src/github.com-1ecc6299db9ec823/tokio-1.24.1/src/runtime/runtime.rs",
            "tokio-1.24.1/…/runtime.rs",
        ),
        ("foo/bar.rs", "foo/bar.rs"),
        ("foo/bar/baz.rs", "bar/baz.rs"),
        ("crates/cratename/src/main.rs", "cratename/src/main.rs"),
        ("crates\\cratename\\src\\main.rs", "cratename/src/main.rs"),
        (
            "crates/cratename/src/module/lib.rs",
            "cratename/…/module/lib.rs",
        ),
        (
            "workspace/cratename/examples/hello_world.rs",
            "examples/hello_world.rs",
        ),
        (
            "/rustc/d5a82bbd26e1ad8b7401f6a718a9c57c96905483/library/core/src/ops/function.rs",
            "core/…/function.rs",
        ),
        ("src/a/b/c.rs", "src/…/c.rs"),
        ("a/b/src", "b/…/src"),
    ];
    for (path, expected) in rows {
        let short = short_file_name(rt.alloc(), path).expect(&rt, "memory");
        equal(&rt, short.as_str(), expected);
    }
}
