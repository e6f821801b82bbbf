//! Shortening the names of functions and files.

use crate::timing::Work;
use puffin::utils::{clean_function_name, short_file_name};
use puffin_data::Result;
use std::alloc::Global;

/// How often a run goes over its table.
const TIMES: usize = 100;

/// The names of functions that are shortened.
const FUNCTIONS: [&str; 7] = [
    "",
    "foo::f",
    "foo::bar::f",
    "foo::bar::baz::f",
    "a::b::c::{{closure}}::{{closure}}::f",
    "some::GenericThing<_, _>::function_name::f",
    "user scope",
];

/// The paths of files that are shortened.
const FILES: [&str; 11] = [
    "",
    "foo.rs",
    "/Users/emilk/.cargo/registry/src/github.com-1ecc6299db9ec823/tokio-1.24.1/src/runtime/runtime.rs",
    "foo/bar.rs",
    "foo/bar/baz.rs",
    "crates/cratename/src/main.rs",
    "crates\\cratename\\src\\main.rs",
    "workspace/cratename/examples/hello_world.rs",
    "/rustc/d5a82bbd26e1ad8b7401f6a718a9c57c96905483/library/core/src/ops/function.rs",
    "src/a/b/c.rs",
    "a/b/src",
];

/// A kind of work with names.
#[derive(Clone, Copy)]
pub enum NameWork {
    /// Names of functions.
    Functions,
    /// Names of files.
    Files,
}

impl NameWork {
    /// Every kind of work.
    pub const ALL: [NameWork; 2] = [NameWork::Functions, NameWork::Files];

    /// Returns the name under which the time is printed.
    pub fn name(self) -> &'static str {
        match self {
            NameWork::Functions => "clean_function_name",
            NameWork::Files => "short_file_name",
        }
    }

    /// Returns the short form of a name.
    fn shortened(self, alloc: Global, name: &str) -> Result<String> {
        match self {
            NameWork::Functions => clean_function_name(alloc, name),
            NameWork::Files => short_file_name(alloc, name),
        }
    }

    /// Goes over the table a number of times, and shortens each name. Returns how many were shortened.
    #[inline(never)]
    fn run(self, alloc: Global) -> Result<usize> {
        let table: &[&str] = match self {
            NameWork::Functions => &FUNCTIONS,
            NameWork::Files => &FILES,
        };
        let mut names: usize = 0;
        for _ in 0..TIMES {
            for name in table {
                let short = self.shortened(alloc, name)?;
                if name.is_empty() || !short.is_empty() {
                    names = names.wrapping_add(1);
                }
            }
        }
        Ok(names)
    }
}

/// Shortens the names of one kind.
#[derive(Drop)]
pub struct Shortening {
    pub alloc: Global,
    pub work: NameWork,
}

impl Work for Shortening {
    fn run(&mut self) -> anyhow::Result<usize> {
        Ok(self.work.run(self.alloc)?)
    }
}
