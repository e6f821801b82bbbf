//! Scopes with guards and macros, on a thread whose reports aren't kept. Its clock stays at one time, except in work that uses
//! the system's clock.

use crate::reports::Ignored;
use crate::scopes::{DEPTH, NESTS, SCOPES, TEXT};
use crate::timing::Work;
use puffin::data::ScopeId;
use puffin::scope_details::ScopeIds;
use puffin::thread_profiler::{NsSource, ScriptClock, ThreadProfiler};
use puffin::{ProfilerScope, Site, Switch, profile_function, profile_scope};
use puffin_data::Result;

type Thread = ThreadProfiler<ScriptClock>;

/// The switch, the ids and the places that the threads of a program share.
#[derive(Drop)]
pub struct Scopes {
    switch: Switch,
    ids: ScopeIds,
    part: Site,
    text: Site,
    function: Site,
}

impl Scopes {
    /// Makes places, with the switch on or off.
    pub fn new(on: bool) -> Scopes {
        let scopes = Scopes {
            switch: Switch::new(),
            ids: ScopeIds::new(),
            part: Site::new(module_path!(), 1),
            text: Site::new(module_path!(), 2),
            function: Site::new(module_path!(), 3),
        };
        scopes.switch.set_scopes_on(on);
        scopes
    }
}

/// Makes scopes that are switched off, one after the other.
#[inline(never)]
fn off(thread: &mut Thread, scopes: &Scopes) {
    for _ in 0..SCOPES {
        profile_scope!(
            _guard,
            thread,
            scopes.switch,
            &scopes.ids,
            scopes.part,
            "off",
            "part"
        );
    }
}

/// Makes named scopes, nested `depth` deep.
#[inline(never)]
fn named<C: NsSource>(thread: &mut ThreadProfiler<C>, scopes: &Scopes, depth: usize) {
    profile_scope!(
        guard,
        thread,
        scopes.switch,
        &scopes.ids,
        scopes.part,
        "named",
        "part"
    );
    if depth > 1 {
        named(guard.profiler(), scopes, depth - 1);
    }
}

/// Makes named scopes with a text, nested `depth` deep.
#[inline(never)]
fn named_with_text(thread: &mut Thread, scopes: &Scopes, text: &str, depth: usize) {
    profile_scope!(
        guard,
        thread,
        scopes.switch,
        &scopes.ids,
        scopes.text,
        "named_with_text",
        "part",
        text
    );
    if depth > 1 {
        named_with_text(guard.profiler(), scopes, text, depth - 1);
    }
}

/// Makes scopes of functions, nested `depth` deep.
#[inline(never)]
fn functions(thread: &mut Thread, scopes: &Scopes, depth: usize) {
    profile_function!(
        guard,
        thread,
        scopes.switch,
        &scopes.ids,
        scopes.function,
        "functions"
    );
    if depth > 1 {
        functions(guard.profiler(), scopes, depth - 1);
    }
}

/// Makes guards by hand, nested `depth` deep.
#[inline(never)]
fn guards(thread: &mut Thread, id: ScopeId, depth: usize) {
    let mut guard = ProfilerScope::open(thread, Ok(id), "");
    if depth > 1 {
        guards(guard.profiler(), id, depth - 1);
    }
}

/// Makes the nests of [`GuardWork::Named`] with any clock, and reports each at its end. Returns the number of reports.
#[inline(never)]
fn named_nests<C: NsSource>(thread: &mut ThreadProfiler<C>, scopes: &Scopes) -> Result<usize> {
    let mut reports: usize = 0;
    for _ in 0..NESTS {
        named(thread, scopes, DEPTH);
        if thread.report_closed(&mut Ignored)? {
            reports = reports.saturating_add(1);
        }
    }
    Ok(reports)
}

/// A kind of work with guards.
#[derive(Clone, Copy)]
pub enum GuardWork {
    /// Macro scopes while the switch is off.
    Off,
    /// Macro scopes with a name.
    Named,
    /// Macro scopes of functions.
    Functions,
    /// Macro scopes with a name and a text.
    Text,
    /// Guards made by hand.
    Guards,
}

impl GuardWork {
    /// Every kind of work.
    pub const ALL: [GuardWork; 5] = [
        GuardWork::Off,
        GuardWork::Named,
        GuardWork::Functions,
        GuardWork::Text,
        GuardWork::Guards,
    ];

    /// Returns the name under which the time is printed.
    pub fn name(self) -> &'static str {
        match self {
            GuardWork::Off => "macro_scope_off",
            GuardWork::Named => "macro_scope_on",
            GuardWork::Functions => "macro_function_on",
            GuardWork::Text => "macro_scope_text12",
            GuardWork::Guards => "guard_empty",
        }
    }

    /// Returns whether the switch is on.
    pub fn is_on(self) -> bool {
        !matches!(self, GuardWork::Off)
    }

    /// Makes one nest of scopes, or none for [`GuardWork::Off`].
    fn nest(self, thread: &mut Thread, scopes: &Scopes, id: ScopeId) {
        match self {
            GuardWork::Off => {}
            GuardWork::Named => named(thread, scopes, DEPTH),
            GuardWork::Functions => functions(thread, scopes, DEPTH),
            GuardWork::Text => named_with_text(thread, scopes, TEXT, DEPTH),
            GuardWork::Guards => guards(thread, id, DEPTH),
        }
    }

    /// Makes the scopes of a run, and reports each nest at its end. Returns the number of reports.
    #[inline(never)]
    fn run(self, thread: &mut Thread, scopes: &Scopes) -> Result<usize> {
        let mut reports: usize = 0;
        if !self.is_on() {
            off(thread, scopes);
            return Ok(reports);
        }
        if let Some(id) = ScopeId::new(1) {
            for _ in 0..NESTS {
                self.nest(thread, scopes, id);
                if thread.report_closed(&mut Ignored)? {
                    reports = reports.saturating_add(1);
                }
            }
        }
        Ok(reports)
    }
}

/// Makes the scopes of one kind of work.
#[derive(Drop)]
pub struct Guarding {
    pub thread: Thread,
    pub scopes: Scopes,
    pub work: GuardWork,
}

impl Work for Guarding {
    /// The units are scopes: those that were reported, or all that are switched off.
    fn run(&mut self) -> anyhow::Result<usize> {
        let reports = self.work.run(&mut self.thread, &self.scopes)?;
        if !self.work.is_on() {
            return Ok(SCOPES);
        }
        Ok(reports.saturating_mul(DEPTH))
    }
}

/// Makes nests of named scopes with any clock.
#[derive(Drop)]
pub struct Nesting<C> {
    pub thread: ThreadProfiler<C>,
    pub scopes: Scopes,
}

impl<C: NsSource> Work for Nesting<C> {
    fn run(&mut self) -> anyhow::Result<usize> {
        let reports = named_nests(&mut self.thread, &self.scopes)?;
        Ok(reports.saturating_mul(DEPTH))
    }
}
