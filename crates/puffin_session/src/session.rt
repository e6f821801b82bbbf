//! Sessions of threads that share one profiler.

ghost use Rattle.std.specs.Prelude.{◌≡◌, ◌≢◌, ◌+◌, ◌-◌, ◌^◌, ◌<◌, ◌≤◌, ◌⊎◌, length, map, [], All, option_map, IfOk, IfErr, OnOk, OnErr, IsOkUnless};
ghost use Rattle.std.specs.String.{string_bytes};
ghost use Rattle.puffin_data.specs.declared.data.form.Form.TheVariants.{Short};
ghost use Rattle.puffin_data.specs.Forest.{Forest};
ghost use Rattle.puffin_data.specs.Honesty.{StreamFacts, AreHonestFacts};
ghost use Rattle.puffin_data.specs.Text.{cut_text};
ghost use Rattle.puffin_data.specs.Walk.{IsFault};
ghost use Rattle.puffin_data.specs.Forest.Words.{open_after};
ghost use Rattle.puffin_threads.specs.Thread.ThreadKey.{key_of};
ghost use Rattle.puffin_threads.specs.Details.{with_id, AllHaveIds, details_seen};
ghost use Rattle.puffin_threads.specs.Thread.Calls.{after_begin, after_registering, begun_place, clock_time};
ghost use Rattle.puffin_collector.specs.Collector.State.{AcceptsReport, IsReportRefusal, nothing_collected, after_wanting};
ghost use Rattle.puffin_collector.specs.Collector.Collecting.{Collects, TellsIds, KeepsPending};
ghost use Rattle.puffin_collector.specs.Collector.Registering.{Adds, AddsSome};
ghost use Rattle.puffin_session.specs.Session.{new_session};
ghost use Rattle.puffin_session.specs.Session.Runs.{LeadsTo, HasIds};
ghost use Rattle.puffin_session.specs.Session.Actions.{details_given, user_details};
ghost use Rattle.puffin_session.specs.inner.Serving.{session_thread, session_with_thread, session_with_collected, EndsInnermost, Continues};

use crate::command::{Command, Reply};
use crate::profiled::Profiled;
use puffin_collector::{Collector, Emitted};
use puffin_data::data::{Form, ScopeId, Stream, StreamInfo};
use puffin_data::{Error, NanoSecond, Result};
use puffin_frames::frame_data::FrameData;
use puffin_threads::scope_details::{ScopeDetails, ScopeIds};
use puffin_threads::thread_profiler::{Closed, ThreadInfo};
use std::alloc::Global;
use std::borrow::CowStr;
use std::marker::Model;
use std::sync::Arc;

/// Threads that share one profiler, driven by commands.
///
/// Contracts see each thread's unreported scopes and details, and what is collected for the next frame.
///
/// ```
/// let mut session = Session::new(alloc, names)?;
/// let replies = session.run(&commands)?;
/// ```
#[derive(Drop)]
pub struct Session {
    profiled: Vec<Profiled>,
    collector: Collector,
    ids: ScopeIds,
    alloc: Global,
}

impl Model for Session {
    ghost use Rattle.puffin_session.specs.Session.{SessionState};
    ghost use Rattle.puffin_session.specs.contracts.profiled.Profiled as t;
    ghost use Rattle.puffin_collector.specs.contracts.collector.Collector as c;
    ghost use Rattle.std.specs.Coded.{code_by, coded×, coded_list};
    ghost use Rattle.std.specs.Prelude.{refl};

    ghost Value = { SessionState };

    ghost coded = { code_by _ (coded× (coded_list t.the_row.coded) c.the_row.coded)
        (λ s. (s.threads, s.collected)) (λ p. record { threads = p.0; collected = p.1 })
        (λ _. refl) };

    ghost view = { λ s. record { threads = s.profiled.items; collected = s.collector } };
}

impl Session {
    /// Makes a session with a thread for each name, in the short form and without scopes. The first id drawn by a registration
    /// is 1. Fails only with `Memory`.
    pub fn new(alloc: Global, names: Vec<String>) -> Result<Session>
        ensures new { IfOk result (λ session.
            session ≡ new_session (map (λ name. (string_bytes name, Short)) names.items)) }
        ensures memory { IsOkUnless result Error.Memory }
    {
        let mut profiled = Vec::new(alloc);
        for name in names {
            profiled.push(Profiled::new(alloc, name, Form::Short))?;
        }
        Ok(Session::of(alloc, profiled))
    }

    /// Makes a session with a thread for each name, without scopes and in the form given with the name. Otherwise like
    /// [`Session::new`].
    pub fn with_forms(alloc: Global, threads: Vec<(String, Form)>) -> Result<Session>
        ensures new { IfOk result (λ session.
            session ≡ new_session (map (λ t. (string_bytes t.0, t.1)) threads.items)) }
        ensures memory { IsOkUnless result Error.Memory }
    {
        let mut profiled = Vec::new(alloc);
        for (name, form) in threads {
            profiled.push(Profiled::new(alloc, name, form))?;
        }
        Ok(Session::of(alloc, profiled))
    }

    /// Makes a session of these threads, with nothing collected.
    fn of(alloc: Global, profiled: Vec<Profiled>) -> Session
        ensures { result ≡ record { threads = profiled.items; collected = nothing_collected 0 } }
    {
        Session {
            profiled,
            collector: Collector::new(alloc, 0),
            ids: ScopeIds::new(),
            alloc,
        }
    }

    /// Runs commands in order, and returns one reply for each. Each accepted scope is then in exactly one place: an emitted
    /// frame, what is due for the next one, or its thread's unreported scopes. Each frame holds exactly what was due, and lists
    /// exactly the details that are new in it, followed by all already known ones if a snapshot was requested.
    ///
    /// Fails only with `Memory`, before any command has run.
    pub fn run(&mut self, commands: &[Command]) -> Result<Vec<Reply>>
        ensures run { IfOk result (λ replies.
            LeadsTo self.old self.new commands.now replies.items) }
        // All details that a frame lists have ids.
        ensures ids { IfOk result (λ replies. All HasIds replies.items) }
        ensures err { OnErr result (self.new ≡ self.old) }
        ensures memory { IsOkUnless result Error.Memory }
    {
        // By the contract of `totals`, what the collector holds is honest before the first command.
        let _ = self.collector.totals();
        let mut replies = Vec::with_capacity(self.alloc, commands.len())?;
        for command in commands {
            let reply = self.serve(command);
            replies.push_reserved(reply);
        }
        Ok(replies)
    }

    /// Runs one command.
    fn serve(&mut self, command: &Command) -> Reply
        ensures continues { Continues self.old self.new command.now result }
        ensures ids { HasIds result }
    {
        match self.accept(command) {
            Ok(reply) => reply,
            Err(cause) => Reply::Refused(cause),
        }
    }

    /// Runs one command. If it is refused, fails with the cause.
    fn accept(&mut self, command: &Command) -> Result<Reply>
        ensures accepted { IfOk result (λ reply. Continues self.old self.new command.now reply) }
        ensures refused { IfErr result (λ e.
            Continues self.old self.new command.now (Reply.Refused e)) }
        ensures ids { IfOk result HasIds }
    {
        match command {
            Command::Begin {
                thread,
                at,
                id,
                text,
            } => Ok(Reply::Began(self.begin(*thread, *at, *id, text.as_str())?)),
            Command::End { thread, at, back } => Ok(Reply::Ended(self.end(*thread, *at, *back)?)),
            Command::Register {
                thread,
                name,
                function,
                file,
                line,
            } => Ok(Reply::Registered(self.register(*thread, name, function, file, *line)?)),
            Command::RegisterUser { names } => {
                let ids = self.register_user(names)?;
                Ok(Reply::RegisteredUser(ids))
            }
            Command::ReportUser { info, stream } => {
                self.report_user(info, stream)?;
                Ok(Reply::Reported)
            }
            Command::Snapshot => {
                self.collector.emit_scope_snapshot();
                Ok(Reply::Snapshot)
            }
            Command::NewFrame => {
                let frame = self.new_frame()?;
                Ok(Reply::Frame(Emitted { frame, refused: 0 }))
            }
        }
    }

    /// Begins a scope of this thread at this time, and returns the offset of its size. Fails with `NoThread` or `Memory`; nothing
    /// changes then.
    fn begin(&mut self, thread: usize, at: NanoSecond, id: ScopeId, text: &str) -> Result<usize>
        ensures ok { IfOk result (λ offset.
            (thread < length self.old.threads)
            × (self.new ≡ session_with_thread self.old thread
            (after_begin (session_thread self.old thread) id
            (cut_text (session_thread self.old thread).form text.now) (clock_time at))
            self.old.collected)
            × (offset ≡ begun_place (session_thread self.old thread) text.now)) }
        ensures err { OnErr result (self.new ≡ self.old) }
        ensures cause { IfErr result (λ e.
            ((e ≡ Error.NoThread) × (length self.old.threads ≤ thread))
            ⊎ ((e ≡ Error.Memory) × (thread < length self.old.threads))) }
    {
        match self.profiled.get_mut(thread) {
            Some(profiled) => profiled.begin(at, id, text),
            None => Err(Error::NoThread),
        }
    }

    /// Ends, at this time, the open scope of this thread that has `back` open scopes within it. Fails with `NoThread`, or with
    /// `MismatchedEnd` if no scope is open or `back` isn't 0; nothing changes then.
    fn end(&mut self, thread: usize, at: NanoSecond, back: usize) -> Result<Closed>
        ensures ids { OnOk result (AllHaveIds (session_thread self.old thread).details) }
        ensures ok { IfOk result (λ closed.
            (thread < length self.old.threads)
            × (back ≡ 0)
            × (self.new ≡ session_with_thread self.old thread (session_thread self.new thread)
            self.new.collected)
            × EndsInnermost (session_thread self.old thread) (session_thread self.new thread)
            (clock_time at) self.old.collected self.new.collected closed) }
        ensures err { OnErr result (self.new ≡ self.old) }
        ensures cause { IfErr result (λ e.
            ((e ≡ Error.NoThread) × (length self.old.threads ≤ thread))
            ⊎ ((e ≡ Error.MismatchedEnd)
            × (thread < length self.old.threads)
            × ((0 < back) ⊎ (open_after 0 (session_thread self.old thread).word ≡ 0)))) }
    {
        match self.profiled.get_mut(thread) {
            Some(profiled) => profiled.end(at, back, &mut self.collector),
            None => Err(Error::NoThread),
        }
    }

    /// Registers a scope's details with this thread under a newly drawn id, and returns the id. Fails with `NoThread`,
    /// `IdsExhausted` or `Memory`; nothing changes then.
    fn register(
        &mut self,
        thread: usize,
        name: &Option<String>,
        function: &String,
        file: &String,
        line: u32,
    ) -> Result<ScopeId>
        ensures ok { IfOk result (λ id.
            (thread < length self.old.threads)
            × (self.new ≡ session_with_thread self.old thread
            (after_registering (session_thread self.old thread) (with_id
            (details_given (option_map string_bytes name.now) (string_bytes function.now)
            (string_bytes file.now) line) id))
            self.old.collected)) }
        ensures err { OnErr result (self.new ≡ self.old) }
        ensures cause { IfErr result (λ e.
            ((e ≡ Error.NoThread) × (length self.old.threads ≤ thread))
            ⊎ (((e ≡ Error.IdsExhausted) ⊎ (e ≡ Error.Memory))
            × (thread < length self.old.threads))) }
    {
        match self.profiled.get_mut(thread) {
            Some(profiled) => profiled.register(&self.ids, name, function, file, line),
            None => Err(Error::NoThread),
        }
    }

    /// Registers the caller's own scopes by their names, and returns their ids. If it fails, the first few may be registered.
    fn register_user(&mut self, names: &[String]) -> Result<Vec<ScopeId>>
        ensures ok { IfOk result (λ ids.
            Adds self.old.collected (user_details names.now) ids.items self.new.collected) }
        ensures err { IfErr result (λ e.
            AddsSome self.old.collected (user_details names.now) e self.new.collected) }
        ensures threads { self.new ≡ session_with_collected self.old self.new.collected }
    {
        let details = user_scopes(self.alloc, names)?;
        self.collector.register_user_scopes(&self.ids, &details)
    }

    /// Walks a stream, and reports its scopes under this info. Fails with the stream's fault, or as a thread's report does;
    /// nothing changes then.
    fn report_user(&mut self, info: &ThreadInfo, stream: &Stream) -> Result<()>
        ensures ok { OnOk result (
            (facts : StreamFacts)
            × (forest : Forest)
            × AreHonestFacts facts forest
            × (facts.form ≡ stream.now.form)
            × (facts.bytes ≡ stream.now.bytes)
            × AcceptsReport self.old.collected (key_of info.now) [] facts self.new.collected
            × (self.new ≡ session_with_collected self.old self.new.collected)) }
        ensures err { OnErr result (self.new ≡ self.old) }
        ensures cause { IfErr result (λ e.
            (e ≡ Error.Memory)
            ⊎ IsFault stream.now.form stream.now.bytes e
            ⊎ ((facts : StreamFacts)
            × (forest : Forest)
            × AreHonestFacts facts forest
            × (facts.form ≡ stream.now.form)
            × (facts.bytes ≡ stream.now.bytes)
            × IsReportRefusal self.old.collected (key_of info.now) [] facts e)) }
    {
        let times = StreamInfo::parse(self.alloc, stream.clone()?)?;
        let info = info.clone()?;
        self.collector
            .report_user_scopes(info, &times.as_stream_into_ref())
    }

    /// Takes what was reported as a frame, or returns `None` if there is no scope. If it fails, nothing that was reported is
    /// lost, but the first few of the new details may be known.
    fn new_frame(&mut self) -> Result<Option<Arc<FrameData>>>
        ensures ok { IfOk result (λ frame.
            (self.old.collected.index ≢ 2 ^ 64 - 1)
            × (self.new ≡ session_with_collected self.old self.new.collected)
            × Collects self.old.collected frame self.new.collected) }
        ensures err { IfErr result (λ e.
            (self.new ≡ session_with_collected self.old self.new.collected)
            × KeepsPending self.old.collected e self.new.collected) }
        ensures ids { IfOk result TellsIds }
        ensures last { IfErr result (λ e.
            e ≡ Error.IndexExhausted → self.old.collected.index ≡ 2 ^ 64 - 1) }
    {
        self.collector.collect_frame()
    }
}

/// Makes the details of scopes with these names. Fails only with `Memory`.
fn user_scopes(alloc: Global, names: &[String]) -> Result<Vec<ScopeDetails>>
    ensures ok { IfOk result (λ details. details_seen details.items ≡ user_details names.now) }
    ensures err { IsOkUnless result Error.Memory }
{
    let mut details = Vec::with_capacity(alloc, names.len())?;
    for name in names {
        let name = CowStr::Owned(name.clone()?);
        details.push(ScopeDetails::from_scope_name(name))?;
    }
    Ok(details)
}
