//! What a run of several threads is set to before it begins, and its result.

ghost use Rattle.std.specs.Prelude.{◌≡◌, ◌+◌, ◌≤◌, sum_by};
ghost use Rattle.puffin_view.specs.View.Known.{view_of, with_frames};

use crate::global_profiler::{GlobalFrameView, Settled};
use crate::profile_view::FrameView;
use std::io;

/// What a run of several threads is set to before it begins: the name of its leader, what its view keeps, and how much memory its
/// scopes may take.
///
/// ```
/// Settings { leader: "main loop", max_recent: 200, ..Settings::default() }
/// ```
///
/// With `max_recent` and `max_slow` at 0 the view keeps no frame. The leader still gets each frame that it takes.
///
/// A scope above `max_thread_bytes` doesn't begin, and is counted in
/// [`ThreadCounts::refused`](crate::light::ThreadCounts::refused). A report above `max_pending_bytes` is refused, unless nothing
/// waits for the next frame: its scopes stay with their thread and go into its next report, or are counted in
/// [`ThreadCounts::unreported`](crate::light::ThreadCounts::unreported) at its end. A thread that has no room for an outermost
/// scope reports what it holds and tries once more, so after a frame it records again. With both limits, a run whose leader takes
/// no frame doesn't use up the memory.
#[derive(Clone, Copy, Debug, PartialEq, Eq)]
pub struct Settings {
    /// The name under which the leader's scopes are recorded.
    pub leader: &'static str,
    /// The maximum number of recent frames that the view keeps.
    pub max_recent: usize,
    /// The maximum number of slowest frames that the view keeps.
    pub max_slow: usize,
    /// Whether the view packs frames, as [`FrameView::set_pack_frames`] says.
    pub pack_frames: bool,
    /// The maximum number of bytes that the scopes of a thread take until they are reported, with what is kept free for their
    /// ends.
    pub max_thread_bytes: usize,
    /// The maximum number of bytes of all threads' scopes that wait for the next frame.
    pub max_pending_bytes: usize,
}

impl Default for Settings {
    ghost use Rattle.std.specs.Prelude.{◌≡◌, ◌-◌, ◌^◌, codes, true};

    ghost is_default = { λ settings.
        (settings.leader.now ≡ codes "leader")
        × (settings.max_recent ≡ 1000)
        × (settings.max_slow ≡ 256)
        × (settings.pack_frames ≡ true)
        × (settings.max_thread_bytes ≡ 2 ^ 64 - 1)
        × (settings.max_pending_bytes ≡ 2 ^ 64 - 1) };

    /// Returns the settings of a program that sets nothing: the leader's name is `leader`, and the view keeps up to 1,000 recent
    /// and 256 slow frames, with packing on, like [`FrameView::new`]. Nothing limits the bytes.
    fn default() -> Settings {
        Settings {
            leader: "leader",
            max_recent: 1_000,
            max_slow: 256,
            pack_frames: true,
            max_thread_bytes: usize::MAX,
            max_pending_bytes: usize::MAX,
        }
    }
}

impl Settings {
    /// Sets a view to what the run's view keeps.
    pub(crate) fn set(&self, view: &mut FrameView)
        ensures { view.new
            ≡ with_frames view.old (record (view_of view.old) {
              max_recent = self.now.max_recent;
              max_slow = self.now.max_slow;
              packs = self.now.pack_frames;
            }) }
    {
        view.set_max_recent(self.max_recent);
        view.set_max_slow(self.max_slow);
        view.set_pack_frames(self.pack_frames);
    }
}

/// What became of the scopes of one thread. As many began as `reported`, `unreported` and `left_open` together.
#[derive(Clone, Copy, Debug, PartialEq, Eq)]
pub struct ThreadCounts {
    /// The number of scopes that were reported. Each is in a frame, or pending.
    pub reported: u64,
    /// The number of scopes that closed and were never reported, because the thread's last reports were refused, or because a
    /// scope around them was left open. They are in no frame.
    pub unreported: u64,
    /// The number of scopes that were refused when they should have begun. They are in no frame.
    pub refused: u64,
    /// The number of scopes that were open when the thread's work returned: they were begun with
    /// [`Records::begin`](crate::light::Records::begin), or their guards were forgotten, and nothing ended them. They are in no
    /// frame.
    pub left_open: u64,
}

/// A thread that failed.
#[derive(Clone, Copy, Debug)]
pub struct Failed {
    /// The thread's number.
    pub number: usize,
    /// What it returned.
    pub error: io::Error,
}

/// The result of a program whose threads are profiled.
#[derive(Drop)]
pub struct Outcome {
    /// The last and the slowest frames.
    pub view: GlobalFrameView,
    /// What became of each thread's scopes, in the order in which the threads' names were passed.
    pub threads: Vec<ThreadCounts>,
    /// What became of the leader's own scopes.
    pub leader: ThreadCounts,
    /// The thread with the lowest number of those that failed, or `None` if none did. Its scopes are counted like all others.
    pub failed: Option<Failed>,
    /// How many scopes the leader and all threads reported, how many of these were handed out in frames, and how many are
    /// pending.
    pub settled: Settled,
    /// The number of frames that were handed out. Each of them has at least one scope.
    pub frames: u64,
    /// The number of these frames that the view didn't take, for example because memory ran out.
    pub missed: u64,
    ghost counted: { leader.reported + sum_by (λ thread. thread.reported) threads.items
        ≡ settled.reported },
    ghost some: { missed ≤ frames },
    ghost some_each: { frames ≤ settled.handed },
    ghost none_handed: { frames ≡ 0 → settled.handed ≡ 0 },
}
