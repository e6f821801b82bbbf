ghost use Rattle.std.specs.Prelude.{◌≡◌};
ghost use Rattle.puffin_c.specs.Profiling.{told_of};

use puffin_frames::frame_data::FrameMeta;

/// Describes a frame.
#[repr(C)]
#[derive(Clone, Copy)]
pub struct PuffinFrame {
    /// The frame's index.
    pub index: u64,
    /// The number of scopes.
    pub scopes: u64,
    /// The number of bytes of the scopes' streams.
    pub bytes: u64,
    /// The least start of all scopes, in nanoseconds.
    pub start_ns: i64,
    /// The greatest stop of all scopes, in nanoseconds.
    pub stop_ns: i64,
    /// Whether there is a frame. None is made if no scope was reported.
    pub is_some: bool,
}

impl PuffinFrame {
    /// Returns the description of the frame with this meta.
    pub(crate) fn of(meta: FrameMeta) -> PuffinFrame
        ensures { result ≡ told_of meta }
    {
        let (start_ns, stop_ns) = meta.range_ns;
        PuffinFrame {
            index: meta.frame_index,
            scopes: meta.num_scopes as u64,
            bytes: meta.num_bytes as u64,
            start_ns,
            stop_ns,
            is_some: true,
        }
    }
}
