/// The sizes of a frame's streams, in bytes, for each way that the frame is held.
#[derive(Clone, Copy, Debug)]
pub struct PackingInfo {
    /// The size of the streams, if the frame is held unpacked.
    pub unpacked_size: Option<usize>,
    /// The size of the packed streams, if the frame is held packed.
    pub packed_size: Option<usize>,
}
