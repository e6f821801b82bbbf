/// The counts of a stream.
#[repr(C)]
#[derive(Clone, Copy)]
pub struct PuffinCount {
    /// The number of scopes.
    pub scopes: u64,
    /// The greatest nesting depth.
    pub depth: u64,
    /// The least start of all scopes, in nanoseconds, or `i64::MAX` if there are none.
    pub start_ns: i64,
    /// The greatest stop of all scopes, in nanoseconds, or `i64::MIN` if there are none.
    pub stop_ns: i64,
}
