use crate::profiler::Profiler;
use crate::recorder::Recorder;
use crate::shared_ids::SharedIds;

/// What an open handle holds. It isn't stored as such: a handle's type tells which of them it is.
#[derive(Drop)]
pub(crate) enum Held {
    Ids(SharedIds),
    Thread(Recorder),
    Profiler(Profiler),
}
