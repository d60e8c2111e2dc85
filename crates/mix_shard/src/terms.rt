// What doesn't change while a shard lives.
use crate::setup::Setup;
use mix_base::Shape;

/// Which shard of how many it is, what its packets are unwrapped under, how many records a log of its journal may have,
/// and how many callers it has.
#[derive(Clone, Copy)]
pub struct Terms {
    pub shape: Shape,
    pub setup: Setup,
    pub limit: u64,
    pub callers: u32,
}
