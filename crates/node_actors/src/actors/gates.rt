// What stands before and behind a worker's claim, so that one may hold a worker there.

/// Is asked before and after each claim of a worker, outside the shard's lock. Its calls may wait.
pub trait Gate: Drop {
    /// The worker is about to claim the packet of this number.
    fn before_claim(&self, worker: u32, number: u64);

    /// The worker has claimed the packet of this number, or was refused.
    fn after_claim(&self, worker: u32, number: u64);
}

/// A gate that does nothing.
#[derive(Clone, Copy, Debug)]
pub struct OpenGate;

impl Gate for OpenGate {
    fn before_claim(&self, _worker: u32, _number: u64) {}

    fn after_claim(&self, _worker: u32, _number: u64) {}
}
