// What made an unsound journal's books what they are.
use spent_store::SpentStore;
use std::snapshot::Snapshot;

/// Why there may be other books than before: an opening failed, or a claim or a retirement of a store was cut off.
#[derive(Drop)]
pub(crate) enum Cause {
    Unopened,
    CutClaim {
        store: Snapshot<SpentStore>,
        epoch: u64,
        tag: [u8; 32],
        least: u64,
    },
    CutRetirement {
        store: Snapshot<SpentStore>,
        floor: u64,
    },
}
