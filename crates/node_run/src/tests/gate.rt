// A gate under which worker 0 waits before its claim for worker 1's: both work side by side, or the packet of worker 0 waits
// for all its turns.
use super::packets::{FIRST_TAG, SECOND_TAG, link, to_recipient};
use super::seats::{live_alone, seat};
use super::tallies::has_tag;
use mix_links::ListOut;
use node_actors::Gate;
use std::sync::atomic::AtomicU64;
use std::sync::atomic::Ordering::SeqCst;
use std::test::Fail;
use std::thread;

/// For how many turns a worker waits at most.
const TURNS: u32 = 1_000_000_000;

/// How often worker 0 was held, how often it was let go since worker 1 had claimed, and how often worker 1 has claimed.
#[derive(Drop)]
struct HoldsFirst {
    held: AtomicU64,
    freed: AtomicU64,
    claimed: AtomicU64,
}

impl Gate for HoldsFirst {
    fn before_claim(&self, worker: u32, _number: u64) {
        if worker != 0 {
            return;
        }
        self.held.fetch_add(1, SeqCst);
        for _ in 0..TURNS {
            if self.claimed.load(SeqCst) > 0 {
                self.freed.fetch_add(1, SeqCst);
                return;
            }
            thread::yield_now();
        }
    }

    fn after_claim(&self, worker: u32, _number: u64) {
        if worker == 1 {
            self.claimed.fetch_add(1, SeqCst);
        }
    }
}

#[test]
fn two_workers_claim_side_by_side(rt: HostRuntime) -> Result<(), Fail> {
    let alloc = rt.alloc();
    let packets = vec![in alloc; to_recipient(alloc, 1)?, to_recipient(alloc, 2)?]?;
    let incoming = vec![in alloc; link(alloc, &packets)?]?;
    let node = seat::<_, ListOut>(alloc, 0, 1, 2, incoming, Vec::new(alloc))?;
    let gate = HoldsFirst {
        held: AtomicU64::new(0),
        freed: AtomicU64::new(0),
        claimed: AtomicU64::new(0),
    };
    let end = live_alone(&rt, alloc, node, 2, &gate)?;
    assert_eq!(rt; end.local.len(), 2);
    assert!(rt; has_tag(&end.local, &FIRST_TAG) && has_tag(&end.local, &SECOND_TAG));
    assert_eq!(rt;
        (
            gate.held.load(SeqCst),
            gate.freed.load(SeqCst),
            gate.claimed.load(SeqCst)
        ),
        (1, 1, 1)
    );
    Ok(())
}
