// Each call of the rack fails in turn, and then the rack crashes: no pair of epoch and tag is handed out twice, and none
// that was accepted is accepted again.
use super::packets::{packet, to_recipient};
use super::setting::Rig;
use crate::{Denied, RotateFault};
use due_queue::Dest;
use spent_store::OpenStore;
use std::alloc::Global;
use std::process::Abort;
use std::test::Fail;

/// A packet to be claimed: its seed is 32 times a byte, and it is for an epoch and arrives at a moment.
#[derive(Clone, Copy)]
struct Offer {
    seed: u8,
    epoch: u64,
    at: u32,
}

const FIRST: Offer = Offer {
    seed: 1,
    epoch: 0,
    at: 1000,
};

const SECOND: Offer = Offer {
    seed: 2,
    epoch: 0,
    at: 1000,
};

/// Its claim raises the floor and begins an epoch, whose log takes the place of that of epoch 0.
const LATER: Offer = Offer {
    seed: 3,
    epoch: 10,
    at: 12_120_000,
};

/// What a failure interrupts.
#[derive(Clone, Copy, Debug, PartialEq, Eq)]
enum Act {
    /// The opening of an empty rack.
    Make,
    /// The opening of a rack with two tags.
    Open,
    /// A claim with a new floor and a new epoch.
    Claim,
    /// A rotation to a new floor.
    Rotate,
}

/// An epoch and a tag.
type Pair = (u64, [u8; 32]);

/// A shard, the pairs that it accepted and those that it handed out.
#[derive(Drop)]
struct Story {
    rig: Rig,
    accepted: Vec<Pair>,
    handed: Vec<Pair>,
}

/// Adds a pair, and tells whether it wasn't there.
fn is_new(pairs: &mut Vec<Pair>, pair: Pair) -> Result<bool, Fail> {
    let there = pairs.contains(&pair);
    pairs.push(pair)?;
    Ok(!there)
}

impl Story {
    fn new(alloc: Global) -> Result<Story, Fail> {
        Ok(Story {
            rig: Rig::new(alloc, 100)?,
            accepted: Vec::new(alloc),
            handed: Vec::new(alloc),
        })
    }

    /// A packet is claimed; no pair is accepted twice.
    fn offer(
        &mut self,
        rt: &impl Abort,
        alloc: Global,
        offer: Offer,
    ) -> Result<Result<(), Denied>, Fail> {
        let packet = packet(alloc, &[offer.seed; 32], offer.epoch, &to_recipient())?;
        let held = self.rig.peel(alloc, 1, offer.at, packet)??;
        let pair = (held.epoch(), *held.tag());
        let answer = self.rig.admit(alloc, held);
        if answer == Ok(()) {
            assert!(rt; is_new(&mut self.accepted, pair)?, "accepted twice");
        }
        Ok(answer)
    }

    /// The first held packet is taken out, where there is one; no pair is handed out twice.
    fn take(&mut self, rt: &impl Abort) -> Result<(), Fail> {
        if let Some(held) = self.rig.take(1, &Dest::Local, u64::MAX) {
            let pair = (held.epoch(), *held.tag());
            assert!(rt; is_new(&mut self.handed, pair)?, "handed out twice");
        }
        Ok(())
    }

    /// Two packets are accepted, and the first is handed out.
    fn begin(&mut self, rt: &impl Abort, alloc: Global) -> Result<(), Fail> {
        assert_eq!(rt; self.offer(rt, alloc, FIRST)?, Ok(()));
        self.take(rt)?;
        assert_eq!(rt; self.offer(rt, alloc, SECOND)?, Ok(()));
        Ok(())
    }

    /// What may be interrupted. Whether it was done; else the disk failed.
    fn act(&mut self, rt: &impl Abort, alloc: Global, act: Act) -> Result<bool, Fail> {
        match act {
            Act::Make | Act::Open => {
                let fault = self.rig.ready(alloc, 2).err();
                assert!(rt; fault.is_none() || fault == Some(OpenStore::Failed));
                Ok(fault.is_none())
            }
            Act::Claim => {
                let answer = self.offer(rt, alloc, LATER)?;
                assert!(rt; answer == Ok(()) || answer == Err(Denied::Disk));
                Ok(answer == Ok(()))
            }
            Act::Rotate => {
                let answer = self.rig.rotate(alloc, 1, 12_120_000);
                assert!(rt; answer == Ok(()) || answer == Err(RotateFault::Disk));
                Ok(answer == Ok(()))
            }
        }
    }

    /// All packets are claimed again, and what is accepted is handed out.
    fn go_on(&mut self, rt: &impl Abort, alloc: Global) -> Result<(), Fail> {
        for offer in [FIRST, SECOND, LATER] {
            match self.offer(rt, alloc, offer)? {
                Ok(()) => self.take(rt)?,
                Err(why) => {
                    let floor = self.rig.shard.floor();
                    assert!(rt; why == Denied::Spent || why == Denied::Retired { floor });
                }
            }
        }
        Ok(())
    }
}

/// A call of the rack fails within an act, and then the rack crashes. Whether the act was done.
fn interrupted(
    rt: &impl Abort,
    alloc: Global,
    act: Act,
    call: u64,
    pick: u64,
) -> Result<bool, Fail> {
    let mut story = Story::new(alloc)?;
    if act != Act::Make {
        story.begin(rt, alloc)?;
    }
    if act == Act::Open {
        story.rig.crash(0);
    }
    story.rig.fail_at(alloc, call)?;
    let done = story.act(rt, alloc, act)?;
    // No call has the number 0.
    story.rig.fail_at(alloc, 0)?;
    story.take(rt)?;
    story.rig.crash(pick);
    story.go_on(rt, alloc)?;
    story.go_on(rt, alloc)?;
    Ok(done)
}

/// With each of three picks. The act is done where the call is behind the last that it makes, which lies from `least` to
/// `most`.
fn each_pick(
    rt: &impl Abort,
    alloc: Global,
    act: Act,
    call: u64,
    least: u64,
    most: u64,
) -> Result<(), Fail> {
    for pick in 0..3 {
        let done = interrupted(rt, alloc, act, call, pick)?;
        let may_be = if done { least < call } else { call <= most };
        assert!(rt; may_be, "{act:?}, {call}, {pick}");
    }
    Ok(())
}

#[test]
fn no_pair_twice_and_none_lost(rt: HostRuntime) -> Result<(), Fail> {
    // An act, the number of the last call of the rack that it surely makes, and that of the last that it may make.
    let rows: [(Act, u8, u8); 4] = [
        (Act::Make, 6, 20),
        (Act::Open, 4, 20),
        (Act::Claim, 14, 14),
        (Act::Rotate, 4, 4),
    ];
    for (act, least, most) in rows {
        for call in 1..u64::from(most) + 2 {
            each_pick(
                &rt,
                rt.alloc(),
                act,
                call,
                u64::from(least),
                u64::from(most),
            )?;
        }
    }
    Ok(())
}
