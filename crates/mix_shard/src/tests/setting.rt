// A shard of one over a rack in memory, for the laboratory suite, with the keys of the seed of zeros. Its caller 0 isn't
// done, and makes all claims.
ghost use Rattle.std.specs.Prelude.{◌≡◌, ◌<◌, ◌≤◌, IfOk};
ghost use Rattle.mix_shard.specs.Tale.{IsActive};

use crate::{Denied, Held, PeelFault, RotateFault, Setup, Shard, peel};
use due_queue::Dest;
use epoch_keys::{KeyRing, Times};
use mix_base::Shape;
use packet_form::Geometry;
use prim_std::LabSuite;
use replay_disk::MemRack;
use spent_store::{Book, OpenStore};
use std::alloc::Global;
use std::marker::Model;
use std::test::Fail;

const ONE: Shape = Shape {
    shards: 1,
    index: 0,
};

/// A shard, how many callers it has, and the setup of its packets.
#[derive(Drop)]
pub struct Rig {
    setup: Setup,
    callers: u32,
    pub shard: Shard<MemRack, LabSuite>,
}

impl Model for Rig {
    ghost use Rattle.std.specs.Prelude.{◌≡◌, ◌<◌};
    ghost use Rattle.mix_shard.specs.Shards.{ShardState};
    ghost use Rattle.mix_shard.specs.Tale.{IsActive};

    ghost Value = { ShardState };

    ghost view = { λ rig. rig.shard };

    ghost invariant = { λ rig. (rig.shard.terms.setup ≡ rig.setup)
        × (rig.setup.geometry.ct ≡ 48)
        × (rig.shard.terms.callers ≡ rig.callers)
        × (0 < rig.callers)
        × IsActive 0 rig.shard.state };
}

/// Five hops at most, bodies of 64 bytes, epochs of 20 minutes with a grace of two, and a seed of zeros.
fn laboratory() -> Result<Setup, Fail>
    ensures { IfOk result (λ setup. setup.geometry.ct ≡ 48) }
{
    Ok(Setup {
        geometry: Geometry::new(48, 5, 64)?,
        times: Times::new(1_200_000, 120_000)?,
        seed: [0; 32],
    })
}

impl Rig {
    /// Over this rack, with logs of at most so many records, 2 or more, and so many callers, 1 or more.
    pub fn over(alloc: Global, rack: MemRack, limit: u16, callers: u8) -> Result<Rig, Fail>
        requires limit { 2 ≤ limit }
        requires callers { 0 < callers }
    {
        let setup = laboratory()?;
        let callers = u32::from(callers);
        let (geometry, times, seed) = (setup.geometry, setup.times, &setup.seed);
        match Shard::new(
            alloc,
            rack,
            ONE,
            geometry,
            times,
            seed,
            u64::from(limit),
            callers,
        ) {
            Ok(shard) => Ok(Rig {
                setup,
                callers,
                shard,
            }),
            Err((_, memory)) => Err(Fail::from(memory)),
        }
    }

    /// Over an empty rack, with three callers.
    pub fn new(alloc: Global, limit: u16) -> Result<Rig, Fail>
        requires { 2 ≤ limit }
    {
        Rig::over(alloc, MemRack::new(alloc), limit, 3)
    }

    /// The caller of this number, or 0 where there is none.
    fn caller(&self, number: u32) -> u32
        ensures { result < self.now.terms.callers }
    {
        if number < self.callers { number } else { 0 }
    }

    /// Unwraps a packet that arrives with this number at a moment.
    pub fn peel(
        &self,
        alloc: Global,
        number: u64,
        at: u32,
        packet: Vec<u8>,
    ) -> Result<Result<Held<LabSuite>, PeelFault>, Fail>
        ensures { IfOk result (λ answer. IfOk answer (λ held. held.setup ≡ self.now.terms.setup)) }
    {
        let setup = &self.setup;
        let mut ring = KeyRing::new(&setup.seed, setup.times);
        let at = u64::from(at);
        let keys = ring.keys_at(alloc, at)?;
        Ok(peel(
            alloc,
            &setup.geometry,
            &setup.times,
            &keys,
            number,
            at,
            packet,
        ))
    }

    /// Claims the tag of a packet that was unwrapped here.
    pub fn admit(&mut self, alloc: Global, held: Held<LabSuite>) -> Result<(), Denied>
        requires { held.setup ≡ self.old.terms.setup }
    {
        self.shard.admit(alloc, 0, held)
    }

    /// Unwraps a packet that arrives with this number at a moment, and claims its tag.
    pub fn offer(
        &mut self,
        alloc: Global,
        number: u64,
        at: u32,
        packet: Vec<u8>,
    ) -> Result<Result<(), Denied>, Fail> {
        let held = self.peel(alloc, number, at, packet)??;
        Ok(self.admit(alloc, held))
    }

    /// Takes the first packet for the destination that is due at the moment.
    pub fn take(&mut self, caller: u32, dest: &Dest, moment: u64) -> Option<Held<LabSuite>> {
        let caller = self.caller(caller);
        self.shard.take_due(caller, dest, moment)
    }

    pub fn rotate(&mut self, alloc: Global, caller: u32, moment: u32) -> Result<(), RotateFault> {
        let caller = self.caller(caller);
        self.shard.rotate(alloc, caller, u64::from(moment))
    }

    pub fn ready(&mut self, alloc: Global, caller: u32) -> Result<Book, OpenStore> {
        let caller = self.caller(caller);
        self.shard.ready(alloc, caller)
    }

    /// The call of the rack of this number, counted from now from 1, fails.
    pub fn fail_at(&mut self, alloc: Global, call: u64) -> Result<(), Fail> {
        let mut calls = Vec::new(alloc);
        calls.push(call)?;
        self.shard.fail_at(calls);
        Ok(())
    }

    pub fn crash(&mut self, pick: u64) {
        self.shard.crash(pick);
    }

    /// The shard alone.
    pub fn into_shard(self) -> Shard<MemRack, LabSuite>
        ensures shard { result ≡ self }
        ensures active { IsActive 0 result.state }
        ensures callers { 0 < result.terms.callers }
    {
        let Rig {
            setup: _,
            callers: _,
            shard,
        } = self;
        shard
    }
}
