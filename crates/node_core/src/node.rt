// A node, and what arrives at it.
ghost use Rattle.std.specs.Prelude.{◌≡◌, ℕ, ◌+◌, ◌-◌, ◌^◌, ◌<◌, ◌≤◌, map, IfOk, IfErr, OnOk, OnErr};
ghost use Rattle.node_core.specs.Nodes.{AreShardsOf};
ghost use Rattle.node_core.specs.Steps.{received};

mod claiming;
mod crashing;
mod making;
mod peeling;
mod rotating;
mod sending;

use crate::arrivals::Arrival;
use crate::setup::NodeSetup;
use epoch_keys::KeyRing;
use mix_base::{Bytes, Memory, Suite};
use mix_shard::{Held, Shard};
use replay_disk::CrashRack;
use std::alloc::Global;
use std::collections::VecDeque;
use std::marker::Model;

/// A node with four workers, numbered from 0, and 1 to 16 shards, each on a rack.
pub struct Node<R: CrashRack, S: Suite> {
    setup: NodeSetup,
    ring: KeyRing<S>,
    next: u64,
    arrivals: VecDeque<Arrival>,
    workers: [Option<Held<S>>; 4],
    shards: Vec<Shard<R, S>>,
    /// Always empty, with room for the racks of all shards.
    places: Vec<R>,
}

impl<R: CrashRack, S: Suite> Model for Node<R, S> {
    ghost use Rattle.std.specs.Prelude.{◌≡◌, ℕ, ◌^◌, ◌<◌, ◌≤◌, [], All, vec_len, vec_capacity};
    ghost use Rattle.node_core.specs.Nodes.{AreShardsOf, HeldFor, NodeState, packets_setup};

    ghost Value = { NodeState };

    ghost view = { λ n. record {
      setup = n.setup;
      next = n.next;
      arrivals = n.arrivals.items;
      workers = n.workers;
      shards = n.shards.items;
    } };

    ghost invariant = { λ n. AreShardsOf R.tells S.meaning n.setup n.shards.items
        × All (λ arrival. arrival.at < 2 ^ 60) n.arrivals.items
        × (n.ring.seed ≡ n.setup.seed) × (n.ring.times ≡ n.setup.times)
        × All (HeldFor (packets_setup n.setup)) n.workers
        × (n.places.items ≡ []) × (vec_len n.shards ≤ vec_capacity n.places) };
}

impl<R: CrashRack, S: Suite> Drop for Node<R, S> {
    fn drop(self) {
        let Node {
            setup: _,
            ring: _,
            next: _,
            arrivals: _,
            workers: _,
            shards: _,
            places: _,
        } = self;
    }
}

impl<R: CrashRack, S: Suite> Node<R, S> {
    /// A packet arrives at a moment below 2^60, in milliseconds, and gets the next number. Asks a next number below
    /// 2^64 - 1. On want of memory nothing changes, and the packet is gone.
    pub fn recv(&mut self, moment: u64, packet: Vec<u8>) -> Result<(), Memory>
        requires next { self.old.next < 2 ^ 64 - 1 }
        requires moment { moment < 2 ^ 60 }
        ensures ok { OnOk result (self.new ≡ received self.old moment packet.items) }
        ensures refused { OnErr result (self.new ≡ self.old) }
        ensures kept { AreShardsOf R.tells S.meaning self.new.setup self.new.shards }
        ensures setup { self.new.setup ≡ self.old.setup }
        ensures next { self.new.next ≤ self.old.next + 1 }
    {
        self.arrivals.push_back(Arrival {
            number: self.next,
            at: moment,
            packet: Bytes::of(packet),
        })?;
        self.next += 1;
        Ok(())
    }
}
