// What the callers of a node share.
use epoch_keys::KeyRing;
use mix_base::Suite;
use mix_shard::Setup;
use node_actors::{Bell, PacketQueue, ShardLock};
use replay_disk::Rack;
use std::marker::Model;
use std::sync::Mutex;

/// The locks of a node's shards, the queues of its workers, its keys, the bell that each claim rings, what it unwraps packets
/// under, and how many callers it has.
#[derive(Drop)]
pub(crate) struct Hall<R: Rack, S: Suite> {
    pub(crate) locks: Vec<ShardLock<R, S>>,
    pub(crate) queues: Vec<PacketQueue>,
    pub(crate) keys: Mutex<KeyRing<S>>,
    pub(crate) claims: Bell,
    pub(crate) setup: Setup,
    pub(crate) callers: u32,
}

impl<R: Rack, S: Suite> Model for Hall<R, S> {
    ghost use Rattle.node_run.specs.Halls.{HallState, IsHall};

    ghost Value = { HallState };

    ghost view = { λ h.
        record {
          locks = h.locks.items;
          queues = h.queues.items;
          setup = h.setup;
          callers = h.callers;
        } };

    ghost invariant = { λ h.
        IsHall (record {
          locks = h.locks.items;
          queues = h.queues.items;
          setup = h.setup;
          callers = h.callers;
        }) };
}
