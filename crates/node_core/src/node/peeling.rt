// A worker unwraps the oldest arrival.
ghost use Rattle.std.specs.Prelude.{◌≡◌, ◌≢◌, ℕ, [], ◌∷◌, ◌^◌, ◌<◌, true, false, drop, slice_index_or, Some, None, IsSome, IfNone, IfOk, IfSome, IfErr, OnErr};
ghost use Rattle.epoch_keys.specs.Epochs.{live_epochs};
ghost use Rattle.epoch_keys.specs.Keys.{first_without_pair};
ghost use Rattle.mix_shard.specs.Items as items;
ghost use Rattle.node_core.specs.Nodes.{AreShardsOf, packets_setup};
ghost use Rattle.node_core.specs.Steps.{IfUnkeyed, NamesNoKey, peeled, worker_at};

use super::Node;
use crate::answers::{NodePeel, Peeled};
use crate::arrivals::Arrival;
use crate::setup::NodeSetup;
use epoch_keys::KeyRing;
use mix_base::Suite;
use mix_shard::{Held, PeelFault, peel};
use replay_disk::CrashRack;
use sphinx_unwrap::Refused;
use std::alloc::Global;
use std::collections::VecDeque;

impl<R: CrashRack, S: Suite> Node<R, S> {
    /// The worker takes the oldest arrival and unwraps it under the keys of the epochs that were live at its receipt:
    /// `Busy` exactly where it holds a packet, else `Idle` exactly where nothing waits. On a fault nothing changes, and the
    /// arrival goes on waiting. Asks a geometry of the suite's ciphertext.
    pub fn peel(&mut self, alloc: Global, worker: u8) -> Result<Peeled, NodePeel>
        requires worker { worker < 4 }
        requires ciphertext { self.old.setup.geo.ct ≡ S.K.CT }
        ensures ok { IfOk result (λ answer.
            peeled S.meaning self.old worker ≡ Some (answer, self.new)) }
        ensures refused { OnErr result (self.new ≡ self.old) }
        ensures no_key { IfErr result (NamesNoKey S.meaning self.old) }
        // A fault comes only where a worker that holds nothing meets an arrival.
        ensures free { OnErr result (worker_at self.old worker ≡ None) }
        ensures waits { OnErr result (self.old.arrivals ≢ []) }
        ensures kept { AreShardsOf R.tells S.meaning self.new.setup self.new.shards }
        ensures setup { self.new.setup ≡ self.old.setup }
        ensures next { self.new.next ≡ self.old.next }
    {
        if !is_free(&self.workers, worker) {
            return Ok(Peeled::Busy);
        }
        let Some(arrival) = oldest(&self.arrivals) else {
            return Ok(Peeled::Idle);
        };
        let number = arrival.number;
        let found = open_arrival(alloc, &self.setup, &mut self.ring, arrival)?;
        let_go_of_oldest(&mut self.arrivals);
        match found {
            Ok(held) => {
                self.workers[worker as usize] = Some(held);
                Ok(Peeled::Holding { number })
            }
            Err(why) => Ok(Peeled::Refused { number, why }),
        }
    }
}

/// What an arrival is under the keys of the epochs that were live at its receipt. The ring stays this node's.
fn open_arrival<S: Suite>(
    alloc: Global,
    setup: &NodeSetup,
    ring: &mut KeyRing<S>,
    arrival: &Arrival,
) -> Result<Result<Held<S>, Refused>, NodePeel>
    requires ciphertext { setup.now.geo.ct ≡ S.K.CT }
    requires moment { arrival.now.at < 2 ^ 60 }
    requires seed { ring.old.seed ≡ setup.now.seed }
    requires times { ring.old.times ≡ setup.now.times }
    ensures found { IfOk result (λ found. items.peeled S.meaning (packets_setup setup.now)
        arrival.now.number arrival.now.at arrival.now.packet ≡ Some found) }
    ensures setup { IfOk result (λ found. IfOk found (λ held.
        held.setup ≡ packets_setup setup.now)) }
    ensures no_key { IfErr result (λ fault. IfUnkeyed fault (λ epoch.
        first_without_pair S.meaning.kem setup.now.seed
        (live_epochs setup.now.times arrival.now.at) ≡ Some epoch)) }
    ensures same_seed { ring.new.seed ≡ ring.old.seed }
    ensures same_times { ring.new.times ≡ ring.old.times }
{
    let keys = ring.keys_at(alloc, arrival.at)?;
    let packet = arrival.packet.as_slice().to_vec(alloc)?;
    match peel(
        alloc,
        &setup.geo,
        &setup.times,
        &keys,
        arrival.number,
        arrival.at,
        packet,
    ) {
        Ok(held) => Ok(Ok(held)),
        Err(PeelFault::Refused(why)) => Ok(Err(why)),
        Err(PeelFault::Memory) => Err(NodePeel::Memory),
    }
}

/// The oldest arrival.
fn oldest(arrivals: &VecDeque<Arrival>) -> Option<&Arrival>
    ensures some { IfSome result (λ arrival.
        arrivals.now.items ≡ arrival.now ∷ drop 1 arrivals.now.items) }
    ensures none { IfNone result (arrivals.now.items ≡ []) }
{
    arrivals.front()
}

/// Lets the oldest arrival go.
fn let_go_of_oldest(arrivals: &mut VecDeque<Arrival>)
    ensures { arrivals.new.items ≡ drop 1 arrivals.old.items }
{
    let _ = arrivals.pop_front();
}

/// Whether a worker holds nothing.
fn is_free<S: Suite>(workers: &[Option<Held<S>>; 4], worker: u8) -> bool
    requires { worker < 4 }
    ensures free { result ≡ true → slice_index_or workers.now worker None ≡ None }
    ensures busy { result ≡ false → IsSome (slice_index_or workers.now worker None) }
{
    workers[worker as usize].is_none()
}
