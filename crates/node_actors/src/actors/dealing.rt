// A packet is dealt with: it is unwrapped, and where that gives one its tag is claimed at the shard that it belongs to.
ghost use Rattle.std.specs.Prelude.{◌≡◌, ◌+◌, ◌-◌, ◌%◌, ◌^◌, ◌<◌, [], ◌∷◌, ◌++◌, length, min, IfOk, IfErr};
ghost use Rattle.mix_shard.specs.Faults.{admit_answer};
ghost use Rattle.node_actors.specs.Fates.{HasCause, HasDealt, IfClaimed, IsFateOf, IsUnclaimed, IsUnwrapped, NotRefused, Notes, Settles, dropped_by};
ghost use Rattle.node_actors.specs.Seats.{ClaimsNothing, HasMadeNothing, IsOpen, IsSameSeat, MovesNothing};

use crate::actors::fates::{Dealt, Fate};
use crate::actors::gates::Gate;
use crate::actors::keys::keys_at;
use crate::actors::seats::Seat;
use crate::actors::turns::ShardPass;
use crate::queues::Arrival;
use crate::queues::bell::Bell;
use epoch_keys::{KeyFault, KeyRing};
use mix_base::{History, Suite};
use mix_shard::{Denied, Held, PeelFault, Setup, peel};
use replay_disk::Rack;
use std::alloc::Global;
use std::marker::Model;
use std::snapshot::Snapshot;
use std::sync::{Mutex, Wait};

/// A caller that deals with packets.
#[derive(Drop)]
pub struct Dealer<'a, H: Wait, R: Rack, S: Suite> {
    pub(crate) seat: Seat<'a, H, R, S>,
    pub(crate) keys: &'a Mutex<KeyRing<S>>,
    pub(crate) claims: &'a Bell,
    pub(crate) log: History<Dealt<Held<S>>>,
    pub(crate) dropped: u64,
}

impl<'a, H: Wait, R: Rack, S: Suite> Model for Dealer<'a, H, R, S> {
    ghost use Rattle.std.specs.Prelude.{◌≡◌, ◌%◌, ◌<◌, length};
    ghost use Rattle.node_actors.specs.Fates.{DealerState, HasDealt};
    ghost use Rattle.node_actors.specs.Seats.{IsOpen, MovesNothing};

    ghost Value = { DealerState };

    ghost view = { λ d. record { seat = d.seat; log = d.log.items; dropped = d.dropped } };

    ghost invariant = { λ d.
        HasDealt S.meaning (record { seat = d.seat; log = d.log.items; dropped = d.dropped })
        × IsOpen d.seat × (d.seat.caller % 2 ≡ 0) × (0 < length d.seat.locks)
        × (d.seat.setup.geometry.ct ≡ S.K.CT) × MovesNothing d.seat.passes };
}

impl<'a, H: Wait, R: Rack, S: Suite> Dealer<'a, H, R, S> {
    /// A caller that has dealt with nothing yet. Asks an even number, a node with shards, and that it has done nothing
    /// and hasn't ended at any.
    pub fn new(
        seat: Seat<'a, H, R, S>,
        keys: &'a Mutex<KeyRing<S>>,
        claims: &'a Bell,
    ) -> Dealer<'a, H, R, S>
        requires open { IsOpen seat }
        requires even { seat.caller % 2 ≡ 0 }
        requires some { 0 < length seat.locks }
        requires ciphertext { seat.setup.geometry.ct ≡ S.K.CT }
        requires nothing { HasMadeNothing seat }
        ensures { result ≡ record { seat = seat.entry; log = []; dropped = 0 } }
    {
        Dealer {
            seat,
            keys,
            claims,
            log: History::new(),
            dropped: 0,
        }
    }

    /// Unwraps the packet and claims its tag, and notes its fate.
    pub(crate) fn deal<G: Gate>(&mut self, gate: &G, worker: u32, arrival: Arrival)
        ensures seat { IsSameSeat self.old.seat self.new.seat }
        ensures log { Notes arrival.number arrival.receipt arrival.packet
            self.old.log self.new.log }
    {
        let Arrival {
            number,
            receipt,
            packet,
        } = arrival;
        let packet = packet.into_vec();
        let bytes = Snapshot::of(&packet);
        let fate = settle(
            &mut self.seat,
            self.keys,
            self.claims,
            gate,
            worker,
            number,
            receipt,
            packet,
        );
        self.dropped = counted(self.dropped, &fate);
        self.log.push(&Dealt {
            number,
            receipt,
            packet: bytes,
            fate,
        });
    }
}

/// The count of dropped packets once this fate was met too.
fn counted<S: Suite>(dropped: u64, fate: &Fate<Held<S>>) -> u64
    ensures { result ≡ min (dropped + dropped_by fate.now) (2 ^ 64 - 1) }
{
    match fate {
        Fate::Dropped => dropped.saturating_add(1),
        _ => dropped,
    }
}

/// Unwraps the packet and claims its tag, and says what became of it.
fn settle<H: Wait, R: Rack, S: Suite, G: Gate>(
    seat: &mut Seat<'_, H, R, S>,
    shared: &Mutex<KeyRing<S>>,
    claims: &Bell,
    gate: &G,
    worker: u32,
    number: u64,
    receipt: u64,
    packet: Vec<u8>,
) -> Fate<Held<S>>
    requires some { 0 < length seat.old.locks }
    requires even { seat.old.caller % 2 ≡ 0 }
    requires open { IsOpen seat.old }
    requires ciphertext { seat.old.setup.geometry.ct ≡ S.K.CT }
    requires moment { receipt < 2 ^ 60 }
    ensures settled { Settles result seat.old seat.new }
    ensures cause { HasCause S.meaning seat.old.setup number receipt packet.items result }
{
    let (rt, alloc, setup) = (seat.rt, seat.alloc, seat.setup);
    match unwrap(rt, alloc, shared, &setup, number, receipt, packet) {
        Ok(held) => admit(seat, claims, gate, worker, held),
        Err(fate) => fate,
    }
}

/// The packet under the keys of the epochs that are live at its receipt, or why there is none to be claimed.
fn unwrap<H: Wait, S: Suite>(
    rt: &H,
    alloc: Global,
    shared: &Mutex<KeyRing<S>>,
    setup: &Setup,
    number: u64,
    receipt: u64,
    packet: Vec<u8>,
) -> Result<Held<S>, Fate<Held<S>>>
    requires ciphertext { setup.now.geometry.ct ≡ S.K.CT }
    requires moment { receipt < 2 ^ 60 }
    ensures held { IfOk result
        (IsUnwrapped S.meaning setup.now number receipt packet.items) }
    ensures cause { IfErr result
        (HasCause S.meaning setup.now number receipt packet.items) }
    ensures unclaimed { IfErr result IsUnclaimed }
{
    let keys = match keys_at(rt, alloc, shared, setup, receipt) {
        Ok(keys) => keys,
        Err(KeyFault::NoKey { epoch: _ }) => return Err(Fate::Unkeyed),
        Err(KeyFault::Memory) => return Err(Fate::Dropped),
    };
    match peel(
        alloc,
        &setup.geometry,
        &setup.times,
        &keys,
        number,
        receipt,
        packet,
    ) {
        Ok(held) => Ok(held),
        Err(PeelFault::Refused(_)) => Err(Fate::Refused),
        Err(PeelFault::Memory) => Err(Fate::Dropped),
    }
}

/// Claims the packet's tag at the shard that it belongs to, and wakes those who wait for packets.
fn admit<H: Wait, R: Rack, S: Suite, G: Gate>(
    seat: &mut Seat<'_, H, R, S>,
    claims: &Bell,
    gate: &G,
    worker: u32,
    held: Held<S>,
) -> Fate<Held<S>>
    requires some { 0 < length seat.old.locks }
    requires even { seat.old.caller % 2 ≡ 0 }
    requires open { IsOpen seat.old }
    requires setup { held.setup ≡ seat.old.setup }
    ensures settled { Settles result seat.old seat.new }
    ensures item { IfClaimed result (λ item. item ≡ held) }
    ensures answered { NotRefused result }
{
    let item = Snapshot::of(&held);
    let number = held.number();
    let shard = usize::from(held.tag()[0]) % seat.shards();
    gate.before_claim(worker, number);
    let answer = seat.claim(shard, held);
    gate.after_claim(worker, number);
    claims.ring_all();
    fate_of(answer, item)
}

/// What an answer to a claim means for the packet.
fn fate_of<P: Drop>(answer: Result<(), Denied>, item: Snapshot<P>) -> Fate<P>
    ensures { IsFateOf (admit_answer answer) item.value result }
{
    match answer {
        Ok(()) => Fate::Claimed { item },
        Err(fault) => match fault {
            Denied::Memory => Fate::Dropped,
            Denied::Retired { floor: _ } => Fate::Claimed { item },
            Denied::Spent => Fate::Claimed { item },
            Denied::ShardFull => Fate::Claimed { item },
            Denied::Disk => Fate::Claimed { item },
            Denied::Journal(_) => Fate::Claimed { item },
        },
    }
}

/// A caller that has dealt with all its packets and has ended at each shard.
#[derive(Drop)]
pub struct DealerEnd<'a, H: Wait, R: Rack, S: Suite> {
    pub(crate) seat: Seat<'a, H, R, S>,
    pub(crate) log: History<Dealt<Held<S>>>,
    pub(crate) dropped: u64,
}

impl<'a, H: Wait, R: Rack, S: Suite> Dealer<'a, H, R, S> {
    /// Notes a packet for which memory was wanting.
    pub(crate) fn lose(&mut self, number: u64, receipt: u64, packet: Snapshot<Vec<u8>>)
        ensures seat { self.new.seat ≡ self.old.seat }
        ensures log { Notes number receipt packet.value.items self.old.log self.new.log }
    {
        let fate = Fate::Dropped;
        self.dropped = counted(self.dropped, &fate);
        self.log.push(&Dealt {
            number,
            receipt,
            packet,
            fate,
        });
    }

    /// The runtime.
    pub(crate) fn rt(&self) -> &'a H {
        self.seat.rt
    }

    /// The allocator.
    pub(crate) fn alloc(&self) -> Global {
        self.seat.alloc
    }

    /// The passes, where it deals with nothing.
    pub(crate) fn into_passes(self) -> Vec<ShardPass<R, S>>
        ensures { result.items ≡ self.entry.seat.passes }
    {
        let Dealer {
            seat,
            keys: _,
            claims: _,
            log: _,
            dropped: _,
        } = self;
        seat.into_passes()
    }

    /// Ends at each shard, and wakes those who wait for that.
    pub(crate) fn end(self) -> DealerEnd<'a, H, R, S>
        ensures seat { IsSameSeat self.entry.seat result.seat }
        ensures log { result.log.items ≡ self.entry.log }
        ensures dropped { result.dropped ≡ self.entry.dropped }
        ensures dealt { HasDealt S.meaning
            (record { seat = result.seat; log = result.log.items; dropped = result.dropped }) }
        ensures moves { MovesNothing result.seat.passes }
    {
        let Dealer {
            mut seat,
            keys: _,
            claims,
            log,
            dropped,
        } = self;
        end_all(&mut seat);
        claims.ring_all();
        DealerEnd { seat, log, dropped }
    }
}

/// Ends at each shard.
pub(crate) fn end_all<H: Wait, R: Rack, S: Suite>(seat: &mut Seat<'_, H, R, S>)
    requires open { IsOpen seat.old }
    requires moves { MovesNothing seat.old.passes }
    ensures claims { ClaimsNothing seat.old seat.new }
    ensures moves { MovesNothing seat.new.passes }
{
    for shard in 0..seat.shards() {
        seat.end(shard);
    }
}
