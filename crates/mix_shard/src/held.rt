// A packet that was unwrapped, and can't be another's: it is what the keys that were live at its receipt make of it.
ghost use Rattle.std.specs.Prelude.{◌≡◌, ℕ, ◌+◌, ◌^◌, ◌<◌, ◌≤◌, ◌↔◌, ◌∷◌, Some, None, Ok, Err, IfOk, IfErr, IfSome, IsSomeAnd, IsErrOf, option_map};
ghost use Rattle.std.specs.Option.{option_to_list};
ghost use Rattle.mix_base.specs.Results.{Gives};
ghost use Rattle.epoch_keys.specs.Epochs.{live_epochs};
ghost use Rattle.epoch_keys.specs.Epochs as epochs;
ghost use Rattle.epoch_keys.specs.Keys.{epoch_secret_key};
ghost use Rattle.sphinx_unwrap.specs.Faults.{cause_of};
ghost use Rattle.sphinx_unwrap.specs.Layer.{HasOtherLength, HasOtherVersion};
ghost use Rattle.mix_shard.specs.Faults.{IfRefused};
ghost use Rattle.mix_shard.specs.Items.{IsHeld, destination, peeled, setup_of, whens};
ghost use Rattle.mix_shard.specs.LiveKeys.{opened_at, opened_with};

use crate::faults::PeelFault;
use crate::setup::Setup;
use due_queue::{Dest, Due};
use epoch_keys::{EpochKey, Keys, Times, least_live};
use mix_base::{Bytes, Suite};
use packet_form::Geometry;
use sphinx_unwrap::{Opened, Out, Refused, UnwrapFault, unwrap};
use std::alloc::Global;
use std::marker::{Model, PhantomData};
use std::snapshot::Snapshot;

/// A packet that arrived and was unwrapped under a key that was live at its receipt. The key is the first of the node's
/// seed, the current epoch's before its neighbour's, that opens the packet.
pub struct Held<S: Suite> {
    setup: Setup,
    number: u64,
    at: u64,
    epoch: u64,
    tag: [u8; 32],
    due: u64,
    out: Out,
    packet: Bytes,
    suite: PhantomData<S>,
}

impl<S: Suite> Model for Held<S> {
    ghost use Rattle.mix_shard.specs.Items.{Item, IsHeld, item_with};

    ghost Value = { Item };

    ghost view = { λ h. item_with h.setup h.number h.at h.epoch h.tag h.due h.out h.packet };

    ghost invariant = { λ h. IsHeld S.meaning
        (item_with h.setup h.number h.at h.epoch h.tag h.due h.out h.packet) };
}

impl<S: Suite> Drop for Held<S> {
    fn drop(self) {
        let Held {
            setup: _,
            number: _,
            at: _,
            epoch: _,
            tag: _,
            due: _,
            out: _,
            packet: _,
            suite: _,
        } = self;
    }
}

impl<S: Suite> Held<S> {
    /// The number of its arrival.
    pub fn number(&self) -> u64
        ensures value { result ≡ self.now.number }
        ensures held { IsHeld S.meaning self.now }
    {
        self.number
    }

    /// The moment of its receipt, in milliseconds.
    pub fn at(&self) -> u64
        ensures { result ≡ self.now.at }
    {
        self.at
    }

    /// The moment from which it may be handed on: that of its receipt and the delay that it asks for.
    pub fn due(&self) -> u64
        ensures { result ≡ self.now.due }
    {
        self.due
    }

    /// The epoch of the key that opens it.
    pub fn epoch(&self) -> u64
        ensures { result ≡ self.now.epoch }
    {
        self.epoch
    }

    /// Its replay tag.
    pub fn tag(&self) -> &[u8; 32]
        ensures { result.now ≡ self.now.tag }
    {
        &self.tag
    }

    /// What goes out.
    pub fn out(&self) -> &Out
        ensures { result.now ≡ self.now.out }
    {
        &self.out
    }

    /// The packet as it arrived.
    pub fn packet(&self) -> &[u8]
        ensures { result.now ≡ self.now.packet }
    {
        self.packet.as_slice()
    }

    /// The least epoch that was live at its receipt.
    pub(crate) fn least(&self) -> u64
        ensures value { result ≡ epochs.least_live self.now.setup.times self.now.at }
        ensures low { result ≤ self.now.epoch }
        ensures high { self.now.epoch ≤ result + 1 }
    {
        least_live(self.at, &self.setup.times)
    }

    /// The packet, for contracts alone.
    pub(crate) fn remembered(&self) -> Snapshot<Bytes>
        ensures { result.value ≡ self.now.packet }
    {
        Snapshot::of(&self.packet)
    }

    /// The geometry that it was unwrapped under.
    pub fn geo(&self) -> Geometry
        ensures { result ≡ self.now.setup.geometry }
    {
        self.setup.geometry
    }

    /// The seed of the keys that it was unwrapped under.
    pub fn seed(&self) -> &[u8; 32]
        ensures { result.now ≡ self.now.setup.seed }
    {
        &self.setup.seed
    }

    /// The epochs that it was unwrapped under.
    pub fn times(&self) -> Times
        ensures { result ≡ self.now.setup.times }
    {
        self.setup.times
    }
}

impl<S: Suite> Due for Held<S> {
    ghost told = { λ held. whens held };

    fn due(&self) -> u64 {
        self.due
    }

    fn number(&self) -> u64 {
        self.number
    }

    fn dest(&self) -> Dest {
        destination_of(&self.out)
    }
}

/// Where what goes out is to go: to the next hop, or to a recipient of this node.
fn destination_of(out: &Out) -> Dest
    ensures { result ≡ destination out.now }
{
    match out {
        Out::Forward { next, packet: _ } => Dest::Hop(*next),
        _ => Dest::Local,
    }
}

/// The packet under one key.
fn open_with<S: Suite>(
    alloc: Global,
    geometry: &Geometry,
    key: &EpochKey<S>,
    packet: &[u8],
) -> Result<Opened, UnwrapFault>
    requires { geometry.now.ct ≡ S.K.CT }
    ensures exact { IsSomeAnd (epoch_secret_key S.meaning.kem key.now.seed key.now.epoch) (λ secret.
        Gives cause_of result
        (opened_with S.meaning geometry.now packet.now (key.now.epoch, secret)).1) }
    ensures length { IsErrOf result (UnwrapFault.Refused Refused.Length) ↔
        HasOtherLength geometry.now packet.now }
    ensures version { IsErrOf result (UnwrapFault.Refused Refused.Version) ↔
        HasOtherVersion geometry.now packet.now }
{
    unwrap::<S>(alloc, geometry, key.sk.as_slice(), packet)
}

/// The packet under the keys of the epochs that were live at its receipt: the epoch whose key opens it, and the packet
/// unwrapped.
fn open_live<S: Suite>(
    alloc: Global,
    setup: &Setup,
    keys: &Keys<S>,
    at: u64,
    packet: &[u8],
) -> Result<(u64, Opened), UnwrapFault>
    requires ciphertext { setup.now.geometry.ct ≡ S.K.CT }
    requires epochs { keys.now.first.value.epoch
        ∷ option_to_list (option_map (λ key. key.value.epoch) keys.now.other)
        ≡ live_epochs setup.now.times at }
    requires first_seed { keys.now.first.value.seed ≡ setup.now.seed }
    requires other_seed { IfSome keys.now.other (λ key. key.value.seed ≡ setup.now.seed) }
    ensures exact { IsSomeAnd (opened_at S.meaning setup.now at packet.now)
        (Gives cause_of result) }
    ensures length { IsErrOf result (UnwrapFault.Refused Refused.Length) ↔
        HasOtherLength setup.now.geometry packet.now }
    ensures version { IsErrOf result (UnwrapFault.Refused Refused.Version) ↔
        HasOtherVersion setup.now.geometry packet.now }
{
    match (
        open_with(alloc, &setup.geometry, &keys.first, packet),
        &keys.other,
    ) {
        (Ok(opened), _) => Ok((keys.first.epoch, opened)),
        (Err(UnwrapFault::Refused(Refused::Sealed)), Some(other)) => {
            let opened = open_with(alloc, &setup.geometry, other, packet)?;
            Ok((other.epoch, opened))
        }
        (Err(fault), _) => Err(fault),
    }
}

/// Unwraps a packet that arrived with this number, 1 or more, at a moment below 2^60 in milliseconds. Asks a geometry of
/// the suite's ciphertext, and the keys of the epochs that are live at the moment, all of one seed. A refusal is the
/// first cause of the order of `Refused`: `Sealed` where neither key opens the packet, and `Commands` by the first key
/// that does.
pub fn peel<S: Suite>(
    alloc: Global,
    geo: &Geometry,
    times: &Times,
    keys: &Keys<S>,
    number: u64,
    at: u64,
    packet: Vec<u8>,
) -> Result<Held<S>, PeelFault>
    requires ciphertext { geo.now.ct ≡ S.K.CT }
    requires moment { at < 2 ^ 60 }
    requires epochs { keys.now.first.value.epoch
        ∷ option_to_list (option_map (λ key. key.value.epoch) keys.now.other)
        ≡ live_epochs times.now at }
    requires one_seed { IfSome keys.now.other (λ key. key.value.seed ≡ keys.now.first.value.seed) }
    ensures held { let setup = setup_of geo.now times.now keys.now.first.value.seed in
        IfOk result (λ held. peeled S.meaning setup number at packet.items ≡ Some (Ok held)) }
    ensures refused { let setup = setup_of geo.now times.now keys.now.first.value.seed in
        IfErr result (λ fault. IfRefused fault (λ why.
        peeled S.meaning setup number at packet.items ≡ Some (Err why))) }
    ensures setup { IfOk result (λ held.
        held.setup ≡ setup_of geo.now times.now keys.now.first.value.seed) }
    // These refusals come whether or not there is memory.
    ensures length { IsErrOf result (PeelFault.Refused Refused.Length) ↔
        HasOtherLength geo.now packet.items }
    ensures version { IsErrOf result (PeelFault.Refused Refused.Version) ↔
        HasOtherVersion geo.now packet.items }
{
    let setup = Setup {
        geometry: *geo,
        times: *times,
        seed: keys.first.seed,
    };
    let (epoch, opened) = open_live(alloc, &setup, keys, at, &packet)?;
    let Opened { tag, delay, out } = opened;
    Ok(Held {
        setup,
        number,
        at,
        epoch,
        tag,
        due: at + u64::from(delay.unwrap_or(0)),
        out,
        packet: Bytes::of(packet),
        suite: PhantomData,
    })
}
