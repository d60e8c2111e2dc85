// The nodes of the network that settings describe, and their keys of an epoch.
ghost use Rattle.std.specs.Prelude.{◌≡◌, ℕ, ◌+◌, ◌*◌, ◌<◌, ◌≤◌, List, length, None, Some, IfOk, IfErr};
ghost use Rattle.std.specs.Int.{to_be_bytes};
ghost use Rattle.epoch_keys.specs.Faults.{IfNoKey};
ghost use Rattle.lab_text.specs.Settings.{IsConfigInRange};
ghost use Rattle.mix_tools.specs.Suites.{meaning_for, scheme_for};
ghost use Rattle.mix_waves.specs.Choosing.{AreKeys, IsKey};
ghost use Rattle.mix_waves.specs.Network as network;

use epoch_keys::{KeyFault, Times, epoch_pair};
use lab_text::Config;
use mix_base::{Bytes, Kem, Suite};
use ntru_prime::NtruKem;
use packet_form::Geometry;
use prim_std::{Hmac, LabKem};
use std::alloc::Global;

/// The geometry of the network's packets: a path has a hop in each layer.
pub fn geometry(config: &Config) -> Geometry
    requires { IsConfigInRange config.now }
    ensures { result ≡ network.sizes_of config.now }
{
    let ct = if config.ntru { NtruKem::CT } else { LabKem::CT };
    let Ok(geometry) = Geometry::new(ct, config.layers as usize, config.body) else {
        unreachable!()
    };
    geometry
}

/// The epochs of the network.
pub fn times(config: &Config) -> Times
    requires { IsConfigInRange config.now }
    ensures { result ≡ network.times_of config.now }
{
    let Ok(times) = Times::new(config.epoch, config.grace) else {
        unreachable!()
    };
    times
}

/// The number of the node at a place of a layer.
pub fn node_number(config: &Config, layer: u8, place: u8) -> u32
    ensures { result ≡ network.number_of config.now layer place }
{
    layer as u32 * config.width as u32 + place as u32
}

/// The id of the node at a place of a layer.
pub fn node_id(layer: u8, place: u8) -> [u8; 32]
    ensures { result ≡ network.node_id layer place }
{
    let mut id = [0; 32];
    id[0] = layer;
    id[1] = place;
    id
}

/// The seed of the node at a place of a layer.
pub fn node_seed(config: &Config, layer: u8, place: u8) -> [u8; 32]
    ensures { result ≡ network.node_seed config.now layer place }
{
    let mut code = Hmac::new(&config.seed);
    code.add(b"mix-node");
    code.add(&[layer, place]);
    code.finish()
}

/// The first of the sixteen disks that belong to the node with this number, of which each shard has one.
pub fn first_disk(number: u32) -> u64
    ensures { result ≡ network.first_disk number }
{
    16 * number as u64
}

/// The public keys of all nodes, by their numbers, in the suite of the settings. `NoKey` comes only where a node has none.
pub fn node_keys<S: Suite>(
    alloc: Global,
    config: &Config,
    epoch: u64,
) -> Result<Vec<Bytes>, KeyFault>
    requires suite { S.meaning ≡ meaning_for config.now.ntru }
    requires in_range { IsConfigInRange config.now }
    ensures keys { IfOk result (λ keys. network.all_keys config.now epoch ≡ Some keys.items) }
    ensures fine { IfOk result (λ keys. AreKeys config.now keys.items) }
    ensures no_key { IfErr result (λ fault. IfNoKey fault (λ named.
        (named ≡ epoch) × (network.all_keys config.now epoch ≡ None))) }
{
    let count = config.layers * config.width;
    let mut keys = Vec::new(alloc);
    'nodes: for number in 0..count {
        match node_key::<S>(alloc, config, epoch, number) {
            Ok(key) => keys.push(key)?,
            Err(fault) => return Err(fault),
        }
    }
    Ok(keys)
}

/// The public key of the node with this number.
fn node_key<S: Suite>(
    alloc: Global,
    config: &Config,
    epoch: u64,
    number: u8,
) -> Result<Bytes, KeyFault>
    requires suite { S.meaning ≡ meaning_for config.now.ntru }
    requires width { 0 < config.now.width }
    ensures key { IfOk result (λ key. network.key_of config.now epoch number ≡ Some key) }
    ensures fine { IfOk result (IsKey config.now) }
    ensures no_key { IfErr result (λ fault. IfNoKey fault (λ named.
        (named ≡ epoch) × (network.key_of config.now epoch number ≡ None))) }
{
    let seed = node_seed(config, number / config.width, number % config.width);
    let key = epoch_pair::<S>(alloc, &seed, epoch)?;
    Ok(Bytes::of(key.pk.as_slice().to_vec(alloc)?))
}
