// The keys that a node's actors share, so that no pair is derived by each of them. What comes from the shared place is
// checked: a key says of which seed and epoch it is.
ghost use Rattle.std.specs.Prelude.{◌≡◌, ◌^◌, ◌<◌, ◌∷◌, Some, IfOk, IfErr, IfSome, IsTrue};
ghost use Rattle.std.specs.Option.{option_map, option_to_list};
ghost use Rattle.epoch_keys.specs.Epochs.{live_epochs};
ghost use Rattle.epoch_keys.specs.Faults.{IfNoKey};
ghost use Rattle.epoch_keys.specs.Keys.{first_without_pair};

use epoch_keys::{EpochKey, KeyFault, KeyRing, Keys, Live, live};
use mix_base::Suite;
use mix_shard::Setup;
use std::alloc::Global;
use std::sync::{Mutex, Wait};

/// The keys of the epochs that are live at a moment below 2^60.
pub(crate) fn keys_at<H: Wait, S: Suite>(
    rt: &H,
    alloc: Global,
    shared: &Mutex<KeyRing<S>>,
    setup: &Setup,
    moment: u64,
) -> Result<Keys<S>, KeyFault>
    requires { moment < 2 ^ 60 }
    ensures epochs { IfOk result (λ keys. keys.first.value.epoch
        ∷ option_to_list (option_map (λ key. key.value.epoch) keys.other)
        ≡ live_epochs setup.now.times moment) }
    ensures first_seed { IfOk result (λ keys. keys.first.value.seed ≡ setup.now.seed) }
    ensures other_seed { IfOk result (λ keys.
        IfSome keys.other (λ key. key.value.seed ≡ setup.now.seed)) }
    ensures no_key { IfErr result (λ fault. IfNoKey fault (λ named.
        first_without_pair S.meaning.kem setup.now.seed (live_epochs setup.now.times moment)
        ≡ Some named)) }
{
    let found = shared.lock(rt).keys_at(alloc, moment);
    if let Ok(keys) = found {
        if are_of(&keys, setup, moment) {
            return Ok(keys);
        }
    }
    KeyRing::new(&setup.seed, setup.times).keys_at(alloc, moment)
}

/// Whether these are the keys of this seed and of the epochs that are live at the moment.
fn are_of<S: Suite>(keys: &Keys<S>, setup: &Setup, moment: u64) -> bool
    requires { moment < 2 ^ 60 }
    ensures epochs { IsTrue result → keys.now.first.value.epoch
        ∷ option_to_list (option_map (λ key. key.value.epoch) keys.now.other)
        ≡ live_epochs setup.now.times moment }
    ensures first_seed { IsTrue result → keys.now.first.value.seed ≡ setup.now.seed }
    ensures other_seed { IsTrue result →
        IfSome keys.now.other (λ key. key.value.seed ≡ setup.now.seed) }
{
    let Live { first, other } = live(moment, &setup.times);
    if !is_of(&keys.first, setup, first) {
        return false;
    }
    match (&keys.other, other) {
        (None, None) => true,
        (Some(key), Some(epoch)) => is_of(key, setup, epoch),
        _ => false,
    }
}

/// Whether this is the key of an epoch under the node's seed.
fn is_of<S: Suite>(key: &EpochKey<S>, setup: &Setup, epoch: u64) -> bool
    ensures epoch { IsTrue result → key.now.epoch ≡ epoch }
    ensures seed { IsTrue result → key.now.seed ≡ setup.now.seed }
{
    key.epoch == epoch && key.seed == setup.seed
}
