// The key pair of an epoch under a node's seed, as a value that can't hold another pair.
ghost use Rattle.std.specs.Prelude.{◌≡◌, ℕ, length, Some, None, IfOk, IfErr};
ghost use Rattle.epoch_keys.specs.Keys.{epoch_seed};
ghost use Rattle.epoch_keys.specs.Keys as keys;
ghost use Rattle.epoch_keys.specs.Faults.{IfNoKey, IfUnpaired};

use crate::KeyFault;
use mix_base::{Bytes, Kem, PairFault, Suite};
use prim_std::{ChaWords, Hmac};
use std::alloc::Global;
use std::marker::PhantomData;

// What an epoch's words are derived for.
const LABEL: &[u8; 9] = b"mix-epoch";

/// The key pair of an epoch: the one that the suite's mechanism makes of the epoch's words under this seed, and no
/// other. A public key of the suite's `PK` bytes and a secret key of its `SK` bytes.
pub struct EpochKey<S: Suite> {
    pub seed: [u8; 32],
    pub epoch: u64,
    pub pk: Bytes,
    pub sk: Bytes,
    pub suite: PhantomData<S>,
    pub ghost is_pair: { keys.epoch_pair S.meaning.kem seed epoch ≡ Some (pk, sk) },
    pub ghost public_length: { length pk ≡ S.K.PK },
    pub ghost secret_length: { length sk ≡ S.K.SK },
}

impl<S: Suite> Drop for EpochKey<S> {
    fn drop(self) {
        let EpochKey {
            seed: _,
            epoch: _,
            pk: _,
            sk: _,
            suite: _,
        } = self;
    }
}

/// The key of an epoch's words: the code of a label and of the epoch's number, eight bytes from the highest on, under
/// the seed.
#[tactic(auto, unfolding(crate::specs::Keys::epoch_seed))]
fn words_key(seed: &[u8; 32], epoch: u64) -> [u8; 32]
    ensures { result ≡ epoch_seed seed.now epoch }
{
    let mut code = Hmac::new(seed);
    code.add(LABEL);
    code.add(&epoch.to_be_bytes());
    code.finish()
}

/// The key pair of an epoch under a seed. `NoKey` comes exactly where the epoch's words make no pair.
pub fn epoch_pair<S: Suite>(
    alloc: Global,
    seed: &[u8; 32],
    epoch: u64,
) -> Result<EpochKey<S>, KeyFault>
    ensures seed { IfOk result (λ key. key.seed ≡ seed.now) }
    ensures epoch { IfOk result (λ key. key.epoch ≡ epoch) }
    ensures pair { IfOk result
        (λ key. keys.epoch_pair S.meaning.kem seed.now epoch ≡ Some (key.pk, key.sk)) }
    ensures no_key { IfErr result (IfUnpaired S.meaning.kem seed.now epoch) }
    ensures named { IfErr result (λ fault. IfNoKey fault (λ named. named ≡ epoch)) }
{
    let mut words = ChaWords::new(&words_key(seed, epoch));
    let mut pk = vec![in alloc; 0; S::K::PK]?;
    let mut sk = vec![in alloc; 0; S::K::SK]?;
    match S::K::pair(alloc, &mut words, &mut pk, &mut sk) {
        Ok(()) => Ok(EpochKey {
            seed: *seed,
            epoch,
            pk: Bytes::of(pk),
            sk: Bytes::of(sk),
            suite: PhantomData,
        }),
        Err(PairFault::NoKey) => Err(KeyFault::NoKey { epoch }),
        Err(PairFault::Memory) => Err(KeyFault::Memory),
    }
}
