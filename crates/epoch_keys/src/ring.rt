// A node's keys at a moment. The ring holds the two keys that it was asked for last, so as moments go on each is
// derived once.
ghost use Rattle.std.specs.Prelude.{◌≡◌, ℕ, ◌^◌, ◌<◌, ◌∷◌, List, Some, None, IfSome, IfNone, IfOk};
ghost use Rattle.std.specs.Prelude.{OnOk, OnErr, IfErr, All, Contains};
ghost use Rattle.std.specs.Option.{ForSome, option_map, option_to_list};
ghost use Rattle.epoch_keys.specs.Faults.{IfNoKey, IfUnpaired, IfFirstUnpaired};
ghost use Rattle.epoch_keys.specs.Keys.{first_without_pair};
ghost use Rattle.epoch_keys.specs.Ring.{RingOf, asked, asked_all, held_epochs, is_newest, live_by};

use crate::{EpochKey, KeyFault, Times, epoch_pair, live};
use mix_base::Suite;
use std::alloc::{AllocError, Global};
use std::marker::Model;
use std::sync::Arc;

/// The keys of the epochs that are live at a moment: that of the current epoch, and maybe that of a neighbour.
pub struct Keys<S: Suite> {
    pub first: Arc<EpochKey<S>>,
    pub other: Option<Arc<EpochKey<S>>>,
}

impl<S: Suite> Drop for Keys<S> {
    fn drop(self) {
        let Keys { first: _, other: _ } = self;
    }
}

/// The keys of a node's seed: the two that it was asked for last are held, so that they aren't derived again.
pub struct KeyRing<S: Suite> {
    seed: [u8; 32],
    times: Times,
    newest: Option<Arc<EpochKey<S>>>,
    before: Option<Arc<EpochKey<S>>>,
}

impl<S: Suite> Model for KeyRing<S> {
    ghost Value = { RingOf };

    ghost view = { λ ring. record {
      seed = ring.seed;
      times = ring.times;
      newest = option_map (λ key. key.value.epoch) ring.newest;
      before = option_map (λ key. key.value.epoch) ring.before;
    } };

    ghost invariant = { λ ring. ForSome ring.newest (λ key. key.value.seed ≡ ring.seed)
        × ForSome ring.before (λ key. key.value.seed ≡ ring.seed) };
}

impl<S: Suite> Drop for KeyRing<S> {
    fn drop(self) {
        let KeyRing {
            seed: _,
            times: _,
            newest: _,
            before: _,
        } = self;
    }
}

/// One more owner of the held key, if it is the key of this epoch.
fn held<S: Suite>(
    slot: &Option<Arc<EpochKey<S>>>,
    epoch: u64,
) -> Result<Option<Arc<EpochKey<S>>>, AllocError>
    ensures epoch { IfOk result (λ found. IfSome found (λ key. key.value.epoch ≡ epoch)) }
    ensures seed { (seed : List ℕ) → ForSome slot.now (λ key. key.value.seed ≡ seed) →
        IfOk result (λ found. IfSome found (λ key. key.value.seed ≡ seed)) }
{
    match slot {
        Some(key) if key.epoch == epoch => Ok(Some(Arc::try_clone(key)?)),
        _ => Ok(None),
    }
}

/// One more owner of the key, if there is one.
fn shared<S: Suite>(slot: &Option<Arc<EpochKey<S>>>) -> Result<Option<Arc<EpochKey<S>>>, AllocError>
    ensures { IfOk result
        (λ found. option_map (λ key. key.value) found ≡ option_map (λ key. key.value) slot.now) }
{
    match slot {
        Some(key) => Ok(Some(Arc::try_clone(key)?)),
        None => Ok(None),
    }
}

impl<S: Suite> KeyRing<S> {
    /// The ring of this seed, which holds no key yet. Takes no memory.
    pub fn new(seed: &[u8; 32], times: Times) -> KeyRing<S>
        ensures { result ≡ record { seed = seed.now; times = times; newest = None; before = None } }
    {
        KeyRing {
            seed: *seed,
            times,
            newest: None,
            before: None,
        }
    }

    /// The key of an epoch, held or made.
    fn key_of(&self, alloc: Global, epoch: u64) -> Result<Arc<EpochKey<S>>, KeyFault>
        ensures seed { IfOk result (λ key. key.value.seed ≡ self.now.seed) }
        ensures epoch { IfOk result (λ key. key.value.epoch ≡ epoch) }
        ensures no_key { IfErr result (IfUnpaired S.meaning.kem self.now.seed epoch) }
        ensures named { IfErr result (λ fault. IfNoKey fault (λ named. named ≡ epoch)) }
    {
        if let Some(key) = held(&self.newest, epoch)? {
            return Ok(key);
        }
        if let Some(key) = held(&self.before, epoch)? {
            return Ok(key);
        }
        Ok(Arc::new(alloc, epoch_pair(alloc, &self.seed, epoch)?)?)
    }

    /// Makes this key of the ring's seed the newest.
    fn keep(&mut self, key: Arc<EpochKey<S>>)
        requires { key.value.seed ≡ self.old.seed }
        ensures { self.new ≡ asked self.old key.value.epoch }
    {
        let is_newest = match &self.newest {
            Some(newest) => newest.epoch == key.epoch,
            None => false,
        };
        if !is_newest {
            self.before = self.newest.replace(key);
        }
    }

    /// The keys of the epochs that are live at a moment below 2^60, the current one first. `NoKey` comes exactly where
    /// the words of one of them make no pair, and names the first of these. Afterwards the ring holds these keys; after
    /// a refusal it is as it was.
    pub fn keys_at(&mut self, alloc: Global, moment: u64) -> Result<Keys<S>, KeyFault>
        requires { moment < 2 ^ 60 }
        ensures epochs { IfOk result (λ keys.
            keys.first.value.epoch ∷ option_to_list (option_map (λ key. key.value.epoch) keys.other)
            ≡ live_by self.old moment) }
        ensures first_seed { IfOk result (λ keys. keys.first.value.seed ≡ self.old.seed) }
        ensures other_seed { IfOk result (λ keys.
            IfSome keys.other (λ key. key.value.seed ≡ self.old.seed)) }
        ensures all_paired { OnOk result
            (first_without_pair S.meaning.kem self.old.seed (live_by self.old moment) ≡ None) }
        ensures no_key { IfErr result
            (IfFirstUnpaired S.meaning.kem self.old.seed (live_by self.old moment)) }
        ensures same_seed { self.new.seed ≡ self.old.seed }
        ensures same_times { self.new.times ≡ self.old.times }
        ensures holds { OnOk result
            (All (Contains (held_epochs self.new)) (live_by self.old moment)) }
        ensures newest { OnOk result (self.new ≡ asked_all self.old (live_by self.old moment)) }
        ensures refused { OnErr result (self.new ≡ self.old) }
    {
        let live = live(moment, &self.times);
        let first = self.key_of(alloc, live.first)?;
        let other = match live.other {
            Some(epoch) => Some(self.key_of(alloc, epoch)?),
            None => None,
        };
        let keys = Keys { first, other };
        let first = Arc::try_clone(&keys.first)?;
        let other = shared(&keys.other)?;
        self.keep(first);
        if let Some(other) = other {
            self.keep(other);
        }
        Ok(keys)
    }
}
