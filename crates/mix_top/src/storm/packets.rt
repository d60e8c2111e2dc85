// The packets of a storm, made one after the other: fresh, the last fresh one again, one with another MAC, one that is cut.
ghost use Rattle.std.specs.Prelude.{◌≡◌, ◌<◌, ◌≤◌, ◌^◌, length, None, Some, Ok, IfOk, IfErr};
ghost use Rattle.epoch_keys.specs.Faults.{IfNoKey};
ghost use Rattle.epoch_keys.specs.Keys.{epoch_public_key};
ghost use Rattle.packet_form.specs.Geometry as lengths;
ghost use Rattle.sphinx_make.specs.Faults.{cause_of};
ghost use Rattle.sphinx_make.specs.Making.{made_packet};
ghost use Rattle.mix_top.specs.Storm.{body_of, changed, epoch_of, made_again, made_fresh, made_last};
ghost use Rattle.mix_top.specs.Storm.{next_packet, path_with, recipient_id};
ghost use Rattle.mix_top.specs.Storming.{AreSealing, IsSealing, IsStormNode, LacksKey, making_at};

use epoch_keys::{EpochKey, KeyFault, epoch_pair};
use mix_base::{Bytes, Kem, Suite, Words, next_words};
use node_core::NodeSetup;
use sphinx_make::{HopSpec, MakeFault, make_packet};
use std::alloc::{AllocError, Global};

/// Makes the packets of a storm: the words to come, the last fresh packet, and the key pair that was derived last.
pub struct PacketMaker<S: Suite, W: Words> {
    pub words: W,
    pub last: Option<Bytes>,
    pub key: Option<EpochKey<S>>,
}

impl<S: Suite, W: Words> Drop for PacketMaker<S, W> {
    fn drop(self) {
        let PacketMaker {
            words: _,
            last: _,
            key: _,
        } = self;
    }
}

impl<S: Suite, W: Words> PacketMaker<S, W> {
    /// With these words to come. Takes no memory.
    pub fn new(words: W) -> PacketMaker<S, W>
        ensures words { result.words ≡ words }
        ensures last { result.last ≡ None }
    {
        PacketMaker {
            words,
            last: None,
            key: None,
        }
    }

    /// The next packet, of this number.
    pub fn next_packet(
        &mut self,
        alloc: Global,
        setup: &NodeSetup,
        number: u64,
    ) -> Result<Bytes, KeyFault>
        requires ciphertext { setup.now.geo.ct ≡ S.K.CT }
        requires node { IsStormNode setup.now }
        requires number { number < 2 ^ 20 }
        requires sealing { AreSealing S.meaning.kem }
        ensures packet { IfOk result (λ packet.
            next_packet S.meaning setup.now number
            (making_at (W.to_come self.old.words) self.old.last)
            ≡ Some (packet, making_at (W.to_come self.new.words) self.new.last)) }
        ensures no_key { IfErr result (λ fault.
            IfNoKey fault (LacksKey S.meaning setup.now number)) }
        ensures none { IfErr result (λ fault.
            IfNoKey fault (λ epoch. next_packet S.meaning setup.now number
            (making_at (W.to_come self.old.words) self.old.last) ≡ None)) }
    {
        match self.words.next() % 8 {
            5 => self.again(alloc, setup, number),
            6 => {
                let mut packet = self.fresh(alloc, setup, number)?;
                change_mac(setup, &mut packet);
                Ok(Bytes::of(packet))
            }
            7 => {
                let mut packet = self.fresh(alloc, setup, number)?;
                packet.truncate(packet.len() - 1);
                Ok(Bytes::of(packet))
            }
            _ => self.fresh_and_last(alloc, setup, number),
        }
    }

    /// The last packet of kind fresh again; where there is none, one of kind fresh.
    fn again(&mut self, alloc: Global, setup: &NodeSetup, number: u64) -> Result<Bytes, KeyFault>
        requires ciphertext { setup.now.geo.ct ≡ S.K.CT }
        requires node { IsStormNode setup.now }
        requires number { number < 2 ^ 20 }
        requires sealing { AreSealing S.meaning.kem }
        ensures packet { IfOk result (λ packet.
            made_again S.meaning setup.now number self.old.last
            (making_at (W.to_come self.old.words) self.old.last)
            ≡ Some (packet, making_at (W.to_come self.new.words) self.new.last)) }
        ensures no_key { IfErr result (λ fault.
            IfNoKey fault (LacksKey S.meaning setup.now number)) }
        ensures none { IfErr result (λ fault. IfNoKey fault (λ epoch.
            made_again S.meaning setup.now number self.old.last
            (making_at (W.to_come self.old.words) self.old.last) ≡ None)) }
    {
        match &self.last {
            Some(last) => Ok(copied(alloc, last)?),
            None => self.fresh_and_last(alloc, setup, number),
        }
    }

    /// A packet of kind fresh, which is the last one from now on.
    fn fresh_and_last(
        &mut self,
        alloc: Global,
        setup: &NodeSetup,
        number: u64,
    ) -> Result<Bytes, KeyFault>
        requires ciphertext { setup.now.geo.ct ≡ S.K.CT }
        requires node { IsStormNode setup.now }
        requires number { number < 2 ^ 20 }
        requires sealing { AreSealing S.meaning.kem }
        ensures packet { IfOk result (λ packet.
            made_last S.meaning setup.now number
            (making_at (W.to_come self.old.words) self.old.last)
            ≡ Some (packet, making_at (W.to_come self.new.words) self.new.last)) }
        ensures no_key { IfErr result (λ fault.
            IfNoKey fault (LacksKey S.meaning setup.now number)) }
        ensures none { IfErr result (λ fault. IfNoKey fault (λ epoch.
            made_last S.meaning setup.now number
            (making_at (W.to_come self.old.words) self.old.last) ≡ None)) }
    {
        let packet = Bytes::of(self.fresh(alloc, setup, number)?);
        self.last = Some(copied(alloc, &packet)?);
        Ok(packet)
    }

    /// A fresh packet of the words to come.
    fn fresh(&mut self, alloc: Global, setup: &NodeSetup, number: u64) -> Result<Vec<u8>, KeyFault>
        requires ciphertext { setup.now.geo.ct ≡ S.K.CT }
        requires node { IsStormNode setup.now }
        requires number { number < 2 ^ 20 }
        requires sealing { AreSealing S.meaning.kem }
        ensures packet { IfOk result (λ packet.
            made_fresh S.meaning setup.now number
            (making_at (W.to_come self.old.words) self.old.last)
            ≡ Some (packet.items, making_at (W.to_come self.new.words) self.new.last)) }
        ensures length { IfOk result (λ packet.
            length packet.items ≡ lengths.packet setup.now.geo) }
        ensures no_key { IfErr result (λ fault.
            IfNoKey fault (LacksKey S.meaning setup.now number)) }
        ensures none { IfErr result (λ fault. IfNoKey fault (λ epoch.
            made_fresh S.meaning setup.now number
            (making_at (W.to_come self.old.words) self.old.last) ≡ None)) }
    {
        let key = public_key(alloc, setup, &mut self.key, number)?;
        let delay = self.words.next() % 1000;
        let Ok(coins) = next_words(alloc, &mut self.words, S::K::COINS) else {
            return Err(KeyFault::Memory);
        };
        seal::<S>(alloc, setup, number, key, delay, &coins)
    }
}

/// The public key for a packet: that of the epoch that it arrives in. The pair that was derived last is kept.
fn public_key<S: Suite>(
    alloc: Global,
    setup: &NodeSetup,
    kept: &mut Option<EpochKey<S>>,
    number: u64,
) -> Result<Bytes, KeyFault>
    requires number { number < 2 ^ 20 }
    requires epoch { 0 < setup.now.times.epoch }
    requires sealing { AreSealing S.meaning.kem }
    ensures key { IfOk result (λ key.
        epoch_public_key S.meaning.kem setup.now.seed (epoch_of setup.now number) ≡ Some key) }
    ensures length { IfOk result (λ key. length key ≡ S.K.PK) }
    ensures sealing { IfOk result (IsSealing S.meaning.kem) }
    ensures no_key { IfErr result (λ fault. IfNoKey fault (LacksKey S.meaning setup.now number)) }
{
    let epoch = 1000 * number / setup.times.epoch();
    if let Some(key) = kept {
        if key.epoch == epoch && key.seed == setup.seed {
            return Ok(copied(alloc, &key.pk)?);
        }
    }
    let key = epoch_pair::<S>(alloc, &setup.seed, epoch)?;
    let public = copied(alloc, &key.pk)?;
    *kept = Some(key);
    Ok(public)
}

/// A packet for the one hop, with this delay and these coins.
fn seal<S: Suite>(
    alloc: Global,
    setup: &NodeSetup,
    number: u64,
    key: Bytes,
    delay: u32,
    coins: &[u32],
) -> Result<Vec<u8>, KeyFault>
    requires ciphertext { setup.now.geo.ct ≡ S.K.CT }
    requires node { IsStormNode setup.now }
    requires coins { length coins.now ≡ S.K.COINS }
    requires delay { delay < 1000 }
    requires key { length key ≡ S.K.PK }
    requires sealing { IsSealing S.meaning.kem key }
    ensures packet { IfOk result (λ packet. made_packet S.meaning setup.now.geo
        (path_with key delay) recipient_id (body_of setup.now number) None coins.now
        ≡ Ok packet.items) }
    ensures length { IfOk result (λ packet. length packet.items ≡ lengths.packet setup.now.geo) }
    ensures memory { IfErr result (λ fault. fault ≡ KeyFault.Memory) }
{
    let path = [HopSpec {
        id: [0x11; 32],
        key,
        delay: Some(delay),
    }];
    let body = body_for(alloc, setup, number)?;
    match make_packet::<S>(alloc, &setup.geo, &path, &[0x22; 32], &body, None, coins) {
        Ok(packet) => Ok(packet),
        Err(fault) => Err(only_memory(fault)),
    }
}

/// Want of memory, which is all that stops the maker of such a packet.
fn only_memory(fault: MakeFault) -> KeyFault
    requires { cause_of fault ≡ None }
    ensures { result ≡ KeyFault.Memory }
{
    match fault {
        MakeFault::Memory => KeyFault::Memory,
        MakeFault::PathLength
        | MakeFault::BodyLength
        | MakeFault::BlockLength
        | MakeFault::Delay { hop: _ }
        | MakeFault::KeyForm { hop: _ } => unreachable!(),
    }
}

/// The body of a packet.
fn body_for(alloc: Global, setup: &NodeSetup, number: u64) -> Result<Vec<u8>, AllocError>
    requires { 8 ≤ setup.now.geo.body }
    ensures { IfOk result (λ body. body.items ≡ body_of setup.now number) }
{
    let mut body = number.to_be_bytes().to_vec(alloc)?;
    body.resize(setup.geo.body(), 0)?;
    Ok(body)
}

/// Changes the last byte of a packet's MAC, which ends its header.
fn change_mac(setup: &NodeSetup, packet: &mut Vec<u8>)
    requires { length packet.old.items ≡ lengths.packet setup.now.geo }
    ensures { packet.new.items ≡ changed setup.now.geo packet.old.items }
{
    let place = setup.geo.header() - 1;
    packet[place] ^= 1;
}

/// The same bytes once more.
fn copied(alloc: Global, bytes: &Bytes) -> Result<Bytes, AllocError>
    ensures { IfOk result (λ copy. copy ≡ bytes.now) }
{
    Ok(Bytes::of(bytes.as_slice().to_vec(alloc)?))
}
