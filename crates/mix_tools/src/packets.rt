// What a request to `make` makes: a packet or a reply block of the request's suite. Coins are words of the seed's key
// stream, and delays are drawn from the words of another key, so a drawn delay never shifts a coin.
ghost use Rattle.std.specs.Prelude.{◌≡◌, ℕ, ◌+◌, ◌*◌, ◌≤◌, List, length, vec_len, None, Ok, IfOk, All};
ghost use Rattle.std.specs.Option.{option_copied};
ghost use Rattle.mix_base.specs.WordStreams.{SkipsWords};
ghost use Rattle.sphinx_make.specs.Faults.{cause_of};
ghost use Rattle.reply_blocks.specs.Blocks.{keys_seen};
ghost use Rattle.mix_tools.specs.Drafts.{IsDelayInRange, IsRequestInRange};
ghost use Rattle.mix_tools.specs.Packets.{block_made, coins_of, delay_words, hop_from};
ghost use Rattle.mix_tools.specs.Packets.{own_key_of, packet_made, path_from, taken_for};
ghost use Rattle.mix_tools.specs.Suites.{meaning_for, scheme_for};
ghost use Rattle.mix_tools.specs.declared.requests.Request.TheVariants.{Packet, Block};

use crate::requests::{BlockRequest, Delay, Hop, PacketRequest};
use mix_base::{Bytes, Kem, Memory, Suite, Words, draw, next_words, skip_words, write_words};
use ntru_prime::{NtruKem, NtruSuite};
use prim_std::{ChaWords, LabKem, LabSuite, hmac_sha256};
use reply_blocks::{MadeBlock, make_block};
use sphinx_make::{HopSpec, MakeFault, draw_delay, make_packet};
use std::alloc::{AllocError, Global};

// What the words of delays are derived for.
const LABEL: &[u8; 9] = b"mix-delay";

/// The packet of a request.
pub fn packet_for(alloc: Global, request: &PacketRequest) -> Result<Vec<u8>, Memory>
    requires { IsRequestInRange (Packet request.now) }
    ensures { IfOk result (λ made. packet_made request.now ≡ Ok made.items) }
{
    if request.head.layout.ntru {
        packet_with::<NtruSuite>(alloc, request)
    } else {
        packet_with::<LabSuite>(alloc, request)
    }
}

// The packet of a request for this suite.
fn packet_with<S: Suite>(alloc: Global, request: &PacketRequest) -> Result<Vec<u8>, Memory>
    requires suite { S.meaning ≡ meaning_for request.now.head.layout.ntru }
    requires in_range { IsRequestInRange (Packet request.now) }
    ensures { IfOk result (λ made. packet_made request.now ≡ Ok made.items) }
{
    let ntru = request.head.layout.ntru;
    let seed = &request.head.seed;
    let hops = request.hops.as_slice();
    let path = path_in(alloc, seed, hops)?;
    let coins = coins_in(alloc, ntru, seed, hops.len())?;
    match make_packet::<S>(
        alloc,
        &request.head.layout.geometry,
        &path,
        &request.recipient,
        request.body.as_slice(),
        block_in(request),
        &coins,
    ) {
        Ok(made) => Ok(made),
        Err(fault) => Err(only_memory(fault)),
    }
}

/// The reply block of a request, and the keys that its maker keeps.
pub fn block_for(alloc: Global, request: &BlockRequest) -> Result<MadeBlock, Memory>
    requires { IsRequestInRange (Block request.now) }
    ensures { IfOk result (λ made. block_made request.now ≡ Ok (made.block, keys_seen made.keys)) }
{
    if request.head.layout.ntru {
        block_with::<NtruSuite>(alloc, request)
    } else {
        block_with::<LabSuite>(alloc, request)
    }
}

// The reply block of a request for this suite.
fn block_with<S: Suite>(alloc: Global, request: &BlockRequest) -> Result<MadeBlock, Memory>
    requires suite { S.meaning ≡ meaning_for request.now.head.layout.ntru }
    requires in_range { IsRequestInRange (Block request.now) }
    ensures { IfOk result (λ made. block_made request.now ≡ Ok (made.block, keys_seen made.keys)) }
{
    let ntru = request.head.layout.ntru;
    let seed = &request.head.seed;
    let hops = request.hops.as_slice();
    let path = path_in(alloc, seed, hops)?;
    let coins = coins_in(alloc, ntru, seed, hops.len())?;
    let own = own_key_in(ntru, seed, hops.len());
    match make_block::<S>(
        alloc,
        &request.head.layout.geometry,
        &path,
        &request.recipient,
        &request.surb,
        &own,
        &coins,
    ) {
        Ok(made) => Ok(made),
        Err(fault) => Err(only_memory(fault)),
    }
}

// The reply block that goes with a packet, if there is one.
fn block_in(request: &PacketRequest) -> Option<&[u8]>
    ensures { option_copied result ≡ request.now.block }
{
    match &request.block {
        Some(block) => Some(block.as_slice()),
        None => None,
    }
}

// Want of memory, which is all that stops a maker at a request in the grammar.
fn only_memory(fault: MakeFault) -> Memory
    requires { cause_of fault ≡ None }
{
    match fault {
        MakeFault::Memory => Memory,
        MakeFault::PathLength
        | MakeFault::BodyLength
        | MakeFault::BlockLength
        | MakeFault::Delay { hop: _ }
        | MakeFault::KeyForm { hop: _ } => unreachable!(),
    }
}

// How many coins a hop of the suite takes.
fn coins_of_hop(ntru: bool) -> usize
    ensures coins { result ≡ (scheme_for ntru).coins }
    ensures most { result ≤ 761 }
{
    if ntru { NtruKem::COINS } else { LabKem::COINS }
}

// The coins of so many hops.
fn coins_in(alloc: Global, ntru: bool, seed: &[u8; 32], hops: usize) -> Result<Vec<u32>, Memory>
    requires { hops ≤ 5 }
    ensures coins { IfOk result (λ coins.
        coins.items ≡ coins_of (scheme_for ntru) seed.now hops) }
    ensures length { IfOk result (λ coins. vec_len coins ≡ hops * (scheme_for ntru).coins) }
{
    next_words(alloc, &mut ChaWords::new(seed), hops * coins_of_hop(ntru))
}

// The key of a block's maker, behind the coins of so many hops.
fn own_key_in(ntru: bool, seed: &[u8; 32], hops: usize) -> [u8; 128]
    requires { hops ≤ 5 }
    ensures { result ≡ own_key_of (scheme_for ntru) seed.now hops }
{
    let mut words = ChaWords::new(seed);
    skip_words(&mut words, hops * coins_of_hop(ntru));
    let mut drawn = [0; 32];
    draw(&mut words, &mut drawn);
    let mut key = [0; 128];
    write_words(&drawn, &mut key);
    key
}

// The path of hops, with the delays that are drawn under a seed.
fn path_in(alloc: Global, seed: &[u8; 32], hops: &[Hop]) -> Result<Vec<HopSpec>, AllocError>
    requires { All (λ hop. IsDelayInRange hop.delay) hops.now }
    ensures { IfOk result (λ path. path.items ≡ path_from (delay_words seed.now) hops.now) }
{
    draw_hops(alloc, &mut ChaWords::new(&hmac_sha256(seed, LABEL)), hops)
}

// The path of hops, with the delays that are drawn from the words.
fn draw_hops<W: Words>(
    alloc: Global,
    words: &mut W,
    hops: &[Hop],
) -> Result<Vec<HopSpec>, AllocError>
    requires { All (λ hop. IsDelayInRange hop.delay) hops.now }
    ensures { IfOk result (λ path. path.items ≡ path_from (W.to_come words.old) hops.now) }
{
    let mut path = Vec::new(alloc);
    'hops: for hop in hops {
        path.push(draw_hop(alloc, words, hop)?)?;
    }
    Ok(path)
}

// One hop, with the delay that is drawn from the next words.
fn draw_hop<W: Words>(alloc: Global, words: &mut W, hop: &Hop) -> Result<HopSpec, AllocError>
    requires { IsDelayInRange hop.now.delay }
    ensures hop { IfOk result (λ made. made ≡ hop_from (W.to_come words.old) hop.now) }
    ensures words { SkipsWords (taken_for (W.to_come words.old) hop.now.delay)
        (W.to_come words.old) (W.to_come words.new) }
{
    let delay = match hop.delay {
        Delay::Unsaid => None,
        Delay::Given { milliseconds } => Some(milliseconds),
        Delay::Drawn { draw } => Some(draw_delay(words, &draw)),
    };
    let key = Bytes::of(hop.key.as_slice().to_vec(alloc)?);
    let id = hop.id;
    Ok(HopSpec { id, key, delay })
}
