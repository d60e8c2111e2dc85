// The lines of a request to `make`: each is read exactly where it is in the grammar, behind what the lines before it
// said.
ghost use Rattle.std.specs.Prelude.{◌≡◌, ◌<◌, ◌≤◌, ◌^◌, length, All, option_and_then};
ghost use Rattle.std.specs.Prelude.{IfOk, IfSome, IsTrue};
ghost use Rattle.packet_form.specs.Geometry as lengths;
ghost use Rattle.lab_text.specs.Faults.{ReadsAs, ReadsWords};
ghost use Rattle.lab_text.specs.Sizes.{AreSizesInRange};
ghost use Rattle.lab_text.specs.WordForms.{only_word};
ghost use Rattle.lab_text.specs.Words.{words_of};
ghost use Rattle.mix_tools.specs.Drafts.{IsDelayInRange, IsDraftInRange, IsDrawInRange, IsHopInRange};
ghost use Rattle.mix_tools.specs.Drafts.{IsPathInRange, IsPathWhole, IsRequestInRange};
ghost use Rattle.mix_tools.specs.MakeLines.{begun, block_in, delay_in, draw_in, draw_line, ended_path};
ghost use Rattle.mix_tools.specs.MakeLines.{hop_in, hop_line, id_and_bytes, make_line, packet_in};
ghost use Rattle.mix_tools.specs.MakeLines.{path_line, reply_in, to_line};
ghost use Rattle.mix_tools.specs.Suites.{decodes_for, scheme_for};
ghost use Rattle.mix_tools.specs.declared.requests.Request.TheVariants.{Packet, Block};

use crate::first_lines::{layout, read_seed_line};
use crate::requests::{
    BlockRequest, Delay, Draft, Head, Hop, Hops, PacketRequest, Product, Request, SeedLine,
};
use lab_text::{
    WordFault, next_bytes, next_number, next_word, one_word, read_32, read_number, read_surb,
    sized_bytes,
};
use mix_base::{Bytes, Kem, Memory};
use ntru_prime::{NtruKem, is_public_key};
use packet_form::{Geometry, LONGEST_DELAY};
use prim_std::LabKem;
use sphinx_make::Draw;
use std::alloc::Global;

/// The greatest threshold of a draw.
const LAST_THRESHOLD: u64 = 4_294_967_295;

/// The longest unit of a draw, in milliseconds.
const LONGEST_UNIT: u64 = 60_000;

/// The first line of a request to `make`.
pub fn read_make_line(alloc: Global, first: &[u8], rest: &[u8]) -> Option<Draft>
    ensures exact { result ≡ make_line first.now (words_of rest.now) }
    ensures in_range { IfSome result IsDraftInRange }
{
    if first == b"packet".as_slice() {
        Some(begin(alloc, Product::Packet, &read_seed_line(rest)?))
    } else if first == b"block".as_slice() {
        Some(begin(alloc, Product::Block, &read_seed_line(rest)?))
    } else {
        None
    }
}

// The draft that a first line begins.
fn begin(alloc: Global, product: Product, line: &SeedLine) -> Draft
    requires { AreSizesInRange line.now.sizes }
    ensures exact { result ≡ begun product line.now }
    ensures in_range { IsDraftInRange result }
{
    let layout = layout(&line.sizes);
    let seed = line.seed;
    Draft::Path {
        product,
        head: Head { layout, seed },
        draw: None,
        hops: Hops::new(alloc),
    }
}

/// A line behind the first.
pub fn read_path_line(
    alloc: Global,
    product: Product,
    head: Head,
    draw: Option<Draw>,
    hops: Hops,
    first: &[u8],
    rest: &[u8],
) -> Result<Draft, WordFault>
    requires path { IsPathInRange head hops }
    requires draw { IfSome draw IsDrawInRange }
    ensures exact { ReadsWords
        (path_line product head draw hops first.now (words_of rest.now)) result }
    ensures in_range { IfOk result IsDraftInRange }
{
    if first == b"draw".as_slice() {
        read_draw_line(product, head, draw, hops, rest).ok_or(WordFault::Outside)
    } else if first == b"hop".as_slice() {
        read_hop_line(alloc, product, head, draw, hops, rest)
    } else if first == b"to".as_slice() {
        read_to_line(alloc, product, head, hops, rest)
    } else {
        Err(WordFault::Outside)
    }
}

// How delays are drawn, once, before the first hop.
fn read_draw_line(
    product: Product,
    head: Head,
    draw: Option<Draw>,
    hops: Hops,
    rest: &[u8],
) -> Option<Draft>
    requires { IsPathInRange head hops }
    ensures exact { result ≡ draw_line product head draw hops (words_of rest.now) }
    ensures in_range { IfSome result IsDraftInRange }
{
    if draw.is_some() || !hops.is_empty() {
        return None;
    }
    let draw = Some(read_draw(rest)?);
    Some(Draft::Path {
        product,
        head,
        draw,
        hops,
    })
}

// What stands behind `draw`.
fn read_draw(rest: &[u8]) -> Option<Draw>
    ensures exact { result ≡ draw_in (words_of rest.now) }
    ensures in_range { IfSome result IsDrawInRange }
{
    let (threshold, rest) = next_number(rest, 0, LAST_THRESHOLD)?;
    let (unit, rest) = next_number(rest, 1, LONGEST_UNIT)?;
    let cap = read_number(one_word(rest)?, 0, u64::from(LONGEST_DELAY))?;
    Some(Draw {
        threshold: threshold as u32,
        unit: unit as u32,
        cap: cap as u32,
    })
}

// One more hop, where the geometry has room for it.
fn read_hop_line(
    alloc: Global,
    product: Product,
    head: Head,
    draw: Option<Draw>,
    hops: Hops,
    rest: &[u8],
) -> Result<Draft, WordFault>
    requires path { IsPathInRange head hops }
    requires draw { IfSome draw IsDrawInRange }
    ensures exact { ReadsWords (hop_line product head draw hops (words_of rest.now)) result }
    ensures in_range { IfOk result IsDraftInRange }
{
    if hops.len() >= head.layout.geometry.hops() {
        return Err(WordFault::Outside);
    }
    let hop = read_hop(alloc, head.layout.ntru, draw, rest)?;
    let hops = hops.with(hop)?;
    Ok(Draft::Path {
        product,
        head,
        draw,
        hops,
    })
}

// What stands behind `hop`.
fn read_hop(alloc: Global, ntru: bool, draw: Option<Draw>, rest: &[u8]) -> Result<Hop, WordFault>
    requires { IfSome draw IsDrawInRange }
    ensures exact { ReadsWords (hop_in ntru draw (words_of rest.now)) result }
    ensures in_range { IfOk result (IsHopInRange ntru) }
{
    let (id, key, rest) = next_id_and_bytes(alloc, rest, key_length(ntru))?;
    let delay = read_delay(draw, rest).ok_or(WordFault::Outside)?;
    if decodes(alloc, ntru, key.as_slice())? {
        Ok(Hop { id, key, delay })
    } else {
        Err(WordFault::Outside)
    }
}

// The length of a public key of the suite.
fn key_length(ntru: bool) -> usize
    ensures { result ≡ (scheme_for ntru).public_key }
{
    if ntru { NtruKem::PK } else { LabKem::PK }
}

// Whether bytes of that length decode.
fn decodes(alloc: Global, ntru: bool, key: &[u8]) -> Result<bool, Memory>
    requires { length key.now ≡ (scheme_for ntru).public_key }
    ensures { IfOk result (λ fine. fine ≡ decodes_for ntru key.now) }
{
    if ntru {
        is_public_key(alloc, key)
    } else {
        Ok(true)
    }
}

// An id of 32 bytes and bytes of this length as the first two words, and what stands behind them.
fn next_id_and_bytes(
    alloc: Global,
    rest: &[u8],
    size: usize,
) -> Result<([u8; 32], Bytes, &[u8]), WordFault>
    ensures exact { ReadsAs (λ x. (x.0, x.1, words_of x.2.now))
        (id_and_bytes size (words_of rest.now)) result }
    ensures length { IfOk result (λ x. length x.1 ≡ size) }
{
    let (word, rest) = next_word(rest).ok_or(WordFault::Outside)?;
    let id = read_32(word).ok_or(WordFault::Outside)?;
    let (bytes, rest) = next_bytes(alloc, rest, size)?;
    Ok((id, bytes, rest))
}

// A delay as the only word.
fn read_delay(draw: Option<Draw>, rest: &[u8]) -> Option<Delay>
    requires { IfSome draw IsDrawInRange }
    ensures exact { result ≡ option_and_then (delay_in draw) (only_word (words_of rest.now)) }
    ensures in_range { IfSome result IsDelayInRange }
{
    let word = one_word(rest)?;
    if word == b"-".as_slice() {
        return Some(Delay::Unsaid);
    }
    if word == b"draw".as_slice() {
        return Some(Delay::Drawn { draw: draw? });
    }
    let milliseconds = read_number(word, 0, u64::from(LONGEST_DELAY))?;
    Some(Delay::Given {
        milliseconds: milliseconds as u32,
    })
}

// The recipient's line, behind one hop at least.
fn read_to_line(
    alloc: Global,
    product: Product,
    head: Head,
    hops: Hops,
    rest: &[u8],
) -> Result<Draft, WordFault>
    requires { IsPathInRange head hops }
    ensures exact { ReadsWords (to_line product head hops (words_of rest.now)) result }
    ensures in_range { IfOk result IsDraftInRange }
{
    if hops.is_empty() {
        return Err(WordFault::Outside);
    }
    end_path(alloc, product, head, hops, rest)
}

// What stands behind `to`, for either product.
fn end_path(
    alloc: Global,
    product: Product,
    head: Head,
    hops: Hops,
    rest: &[u8],
) -> Result<Draft, WordFault>
    requires { IsPathWhole head hops }
    ensures exact { ReadsWords (ended_path product head hops (words_of rest.now)) result }
    ensures in_range { IfOk result IsDraftInRange }
{
    let request = match product {
        Product::Packet => Request::Packet {
            packet: read_packet(alloc, head, hops, rest)?,
        },
        Product::Block => Request::Block {
            block: read_reply(head, hops, rest).ok_or(WordFault::Outside)?,
        },
    };
    Ok(Draft::Whole { request })
}

// What stands behind `to` for a packet.
fn read_packet(
    alloc: Global,
    head: Head,
    hops: Hops,
    rest: &[u8],
) -> Result<PacketRequest, WordFault>
    requires { IsPathWhole head hops }
    ensures exact { ReadsWords (packet_in head hops (words_of rest.now)) result }
    ensures in_range { IfOk result (λ packet. IsRequestInRange (Packet packet)) }
{
    let (recipient, body, rest) = next_id_and_bytes(alloc, rest, head.layout.geometry.body())?;
    let block = read_block(alloc, &head.layout.geometry, rest)?;
    Ok(PacketRequest {
        head,
        hops,
        recipient,
        body,
        block,
    })
}

// What stands behind `to` for a block.
fn read_reply(head: Head, hops: Hops, rest: &[u8]) -> Option<BlockRequest>
    requires { IsPathWhole head hops }
    ensures exact { result ≡ reply_in head hops (words_of rest.now) }
    ensures in_range { IfSome result (λ b. IsRequestInRange (Block b)) }
{
    let (word, rest) = next_word(rest)?;
    let recipient = read_32(word)?;
    let surb = read_surb(one_word(rest)?)?;
    Some(BlockRequest {
        head,
        hops,
        recipient,
        surb,
    })
}

// A reply block as the only word, or no word.
fn read_block(alloc: Global, geometry: &Geometry, rest: &[u8]) -> Result<Option<Bytes>, WordFault>
    ensures exact { ReadsWords (block_in geometry.now (words_of rest.now)) result }
    ensures in_range { IfOk result (λ block.
        IfSome block (λ bytes. length bytes ≡ lengths.block geometry.now)) }
{
    let Some((word, rest)) = next_word(rest) else {
        return Ok(None);
    };
    if next_word(rest).is_some() {
        return Err(WordFault::Outside);
    }
    let block = sized_bytes(alloc, word, geometry.block())?;
    Ok(Some(block))
}
