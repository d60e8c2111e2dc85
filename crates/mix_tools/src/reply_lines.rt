// The lines of a request to `answer` a reply block, and of one to `open` what came back: each is read exactly where it
// is in the grammar.
ghost use Rattle.std.specs.Prelude.{◌≡◌, ◌≤◌, IfOk, IfSome, IsTrue, length};
ghost use Rattle.packet_form.specs.Geometry as lengths;
ghost use Rattle.lab_text.specs.Faults.{ReadsWords};
ghost use Rattle.lab_text.specs.Words.{words_of};
ghost use Rattle.mix_tools.specs.Drafts.{IsDraftInRange};
ghost use Rattle.mix_tools.specs.ReplyLines.{answer_line, are_keys, block_line, body_line, keys_in};
ghost use Rattle.mix_tools.specs.ReplyLines.{keys_line, layout_under, open_line, payload_line};

use crate::first_lines::{layout, read_sizes_line};
use crate::requests::{AnswerRequest, Draft, KEY, Layout, OpenRequest, Request};
use lab_text::{WordFault, one_word, read_bytes, whole_bytes};
use mix_base::Bytes;
use packet_form::Geometry;
use std::alloc::Global;

// A first line of sizes under a name: the layout that it says.
fn read_layout_under(name: &[u8], first: &[u8], rest: &[u8]) -> Option<Layout>
    ensures { result ≡ layout_under name.now first.now (words_of rest.now) }
{
    if first == name {
        Some(layout(&read_sizes_line(rest)?))
    } else {
        None
    }
}

/// The first line of a request to `answer`.
pub fn read_answer_line(first: &[u8], rest: &[u8]) -> Option<Draft>
    ensures exact { result ≡ answer_line first.now (words_of rest.now) }
    ensures in_range { IfSome result IsDraftInRange }
{
    let layout = read_layout_under(b"answer", first, rest)?;
    Some(Draft::AnswerSizes { layout })
}

/// The block that is answered.
pub fn read_block_line(
    alloc: Global,
    layout: Layout,
    first: &[u8],
    rest: &[u8],
) -> Result<Draft, WordFault>
    ensures exact { ReadsWords (block_line layout first.now (words_of rest.now)) result }
    ensures in_range { IfOk result IsDraftInRange }
{
    if first != b"block".as_slice() {
        return Err(WordFault::Outside);
    }
    let block = whole_bytes(alloc, rest, layout.geometry.block())?;
    Ok(Draft::AnswerBlock { layout, block })
}

/// The body of the answer.
pub fn read_body_line(
    alloc: Global,
    layout: Layout,
    block: Bytes,
    first: &[u8],
    rest: &[u8],
) -> Result<Draft, WordFault>
    requires { length block ≡ lengths.block layout.geometry }
    ensures exact { ReadsWords (body_line layout block first.now (words_of rest.now)) result }
    ensures in_range { IfOk result IsDraftInRange }
{
    if first != b"body".as_slice() {
        return Err(WordFault::Outside);
    }
    let body = whole_bytes(alloc, rest, layout.geometry.body())?;
    let answer = AnswerRequest {
        layout,
        block,
        body,
    };
    Ok(Draft::Whole {
        request: Request::Answer { answer },
    })
}

/// The first line of a request to `open`.
pub fn read_open_line(first: &[u8], rest: &[u8]) -> Option<Draft>
    ensures exact { result ≡ open_line first.now (words_of rest.now) }
    ensures in_range { IfSome result IsDraftInRange }
{
    let layout = read_layout_under(b"open", first, rest)?;
    Some(Draft::OpenSizes { layout })
}

/// The keys of a block.
pub fn read_keys_line(
    alloc: Global,
    layout: Layout,
    first: &[u8],
    rest: &[u8],
) -> Result<Draft, WordFault>
    ensures exact { ReadsWords (keys_line layout first.now (words_of rest.now)) result }
    ensures in_range { IfOk result IsDraftInRange }
{
    if first != b"keys".as_slice() {
        return Err(WordFault::Outside);
    }
    let keys = read_keys(alloc, &layout.geometry, rest)?;
    Ok(Draft::OpenKeys { layout, keys })
}

// Keys as the only word.
fn read_keys(alloc: Global, geometry: &Geometry, rest: &[u8]) -> Result<Bytes, WordFault>
    ensures exact { ReadsWords (keys_in geometry.now (words_of rest.now)) result }
    ensures in_range { IfOk result (λ bytes. IsTrue (are_keys geometry.now bytes)) }
{
    let word = one_word(rest).ok_or(WordFault::Outside)?;
    let bytes = read_bytes(alloc, word)?;
    if holds_keys(geometry, &bytes) {
        Ok(Bytes::of(bytes))
    } else {
        Err(WordFault::Outside)
    }
}

// Whether bytes are the keys of 1 to the geometry's number of hops, and one more.
fn holds_keys(geometry: &Geometry, bytes: &[u8]) -> bool
    ensures { result ≡ are_keys geometry.now bytes.now }
{
    let count = bytes.len() / KEY;
    KEY * count == bytes.len() && 2 <= count && count <= geometry.hops() + 1
}

/// The payload that came back.
pub fn read_payload_line(
    alloc: Global,
    layout: Layout,
    keys: Bytes,
    first: &[u8],
    rest: &[u8],
) -> Result<Draft, WordFault>
    requires { IsTrue (are_keys layout.geometry keys) }
    ensures exact { ReadsWords (payload_line layout keys first.now (words_of rest.now)) result }
    ensures in_range { IfOk result IsDraftInRange }
{
    if first != b"payload".as_slice() {
        return Err(WordFault::Outside);
    }
    let payload = whole_bytes(alloc, rest, layout.geometry.payload())?;
    let opening = OpenRequest {
        layout,
        keys,
        payload,
    };
    Ok(Draft::Whole {
        request: Request::Open { opening },
    })
}
