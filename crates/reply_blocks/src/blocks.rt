// Blocks: a header whose last hop finds a recipient and a reply id, the id of the first hop, and a key of the maker's
// own. What a block is for is a law: an answer to it comes back and opens.
ghost use Rattle.std.specs.Prelude.{◌≡◌, ◌+◌, ◌*◌, length, Err, IfOk, IsErrOf};
ghost use Rattle.mix_base.specs.Results.{GivesAs};
ghost use Rattle.packet_form.specs.Geometry as lengths;
ghost use Rattle.packet_form.specs.declared.commands.Exit.TheVariants.{Reply};
ghost use Rattle.sphinx_make.specs.Carrying.{CarriesEachPayload};
ghost use Rattle.sphinx_make.specs.Faults.{cause_of};
ghost use Rattle.sphinx_make.specs.Making.{checked};
ghost use Rattle.sphinx_make.specs.declared.faults.MakeFault.{MakeFault};
ghost use Rattle.reply_blocks.specs.Blocks.{block_of, header_in, keys_seen, made_block};
ghost use Rattle.reply_blocks.specs.WayBack.{EachAnswerComesBack};

use mix_base::{Bytes, Suite};
use packet_form::{Exit, Geometry};
use sphinx_make::{HopSpec, MadeHeader, MakeFault, make_header};
use std::alloc::{AllocError, Global};

/// What opens a reply to a block: keys of the wide block cipher.
#[derive(Drop)]
pub struct BlockKeys {
    /// Those of the hops, in path order.
    pub hops: Vec<[u8; 128]>,
    /// The one that stands in the block.
    pub own: [u8; 128],
}

/// A block, and the keys that its maker keeps.
#[derive(Drop)]
pub struct MadeBlock {
    pub block: Bytes,
    pub keys: BlockKeys,
}

/// A block for a path, of the geometry's block length, with a key of the maker's own; the path's last hop finds this
/// recipient and this reply id. Asks and refuses as `make_header`: it asks the geometry of the suite's ciphertexts, and as
/// many coins for each hop as the mechanism takes. The first cause is the answer: `PathLength`, `Delay`, `KeyForm`.
#[tactic(auto, unfolding(crate::specs::Blocks::made_block, sphinx_make::specs::Making::made_header, sphinx_make::specs::Making::checked, sphinx_make::specs::Making::checked_count))]
pub fn make_block<S: Suite>(
    alloc: Global,
    geo: &Geometry,
    path: &[HopSpec],
    recipient: &[u8; 32],
    surb: &[u8; 16],
    own: &[u8; 128],
    coins: &[u32],
) -> Result<MadeBlock, MakeFault>
    requires ciphertext { geo.now.ct ≡ S.K.CT }
    requires coins { length coins.now ≡ length path.now * S.K.COINS }

    // The bytes and keys of the definition, or its refusal.
    ensures exact { GivesAs cause_of (λ made. (made.block, keys_seen made.keys)) result
        (made_block S.meaning geo.now path.now recipient.now surb.now own.now coins.now) }
    // What is refused for the path's length or a delay is refused whether or not there is memory.
    ensures at_once { (why : MakeFault) → checked geo.now path.now ≡ Err why → IsErrOf result why }
    // Where secret keys agree with the path's, a payload behind the block's header is carried along to the reply's
    // commands.
    ensures carries { IfOk result (λ made.
        let last = Reply recipient.now surb.now in let header = header_in geo.now made.block in
        CarriesEachPayload S.meaning geo.now path.now last header made.keys.hops.items) }
    ensures length { IfOk result (λ made. length made.block ≡ lengths.block geo.now) }
    // The same keys agree: the answer with whatever body goes along the path, and opens to this body.
    ensures comes_back { IfOk result (λ made. EachAnswerComesBack S.meaning geo.now path.now
        recipient.now surb.now made.block (keys_seen made.keys)) }
{
    let Some((first, _)) = path.split_first() else {
        return Err(MakeFault::PathLength);
    };
    let last = Exit::Reply {
        id: *recipient,
        surb: *surb,
    };
    let made = make_header::<S>(alloc, geo, path, &last, coins)?;
    let MadeHeader { header, wides } = made;
    let block = join_block(header, &first.id, own)?;
    let keys = BlockKeys {
        hops: wides,
        own: *own,
    };
    Ok(MadeBlock { block, keys })
}

// The header, the id of the first hop, and the own key.
fn join_block(header: Bytes, first: &[u8; 32], own: &[u8; 128]) -> Result<Bytes, AllocError>
    ensures value { IfOk result (λ block. block ≡ block_of header first.now own.now) }
    ensures length { IfOk result (λ block. length block ≡ length header + 32 + 128) }
{
    let mut block = header.into_vec();
    block.extend_from_slice(first)?;
    block.extend_from_slice(own)?;
    Ok(Bytes::of(block))
}
